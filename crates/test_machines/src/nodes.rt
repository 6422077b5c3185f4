// Cases of a node.
use crate::output::{print_counts, print_flag, print_item};
use crate::{middle, narrow, plan_of, wide};
use machine_node::{Command, Event, Node};
use machine_state::state_of;
use test_output::{print, print_state};

fn delay_of(x: u64) -> Option<u16> {
    if x == 0 { None } else { Some(middle(x - 1)) }
}

fn node_of(v: [u64; 22]) -> Node {
    let start = Node::power_on(true);
    let mut counts = start.counts;
    counts[16] = narrow(v[11]);
    counts[17] = narrow(v[12]);
    Node {
        state: state_of(narrow(v[2])),
        permission: v[3] == 1,
        error: v[4] == 1,
        wake: v[5] == 1,
        heard: v[6] == 1,
        caller: v[7] == 1,
        quiet: middle(v[8]),
        delay: delay_of(v[9]),
        standby: wide(v[10]),
        counts,
    }
}

fn event_of(v: [u64; 22]) -> Event {
    let kind = v[13];
    match kind {
        0 => Event::Tick(v[14] == 1),
        1 => Event::Pulse,
        2 => Event::WakeAsk,
        3 => Event::Permission(v[14] == 1),
        4 => Event::SleepMessage,
        5 => Event::Request(narrow(v[14])),
        _ => Event::SendAsk(narrow(v[14])),
    }
}

fn print_command(rt: &HostRuntime, command: Command) {
    match command {
        Command::Nothing => print(rt, b"nothing "),
        Command::Pulse => print(rt, b"pulse "),
        Command::Send {
            permission,
            wake,
            count,
        } => {
            print(rt, b"send ");
            print_item(rt, permission as u64);
            print_item(rt, wake as u64);
            print_item(rt, count as u64);
        }
    }
}

fn print_delay(rt: &HostRuntime, delay: Option<u16>) {
    match delay {
        None => print(rt, b"- "),
        Some(ticks) => print_item(rt, ticks as u64),
    }
}

fn print_node(rt: &HostRuntime, n: Node) {
    let state = n.state;
    let delay = n.delay;
    let counts = n.counts;
    print_state(rt, state);
    print(rt, b" ");
    print_flag(rt, n.permission, b"permits");
    print_flag(rt, n.error, b"error");
    print_flag(rt, n.wake, b"wake");
    print_flag(rt, n.heard, b"heard");
    print_flag(rt, n.caller, b"caller");
    print_item(rt, n.quiet as u64);
    print_delay(rt, delay);
    print_item(rt, n.standby as u64);
    print_counts(rt, counts);
}

pub(crate) fn run(rt: &HostRuntime, v: [u64; 22]) {
    let reply = node_of(v).step(plan_of(rt, v[1]), narrow(v[15]), event_of(v));
    let next = reply.node;
    let command = reply.command;
    print_node(rt, next);
    print_command(rt, command);
    print_item(rt, reply.refusal as u64);
}
