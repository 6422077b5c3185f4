// Cases of the master.
ghost use Rattle.std.specs.Prelude.{◌≤◌};

use crate::output::{print_counts, print_flag, print_item};
use crate::{middle, narrow, plan_of, wide};
use machine_master::{Answer, Command, Event, Hold, Master, Phase};
use machine_state::state_of;
use test_output::{print, print_hold, print_status};

fn phase_of(x: u64) -> Phase {
    match x {
        0 => Phase::Open,
        1 => Phase::Sending,
        2 => Phase::Withdrawn,
        _ => Phase::Closing,
    }
}

fn hold_of(held: u64, age: u64) -> Hold {
    Hold {
        held: held == 1,
        age: middle(age),
    }
}

// The place of a case's second node, of plan 4 the last.
fn second(plan: u64) -> usize
    ensures { result ≤ 15 }
{
    if plan == 4 { 15 } else { 1 }
}

fn master_of(v: [u64; 22]) -> Master {
    let start = Master::power_on(true);
    let node = second(v[1]);
    let mut holds = start.holds;
    holds[0] = hold_of(v[5], v[6]);
    holds[node] = hold_of(v[7], v[8]);
    let mut causes = start.causes;
    causes[0] = narrow(v[20]);
    causes[node] = narrow(v[21]);
    let mut counts = start.counts;
    counts[16] = narrow(v[9]);
    counts[17] = narrow(v[10]);
    Master {
        state: state_of(narrow(v[2])),
        phase: phase_of(v[3]),
        permission: v[4] == 1,
        holds,
        causes,
        counts,
        delay: middle(v[11]),
        ticks: wide(v[12]),
    }
}

fn event_of(v: [u64; 22]) -> Event {
    let kind = v[13];
    match kind {
        0 => Event::Tick,
        1 => Event::Answer(Answer {
            reqid: narrow(v[14]),
            result: middle(v[15]),
            length: middle(v[16]),
            count: narrow(v[17]),
            permission: v[18] == 1,
            wake: v[19] == 1,
        }),
        2 => Event::Pulse,
        3 => Event::WakeAsk,
        4 => Event::Permission(v[14] == 1),
        5 => Event::SleepAsk,
        _ => Event::SendResult(v[14] == 1),
    }
}

fn print_command(rt: &HostRuntime, command: Command) {
    match command {
        Command::Nothing => print(rt, b"nothing "),
        Command::ClockOn => print(rt, b"clock-on "),
        Command::ClockOff => print(rt, b"clock-off "),
        Command::SleepMessage => print(rt, b"sleep-message "),
    }
}

fn print_cause(rt: &HostRuntime, cause: u8) {
    match cause {
        Master::NEW => {}
        Master::REFUSED => print(rt, b"refused "),
        Master::AGED => print(rt, b"aged "),
        Master::DAMAGED => print(rt, b"damaged "),
        Master::WAKE => print(rt, b"wake "),
        _ => print_item(rt, cause as u64),
    }
}

fn print_master(rt: &HostRuntime, m: Master, plan: u64) {
    let state = m.state;
    let phase = m.phase;
    let holds = m.holds;
    let causes = m.causes;
    let counts = m.counts;
    let node = second(plan);
    print_status(rt, state, phase);
    print(rt, b" ");
    print_flag(rt, m.permission, b"permits");
    print_hold(rt, holds[0]);
    print(rt, b" ");
    print_cause(rt, causes[0]);
    print_hold(rt, holds[node]);
    print(rt, b" ");
    print_cause(rt, causes[node]);
    print_counts(rt, counts);
    print_item(rt, m.delay as u64);
    print_item(rt, m.ticks as u64);
}

pub(crate) fn run(rt: &HostRuntime, v: [u64; 22]) {
    let reply = master_of(v).step(plan_of(rt, v[1]), event_of(v));
    let next = reply.master;
    let command = reply.command;
    print_master(rt, next, v[1]);
    print_command(rt, command);
    print_item(rt, reply.refusal as u64);
    print_item(rt, reply.node as u64);
    print_item(rt, reply.lost as u64);
}
