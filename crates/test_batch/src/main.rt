// A test of the master's batch call. Its input is lists of six event records, each after a byte for the plan and one for the start. Of each it
// prints what the call answers, the master, and seven replies: a place more than there are events. tests/batches/make.py writes the lists.
#![tactic(auto)]

ghost use Rattle.std.specs.Prelude.{◌≡◌, ◌≤◌};
ghost use Rattle.machine_batch.specs.Batch.{batch_of, batch_replies};

use base_bytes::{byte_at, number_at};
use base_refusals::number_of;
use machine_events::{EventRecord, ReplyRecord};
use machine_master::{Hold, Master};
use set_plan::Plan;
use test_output::{print, print_hold, print_number, print_status};

// A list's bytes: the plan and the start, then six records of 10.
const LIST_LENGTH: usize = 62;

#[derive(Clone, Copy)]
struct Ran {
    refusal: u8,
    master: Master,
    replies: [ReplyRecord; 7],
}

// Arrays by value, lent to the call: whoever calls this one needs no proof by hand.
fn run_six(plan: Plan, master: Master, events: [EventRecord; 6], replies: [ReplyRecord; 7]) -> Ran
    ensures { (result.refusal ≡ (batch_of plan master events replies).refusal) × (result.master ≡ (batch_of plan master events replies).master) × (result.replies ≡ batch_replies plan master events replies) }
{
    let mut written = replies;
    let batch = machine_batch::run(plan, master, &events, &mut written);
    Ran {
        refusal: number_of(batch),
        master: batch.unwrap_or(master),
        replies: written,
    }
}

fn print_item(rt: &HostRuntime, number: u64) {
    print(rt, b" ");
    print_number(rt, number);
}

fn print_permission(rt: &HostRuntime, hold: Hold) {
    print(rt, b" ");
    print_hold(rt, hold);
}

fn print_master(rt: &HostRuntime, master: Master) {
    let state = master.state;
    let phase = master.phase;
    let holds = master.holds;
    let counts = master.counts;
    let count = counts[16];
    print(rt, b" ");
    print_status(rt, state, phase);
    if master.permission {
        print(rt, b" permits");
    }
    print_permission(rt, holds[0]);
    print_permission(rt, holds[1]);
    print_item(rt, count as u64);
    print_item(rt, master.delay as u64);
    print_item(rt, master.ticks as u64);
}

fn print_reply(rt: &HostRuntime, reply: ReplyRecord) {
    print(rt, b",");
    print_item(rt, reply.refusal as u64);
    print_item(rt, reply.node as u64);
    print_item(rt, reply.command as u64);
    print_item(rt, reply.lost as u64);
}

fn print_ran(rt: &HostRuntime, ran: Ran) {
    let master = ran.master;
    let replies = ran.replies;
    print_number(rt, ran.refusal as u64);
    print_master(rt, master);
    for reply in replies {
        print_reply(rt, reply);
    }
    print(rt, b"\n");
}

fn set_of(rt: &HostRuntime, number: u8) -> Plan {
    program_files::numbered_plan(rt, b"test_batch", number as u64)
}

// No set can hold plan 1: it is plan 0 with revision 0.
fn plan_of(rt: &HostRuntime, number: u8) -> Plan {
    if number == 1 {
        return Plan {
            revision: 0,
            ..set_of(rt, 0)
        };
    }
    set_of(rt, number)
}

// The event record at an offset; numbers of two bytes are big-endian.
fn event_at(text: &[u8], at: u16) -> EventRecord {
    let start = at as usize;
    EventRecord {
        kind: byte_at(text, start),
        reqid: byte_at(text, start + 1),
        result: number_at(text, start + 2),
        length: number_at(text, start + 4),
        count: byte_at(text, start + 6),
        permission: byte_at(text, start + 7),
        wake: byte_at(text, start + 8),
        flag: byte_at(text, start + 9),
    }
}

// Six records after the bytes of plan and start.
fn events_of(list: &[u8]) -> [EventRecord; 6] {
    std::array::from_fn(|k| event_at(list, 2 + 10 * (k as u16)))
}

// Where a list starts from: 0 the plan's power-on, 1 what the list before it left, 2 a state out of range.
fn start_of(start: u8, sleeps: bool, left: Master) -> Master {
    if start == 0 {
        return Master::power_on(sleeps);
    }
    if start == 1 {
        return left;
    }
    Master {
        delay: 1,
        ..Master::power_on(true)
    }
}

fn run_list(rt: &HostRuntime, list: &[u8], left: Master) -> Master {
    let untouched = ReplyRecord {
        refusal: 9,
        node: 9,
        command: 9,
        lost: 9,
    };
    let plan = plan_of(rt, byte_at(list, 0));
    let start = start_of(byte_at(list, 1), plan.sleeps(), left);
    let ran = run_six(plan, start, events_of(list), [untouched; 7]);
    print_ran(rt, ran);
    ran.master
}

fn run_lists(rt: &HostRuntime, text: &[u8]) {
    let mut left = Master::power_on(true);
    for list in text.chunks(LIST_LENGTH) {
        left = run_list(rt, list, left);
    }
}

fn main(rt: HostRuntime) {
    let mut input = program_files::text_room();
    let count = program_files::read_input(&rt, &mut input);
    run_lists(&rt, &input[..count]);
}
