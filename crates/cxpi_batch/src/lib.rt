// The C firmware host's call for the master's events of a frame slot, which `cxpi_batch_c` exports. An archive of its own: the steps of `cxpi` stay as the compiler makes them.
#![tactic(auto)]

ghost use Rattle.std.specs.Prelude.{◌≡◌};
ghost use Rattle.base_refusals.specs.Numbers.{number_of};
ghost use Rattle.set_record.specs.Record.{record_of};
ghost use Rattle.machine_master.specs.Step.{master_step};
ghost use Rattle.machine_events.specs.Replies.{reply_record};
ghost use Rattle.machine_batch.specs.Batch.{stepped, batch_of, batch_replies};
ghost use Rattle.packed_master.specs.States.{master_bytes, master_of};
ghost use Rattle.cxpi_batch.specs.BatchCalls.{standing, left_under, batch_leaves};

use base_refusals::{Refusal, number_of};
use machine_events::{EventRecord, ReplyRecord, command_number, event_of};
use machine_master::Event;
use packed_master::{master_of, put_master, step_on};
use packed_master_steps::step_in_place;

// Judges plan and state once for all events. Where nothing is refused, the state's bytes are those that its master is packed in.
fn judge(plan: &[u8], state: &[u8]) -> Result<(), Refusal>
    ensures { (number_of result ≡ standing (record_of plan.now) (master_of state.now))
        × (state.now ≡ left_under (number_of result) state.now (master_of state.now)) }
{
    set_record::judge(plan)?;
    let times = set_record::times_of(plan);
    let sleeps = set_record::sleeps(plan);
    let nodes = set_record::node_count(plan);
    Refusal::NoState.unless(master_of(state).in_range(sleeps, nodes, times))
}

// The same of a state that is lent to be written.
fn opened(plan: &[u8], state: &mut [u8]) -> u8
    ensures { (result ≡ standing (record_of plan.now) (master_of state.old))
        × (state.new ≡ left_under result state.old (master_of state.old))
        × (master_of state.new ≡ master_of state.old) }
{
    number_of(judge(plan, state))
}

// An event by the machine itself.
fn machine_step(plan: &[u8], state: &mut [u8], event: Event) -> ReplyRecord
    requires { standing (record_of plan.now) (master_of state.old) ≡ 0 }
    ensures { (result ≡ reply_record (master_step (record_of plan.now) (master_of state.old) event))
        × (state.new ≡ master_bytes (master_step (record_of plan.now) (master_of state.old) event).master)
        × (master_of state.new ≡ (master_step (record_of plan.now) (master_of state.old) event).master) }
{
    let given = step_on(plan, state, event);
    let master = given.master;
    let command = given.command;
    put_master(state, master);
    ReplyRecord {
        refusal: given.refusal,
        node: given.node,
        command: command_number(command),
        lost: given.lost,
    }
}

// A reply that names no node and commands nothing.
fn replied(refusal: u8, lost: u8) -> ReplyRecord
    ensures { result ≡ record { refusal = refusal; node = 0; command = 0; lost = lost } }
{
    ReplyRecord {
        refusal,
        node: 0,
        command: 0,
        lost,
    }
}

// The reply to an event under the number that plan and state give. Ticks and answers, which fill a slot, are done in the state's bytes where that is simple.
fn reply_of(plan: &[u8], state: &mut [u8], number: u8, event: EventRecord) -> ReplyRecord
    requires { (number ≡ standing (record_of plan.now) (master_of state.old)) × (state.old ≡ left_under number state.old (master_of state.old)) }
    ensures { (result ≡ (stepped (record_of plan.now) (master_of state.old) event).reply)
        × (state.new ≡ left_under number state.old (stepped (record_of plan.now) (master_of state.old) event).master)
        × (master_of state.new ≡ (stepped (record_of plan.now) (master_of state.old) event).master) }
{
    // Under 0 a state has its length. The compiler, told so, spares the tests of each byte.
    if (number != 0) | (state.len() != packed_master::LENGTH) {
        return replied(number, 0);
    }
    let happened = event_of(event);
    let outcome = step_in_place(plan, state, happened);
    match outcome {
        Some(lost) => replied(0, lost),
        None => machine_step(plan, state, happened),
    }
}

// Each event in order, its reply to its own place. Plan and state are judged once.
pub fn cxpi_master_batch(
    plan: &[u8],
    state: &mut [u8],
    events: &[EventRecord],
    replies: &mut [ReplyRecord],
) -> u32
    ensures { (result ≡ (batch_of (record_of plan.now) (master_of state.old) events.now replies.old).refusal)
        × (state.new ≡ batch_leaves plan.now state.old events.now replies.old)
        × (replies.new ≡ batch_replies (record_of plan.now) (master_of state.old) events.now replies.old) }
{
    if replies.len() < events.len() {
        return Refusal::RepliesShort.number() as u32;
    }
    let number = opened(plan, state);
    for (i, event) in events.iter().enumerate() {
        let reply = reply_of(plan, state, number, *event);
        replies[i] = reply;
    }
    0
}
