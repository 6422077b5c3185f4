// Calls on the master.
ghost use Rattle.std.specs.Prelude.{◌≡◌, length};
ghost use Rattle.base_refusals.specs.Numbers.{number};
ghost use Rattle.set_plan.specs.Rules.{plan_refusal};
ghost use Rattle.set_record.specs.Record.{record_of};
ghost use Rattle.machine_master.specs.declared.Command.{Command};
ghost use Rattle.machine_master.specs.Step.{step_under};
ghost use Rattle.packed_master.specs.Offsets.{master_length};
ghost use Rattle.packed_master.specs.Replies.{replied};
ghost use Rattle.packed_master.specs.States.{master_of};
ghost use Rattle.cxpi.specs.PowerOn.{start_refusal};
ghost use Rattle.cxpi.specs.MasterCalls.{master_on, master_reply, changes_state, master_leaves, master_replies};

use crate::power_on;
use base_refusals::Refusal;
use machine_master::{Command, Event, Reply};
use packed_master::{event_of, master_of, put_master, put_power_on, put_reply, row_for};
use packed_master_steps::step_in_place;

pub fn cxpi_master_power_on(plan: &[u8], state: &mut [u8]) -> u32
    ensures { (result ≡ start_refusal master_length plan.now (length state.old)) × (state.new ≡ master_on plan.now state.old) }
{
    if let Err(refusal) = power_on::judge(packed_master::LENGTH, plan, state.len()) {
        return refusal.number() as u32;
    }
    put_power_on(state, set_record::sleeps(plan));
    0
}

// Writes a reply that commands nothing and names no node.
fn refused(reply: &mut [u8], refusal: Refusal) -> u32
    ensures { (result ≡ number refusal) × (reply.new ≡ replied Command.Nothing 0 0 reply.old) }
{
    put_reply(reply, Command::Nothing, 0, 0);
    refusal.number() as u32
}

fn changes_state(refusal: u8) -> bool
    ensures { result ≡ changes_state refusal }
{
    (refusal == 0)
        | (refusal == Refusal::Damaged.number())
        | (refusal == Refusal::WrongLength.number())
}

// Writes what the machine gives.
fn give(given: Reply, state: &mut [u8], reply: &mut [u8]) -> u32
    ensures { (result ≡ given.refusal) × (state.new ≡ master_leaves given state.old) × (reply.new ≡ master_replies given reply.old) }
{
    let refusal = given.refusal;
    let command = given.command;
    put_reply(reply, command, given.lost, given.node);
    if !changes_state(refusal) {
        return refusal as u32;
    }
    let master = given.master;
    put_master(state, master);
    refusal as u32
}

// A step under a plan that is accepted. The state is unpacked and judged once; then ticks and answers, which fill a slot, are done in its bytes where
// that is simple, and all others by the master that was unpacked.
fn step_under(plan: &[u8], state: &mut [u8], event: Event, reply: &mut [u8]) -> u32
    requires { plan_refusal (record_of plan.now) ≡ 0 }
    ensures { (result ≡ (step_under (record_of plan.now) (master_of state.old) event).refusal)
        × (state.new ≡ master_leaves (step_under (record_of plan.now) (master_of state.old) event) state.old)
        × (reply.new ≡ master_replies (step_under (record_of plan.now) (master_of state.old) event) reply.old) }
{
    // No state. The compiler, told the length, spares the tests of each byte.
    if state.len() != packed_master::LENGTH {
        return refused(reply, Refusal::NoState);
    }
    let master = master_of(state);
    let times = set_record::times_of(plan);
    let sleeps = set_record::sleeps(plan);
    let nodes = set_record::node_count(plan);
    if !master.in_range(sleeps, nodes, times) {
        return refused(reply, Refusal::NoState);
    }
    let outcome = step_in_place(plan, state, event);
    match outcome {
        Some(lost) => {
            put_reply(reply, Command::Nothing, lost, 0);
            0
        }
        None => {
            let row = row_for(plan, event);
            let given = master.step_in_range(sleeps, nodes, times, row, event);
            give(given, state, reply)
        }
    }
}

// The plan is judged once, in its bytes.
pub fn cxpi_master_step(plan: &[u8], state: &mut [u8], event: &[u8], reply: &mut [u8]) -> u32
    ensures { (result ≡ (master_reply plan.now state.old event.now (length reply.old)).refusal)
        × (state.new ≡ master_leaves (master_reply plan.now state.old event.now (length reply.old)) state.old)
        × (reply.new ≡ master_replies (master_reply plan.now state.old event.now (length reply.old)) reply.old) }
{
    if let Err(refusal) = set_record::judge(plan) {
        return refused(reply, refusal);
    }
    if reply.len() < packed_master::REPLY_LENGTH {
        return Refusal::BufferShort.number() as u32;
    }
    step_under(plan, state, event_of(event), reply)
}
