// Calls on a node.
ghost use Rattle.std.specs.Prelude.{◌≡◌, true, length};
ghost use Rattle.base_refusals.specs.Numbers.{number};
ghost use Rattle.set_record.specs.Record.{record_of};
ghost use Rattle.machine_node.specs.Step.{row_asked};
ghost use Rattle.machine_node.specs.Changes.{power_on, refuse};
ghost use Rattle.packed_node.specs.Offsets.{node_length};
ghost use Rattle.cxpi.specs.PowerOn.{start_refusal};
ghost use Rattle.cxpi.specs.NodeCalls.{node_on, node_reply, node_leaves, node_replies};

use crate::power_on;
use base_refusals::Refusal;
use machine_node::{Command, Event, Node, Reply};
use packed_node::{event_of, node_of, put_node, put_power_on, put_reply};
use set_plan::Row;

pub fn cxpi_node_power_on(plan: &[u8], state: &mut [u8]) -> u32
    ensures { (result ≡ start_refusal node_length plan.now (length state.old)) × (state.new ≡ node_on plan.now state.old) }
{
    if let Err(refusal) = power_on::judge(packed_node::LENGTH, plan, state.len()) {
        return refusal.number() as u32;
    }
    put_power_on(state, set_record::sleeps(plan));
    0
}

fn refused(refusal: Refusal) -> Reply
    ensures { result ≡ refuse (power_on true) (number refusal) }
{
    let node = Node::power_on(true);
    Reply {
        node,
        command: Command::Nothing,
        refusal: refusal.number(),
    }
}

// The row that an event asks the plan for.
fn row_for(plan: &[u8], event: Event) -> Option<Row>
    ensures { result ≡ row_asked (record_of plan.now) event }
{
    set_record::row_of(plan, event.reqid()?)
}

// The reply to a step on bytes, with nothing written yet. The plan is judged once, here, in its bytes.
fn reply_to(plan: &[u8], me: u8, state: &[u8], event: &[u8], room: usize) -> Reply
    ensures { result ≡ node_reply plan.now me state.now event.now room }
{
    if let Err(refusal) = set_record::judge(plan) {
        return refused(refusal);
    }
    if room < packed_node::REPLY_LENGTH {
        return refused(Refusal::BufferShort);
    }
    let happened = event_of(event);
    let row = row_for(plan, happened);
    let times = set_record::times_of(plan);
    let polled = set_record::is_polled(plan, me);
    node_of(state).step_with(
        set_record::sleeps(plan),
        set_record::node_count(plan),
        times,
        me,
        polled,
        row,
        happened,
    )
}

pub fn cxpi_node_step(plan: &[u8], me: u8, state: &mut [u8], event: &[u8], reply: &mut [u8]) -> u32
    ensures { (result ≡ (node_reply plan.now me state.old event.now (length reply.old)).refusal)
        × (state.new ≡ node_leaves (node_reply plan.now me state.old event.now (length reply.old)) state.old)
        × (reply.new ≡ node_replies (node_reply plan.now me state.old event.now (length reply.old)) reply.old) }
{
    let given = reply_to(plan, me, state, event, reply.len());
    let refusal = given.refusal;
    let command = given.command;
    put_reply(reply, command);
    if refusal != 0 {
        return refusal as u32;
    }
    let node = given.node;
    put_node(state, node);
    0
}
