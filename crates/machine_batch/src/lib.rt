// A list of the master's events in one call.
#![tactic(auto)]

ghost use Rattle.std.specs.Prelude.{◌≡◌};
ghost use Rattle.machine_batch.specs.Batch.{stepped_by, batch_told, batch_of, batch_replies};

use base_refusals::{Refusal, number_of};
use machine_events::{EventRecord, ReplyRecord, command_number, event_of};
use machine_master::Master;
use set_plan::{Plan, judge};

// The master after an event, and the reply to it.
#[derive(Clone, Copy)]
pub struct Stepped {
    pub master: Master,
    pub reply: ReplyRecord,
}

// A step by an event record under a plan whose refusal is known.
#[tactic(auto, unfolding(crate::specs::Batch::stepped_by))]
fn step_record(refusal: u8, plan: Plan, master: Master, event: EventRecord) -> Stepped
    ensures { result ≡ stepped_by refusal plan master event }
{
    let reply = master.step_judged(refusal, plan, event_of(event));
    Stepped {
        master: reply.master,
        reply: ReplyRecord {
            refusal: reply.refusal,
            node: reply.node,
            command: command_number(reply.command),
            lost: reply.lost,
        },
    }
}

// Each event in order, its reply to its own place. The plan is judged once.
pub fn run(
    plan: Plan,
    master: Master,
    events: &[EventRecord],
    replies: &mut [ReplyRecord],
) -> Result<Master, Refusal>
    ensures { (batch_told master result ≡ batch_of plan master events.now replies.old)
        × (replies.new ≡ batch_replies plan master events.now replies.old) }
{
    Refusal::RepliesShort.unless(events.len() <= replies.len())?;
    let refusal = number_of(judge(plan));
    let mut current = master;
    for (i, event) in events.iter().enumerate() {
        let s = step_record(refusal, plan, current, *event);
        current = s.master;
        replies[i] = s.reply;
    }
    Ok(current)
}
