// The call of `cxpi_batch` for C: a list passes as a pointer and the number of its records.
#![tactic(auto)]

ghost use Rattle.std.specs.Prelude.{◌≡◌};
ghost use Rattle.set_record.specs.Record.{record_of};
ghost use Rattle.machine_batch.specs.Batch.{batch_of, batch_replies};
ghost use Rattle.packed_master.specs.States.{master_of};
ghost use Rattle.cxpi_batch.specs.BatchCalls.{batch_leaves};

use machine_events::{EventRecord, ReplyRecord};

#[unsafe(no_mangle)]
pub extern "C" fn cxpi_master_batch(
    plan: &[u8],
    state: &mut [u8],
    events: &[EventRecord],
    replies: &mut [ReplyRecord],
) -> u32
    ensures { (result ≡ (batch_of (record_of plan.now) (master_of state.old) events.now replies.old).refusal)
        × (state.new ≡ batch_leaves plan.now state.old events.now replies.old)
        × (replies.new ≡ batch_replies (record_of plan.now) (master_of state.old) events.now replies.old) }
{
    cxpi_batch::cxpi_master_batch(plan, state, events, replies)
}
