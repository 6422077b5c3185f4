// The C host's call that tells why a master is awake, which `cxpi_why_c` exports. An archive's member of its own as `cxpi_batch` is.
#![tactic(auto)]

ghost use Rattle.std.specs.Prelude.{◌≡◌, length};
ghost use Rattle.machine_reason.specs.Reasons.{explained};
ghost use Rattle.cxpi_why.specs.ReasonCalls.{reason_reply, reason_leaves};

use base_bytes::put;
use base_refusals::Refusal;
use machine_reason::{Reason, explain_with, reason_numbers};
use packed_master::master_of;

// The bytes of a reply: reason, node and cause.
const REPLY_LENGTH: usize = 3;

// The plan is judged in its bytes.
fn explain(plan: &[u8], state: &[u8], room: usize) -> Result<Reason, Refusal>
    ensures { explained result ≡ reason_reply plan.now state.now room }
{
    set_record::judge(plan)?;
    Refusal::BufferShort.unless(REPLY_LENGTH <= room)?;
    let times = set_record::times_of(plan);
    explain_with(
        set_record::sleeps(plan),
        set_record::node_count(plan),
        times,
        master_of(state),
    )
}

fn put_reason(reply: &mut [u8], reason: Reason)
    ensures { reply.new ≡ reason_leaves reason reply.old }
{
    if reply.len() < REPLY_LENGTH {
        return;
    }
    let numbers = reason_numbers(reason);
    put(reply, 0, &numbers[..]);
}

pub fn cxpi_master_why(plan: &[u8], state: &[u8], reply: &mut [u8]) -> u32
    ensures { (result ≡ (reason_reply plan.now state.now (length reply.old)).refusal)
        × (reply.new ≡ reason_leaves (reason_reply plan.now state.now (length reply.old)).reason reply.old) }
{
    match explain(plan, state, reply.len()) {
        Ok(reason) => {
            put_reason(reply, reason);
            0
        }
        Err(refusal) => {
            put_reason(reply, Reason::Nothing);
            refusal.number() as u32
        }
    }
}
