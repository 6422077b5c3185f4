// The call of `cxpi_why` for C.
#![tactic(auto)]

ghost use Rattle.std.specs.Prelude.{◌≡◌, length};
ghost use Rattle.cxpi_why.specs.ReasonCalls.{reason_reply, reason_leaves};

#[unsafe(no_mangle)]
pub extern "C" fn cxpi_master_why(plan: &[u8], state: &[u8], reply: &mut [u8]) -> u32
    ensures { (result ≡ (reason_reply plan.now state.now (length reply.old)).refusal)
        × (reply.new ≡ reason_leaves (reason_reply plan.now state.now (length reply.old)).reason reply.old) }
{
    cxpi_why::cxpi_master_why(plan, state, reply)
}
