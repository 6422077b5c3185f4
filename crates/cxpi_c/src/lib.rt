// The calls of `cxpi` for C: a byte slice is a pointer and a length. include/cxpi.h declares them.
#![tactic(auto)]

ghost use Rattle.std.specs.Prelude.{◌≡◌, length};
ghost use Rattle.set_record.specs.Record.{record_of, record_written};
ghost use Rattle.set_reader.specs.Read.{read_set, record_refusal};
ghost use Rattle.set_writer.specs.Write.{write_result, written};
ghost use Rattle.packed_master.specs.Offsets.{master_length};
ghost use Rattle.packed_node.specs.Offsets.{node_length};
ghost use Rattle.cxpi.specs.Version.{version};
ghost use Rattle.cxpi.specs.PowerOn.{start_refusal};
ghost use Rattle.cxpi.specs.MasterCalls.{master_on, master_reply, master_leaves, master_replies};
ghost use Rattle.cxpi.specs.NodeCalls.{node_on, node_reply, node_leaves, node_replies};
ghost use Rattle.cxpi.specs.ConfigurationCalls.{configure_reply, configure_leaves};

use cxpi::{configuration, masters, nodes, sets};

#[unsafe(no_mangle)]
pub extern "C" fn cxpi_version() -> u32
    ensures { result ≡ version }
{
    cxpi::cxpi_version()
}

#[unsafe(no_mangle)]
pub extern "C" fn cxpi_read(set: &[u8], plan: &mut [u8]) -> u32
    ensures { (result ≡ record_refusal set.now (length plan.old))
        × (plan.new ≡ record_written (read_set set.now).plan plan.old) }
{
    sets::cxpi_read(set, plan)
}

#[unsafe(no_mangle)]
pub extern "C" fn cxpi_write(plan: &[u8], set: &mut [u8], size: &mut u16) -> u32
    ensures { (result ≡ (write_result (record_of plan.now) (length set.old)).refusal)
        × (set.new ≡ written (record_of plan.now) set.old)
        × (size.new ≡ (write_result (record_of plan.now) (length set.old)).length) }
{
    sets::cxpi_write(plan, set, size)
}

#[unsafe(no_mangle)]
pub extern "C" fn cxpi_master_power_on(plan: &[u8], state: &mut [u8]) -> u32
    ensures { (result ≡ start_refusal master_length plan.now (length state.old)) × (state.new ≡ master_on plan.now state.old) }
{
    masters::cxpi_master_power_on(plan, state)
}

#[unsafe(no_mangle)]
pub extern "C" fn cxpi_master_step(
    plan: &[u8],
    state: &mut [u8],
    event: &[u8],
    reply: &mut [u8],
) -> u32
    ensures { (result ≡ (master_reply plan.now state.old event.now (length reply.old)).refusal)
        × (state.new ≡ master_leaves (master_reply plan.now state.old event.now (length reply.old)) state.old)
        × (reply.new ≡ master_replies (master_reply plan.now state.old event.now (length reply.old)) reply.old) }
{
    masters::cxpi_master_step(plan, state, event, reply)
}

#[unsafe(no_mangle)]
pub extern "C" fn cxpi_node_power_on(plan: &[u8], state: &mut [u8]) -> u32
    ensures { (result ≡ start_refusal node_length plan.now (length state.old)) × (state.new ≡ node_on plan.now state.old) }
{
    nodes::cxpi_node_power_on(plan, state)
}

#[unsafe(no_mangle)]
pub extern "C" fn cxpi_node_step(
    plan: &[u8],
    me: u8,
    state: &mut [u8],
    event: &[u8],
    reply: &mut [u8],
) -> u32
    ensures { (result ≡ (node_reply plan.now me state.old event.now (length reply.old)).refusal)
        × (state.new ≡ node_leaves (node_reply plan.now me state.old event.now (length reply.old)) state.old)
        × (reply.new ≡ node_replies (node_reply plan.now me state.old event.now (length reply.old)) reply.old) }
{
    nodes::cxpi_node_step(plan, me, state, event, reply)
}

#[unsafe(no_mangle)]
pub extern "C" fn cxpi_node_configure(
    identity: &[u8],
    address: &mut u8,
    request: &[u8],
    response: &mut [u8],
    written: &mut u8,
) -> u32
    ensures { (result ≡ (configure_reply identity.now address.old request.now (length response.old)).refusal)
        × (address.new ≡ (configure_reply identity.now address.old request.now (length response.old)).address)
        × (response.new ≡ configure_leaves identity.now request.now response.old)
        × (written.new ≡ (configure_reply identity.now address.old request.now (length response.old)).length) }
{
    configuration::cxpi_node_configure(identity, address, request, response, written)
}
