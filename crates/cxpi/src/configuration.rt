// The call on a node's configuration.
ghost use Rattle.std.specs.Prelude.{◌≡◌, length};
ghost use Rattle.cxpi.specs.ConfigurationCalls.{configure_reply, configure_leaves};

use base_refusals::Refusal;
use machine_node_configuration::{configure, identity_of};

pub fn cxpi_node_configure(
    identity: &[u8],
    address: &mut u8,
    request: &[u8],
    response: &mut [u8],
    written: &mut u8,
) -> u32
    ensures { (result ≡ (configure_reply identity.now address.old request.now (length response.old)).refusal)
        × (address.new ≡ (configure_reply identity.now address.old request.now (length response.old)).address)
        × (response.new ≡ configure_leaves identity.now request.now response.old)
        × (written.new ≡ (configure_reply identity.now address.old request.now (length response.old)).length) }
{
    if identity.len() != machine_node_configuration::IDENTITY_LENGTH {
        *written = 0;
        return Refusal::NoState.number() as u32;
    }
    match configure(identity_of(identity), *address, request, response) {
        Ok(done) => {
            *address = done.address;
            *written = done.length;
            0
        }
        Err(refusal) => {
            *written = 0;
            refusal.number() as u32
        }
    }
}
