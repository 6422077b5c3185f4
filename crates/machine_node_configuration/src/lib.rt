// The node side of UDSonCXPI's node configuration, W-202: a request assigns the address, which stands beside the node's state and is read
// by no machine, or reads the identity.
#![tactic(auto)]

ghost use Rattle.std.specs.Prelude.{◌≡◌, length};
ghost use Rattle.machine_node_configuration.specs.Responses.{configure_told, configured, responded};
ghost use Rattle.machine_node_configuration.specs.Identity.{identity_of};

use crate::offsets::{FUNCTION_AT, SERIAL_AT, SUPPLIER_AT, VARIANT_AT};
use base_bytes::{byte_at, long_number, number_at};
use base_refusals::Refusal;

mod offsets;
mod requests;
mod responses;

pub use offsets::IDENTITY_LENGTH;

#[derive(Clone, Copy)]
pub struct Identity {
    pub supplier: u16,
    pub function: u16,
    pub variant: u8,
    // the serial number
    pub serial: u32,
}

// What came of a request that is not refused.
#[derive(Clone, Copy)]
pub struct Configured {
    // of the response, 0 for silence
    pub length: u8,
    // after the request
    pub address: u8,
}

// What a node responds, by kind; no bytes for silence.
#[derive(Clone, Copy)]
enum Response {
    Silence,
    Assigned([u8; 3]),
    SerialNumber([u8; 7]),
    ProductIdentification([u8; 8]),
}

// The identity of packed bytes.
#[tactic(auto, unfolding(crate::specs::Identity::identity_of))]
pub fn identity_of(bytes: &[u8]) -> Identity
    ensures { result ≡ identity_of bytes.now }
{
    Identity {
        supplier: number_at(bytes, SUPPLIER_AT),
        function: number_at(bytes, FUNCTION_AT),
        variant: byte_at(bytes, VARIANT_AT),
        serial: long_number(number_at(bytes, SERIAL_AT), number_at(bytes, SERIAL_AT + 2)),
    }
}

// Responds to a request at the front of a buffer. Refusals and silence leave address and buffer as they were.
pub fn configure(
    identity: Identity,
    address: u8,
    request: &[u8],
    response: &mut [u8],
) -> Result<Configured, Refusal>
    ensures { (configure_told address result ≡ configured identity address request.now (length response.old))
        × (response.new ≡ responded identity request.now response.old) }
{
    requests::judge(request)?;
    let given = responses::response_to(identity, request);
    let length = given.length();
    Refusal::BufferShort.unless(usize::from(length) <= response.len())?;
    given.put(response);
    Ok(Configured {
        length,
        address: responses::address_after(identity, address, request),
    })
}
