// What a node responds, and its address past a request.
ghost use Rattle.std.specs.Prelude.{◌≡◌, length};
ghost use Rattle.std.proofs.lemmas.List.Edits.{sets};
ghost use Rattle.machine_node_configuration.specs.Responses.{product_identification, serial_number, response_to, address_after, bytes_of};

use crate::{Identity, Response, requests};
use base_bytes::{byte_at, put};

impl Response {
    pub(crate) fn length(self) -> u8
        ensures { result ≡ length (bytes_of self) }
    {
        match self {
            Response::Silence => 0,
            Response::Assigned(_) => 3,
            Response::SerialNumber(_) => 7,
            Response::ProductIdentification(_) => 8,
        }
    }

    // Puts its bytes at the front of a buffer.
    pub(crate) fn put(self, buffer: &mut [u8])
        ensures { buffer.new ≡ sets buffer.old 0 (bytes_of self) }
    {
        match self {
            Response::Silence => {}
            Response::Assigned(bytes) => put(buffer, 0, &bytes[..]),
            Response::SerialNumber(bytes) => put(buffer, 0, &bytes[..]),
            Response::ProductIdentification(bytes) => put(buffer, 0, &bytes[..]),
        }
    }
}

fn product_identification(identity: Identity) -> Response
    ensures { bytes_of result ≡ product_identification identity }
{
    let [supplier_high, supplier_low] = identity.supplier.to_be_bytes();
    let [function_high, function_low] = identity.function.to_be_bytes();
    Response::ProductIdentification([
        0x62,
        0xff,
        0x05,
        supplier_high,
        supplier_low,
        function_high,
        function_low,
        identity.variant,
    ])
}

fn serial_number(identity: Identity) -> Response
    ensures { bytes_of result ≡ serial_number identity }
{
    let [a, b, c, d] = identity.serial.to_be_bytes();
    Response::SerialNumber([0x62, 0xf1, 0x8c, a, b, c, d])
}

#[tactic(auto, unfolding(crate::specs::Responses::response_to))]
pub(crate) fn response_to(identity: Identity, request: &[u8]) -> Response
    ensures { bytes_of result ≡ response_to identity request.now }
{
    if requests::takes_assign(identity, request) {
        Response::Assigned([0x6e, 0xff, 0x07])
    } else if requests::is_read(requests::NODE_PRODUCT_IDENTIFICATION, request) {
        product_identification(identity)
    } else if requests::is_read(requests::NODE_SERIAL_NUMBER_IDENTIFICATION, request) {
        serial_number(identity)
    } else {
        Response::Silence
    }
}

#[tactic(auto, unfolding(crate::specs::Responses::address_after))]
pub(crate) fn address_after(identity: Identity, address: u8, request: &[u8]) -> u8
    ensures { result ≡ address_after identity address request.now }
{
    if requests::takes_assign(identity, request) {
        byte_at(request, 7)
    } else {
        address
    }
}
