// Requests of the node configuration family, judged.
ghost use Rattle.std.specs.Prelude.{◌≡◌};
ghost use Rattle.base_refusals.specs.Numbers.{number_of};
ghost use Rattle.machine_node_configuration.specs.Requests.{is_assign, is_read, wrong_length, is_known, request_refusal, is_for, takes_assign};

use crate::Identity;
use base_bytes::{byte_at, number_at};
use base_refusals::Refusal;

const WRITE_DATA_BY_IDENTIFIER: u8 = 0x2e;

const READ_DATA_BY_IDENTIFIER: u8 = 0x22;

// Identifiers of ISO 14229-8, Table A.1.
pub(crate) const NODE_PRODUCT_IDENTIFICATION: u16 = 0xff05;

const ASSIGN_NODE_ADDRESS: u16 = 0xff07;

pub(crate) const NODE_SERIAL_NUMBER_IDENTIFICATION: u16 = 0xf18c;

#[tactic(auto, unfolding(crate::specs::Requests::is_assign))]
fn is_assign(request: &[u8]) -> bool
    ensures { result ≡ is_assign request.now }
{
    (byte_at(request, 0) == WRITE_DATA_BY_IDENTIFIER)
        & (number_at(request, 1) == ASSIGN_NODE_ADDRESS)
}

#[tactic(auto, unfolding(crate::specs::Requests::is_read))]
pub(crate) fn is_read(identifier: u16, request: &[u8]) -> bool
    ensures { result ≡ is_read identifier request.now }
{
    (byte_at(request, 0) == READ_DATA_BY_IDENTIFIER) & (number_at(request, 1) == identifier)
}

#[tactic(auto, unfolding(crate::specs::Requests::wrong_length))]
fn wrong_length(request: &[u8]) -> bool
    ensures { result ≡ wrong_length request.now }
{
    request.is_empty()
        | ((byte_at(request, 0) == WRITE_DATA_BY_IDENTIFIER) & (request.len() != 8))
        | ((byte_at(request, 0) == READ_DATA_BY_IDENTIFIER) & (request.len() != 3))
}

#[tactic(auto, unfolding(crate::specs::Requests::is_known))]
fn is_known(request: &[u8]) -> bool
    ensures { result ≡ is_known request.now }
{
    is_assign(request)
        | is_read(NODE_PRODUCT_IDENTIFICATION, request)
        | is_read(NODE_SERIAL_NUMBER_IDENTIFICATION, request)
}

// 23, then 24.
#[tactic(auto, unfolding(crate::specs::Requests::request_refusal))]
pub(crate) fn judge(request: &[u8]) -> Result<(), Refusal>
    ensures { number_of result ≡ request_refusal request.now }
{
    Refusal::WrongRequest.unless(!wrong_length(request))?;
    Refusal::NotSupported.unless(is_known(request))
}

#[tactic(auto, unfolding(crate::specs::Requests::is_for))]
fn is_for(identity: Identity, request: &[u8]) -> bool
    ensures { result ≡ is_for identity request.now }
{
    (number_at(request, 3) == identity.supplier) & (number_at(request, 5) == identity.function)
}

// Whether a request is an assign to a node of this identity, with an address that it takes.
#[tactic(auto, unfolding(crate::specs::Requests::takes_assign))]
pub(crate) fn takes_assign(identity: Identity, request: &[u8]) -> bool
    ensures { result ≡ takes_assign identity request.now }
{
    is_assign(request)
        & is_for(identity, request)
        & ((1 <= byte_at(request, 7)) & (byte_at(request, 7) <= 125))
}
