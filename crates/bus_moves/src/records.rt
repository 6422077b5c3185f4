// Bytes as records of 16, the last of which may be short.
ghost use Rattle.std.specs.Prelude.{◌≡◌};
ghost use Rattle.bus_moves.specs.Records.{record_at, record_count};

use crate::MOVE_LENGTH;

pub fn record_count(bytes: &[u8]) -> usize
    ensures { result ≡ record_count bytes.now }
{
    bytes.len().div_ceil(MOVE_LENGTH)
}

// Record k, counted from 0; nothing past the last.
pub fn record_at(bytes: &[u8], k: usize) -> &[u8]
    ensures { result.now ≡ record_at bytes.now k }
{
    if bytes.len() / MOVE_LENGTH < k {
        return &[];
    }
    let rest = &bytes[MOVE_LENGTH * k..];
    &rest[..rest.len().min(MOVE_LENGTH)]
}
