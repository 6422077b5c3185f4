// Bytes at offsets, and the check of a 512-byte block.
#![tactic(auto)]

mod bytes;
mod check;

pub use bytes::{are_zero, byte_at, long_number, number_at, put, put_zeros, reach};
pub use check::block_check;

// Bytes of a block.
pub const BLOCK_LENGTH: usize = 512;
