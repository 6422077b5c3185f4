// Where a set has its fields: the numbers of specs/Layout and specs/Rules.
use base_bytes::BLOCK_LENGTH;

// Bytes of a set with one message block, and of one with two.
pub const SHORT_LENGTH: usize = 2 * BLOCK_LENGTH;

pub const LONG_LENGTH: usize = 3 * BLOCK_LENGTH;

// In each block.
pub(crate) const REVISION_AT: usize = 2;

pub const CHECK_AT: usize = 510;

// In the plan block.
pub(crate) const NODECOUNT_AT: usize = 4;

pub(crate) const PROFILE_AT: usize = 5;

pub const TIMES_AT: u8 = 6;

pub const ENTRIES_AT: usize = 32;

// In a message block; then in the set, of the first message block and of the second.
pub(crate) const ROWCOUNT_AT: usize = 4;

pub const ROWS_AT: usize = 8;

pub(crate) const FIRST_ROWCOUNT_AT: usize = BLOCK_LENGTH + ROWCOUNT_AT;

pub(crate) const SECOND_ROWCOUNT_AT: usize = 2 * BLOCK_LENGTH + ROWCOUNT_AT;

pub(crate) const FIRST_ROWS_AT: usize = BLOCK_LENGTH + ROWS_AT;

pub(crate) const SECOND_ROWS_AT: usize = 2 * BLOCK_LENGTH + ROWS_AT;
