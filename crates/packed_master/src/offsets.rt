// Where the master's state has its fields: the numbers of specs/Offsets.

pub const LENGTH: usize = 201;

pub const REPLY_LENGTH: usize = 3;

pub const STATE_AT: usize = 0;

pub const PHASE_AT: usize = 1;

pub(crate) const PERMISSION_AT: usize = 2;

pub(crate) const DELAY_AT: usize = 3;

pub const TICKS_AT: usize = 5;

pub const HOLDS_AT: usize = 9;

pub const COUNTS_AT: usize = 57;

pub const CAUSES_AT: usize = 185;
