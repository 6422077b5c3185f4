// Where a node's state has its fields: the numbers of specs/Offsets.

pub const LENGTH: usize = 143;

pub const REPLY_LENGTH: usize = 4;

pub(crate) const STATE_AT: usize = 0;

pub(crate) const PERMISSION_AT: usize = 1;

pub(crate) const ERROR_AT: usize = 2;

pub(crate) const WAKE_AT: usize = 3;

pub(crate) const HEARD_AT: usize = 4;

pub(crate) const CALLER_AT: usize = 5;

pub(crate) const QUIET_AT: usize = 6;

pub(crate) const DELAY_AT: usize = 8;

pub(crate) const STANDBY_AT: usize = 11;

pub(crate) const COUNTS_AT: usize = 15;
