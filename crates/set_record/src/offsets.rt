// Where a packed plan record has its fields: the numbers of specs/Offsets.

pub const LENGTH: usize = 592;

pub(crate) const REVISION_AT: usize = 0;

pub(crate) const NODECOUNT_AT: usize = 2;

pub(crate) const ROWCOUNT_AT: usize = 3;

pub(crate) const TIMES_AT: u8 = 5;

pub const ENTRIES_AT: usize = 19;

pub const ROWS_AT: usize = 83;

pub const PROFILE_AT: usize = 591;
