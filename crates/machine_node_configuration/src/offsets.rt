// Where a packed identity has its fields: the numbers of specs/Offsets.

pub const IDENTITY_LENGTH: usize = 9;

pub(crate) const SUPPLIER_AT: usize = 0;

pub(crate) const FUNCTION_AT: usize = 2;

pub(crate) const VARIANT_AT: usize = 4;

pub(crate) const SERIAL_AT: usize = 5;
