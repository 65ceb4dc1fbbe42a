// The units of a yard: how they are numbered, and the bytes that name their two kinds.

// Units are numbered from 1 to it.
pub const LAST: u8 = 8;

pub const SMALL: u8 = 0;

// No higher byte names a kind of unit.
pub const LARGE: u8 = 1;
