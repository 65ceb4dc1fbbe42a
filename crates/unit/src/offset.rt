// Where each field of a unit's memory stands and how many bytes it has, by name: the header's fields, and a slot's from its start on.
#[derive(Clone, Copy)]
pub struct Header;

impl Header {
    pub const NUMBER: usize = 0;

    pub const SHAPE: usize = 1;

    pub const SEALED: usize = 4;

    pub const FLOOR: usize = 8;

    pub const COUNT: usize = 16;

    pub const SIZE: usize = 24;
}

#[derive(Clone, Copy)]
pub struct Slot;

impl Slot {
    pub const KIND: usize = 8;

    pub const LENGTH: usize = 9;

    pub const PAYLOAD: usize = 16;
}
