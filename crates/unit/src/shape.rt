// The shapes of units: the code is one over their numbers as values.
ghost use Rattle.std.specs.Prelude.{◌≡◌, ◌<◌, length};
ghost use Rattle.unit.specs.Shape.{shape_for, shape_of};

use crate::offset::Header;
use num::units;

#[derive(Clone, Copy)]
pub struct Shape {
    // The byte that names it.
    pub code: u8,
    // Bytes of payload that a slot holds.
    pub cap: usize,
    // Slots of a memory.
    pub room: u64,
}

impl Shape {
    // The bytes that name the two; no higher one names a shape.
    pub const SMALL: u8 = units::SMALL;

    pub const LARGE: u8 = units::LARGE;

    // Bytes of payload that a slot holds, and slots of a memory, in each.
    pub const SMALL_PAYLOAD: usize = 32;

    pub const SMALL_SLOTS: u64 = 128;

    pub const LARGE_PAYLOAD: usize = 80;

    pub const LARGE_SLOTS: u64 = 64;

    // Bytes of a slot.
    pub const SMALL_SLOT: usize = 48;

    pub const LARGE_SLOT: usize = 96;
}

// The shape that a byte names; the small one where it names none.
pub(crate) fn shape_for(code: u8) -> Shape
    ensures { result ≡ shape_for code }
{
    if code == Shape::LARGE {
        return Shape {
            code: Shape::LARGE,
            cap: Shape::LARGE_PAYLOAD,
            room: Shape::LARGE_SLOTS,
        };
    }
    Shape {
        code: Shape::SMALL,
        cap: Shape::SMALL_PAYLOAD,
        room: Shape::SMALL_SLOTS,
    }
}

// The shape that a memory names in its second byte.
pub(crate) fn shape_of(mem: &[u8]) -> Shape
    requires { 1 < length mem.now }
    ensures { result ≡ shape_of mem.now }
{
    shape_for(mem[Header::SHAPE])
}
