// Layouts: which units hold which positions, as values and as bytes, and how one layout may follow another.
#![tactic(auto)]

ghost use Rattle.std.specs.Prelude.{◌≡◌, take};
ghost use Rattle.layout.specs.Value.{blank, no_chain, no_range, no_wish, units_in};

use num::{Epoch, Position, units};

pub mod encoded;
pub mod good;
pub mod holder;
pub mod new_sets;
pub mod place;
pub mod plan;
pub mod read;
pub mod successor;
pub mod write;

// A set of units, rising: the first is the head, the last the tail.
#[derive(Clone, Copy, PartialEq, Eq)]
pub struct Chain {
    pub count: u8,
    pub units: [u8; Chain::UNITS],
}

// From `start` on, positions go in turn to the next `sets` sets.
#[derive(Clone, Copy, PartialEq, Eq)]
pub struct Range {
    pub start: Position,
    pub sets: u8,
}

// The shape is the kind of all units of the yard. Entries past a count are blank, so that equal layouts are equal values. Arrays with their counts, and a byte
// for the shape: there is no heap, and public functions take every value, good or not.
#[derive(Clone, Copy)]
pub struct Layout {
    pub epoch: Epoch,
    pub shape: u8,
    pub set_count: u8,
    pub sets: [Chain; Layout::SETS],
    pub range_count: u8,
    pub ranges: [Range; Layout::RANGES],
}

// The new sets that are wanted: the first `count`. Those past the count are not looked at; for more than 16 there is no room.
#[derive(Clone, Copy)]
pub struct Wish {
    pub count: u8,
    pub sets: [Chain; Layout::SETS],
}

// The first entries, as many as a count takes in.
fn front<T>(all: &[T], count: u8) -> &[T]
    ensures { result.now ≡ take count all.now }
{
    let n = usize::from(count).min(all.len());
    &all[..n]
}

impl Chain {
    pub const UNITS: usize = 4;

    // The same, as a count.
    pub const MOST: u8 = Chain::UNITS as u8;

    // No set.
    pub fn blank() -> Chain
        ensures { result ≡ no_chain }
    {
        Chain {
            count: 0,
            units: [0; Chain::UNITS],
        }
    }

    // Its units: those that the count takes in.
    pub fn units(&self) -> &[u8]
        ensures { result.now ≡ units_in self.now }
    {
        front(&self.units, self.count)
    }
}

impl Wish {
    pub const MOST: u8 = Layout::SETS as u8;

    // No new set.
    pub fn blank() -> Wish
        ensures { result ≡ no_wish }
    {
        Wish {
            count: 0,
            sets: [Chain::blank(); Layout::SETS],
        }
    }

    // The wanted sets: those that the count takes in.
    pub fn sets(&self) -> &[Chain]
        ensures { result.now ≡ take self.now.count self.now.sets }
    {
        front(&self.sets, self.count)
    }
}

impl Range {
    // No range.
    pub(crate) fn blank() -> Range
        ensures { result ≡ no_range }
    {
        Range {
            start: Position(0),
            sets: 0,
        }
    }
}

impl Layout {
    pub const SETS: usize = 16;

    pub const RANGES: usize = 8;

    // The bytes of the largest layout: 4, 1, 1 + 8, 1 + 16 * 5, 1 + 8 * 9.
    pub const SIZE: usize = 168;

    pub const SMALL: u8 = units::SMALL;

    pub const LARGE: u8 = units::LARGE;

    // No layout: what stands where none is given.
    pub fn blank() -> Layout
        ensures { result ≡ blank }
    {
        Layout {
            epoch: Epoch(0),
            shape: Layout::SMALL,
            set_count: 0,
            sets: [Chain::blank(); Layout::SETS],
            range_count: 0,
            ranges: [Range::blank(); Layout::RANGES],
        }
    }

    // Its sets: those that the count takes in.
    pub fn sets(&self) -> &[Chain]
        ensures { result.now ≡ take self.now.set_count self.now.sets }
    {
        front(&self.sets, self.set_count)
    }

    // Its ranges: those that the count takes in.
    pub fn ranges(&self) -> &[Range]
        ensures { result.now ≡ take self.now.range_count self.now.ranges }
    {
        front(&self.ranges, self.range_count)
    }
}
