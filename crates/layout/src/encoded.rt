// A layout's bytes, one section behind the other. Counts past the arrays count no more than the arrays hold.
ghost use Rattle.std.specs.Prelude.{◌≡◌, true, [], ◌∷◌, ◌≤◌, length, map};
ghost use Rattle.layout.specs.Lay.{units_of};
ghost use Rattle.layout.specs.Value.{units_in, span_in, good_value};
ghost use Rattle.layout.specs.Codec.{counted, sets_bytes, span_bytes, spans_bytes, bytes_of};
ghost use Rattle.layout.specs.InsideGrowing.{grown, written};

use crate::place::in_sets;
use crate::{Chain, Layout, Range};

// Bytes put one behind the other, with their count (no heap, fixed memory); those past the room are left out.
#[derive(Clone, Copy)]
pub struct Encoded {
    bytes: [u8; Layout::SIZE],
    count: usize,
}

impl Encoded {
    fn empty() -> Encoded
        ensures { written result ≡ [] }
    {
        Encoded {
            bytes: [0; Layout::SIZE],
            count: 0,
        }
    }

    // The bytes that stand.
    pub(crate) fn as_slice(&self) -> &[u8]
        ensures { result.now ≡ written self.now }
    {
        &self.bytes[..self.count.min(Layout::SIZE)]
    }

    #[tactic(auto, unfolding(crate::specs::InsideGrowing::grown))]
    fn push(&mut self, b: u8)
        ensures { written self.new ≡ grown (written self.old) (b ∷ []) }
    {
        if self.count < Layout::SIZE {
            self.bytes[self.count] = b;
            self.count += 1;
        }
    }

    #[tactic(auto, unfolding(crate::specs::InsideGrowing::grown))]
    fn extend(&mut self, more: &[u8])
        ensures { written self.new ≡ grown (written self.old) more.now }
    {
        for b in more {
            self.push(*b);
        }
    }

    // A set: its count and its units.
    #[tactic(auto, unfolding(crate::specs::InsideGrowing::grown))]
    fn push_chain(&mut self, c: &Chain)
        ensures { written self.new ≡ grown (written self.old) (counted (units_in c.now)) }
    {
        let units = c.units();
        self.push(units.len() as u8);
        self.extend(units);
    }

    // The sets behind their count.
    #[tactic(auto, using(crate::proofs::Grown::grown_append), unfolding(crate::specs::Codec::sets_bytes, crate::specs::InsideGrowing::grown))]
    fn push_sets(&mut self, sets: &[Chain])
        requires { length sets.now ≤ 16 }
        ensures { written self.new ≡ grown (written self.old) (length sets.now ∷ sets_bytes (map units_in sets.now)) }
    {
        self.push(sets.len() as u8);
        for c in sets {
            self.push_chain(c);
        }
    }

    // A range: its start and its count of sets.
    #[tactic(auto, using(crate::proofs::Grown::grown_append, crate::proofs::Grown::le_eight))]
    fn push_range(&mut self, r: &Range)
        ensures { written self.new ≡ grown (written self.old) (span_bytes (span_in r.now)) }
    {
        self.extend(&r.start.0.to_le_bytes());
        self.push(r.sets);
    }

    // The ranges behind their count.
    #[tactic(auto, using(crate::proofs::Grown::grown_append), unfolding(crate::specs::Codec::spans_bytes, crate::specs::InsideGrowing::grown))]
    fn push_ranges(&mut self, ranges: &[Range])
        requires { length ranges.now ≤ 8 }
        ensures { written self.new ≡ grown (written self.old) (length ranges.now ∷ spans_bytes (map span_in ranges.now)) }
    {
        self.push(ranges.len() as u8);
        for r in ranges {
            self.push_range(r);
        }
    }

    // The units behind their count.
    #[tactic(auto, using(crate::proofs::GrownSections::used_here, crate::proofs::GrownSections::used_not, crate::proofs::GrownSections::used_none), unfolding(crate::specs::Lay::units_of, crate::specs::InsideGrowing::grown))]
    fn push_units(&mut self, sets: &[Chain])
        ensures { written self.new ≡ grown (written self.old) (counted (units_of (map units_in sets.now))) }
    {
        self.push(units_used(sets));
        for u in 1..=Layout::LAST_UNIT {
            if in_sets(sets, u) {
                self.push(u);
            }
        }
    }
}

// How many units stand in the sets.
#[tactic(auto, using(crate::proofs::GrownSections::used_here, crate::proofs::GrownSections::used_not, crate::proofs::GrownSections::used_none), unfolding(crate::specs::Lay::units_of))]
fn units_used(sets: &[Chain]) -> u8
    ensures { result ≡ length (units_of (map units_in sets.now)) }
{
    let mut n: u8 = 0;
    for u in 1..=Layout::LAST_UNIT {
        if in_sets(sets, u) {
            n += 1;
        }
    }
    n
}

// The bytes of a good layout.
pub(crate) fn bytes_of(l: Layout) -> Encoded
    requires { good_value l ≡ true }
    ensures { written result ≡ bytes_of l }
{
    let mut e = Encoded::empty();
    e.extend(&l.epoch.0.to_le_bytes());
    e.push(l.shape);
    e.push_units(l.sets());
    e.push_sets(l.sets());
    e.push_ranges(l.ranges());
    e
}
