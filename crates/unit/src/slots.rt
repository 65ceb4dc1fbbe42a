// The slots of a good memory, by position.
ghost use Rattle.std.specs.Prelude.{◌≡◌, ◌+◌, ◌*◌, ◌≤◌, true, length, drop};
ghost use Rattle.unit.specs.Shape.{slot_size};
ghost use Rattle.unit.specs.Kinds.{held_code};
ghost use Rattle.unit.specs.State.{before, lookup};
ghost use Rattle.unit.specs.Memory.{slots_at, decode, place_of, floor_of, good_slots};

use crate::good::Good;
use crate::kind::Kind;
use crate::offset::{Header, Slot};
use crate::word::word_at;

// How many of the `count` slots stand before position `p`. The last slot first, for a page is mostly written or read at the edge. The slots rise, so that
// the half in which its place is not can be passed over. (d) No `partition_point`: that is of a slice of elements, and positions stand a slot apart.
pub(crate) fn place(mem: &[u8], cap: usize, count: u64, p: u64) -> u64
    requires { (24 + count * slot_size cap ≤ length mem.now) × (good_slots cap count (floor_of mem.now) (drop 24 mem.now) ≡ true) }
    ensures { result ≡ before p (slots_at cap count (drop 24 mem.now)) }
{
    if count == 0 {
        return 0;
    }
    if word_at(
        mem,
        Header::SIZE + ((count - 1) as usize) * (Slot::PAYLOAD + cap),
    ) < p
    {
        return count;
    }
    let mut low: u64 = 0;
    let mut size = count;
    while 1 < size {
        let half = size / 2;
        if word_at(
            mem,
            Header::SIZE + ((low + half - 1) as usize) * (Slot::PAYLOAD + cap),
        ) < p
        {
            low = low + half;
        }
        size = size - half;
    }
    low
}

// Where the slot of a position stands, or would stand, and its kind, if there is one.
#[derive(Clone, Copy)]
pub(crate) struct Found {
    pub at: usize,
    pub kind: Option<Kind>,
}

impl Good<'_> {
    pub(crate) fn find(&self, p: u64) -> Found
        ensures { (result.at ≡ place_of self.now.shape self.now.mem.now p) × (held_code result.kind ≡ (lookup p (decode self.now.shape self.now.mem.now).slots).kind) }
    {
        let count = self.count();
        let before = place(self.mem, self.shape.cap, count, p);
        let at = Header::SIZE + (before as usize) * (Slot::PAYLOAD + self.shape.cap);
        if before < count && word_at(self.mem, at) == p {
            return Found {
                at,
                kind: Kind::of(self.mem[at + Slot::KIND]),
            };
        }
        Found { at, kind: None }
    }
}
