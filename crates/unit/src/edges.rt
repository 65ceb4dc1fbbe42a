// The edges of a unit, and the request that tells them.
ghost use Rattle.std.specs.Prelude.{◌≡◌, ◌≤◌, max, true, drop};
ghost use Rattle.num.specs.Edges.{no_edges};
ghost use Rattle.num.specs.Refusals.{answered, given};
ghost use Rattle.unit.specs.InsideEdges.{WrittenUpTo};
ghost use Rattle.unit.specs.State.{last_end, edges};
ghost use Rattle.unit.specs.Memory.{decode, count_of, floor_of, slots_at, good as good_memory};
ghost use Rattle.unit.specs.Promises.{IsMeasured};

use crate::good::Good;
use crate::kind::was_written;
use crate::offset::{Header, Slot};
use crate::shape::Shape;
use crate::word::{pair_at, word_at};
use num::refusal::Refusal;
use num::{Edges, Position};

// How many slots of a good memory there are up to the last one that was written: those behind it are stray.
fn written_count(mem: &[u8], sh: Shape) -> u64
    requires { good_memory sh mem.now ≡ true }
    ensures { WrittenUpTo sh mem.now result }
{
    let count = pair_at(mem, Header::COUNT);
    for i in (0..count).rev() {
        let at = Header::SIZE + i as usize * (Slot::PAYLOAD + sh.cap);
        if was_written(mem[at + Slot::KIND]) {
            return i + 1;
        }
    }
    0
}

impl Good<'_> {
    // The larger of the floor and the last position plus 1 of the first `n` slots.
    fn edge_behind(&self, n: u64) -> u64
        requires { n ≤ count_of self.now.mem.now }
        ensures { result ≡ max (floor_of self.now.mem.now) (last_end (slots_at self.now.shape.cap n (drop 24 self.now.mem.now))) }
    {
        if n == 0 {
            return self.floor();
        }
        let at = Header::SIZE + (n - 1) as usize * (Slot::PAYLOAD + self.shape.cap);
        self.floor().max(word_at(self.mem, at) + 1)
    }

    pub(crate) fn edges(&self) -> Edges
        ensures { result ≡ edges (decode self.now.shape self.now.mem.now) }
    {
        Edges {
            edge: Position(self.edge_behind(self.count())),
            written: Position(self.edge_behind(written_count(self.mem, self.shape))),
        }
    }
}

// Tells both edges and changes nothing. It bears no epoch, so that no seal turns it away.
pub fn measure(mem: &[u8]) -> Result<Edges, Refusal>
    ensures { IsMeasured mem.now (answered result) (given no_edges result) }
{
    let good = Good::opened(mem)?;
    Ok(good.edges())
}
