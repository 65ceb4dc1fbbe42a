// A lent memory that is good, and what its header tells: so that no function behind the test asks for it again. Those that write take the memory and its shape:
// a `&mut` with the fact beside it would owe it of what they leave too, which proofs/Holding.antt shows of whole requests.
ghost use Rattle.std.specs.Prelude.{◌≡◌, true, false, MatchResult, length};
ghost use Rattle.unit.specs.Shape.{shape_of};
ghost use Rattle.unit.specs.Memory.{sealed_of, floor_of, count_of, good as good_memory};

use crate::memory::is_good;
use crate::offset::Header;
use crate::shape::{Shape, shape_of};
use crate::word::{half_at, pair_at, word_at};
use num::refusal::Refusal;

#[derive(Clone, Copy)]
pub(crate) struct Good<'a> {
    pub mem: &'a [u8],
    // The one that the memory names.
    pub shape: Shape,
    ghost whole: { length mem.now ≡ 6168 },
    ghost named: { shape ≡ shape_of mem.now },
    ghost is_good: { good_memory shape mem.now ≡ true },
}

impl<'a> Good<'a> {
    // The memory once it is tested, in full. Inlined, so that the compiler keeps the shape in registers.
    #[inline(always)]
    #[tactic(auto, using(crate::proofs::Shapes::good_whole))]
    pub(crate) fn opened(mem: &'a [u8]) -> Result<Good<'a>, Refusal>
        ensures { MatchResult result (λ good. good.mem.now ≡ mem.now) (λ refusal. (refusal ≡ Refusal.Memory) × (good_memory (shape_of mem.now) mem.now ≡ false)) }
    {
        if !is_good(mem) {
            return Err(Refusal::Memory);
        }
        let shape = shape_of(mem);
        Ok(Good { mem, shape })
    }

    pub(crate) fn sealed(&self) -> u64
        ensures { result ≡ sealed_of self.now.mem.now }
    {
        half_at(self.mem, Header::SEALED)
    }

    pub(crate) fn floor(&self) -> u64
        ensures { result ≡ floor_of self.now.mem.now }
    {
        word_at(self.mem, Header::FLOOR)
    }

    pub(crate) fn count(&self) -> u64
        ensures { result ≡ count_of self.now.mem.now }
    {
        pair_at(self.mem, Header::COUNT)
    }
}
