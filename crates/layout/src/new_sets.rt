// New sets as bytes: a count, and then sets as in a layout, up to 255.
ghost use Rattle.std.specs.Prelude.{◌≡◌};
ghost use Rattle.layout.specs.Codec.{are_sets, sets_name, wish_said};

use crate::Wish;
use crate::good::good_chain;
use crate::read::{behind, byte_at, chain_from, sets_from};
use num::bytes::size;

// Whether the bytes are a count and that many good sets, and nothing else.
pub fn are_sets(b: &[u8]) -> bool
    ensures { result ≡ are_sets b.now }
{
    let mut ok = true;
    let mut past: usize = 1;
    for _i in 0..byte_at(b, 0) {
        let c = chain_from(behind(b, past));
        ok = ok & good_chain(&c);
        past += 1 + size(c.count);
    }
    ok & (past == b.len())
}

// Whether the bytes are good sets, one of which names `unit`.
pub fn sets_name(b: &[u8], unit: u8) -> bool
    ensures { result ≡ sets_name b.now unit }
{
    let mut found = false;
    let mut rest = behind(b, 1);
    for _i in 0..byte_at(b, 0) {
        let c = chain_from(rest);
        found = found | c.holds(unit);
        rest = behind(rest, 1 + size(c.count));
    }
    found && are_sets(b)
}

// The sets that the bytes say: their count, and the first 16.
pub fn wish_of(b: &[u8]) -> Wish
    ensures { result ≡ wish_said b.now }
{
    let count = byte_at(b, 0);
    let (sets, _) = sets_from(behind(b, 1), count);
    Wish { count, sets }
}
