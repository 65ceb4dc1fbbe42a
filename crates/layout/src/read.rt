// A layout from its bytes: what they would say is read first, past their end as 0, and then the layout's own bytes are compared with them.
ghost use Rattle.std.specs.Prelude.{◌≡◌, true, map, get_or, drop};
ghost use Rattle.num.specs.Refusals.{answered, given};
ghost use Rattle.layout.specs.Value.{padded, no_chain, no_range, chain_of, range_of, value_of, good_value, blank};
ghost use Rattle.layout.specs.Codec.{set_front, span_front, sets_at, past_sets, spans_at, decode, same, bytes_of, LayoutRead};

use crate::encoded::bytes_of;
use crate::good::is_good;
use crate::{Chain, Layout, Range};
use num::bytes::{number_at, size};
use num::refusal::Refusal;
use num::{Epoch, Position};
use std::array;

// The byte at `at`; 0 past the end.
pub fn byte_at(b: &[u8], at: usize) -> u8
    ensures { result ≡ get_or b.now at 0 }
{
    b.get(at).copied().unwrap_or(0)
}

// What stands behind the first `n` bytes.
pub(crate) fn behind(b: &[u8], n: usize) -> &[u8]
    ensures { result.now ≡ drop n b.now }
{
    &b[n.min(b.len())..]
}

// The set at the front: its count and its units.
pub(crate) fn chain_from(b: &[u8]) -> Chain
    ensures { result ≡ chain_of (set_front b.now) }
{
    let count = byte_at(b, 0);
    let units = array::from_fn(|i| if i < size(count) {
        byte_at(b, 1 + i)
    } else {
        0
    });
    Chain { count, units }
}

// The `n` sets at the front, and what stands behind them; there is room for 16, and the others are passed over.
pub(crate) fn sets_from(b: &[u8], n: u8) -> ([Chain; Layout::SETS], &[u8])
    ensures sets { result.0 ≡ padded 16 no_chain (map chain_of (sets_at n b.now)) }
    ensures rest { result.1.now ≡ past_sets n b.now }
{
    let mut sets = [Chain::blank(); Layout::SETS];
    let mut rest = b;
    for i in 0..size(n) {
        let c = chain_from(rest);
        if i < Layout::SETS {
            sets[i] = c;
        }
        rest = behind(rest, 1 + size(c.count));
    }
    (sets, rest)
}

// The range at the front.
fn range_from(b: &[u8]) -> Range
    ensures { result ≡ range_of (span_front b.now) }
{
    Range {
        start: Position(number_at(b, 0, 8)),
        sets: byte_at(b, 8),
    }
}

// The `n` ranges at the front; there is room for 8.
fn ranges_from(b: &[u8], n: u8) -> [Range; Layout::RANGES]
    ensures { result ≡ padded 8 no_range (map range_of (spans_at n b.now)) }
{
    let mut ranges = [Range::blank(); Layout::RANGES];
    let mut rest = b;
    for i in 0..size(n) {
        if i < Layout::RANGES {
            ranges[i] = range_from(rest);
        }
        rest = behind(rest, 9);
    }
    ranges
}

// What the bytes would say, were they those of a layout.
fn parsed(b: &[u8]) -> Layout
    ensures { result ≡ value_of (decode b.now) }
{
    let epoch = number_at(b, 0, 4) as u32;
    let past_units = behind(b, 6 + size(byte_at(b, 5)));
    let set_count = byte_at(past_units, 0);
    let (sets, past_sets) = sets_from(behind(past_units, 1), set_count);
    let range_count = byte_at(past_sets, 0);
    Layout {
        epoch: Epoch(epoch),
        shape: byte_at(b, 4),
        set_count,
        sets,
        range_count,
        ranges: ranges_from(behind(past_sets, 1), range_count),
    }
}

// Whether the bytes are the good layout's own: as many, and the same.
#[tactic(auto, using(crate::proofs::Same::same_is))]
fn are_own(l: Layout, b: &[u8]) -> bool
    requires { good_value l ≡ true }
    ensures { result ≡ same (bytes_of l) b.now }
{
    let own = bytes_of(l);
    own.as_slice() == b
}

// The layout that the bytes are; refused where they are those of no good layout.
pub fn read_layout(b: &[u8]) -> Result<Layout, Refusal>
    ensures { LayoutRead b.now (answered result) (given blank result) }
{
    let l = parsed(b);
    if is_good(l) && are_own(l, b) {
        Ok(l)
    } else {
        Err(Refusal::Layout)
    }
}
