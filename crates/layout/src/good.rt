// Whether a value is that of a good layout: limits kept, units and starts rising, all sets used, and blank past every count.
ghost use Rattle.std.specs.Prelude.{◌≡◌, ◌≤◌, ◌&&◌, eqb, length, drop, map};
ghost use Rattle.layout.specs.Lay.{set_limit, ranges_limit, rising, good_set, good_sets, good_spans, used};
ghost use Rattle.layout.specs.Value.{lay_of, units_in, span_in, zeros, tidy_chain, tidy_chains, blank_ranges, good_value};
ghost use Rattle.layout.specs.Plan.{good_chains};

use crate::{Chain, Layout, Range};
use num::Position;
use num::bytes::size;

// Whether the units rise, from 1 to the last.
#[tactic(auto, unfolding(crate::specs::Lay::rising))]
fn rises(units: &[u8]) -> bool
    ensures { result ≡ rising 0 units.now }
{
    let mut low = 0;
    for unit in units {
        if *unit <= low || Layout::LAST_UNIT < *unit {
            return false;
        }
        low = *unit;
    }
    true
}

// Whether no unit stands here.
fn are_blank(units: &[u8]) -> bool
    requires { length units.now ≤ set_limit }
    ensures { result ≡ zeros set_limit units.now }
{
    units.iter().all(|unit| *unit == 0)
}

// Whether a chain is blank past its units.
fn ends_blank(c: &Chain) -> bool
    ensures { result ≡ zeros set_limit (drop c.now.count c.now.units) }
{
    are_blank(&c.units[c.units().len()..])
}

// A good set, and blank past its units.
#[tactic(auto, unfolding(crate::specs::Lay::good_set, crate::specs::Value::tidy_chain))]
pub(crate) fn good_chain(c: &Chain) -> bool
    ensures { result ≡ good_set (units_in c.now) && tidy_chain c.now }
{
    1 <= c.count && c.count <= Chain::MOST && rises(c.units()) && ends_blank(c)
}

// No set.
#[tactic(auto, unfolding(crate::specs::Value::tidy_chain))]
fn is_no_chain(c: &Chain) -> bool
    ensures { result ≡ tidy_chain c.now && eqb c.now.count 0 }
{
    c.count == 0 && ends_blank(c)
}

// Every one is a good set.
pub(crate) fn good_chains(chains: &[Chain]) -> bool
    ensures { result ≡ good_chains chains.now }
{
    chains.iter().all(|c| good_chain(c))
}

// None is a set.
fn no_chains(chains: &[Chain]) -> bool
    ensures { result ≡ tidy_chains 0 chains.now }
{
    chains.iter().all(|c| is_no_chain(c))
}

// Every set is good, and behind them there are none.
#[tactic(auto, using(crate::proofs::TidyChains::chains_split, crate::proofs::Take::past_front), unfolding(crate::specs::Value::lay_of))]
fn good_sets(l: Layout) -> bool
    ensures { result ≡ good_sets (lay_of l).sets && tidy_chains l.set_count l.sets }
{
    good_chains(l.sets()) && no_chains(&l.sets[l.sets().len()..])
}

// Whether the starts rise below the limit of positions, and each range uses a set.
#[tactic(auto, unfolding(crate::specs::Lay::good_spans))]
fn good_starts(ranges: &[Range]) -> bool
    ensures { result ≡ good_spans 0 (map span_in ranges.now) }
{
    let mut low = 0;
    for r in ranges {
        let start = r.start.0;
        if !(low <= start && start < Position::LIMIT && 1 <= r.sets) {
            return false;
        }
        low = start + 1;
    }
    true
}

// None is a range.
fn no_ranges(ranges: &[Range]) -> bool
    ensures { result ≡ blank_ranges ranges.now }
{
    ranges.iter().all(|r| r.start.0 == 0 && r.sets == 0)
}

// Every range is good, and behind them there are none.
#[tactic(auto, using(crate::proofs::Take::past_front), unfolding(crate::specs::Value::lay_of))]
fn good_ranges(l: Layout) -> bool
    ensures { result ≡ good_spans 0 (lay_of l).spans && blank_ranges (drop l.range_count l.ranges) }
{
    good_starts(l.ranges()) && no_ranges(&l.ranges[l.ranges().len()..])
}

// How many sets the ranges use.
#[tactic(auto, using(crate::proofs::Used::used_is))]
fn sets_used(ranges: &[Range]) -> usize
    requires { length ranges.now ≤ ranges_limit }
    ensures { result ≡ used (map span_in ranges.now) }
{
    ranges.iter().map(|r| usize::from(r.sets)).sum()
}

// The value is that of a good layout.
pub fn is_good(l: Layout) -> bool
    ensures { result ≡ good_value l }
{
    let sets = size(l.set_count);
    let ranges = size(l.range_count);
    let first = l.ranges[0];
    (1 <= l.epoch.0)
        & (l.shape <= Layout::LARGE)
        & (sets <= Layout::SETS)
        & (1 <= ranges)
        & (ranges <= Layout::RANGES)
        & (first.start.0 == 0)
        & good_sets(l)
        & good_ranges(l)
        & (sets_used(l.ranges()) == sets)
}
