// Where a position belongs, and the units of a layout in rising number.
ghost use Rattle.std.specs.Prelude.{◌≡◌, ◌==◌, position, slice_get, true, map, ◌≤◌, length};
ghost use Rattle.num.specs.Refusals.{answered};
ghost use Rattle.layout.specs.Lay.{ranges_limit, good, good_spans, ◌in?◌, in_sets};
ghost use Rattle.layout.specs.Value.{lay_of, units_in, span_in};
ghost use Rattle.layout.specs.Places.{placed, set_number, or_zero, FromOne, place_answer, placed_in, placed_at, units_at, head_of, tail_of, after, next_unit};

use crate::good::is_good;
use crate::{Chain, Layout, Range};
use num::refusal::{Refusal, lowest};
use num::{Position, units};

impl Layout {
    // Units are numbered from 1 to it.
    pub const LAST_UNIT: u8 = units::LAST;
}

impl Chain {
    // Whether `unit` is in the set.
    #[tactic(auto, using(crate::proofs::Found::contains_is))]
    pub(crate) fn holds(&self, unit: u8) -> bool
        ensures { result ≡ unit in? units_in self.now }
    {
        self.units().contains(&unit)
    }
}

// Whether `u` is in one of the sets.
pub(crate) fn in_sets(sets: &[Chain], u: u8) -> bool
    ensures { result ≡ in_sets u (map units_in sets.now) }
{
    sets.iter().any(|c| c.holds(u))
}

// The number of the set that `p` belongs to, by the ranges of a good layout.
#[tactic(auto, using(crate::proofs::SetNumber::uses_some), unfolding(crate::specs::Places::placed))]
fn number_by(ranges: &[Range], p: u64) -> u64
    requires good { good_spans 0 (map span_in ranges.now) ≡ true }
    requires few { length ranges.now ≤ ranges_limit }
    ensures { result ≡ placed (map span_in ranges.now) 0 0 p }
{
    let mut before: u64 = 0;
    let mut found: u64 = 0;
    for r in ranges {
        let start = r.start.0;
        let uses = u64::from(r.sets);
        if start <= p {
            found = before + (p - start) % uses;
        }
        before += uses;
    }
    found
}

// The number of the set that `p` belongs to.
#[tactic(auto, unfolding(crate::specs::Value::lay_of, crate::specs::Places::set_number))]
fn number_of(l: Layout, p: Position) -> usize
    requires { good (lay_of l) ≡ true }
    ensures { result ≡ set_number (lay_of l) p.0 }
{
    number_by(l.ranges(), p.0) as usize
}

// Why `p` has no set.
#[tactic(auto, unfolding(crate::specs::Places::place_answer))]
fn answer_at(l: Layout, p: Position) -> Result<(), Refusal>
    ensures { answered result ≡ place_answer l p.0 }
{
    lowest(&[
        Refusal::Position.when(Position::LIMIT <= p.0),
        Refusal::Layout.when(!is_good(l)),
    ])
}

// The set that `p` belongs to: its number, counted from 0.
#[tactic(auto, using(crate::proofs::PlaceAnswer::place_fine, crate::proofs::PlaceAnswer::number_small), unfolding(crate::specs::Places::placed_at))]
pub fn set_of(l: Layout, p: Position) -> Result<u8, Refusal>
    ensures { placed_in result ≡ placed_at l p.0 }
{
    answer_at(l, p)?;
    Ok(number_of(l, p) as u8)
}

// The units of the set that `p` belongs to; none where it is refused.
#[tactic(auto, using(crate::proofs::PlaceAnswer::found))]
fn units_at(l: &Layout, p: Position) -> &[u8]
    ensures { result.now ≡ units_at l.now p.0 }
{
    match set_of(*l, p) {
        Ok(k) => l.sets[usize::from(k)].units(),
        Err(_) => &[],
    }
}

// The head of the set that `p` belongs to.
#[tactic(auto, using(crate::proofs::HeadAndTail::first_is))]
pub fn head_at(l: Layout, p: Position) -> Option<u8>
    ensures unit { or_zero result ≡ head_of (units_at l p.0) }
    ensures from_one { FromOne result }
{
    units_at(&l, p).first().copied()
}

// The tail of the set that `p` belongs to.
#[tactic(auto, using(crate::proofs::HeadAndTail::last_is))]
pub fn tail_at(l: Layout, p: Position) -> Option<u8>
    ensures unit { or_zero result ≡ tail_of (units_at l p.0) }
    ensures from_one { FromOne result }
{
    units_at(&l, p).last().copied()
}

// Where `u` stands among these units. Apart from `unit_after`: behind a `?` no proof knows what a chain found.
fn place_among(units: &[u8], u: u8) -> Option<usize>
    ensures { result ≡ position (λ x. u == x) units.now }
{
    units.iter().position(|unit| u == *unit)
}

// The unit at a place among these. Apart too: of an element that `get` lends its caller's proof knows only the place.
fn unit_at(units: &[u8], at: usize) -> Option<u8>
    ensures { result ≡ slice_get units.now at }
{
    units.get(at).copied()
}

// The unit after `u` in the set that `p` belongs to.
#[tactic(auto, using(crate::proofs::NextUnit::after_found))]
pub fn unit_after(l: Layout, p: Position, u: u8) -> Option<u8>
    ensures unit { or_zero result ≡ after u (units_at l p.0) }
    ensures from_one { FromOne result }
{
    let units = units_at(&l, p);
    let at = place_among(units, u)?;
    unit_at(units, at + 1)
}

// The next unit of the layout above `u`, in rising number.
#[tactic(auto, using(crate::proofs::NextUnit::above_here, crate::proofs::NextUnit::above_later, crate::proofs::NextUnit::above_none), unfolding(crate::specs::Value::lay_of, crate::specs::Lay::units_of))]
pub fn next_unit(l: Layout, u: u8) -> Option<u8>
    ensures unit { or_zero result ≡ next_unit (lay_of l) u }
    ensures from_one { FromOne result }
{
    for k in 1..=Layout::LAST_UNIT {
        if (u < k) & in_sets(l.sets(), k) {
            return Some(k);
        }
    }
    None
}
