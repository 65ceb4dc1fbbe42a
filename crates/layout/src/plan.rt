// The plan of a reorganise: units to drop, and new sets if wanted.
ghost use Rattle.std.specs.Prelude.{◌≡◌, true, false, [], MatchOption, cond, ◌||◌, map, ◌+◌, ◌-◌, ◌<◌, ◌≤◌, ltb, length, take, set};
ghost use Rattle.std.proofs.lemmas.List.Edits.{sets as stored};
ghost use Rattle.num.specs.Refusals.{answered};
ghost use Rattle.layout.specs.Lay.{sets_limit, ranges_limit};
ghost use Rattle.layout.specs.Value.{lay_of, value_of, units_in};
ghost use Rattle.layout.specs.Plan.{thinned, bad_drops, emptied, new_of, new_ranges, reorganise_answer, planned, planned_in, planned_for, ends_open, start_at, start_set, started_in, started_at};

use crate::good::{good_chains, is_good};
use crate::place::in_sets;
use crate::{Chain, Layout, Range, Wish};
use num::largest::larger;
use num::refusal::{Refusal, lowest};
use num::{Edges, Epoch, Position};

// The new layout, and where the sequencer is to be started.
#[derive(Clone, Copy)]
pub struct Started {
    pub layout: Layout,
    pub first: Position,
}

// The set without the units to drop.
fn shrunk(c: &Chain, drops: &[u8]) -> Chain
    ensures { result ≡ thinned drops.now c.now }
{
    let mut kept = Chain::blank();
    for u in c.units() {
        if !drops.contains(u) {
            kept.units[usize::from(kept.count)] = *u;
            kept.count += 1;
        }
    }
    kept
}

// Each set without the units to drop; a blank one stays blank.
fn thin_sets(sets: [Chain; Layout::SETS], drops: &[u8]) -> [Chain; Layout::SETS]
    ensures { result ≡ map (thinned drops.now) sets }
{
    sets.map(|c| shrunk(&c, drops))
}

// The wanted sets behind the old ones, from `at` on.
fn add_sets(old: [Chain; Layout::SETS], at: usize, wish: Wish) -> [Chain; Layout::SETS]
    requires { at + wish.count ≤ 16 }
    ensures { result ≡ stored old at (take wish.count wish.sets) }
{
    let new = wish.sets();
    let mut out = old;
    out[at..at + new.len()].copy_from_slice(new);
    out
}

// Whether dropping would empty one of the sets.
fn empties(sets: &[Chain], drops: &[u8]) -> bool
    ensures { result ≡ emptied drops.now (map units_in sets.now) }
{
    sets.iter().any(|c| shrunk(c, drops).count == 0)
}

// Whether a unit to drop is outside 1 to 8. With no early end many are tested at a time.
fn are_outside(drops: &[u8]) -> bool
    ensures { result ≡ bad_drops drops.now [] }
{
    let mut outside = false;
    for u in drops {
        outside = outside | !((1 <= *u) & (*u <= Layout::LAST_UNIT));
    }
    outside
}

// Whether one of the sets names a unit to drop. Each unit is looked for once, however many there are to drop.
#[tactic(auto, using(crate::proofs::Found::contains_is, crate::proofs::Dropped::named_bad, crate::proofs::Dropped::unnamed_first, crate::proofs::Dropped::unnamed_skip, crate::proofs::Dropped::unnamed_more, crate::proofs::Dropped::unnamed_all, crate::proofs::Dropped::none_named))]
fn name_dropped(sets: &[Chain], drops: &[u8]) -> bool
    ensures { bad_drops drops.now [] ≡ false → result ≡ bad_drops drops.now (map units_in sets.now) }
{
    if sets.is_empty() {
        return false;
    }
    for u in 1..=Layout::LAST_UNIT {
        if drops.contains(&u) && in_sets(sets, u) {
            return true;
        }
    }
    false
}

// Whether a unit to drop is outside 1 to 8, or also named in a new set.
#[tactic(auto, using(crate::proofs::Dropped::outside_bad))]
fn bad_drops(drops: &[u8], wish: Wish) -> bool
    ensures { result ≡ bad_drops drops.now (new_of wish) }
{
    are_outside(drops) || name_dropped(wish.sets(), drops)
}

// One range more, its start open, where there are new sets for it.
fn add_range(old: [Range; Layout::RANGES], at: usize, uses: u8) -> [Range; Layout::RANGES]
    requires { 0 < uses → at < 8 }
    ensures { result ≡ cond (ltb 0 uses) (set old at (record { start = record { 0 = 0 }; sets = uses })) old }
{
    let mut out = old;
    if 0 < uses {
        out[at] = Range {
            start: Position(0),
            sets: uses,
        };
    }
    out
}

// Whether there would be more than 16 sets or 8 ranges.
#[tactic(auto, using(crate::proofs::ReorganiseAnswer::new_ranges_lem), unfolding(crate::specs::Value::lay_of))]
fn is_full(held: Layout, wish: Wish) -> bool
    ensures { result ≡ (ltb sets_limit (length (lay_of held).sets + length (new_of wish)) || ltb ranges_limit (length (lay_of held).spans + new_ranges (new_of wish))) }
{
    let sets = held.sets().len() + wish.sets().len();
    let ranges = held.ranges().len() + usize::from(0 < wish.count);
    (Layout::SETS < sets) | (Layout::RANGES < ranges)
}

// Why the plan cannot be made.
#[tactic(auto, unfolding(crate::specs::Plan::reorganise_answer, crate::specs::Value::lay_of))]
fn answer_for(held: Layout, drops: &[u8], wish: Wish) -> Result<(), Refusal>
    ensures { answered result ≡ reorganise_answer held drops.now wish }
{
    lowest(&[
        Refusal::Layout.when(!is_good(held)),
        Refusal::EpochsSpent.when(Epoch::LAST <= held.epoch.0),
        Refusal::Layout.when(bad_drops(drops, wish) | !good_chains(wish.sets())),
        Refusal::SetLost.when(empties(held.sets(), drops)),
        Refusal::LayoutFull.when(is_full(held, wish)),
    ])
}

// The new layout, the start of its new range still open.
#[tactic(auto, using(crate::proofs::Assembled::fitting))]
fn new_layout(held: Layout, drops: &[u8], wish: Wish) -> Layout
    requires { reorganise_answer held drops.now wish ≡ 0 }
    ensures { result ≡ value_of (planned (lay_of held) drops.now (new_of wish) 0) }
{
    let kept = thin_sets(held.sets, drops);
    Layout {
        epoch: Epoch(held.epoch.0 + 1),
        set_count: held.set_count + wish.count,
        sets: add_sets(kept, usize::from(held.set_count), wish),
        range_count: held.range_count + u8::from(0 < wish.count),
        ranges: add_range(held.ranges, usize::from(held.range_count), wish.count),
        ..held
    }
}

// The plan of a reorganise of the held layout.
#[tactic(auto, unfolding(crate::specs::Plan::planned_for))]
pub fn plan(held: Layout, drops: &[u8], wish: Wish) -> Result<Layout, Refusal>
    ensures { planned_in result ≡ planned_for held drops.now wish }
{
    answer_for(held, drops, wish)?;
    Ok(new_layout(held, drops, wish))
}

// Where the range before the last one starts, if the last one is open: not the first, and its start 0.
#[tactic(auto, using(crate::proofs::StartedAt::open_is, crate::proofs::StartedAt::before_in), unfolding(crate::specs::Value::lay_of))]
fn before_open(l: Layout) -> Option<u64>
    ensures { let ss = (lay_of l).spans in MatchOption result (ends_open ss ≡ false) (λ before. (ends_open ss ≡ true) × (before ≡ start_at ss (length ss - 2))) }
{
    match l.ranges() {
        [.., before, last] if last.start.0 == 0 => Some(before.start.0),
        _ => None,
    }
}

// The layout with the start of its range numbered `k` set.
#[tactic(auto, unfolding(crate::specs::Plan::start_set))]
fn set_start(mut l: Layout, k: usize, start: Position) -> Layout
    requires { k < 8 }
    ensures { result ≡ start_set k start.0 l }
{
    l.ranges[k].start = start;
    l
}

// The plan with its new range's start set, at the largest edge or above; and where the sequencer is to be started: there, or at the written edge.
#[tactic(auto, using(crate::proofs::StartedAt::open_many), unfolding(crate::specs::Plan::started_at, crate::specs::Plan::settle_answer, crate::specs::Plan::settled, crate::specs::Plan::settled_first, crate::specs::Plan::open_start, crate::specs::Value::lay_of))]
pub fn with_start(plan: Layout, edges: Edges) -> Result<Started, Refusal>
    ensures { started_in result ≡ started_at plan edges }
{
    let Some(before) = before_open(plan) else {
        return Ok(Started {
            layout: plan,
            first: edges.written,
        });
    };
    let first = larger(edges.edge, Position(before.saturating_add(1)));
    if Position::LIMIT <= first.0 {
        return Err(Refusal::Spent);
    }
    let last = plan.ranges().len() - 1;
    Ok(Started {
        layout: set_start(plan, last, first),
        first,
    })
}
