// What a reorganise makes of a layout, its new sets as bytes: up to 255, though no more than 15 can be had.
ghost use Rattle.std.specs.Prelude.{◌≡◌, false, [], cond, ◌||◌, not};
ghost use Rattle.num.specs.Refusals.{answered, given};
ghost use Rattle.layout.specs.Value.{blank};
ghost use Rattle.layout.specs.Codec.{sets_said, wish_said};
ghost use Rattle.layout.specs.Plan.{bad_drops};
ghost use Rattle.desk.specs.Told.{fine_sets};
ghost use Rattle.desk.specs.InsideMade.{named_sets, empty_wish, IsMade};

use layout::new_sets::{are_sets, sets_name, wish_of};
use layout::plan::{plan, with_start};
use layout::{Layout, Wish};
use num::refusal::Refusal;
use num::{Edges, Position};

// Whether a unit to drop is outside 1 to 8. With no early end many are tested at a time.
fn are_outside(drops: &[u8]) -> bool
    ensures { result ≡ bad_drops drops.now [] }
{
    let mut outside = false;
    for u in drops {
        outside = outside | !((1 <= *u) & (*u <= Layout::LAST_UNIT));
    }
    outside
}

// Whether the sets name a unit to drop. Each unit is looked for once, however many there are to drop.
fn name_dropped(sets: &[u8], drops: &[u8]) -> bool
    ensures { bad_drops drops.now [] ≡ false → result ≡ bad_drops drops.now (named_sets sets.now) }
{
    // a count alone
    if sets.len() < 2 {
        return false;
    }
    for u in 1..=Layout::LAST_UNIT {
        if drops.contains(&u) && sets_name(sets, u) {
            return true;
        }
    }
    false
}

// Whether a unit to drop is outside 1 to 8, or also named in a new set.
fn drops_are_bad(drops: &[u8], sets: &[u8]) -> bool
    ensures { result ≡ bad_drops drops.now (named_sets sets.now) }
{
    are_outside(drops) || name_dropped(sets, drops)
}

// Whether the drops are bad, or the new sets not good.
fn are_bad(drops: &[u8], sets: &[u8]) -> bool
    ensures { result ≡ (bad_drops drops.now (sets_said sets.now) || not (fine_sets sets.now)) }
{
    !(sets.is_empty() | are_sets(sets)) || drops_are_bad(drops, sets)
}

// The first 16 new sets. An empty set, which no plan takes, stands for what is bad, also behind the 16th.
fn wish_for(drops: &[u8], sets: &[u8]) -> Wish
    ensures { result ≡ cond (bad_drops drops.now (sets_said sets.now) || not (fine_sets sets.now)) empty_wish (wish_said sets.now) }
{
    if are_bad(drops, sets) {
        Wish {
            count: 1,
            ..Wish::blank()
        }
    } else {
        wish_of(sets)
    }
}

// The plan, its new range's start set.
pub(crate) fn make(held: Layout, drops: &[u8], sets: &[u8], edge: u64) -> Result<Layout, Refusal>
    ensures { IsMade held drops.now sets.now edge (answered result) (given blank result) }
{
    let plan = plan(held, drops, wish_for(drops, sets))?;
    // No layout depends on the written edge.
    let edges = Edges {
        edge: Position(edge),
        written: Position(0),
    };
    let started = with_start(plan, edges)?;
    Ok(started.layout)
}
