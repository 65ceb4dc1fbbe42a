// Reorganise: seal every unit of the new layout with the held epoch, in rising number; offer the layout; start the sequencer.
ghost use Rattle.std.specs.Prelude.{◌≡◌};
ghost use Rattle.client.specs.Turn.{turn_in};
ghost use Rattle.client.specs.Reorganise.{seals, offers, all_sealed, seals_on, reorganises, edges_taken, starts};

use crate::turn::{Turn, ends, rests, sends};
use crate::way::plan_for;
use crate::{Ask, Client, Phase, Query, UnitAsk};
use layout::place::next_unit;
use layout::plan::with_start;
use num::largest::{largest, within};
use num::{Edges, Position};

// Seals a unit with the held epoch, `edges` being the largest so far.
fn seals(c: Client, unit: u8, edges: Edges) -> Turn
    ensures { turn_in result ≡ seals c unit edges }
{
    let ask = UnitAsk::Seal(c.layout.epoch);
    sends(
        c.in_phase(Phase::Sealing(unit, edges)),
        Query::plain(Ask::Unit(unit, ask)),
    )
}

// Offers the layout; the sequencer is to start at `first`.
fn offers(c: Client, first: Position) -> Turn
    ensures { turn_in result ≡ offers c first }
{
    sends(c.in_phase(Phase::Offering(first)), Query::offering(c.plan))
}

// The new range, if any, gets its start from the largest edges; the layout is offered.
#[tactic(auto, unfolding(crate::specs::Reorganise::all_sealed))]
fn all_sealed(c: Client, edges: Edges) -> Turn
    ensures { turn_in result ≡ all_sealed c edges }
{
    match with_start(c.plan, edges) {
        Ok(started) => offers(c.planning(started.layout), started.first),
        Err(refusal) => ends(c, refusal),
    }
}

// Every unit of the new layout, in rising number; new units too. `edges` are the largest so far.
#[tactic(auto, unfolding(crate::specs::Reorganise::seals_on))]
fn seals_on(c: Client, unit: u8, edges: Edges) -> Turn
    ensures { turn_in result ≡ seals_on c unit edges }
{
    match next_unit(c.plan, unit) {
        None => all_sealed(c, edges),
        Some(next) => seals(c, next, edges),
    }
}

// 15, 10, 13, 14 are checked before anything is sealed.
#[tactic(auto, unfolding(crate::specs::Reorganise::reorganises))]
pub(crate) fn reorganises(c: Client) -> Turn
    ensures { turn_in result ≡ reorganises c }
{
    match plan_for(c) {
        Ok(plan) => seals_on(c.planning(plan), 0, Edges::none()),
        Err(refusal) => ends(c, refusal),
    }
}

// The edges of a unit that was sealed; edges that no unit tells never answer.
#[tactic(auto, unfolding(crate::specs::Reorganise::edges_taken))]
pub(crate) fn edges_taken(c: Client, unit: u8, edges: Edges, told: Edges) -> Turn
    ensures { turn_in result ≡ edges_taken c unit edges told }
{
    if within(told) {
        seals_on(c, unit, largest(edges, told))
    } else {
        rests(c)
    }
}

// The holder took the offer: the sequencer is started at the new epoch.
pub(crate) fn starts(c: Client, first: Position) -> Turn
    ensures { turn_in result ≡ starts c first }
{
    sends(
        c.in_phase(Phase::Starting),
        Query::plain(Ask::Start(c.plan.epoch, first)),
    )
}
