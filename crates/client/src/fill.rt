// Fill: write junk at the head, or carry on what it holds; then on to the tail.
ghost use Rattle.std.specs.Prelude.{◌≡◌};
ghost use Rattle.client.specs.Turn.{turn_in};
ghost use Rattle.client.specs.Fill.{fills, looks, fills_on, not_filled, page_carried};

use crate::turn::{Turn, done, rests, sends};
use crate::way::{after_for, head_for};
use crate::{Ask, Client, Page, Phase, Query, UnitAsk};

// Writes the page carried at a unit: junk, or what the head holds.
pub(crate) fn fills(c: Client, unit: u8) -> Turn
    ensures { turn_in result ≡ fills c unit }
{
    let ask = UnitAsk::Write(c.layout.epoch, c.position);
    sends(
        c.in_phase(Phase::Filling(unit)),
        Query::bearing(Ask::Unit(unit, ask), c.page),
    )
}

// Reads the head.
fn looks(c: Client, unit: u8) -> Turn
    ensures { turn_in result ≡ looks c unit }
{
    let ask = UnitAsk::Read(c.layout.epoch, c.position);
    sends(
        c.in_phase(Phase::Looking(unit)),
        Query::plain(Ask::Unit(unit, ask)),
    )
}

// On to the tail.
#[tactic(auto, unfolding(crate::specs::Fill::fills_on))]
pub(crate) fn fills_on(c: Client, unit: u8) -> Turn
    ensures { turn_in result ≡ fills_on c unit }
{
    match after_for(c, unit) {
        None => done(c, Page::blank()),
        Some(next) => fills(c, next),
    }
}

// On 6 the head is read; 6 at a later unit counts as fine.
#[tactic(auto, unfolding(crate::specs::Fill::not_filled))]
pub(crate) fn not_filled(c: Client, unit: u8) -> Turn
    ensures { turn_in result ≡ not_filled c unit 6 }
{
    if unit == head_for(c) {
        looks(c, unit)
    } else {
        fills_on(c, unit)
    }
}

// What the head holds is carried instead of junk; a page that no unit shows never answers.
#[tactic(auto, unfolding(crate::specs::Fill::page_carried))]
pub(crate) fn page_carried(c: Client, unit: u8, page: Page) -> Turn
    ensures { turn_in result ≡ page_carried c unit page }
{
    if page.is_showable() {
        fills_on(c.carrying(page), unit)
    } else {
        rests(c)
    }
}
