// Trim: head to tail. Prune: every unit of the layout in rising number.
ghost use Rattle.std.specs.Prelude.{◌≡◌};
ghost use Rattle.client.specs.Turn.{turn_in};
ghost use Rattle.client.specs.Trim.{trims, trims_on, prunes, prunes_on};

use crate::turn::{Turn, done, sends};
use crate::way::after_for;
use crate::{Ask, Client, Page, Phase, Query, UnitAsk};
use layout::place::next_unit;

pub(crate) fn trims(c: Client, unit: u8) -> Turn
    ensures { turn_in result ≡ trims c unit }
{
    let ask = UnitAsk::Trim(c.layout.epoch, c.position);
    sends(
        c.in_phase(Phase::Trimming(unit)),
        Query::plain(Ask::Unit(unit, ask)),
    )
}

// Head to tail.
#[tactic(auto, unfolding(crate::specs::Trim::trims_on))]
pub(crate) fn trims_on(c: Client, unit: u8) -> Turn
    ensures { turn_in result ≡ trims_on c unit }
{
    match after_for(c, unit) {
        None => done(c, Page::blank()),
        Some(next) => trims(c, next),
    }
}

fn prunes(c: Client, unit: u8) -> Turn
    ensures { turn_in result ≡ prunes c unit }
{
    let ask = UnitAsk::Prune(c.layout.epoch, c.position);
    sends(
        c.in_phase(Phase::Pruning(unit)),
        Query::plain(Ask::Unit(unit, ask)),
    )
}

// Every unit in rising number: after 0 the first.
#[tactic(auto, unfolding(crate::specs::Trim::prunes_on))]
pub(crate) fn prunes_on(c: Client, unit: u8) -> Turn
    ensures { turn_in result ≡ prunes_on c unit }
{
    match next_unit(c.layout, unit) {
        None => done(c, Page::blank()),
        Some(next) => prunes(c, next),
    }
}
