// Read: ask the tail.
ghost use Rattle.std.specs.Prelude.{◌≡◌};
ghost use Rattle.client.specs.Turn.{turn_in};
ghost use Rattle.client.specs.Read.{reads, page_taken};

use crate::turn::{Turn, done, rests, sends};
use crate::{Ask, Client, Page, Phase, Query, UnitAsk};

pub(crate) fn reads(c: Client, unit: u8) -> Turn
    ensures { turn_in result ≡ reads c unit }
{
    let ask = UnitAsk::Read(c.layout.epoch, c.position);
    sends(
        c.in_phase(Phase::Reading(unit)),
        Query::plain(Ask::Unit(unit, ask)),
    )
}

// The page is the outcome's, which bears the epoch; one that no unit shows never answers.
#[tactic(auto, unfolding(crate::specs::Read::page_taken))]
pub(crate) fn page_taken(c: Client, page: Page) -> Turn
    ensures { turn_in result ≡ page_taken c page }
{
    if page.is_showable() {
        done(c, page)
    } else {
        rests(c)
    }
}
