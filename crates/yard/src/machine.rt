// A request goes to its machine: a unit by its number, fetch and offer to the holder, token and start to the sequencer.
ghost use Rattle.std.specs.Prelude.{◌≡◌, true, false, []};
ghost use Rattle.rule.specs.Lent.{good_units};
ghost use Rattle.rule.specs.Serve.{unserved, serve};
ghost use Rattle.yard.specs.InsideParts.{world_of, response_in, IsServed};

use crate::moves::Core;
use crate::unit_request::bare;
use crate::units::at_unit;
use client::{Ask, Page, Reply, Response};
use layout::Layout;
use layout::holder::{fetch, offer};
use num::refusal::Refusal;
use sequencer::{start, token};

// What the machine answers, or why it refuses.
fn answer(
    core: &mut Core,
    units: &mut [u8],
    ask: Ask,
    page: Page,
    layout: Layout,
) -> Result<Response, Refusal>
    requires units_value { good_units core.old.yard.held.shape 1 8 units.old ≡ true }
    requires ask_value { unserved core.old.yard.stopped ask ≡ false }
    ensures { IsServed core.old.yard (serve (world_of core.old.yard core.old.sequencer [] units.old) ask page layout) (response_in result) core.new.yard core.new.sequencer units.new }
{
    match ask {
        Ask::Fetch => {
            let held = fetch(core.yard.held)?;
            Ok(Response {
                layout: held,
                ..bare(Reply::Held)
            })
        }
        Ask::Token(epoch) => {
            let position = token(&mut core.sequencer, epoch)?;
            Ok(bare(Reply::Given(position)))
        }
        Ask::Unit(u, asked) => at_unit(units, u, asked, page),
        Ask::Offer => {
            offer(&mut core.yard.held, layout)?;
            Ok(bare(Reply::Fine))
        }
        Ask::Start(epoch, p) => {
            start(&mut core.sequencer, epoch, p)?;
            Ok(bare(Reply::Fine))
        }
    }
}

// A machine's number travels in its letter.
pub(crate) fn serve(
    core: &mut Core,
    units: &mut [u8],
    ask: Ask,
    page: Page,
    layout: Layout,
) -> Response
    requires units_value { good_units core.old.yard.held.shape 1 8 units.old ≡ true }
    requires ask_value { unserved core.old.yard.stopped ask ≡ false }
    ensures { IsServed core.old.yard (serve (world_of core.old.yard core.old.sequencer [] units.old) ask page layout) result core.new.yard core.new.sequencer units.new }
{
    match answer(core, units, ask, page, layout) {
        Ok(response) => response,
        Err(refusal) => bare(Reply::Refused(refusal.number())),
    }
}
