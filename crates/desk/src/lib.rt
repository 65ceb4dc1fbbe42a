// Layouts and plays for tests on a desk: numbers and byte slices. A slice is a pointer and then a length.
#![tactic(auto)]

ghost use Rattle.std.specs.Prelude.{◌≡◌};
ghost use Rattle.num.specs.Refusals.{answered, given};
ghost use Rattle.layout.specs.Codec.{read_layout};
ghost use Rattle.play.specs.Shown.{IsShown};
ghost use Rattle.desk.specs.Told.{IsGoodTold, IsSetTold, IsOfferTold, IsPlanTold};
ghost use Rattle.desk.specs.InsideMade.{IsDone};

mod made;

use layout::Layout;
use layout::holder::offer;
use layout::place::set_of;
use layout::read::read_layout;
use layout::write::write_layout;
use made::make;
use num::Position;
use num::refusal::{Refusal, number_of};
use play::show_lines;

// The layout that the bytes say. No layout stands for any other bytes: it is refused by the rules, each with its own number.
fn layout_in(bytes: &[u8]) -> Layout
    ensures { result ≡ read_layout bytes.now }
{
    read_layout(bytes).unwrap_or(Layout::blank())
}

#[unsafe(no_mangle)]
pub extern "C" fn layout_good(bytes: &[u8]) -> u8
    ensures { IsGoodTold bytes.now result }
{
    number_of(read_layout(bytes))
}

// On a refusal `set` keeps what it held.
#[unsafe(no_mangle)]
pub extern "C" fn layout_set(bytes: &[u8], position: u64, set: &mut u64) -> u8
    ensures { IsSetTold bytes.now position set.old result set.new }
{
    match set_of(layout_in(bytes), Position(position)) {
        Ok(found) => {
            *set = u64::from(found);
            0
        }
        Err(refusal) => refusal.number(),
    }
}

#[unsafe(no_mangle)]
pub extern "C" fn layout_offer(held: &[u8], offered: &[u8]) -> u8
    ensures { IsOfferTold held.now offered.now result }
{
    let mut holds = layout_in(held);
    number_of(offer(&mut holds, layout_in(offered)))
}

// The new layout's bytes at the front of `out`, and how many they are.
fn write_plan(
    held: &[u8],
    drops: &[u8],
    sets: &[u8],
    edge: u64,
    out: &mut [u8],
) -> Result<usize, Refusal>
    ensures { IsDone (read_layout held.now) drops.now sets.now edge out.old (answered result) (given 0 result) out.new }
{
    let new = make(layout_in(held), drops, sets, edge)?;
    write_layout(new, out)
}

// The new layout's bytes go to the front of `out`. On a refusal `out` and `written` keep what they held.
#[unsafe(no_mangle)]
pub extern "C" fn layout_plan(
    held: &[u8],
    drops: &[u8],
    sets: &[u8],
    edge: u64,
    out: &mut [u8],
    written: &mut u64,
) -> u8
    ensures { IsPlanTold held.now drops.now sets.now edge out.old written.old result out.new written.new }
{
    match write_plan(held, drops, sets, edge, out) {
        Ok(n) => {
            *written = n as u64;
            0
        }
        Err(refusal) => refusal.number(),
    }
}

// Lines of a play, from number `from` on, go to the front of `out`. On a refusal `out`, `lines` and `written` keep what they held.
#[unsafe(no_mangle)]
pub extern "C" fn play_lines(
    file: &[u8],
    from: u32,
    out: &mut [u8],
    lines: &mut u32,
    written: &mut u64,
) -> u8
    ensures { IsShown file.now from out.old lines.old written.old result out.new lines.new written.new }
{
    match show_lines(file, from, out) {
        Ok(shown) => {
            *lines = shown.lines;
            *written = shown.written as u64;
            0
        }
        Err(refusal) => refusal.number(),
    }
}
