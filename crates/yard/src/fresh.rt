// Making a fresh yard.
ghost use Rattle.std.specs.Prelude.{◌≡◌, ◌≤◌, length};
ghost use Rattle.layout.specs.Lay.{last_shape};
ghost use Rattle.unit.specs.Shape.{shape_for};
ghost use Rattle.rule.specs.Lent.{units_bytes};
ghost use Rattle.num.specs.Refusals.{answered};
ghost use Rattle.rule.specs.Fresh.{fresh_units, fresh_yard, fresh_number_of, made_in, IsMade};

use crate::bag::clear;
use client::Client;
use layout::Layout;
use layout::good::is_good;
use num::refusal::{Refusal, lowest};
use rule::{Letter, Yard};
use sequencer::Sequencer;
use unit::memory::Unit;

// Eight fresh units of a shape that there is, from the last to the first.
fn fresh_units(units: &mut [u8], shape: u8)
    requires units_len { length units.old ≡ 49344 }
    requires shape_le_last_shape { shape ≤ last_shape }
    ensures { units.new ≡ units_bytes (shape_for shape) (fresh_units 1 8) }
{
    for i in (0..Yard::UNITS).rev() {
        let start = i * Unit::SIZE;
        // A part of this length, with this number and shape, is never refused.
        let _ = Unit::fresh(&mut units[start..start + Unit::SIZE], i as u32 + 1, shape);
    }
}

// A yard with no letters and with clients that never began.
fn fresh_yard(held: Layout) -> Yard
    ensures { result ≡ fresh_yard held }
{
    Yard {
        held,
        clients: [Client::fresh(); Yard::CLIENTS],
        stopped: [false; Yard::UNITS],
        count: 0,
    }
}

// 1, 10 or 16 where no yard is made.
#[tactic(auto, unfolding(rule::specs::Fresh::fresh_number_of))]
fn test(held: Layout, places: usize, size: usize) -> Result<(), Refusal>
    ensures { answered result ≡ fresh_number_of held places size }
{
    lowest(&[
        Refusal::Memory.when(size != Yard::SIZE),
        Refusal::Layout.when(!(is_good(held) & (held.epoch.0 == 1))),
        Refusal::BagFull.when(places != Yard::LETTERS),
    ])
}

// A fresh yard over a lent sequencer, table and memories of any content.
pub fn fresh(
    held: Layout,
    seq: &mut Sequencer,
    table: &mut [Letter],
    units: &mut [u8],
) -> Result<Yard, Refusal>
    ensures { IsMade held seq.old table.old units.old (made_in result) seq.new table.new units.new }
{
    test(held, table.len(), units.len())?;
    fresh_units(units, held.shape);
    *seq = Sequencer::fresh();
    clear(table, Yard::LETTERS);
    Ok(fresh_yard(held))
}
