// The eight unit memories, lent as one.
ghost use Rattle.std.specs.Prelude.{◌≡◌, true, ◌+◌, ◌-◌, ◌*◌, ◌≤◌};
ghost use Rattle.unit.specs.Shape.{shape_of};
ghost use Rattle.unit.specs.Memory.{code_of};
ghost use Rattle.rule.specs.World.{is_unit};
ghost use Rattle.rule.specs.Lent.{good_unit, good_units};
ghost use Rattle.rule.specs.Serve.{unit_says, unit_after};
ghost use Rattle.yard.specs.InsideParts.{unit_of, response_in, AtUnit};

use crate::unit_request::ask_unit;
use client::{Page, Response, UnitAsk};
use num::bytes::number_at;
use num::refusal::Refusal;
use rule::Yard;
use unit::memory::{Unit, is_good};

// Whether a memory is good, of its number and of the yard's shape.
fn good_unit(mem: &[u8], number: u64, shape: u8) -> bool
    ensures { result ≡ good_unit shape number mem.now }
{
    is_good(mem) & (number_at(mem, 0, 1) == number) & (number_at(mem, 1, 1) == u64::from(shape))
}

// Whether each memory is.
pub(crate) fn good_units(units: &[u8], shape: u8) -> bool
    ensures { result ≡ good_units shape 1 8 units.now }
{
    if units.len() != Yard::SIZE {
        return false;
    }
    for i in 0..Yard::UNITS {
        let start = i * Unit::SIZE;
        if !good_unit(&units[start..start + Unit::SIZE], i as u64 + 1, shape) {
            return false;
        }
    }
    true
}

// Where a unit's memory starts.
fn start_of(u: u8) -> usize
    requires { is_unit u ≡ true }
    ensures { (result ≡ (u - 1) * 6168) × (result + 6168 ≤ 49344) }
{
    (usize::from(u) - 1) * Unit::SIZE
}

// A request at the unit `u`, of the shape that the first memory names.
pub(crate) fn at_unit(
    units: &mut [u8],
    u: u8,
    ask: UnitAsk,
    page: Page,
) -> Result<Response, Refusal>
    requires units_value { good_units (code_of units.old) 1 8 units.old ≡ true }
    requires u_value { is_unit u ≡ true }
    ensures { AtUnit (shape_of units.old) units.old u
        (unit_says (shape_of units.old) (unit_of (shape_of units.old) units.old u) ask page)
        (unit_after (shape_of units.old) (unit_of (shape_of units.old) units.old u) ask page) (response_in result) units.new }
{
    let start = start_of(u);
    ask_unit(&mut units[start..start + Unit::SIZE], ask, page)
}
