// The unit for a station's own C program: numbers and byte slices. A slice is a pointer and then a length.
#![tactic(auto)]

ghost use Rattle.unit.specs.State.{content};
ghost use Rattle.unit.specs.Unit.{Request};
ghost use Rattle.unit.specs.Promises.{IsFresh, IsAnswered};
ghost use Rattle.station.specs.Told.{epoch_of, position_of, IsTold, IsSealTold, IsMeasureTold};

use num::refusal::number_of;
use num::{Epoch, Position};
use unit::edges::measure;
use unit::memory::Unit;
use unit::prune::prune;
use unit::read::read;
use unit::seal::seal;
use unit::trim::trim;
use unit::write::write;

#[unsafe(no_mangle)]
pub extern "C" fn unit_fresh(mem: &mut [u8], number: u32, shape: u8) -> u8
    ensures { IsFresh mem.old number shape result mem.new }
{
    number_of(Unit::fresh(mem, number, shape))
}

#[unsafe(no_mangle)]
pub extern "C" fn unit_write(
    mem: &mut [u8],
    epoch: u32,
    position: u64,
    kind: u8,
    bytes: &[u8],
) -> u8
    ensures { IsAnswered mem.old (Request.write (epoch_of epoch) (position_of position) (content kind bytes.now)) result mem.new }
{
    number_of(write(mem, Epoch(epoch), Position(position), kind, bytes))
}

// `start` and `length` say where in `mem` the payload lies. On a refusal the three numbers keep what they held.
#[unsafe(no_mangle)]
pub extern "C" fn unit_read(
    mem: &[u8],
    epoch: u32,
    position: u64,
    kind: &mut u8,
    start: &mut u64,
    length: &mut u64,
) -> u8
    ensures { IsTold mem.now (epoch_of epoch) (position_of position) kind.old start.old length.old result kind.new start.new length.new }
{
    match read(mem, Epoch(epoch), Position(position)) {
        Ok(seen) => {
            *kind = seen.kind as u8;
            *start = seen.start as u64;
            *length = seen.length as u64;
            0
        }
        Err(refusal) => refusal.number(),
    }
}

#[unsafe(no_mangle)]
pub extern "C" fn unit_trim(mem: &mut [u8], epoch: u32, position: u64) -> u8
    ensures { IsAnswered mem.old (Request.trim (epoch_of epoch) (position_of position)) result mem.new }
{
    number_of(trim(mem, Epoch(epoch), Position(position)))
}

#[unsafe(no_mangle)]
pub extern "C" fn unit_prune(mem: &mut [u8], epoch: u32, position: u64) -> u8
    ensures { IsAnswered mem.old (Request.prune (epoch_of epoch) (position_of position)) result mem.new }
{
    number_of(prune(mem, Epoch(epoch), Position(position)))
}

// On a refusal `edge` and `written` keep what they held.
#[unsafe(no_mangle)]
pub extern "C" fn unit_seal(mem: &mut [u8], epoch: u32, edge: &mut u64, written: &mut u64) -> u8
    ensures { IsSealTold mem.old (epoch_of epoch) edge.old written.old result edge.new written.new mem.new }
{
    match seal(mem, Epoch(epoch)) {
        Ok(sealed) => {
            *edge = sealed.edge.0;
            *written = sealed.written.0;
            0
        }
        Err(refusal) => refusal.number(),
    }
}

// The edges without a seal. On a refusal `edge` and `written` keep what they held.
#[unsafe(no_mangle)]
pub extern "C" fn unit_edges(mem: &[u8], edge: &mut u64, written: &mut u64) -> u8
    ensures { IsMeasureTold mem.now edge.old written.old result edge.new written.new }
{
    match measure(mem) {
        Ok(measured) => {
            *edge = measured.edge.0;
            *written = measured.written.0;
            0
        }
        Err(refusal) => refusal.number(),
    }
}
