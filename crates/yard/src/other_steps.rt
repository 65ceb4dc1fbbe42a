// The steps but a delivery: each changes the yard by value.
ghost use Rattle.std.specs.Prelude.{◌≡◌};
ghost use Rattle.rule.specs.World.{running};
ghost use Rattle.rule.specs.Steps.{begins, drops, stops, restarts, gives_up, forgets};
ghost use Rattle.yard.specs.InsideMoves.{moves_of, moves_in, world_with, with_stopped_in, Moved};

use crate::moves::{Core, Moves};
use client::begin::{begin, give_up, ready_answer, restart};
use client::state::Job;
use num::refusal::{Refusal, lowest};
use rule::Yard;
use sequencer::forget;

// An operation begins: its client fetches the layout. 18, 19, 16, 2, 3 or 10 where it does not, in this order.
pub(crate) fn begins(core: Core, c: u8, job: Job) -> Result<Moves, Refusal>
    ensures { Moved (λ ls us. begins (world_with core.yard core.sequencer ls us) c job) core.yard.count 0 (moves_in core result) }
{
    let client = core.client(c)?;
    ready_answer(client)?;
    lowest(&[Refusal::BagFull.when(Yard::MOST <= core.yard.count)])?;
    let turn = begin(client, job, core.yard.held.shape)?;
    Ok(core.turned(true, c, &turn))
}

// A letter is dropped.
pub(crate) fn drops(core: Core, i: u8) -> Result<Moves, Refusal>
    ensures { Moved (λ ls us. drops (world_with core.yard core.sequencer ls us) i) core.yard.count i (moves_in core result) }
{
    if core.yard.count <= i {
        return Err(Refusal::Nobody);
    }
    Ok(core.quiet(false))
}

// Is there such a unit, and has it not stopped?
pub(crate) fn is_running(stopped: &[bool; Yard::UNITS], u: u8) -> bool
    ensures { result ≡ running stopped.now u }
{
    (1 <= u) && usize::from(u) <= Yard::UNITS && !stopped[usize::from(u) - 1]
}

// A unit stops.
pub(crate) fn stops(core: Core, u: u8) -> Result<Moves, Refusal>
    ensures { Moved (λ ls us. stops (world_with core.yard core.sequencer ls us) u) core.yard.count 0 (moves_in core result) }
{
    let mut after = core;
    if !is_running(&core.yard.stopped, u) {
        return Err(Refusal::Nobody);
    }
    after.yard.stopped[usize::from(u) - 1] = true;
    Ok(after.quiet(true))
}

// A client restarts: its operation is forgotten.
pub(crate) fn restarts(core: Core, c: u8) -> Result<Moves, Refusal>
    ensures { Moved (λ ls us. restarts (world_with core.yard core.sequencer ls us) c) core.yard.count 0 (moves_in core result) }
{
    let client = restart(core.client(c)?)?;
    Ok(core.with_client(c, client).quiet(true))
}

// A client is told to give up.
pub(crate) fn gives_up(core: Core, c: u8) -> Result<Moves, Refusal>
    ensures { Moved (λ ls us. gives_up (world_with core.yard core.sequencer ls us) c) core.yard.count 0 (moves_in core result) }
{
    let turn = give_up(core.client(c)?);
    Ok(core.turned(true, c, &turn))
}

// The sequencer forgets.
pub(crate) fn forgets(core: Core) -> Moves
    ensures { Moved (λ ls us. forgets (world_with core.yard core.sequencer ls us)) core.yard.count 0 (moves_of result) }
{
    let mut after = core;
    forget(&mut after.sequencer);
    after.quiet(true)
}
