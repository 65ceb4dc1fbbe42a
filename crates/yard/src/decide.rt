// What a step is lent is tested first; then all is decided by value, over the units' bytes.
ghost use Rattle.std.specs.Prelude.{◌≡◌, true};
ghost use Rattle.num.specs.Refusals.{answered};
ghost use Rattle.rule.specs.World.{shape_under};
ghost use Rattle.rule.specs.Lent.{good_clients, good_units, test_number};
ghost use Rattle.rule.specs.Steps.{step};
ghost use Rattle.yard.specs.InsideParts.{world_of};
ghost use Rattle.yard.specs.InsideMoves.{moves_in, Decided};
ghost use Rattle.yard.specs.InsideSettled.{letter_place, Decides};

use crate::deliver::{Delivery, delivers};
use crate::moves::{Core, Moves};
use crate::other_steps::{begins, drops, forgets, gives_up, restarts, stops};
use crate::units::good_units;
use client::state::Job;
use client::{Client, Stage};
use layout::good::is_good;
use num::refusal::{Refusal, lowest};
use rule::{Letter, Step, Yard};

// A client that has fetched a layout holds a good one.
#[tactic(auto, unfolding(rule::specs::Lent::good_clients))]
fn good_clients(clients: &[Client]) -> bool
    ensures { result ≡ good_clients clients.now }
{
    for client in clients {
        if matches!(client.stage, Stage::Working(_)) && !is_good(client.layout) {
            return false;
        }
    }
    true
}

// 1, 10 or 16 where what is lent is not as it must be.
#[tactic(auto, unfolding(rule::specs::Lent::test_number))]
fn test(yard: &Yard, places: usize, units: &[u8]) -> Result<(), Refusal>
    ensures { answered result ≡ test_number yard.now places units.now }
{
    lowest(&[
        Refusal::Memory.when(!good_units(units, yard.held.shape)),
        Refusal::Layout.when(!(is_good(yard.held) & good_clients(&yard.clients))),
        Refusal::BagFull.when((places != Yard::LETTERS) | (Yard::MOST < yard.count)),
    ])
}

// The place of the letter that a step is about.
pub(crate) fn place_of(s: Step) -> usize
    ensures { result ≡ letter_place s }
{
    match s {
        Step::Deliver(i, _, _) | Step::Drop(i) => usize::from(i),
        _ => 0,
    }
}

// The moves of a step over good memories; `l` is the letter at its place.
fn chosen(core: Core, l: Letter, units: &mut [u8], s: Step, job: Job) -> Result<Moves, Refusal>
    requires { good_units core.yard.held.shape 1 8 units.old ≡ true }
    ensures { Decided (shape_under core.yard.held) l (λ ls. step (world_of core.yard core.sequencer ls units.old) s job) core.yard.count (letter_place s) (moves_in core result) units.new }
{
    match s {
        Step::Begin(c) => begins(core, c, job),
        Step::Deliver(i, keeps, keeps_answer) => {
            let d = Delivery {
                letter: l,
                keeps,
                keeps_answer,
            };
            delivers(core, units, i, d)
        }
        Step::Drop(i) => drops(core, i),
        Step::Stop(u) => stops(core, u),
        Step::Restart(c) => restarts(core, c),
        Step::GiveUp(c) => gives_up(core, c),
        Step::Forget => Ok(forgets(core)),
    }
}

pub(crate) fn decide(
    core: Core,
    places: usize,
    l: Letter,
    units: &mut [u8],
    s: Step,
    job: Job,
) -> Result<Moves, Refusal>
    ensures { Decides core.yard core.sequencer places l units.old s job (moves_in core result) units.new }
{
    test(&core.yard, places, units)?;
    chosen(core, l, units, s, job)
}
