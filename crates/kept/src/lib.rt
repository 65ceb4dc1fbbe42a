// A yard kept by value but for the memories, so that a program can hold it: its own table and sequencer are lent to each step.
#![tactic(auto)]

ghost use Rattle.std.specs.Prelude.{◌≡◌};
ghost use Rattle.kept.specs.Promises.{kept_step_in, IsKeptStep, kept_made_in, IsKeptMade};

use client::state::Job;
use layout::Layout;
use num::refusal::Refusal;
use rule::{Letter, Step, Stepped, Yard};
use sequencer::Sequencer;
use yard::fresh::fresh;
use yard::step::step;

#[derive(Clone, Copy)]
pub struct Kept {
    pub yard: Yard,
    pub sequencer: Sequencer,
    pub table: [Letter; Yard::LETTERS],
}

// A step of what is kept.
pub fn step_kept(kept: &mut Kept, units: &mut [u8], s: Step, job: Job) -> Stepped
    ensures taken { IsKeptStep kept.old units.old s job (kept_step_in result kept.new) units.new }
    ensures kept { kept.new.yard ≡ result.yard }
{
    let stepped = step(
        kept.yard,
        &mut kept.sequencer,
        &mut kept.table,
        units,
        s,
        job,
    );
    kept.yard = stepped.yard;
    stepped
}

pub fn fresh_kept(held: Layout, units: &mut [u8]) -> Result<Kept, Refusal>
    ensures { IsKeptMade held units.old (kept_made_in result) units.new }
{
    let mut sequencer = Sequencer::fresh();
    let mut table = [Letter::blank(); Yard::LETTERS];
    let yard = fresh(held, &mut sequencer, &mut table, units)?;
    Ok(Kept {
        yard,
        sequencer,
        table,
    })
}
