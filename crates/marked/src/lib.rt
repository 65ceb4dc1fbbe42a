// The marked examples of docs/RULES.md, 13, run against the code of a unit and of the layouts, row by row of the table.
#![tactic(auto)]

ghost use Rattle.std.specs.Prelude.{◌≡◌, length, replicate};
ghost use Rattle.marked.specs.Answering.{IsAnswered};

use crate::ask::{Row, Shown, Told};
use crate::show::show;
use crate::table::table;
use crate::tell::tell;
use unit::memory::Unit;

mod ask;
mod lay;
mod show;
mod table;
mod tell;

// What the code told to each row in turn, and how many of them did not expect that.
#[derive(Clone, Copy)]
pub struct Answered {
    pub told: [Told; Row::COUNT],
    pub wrong: u64,
}

// Asks every row in turn, and prints it. It is proved that each is told what the rules say, and that none is wrong.
fn run(rt: &impl Print, mem: &mut [u8]) -> Answered
    requires { length mem.old ≡ 6168 }
    ensures { IsAnswered mem.old result }
{
    let rows = table();
    let mut told = [Ok(Shown::NOTHING); Row::COUNT];
    let mut wrong: u64 = 0;
    for (k, row) in rows.iter().enumerate() {
        let got = tell(mem, row.asked);
        told[k] = got;
        if !show(rt, *row, got) {
            wrong += 1;
        }
    }
    Answered { told, wrong }
}

// Runs them all from a unit's memory of its own, and prints how many there were, and how many were not answered as expected: none.
pub fn wrong_rows(rt: &impl Print) -> Answered
    ensures { IsAnswered (replicate 6168 0) result }
{
    let mut mem = [0u8; Unit::SIZE];
    let answered = run(rt, &mut mem);
    let wrong = answered.wrong;
    let rows = Row::COUNT as u64;
    let _ = println!(rt;
        "{rows} rows, {} as expected, {wrong} NOT as expected",
        rows - wrong
    );
    answered
}
