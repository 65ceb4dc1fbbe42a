// A play, run from its fresh yard, and the lines that it shows.
#![tactic(auto)]

ghost use Rattle.std.specs.Prelude.{◌≡◌};
ghost use Rattle.rule.specs.Stepped.{who_of, outcome_of};
ghost use Rattle.play.specs.Shown.{IsRun};
ghost use Rattle.play.specs.Going.{line_by, IsLineShown, Showing, Ready, Ran};

use client::Outcome;
use kept::{Kept, fresh_kept, step_kept};
use line::put_line;
use num::refusal::{Refusal, number_of};
use rule::{Stepped, Yard};
use script::judge::{Judged, judge};
use script::step::step_at;

// How many lines are shown, and how many bytes they have.
#[derive(Clone, Copy)]
pub struct Shown {
    pub lines: u32,
    pub written: usize,
}

// Whose operation ended, and how; 0 where none did, as `put_line` takes it, which takes every number.
fn ended(stepped: Stepped) -> (u8, Outcome)
    ensures { (result.0 ≡ who_of stepped.ended) × (result.1 ≡ outcome_of stepped.ended) }
{
    match stepped.ended {
        Some(e) => (e.who, e.outcome),
        None => (0, Outcome::blank()),
    }
}

// Shows the line of step `n` behind the others; nothing where it has no room.
fn show(shown: Shown, n: u32, stepped: Stepped, out: &mut [u8]) -> Option<Shown>
    requires { Showing shown n out.old }
    ensures { IsLineShown shown (line_by n stepped) out.old result out.new }
{
    let at = shown.written;
    let (who, outcome) = ended(stepped);
    let size = put_line(out, at, n, number_of(stepped.answer), who, outcome)?;
    Some(Shown {
        lines: shown.lines + 1,
        written: at + size,
    })
}

// Takes the steps of a play, and shows their lines from number `from` on, as many as have room.
fn run(
    file: &[u8],
    judged: Judged,
    from: u32,
    mut kept: Kept,
    units: &mut [u8],
    out: &mut [u8],
) -> Shown
    requires { Ready file.now judged kept units.old }
    ensures { Ran file.now from out.old result out.new }
{
    let mut shown = Shown {
        lines: 0,
        written: 0,
    };
    if judged.count < from {
        return shown;
    }
    let mut at = judged.first;
    for n in 0..judged.count {
        // A judged step stands whole.
        let got = step_at(file, at).unwrap();
        let stepped = step_kept(&mut kept, units, got.step, got.job);
        at += got.size;
        if from <= n + 1 {
            let Some(more) = show(shown, n + 1, stepped, out) else {
                return shown;
            };
            shown = more;
        }
    }
    shown
}

// Shows the lines of a play from number `from` on, counted from 1 (0 is read like 1), as many whole ones as fit into `out`.
pub fn show_lines(file: &[u8], from: u32, out: &mut [u8]) -> Result<Shown, Refusal>
    ensures { IsRun file.now from out.old result out.new }
{
    let judged = judge(file)?;
    let mut units = [0; Yard::SIZE];
    // The layout of a play starts a yard.
    let kept = fresh_kept(judged.layout, &mut units).unwrap();
    Ok(run(file, judged, from, kept, &mut units, out))
}
