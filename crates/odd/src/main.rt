// Runs a play from a fresh yard that is made odd first: what no play from a fresh yard can reach. A byte names the oddity, and the play follows it.
#![tactic(auto)]

ghost use Rattle.std.specs.Prelude.{◌≤◌, length};

use crate::make::{Oddity, made_odd};
use client::Outcome;
use kept::{Kept, fresh_kept, step_kept};
use line::{Line, put_line};
use num::refusal::{Refusal, number_of};
use rule::{Stepped, Yard};
use script::judge::{Judged, judge};
use script::step::step_at;
use std::io::Read;

mod make;

// Bytes of the longest input that is read: an oddity's name, and a play.
const ROOM: usize = 65_536;

// Prints the line of step `n`. What cannot be written is lost.
fn print_line(rt: &impl Print, n: u32, stepped: Stepped) {
    let mut words = [0u8; Line::ROOM];
    let (who, outcome) = stepped
        .ended
        .map_or((0, Outcome::blank()), |ended| (ended.who, ended.outcome));
    let answer = number_of(stepped.answer);
    // no line is longer than its room: the test spares a proof of it
    if let Some(size) = put_line(&mut words, 0, n, answer, who, outcome)
        && size <= words.len()
    {
        let _ = rt.write_all(&words[..size]);
    }
}

// Takes the steps of the play from the odd yard, and prints the line of each.
fn goes(rt: &impl Print, kept: &mut Kept, units: &mut [u8], judged: Judged, file: &[u8]) {
    let mut at = judged.first;
    for n in 1..=judged.count {
        let Some(got) = step_at(file, at) else {
            return;
        };
        print_line(rt, n, step_kept(kept, units, got.step, got.job));
        // no play is so long: it spares an invariant
        at = at.saturating_add(got.size);
    }
}

// Runs the play; refused where it is none or the oddity has no such name.
fn run(rt: &impl Print, input: &[u8]) -> Result<(), Refusal> {
    let [name, file @ ..] = input else {
        return Err(Refusal::Play);
    };
    let odd = Oddity::try_from(*name)?;
    let judged = judge(file)?;
    let mut units = [0u8; Yard::SIZE];
    let mut kept = made_odd(fresh_kept(judged.layout, &mut units)?, &mut units, odd);
    goes(rt, &mut kept, &mut units, judged, file);
    Ok(())
}

// Fills `room` from its start until it is full, standard input ends or a read fails, and says how many bytes came. As in `book`, and for its reason: what an input
// gives has no law of one answer, which a public function would need.
fn heard(rt: &impl Input, room: &mut [u8]) -> usize
    ensures { result ≤ length room.new }
{
    let mut reader = rt.reader();
    let mut done = 0;
    while done < room.len() {
        let n = reader.read(&mut room[done..]).unwrap_or(0);
        if n == 0 {
            break;
        }
        done += n;
    }
    done
}

fn main(rt: HostRuntime) {
    let mut input = [0u8; ROOM];
    let came = heard(&rt, &mut input);
    if let Err(refusal) = run(&rt, &input[..came]) {
        let _ = println!(rt; "{}", refusal.number());
    }
}
