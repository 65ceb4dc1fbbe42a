// A step of a play, read where its bytes start. A byte past the end counts as 0, and the whole step is tested before it is taken.
ghost use Rattle.std.specs.Prelude.{◌≡◌, true, false, cond, ◌&&◌, ◌+◌, ◌≤◌, eqb, leb, length, get_or, drop, MatchOption, Some, None};
ghost use Rattle.layout.specs.Value.{padded};
ghost use Rattle.layout.specs.Codec.{set_front, sets_bytes, sets_said};
ghost use Rattle.client.specs.Client.{job_of};
ghost use Rattle.rule.specs.declared.Step.TheVariants.{Begin};
ghost use Rattle.script.specs.Cue.{change_of, no_job};
ghost use Rattle.script.specs.Cue.Cue.{append, reorganise, deliver};
ghost use Rattle.script.specs.Steps.{past_drops, small_sets, whole, got_at};

use client::state::Job;
use client::{Change, Page, Work};
use layout::new_sets::wish_of;
use layout::read::byte_at;
use layout::{Chain, Wish};
use num::Position;
use num::bytes::number_at;
use rule::Step;

// How many bytes the step has, and what the yard's step is handed for it.
#[derive(Clone, Copy)]
pub struct Got {
    pub size: usize,
    pub step: Step,
    pub job: Job,
}

// A step of `size` bytes, unless it is cut short.
fn sized(b: &[u8], size: usize, step: Step, job: Job) -> Option<Got>
    ensures { result ≡ cond (leb size (length b.now)) (Some (record { size = size; step = step; job = job })) None }
{
    if size <= b.len() {
        Some(Got { size, step, job })
    } else {
        None
    }
}

// The first bytes behind a count at `b[2]`, as many as there is room for, and 0 behind the last.
fn copy_counted(out: &mut [u8], b: &[u8])
    requires { length out.old ≤ 1000 }
    ensures { out.new ≡ padded (length out.old) 0 (set_front (drop 2 b.now)) }
{
    let n = usize::from(byte_at(b, 2));
    for (i, x) in out.iter_mut().enumerate() {
        *x = if i < n { byte_at(b, 3 + i) } else { 0 };
    }
}

fn append_at(b: &[u8]) -> Option<Got>
    ensures { result ≡ whole b.now (append (get_or b.now 1 0) (set_front (drop 2 b.now))) }
{
    let len = byte_at(b, 2);
    let mut bytes = [0u8; Page::ROOM];
    copy_counted(&mut bytes, b);
    sized(
        b,
        3 + usize::from(len),
        Step::Begin(byte_at(b, 1)),
        Job::append(len, bytes),
    )
}

// What a client is asked for at a position.
fn seek_at(b: &[u8], work: Work) -> Option<Got>
    ensures { result ≡ cond (leb 10 (length b.now)) (Some (record { size = 10; step = Begin (get_or b.now 1 0); job = job_of work })) None }
{
    sized(b, 10, Step::Begin(byte_at(b, 1)), Job::of(work))
}

// How far new sets reach, their count with them; nowhere where one has more than 4 units, for which no step has room.
fn reach(b: &[u8]) -> Option<usize>
    ensures { MatchOption result (small_sets (sets_said b.now) ≡ false) (λ n. (n ≡ 1 + length (sets_bytes (sets_said b.now))) × ((small_sets (sets_said b.now) ≡ true) × (n ≤ 1276))) }
{
    let n = byte_at(b, 0);
    let mut past = 1;
    for _ in 0..n {
        let units = byte_at(b, past);
        if Chain::MOST < units {
            return None;
        }
        past += 1 + usize::from(units);
    }
    Some(past)
}

// Units to drop and new sets, in their places.
fn change_at(b: &[u8], new: &[u8]) -> Change
    ensures { result ≡ change_of (set_front (drop 2 b.now)) (sets_said new.now) }
{
    let count = byte_at(b, 2);
    let mut drops = [0u8; Change::DROPS];
    copy_counted(&mut drops, b);
    let wish = wish_of(new);
    Change { count, drops, wish }
}

fn reorganise_at(b: &[u8]) -> Option<Got>
    ensures { result ≡ whole b.now (reorganise (get_or b.now 1 0) (set_front (drop 2 b.now)) (sets_said (past_drops b.now))) }
{
    let count = usize::from(byte_at(b, 2));
    let at = 3 + count;
    let new = b.get(at..)?;
    let size = reach(new)?;
    if Change::DROPS < count || Wish::MOST < byte_at(new, 0) {
        return None;
    }
    let job = Job::reorganise(change_at(b, new));
    sized(b, at + size, Step::Begin(byte_at(b, 1)), job)
}

fn deliver_at(b: &[u8]) -> Option<Got>
    ensures { result ≡ cond (leb (get_or b.now 2 0) 1 && leb (get_or b.now 3 0) 1) (whole b.now (deliver (get_or b.now 1 0) (eqb (get_or b.now 2 0) 1) (eqb (get_or b.now 3 0) 1))) None }
{
    let letter = byte_at(b, 2);
    let answer = byte_at(b, 3);
    if letter <= 1 && answer <= 1 {
        sized(
            b,
            4,
            Step::Deliver(byte_at(b, 1), letter == 1, answer == 1),
            Job::of(Work::Append),
        )
    } else {
        None
    }
}

// A step that names a letter, a unit or a client, and brings nothing more.
fn name_at(b: &[u8], step: Step) -> Option<Got>
    ensures { result ≡ cond (leb 2 (length b.now)) (Some (record { size = 2; step = step; job = no_job })) None }
{
    sized(b, 2, step, Job::of(Work::Append))
}

// The step at the front, by its tag. The tag stays a byte: five tags are a begin, so that an enum of them would be a third list beside Step and Work.
fn front(b: &[u8]) -> Option<Got>
    ensures { result ≡ got_at b.now }
{
    let tag = byte_at(b, 0);
    let who = byte_at(b, 1);
    let position = Position(number_at(b, 2, 8));
    match tag {
        1 => append_at(b),
        2 => seek_at(b, Work::Read(position)),
        3 => seek_at(b, Work::Fill(position)),
        4 => seek_at(b, Work::Trim(position)),
        5 => seek_at(b, Work::Prune(position)),
        6 => reorganise_at(b),
        7 => deliver_at(b),
        8 => name_at(b, Step::Drop(who)),
        9 => name_at(b, Step::Stop(who)),
        10 => name_at(b, Step::Restart(who)),
        11 => name_at(b, Step::GiveUp(who)),
        12 => sized(b, 1, Step::Forget, Job::of(Work::Append)),
        _ => None,
    }
}

// The step that stands at `at`.
pub fn step_at(file: &[u8], at: usize) -> Option<Got>
    ensures { result ≡ got_at (drop at file.now) }
{
    front(file.get(at..)?)
}
