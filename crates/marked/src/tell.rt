// What the code tells where a row asks: each answer with the numbers that come with it.
ghost use Rattle.std.specs.Prelude.{◌≡◌};
ghost use Rattle.num.specs.Refusals.{answered};
ghost use Rattle.marked.specs.Lays.{told};
ghost use Rattle.marked.specs.Rows.{told_in};
ghost use Rattle.marked.specs.Asks.{IsFilled, IsTold};

use crate::ask::{Ask, Shown, Told};
use crate::lay::{tell_drop, tell_place};
use num::bytes::number_at;
use num::refusal::Refusal;
use num::{Epoch, Position};
use unit::edges::measure;
use unit::memory::Unit;
use unit::prune::prune;
use unit::read::read;
use unit::seal::seal;
use unit::trim::trim;
use unit::write::write;

// An answer of which no number is shown.
fn plain<T: Drop>(answer: Result<T, Refusal>) -> Told
    ensures { told_in result ≡ told (answered answer) 0 0 }
{
    answer.map(|_| Shown::NOTHING)
}

#[tactic(auto, unfolding(crate::specs::Asks::told_of, crate::specs::Asks::left_by))]
fn tell_write(mem: &mut [u8], e: Epoch, p: Position, kind: u8, size: usize) -> Told
    ensures { IsTold mem.old (Ask.Write e p kind size) (told_in result) mem.new }
{
    let bytes = [7u8; 81];
    let n = size.min(bytes.len());
    plain(write(mem, e, p, kind, &bytes[..n]))
}

#[tactic(auto, unfolding(crate::specs::Asks::told_of, crate::specs::Asks::left_by))]
fn tell_read(mem: &mut [u8], e: Epoch, p: Position) -> Told
    ensures { IsTold mem.old (Ask.Read e p) (told_in result) mem.new }
{
    let seen = read(mem, e, p)?;
    Ok(Shown {
        first: seen.kind as u64,
        second: seen.length as u64,
    })
}

#[tactic(auto, unfolding(crate::specs::Asks::told_of, crate::specs::Asks::left_by))]
fn tell_edges(mem: &[u8]) -> Told
    ensures { IsTold mem.now Ask.Measure (told_in result) mem.now }
{
    let edges = measure(mem)?;
    Ok(Shown {
        first: edges.edge.0,
        second: edges.written.0,
    })
}

// Writes a data page of no bytes at each position below `n`, whatever is answered; the first refusal.
fn fill(mem: &mut [u8], n: u64) -> Result<(), Refusal>
    ensures { IsFilled mem.old n (answered result) mem.new }
{
    let mut answer = Ok(());
    for p in 0..n {
        answer = answer.and(write(mem, Epoch(1), Position(p), 1, b""));
    }
    answer
}

#[tactic(auto, unfolding(crate::specs::Asks::told_of, crate::specs::Asks::left_by))]
fn tell_floor(mem: &[u8]) -> Told
    ensures { IsTold mem.now Ask.Floor (told_in result) mem.now }
{
    Ok(Shown {
        first: number_at(mem, 8, 8),
        second: 0,
    })
}

// Asks the code what a row asks.
#[tactic(auto, unfolding(crate::specs::Asks::told_of, crate::specs::Asks::left_by))]
pub(crate) fn tell(mem: &mut [u8], asked: Ask) -> Told
    ensures { IsTold mem.old asked (told_in result) mem.new }
{
    match asked {
        Ask::Fresh(n, shape) => plain(Unit::fresh(mem, n, shape)),
        Ask::Write(e, p, kind, size) => tell_write(mem, e, p, kind, size),
        Ask::Read(e, p) => tell_read(mem, e, p),
        Ask::Trim(e, p) => plain(trim(mem, e, p)),
        Ask::Prune(e, p) => plain(prune(mem, e, p)),
        Ask::Seal(n) => plain(seal(mem, n)),
        Ask::Measure => tell_edges(mem),
        Ask::Fill(n) => plain(fill(mem, n)),
        Ask::Floor => tell_floor(mem),
        Ask::Place(p) => tell_place(p),
        Ask::Drop(a, b, k) => tell_drop(a, b, k),
    }
}
