// A play's bytes put into a lent buffer: its start, and then step by step. Nothing is written where there are no such bytes, or too little room.
ghost use Rattle.std.specs.Prelude.{◌≡◌, true, false, ◌∷◌, ◌++◌, ◌+◌, ◌≤◌, leb, length, take, MatchOption, SomeIff};
ghost use Rattle.std.proofs.lemmas.List.Edits.{sets};
ghost use Rattle.num.specs.Bytes.{le_bytes};
ghost use Rattle.layout.specs.Plan.{new_of};
ghost use Rattle.layout.specs.Codec.{counted, sets_bytes};
ghost use Rattle.client.specs.Message.{page_limit};
ghost use Rattle.script.specs.Steps.{cue_bytes};
ghost use Rattle.script.specs.Put.{begun, small_chains, change_fits, job_fits, IsPut, StartPut, StepPut};

use client::state::Job;
use client::{Change, Page, Work};
use layout::write::write_layout;
use layout::{Chain, Layout, Wish};
use num::bytes::put_number;
use rule::Step;

// Where `more` bytes from `at` on end, if they are within `len`.
fn room(len: usize, at: usize, more: usize) -> Option<usize>
    ensures { SomeIff result (at + more ≤ len) (at + more) }
{
    let end = at.checked_add(more)?;
    if end <= len { Some(end) } else { None }
}

fn put_bytes(out: &mut [u8], at: usize, xs: &[u8]) -> Option<usize>
    ensures { IsPut true at xs.now out.old result out.new }
{
    let end = room(out.len(), at, xs.len())?;
    out[at..end].copy_from_slice(xs);
    Some(xs.len())
}

// Bytes behind their count.
fn put_counted(out: &mut [u8], at: usize, xs: &[u8])
    requires { (at + (1 + length xs.now) ≤ length out.old) × (length xs.now ≤ 255) }
    ensures { out.new ≡ sets out.old at (counted xs.now) }
{
    let n = xs.len();
    out[at] = n as u8;
    out[at + 1..at + 1 + n].copy_from_slice(xs);
}

// What a client is asked for at a position.
fn put_seek(out: &mut [u8], at: usize, tag: u8, client: u8, position: u64) -> Option<usize>
    ensures { IsPut true at (tag ∷ client ∷ le_bytes 8 position) out.old result out.new }
{
    let mut step = [tag, client, 0, 0, 0, 0, 0, 0, 0, 0];
    put_number(&mut step, 2, 8, position);
    put_bytes(out, at, &step)
}

fn put_append(
    out: &mut [u8],
    at: usize,
    client: u8,
    len: u8,
    bytes: [u8; Page::ROOM],
) -> Option<usize>
    ensures { IsPut (leb len page_limit) at (1 ∷ client ∷ counted (take len bytes)) out.old result out.new }
{
    let n = usize::from(len);
    if Page::ROOM < n {
        return None;
    }
    room(out.len(), at, 3 + n)?;
    out[at] = 1;
    out[at + 1] = client;
    put_counted(out, at + 2, &bytes[..n]);
    Some(3 + n)
}

// How many bytes new sets have, their count with them; none where one has no room for its units.
fn measure(wish: Wish) -> Option<usize>
    ensures { MatchOption result (small_chains (take wish.count wish.sets) ≡ false) (λ n. (n ≡ 1 + length (sets_bytes (new_of wish))) × ((small_chains (take wish.count wish.sets) ≡ true) × (n ≤ 81))) }
{
    let mut size = 1;
    for c in wish.sets() {
        if Chain::MOST < c.count {
            return None;
        }
        size += 1 + c.units().len();
    }
    Some(size)
}

// New sets behind their count.
fn put_sets(out: &mut [u8], at: usize, wish: Wish)
    requires { (wish.count ≤ 16) × ((small_chains (take wish.count wish.sets) ≡ true) × (at + (1 + length (sets_bytes (new_of wish))) ≤ length out.old)) }
    ensures { out.new ≡ sets out.old at (length (new_of wish) ∷ sets_bytes (new_of wish)) }
{
    out[at] = wish.count;
    let mut past = at + 1;
    for c in wish.sets() {
        let units = c.units();
        put_counted(out, past, units);
        past += 1 + units.len();
    }
}

fn put_reorganise(out: &mut [u8], at: usize, client: u8, change: Change) -> Option<usize>
    ensures { IsPut (change_fits change) at (6 ∷ client ∷ (counted (take change.count change.drops) ++ (length (new_of change.wish) ∷ sets_bytes (new_of change.wish)))) out.old result out.new }
{
    let n = usize::from(change.count);
    let wish = change.wish;
    if Change::DROPS < n || Wish::MOST < wish.count {
        return None;
    }
    let size = 3 + n + measure(wish)?;
    room(out.len(), at, size)?;
    out[at] = 6;
    out[at + 1] = client;
    put_counted(out, at + 2, &change.drops[..n]);
    put_sets(out, at + 3 + n, wish);
    Some(size)
}

// A begin, by what it asks for.
fn put_begin(out: &mut [u8], at: usize, client: u8, job: Job) -> Option<usize>
    ensures { IsPut (job_fits job job.work) at (cue_bytes (begun client job job.work)) out.old result out.new }
{
    match job.work {
        Work::Append => put_append(out, at, client, job.len, job.bytes),
        Work::Read(p) => put_seek(out, at, 2, client, p.0),
        Work::Fill(p) => put_seek(out, at, 3, client, p.0),
        Work::Trim(p) => put_seek(out, at, 4, client, p.0),
        Work::Prune(p) => put_seek(out, at, 5, client, p.0),
        Work::Reorganise => put_reorganise(out, at, client, job.change),
    }
}

// The bytes of a step at `at`, and how many they are.
pub fn put_step(out: &mut [u8], at: usize, step: Step, job: Job) -> Option<usize>
    ensures { StepPut step job at out.old result out.new }
{
    match step {
        Step::Begin(client) => put_begin(out, at, client, job),
        Step::Deliver(place, letter, answer) => {
            put_bytes(out, at, &[7, place, u8::from(letter), u8::from(answer)])
        }
        Step::Drop(place) => put_bytes(out, at, &[8, place]),
        Step::Stop(unit) => put_bytes(out, at, &[9, unit]),
        Step::Restart(client) => put_bytes(out, at, &[10, client]),
        Step::GiveUp(client) => put_bytes(out, at, &[11, client]),
        Step::Forget => put_bytes(out, at, &[12]),
    }
}

// The bytes that stand before `count` steps, at the front, and how many they are.
pub fn put_start(out: &mut [u8], layout: Layout, count: u32) -> Option<usize>
    ensures { StartPut layout count out.old result out.new }
{
    if layout.epoch.0 != 1 {
        return None;
    }
    let mut part = [0; Layout::SIZE];
    let Ok(n) = write_layout(layout, &mut part) else {
        return None;
    };
    room(out.len(), 0, 6 + n)?;
    put_number(out, 0, 2, n as u64);
    out[2..2 + n].copy_from_slice(&part[..n]);
    put_number(out, 2 + n, 4, u64::from(count));
    Some(6 + n)
}
