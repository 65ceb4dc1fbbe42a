// Good memory, and the unit that it holds.
ghost use Rattle.std.specs.Prelude.{◌≡◌, ◌+◌, ◌-◌, ◌*◌, ◌/◌, ◌%◌, ◌^◌, ◌<◌, ◌≤◌, length, drop, ◌==◌, bit_and};
ghost use Rattle.num.specs.Bytes.{le};
ghost use Rattle.num.specs.Limits.{limit};
ghost use Rattle.unit.specs.Shape.{slot_size, shape_of};
ghost use Rattle.unit.specs.Zeros.{zeros, ruler};
ghost use Rattle.unit.specs.Memory.{good_fields, good_slots, good_header, good as good_memory};

use crate::field::zeros_at;
use crate::offset::{Header, Slot};
use crate::shape::{Shape, shape_of};
use crate::word::{pair_at, word_at};
use num::{Position, units};

#[derive(Clone, Copy)]
pub struct Unit;

impl Unit {
    // Units are numbered from 1 to it.
    pub const UNITS: u32 = units::LAST as u32;

    // The same, as the byte that a memory has.
    pub const LAST: u8 = units::LAST;

    // Bytes of the whole memory, in either shape.
    pub const SIZE: usize = 6168;
}

// A slot's second word has its kind, its length and six zeros. `t` is one less than it, and `turn` is `t` turned by a byte: the length where the kind is 1, and
// large otherwise. This is the length in a good word, and of any other some number below 128; without a test, so that the compiler has no branch to make of it.
fn length_of(tag: u64, t: u64, turn: u64) -> usize
    requires { ((t + 1) % 2 ^ 64 ≡ tag) × (turn ≡ t / 256 + t % 256 * 72057594037927936) }
    ensures { (result ≤ 127) × (1 ≤ tag % 256 → tag / 256 ≤ 80 → result ≡ tag / 256) }
{
    (turn % 128) as usize
}

// What counts a slot that is not good.
fn fault(good: bool) -> u64
    ensures { (result ≤ 1) × ((result == 0) ≡ good) }
{
    u64::from(!good)
}

// What counts a slot of `cap` bytes of payload that may not have this second word, whatever its position. A word that is not a length from 1 to `cap` with kind 1
// is counted, and one of the three without a length is taken off: each a comparison and a sum with its carry, where a test of two ways out is more.
fn tag_fault(cap: usize, tag: u64, t: u64, turn: u64) -> u64
    requires { (cap ≤ 80) × ((t + 1) % 2 ^ 64 ≡ tag) × (turn ≡ t / 256 + t % 256 * 72057594037927936) }
    ensures { (result ≤ 1) × ((result == 0) ≡ good_fields cap 0 0 (tag % 256) (tag / 256)) }
{
    fault(turn.wrapping_sub(1) < cap as u64) - fault(3 < t)
}

// The word at `at`, of which only what stands under the full bytes of the ruler's word at `k` is left.
fn masked(mem: &[u8], at: usize, full: &[u8], k: usize) -> u64
    requires { (at + 8 ≤ length mem.now) × (k + 8 ≤ length full.now) }
    ensures { result ≡ bit_and (le 8 (drop at mem.now)) (le 8 (drop k full.now)) }
{
    word_at(mem, at) & word_at(full, k)
}

// The six words of `size` bytes, or none, so masked and joined: nothing is left just where all bytes are zero but those before the ruler's full ones.
// No loop: the compiler takes the test of the size out of the caller's.
fn joined(mem: &[u8], at: usize, size: usize, full: &[u8], k: usize) -> u64
    requires { (at + size ≤ length mem.now) × (full.now ≡ ruler) × (k + size ≤ 208) × (size % 48 ≡ 0) × (size ≤ 48) }
    ensures { (result == 0) ≡ zeros (size - (128 - k)) (drop (at + (128 - k)) mem.now) }
{
    if size == 0 {
        return 0;
    }
    masked(mem, at, full, k)
        | masked(mem, at + 8, full, k + 8)
        | masked(mem, at + 16, full, k + 16)
        | masked(mem, at + 24, full, k + 24)
        | masked(mem, at + 32, full, k + 32)
        | masked(mem, at + 40, full, k + 40)
}

// Whether the header is good. The count and the six zeros are one word: with another byte in it the count is too large.
fn good_header(mem: &[u8], sh: Shape) -> bool
    requires { (24 ≤ length mem.now) × (sh.room < 65536) }
    ensures { result ≡ good_header sh mem.now }
{
    let number = mem[Header::NUMBER];
    let code = mem[Header::SHAPE];
    (1 <= number)
        & (number <= Unit::LAST)
        & (code == sh.code)
        & (pair_at(mem, 2) == 0)
        & (word_at(mem, Header::FLOOR) <= Position::LIMIT)
        & (word_at(mem, Header::COUNT) <= sh.room)
}

// Whether `count` good slots stand behind the header, in rising position from `low` on, and zeros after them. No early exit, and a sum for each of the first
// four words of a payload: the compiler brings them together once, and not for each slot. What is left of the others is a fault like any other. A position
// that wraps is 0 as the next one's least, and fails.
fn slots_good(mem: &[u8], cap: usize, count: u64, low: u64, full: &[u8]) -> bool
    requires { (24 + count * slot_size cap ≤ length mem.now) × (low ≤ limit) × (full.now ≡ ruler) × (32 ≤ cap) × (cap ≤ 80) × (cap % 48 ≡ 32) }
    ensures { result ≡ good_slots cap count low (drop 24 mem.now) }
{
    let mut least = low;
    let mut at: usize = Header::SIZE;
    let mut faults: u64 = 0;
    let mut a: u64 = 0;
    let mut b: u64 = 0;
    let mut c: u64 = 0;
    let mut d: u64 = 0;
    for _ in 0..count {
        let next = word_at(mem, at).wrapping_add(1);
        let tag = word_at(mem, at + Slot::KIND);
        let t = tag.wrapping_sub(1);
        let turn = t / 256 + t % 256 * 72_057_594_037_927_936;
        let k = 128 - length_of(tag, t, turn);
        let rest = joined(mem, at + 48, cap - Shape::SMALL_PAYLOAD, full, k + 32);
        faults += fault((least < next) & (rest == 0)) + tag_fault(cap, tag, t, turn);
        a |= masked(mem, at + Slot::PAYLOAD, full, k);
        b |= masked(mem, at + 24, full, k + 8);
        c |= masked(mem, at + 32, full, k + 16);
        d |= masked(mem, at + 40, full, k + 24);
        least = next;
        at += Slot::PAYLOAD + cap;
    }
    (faults == 0)
        & ((a == 0) & (b == 0) & (c == 0) & (d == 0))
        & (least <= Position::LIMIT)
        & zeros_at(mem, at, mem.len() - at)
}

// The same, with the ruler that the slots are tested by.
fn good_slots(mem: &[u8], cap: usize, count: u64, low: u64) -> bool
    requires { (24 + count * slot_size cap ≤ length mem.now) × (low ≤ limit) × (32 ≤ cap) × (cap ≤ 80) × (cap % 48 ≡ 32) }
    ensures { result ≡ good_slots cap count low (drop 24 mem.now) }
{
    let mut full = [255; 208];
    full[..128].fill(0);
    slots_good(mem, cap, count, low, &full)
}

// Whether a lent memory is good in the shape that it names, tested in full.
pub fn is_good(mem: &[u8]) -> bool
    ensures { result ≡ good_memory (shape_of mem.now) mem.now }
{
    if mem.len() != Unit::SIZE {
        return false;
    }
    let sh = shape_of(mem);
    if !good_header(mem, sh) {
        return false;
    }
    good_slots(
        mem,
        sh.cap,
        pair_at(mem, Header::COUNT),
        word_at(mem, Header::FLOOR),
    )
}
