// The bag of letters: a lent table of letter structs. Past the end nothing is taken but a blank letter, and nothing changes.
ghost use Rattle.std.specs.Prelude.{◌≡◌};
ghost use Rattle.yard.specs.Bag.{take_at, put_at, drop_at, blanked};

use rule::Letter;

// The letter at a place, copied out; past the end a blank one.
pub fn take(table: &[Letter], i: usize) -> Letter
    ensures { result ≡ take_at table.now i }
{
    table.get(i).copied().unwrap_or(Letter::blank())
}

// A letter is put at a place; past the end nothing changes.
pub fn put(table: &mut [Letter], i: usize, l: Letter)
    ensures { table.new ≡ put_at table.old i l }
{
    // By index, since std's `get_mut` says nothing of the slice afterwards.
    if i < table.len() {
        table[i] = l;
    }
}

// Of the first `count` letters the one at `i` is dropped: its followers move up one place, and the place left behind becomes blank.
pub fn drop_at(table: &mut [Letter], count: usize, i: usize)
    ensures { table.new ≡ drop_at table.old count i }
{
    if i < count && count <= table.len() {
        table.copy_within(i + 1..count, i);
        table[count - 1] = Letter::blank();
    }
}

// The first `count` places become blank.
pub fn clear(table: &mut [Letter], count: usize)
    ensures { table.new ≡ blanked table.old count }
{
    let n = count.min(table.len());
    table[..n].fill(Letter::blank());
}
