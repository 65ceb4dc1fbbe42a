// Numbers of a constant width in a unit's memory: the compiler makes one load or store of each.
ghost use Rattle.std.specs.Prelude.{◌≡◌, ◌+◌, ◌≤◌, length, drop};
ghost use Rattle.std.proofs.lemmas.List.Edits.{sets};
ghost use Rattle.num.specs.Bytes.{le, le_bytes};

// The number in the two bytes at `at`.
pub(crate) fn pair_at(bytes: &[u8], at: usize) -> u64
    requires { at + 2 ≤ length bytes.now }
    ensures { result ≡ le 2 (drop at bytes.now) }
{
    u64::from(u16::from_le_bytes(bytes[at..at + 2].try_into().unwrap()))
}

// The number in the four bytes at `at`.
pub(crate) fn half_at(bytes: &[u8], at: usize) -> u64
    requires { at + 4 ≤ length bytes.now }
    ensures { result ≡ le 4 (drop at bytes.now) }
{
    u64::from(u32::from_le_bytes(bytes[at..at + 4].try_into().unwrap()))
}

// The number in the eight bytes at `at`.
pub(crate) fn word_at(bytes: &[u8], at: usize) -> u64
    requires { at + 8 ≤ length bytes.now }
    ensures { result ≡ le 8 (drop at bytes.now) }
{
    u64::from_le_bytes(bytes[at..at + 8].try_into().unwrap())
}

// Stores the lowest `WIDTH` bytes of `n` at `at`.
pub(crate) fn put_number<const WIDTH: usize>(mem: &mut [u8], at: usize, n: u64)
    requires { (at + WIDTH ≤ length mem.old) × (WIDTH ≤ 8) }
    ensures { mem.new ≡ sets mem.old at (le_bytes WIDTH n) }
{
    mem[at..at + WIDTH].copy_from_slice(&n.to_le_bytes()[..WIDTH]);
}
