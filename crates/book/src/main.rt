// The play book: reads a play from standard input and writes a line for each of its steps, or the line 22 where it is none.
#![tactic(auto)]

ghost use Rattle.std.specs.Prelude.{◌-◌, ◌≤◌, length};

use play::show_lines;
use script::judge::Judged;
use std::io::Read;

// One byte more than a play can have tells that a file is too long; what is behind it stays unread.
const FILE: usize = Judged::SIZE + 1;

// Room for all lines of nearly every play; one with more is run again for those behind.
const ROOM: usize = 1_048_576;

// Writes the lines from number `from` on that have room in `out`, and says how many; 0 where none is left, the file is no play, or nothing can be written.
fn tell(rt: &impl Print, file: &[u8], from: u32, out: &mut [u8]) -> u32
    ensures { result ≤ 65537 - from }
{
    let Ok(shown) = show_lines(file, from, out) else {
        let _ = rt.write_all(b"22\n");
        return 0;
    };
    if rt.write_all(&out[..shown.written]).is_ok() {
        shown.lines
    } else {
        0
    }
}

// Nothing is counted by one: each turn goes on behind the lines that were told.
fn tell_all(rt: &impl Print, file: &[u8], out: &mut [u8]) {
    let mut from: u32 = 1;
    let mut lines: u32 = 1;
    while 0 < lines {
        lines = tell(rt, file, from, out);
        from += lines;
    }
}

// Fills `room` from its start until it is full, standard input ends or a read fails, and says how many bytes came. (d) Tried: `io::copy`, which reads at most
// 8,192 bytes at a time, so that the rest of a longer message is lost, and which goes on behind a read that was broken off.
fn heard(rt: &impl Input, room: &mut [u8]) -> usize
    ensures { result ≤ length room.new }
{
    let mut reader = rt.reader();
    let mut done = 0;
    while done < room.len() {
        let n = reader.read(&mut room[done..]).unwrap_or(0);
        if n == 0 {
            break;
        }
        done += n;
    }
    done
}

fn main(rt: HostRuntime) {
    let mut file = [0; FILE];
    let n = heard(&rt, &mut file);
    let mut out = [0; ROOM];
    tell_all(&rt, &file[..n], &mut out);
}
