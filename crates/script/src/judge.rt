// A whole play judged before any of its steps is taken.
ghost use Rattle.std.specs.Prelude.{◌≡◌, ◌≤◌, length, drop};
ghost use Rattle.script.specs.Play.{judged_of};
ghost use Rattle.script.specs.Steps.{are_cues};

use crate::step::step_at;
use layout::Layout;
use layout::read::read_layout;
use num::bytes::number_at;
use num::refusal::Refusal;

// The layout, the number of steps, and where the first starts.
#[derive(Clone, Copy)]
pub struct Judged {
    pub layout: Layout,
    pub count: u32,
    pub first: usize,
}

impl Judged {
    // The bytes of the longest play.
    pub const SIZE: usize = 65_536;
}

// Whether `n` whole steps, and no byte more, stand from `at` on.
fn are_steps(file: &[u8], at: usize, n: u64) -> bool
    requires { at ≤ length file.now }
    ensures { result ≡ are_cues n (drop at file.now) }
{
    let mut past = at;
    for _ in 0..n {
        let Some(got) = step_at(file, past) else {
            return false;
        };
        past += got.size;
    }
    past == file.len()
}

// What the file holds, if it is a play.
pub fn judge(file: &[u8]) -> Result<Judged, Refusal>
    ensures { result ≡ judged_of file.now }
{
    let end = 2 + number_at(file, 0, 2) as usize;
    let first = end + 4;
    if Judged::SIZE < file.len() || file.len() < first {
        return Err(Refusal::Play);
    }
    let count = number_at(file, end, 4);
    let Ok(layout) = read_layout(&file[2..end]) else {
        return Err(Refusal::Play);
    };
    if layout.epoch.0 != 1 || !are_steps(file, first, count) {
        return Err(Refusal::Play);
    }
    Ok(Judged {
        layout,
        count: count as u32,
        first,
    })
}
