// What an operation asks for, as it is when it begins.
ghost use Rattle.std.specs.Prelude.{◌≡◌, ◌≤◌, length, take};
ghost use Rattle.num.specs.Refusals.{answered};
ghost use Rattle.client.specs.Message.{data_limit};
ghost use Rattle.client.specs.Job.{past, too_long, too_many_drops, position_for, page_for, change_for, data_page, job_answer};

use crate::state::Job;
use crate::{Change, Page, Work};
use layout::Layout;
use num::Position;
use num::refusal::{Refusal, lowest};

// 2 or 3 where the operation asks for what no unit of the yard's shape has, and 10 where it drops too many units.
pub fn job_answer(job: Job, shape: u8) -> Result<(), Refusal>
    ensures { answered result ≡ job_answer job shape }
{
    lowest(&[
        Refusal::Position.when(job.work.is_past()),
        Refusal::Page.when(job.is_too_long(shape)),
        Refusal::Layout.when(job.has_too_many_drops()),
    ])
}

// The bytes that a data page may hold.
#[tactic(auto, unfolding(crate::specs::Message::data_limit))]
fn data_limit(shape: u8) -> u8
    ensures { result ≡ data_limit shape }
{
    if shape == Layout::LARGE {
        Page::LARGE
    } else {
        Page::SMALL
    }
}

impl Work {
    // The position an operation is about.
    pub(crate) fn position(self) -> Position
        ensures { result ≡ position_for self }
    {
        match self {
            Work::Read(p) | Work::Fill(p) | Work::Trim(p) | Work::Prune(p) => p,
            Work::Append | Work::Reorganise => Position(0),
        }
    }

    // A position of 2^40 or more; a prune above it.
    fn is_past(self) -> bool
        ensures { result ≡ past self }
    {
        match self {
            Work::Prune(p) => Position::LIMIT < p.0,
            _ => Position::LIMIT <= self.position().0,
        }
    }
}

impl Job {
    // Data longer than a page of the shape holds.
    fn is_too_long(self, shape: u8) -> bool
        ensures { result ≡ too_long self.work self.len shape }
    {
        matches!(self.work, Work::Append) && data_limit(shape) < self.len
    }

    // More units to drop than one reorganise may.
    fn has_too_many_drops(self) -> bool
        ensures { result ≡ too_many_drops self.work self.change.count }
    {
        matches!(self.work, Work::Reorganise) && Change::DROPS < usize::from(self.change.count)
    }

    // The page an operation carries at first.
    pub(crate) fn page(self) -> Page
        ensures { result ≡ page_for self.work self.len self.bytes }
    {
        match self.work {
            Work::Append => Page::data(self.len, self.bytes),
            Work::Fill(_) => Page::junk(),
            _ => Page::blank(),
        }
    }

    // The change, of a reorganise alone.
    pub(crate) fn kept_change(self) -> Change
        ensures { result ≡ change_for self.work self.change }
    {
        match self.work {
            Work::Reorganise => self.change,
            _ => Change::blank(),
        }
    }
}

impl Page {
    // The data page of an append: the first `len` bytes.
    fn data(len: u8, bytes: [u8; Page::ROOM]) -> Page
        ensures { result ≡ data_page len bytes }
    {
        let n = usize::from(len).min(Page::ROOM);
        Page {
            kind: Page::DATA,
            len,
            bytes: Page::padded(&bytes[..n]),
        }
    }
}
