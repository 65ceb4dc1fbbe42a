// A client between two steps. What an operation does not use is blank.
ghost use Rattle.std.specs.Prelude.{◌≡◌};
ghost use Rattle.client.specs.Client.{job_of, append_of, reorganise_of, fresh, idle, no_change, busy, in_phase, at_position, carrying, holding, planning};

use crate::{Change, Client, Page, Phase, Stage, Work};
use layout::{Layout, Wish};
use num::{Position, Request};

// An operation as it is asked for: an append brings its data, a reorganise its change. `begin` and yard's `step` are passed it so.
#[derive(Clone, Copy)]
pub struct Job {
    pub work: Work,
    pub len: u8,
    pub bytes: [u8; Page::ROOM],
    pub change: Change,
}

impl Change {
    pub const DROPS: usize = 8;

    // No change at all.
    pub fn blank() -> Change
        ensures { result ≡ no_change }
    {
        Change {
            count: 0,
            drops: [0u8; Change::DROPS],
            wish: Wish::blank(),
        }
    }
}

impl Job {
    // An operation that brings neither data nor a change.
    pub fn of(work: Work) -> Job
        ensures { result ≡ job_of work }
    {
        Job {
            work,
            len: 0,
            bytes: [0u8; Page::ROOM],
            change: Change::blank(),
        }
    }

    pub fn append(len: u8, bytes: [u8; Page::ROOM]) -> Job
        ensures { result ≡ append_of len bytes }
    {
        Job {
            len,
            bytes,
            ..Job::of(Work::Append)
        }
    }

    pub fn reorganise(change: Change) -> Job
        ensures { result ≡ reorganise_of change }
    {
        Job {
            change,
            ..Job::of(Work::Reorganise)
        }
    }
}

impl Stage {
    // Has the client an operation?
    pub fn is_busy(self) -> bool
        ensures { result ≡ busy self }
    {
        matches!(self, Stage::Fetching | Stage::Working(_))
    }
}

impl Client {
    // Tokens that one append may take.
    pub const TOKENS: u8 = 8;

    pub const LAST_LIFE: u16 = 65_535;

    // With no operation.
    #[tactic(auto, unfolding(crate::specs::Client::idle))]
    pub(crate) fn idle(life: u16, used: Request) -> Client
        ensures { result ≡ idle life used }
    {
        Client {
            life,
            used,
            begun: Request(0),
            stage: Stage::Idle,
            work: Work::Append,
            change: Change::blank(),
            position: Position(0),
            page: Page::blank(),
            layout: Layout::blank(),
            plan: Layout::blank(),
        }
    }

    // In life 1 with no number used.
    pub fn fresh() -> Client
        ensures { result ≡ fresh }
    {
        Client::idle(1, Request(0))
    }

    pub(crate) fn in_phase(self, phase: Phase) -> Client
        ensures { result ≡ in_phase self phase }
    {
        Client {
            stage: Stage::Working(phase),
            ..self
        }
    }

    pub(crate) fn at_position(self, position: Position) -> Client
        ensures { result ≡ at_position self position }
    {
        Client { position, ..self }
    }

    pub(crate) fn carrying(self, page: Page) -> Client
        ensures { result ≡ carrying self page }
    {
        Client { page, ..self }
    }

    pub(crate) fn holding(self, layout: Layout) -> Client
        ensures { result ≡ holding self layout }
    {
        Client { layout, ..self }
    }

    pub(crate) fn planning(self, plan: Layout) -> Client
        ensures { result ≡ planning self plan }
    {
        Client { plan, ..self }
    }
}
