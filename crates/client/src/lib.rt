// A client: one operation and one outstanding request at a time. It knows a unit only through its answers.
#![tactic(auto)]

use layout::{Layout, Wish};
use num::{Edges, Epoch, Position, Request};

pub mod append;
pub mod begin;
pub mod fill;
pub mod job;
pub mod message;
pub mod read;
pub mod reorganise;
pub mod state;
pub mod take;
pub mod trim;
pub mod turn;
pub mod way;

// What a unit is asked.
#[derive(Clone, Copy)]
pub enum UnitAsk {
    Write(Epoch, Position),
    Read(Epoch, Position),
    Trim(Epoch, Position),
    Prune(Epoch, Position),
    Seal(Epoch),
}

// What is asked: of the holder, of the sequencer, or of a unit by its number.
#[derive(Clone, Copy)]
pub enum Ask {
    Fetch,
    Token(Epoch),
    Unit(u8, UnitAsk),
    Offer,
    Start(Epoch, Position),
}

// Data or junk: `len` bytes, and blank past them. There is room for those of either shape.
// Kind and length are numbers: `take` and yard's `step` are passed any, of a letter that no unit sent too.
#[derive(Clone, Copy)]
pub struct Page {
    pub kind: u8,
    pub len: u8,
    pub bytes: [u8; Page::ROOM],
}

// A request: the page of a write and the layout of an offer are blank elsewhere, as in the letter that yard's `step` is lent for it.
#[derive(Clone, Copy)]
pub struct Query {
    pub ask: Ask,
    pub page: Page,
    pub layout: Layout,
}

// What was answered: a layout is held, a token given, the work done, a page shown, a unit's edges told, or a number.
// `Refused` takes any number, and no `Refusal`: `number_of` and `take` are passed what a letter bears, and answer for every number.
#[derive(Clone, Copy)]
pub enum Reply {
    Held,
    Given(Position),
    Fine,
    Shown,
    Edged(Edges),
    Refused(u8),
}

// An answer: the page shown and the layout held are blank elsewhere. `take` is passed it, as the letter bears it.
#[derive(Clone, Copy)]
pub struct Response {
    pub reply: Reply,
    pub page: Page,
    pub layout: Layout,
}

// A request bears client, life and number, and so does its answer.
#[derive(Clone, Copy)]
pub struct Stamp {
    pub client: u8,
    pub life: u16,
    pub number: Request,
}

// What is asked of a client.
#[derive(Clone, Copy)]
pub enum Work {
    Append,
    Read(Position),
    Fill(Position),
    Trim(Position),
    Prune(Position),
    Reorganise,
}

// What a reorganise changes: units to drop, the first `count`, and new sets if wanted. `begin` is passed any count, and answers 10 above eight.
#[derive(Clone, Copy)]
pub struct Change {
    pub count: u8,
    pub drops: [u8; Change::DROPS],
    pub wish: Wish,
}

// What the outstanding request is once the layout is fetched, with the unit it went to, the tokens taken so far,
// the largest edges so far, and where the sequencer is to start.
#[derive(Clone, Copy)]
pub enum Phase {
    Drawing(u8),
    Writing(u8, u8),
    Reading(u8),
    Filling(u8),
    Looking(u8),
    Trimming(u8),
    Pruning(u8),
    Sealing(u8, Edges),
    Offering(Position),
    Starting,
}

// No operation; its layout is being fetched; or it has one, and works under it.
#[derive(Clone, Copy)]
pub enum Stage {
    Idle,
    Fetching,
    Working(Phase),
}

// `used`: how many request numbers of this life are used, which is the last one; `begun`: how many were when the operation began.
// `page` is the page carried, `position` the position under way, `layout` the one fetched, `plan` the one to be offered.
#[derive(Clone, Copy)]
pub struct Client {
    pub life: u16,
    pub used: Request,
    pub begun: Request,
    pub stage: Stage,
    pub work: Work,
    pub change: Change,
    pub position: Position,
    pub page: Page,
    pub layout: Layout,
    pub plan: Layout,
}

// How an operation ended: its number, the position under way, the epoch of the layout it fetched, the page that a read was shown,
// what the operation was, and how many requests it sent. `put_line` of crate line is passed any number.
#[derive(Clone, Copy)]
pub struct Outcome {
    pub number: u8,
    pub position: Position,
    pub epoch: Epoch,
    pub page: Page,
    pub work: Work,
    pub sent: u32,
}

// Nothing, a request under its number, or the end of the operation.
#[derive(Clone, Copy)]
pub enum Act {
    Rests,
    Sends(Request, Query),
    Ends(Outcome),
}
