// The rule of the yard: letters, and the steps that carry them between clients and machines. specs/ says what each step does; the code is in yard.
#![tactic(auto)]

ghost use Rattle.std.specs.Prelude.{◌≡◌, ◌≤◌};
ghost use Rattle.rule.specs.World.{blank_letter};

use client::{Ask, Client, Outcome, Page, Reply, Stamp};
use layout::Layout;
use num::Request;
use num::refusal::Refusal;

// Nothing, a request, or an answer.
#[derive(Clone, Copy)]
pub enum Body {
    Blank,
    Asks(Ask),
    Answers(Reply),
}

// The stamp of a request, which its answer bears too; the page and the layout are blank where none is carried.
#[derive(Clone, Copy)]
pub struct Letter {
    pub stamp: Stamp,
    pub body: Body,
    pub page: Page,
    pub layout: Layout,
}

impl Letter {
    // What stands in a place of the table that no letter uses.
    pub fn blank() -> Letter
        ensures { result ≡ blank_letter }
    {
        Letter {
            stamp: Stamp {
                client: 0,
                life: 0,
                number: Request(0),
            },
            body: Body::Blank,
            page: Page::blank(),
            layout: Layout::blank(),
        }
    }
}

// The held layout, the clients, which units have stopped, and how many letters lie in the bag.
#[derive(Clone, Copy)]
pub struct Yard {
    pub held: Layout,
    pub clients: [Client; Yard::CLIENTS],
    pub stopped: [bool; Yard::UNITS],
    pub count: u8,
}

impl Yard {
    pub const UNITS: usize = 8;

    pub const CLIENTS: usize = 4;

    pub const LETTERS: usize = 32;

    // The last client, and how many letters the bag holds, as counts.
    pub const LAST_CLIENT: u8 = 4;

    pub const MOST: u8 = 32;

    // Bytes of the eight unit memories.
    pub const SIZE: usize = 49_344;
}

// Clients and units are numbered from 1, letters from 0. A begin comes with its job. A delivery says whether the letter is kept,
// and whether a machine's answer is.
#[derive(Clone, Copy)]
pub enum Step {
    Begin(u8),
    Deliver(u8, bool, bool),
    Drop(u8),
    Stop(u8),
    Restart(u8),
    GiveUp(u8),
    Forget,
}

// Whose operation ended, and how.
#[derive(Clone, Copy)]
pub struct Ended {
    pub who: u8,
    pub outcome: Outcome,
    ghost somebody: { 1 ≤ who },
}

// What a step answers, the operation that ended with it, and the yard afterwards.
#[derive(Clone, Copy)]
pub struct Stepped {
    pub answer: Result<(), Refusal>,
    pub ended: Option<Ended>,
    pub yard: Yard,
}
