// A row of the table: what is asked of a unit or of a layout, and what it must answer.
use num::refusal::Refusal;
use num::{Epoch, Position};

#[derive(Clone, Copy)]
pub enum Ask {
    // A fresh memory of the unit of that number, in the shape that the byte names.
    Fresh(u32, u8),
    // A page of that kind with so many bytes. The kind is a byte, as `unit::write::write` takes it from C: one that is none is refused.
    Write(Epoch, Position, u8, usize),
    Read(Epoch, Position),
    Trim(Epoch, Position),
    Prune(Epoch, Position),
    Seal(Epoch),
    // The edge request.
    Measure,
    // A data page of no bytes at each of so many positions, from 0 on, in epoch 1.
    Fill(u64),
    // The floor, which no request tells: its bytes in the memory.
    Floor,
    // Example 10's layout: the set of a position.
    Place(Position),
    // Two units dropped from it, or one that is named twice: the set of that number.
    Drop(u8, u8, usize),
}

// What comes with a fine answer: of a read the kind and the length, of an edge request the edge and the written edge, of the floor the floor; of a position the
// number of its set, counted from 0, of a set how many units it has and the units, a byte each, lowest first. 0 elsewhere.
// Two numbers, and no variant for each: the theorem `RowsHold` compares the numbers of the rules' table, and `answered_once` knows an answer by them.
#[derive(Clone, Copy, PartialEq, Eq)]
pub struct Shown {
    pub first: u64,
    pub second: u64,
}

pub type Told = Result<Shown, Refusal>;

#[derive(Clone, Copy)]
pub struct Row {
    // The example of docs/RULES.md, 13, that it belongs to.
    pub example: u64,
    pub asked: Ask,
    pub told: Told,
}

impl Shown {
    pub const NOTHING: Shown = Shown {
        first: 0,
        second: 0,
    };
}

impl Row {
    // Rows of the table.
    pub const COUNT: usize = 84;
}
