// The marked examples of docs/RULES.md, 13.
ghost use Rattle.std.specs.Prelude.{◌≡◌};
ghost use Rattle.marked.specs.Rows.{rows_in};
ghost use Rattle.marked.specs.Table.{rows};

use crate::ask::{Ask, Row, Shown};
use num::refusal::Refusal;
use num::{Epoch, Position};

// A row: its example, what is asked, and what is told.
macro_rules! row {
    ($example:literal: $asked:expr, fine) => {
        row!($example: $asked, shows 0, 0)
    };
    ($example:literal: $asked:expr, shows $first:expr, $second:expr) => {
        Row { example: $example, asked: $asked, told: Ok(Shown { first: $first, second: $second }) }
    };
    ($example:literal: $asked:expr, refused $why:ident) => {
        Row { example: $example, asked: $asked, told: Err(Refusal::$why) }
    };
}

// The examples of a unit once for each shape, by the byte that names it, the bytes that a page has room for, and its slots; then the rows of a layout.
macro_rules! table {
    ($(shape $code:literal $cap:literal $room:literal)* $(layout $row:expr;)*) => {
        [
            $(
                row!(1: Ask::Fresh(1, $code), fine),
                row!(1: Ask::Read(Epoch(1), Position(0)), refused Unwritten),
                row!(2: Ask::Fresh(1, $code), fine),
                row!(2: Ask::Write(Epoch(1), Position(0), 1, 0), fine),
                row!(2: Ask::Read(Epoch(1), Position(0)), shows 1, 0),
                row!(2: Ask::Write(Epoch(1), Position(0), 2, 0), refused Written),
                row!(3: Ask::Fresh(1, $code), fine),
                row!(3: Ask::Write(Epoch(0), Position(0), 1, 0), refused Sealed),
                row!(4: Ask::Fresh(1, $code), fine),
                row!(4: Ask::Write(Epoch(1), Position(Position::LIMIT - 1), 1, 0), fine),
                row!(4: Ask::Write(Epoch(1), Position(Position::LIMIT), 1, 0), refused Position),
                row!(4: Ask::Write(Epoch(1), Position(Position::LIMIT), 1, $cap + 1), refused Position),
                row!(5: Ask::Fresh(1, $code), fine),
                row!(5: Ask::Write(Epoch(1), Position(0), 1, $cap), fine),
                row!(5: Ask::Write(Epoch(1), Position(0), 1, $cap + 1), refused Page),
                row!(6: Ask::Fresh(1, $code), fine),
                row!(6: Ask::Seal(Epoch(1)), fine),
                row!(6: Ask::Measure, shows 0, 0),
                row!(6: Ask::Write(Epoch(1), Position(0), 1, 0), refused Sealed),
                row!(6: Ask::Write(Epoch(2), Position(0), 1, 0), fine),
                row!(6: Ask::Seal(Epoch(1)), fine),
                row!(6: Ask::Seal(Epoch(0)), refused Sealed),
                row!(7: Ask::Fresh(1, $code), fine),
                row!(7: Ask::Trim(Epoch(1), Position(5)), fine),
                row!(7: Ask::Write(Epoch(1), Position(5), 1, 0), refused Trimmed),
                row!(7: Ask::Measure, shows 6, 0),
                row!(8: Ask::Fresh(1, $code), fine),
                row!(8: Ask::Fill($room), fine),
                row!(8: Ask::Write(Epoch(1), Position($room), 1, 0), refused Full),
                row!(8: Ask::Write(Epoch(1), Position(0), 1, 0), refused Written),
                row!(8: Ask::Prune(Epoch(1), Position(1)), fine),
                row!(8: Ask::Write(Epoch(1), Position($room), 1, 0), fine),
                row!(8: Ask::Read(Epoch(1), Position(0)), refused Trimmed),
                row!(9: Ask::Fresh(1, $code), fine),
                row!(9: Ask::Prune(Epoch(1), Position(3)), fine),
                row!(9: Ask::Prune(Epoch(1), Position(2)), fine),
                row!(9: Ask::Floor, shows 3, 0),
                row!(9: Ask::Measure, shows 3, 3),
            )*
            $($row),*
        ]
    };
}

const TABLE: [Row; Row::COUNT] = table! {
    shape 0 32 128
    shape 1 80 64
    layout row!(10: Ask::Place(Position(0)), shows 0, 0);
    layout row!(10: Ask::Place(Position(9)), shows 1, 0);
    layout row!(10: Ask::Place(Position(10)), shows 2, 0);
    layout row!(10: Ask::Place(Position(11)), shows 2, 0);
    layout row!(11: Ask::Drop(2, 2, 0), shows 1, 1);
    layout row!(11: Ask::Drop(2, 2, 1), shows 1, 3);
    layout row!(11: Ask::Drop(2, 2, 2), shows 2, 1 + 256 * 3);
    layout row!(11: Ask::Drop(2, 3, 0), refused SetLost);
};

// The table, row for row that of the rules.
pub(crate) fn table() -> &'static [Row; Row::COUNT]
    ensures { rows_in result.now ≡ rows }
{
    &TABLE
}
