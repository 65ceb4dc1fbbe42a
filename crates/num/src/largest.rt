// What seals tell: none yet, the larger of two, and what no unit tells.
ghost use Rattle.std.specs.Prelude.{◌≡◌};
ghost use Rattle.num.specs.Edges.{no_edges, larger, largest, within};

use crate::{Edges, Position};

impl Edges {
    // Before any unit has told its own.
    pub fn none() -> Edges
        ensures { result ≡ no_edges }
    {
        Edges {
            edge: Position(0),
            written: Position(0),
        }
    }
}

pub fn larger(a: Position, b: Position) -> Position
    ensures { result ≡ larger a b }
{
    Position(a.0.max(b.0))
}

// The largest of what two seals tell, each by itself.
pub fn largest(a: Edges, b: Edges) -> Edges
    ensures { result ≡ largest a b }
{
    Edges {
        edge: larger(a.edge, b.edge),
        written: larger(a.written, b.written),
    }
}

// Whether none is above the limit: no unit tells such a one.
pub fn within(e: Edges) -> bool
    ensures { result ≡ within e }
{
    (e.edge.0 <= Position::LIMIT) & (e.written.0 <= Position::LIMIT)
}
