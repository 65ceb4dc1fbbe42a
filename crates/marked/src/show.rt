// Printing a row: its example, what was asked, what was told, and whether that is what the row expects.
ghost use Rattle.std.specs.Prelude.{◌≡◌};
ghost use Rattle.marked.specs.Rows.{told_in};
ghost use Rattle.marked.specs.Marked.{same_told};

use crate::ask::{Ask, Row, Told};
use num::refusal::number_of;
use std::fmt;

// Units, each by its number; a 0 names none.
#[derive(Clone, Copy)]
struct Units<const N: usize>([u8; N]);

impl<const N: usize> fmt::Display for Units<N> {
    fn fmt<W: fmt::Write>(&self, f: &mut fmt::Formatter<W>) -> fmt::Result {
        for unit in &self.0 {
            if *unit != 0 {
                write!(f, " {unit}")?;
            }
        }
        Ok(())
    }
}

fn kind_name(kind: u64) -> &'static str {
    match kind {
        1 => "data",
        2 => "junk",
        _ => "other",
    }
}

fn shape_name(shape: u8) -> &'static str {
    match shape {
        0 => "small",
        1 => "large",
        _ => "other",
    }
}

impl fmt::Display for Ask {
    fn fmt<W: fmt::Write>(&self, f: &mut fmt::Formatter<W>) -> fmt::Result {
        match *self {
            Ask::Fresh(n, shape) => write!(f, "fresh {} unit {n}", shape_name(shape)),
            Ask::Write(e, p, kind, size) => {
                let kind = kind_name(u64::from(kind));
                write!(f, "write e{} p{} {kind} {size} bytes", e.0, p.0)
            }
            Ask::Read(e, p) => write!(f, "read e{} p{}", e.0, p.0),
            Ask::Trim(e, p) => write!(f, "trim e{} p{}", e.0, p.0),
            Ask::Prune(e, p) => write!(f, "prune e{} p{}", e.0, p.0),
            Ask::Seal(e) => write!(f, "seal e{}", e.0),
            Ask::Measure => write!(f, "ask for the edges"),
            Ask::Fill(n) => write!(f, "write e1 data 0 bytes at each position below {n}"),
            Ask::Floor => write!(f, "look at the floor"),
            Ask::Place(p) => write!(f, "set of p{}", p.0),
            Ask::Drop(a, b, k) => {
                let other = if a == b { 0 } else { b };
                write!(f, "drop unit{}, set {k}", Units([a, other]))
            }
        }
    }
}

// The number answered, and what comes with a fine answer.
impl fmt::Display for Row {
    fn fmt<W: fmt::Write>(&self, f: &mut fmt::Formatter<W>) -> fmt::Result {
        let answer = number_of(self.told);
        write!(f, "example {}: {}: {answer}", self.example, self.asked)?;
        let Ok(shown) = self.told else {
            return Ok(());
        };
        match self.asked {
            Ask::Read(_, _) => write!(f, " {} {} bytes", kind_name(shown.first), shown.second),
            Ask::Measure => write!(f, " edge {} written edge {}", shown.first, shown.second),
            Ask::Floor => write!(f, " floor {}", shown.first),
            Ask::Place(_) => write!(f, " set {}", shown.first),
            Ask::Drop(_, _, _) => write!(f, " units{}", Units(shown.second.to_le_bytes())),
            _ => Ok(()),
        }
    }
}

// Prints a row with what it was told, and says whether that is what it expects. What cannot be written is lost.
pub(crate) fn show(rt: &impl Print, row: Row, got: Told) -> bool
    ensures { result ≡ same_told (told_in got) (told_in row.told) }
{
    let right = got == row.told;
    let verdict = if right {
        "as expected"
    } else {
        "NOT as expected"
    };
    let row = Row { told: got, ..row };
    let _ = println!(rt; "{row}, {verdict}");
    right
}
