// Why a machine refuses, by the names of docs/RULES.md, 10; and a table of checks, of which the lowest that applies is given.
ghost use Rattle.std.specs.Prelude.{◌≡◌};
ghost use Rattle.num.specs.Refusals.{number, answered, rows, Numbered};
ghost use Rattle.num.specs.Checks.{lowest};

#[derive(Clone, Copy, Debug, PartialEq, Eq)]
pub enum Refusal {
    Memory,
    Position,
    Page,
    Sealed,
    Trimmed,
    Written,
    Unwritten,
    Full,
    Spent,
    Layout,
    Overtaken,
    Successor,
    SetLost,
    LayoutFull,
    EpochsSpent,
    BagFull,
    Nobody,
    Busy,
    NumbersSpent,
    Unknown,
    Play,
}

// One row of a table of checks: the refusal, and whether it applies.
#[derive(Clone, Copy)]
pub struct Check {
    pub refusal: Refusal,
    pub applies: bool,
}

impl Refusal {
    // The number that a C program and a letter know it by.
    pub fn number(self) -> u8
        ensures { result ≡ number self }
    {
        match self {
            Refusal::Memory => 1,
            Refusal::Position => 2,
            Refusal::Page => 3,
            Refusal::Sealed => 4,
            Refusal::Trimmed => 5,
            Refusal::Written => 6,
            Refusal::Unwritten => 7,
            Refusal::Full => 8,
            Refusal::Spent => 9,
            Refusal::Layout => 10,
            Refusal::Overtaken => 11,
            Refusal::Successor => 12,
            Refusal::SetLost => 13,
            Refusal::LayoutFull => 14,
            Refusal::EpochsSpent => 15,
            Refusal::BagFull => 16,
            Refusal::Nobody => 17,
            Refusal::Busy => 18,
            Refusal::NumbersSpent => 19,
            Refusal::Unknown => 20,
            Refusal::Play => 22,
        }
    }

    // The row of a table that refuses so.
    pub fn when(self, applies: bool) -> Check
        ensures { result ≡ record { refusal = self; applies = applies } }
    {
        Check {
            refusal: self,
            applies,
        }
    }
}

// The refusal of a number; a number that none has is given back.
impl TryFrom<u8> for Refusal {
    type Error = u8;

    ghost try_from_gives = { Numbered };

    fn try_from(number: u8) -> Result<Refusal, u8> {
        match number {
            1 => Ok(Refusal::Memory),
            2 => Ok(Refusal::Position),
            3 => Ok(Refusal::Page),
            4 => Ok(Refusal::Sealed),
            5 => Ok(Refusal::Trimmed),
            6 => Ok(Refusal::Written),
            7 => Ok(Refusal::Unwritten),
            8 => Ok(Refusal::Full),
            9 => Ok(Refusal::Spent),
            10 => Ok(Refusal::Layout),
            11 => Ok(Refusal::Overtaken),
            12 => Ok(Refusal::Successor),
            13 => Ok(Refusal::SetLost),
            14 => Ok(Refusal::LayoutFull),
            15 => Ok(Refusal::EpochsSpent),
            16 => Ok(Refusal::BagFull),
            17 => Ok(Refusal::Nobody),
            18 => Ok(Refusal::Busy),
            19 => Ok(Refusal::NumbersSpent),
            20 => Ok(Refusal::Unknown),
            22 => Ok(Refusal::Play),
            other => Err(other),
        }
    }
}

// The number that is answered: 0 where nothing is refused.
pub fn number_of<T: Copy>(answer: Result<T, Refusal>) -> u8
    ensures { result ≡ answered answer }
{
    match answer {
        Ok(_) => 0,
        Err(refusal) => refusal.number(),
    }
}

// The first row of the table that applies.
pub fn lowest(checks: &[Check]) -> Result<(), Refusal>
    ensures { answered result ≡ lowest (rows checks.now) }
{
    for check in checks {
        if check.applies {
            return Err(check.refusal);
        }
    }
    Ok(())
}
