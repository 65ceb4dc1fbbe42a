// The sequencer: one small counter, epoch and next position, stepped where it stands.
#![tactic(auto, unfolding(crate::specs::Rules::number, crate::specs::Rules::position, crate::specs::Rules::after))]

ghost use Rattle.std.specs.Prelude.{◌≡◌};
ghost use Rattle.sequencer.specs.Rules.{At, fresh, Served, told_as, fine, placed};

use num::refusal::{Refusal, lowest};
use num::{Epoch, Position};

#[derive(Clone, Copy)]
pub struct Sequencer {
    pub epoch: Epoch,
    pub next: Position,
}

// What a sequencer is asked.
#[derive(Clone, Copy)]
pub enum Asked {
    Token(Epoch),
    Start(Epoch, Position),
    Forget,
}

// What it answers, a token's position at most, and the sequencer afterwards.
#[derive(Clone, Copy)]
pub struct Step {
    pub told: Result<Option<Position>, Refusal>,
    pub after: Sequencer,
}

impl Sequencer {
    pub const FIRST_EPOCH: u32 = 1;

    // A count that stands at it is spent, and none is started above it.
    pub const LIMIT: u64 = Position::LIMIT;

    pub fn fresh() -> Sequencer
        ensures { result ≡ fresh }
    {
        Sequencer {
            epoch: Epoch(Sequencer::FIRST_EPOCH),
            next: Position(0),
        }
    }
}

// A token at the sequencer's own epoch, while the count is not spent.
pub fn token(s: &mut Sequencer, epoch: Epoch) -> Result<Position, Refusal>
    ensures { Served s.old (Asked.Token epoch) (told_as At result) s.new }
{
    lowest(&[
        Refusal::Sealed.when(epoch != s.epoch),
        Refusal::Spent.when(Sequencer::LIMIT <= s.next.0),
    ])?;
    let given = s.next;
    s.next.0 += 1;
    Ok(given)
}

// A start at a higher epoch, with a count within the limit.
pub fn start(s: &mut Sequencer, epoch: Epoch, count: Position) -> Result<(), Refusal>
    ensures { Served s.old (Asked.Start epoch count) (told_as (λ _. fine) result) s.new }
{
    lowest(&[
        Refusal::Position.when(Sequencer::LIMIT < count.0),
        Refusal::Sealed.when(epoch.0 <= s.epoch.0),
    ])?;
    *s = Sequencer { epoch, next: count };
    Ok(())
}

// The count is forgotten, and the epoch kept.
pub fn forget(s: &mut Sequencer)
    ensures { Served s.old Asked.Forget fine s.new }
{
    s.next = Position(0);
}

// Whatever is asked, of a copy: what comes of it, and the sequencer afterwards.
pub fn stepped(s: Sequencer, asked: Asked) -> Step
    ensures { Served s asked (told_as placed result.told) result.after }
{
    let mut after = s;
    let told = match asked {
        Asked::Token(epoch) => token(&mut after, epoch).map(Some),
        Asked::Start(epoch, count) => start(&mut after, epoch, count).map(|_| None),
        Asked::Forget => {
            forget(&mut after);
            Ok(None)
        }
    };
    Step { told, after }
}
