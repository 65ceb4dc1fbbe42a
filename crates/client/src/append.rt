// Append: take a token, write head to tail.
ghost use Rattle.std.specs.Prelude.{◌≡◌, false};
ghost use Rattle.num.specs.Refusals.{number};
ghost use Rattle.client.specs.Turn.{turn_in};
ghost use Rattle.client.specs.Message.{no_refusal};
ghost use Rattle.client.specs.Append.{draws, writes, writes_at, writes_on, not_written};

use crate::turn::{Turn, done, ends, rests, sends};
use crate::way::{after_for, head_for};
use crate::{Ask, Client, Page, Phase, Query, UnitAsk};
use num::Position;
use num::refusal::Refusal;

// Takes the nth token.
pub(crate) fn draws(c: Client, n: u8) -> Turn
    ensures { turn_in result ≡ draws c n }
{
    sends(
        c.in_phase(Phase::Drawing(n)),
        Query::plain(Ask::Token(c.layout.epoch)),
    )
}

// Writes at a unit, with the nth token.
fn writes(c: Client, unit: u8, n: u8) -> Turn
    ensures { turn_in result ≡ writes c unit n }
{
    let ask = UnitAsk::Write(c.layout.epoch, c.position);
    sends(
        c.in_phase(Phase::Writing(unit, n)),
        Query::bearing(Ask::Unit(unit, ask), c.page),
    )
}

// The token's answer; a token that no sequencer gives never answers.
#[tactic(auto, unfolding(crate::specs::Append::writes_at))]
pub(crate) fn writes_at(c: Client, n: u8, p: Position) -> Turn
    ensures { turn_in result ≡ writes_at c n p }
{
    if p.0 < Position::LIMIT {
        let at = c.at_position(p);
        writes(at, head_for(at), n)
    } else {
        rests(c)
    }
}

// Head to tail; after the tail: done.
#[tactic(auto, unfolding(crate::specs::Append::writes_on))]
pub(crate) fn writes_on(c: Client, unit: u8, n: u8) -> Turn
    ensures { turn_in result ≡ writes_on c unit n }
{
    match after_for(c, unit) {
        None => done(c, Page::blank()),
        Some(next) => writes(c, next, n),
    }
}

// The head answers 5 or 6: another token, 8 in all. 6 at a later unit counts as fine there.
#[tactic(auto, unfolding(crate::specs::Append::not_written, crate::specs::Append::not_at_head, crate::specs::Append::not_later, crate::specs::Turn::otherwise))]
pub(crate) fn not_written(c: Client, unit: u8, n: u8, refusal: Refusal) -> Turn
    requires { no_refusal (number refusal) ≡ false }
    ensures { turn_in result ≡ not_written c unit n (number refusal) }
{
    let at_head = unit == head_for(c);
    match refusal {
        Refusal::Trimmed | Refusal::Written if at_head && n < Client::TOKENS => draws(c, n + 1),
        Refusal::Written if !at_head => writes_on(c, unit, n),
        _ => ends(c, refusal),
    }
}
