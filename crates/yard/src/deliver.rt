// A letter is delivered: a request to its machine, an answer to its client.
ghost use Rattle.std.specs.Prelude.{◌≡◌, Bool, true, ℕ, ◌<◌};
ghost use Rattle.rule.specs.World.{shape_under};
ghost use Rattle.rule.specs.Lent.{good_units};
ghost use Rattle.rule.specs.Serve.{unserved};
ghost use Rattle.rule.specs.Steps.{delivered, delivers};
ghost use Rattle.yard.specs.InsideParts.{world_of};
ghost use Rattle.yard.specs.InsideMoves.{moves_of, moves_in, world_with, Moved, Decided, answering};

use crate::machine::serve;
use crate::moves::{Core, Moves, has_room, is_client, is_sending};
use crate::other_steps::is_running;
use client::take::take;
use client::{Ask, Reply, Response};
use num::refusal::Refusal;
use rule::{Body, Letter, Yard};

// A letter under way, whether it is kept, and whether a machine's answer is.
#[derive(Clone, Copy)]
pub(crate) struct Delivery {
    pub letter: Letter,
    pub keeps: bool,
    pub keeps_answer: bool,
}

// Does it ask a unit that there is not, or one that has stopped?
fn is_unserved(stopped: &[bool; Yard::UNITS], ask: Ask) -> bool
    ensures { result ≡ unserved stopped.now ask }
{
    matches!(ask, Ask::Unit(u, _) if !is_running(stopped, u))
}

// A machine has answered: the answer bears the stamp of its request.
fn answered(core: Core, d: Delivery, response: Response) -> Moves
    ensures { moves_of result ≡ answering core.yard core.sequencer d.keeps d.keeps_answer d.letter.stamp response }
{
    Moves {
        ended: None,
        core,
        keeps: d.keeps,
        posts: d.keeps_answer.then_some(Letter {
            stamp: d.letter.stamp,
            body: Body::Answers(response.reply),
            page: response.page,
            layout: response.layout,
        }),
    }
}

// A request at its machine.
fn hands(core: Core, units: &mut [u8], d: Delivery, ask: Ask) -> Result<Moves, Refusal>
    requires units_value { good_units core.yard.held.shape 1 8 units.old ≡ true }
    requires body_value { d.letter.body ≡ Body.Asks ask }
    ensures { (i : ℕ) → i < core.yard.count → Decided (shape_under core.yard.held) d.letter (λ ls. delivered (world_of core.yard core.sequencer ls units.old) i d.keeps d.keeps_answer d.letter) core.yard.count i (moves_in core result) units.new }
{
    if !is_client(d.letter.stamp.client) | is_unserved(&core.yard.stopped, ask) {
        return Err(Refusal::Nobody);
    }
    has_room(core.yard.count, d.keeps, d.keeps_answer)?;
    let mut after = core;
    let response = serve(&mut after, units, ask, d.letter.page, d.letter.layout);
    Ok(answered(after, d, response))
}

// An answer at its client.
fn returns_to(core: Core, d: Delivery, reply: Reply) -> Result<Moves, Refusal>
    requires { d.letter.body ≡ Body.Answers reply }
    ensures { (i : ℕ) (k : Bool) → i < core.yard.count → Moved (λ ls us. delivered (world_with core.yard core.sequencer ls us) i d.keeps k d.letter) core.yard.count i (moves_in core result) }
{
    let letter = d.letter;
    let c = letter.stamp.client;
    let client = core.client(c)?;
    let response = Response {
        reply,
        page: letter.page,
        layout: letter.layout,
    };
    let turn = take(c, client, letter.stamp, response);
    has_room(core.yard.count, d.keeps, is_sending(turn.act))?;
    Ok(core.turned(d.keeps, c, &turn))
}

// Whatever the letter is: it is the one at `i`.
pub(crate) fn delivers(core: Core, units: &mut [u8], i: u8, d: Delivery) -> Result<Moves, Refusal>
    requires { good_units core.yard.held.shape 1 8 units.old ≡ true }
    ensures { Decided (shape_under core.yard.held) d.letter (λ ls. delivers (world_of core.yard core.sequencer ls units.old) i d.keeps d.keeps_answer) core.yard.count i (moves_in core result) units.new }
{
    if core.yard.count <= i {
        return Err(Refusal::Nobody);
    }
    match d.letter.body {
        Body::Blank => Err(Refusal::Nobody),
        Body::Asks(ask) => hands(core, units, d, ask),
        Body::Answers(reply) => returns_to(core, d, reply),
    }
}
