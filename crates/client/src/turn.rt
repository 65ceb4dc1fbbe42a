// What comes of a step at a client: it rests, a request is sent, or its operation ends.
ghost use Rattle.std.specs.Prelude.{◌≡◌};
ghost use Rattle.num.specs.Refusals.{number};
ghost use Rattle.client.specs.Message.{number_of};
ghost use Rattle.client.specs.Turn.{turn_in, no_outcome, sent_so_far, outcome_of, rests, over, ends, sends, otherwise};

use crate::{Act, Client, Outcome, Page, Query, Reply, Work};
use num::refusal::Refusal;
use num::{Epoch, Position, Request};

// The client afterwards, and what it does.
#[derive(Clone, Copy)]
pub struct Turn {
    pub client: Client,
    pub act: Act,
}

impl Outcome {
    pub fn blank() -> Outcome
        ensures { result ≡ no_outcome }
    {
        Outcome {
            number: 0,
            position: Position(0),
            epoch: Epoch(0),
            page: Page::blank(),
            work: Work::Append,
            sent: 0,
        }
    }

    fn of(client: Client, number: u8, page: Page) -> Outcome
        ensures { result ≡ outcome_of client number page }
    {
        Outcome {
            number,
            position: client.position,
            epoch: client.layout.epoch,
            page,
            work: client.work,
            sent: sent_so_far(client),
        }
    }
}

// The requests sent since the operation began: each has used one number, and one that had none left has used none.
fn sent_so_far(client: Client) -> u32
    ensures { result ≡ sent_so_far client }
{
    client.used.0.saturating_sub(client.begun.0)
}

// Nothing happens: the answer was to something else, or to nothing.
pub(crate) fn rests(client: Client) -> Turn
    ensures { turn_in result ≡ rests client }
{
    Turn {
        client,
        act: Act::Rests,
    }
}

// The operation is over, with a number and a page.
fn over(client: Client, number: u8, page: Page) -> Turn
    ensures { turn_in result ≡ over client number page }
{
    Turn {
        client: Client::idle(client.life, client.used),
        act: Act::Ends(Outcome::of(client, number, page)),
    }
}

// It is done, and was shown a page or none.
pub(crate) fn done(client: Client, page: Page) -> Turn
    ensures { turn_in result ≡ over client 0 page }
{
    over(client, 0, page)
}

pub(crate) fn ends(client: Client, refusal: Refusal) -> Turn
    ensures { turn_in result ≡ ends client (number refusal) }
{
    over(client, refusal.number(), Page::blank())
}

// A request goes out under the next number; with none left the operation ends with 19.
#[tactic(auto, unfolding(crate::specs::Turn::sends))]
pub(crate) fn sends(client: Client, query: Query) -> Turn
    ensures { turn_in result ≡ sends client query }
{
    if Request::LAST <= client.used.0 {
        return ends(client, Refusal::NumbersSpent);
    }
    let used = Request(client.used.0 + 1);
    Turn {
        client: Client { used, ..client },
        act: Act::Sends(used, query),
    }
}

// A machine's refusal ends the operation; any other answer never answers what was asked.
#[tactic(auto, unfolding(crate::specs::Turn::otherwise))]
pub(crate) fn otherwise(client: Client, reply: Reply) -> Turn
    ensures { turn_in result ≡ otherwise client (number_of reply) }
{
    match reply.refusal() {
        Some(refusal) => ends(client, refusal),
        None => rests(client),
    }
}
