// What a step decides, by value.
ghost use Rattle.std.specs.Prelude.{◌≡◌, true, cond, ◌-◌, get_or, MatchResult, false};
ghost use Rattle.std.specs.Option.{is_some, unwrap_or};
ghost use Rattle.num.specs.declared.refusal.Refusal.TheVariants.{Nobody};
ghost use Rattle.num.specs.Refusals.{answered};
ghost use Rattle.client.specs.Client.{fresh};
ghost use Rattle.client.specs.Turn.{act_in, turn_in};
ghost use Rattle.rule.specs.World.{is_client, blank_letter};
ghost use Rattle.rule.specs.Steps.{ended};
ghost use Rattle.rule.specs.Stepped.{who_of, outcome_of};
ghost use Rattle.yard.specs.InsideMoves.{moves_of, quiet, with_client_in, sends, letter_of, turning, count_after, left_at, room_answer, table_after};

use crate::bag::{drop_at, put};
use client::turn::Turn;
use client::{Act, Client, Stamp};
use num::refusal::{Refusal, lowest};
use rule::{Body, Ended, Letter, Yard};
use sequencer::Sequencer;

// A yard, and the sequencer beside it.
#[derive(Clone, Copy)]
pub(crate) struct Core {
    pub yard: Yard,
    pub sequencer: Sequencer,
}

// The operation that ended; what stands afterwards, with the yard's count as it was; whether the letter at hand stays, and the one that goes to the end.
#[derive(Clone, Copy)]
pub(crate) struct Moves {
    pub ended: Option<Ended>,
    pub core: Core,
    pub keeps: bool,
    pub posts: Option<Letter>,
}

pub(crate) fn is_client(c: u8) -> bool
    ensures { result ≡ is_client c }
{
    (1 <= c) & (c <= Yard::LAST_CLIENT)
}

impl Core {
    // No operation ends, and no letter comes.
    pub(crate) fn quiet(self, keeps: bool) -> Moves
        ensures { moves_of result ≡ quiet self.yard self.sequencer keeps 0 }
    {
        Moves {
            ended: None,
            core: self,
            keeps,
            posts: None,
        }
    }

    // The client of this number, if there is one.
    pub(crate) fn client(&self, c: u8) -> Result<Client, Refusal>
        ensures { MatchResult result (λ x. (is_client c ≡ true) × (x ≡ get_or self.now.yard.clients (c - 1) fresh)) (λ r. (is_client c ≡ false) × (r ≡ Nobody)) }
    {
        if !is_client(c) {
            return Err(Refusal::Nobody);
        }
        Ok(self.yard.clients[usize::from(c) - 1])
    }

    pub(crate) fn with_client(mut self, c: u8, client: Client) -> Core
        requires { is_client c ≡ true }
        ensures { result ≡ record { yard = with_client_in self.yard c client; sequencer = self.sequencer } }
    {
        self.yard.clients[usize::from(c) - 1] = client;
        self
    }

    // A client's turn.
    pub(crate) fn turned(self, keeps: bool, c: u8, turn: &Turn) -> Moves
        requires { is_client c ≡ true }
        ensures { moves_of result ≡ turning self.yard self.sequencer keeps c (turn_in turn.now) }
    {
        Moves {
            ended: ended(c, turn),
            core: self.with_client(c, turn.client),
            keeps,
            posts: letter_of(c, turn),
        }
    }
}

// Whether a turn's operation ends.
fn ended(c: u8, turn: &Turn) -> Option<Ended>
    requires { is_client c ≡ true }
    ensures { (who_of result ≡ ended c (turn_in turn.now).act) × (outcome_of result ≡ (turn_in turn.now).outcome) }
{
    match turn.act {
        Act::Ends(outcome) => Some(Ended { who: c, outcome }),
        Act::Rests | Act::Sends(..) => None,
    }
}

pub(crate) fn is_sending(act: Act) -> bool
    ensures { result ≡ sends (act_in act) }
{
    matches!(act, Act::Sends(..))
}

// The letter that a client sends, if any: a request bears client, life and number.
fn letter_of(c: u8, turn: &Turn) -> Option<Letter>
    ensures { (is_some result ≡ sends (turn_in turn.now).act) × (unwrap_or result blank_letter ≡ letter_of c turn.now.client.life (turn_in turn.now).act (turn_in turn.now).query) }
{
    match turn.act {
        Act::Sends(number, query) => Some(Letter {
            stamp: Stamp {
                client: c,
                life: turn.client.life,
                number,
            },
            body: Body::Asks(query.ask),
            page: query.page,
            layout: query.layout,
        }),
        Act::Rests | Act::Ends(_) => None,
    }
}

// How many letters are left once one is kept or dropped.
pub(crate) fn left_of(count: u8, keeps: bool) -> usize
    ensures { result ≡ left_at count keeps }
{
    let n = usize::from(count);
    if keeps { n } else { n.saturating_sub(1) }
}

// And how many there are once one is posted or not.
pub(crate) fn count_after(count: u8, keeps: bool, posts: bool) -> usize
    ensures { result ≡ count_after count keeps posts }
{
    left_of(count, keeps) + usize::from(posts)
}

// Whether the bag has room for them.
pub(crate) fn has_room(count: u8, keeps: bool, posts: bool) -> Result<(), Refusal>
    ensures { answered result ≡ room_answer count keeps posts }
{
    lowest(&[Refusal::BagFull.when(Yard::LETTERS < count_after(count, keeps, posts))])
}

impl Moves {
    // A table of `count` letters, the one at hand at `place`.
    pub(crate) fn apply(&self, table: &mut [Letter], count: u8, place: usize)
        ensures { table.new ≡ table_after count place (moves_of self.now) table.old }
    {
        if !self.keeps {
            drop_at(table, usize::from(count), place);
        }
        if let Some(letter) = self.posts {
            put(table, left_of(count, self.keeps), letter);
        }
    }
}
