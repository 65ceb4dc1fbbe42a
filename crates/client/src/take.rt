// An answer comes to a client: what it does next.
ghost use Rattle.std.specs.Prelude.{◌≡◌};
ghost use Rattle.client.specs.Turn.{turn_in};
ghost use Rattle.client.specs.Message.{number_of};
ghost use Rattle.client.specs.Take.{goes_on, on_fetched, worked, works_on, answered, awaited, takes};
ghost use Rattle.client.specs.InsideTake.{refused};

use crate::append::{draws, not_written, writes_at, writes_on};
use crate::fill::{fills, fills_on, not_filled, page_carried};
use crate::read::{page_taken, reads};
use crate::reorganise::{edges_taken, reorganises, starts};
use crate::trim::{prunes_on, trims, trims_on};
use crate::turn::{Turn, done, ends, otherwise, rests};
use crate::way::{head_for, tail_for};
use crate::{Client, Page, Phase, Reply, Response, Stage, Stamp, Work};
use layout::Layout;
use layout::good::is_good;
use num::refusal::Refusal;

// The first request after the fetch.
fn goes_on(work: Work, c: Client) -> Turn
    ensures { turn_in result ≡ goes_on work c }
{
    match work {
        Work::Append => draws(c, 1),
        Work::Read(_) => reads(c, tail_for(c)),
        Work::Fill(_) => fills(c, head_for(c)),
        Work::Trim(_) => trims(c, head_for(c)),
        Work::Prune(_) => prunes_on(c, 0),
        Work::Reorganise => reorganises(c),
    }
}

// The layout is fetched; one that is not good ends the operation.
#[tactic(auto, unfolding(crate::specs::Take::holds))]
fn on_fetched(c: Client, reply: Reply, held: Layout) -> Turn
    ensures { turn_in result ≡ on_fetched c reply held }
{
    match reply {
        Reply::Held if is_good(held) => goes_on(c.work, c.holding(held)),
        Reply::Held => ends(c, Refusal::Layout),
        _ => otherwise(c, reply),
    }
}

// Where the phase is refused what it asked: some refusals do not end the operation, or not with their own number.
#[tactic(auto, unfolding(crate::specs::Append::not_written, crate::specs::Append::not_at_head, crate::specs::Append::not_later, crate::specs::Fill::not_filled, crate::specs::Reorganise::not_started, crate::specs::Turn::otherwise, crate::specs::Message::no_refusal))]
fn refused(phase: Phase, c: Client, reply: Reply) -> Turn
    ensures { turn_in result ≡ refused phase c (number_of reply) }
{
    let Some(refusal) = reply.refusal() else {
        return rests(c);
    };
    match (phase, refusal) {
        (Phase::Writing(unit, n), _) => not_written(c, unit, n, refusal),
        (Phase::Filling(unit), Refusal::Written) => not_filled(c, unit),
        (Phase::Starting, Refusal::Sealed) => ends(c, Refusal::Overtaken),
        _ => ends(c, refusal),
    }
}

// The answer that a phase waits for; any other refuses, or answers nothing.
fn worked(phase: Phase, c: Client, reply: Reply, page: Page) -> Turn
    ensures { turn_in result ≡ worked phase c reply page }
{
    match (phase, reply) {
        (Phase::Drawing(n), Reply::Given(p)) => writes_at(c, n, p),
        (Phase::Writing(unit, n), Reply::Fine) => writes_on(c, unit, n),
        (Phase::Reading(_), Reply::Shown) => page_taken(c, page),
        (Phase::Filling(unit), Reply::Fine) => fills_on(c, unit),
        (Phase::Looking(unit), Reply::Shown) => page_carried(c, unit, page),
        (Phase::Trimming(unit), Reply::Fine) => trims_on(c, unit),
        (Phase::Pruning(unit), Reply::Fine) => prunes_on(c, unit),
        (Phase::Sealing(unit, edges), Reply::Edged(told)) => edges_taken(c, unit, edges, told),
        (Phase::Offering(first), Reply::Fine) => starts(c, first),
        (Phase::Starting, Reply::Fine) => done(c, Page::blank()),
        _ => refused(phase, c, reply),
    }
}

// Under a layout that is not good the operation ends, whatever is answered.
#[tactic(auto, unfolding(crate::specs::Take::works_on))]
fn works_on(phase: Phase, c: Client, reply: Reply, page: Page) -> Turn
    ensures { turn_in result ≡ works_on phase c reply page }
{
    if is_good(c.layout) {
        worked(phase, c, reply, page)
    } else {
        ends(c, Refusal::Layout)
    }
}

// The answer to the outstanding request.
fn answered(c: Client, response: Response) -> Turn
    ensures { turn_in result ≡ answered c.stage c response }
{
    match c.stage {
        Stage::Idle => rests(c),
        Stage::Fetching => on_fetched(c, response.reply, response.layout),
        Stage::Working(phase) => works_on(phase, c, response.reply, response.page),
    }
}

// Is it the answer to this client's outstanding request?
#[tactic(auto, unfolding(crate::specs::Take::awaited))]
pub fn is_awaited(me: u8, c: Client, stamp: Stamp) -> bool
    ensures { result ≡ awaited me c stamp }
{
    stamp.client == me && stamp.life == c.life && stamp.number == c.used
}

// An answer to anything else is ignored.
#[tactic(auto, unfolding(crate::specs::Take::takes))]
pub fn take(me: u8, c: Client, stamp: Stamp, response: Response) -> Turn
    ensures { turn_in result ≡ takes me c stamp response }
{
    if is_awaited(me, c, stamp) {
        answered(c, response)
    } else {
        rests(c)
    }
}
