// An operation begins, is given up, or is forgotten with the client's life.
ghost use Rattle.std.specs.Prelude.{◌≡◌};
ghost use Rattle.num.specs.Refusals.{answered};
ghost use Rattle.client.specs.Turn.{turn_in};
ghost use Rattle.client.specs.Begin.{ready_answer, begin_answer, with_job, begin_step, begun_in, give_up, restart_step, restarted_in};

use crate::job::job_answer;
use crate::state::Job;
use crate::turn::{Turn, ends, rests, sends};
use crate::{Ask, Client, Query, Stage};
use num::Request;
use num::refusal::{Refusal, lowest};

// 18 or 19 where the client takes no operation.
pub fn ready_answer(client: Client) -> Result<(), Refusal>
    ensures { answered result ≡ ready_answer client }
{
    lowest(&[
        Refusal::Busy.when(client.stage.is_busy()),
        Refusal::NumbersSpent.when(Request::LAST <= client.used.0),
    ])
}

// 18, 19, 2, 3 or 10 where the operation does not begin in a yard of this shape.
pub fn begin_answer(client: Client, job: Job, shape: u8) -> Result<(), Refusal>
    ensures { answered result ≡ begin_answer client job shape }
{
    ready_answer(client)?;
    job_answer(job, shape)
}

// The client with the operation.
#[tactic(auto, unfolding(crate::specs::Client::idle))]
fn with_job(client: Client, job: Job) -> Client
    ensures { result ≡ with_job client job }
{
    Client {
        begun: client.used,
        stage: Stage::Fetching,
        work: job.work,
        change: job.kept_change(),
        position: job.work.position(),
        page: job.page(),
        ..Client::idle(client.life, client.used)
    }
}

// Every operation first fetches the layout. A refusal uses no number and sends nothing.
#[tactic(auto, unfolding(crate::specs::Begin::begin_turn))]
pub fn begin(client: Client, job: Job, shape: u8) -> Result<Turn, Refusal>
    ensures { begun_in client result ≡ begin_step client job shape }
{
    begin_answer(client, job, shape)?;
    Ok(sends(with_job(client, job), Query::plain(Ask::Fetch)))
}

// 20 at a busy client; at an idle one nothing changes.
#[tactic(auto, unfolding(crate::specs::Begin::give_up))]
pub fn give_up(client: Client) -> Turn
    ensures { turn_in result ≡ give_up client }
{
    if client.stage.is_busy() {
        ends(client, Refusal::Unknown)
    } else {
        rests(client)
    }
}

// The operation is forgotten, the life is the next, and its numbers are unused.
#[tactic(auto, unfolding(crate::specs::Begin::restarted))]
pub fn restart(client: Client) -> Result<Client, Refusal>
    ensures { restarted_in client result ≡ restart_step client }
{
    if Client::LAST_LIFE <= client.life {
        return Err(Refusal::NumbersSpent);
    }
    Ok(Client::idle(client.life + 1, Request(0)))
}
