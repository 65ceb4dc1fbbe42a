// The layout holder: what it answers, and what it holds afterwards.
ghost use Rattle.std.specs.Prelude.{◌≡◌, ◌+◌, eqb};
ghost use Rattle.num.specs.Refusals.{answered};
ghost use Rattle.layout.specs.Holder.{offer_answer, offered_in, offered_to, fetched_in, fetched_from};

use crate::Layout;
use crate::good::is_good;
use crate::successor::lawful;
use num::Epoch;
use num::refusal::{Refusal, lowest};

// Whether `next` is the epoch after `held`.
fn follows(held: Epoch, next: Epoch) -> bool
    ensures { result ≡ eqb next.0 (held.0 + 1) }
{
    u64::from(next.0) == u64::from(held.0) + 1
}

// Why the offered layout is not to be installed.
#[tactic(auto, unfolding(crate::specs::Holder::offer_answer))]
fn answer_to(held: Layout, offered: Layout) -> Result<(), Refusal>
    ensures { answered result ≡ offer_answer held offered }
{
    lowest(&[
        Refusal::Layout.when(!(is_good(held) & is_good(offered))),
        Refusal::Overtaken.when(!follows(held.epoch, offered.epoch)),
        Refusal::Successor.when(!lawful(held, offered)),
    ])
}

// Installs the offered layout, or says why not; then the held one stays.
#[tactic(auto, unfolding(crate::specs::Holder::offered_to))]
pub fn offer(held: &mut Layout, offered: Layout) -> Result<(), Refusal>
    ensures { offered_in result held.new ≡ offered_to held.old offered }
{
    answer_to(*held, offered)?;
    *held = offered;
    Ok(())
}

// The held layout, where it is good.
#[tactic(auto, unfolding(crate::specs::Holder::fetched_from))]
pub fn fetch(held: Layout) -> Result<Layout, Refusal>
    ensures { fetched_in result ≡ fetched_from held }
{
    if is_good(held) {
        Ok(held)
    } else {
        Err(Refusal::Layout)
    }
}
