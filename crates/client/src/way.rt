// The way of an operation through the layout that it fetched.
ghost use Rattle.std.specs.Prelude.{◌≡◌};
ghost use Rattle.layout.specs.Plan.{planned_in};
ghost use Rattle.layout.specs.Places.{or_zero, FromOne};
ghost use Rattle.client.specs.Way.{head_for, tail_for, after_for, drops_of, plan_for};

use crate::{Change, Client};
use layout::Layout;
use layout::place::{head_at, tail_at, unit_after};
use layout::plan::plan;
use num::refusal::Refusal;

// The head of the set of the position under way; 0 where there is none.
pub(crate) fn head_for(c: Client) -> u8
    ensures { result ≡ head_for c }
{
    head_at(c.layout, c.position).unwrap_or(0)
}

// Its tail.
pub(crate) fn tail_for(c: Client) -> u8
    ensures { result ≡ tail_for c }
{
    tail_at(c.layout, c.position).unwrap_or(0)
}

// The unit after `unit` in it.
pub(crate) fn after_for(c: Client, unit: u8) -> Option<u8>
    ensures unit { or_zero result ≡ after_for c unit }
    ensures from_one { FromOne result }
{
    unit_after(c.layout, c.position, unit)
}

impl Change {
    // The units to drop.
    fn drops(&self) -> &[u8]
        ensures { result.now ≡ drops_of self.now }
    {
        let n = usize::from(self.count).min(Change::DROPS);
        &self.drops[..n]
    }
}

// The new layout, but for its new range's start; or 15, 10, 13 or 14.
pub(crate) fn plan_for(c: Client) -> Result<Layout, Refusal>
    ensures { planned_in result ≡ plan_for c }
{
    let change = c.change;
    plan(c.layout, change.drops(), change.wish)
}
