// Example 10's layout, and what the code of the layouts tells of it.
ghost use Rattle.std.specs.Prelude.{◌≡◌};
ghost use Rattle.layout.specs.Codec.{read_layout};
ghost use Rattle.marked.specs.Rows.{told_in};
ghost use Rattle.marked.specs.Lays.{tenth, place_told, drop_told};

use crate::ask::{Shown, Told};
use layout::place::set_of;
use layout::plan::plan;
use layout::read::read_layout;
use layout::{Layout, Wish};
use num::Position;
use num::bytes::number_at;

const TENTH: [u8; 38] = [
    1, 0, 0, 0, 0, 3, 1, 2, 3, 3, 2, 1, 2, 2, 2, 3, 2, 1, 3, 2, 0, 0, 0, 0, 0, 0, 0, 0, 2, 10, 0,
    0, 0, 0, 0, 0, 0, 1,
];

#[tactic(auto, using(crate::proofs::Laying::tenth_read))]
fn held() -> Layout
    ensures { result ≡ read_layout tenth }
{
    read_layout(&TENTH).unwrap()
}

#[tactic(auto, unfolding(crate::specs::Lays::place_told))]
pub(crate) fn tell_place(p: Position) -> Told
    ensures { told_in result ≡ place_told p.0 }
{
    let set = set_of(held(), p)?;
    Ok(Shown {
        first: u64::from(set),
        second: 0,
    })
}

#[tactic(auto, unfolding(crate::specs::Lays::drop_told), using(crate::proofs::Laying::drop_refused))]
pub(crate) fn tell_drop(a: u8, b: u8, k: usize) -> Told
    ensures { told_in result ≡ drop_told a b k }
{
    let next = plan(held(), &[a, b], Wish::blank())?;
    let set = next.sets[k % Layout::SETS];
    Ok(Shown {
        first: u64::from(set.count),
        second: number_at(&set.units, 0, 4),
    })
}
