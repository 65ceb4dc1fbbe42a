// Whether one layout may follow another.
ghost use Rattle.std.specs.Prelude.{◌≡◌, ◌&&◌, leb, length, map};
ghost use Rattle.layout.specs.Value.{lay_of, units_in, span_in};
ghost use Rattle.layout.specs.Successor.{sublist, keeps_sets, keeps_spans, lawful};

use crate::{Chain, Layout, Range};

// Whether `new` is a sublist of `old`: `rest` is what is still to be found.
#[tactic(auto, using(crate::proofs::Sublist::sublist_end), unfolding(crate::specs::Successor::sublist))]
fn sublist(new: &[u8], old: &[u8]) -> bool
    ensures { result ≡ sublist new.now old.now }
{
    let mut rest = new;
    for unit in old {
        if rest.first() == Some(unit) {
            rest = &rest[1..];
        }
    }
    rest.is_empty()
}

// Whether `new` is a non-empty sublist of `old`.
fn keeps_set(old: &Chain, new: &Chain) -> bool
    ensures { result ≡ (leb 1 (length (units_in new.now)) && sublist (units_in new.now) (units_in old.now)) }
{
    !new.units().is_empty() && sublist(new.units(), old.units())
}

// Whether each old set is replaced by a non-empty sublist of itself.
#[tactic(auto, unfolding(crate::specs::Successor::keeps_sets))]
fn keeps_sets(old: &[Chain], new: &[Chain]) -> bool
    ensures { result ≡ keeps_sets (map units_in old.now) (map units_in new.now) }
{
    let mut rest = new;
    for o in old {
        let [n, others @ ..] = rest else {
            return false;
        };
        if !keeps_set(o, n) {
            return false;
        }
        rest = others;
    }
    true
}

// Whether the starts and numbers of sets are the same, and there is at most one range more, above the last old start.
#[tactic(auto, unfolding(crate::specs::Successor::keeps_spans))]
fn keeps_spans(old: &[Range], new: &[Range]) -> bool
    ensures { result ≡ keeps_spans 0 (map span_in old.now) (map span_in new.now) }
{
    let mut last = 0;
    let mut rest = new;
    for o in old {
        let [n, others @ ..] = rest else {
            return false;
        };
        if o != n {
            return false;
        }
        last = o.start.0;
        rest = others;
    }
    match rest {
        [] => true,
        [more] => last < more.start.0,
        _ => false,
    }
}

// Whether `new` is a lawful successor of `old`, by what their lists hold: neither value need be good.
#[tactic(auto, unfolding(crate::specs::Successor::lawful, crate::specs::Value::lay_of))]
pub fn lawful(old: Layout, new: Layout) -> bool
    ensures { result ≡ lawful (lay_of old) (lay_of new) }
{
    let longer = old.ranges().len() < new.ranges().len();
    let same = old.sets().len() == new.sets().len();
    (old.shape == new.shape)
        & keeps_spans(old.ranges(), new.ranges())
        & keeps_sets(old.sets(), new.sets())
        & (longer | same)
}
