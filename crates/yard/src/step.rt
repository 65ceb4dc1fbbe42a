// A step of the yard: the letter is taken, `decide` settles all by value over the units' bytes, and the table is changed by what it says.
ghost use Rattle.std.specs.Prelude.{◌≡◌};
ghost use Rattle.rule.specs.Lent.{lent_of, IsStep};
ghost use Rattle.rule.specs.Stepped.{stepped_in};

use crate::bag::take;
use crate::decide::{decide, place_of};
use crate::moves::{Core, count_after};
use client::state::Job;
use rule::{Letter, Step, Stepped, Yard};
use sequencer::Sequencer;

pub fn step(
    yard: Yard,
    seq: &mut Sequencer,
    table: &mut [Letter],
    units: &mut [u8],
    s: Step,
    job: Job,
) -> Stepped
    ensures { IsStep (lent_of yard seq.old table.old units.old) s job (stepped_in result) seq.new table.new units.new }
{
    let place = place_of(s);
    let l = take(table, place);
    let core = Core {
        yard,
        sequencer: *seq,
    };
    match decide(core, table.len(), l, units, s, job) {
        Ok(moves) => {
            *seq = moves.core.sequencer;
            moves.apply(table, yard.count, place);
            Stepped {
                answer: Ok(()),
                ended: moves.ended,
                yard: Yard {
                    count: count_after(yard.count, moves.keeps, moves.posts.is_some()) as u8,
                    ..moves.core.yard
                },
            }
        }
        Err(refusal) => Stepped {
            answer: Err(refusal),
            ended: None,
            yard,
        },
    }
}
