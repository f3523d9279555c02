//! The answer of `rest`: who is left out, and a matching of the others.

ghost use Rattle.std.specs.Prelude.{◌≡◌, ℕ, ◌<◌, ◌↔◌, List, length, IfOk, IsTrue};
ghost use Rattle.sm_answer.specs.Giving.{HasRest};
ghost use Rattle.sm_answer.specs.Printing.{IsShown};
ghost use Rattle.sm_agents.specs.Written.{lists_of};
ghost use Rattle.sm_instance.specs.declared.inputs.Input.TheVariants.{Room};
ghost use Rattle.sm_room.specs.PartiesKept.{IsLeftOut};
ghost use Rattle.sm_theory.specs.Partitions.{IsStablePartition, PairsFromLowest};
ghost use Rattle.sm_answer_roommates.specs.RestAnswer.{AreLeftOut, IsRestOf, IsRest};

use crate::numbered::{CoupleLines, OutLines};
use crate::solution::market_of;
use sm_answer::{Each, Lines, One, Printed, Then};
use sm_instance::{Input, Persons};
use sm_report::{Head, Line};
use sm_room::{Partition, RoomMarket, stable_partition};
use std::alloc::{AllocError, Global};

/// Who is left out so that the others can be matched, and whom these have.
#[derive(Debug, Drop)]
pub struct Rest {
    /// The lowest member of each odd party of three or more, rising.
    pub out: Vec<u32>,
    /// The mate of each person, `None` for one who is left out or alone.
    pub mates: Vec<Option<u32>>,
}

/// Of a stable partition of persons the lowest member of each odd party of three or more, and a matching of all others that no
/// two of them block (Tan 1991). Persons are numbered from 0.
///
/// Takes time and memory in proportion to the persons and entries.
///
/// # Errors
///
/// `AllocError` where memory ran out, and only then.
pub fn find_rest(alloc: Global, persons: &Persons) -> Result<Rest, AllocError>
    ensures { IfOk result
        (λ rest. IsRestOf (lists_of persons.now) rest.out.items rest.mates.items) }
{
    let market = market_of(alloc, persons)?;
    let partition = stable_partition(alloc, &market)?;
    let out = left_out(alloc, &market, &partition)?;
    let mates = partition.rest_matching(alloc)?;
    Ok(Rest { out, mates })
}

/// The lowest member of each odd party of three or more.
fn left_out(
    alloc: Global,
    market: &RoomMarket,
    partition: &Partition,
) -> Result<Vec<u32>, AllocError>
    requires persons { length partition.now.next ≡ length market.now }
    requires pairs { PairsFromLowest market.now partition.now.next partition.now.mates }
    ensures { IfOk result (λ out. AreLeftOut market.now partition.now.next out.items) }
{
    let mut out = Vec::new(alloc);
    for x in 0..market.persons() {
        if is_left_out(partition, x) {
            out.push(x)?;
        }
    }
    Ok(out)
}

/// Whether a person isn't alone and has no mate.
fn is_left_out(partition: &Partition, x: u32) -> bool
    requires { x < length partition.now.next }
    ensures { IsTrue result ↔ IsLeftOut partition.now.next partition.now.mates x }
{
    partition.next(x) != x && partition.mate(x).is_none()
}

/// The lines of the answer of `rest`.
pub type RestLines<'a> = Printed<
    'a,
    Then<One, Then<Each<OutLines<'a>>, Then<Each<CoupleLines<'a>>, One>>>,
>;

/// The head, those who are left out, the couples of the others, and `end`. Takes constant time; the lines together take time
/// in proportion to the persons.
pub fn rest_lines<'a>(input: &'a Input, persons: &Persons, rest: &'a Rest) -> RestLines<'a>
    requires input { input.now ≡ Room persons.now }
    requires found { IsRestOf (lists_of persons.now) rest.now.out.items rest.now.mates.items }
    ensures right { (lines : List (List ℕ)) → ⟦<RestLines<'a> as Lines>⟧.gives result lines
        → IsShown input.now (IsRest persons.now) lines }
    ensures some { HasRest (⟦<RestLines<'a> as Lines>⟧.gives result) }
{
    let _persons = persons.persons();
    Printed {
        input,
        answer: Then {
            first: One(Some(Line::Answer(Head::Rest))),
            second: Then {
                first: Each {
                    items: OutLines { out: &rest.out },
                    next: 0,
                },
                second: Then {
                    first: Each {
                        items: CoupleLines { mates: &rest.mates },
                        next: 0,
                    },
                    second: One(Some(Line::End)),
                },
            },
        },
    }
}
