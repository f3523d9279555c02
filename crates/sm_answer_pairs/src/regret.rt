//! The answer of `regret`.

ghost use Rattle.std.specs.Prelude.{◌≡◌, ℕ, ◌<◌, List, Option, length, IfOk, MatchOption, Some};
ghost use Rattle.sm_answer.specs.Giving.{HasRest};
ghost use Rattle.sm_answer.specs.Printing.{IsShown};
ghost use Rattle.sm_instance.specs.Stable.{IsStable};
ghost use Rattle.sm_instance.specs.Allowed.{IsAllowed};
ghost use Rattle.sm_instance.specs.Ranks.{worse_rank};
ghost use Rattle.sm_instance.specs.declared.inputs.Input.TheVariants.{Two};
ghost use Rattle.sm_market.specs.Lists.{row};
ghost use Rattle.sm_market.specs.Vectors.{rows_of};
ghost use Rattle.sm_seats.specs.Seating.{seating_of, levels_of, at_places};
ghost use Rattle.sm_seats.specs.Correspondence.{IsSeating, worse_ranks_of};
ghost use Rattle.sm_answer_pairs.specs.RegretAnswer.{IsRegretAnswer};
ghost use Rattle.sm_seats.specs.PlaceWeights.{AreAcceptableAt};
ghost use Rattle.sm_answer_pairs.specs.RegretFound.{IsLeastRegretOfSeats};

use crate::least_regret::LeastRegret;
use sm_answer::{Each, Lines, One, Printed, Then};
use sm_answer_rotations::{PairLines, conditions_of, find_poset};
use sm_instance::{Input, Instance};
use sm_lattice::min_regret;
use sm_least::Least;
use sm_report::{Head, Line};
use sm_seats::Seats;
use std::alloc::{AllocError, Global};

/// The stable matching of the least regret among those that the conditions of an instance allow, and of those that have it the
/// one that is best for all proposers (Gusfield 1987). `None` exactly where no stable matching is allowed.
///
/// Takes the time and the memory of [`find_poset`] and of a dozen searches, as those of [`sm_lattice::min_regret`].
///
/// # Errors
///
/// `AllocError` where memory ran out, and only then.
pub fn find_regret(
    alloc: Global,
    instance: &Instance,
    seats: &Seats,
) -> Result<Option<LeastRegret>, AllocError>
    requires seats { seats.now ≡ seating_of instance.now }
    requires seating { IsSeating instance.now seats.now }
    ensures { IfOk result (λ found. MatchOption found
        ((places : List (Option ℕ)) → IsStable instance.now places
        → ¬ IsAllowed instance.now places)
        (λ f. IsLeastRegretOfSeats instance.now seats.now f)) }
{
    let poset = find_poset(alloc, seats)?;
    let mut least = Least::start(alloc, &poset, seats.levels(alloc)?)?;
    let conditions = conditions_of(alloc, instance)?;
    let ranks = worse_ranks(alloc, instance, seats, least.levels())?;
    match min_regret(alloc, &mut least, &ranks, &conditions)? {
        Some((regret, set)) => {
            let matching = poset.matching_of(alloc, &set)?;
            Ok(Some(LeastRegret { regret, matching }))
        }
        None => Ok(None),
    }
}

/// For each place the greater of the ranks that the proposer and its seat's reviewer give each other, from the levels of the
/// places.
fn worse_ranks(
    alloc: Global,
    instance: &Instance,
    seats: &Seats,
    levels: &[Vec<u32>],
) -> Result<Vec<Vec<u32>>, AllocError>
    requires seats { seats.now ≡ seating_of instance.now }
    requires seating { IsSeating instance.now seats.now }
    requires levels { rows_of levels.now ≡ levels_of seats.now }
    ensures { IfOk result (λ ranks. rows_of ranks.items ≡ worse_ranks_of instance.now seats.now) }
{
    let mut ranks = Vec::with_capacity(alloc, levels.len())?;
    for p in 0..instance.proposer_count() {
        ranks.push(ranks_of(alloc, instance, seats, p, &levels[p as usize])?)?;
    }
    Ok(ranks)
}

/// The same for the places of one proposer, whose levels these are. The places of one level stand behind one another, so that a
/// rank is looked up once for each.
fn ranks_of(
    alloc: Global,
    instance: &Instance,
    seats: &Seats,
    p: u32,
    levels: &[u32],
) -> Result<Vec<u32>, AllocError>
    requires seating { IsSeating instance.now seats.now }
    requires in_range { p < length instance.now.proposers }
    requires levels { levels.now ≡ row (levels_of seats.now) p }
    requires acceptable { AreAcceptableAt instance.now seats.now p }
    ensures { IfOk result (λ ranks. ranks.items ≡ at_places seats.now
        (λ p i. worse_rank instance.now p (Some i)) p) }
{
    let places = seats.market().proposer_len(p);
    let mut ranks = Vec::with_capacity(alloc, places as usize)?;
    // No level is 0, so that the first one is looked up.
    let mut last = 0;
    let mut rank = 0;
    for i in 0..places {
        let level = levels[i as usize];
        if level != last {
            last = level;
            rank = instance.worse_rank(p, level - 1);
        }
        ranks.push_reserved(rank);
    }
    Ok(ranks)
}

/// The lines of the answer of `regret`.
pub type RegretLines<'a> = Printed<'a, Then<One, Then<One, Then<Each<PairLines<'a>>, One>>>>;

/// The head, the least regret, the pairs of its matching in the order of the proposers, and `end`. Takes constant time; the
/// lines together take time linear in what they show.
pub fn regret_lines<'a>(
    input: &'a Input,
    instance: &Instance,
    seats: &'a Seats,
    found: &'a LeastRegret,
) -> RegretLines<'a>
    requires input { input.now ≡ Two instance.now }
    requires seating { IsSeating instance.now seats.now }
    requires found { IsLeastRegretOfSeats instance.now seats.now found.now }
    ensures right { (lines : List (List ℕ)) → ⟦<RegretLines<'a> as Lines>⟧.gives result lines
        → IsShown input.now (IsRegretAnswer instance.now) lines }
    ensures some { HasRest (⟦<RegretLines<'a> as Lines>⟧.gives result) }
{
    let _count = instance.proposer_count();
    Printed {
        input,
        answer: Then {
            first: One(Some(Line::Answer(Head::Regret))),
            second: Then {
                first: One(Some(Line::Regret(found.regret))),
                second: Then {
                    first: Each {
                        items: PairLines {
                            seats,
                            pairing: &found.matching,
                        },
                        next: 0,
                    },
                    second: One(Some(Line::End)),
                },
            },
        },
    }
}
