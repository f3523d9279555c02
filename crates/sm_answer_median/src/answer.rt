//! The answer of `median`.

ghost use Rattle.std.specs.Prelude.{◌≡◌, ℕ, List, Option, IfOk, IfErr, MatchOption};
ghost use Rattle.sm_answer.specs.Giving.{HasRest};
ghost use Rattle.sm_answer.specs.Printing.{IsShown};
ghost use Rattle.sm_instance.specs.Stable.{IsStable};
ghost use Rattle.sm_instance.specs.Allowed.{IsAllowed};
ghost use Rattle.sm_instance.specs.declared.inputs.Input.TheVariants.{Two};
ghost use Rattle.sm_seats.specs.Seating.{seating_of};
ghost use Rattle.sm_seats.specs.Correspondence.{IsSeating};
ghost use Rattle.sm_answer_median.specs.MedianAnswer.{IsMedianAnswer};
ghost use Rattle.sm_answer_median.specs.Found.{IsMedianFound, IsMedianFault};

use crate::counting::{middle_places, no_counts};
use crate::faults::MedianFault;
use crate::median::Median;
use crate::walking::count_listed;
use sm_answer::{Each, Lines, MatchingLines, One, PairWord, Printed, Then};
use sm_answer_list::start_list;
use sm_instance::{Assignment, Input, Instance};
use sm_report::{Head, Line};
use sm_seats::Seats;
use std::alloc::Global;

/// The stable matching that gives each proposer the partner in the middle when its partners in all stable matchings that the
/// conditions of an instance allow stand best first with repeats; of an even number the better one of two. It is stable and
/// allowed (Teo and Sethuraman 1998). `None` exactly where no stable matching is allowed.
///
/// Takes the time and the memory of [`start_list`], and for each proposer a number for each entry on its list and two more; and
/// then for each allowed stable matching the time of a step of the lister, and time in proportion to the proposers.
///
/// # Errors
///
/// `TooMany` exactly where more than [`crate::MOST_LISTED`] stable matchings are allowed. `OutOfMemory` where memory ran out.
pub fn find_median(
    alloc: Global,
    instance: &Instance,
    seats: &Seats,
) -> Result<Option<Median>, MedianFault>
    requires seats { seats.now ≡ seating_of instance.now }
    requires seating { IsSeating instance.now seats.now }
    ensures found { IfOk result (λ found. MatchOption found
        ((places : List (Option ℕ)) → IsStable instance.now places
        → ¬ IsAllowed instance.now places)
        (λ m. IsMedianFound instance.now m)) }
    ensures fault { IfErr result (λ f. IsMedianFault instance.now f) }
{
    let mut lister = start_list(alloc, instance, seats, &None)?;
    let mut counts = no_counts(alloc, instance)?;
    let listed = count_listed(&mut lister, &mut counts, instance)?;
    if listed == 0 {
        return Ok(None);
    }
    let places = middle_places(alloc, instance, &counts, listed)?;
    Ok(Some(Median {
        listed,
        matching: Assignment { places },
    }))
}

/// The lines of the answer of `median`.
pub type MedianLines<'a> = Printed<'a, Then<One, Then<One, Then<Each<MatchingLines<'a>>, One>>>>;

/// The head, how many stable matchings are allowed, the pairs of the median in the order of the proposers, and `end`. Takes
/// constant time; the lines together take time linear in what they show.
pub fn median_lines<'a>(
    input: &'a Input,
    instance: &'a Instance,
    found: &'a Median,
) -> MedianLines<'a>
    requires input { input.now ≡ Two instance.now }
    requires found { IsMedianFound instance.now found.now }
    ensures right { (lines : List (List ℕ)) → ⟦<MedianLines<'a> as Lines>⟧.gives result lines
        → IsShown input.now (IsMedianAnswer instance.now) lines }
    ensures some { HasRest (⟦<MedianLines<'a> as Lines>⟧.gives result) }
{
    let _count = instance.proposer_count();
    Printed {
        input,
        answer: Then {
            first: One(Some(Line::Answer(Head::Median))),
            second: Then {
                first: One(Some(Line::Listed(found.listed))),
                second: Then {
                    first: Each {
                        items: MatchingLines {
                            word: PairWord::Pair,
                            instance,
                            matching: &found.matching,
                        },
                        next: 0,
                    },
                    second: One(Some(Line::End)),
                },
            },
        },
    }
}
