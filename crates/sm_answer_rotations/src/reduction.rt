//! The answer of `reduced`.

ghost use Rattle.std.specs.Prelude.{◌≡◌, ◌<◌, ℕ, List, length, IfOk};
ghost use Rattle.sm_answer.specs.Giving.{HasRest};
ghost use Rattle.sm_answer.specs.Printing.{IsShown};
ghost use Rattle.sm_instance.specs.declared.inputs.Input.TheVariants.{Two};
ghost use Rattle.sm_market.specs.Vectors.{lists_of};
ghost use Rattle.sm_report.specs.Lines.{LineData};
ghost use Rattle.sm_answer_rotations.specs.GivenLines.{seats_given, rows_given};
ghost use Rattle.sm_seats.specs.Seating.{seating_of};
ghost use Rattle.sm_seats.specs.Correspondence.{IsSeating};
ghost use Rattle.sm_answer_rotations.specs.Reduction.{IsReduction};
ghost use Rattle.sm_answer_rotations.specs.Found.{IsReductionOf};

use crate::list_lines::{ProposerLists, ReviewerLists};
use crate::seat_lines::SeatLines;
use sm_accept::{Reduced, proposer_best, reduced_between, reviewer_best};
use sm_answer::{Answer, Each, Lines, One, Printed, Then};
use sm_instance::{Input, Instance, Side};
use sm_market::Pairing;
use sm_report::{Head, Line};
use sm_seats::Seats;
use std::alloc::{AllocError, Global};

/// The first and the last stable matching of seats, and the reduced lists.
#[derive(Drop)]
pub struct Reduction {
    /// The matching that is best for all proposers.
    pub first: Pairing,
    /// The one that is best for all reviewers.
    pub last: Pairing,
    /// The reduced lists of both sides, between these two.
    pub lists: Reduced,
}

/// Both best stable matchings, and the reduced lists of the seats (Gusfield and Irving 1989, section 1.2.4). Takes time and
/// memory linear in the entries of the seats' market.
///
/// # Errors
///
/// `AllocError` where memory ran out, and only then.
pub fn find_reduction(alloc: Global, seats: &Seats) -> Result<Reduction, AllocError>
    ensures { IfOk result (λ reduction. IsReductionOf seats.now.market reduction) }
{
    let market = seats.market();
    let first = proposer_best(alloc, market)?;
    let last = reviewer_best(alloc, market)?;
    let lists = reduced_between(alloc, market, &first, &last)?;
    Ok(Reduction { first, last, lists })
}

/// The lines of the seats of a reduction.
type BothSeats<'a> = Then<Each<SeatLines<'a>>, Each<SeatLines<'a>>>;

/// The lines of its lists, and the end.
type BothLists<'a> = Then<Each<ProposerLists<'a>>, Then<Each<ReviewerLists<'a>>, One>>;

/// The lines of the answer of `reduced`.
pub type ReductionLines<'a> = Printed<'a, Then<One, Then<BothSeats<'a>, BothLists<'a>>>>;

/// The head, the first and the last seats, the reduced lists of both sides, and `end`. Takes constant time; the lines together
/// take time linear in what they show.
pub fn reduction_lines<'a>(
    input: &'a Input,
    instance: &Instance,
    seats: &'a Seats,
    reduction: &'a Reduction,
) -> ReductionLines<'a>
    requires input { input.now ≡ Two instance.now }
    requires seats { seats.now ≡ seating_of instance.now }
    requires seating { IsSeating instance.now seats.now }
    requires reduction { IsReductionOf seats.now.market reduction.now }
    ensures right { (lines : List (List ℕ)) → ⟦<ReductionLines<'a> as Lines>⟧.gives result lines
        → IsShown input.now (IsReduction instance.now) lines }
    ensures some { HasRest (⟦<ReductionLines<'a> as Lines>⟧.gives result) }
{
    let _count = instance.proposer_count();
    Printed {
        input,
        answer: Then {
            first: One(Some(Line::Answer(Head::Reduced))),
            second: Then {
                first: both_seats(seats, reduction),
                second: both_lists(seats, reduction),
            },
        },
    }
}

/// The first seats, and the last seats.
fn both_seats<'a>(seats: &'a Seats, reduction: &'a Reduction) -> BothSeats<'a>
    requires one_each { length seats.now.market.reviewers ≡ length seats.now.seats }
    requires reduction { IsReductionOf seats.now.market reduction.now }
    ensures all { (rest : List LineData) → ⟦<BothSeats<'a> as Answer>⟧.gives result rest
        → rest ≡ seats_given seats.now reduction.now.first.places reduction.now.last.places }
    ensures some { HasRest (⟦<BothSeats<'a> as Answer>⟧.gives result) }
{
    Then {
        first: Each {
            items: SeatLines {
                side: Side::Proposers,
                seats,
                pairing: &reduction.first,
            },
            next: 0,
        },
        second: Each {
            items: SeatLines {
                side: Side::Reviewers,
                seats,
                pairing: &reduction.last,
            },
            next: 0,
        },
    }
}

/// The reduced lists of both sides, and the end.
fn both_lists<'a>(seats: &'a Seats, reduction: &'a Reduction) -> BothLists<'a>
    requires one_each { length seats.now.market.reviewers ≡ length seats.now.seats }
    requires reduction { IsReductionOf seats.now.market reduction.now }
    ensures all { (rest : List LineData) → ⟦<BothLists<'a> as Answer>⟧.gives result rest
        → rest ≡ rows_given seats.now
        (lists_of reduction.now.lists.proposers.items reduction.now.lists.reviewers.items) }
    ensures some { HasRest (⟦<BothLists<'a> as Answer>⟧.gives result) }
{
    let _count = seats.market().proposers();
    Then {
        first: Each {
            items: ProposerLists {
                seats,
                rows: &reduction.lists.proposers,
            },
            next: 0,
        },
        second: Then {
            first: Each {
                items: ReviewerLists {
                    seats,
                    rows: &reduction.lists.reviewers,
                },
                next: 0,
            },
            second: One(Some(Line::End)),
        },
    }
}
