//! The answer of `route`.

ghost use Rattle.std.specs.Prelude.{◌≡◌, ℕ, List, IfOk};
ghost use Rattle.sm_answer.specs.Giving.{HasRest};
ghost use Rattle.sm_answer.specs.Printing.{IsShown};
ghost use Rattle.sm_instance.specs.Matching.{IsAssignment};
ghost use Rattle.sm_instance.specs.Stable.{IsStable};
ghost use Rattle.sm_instance.specs.declared.inputs.Input.TheVariants.{Two};
ghost use Rattle.sm_seats.specs.Seating.{seating_of};
ghost use Rattle.sm_seats.specs.Correspondence.{IsSeating};
ghost use Rattle.sm_report.specs.Lines.{LineData};
ghost use Rattle.sm_answer_given.specs.Given.{AreStableGiven};
ghost use Rattle.sm_answer_route.specs.RouteAnswer.{given_pairs, IsRouteAnswer};
ghost use Rattle.sm_answer_route.specs.RouteFound.{IsRouteFound};

use crate::found::FoundRoute;
use crate::seated::set_for;
use crate::step_lines::StepLines;
use sm_answer::{Answer, Each, Lines, MatchingLines, One, PairWord, Printed, Then};
use sm_answer_given::Given;
use sm_answer_rotations::{RotationLines, Rotations, SeatLines, find_poset};
use sm_instance::{Input, Instance, Side};
use sm_lattice::route;
use sm_report::{Head, Line};
use sm_seats::Seats;
use std::alloc::{AllocError, Global};

/// The rotations of an instance, and the fewest steps from the left one of two stable matchings to the right one: `Back` for
/// each rotation that leads to the left matching alone, highest number first, and then `Forth` for each that leads to the right
/// one alone, lowest first. Each matching on the way is a stable one of the seats.
///
/// Takes the time and the memory of [`find_poset`], of [`Seats::to_seats`] and of [`sm_poset::Poset::set_of`] for both matchings,
/// and of [`sm_lattice::route`].
///
/// # Errors
///
/// `AllocError` where memory ran out, and only then.
pub fn find_route(
    alloc: Global,
    instance: &Instance,
    seats: &Seats,
    given: &Given,
) -> Result<FoundRoute, AllocError>
    requires seats { seats.now ≡ seating_of instance.now }
    requires seating { IsSeating instance.now seats.now }
    requires left { IsStable instance.now given.now.left.places.items }
    requires right { IsStable instance.now given.now.right.places.items }
    ensures { IfOk result (λ found. IsRouteFound instance.now given.now found) }
{
    let poset = find_poset(alloc, seats)?;
    let left = set_for(alloc, instance, seats, &poset, &given.left)?;
    let right = set_for(alloc, instance, seats, &poset, &given.right)?;
    let steps = route(alloc, &poset, &left, &right)?;
    Ok(FoundRoute { poset, steps })
}

/// The lines of the two matchings.
type BothMatchings<'a> = Then<Each<MatchingLines<'a>>, Each<MatchingLines<'a>>>;

/// The lines of the first seats, of the rotations and of the steps, and the end.
type SeatsAndSteps<'a> = Then<
    Each<SeatLines<'a>>,
    Then<RotationLines<'a>, Then<StepLines<'a>, One>>,
>;

/// The lines of the answer of `route`.
pub type RouteLines<'a> = Printed<'a, Then<One, Then<BothMatchings<'a>, SeatsAndSteps<'a>>>>;

/// The head, the pairs of both matchings in the order of the proposers, the first seats, for each rotation of the chain its
/// pairs and what it needs, the steps, and `end`. Takes constant time; the lines together take time linear in what they show.
pub fn route_lines<'a>(
    input: &'a Input,
    instance: &'a Instance,
    seats: &'a Seats,
    given: &'a Given,
    found: &'a FoundRoute,
) -> RouteLines<'a>
    requires input { input.now ≡ Two instance.now }
    requires seats { seats.now ≡ seating_of instance.now }
    requires seating { IsSeating instance.now seats.now }
    requires left { IsAssignment instance.now given.now.left.places.items }
    requires right { IsAssignment instance.now given.now.right.places.items }
    requires found { IsRouteFound instance.now given.now found.now }
    ensures right { (texts : List (List ℕ)) → AreStableGiven instance.now texts given.now
        → (lines : List (List ℕ)) → ⟦<RouteLines<'a> as Lines>⟧.gives result lines
        → IsShown input.now (IsRouteAnswer texts instance.now) lines }
    ensures some { HasRest (⟦<RouteLines<'a> as Lines>⟧.gives result) }
{
    let _count = instance.proposer_count();
    let chain = found.poset.chain();
    let needs = found.poset.all_needs();
    Printed {
        input,
        answer: Then {
            first: One(Some(Line::Answer(Head::Route))),
            second: Then {
                first: both_matchings(instance, given),
                second: Then {
                    first: Each {
                        items: SeatLines {
                            side: Side::Proposers,
                            seats,
                            pairing: &chain.first,
                        },
                        next: 0,
                    },
                    second: Then {
                        first: RotationLines {
                            rows: Rotations {
                                seats,
                                rotations: &chain.rotations,
                                needs,
                            },
                            next: 0,
                            halfway: false,
                        },
                        second: Then {
                            first: StepLines {
                                steps: &found.steps,
                            },
                            second: One(Some(Line::End)),
                        },
                    },
                },
            },
        },
    }
}

/// The pairs of the left matching, and then those of the right one.
fn both_matchings<'a>(instance: &'a Instance, given: &'a Given) -> BothMatchings<'a>
    requires left { IsAssignment instance.now given.now.left.places.items }
    requires right { IsAssignment instance.now given.now.right.places.items }
    ensures all { (rest : List LineData) → ⟦<BothMatchings<'a> as Answer>⟧.gives result rest → rest
        ≡ given_pairs instance.now given.now.left.places.items given.now.right.places.items }
    ensures some { HasRest (⟦<BothMatchings<'a> as Answer>⟧.gives result) }
{
    Then {
        first: Each {
            items: MatchingLines {
                word: PairWord::Left,
                instance,
                matching: &given.left,
            },
            next: 0,
        },
        second: Each {
            items: MatchingLines {
                word: PairWord::Right,
                instance,
                matching: &given.right,
            },
            next: 0,
        },
    }
}
