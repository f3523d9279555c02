//! The answer of `weight`.

ghost use Rattle.std.specs.Prelude.{◌≡◌, ℕ, List};
ghost use Rattle.sm_answer.specs.Giving.{HasRest};
ghost use Rattle.sm_answer.specs.Printing.{IsShown};
ghost use Rattle.sm_instance.specs.declared.inputs.Input.TheVariants.{Two};
ghost use Rattle.sm_seats.specs.Seating.{seating_of};
ghost use Rattle.sm_seats.specs.Correspondence.{IsSeating};
ghost use Rattle.sm_answer_weight.specs.WeightAnswer.{IsWeightAnswer};
ghost use Rattle.sm_answer_weight.specs.Found.{IsLightestOfSeats};

use crate::figures::{Figures, FlowLines};
use crate::gained_lines::{GainedLines, RotationPart};
use crate::lightest_parts::Lightest;
use sm_answer::{Each, Lines, One, Printed, Then};
use sm_answer_rotations::{PairLines, Rotations, SeatLines};
use sm_instance::{Input, Instance, Side};
use sm_report::{Head, Line};
use sm_seats::Seats;
use sm_theory::FlowLevel;

/// The lines of the answer of `weight`.
pub type LightestLines<'a> = Printed<
    'a,
    Then<
        One,
        Then<
            Each<SeatLines<'a>>,
            Then<
                GainedLines<'a>,
                Then<
                    FlowLines<'a>,
                    Then<FlowLines<'a>, Then<Each<Figures<'a>>, Then<Each<PairLines<'a>>, One>>>,
                >,
            >,
        >,
    >,
>;

/// The head; the first seats; for each rotation of the chain its pairs, what it needs and its gains; the flow, and in two levels
/// the second one; the set that is taken, the flow's value, the set's cut and the weight of its matching, and in two levels the
/// same by second weights; the pairs of the matching, in the order of the proposers; and `end`. Takes constant time; the lines
/// together take time linear in what they show.
pub fn lightest_lines<'a>(
    input: &'a Input,
    instance: &Instance,
    seats: &'a Seats,
    found: &'a Lightest,
) -> LightestLines<'a>
    requires input { input.now ≡ Two instance.now }
    requires seats { seats.now ≡ seating_of instance.now }
    requires seating { IsSeating instance.now seats.now }
    requires found { IsLightestOfSeats instance.now seats.now found.now }
    ensures right { (lines : List (List ℕ)) → ⟦<LightestLines<'a> as Lines>⟧.gives result lines
        → IsShown input.now (IsWeightAnswer found.now.by instance.now) lines }
    ensures some { HasRest (⟦<LightestLines<'a> as Lines>⟧.gives result) }
{
    let _count = instance.proposer_count();
    let chain = found.poset.chain();
    let needs = found.poset.all_needs();
    let sink = chain.rotations.len() as u32 + 1;
    Printed {
        input,
        answer: Then {
            first: One(Some(Line::Answer(Head::Weight(found.by)))),
            second: Then {
                first: Each {
                    items: SeatLines {
                        side: Side::Proposers,
                        seats,
                        pairing: &chain.first,
                    },
                    next: 0,
                },
                second: Then {
                    first: GainedLines {
                        rows: Rotations {
                            seats,
                            rotations: &chain.rotations,
                            needs,
                        },
                        found,
                        next: 0,
                        part: RotationPart::Pairs,
                    },
                    second: Then {
                        first: FlowLines {
                            found,
                            level: FlowLevel::First,
                            sink,
                            next: 0,
                        },
                        second: Then {
                            first: FlowLines {
                                found,
                                level: FlowLevel::Second,
                                sink,
                                next: 0,
                            },
                            second: Then {
                                first: Each {
                                    items: Figures { found },
                                    next: 0,
                                },
                                second: Then {
                                    first: Each {
                                        items: PairLines {
                                            seats,
                                            pairing: &found.matching,
                                        },
                                        next: 0,
                                    },
                                    second: One(Some(Line::End)),
                                },
                            },
                        },
                    },
                },
            },
        },
    }
}
