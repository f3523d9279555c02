//! The answer of `rotations`.

ghost use Rattle.std.specs.Prelude.{◌≡◌, ℕ, List};
ghost use Rattle.sm_answer.specs.Giving.{HasRest};
ghost use Rattle.sm_answer.specs.Printing.{IsShown};
ghost use Rattle.sm_instance.specs.declared.inputs.Input.TheVariants.{Two};
ghost use Rattle.sm_seats.specs.Seating.{seating_of};
ghost use Rattle.sm_seats.specs.Correspondence.{IsSeating};
ghost use Rattle.sm_answer_rotations.specs.Found.{AreRotationsOf};
ghost use Rattle.sm_answer_rotations.specs.RotationAnswer.{IsRotationAnswer};

use crate::rotation_lines::{RotationLines, Rotations};
use crate::seat_lines::SeatLines;
use sm_answer::{Each, Lines, One, Printed, Then};
use sm_instance::{Input, Instance, Side};
use sm_report::{Head, Line};
use sm_rotations::ChainWithNeeds;
use sm_seats::Seats;

/// The lines of the answer of `rotations`.
pub type RotationAnswerLines<'a> = Printed<
    'a,
    Then<One, Then<Each<SeatLines<'a>>, Then<RotationLines<'a>, One>>>,
>;

/// The head, the first seats, for each rotation of the chain its pairs and what it needs (Gusfield and Irving 1989, section
/// 2.5), and `end`. Takes constant time; the lines together take time linear in what they show.
pub fn rotation_answer_lines<'a>(
    input: &'a Input,
    instance: &Instance,
    seats: &'a Seats,
    found: &'a ChainWithNeeds,
) -> RotationAnswerLines<'a>
    requires input { input.now ≡ Two instance.now }
    requires seats { seats.now ≡ seating_of instance.now }
    requires seating { IsSeating instance.now seats.now }
    requires rotations { AreRotationsOf seats.now.market found.now }
    ensures right { (lines : List (List ℕ)) → ⟦<RotationAnswerLines<'a> as Lines>⟧.gives result
        lines
        → IsShown input.now (IsRotationAnswer instance.now) lines }
    ensures some { HasRest (⟦<RotationAnswerLines<'a> as Lines>⟧.gives result) }
{
    let _count = instance.proposer_count();
    Printed {
        input,
        answer: Then {
            first: One(Some(Line::Answer(Head::Rotations))),
            second: Then {
                first: Each {
                    items: SeatLines {
                        side: Side::Proposers,
                        seats,
                        pairing: &found.chain.first,
                    },
                    next: 0,
                },
                second: Then {
                    first: RotationLines {
                        rows: Rotations {
                            seats,
                            rotations: &found.chain.rotations,
                            needs: &found.needs,
                        },
                        next: 0,
                        halfway: false,
                    },
                    second: One(Some(Line::End)),
                },
            },
        },
    }
}
