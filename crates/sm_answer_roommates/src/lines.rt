//! The answer of `solve` for roommates, with couples or with parties.

ghost use Rattle.std.specs.Prelude.{◌≡◌, ℕ, List, All};
ghost use Rattle.sm_answer.specs.Giving.{HasRest};
ghost use Rattle.sm_answer.specs.Lines.{line_left};
ghost use Rattle.sm_answer.specs.Printing.{IsShown};
ghost use Rattle.sm_lists.specs.Rows.{rows_of};
ghost use Rattle.sm_agents.specs.Written.{lists_of};
ghost use Rattle.sm_instance.specs.declared.inputs.Input.TheVariants.{Room};
ghost use Rattle.sm_report.specs.Sound.{IsLineOf};
ghost use Rattle.sm_theory.specs.Rooms.{IsRoomStable};
ghost use Rattle.sm_answer_roommates.specs.RoomAnswer.{answer_lines, AreExcluding, IsMatched, IsUnmatchable};

use crate::numbered::{CoupleLines, PartyLines};
use sm_answer::{Each, Lines, Numbered, One, Printed, Then};
use sm_instance::{Input, Persons};
use sm_report::{Head, Line};

/// The lines of an answer of `solve` for roommates: the head, `none` where there is no stable matching, the lines of the
/// couples or the parties, and `end`.
pub type RoomLines<'a, T> = Printed<'a, Then<One, Then<One, Then<Each<T>, One>>>>;

/// The head, the couples of a stable matching, and `end`. Takes constant time; the lines together take time linear in what they
/// show.
pub fn couple_lines<'a>(
    input: &'a Input,
    persons: &Persons,
    mates: &'a [Option<u32>],
) -> RoomLines<'a, CoupleLines<'a>>
    requires input { input.now ≡ Room persons.now }
    requires stable { IsRoomStable (lists_of persons.now) mates.now }
    ensures right { (lines : List (List ℕ)) → ⟦<RoomLines<'a, CoupleLines<'a>> as Lines>⟧.gives
        result lines
        → IsShown input.now (IsMatched persons.now) lines }
    ensures some { HasRest (⟦<RoomLines<'a, CoupleLines<'a>> as Lines>⟧.gives result) }
{
    let _persons = persons.persons();
    room_lines(input, None, CoupleLines { mates })
}

/// The head, `none`, the parties of a stable partition that has an odd one of three or more, and `end`. Takes constant time; the
/// lines together take time linear in what they show.
pub fn party_lines<'a>(
    input: &'a Input,
    persons: &Persons,
    parties: &'a [Vec<u32>],
) -> RoomLines<'a, PartyLines<'a>>
    requires input { input.now ≡ Room persons.now }
    requires excluding { AreExcluding (lists_of persons.now) (rows_of parties.now) }
    ensures right { (lines : List (List ℕ)) → ⟦<RoomLines<'a, PartyLines<'a>> as Lines>⟧.gives
        result lines
        → IsShown input.now (IsUnmatchable persons.now) lines }
    ensures some { HasRest (⟦<RoomLines<'a, PartyLines<'a>> as Lines>⟧.gives result) }
{
    let _persons = persons.persons();
    room_lines(input, Some(Line::Nothing), PartyLines { parties })
}

/// The head, what is said of there being no stable matching, the lines of the items, and `end`.
fn room_lines<'a, T: Numbered>(input: &'a Input, none: Option<Line>, items: T) -> RoomLines<'a, T>
    requires sound { All (IsLineOf input.now) (answer_lines (line_left none) (T.line items)
        (T.count items)) }
    ensures right { (lines : List (List ℕ)) → ⟦<RoomLines<'a, T> as Lines>⟧.gives result lines
        → IsShown input.now (λ answer. answer ≡ answer_lines (line_left none) (T.line items)
        (T.count items)) lines }
    ensures some { HasRest (⟦<RoomLines<'a, T> as Lines>⟧.gives result) }
{
    Printed {
        input,
        answer: Then {
            first: One(Some(Line::Answer(Head::Solve(None)))),
            second: Then {
                first: One(none),
                second: Then {
                    first: Each { items, next: 0 },
                    second: One(Some(Line::End)),
                },
            },
        },
    }
}
