//! The answer of a command where nothing is allowed.

ghost use Rattle.std.specs.Prelude.{◌≡◌, ℕ, List, Option};
ghost use Rattle.sm_answer.specs.Giving.{HasRest};
ghost use Rattle.sm_answer.specs.Printing.{IsShown};
ghost use Rattle.sm_instance.specs.Stable.{IsStable};
ghost use Rattle.sm_instance.specs.Allowed.{IsAllowed};
ghost use Rattle.sm_instance.specs.declared.inputs.Input.TheVariants.{Two};
ghost use Rattle.sm_report.specs.Heads.{head_of};
ghost use Rattle.sm_report.specs.Sound.{IsHeadOf};
ghost use Rattle.sm_answer_rotations.specs.NoneAnswer.{IsNoneAllowed};

use sm_answer::{Lines, One, Printed, Then};
use sm_instance::{Input, Instance};
use sm_report::{Head, Line};

/// The lines of the answer of a command where nothing is allowed.
pub type NoneLines<'a> = Printed<'a, Then<One, Then<One, One>>>;

/// The head, `none`, and `end`. Takes constant time, and so do the lines.
pub fn none_lines<'a>(input: &'a Input, instance: &Instance, head: Head) -> NoneLines<'a>
    requires input { input.now ≡ Two instance.now }
    requires head { IsHeadOf instance.now.kind (head_of head) }
    requires none { (places : List (Option ℕ)) → IsStable instance.now places
        → ¬ IsAllowed instance.now places }
    ensures right { (lines : List (List ℕ)) → ⟦<NoneLines<'a> as Lines>⟧.gives result lines
        → IsShown input.now (IsNoneAllowed (head_of head) instance.now) lines }
    ensures some { HasRest (⟦<NoneLines<'a> as Lines>⟧.gives result) }
{
    Printed {
        input,
        answer: Then {
            first: One(Some(Line::Answer(head))),
            second: Then {
                first: One(Some(Line::Nothing)),
                second: One(Some(Line::End)),
            },
        },
    }
}
