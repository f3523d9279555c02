//! The answers of `meet` and `join`.

ghost use Rattle.std.specs.Prelude.{◌≡◌, ◌<◌, ℕ, List};
ghost use Rattle.sm_answer.specs.Giving.{HasRest};
ghost use Rattle.sm_answer.specs.Printing.{IsShown};
ghost use Rattle.sm_instance.specs.Matching.{IsAssignment};
ghost use Rattle.sm_instance.specs.declared.inputs.Input.TheVariants.{Two};
ghost use Rattle.sm_answer_given.specs.Given.{AreStableGiven};
ghost use Rattle.sm_holding.specs.Chosen.{chosen_places, head_for};
ghost use Rattle.sm_answer_given.specs.Chosen.{IsChosenAnswer};
ghost use Rattle.sm_report.specs.Heads.{head_of};

use crate::given::Given;
use sm_answer::{Each, Lines, MatchingLines, One, PairWord, Printed, Then};
use sm_instance::{Assignment, Input, Instance};
use sm_report::{Head, Line};
use sm_theory::Choice;

/// The lines of the answers of `meet` and `join`.
pub type ChosenLines<'a> = Printed<
    'a,
    Then<
        One,
        Then<
            Each<MatchingLines<'a>>,
            Then<Each<MatchingLines<'a>>, Then<Each<MatchingLines<'a>>, One>>,
        >,
    >,
>;

/// The head, the pairs of the two matchings and of the chosen one, each in the order of the proposers, and `end`. Takes constant
/// time; the lines together take time linear in what they show.
pub fn chosen_lines<'a>(
    input: &'a Input,
    instance: &'a Instance,
    choice: Choice,
    given: &'a Given,
    chosen: &'a Assignment,
) -> ChosenLines<'a>
    requires input { input.now ≡ Two instance.now }
    requires left { IsAssignment instance.now given.now.left.places.items }
    requires right { IsAssignment instance.now given.now.right.places.items }
    requires chosen { chosen.now.places.items
        ≡ chosen_places choice instance.now given.now.left.places.items
        given.now.right.places.items }
    ensures right { (texts : List (List ℕ)) → AreStableGiven instance.now texts given.now
        → (lines : List (List ℕ)) → ⟦<ChosenLines<'a> as Lines>⟧.gives result lines
        → IsShown input.now (IsChosenAnswer choice texts instance.now) lines }
    ensures some { HasRest (⟦<ChosenLines<'a> as Lines>⟧.gives result) }
{
    let _count = instance.proposer_count();
    Printed {
        input,
        answer: Then {
            first: One(Some(Line::Answer(head_for(choice)))),
            second: Then {
                first: Each {
                    items: MatchingLines {
                        word: PairWord::Left,
                        instance,
                        matching: &given.left,
                    },
                    next: 0,
                },
                second: Then {
                    first: Each {
                        items: MatchingLines {
                            word: PairWord::Right,
                            instance,
                            matching: &given.right,
                        },
                        next: 0,
                    },
                    second: Then {
                        first: Each {
                            items: MatchingLines {
                                word: PairWord::Pair,
                                instance,
                                matching: chosen,
                            },
                            next: 0,
                        },
                        second: One(Some(Line::End)),
                    },
                },
            },
        },
    }
}

/// The head of an answer.
fn head_for(choice: Choice) -> Head
    ensures { head_of result ≡ head_for choice }
{
    match choice {
        Choice::Better => Head::Meet,
        Choice::Worse => Head::Join,
    }
}
