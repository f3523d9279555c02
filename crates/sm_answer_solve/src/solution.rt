//! The answer of `solve`.

ghost use Rattle.std.specs.Prelude.{◌≡◌, ℕ, List, IfOk, unwrap_or};
ghost use Rattle.sm_answer.specs.Giving.{HasRest};
ghost use Rattle.sm_answer.specs.Printing.{IsShown};
ghost use Rattle.sm_instance.specs.Stable.{IsBestOf};
ghost use Rattle.sm_instance.specs.declared.inputs.Input.TheVariants.{Two};
ghost use Rattle.sm_seats.specs.Counted.{AreSeatCounts};
ghost use Rattle.sm_seats.specs.SeatEntries.{AreFewSeats};
ghost use Rattle.sm_answer_solve.specs.Solution.{IsSolution};

use crate::admitting::proposers_best;
use crate::offering::reviewers_best;
use sm_answer::{Each, Lines, MatchingLines, One, PairWord, Printed, Then};
use sm_instance::{Assignment, Input, Instance, Side};
use sm_report::{Head, Line};
use sm_seats::SeatCounts;
use std::alloc::{AllocError, Global};

/// The best stable matching of a side.
#[derive(Drop)]
pub struct Solution {
    pub side: Side,
    pub best: Assignment,
}

/// The best stable matching of a side, of the proposers where no side is named (Gale and Shapley 1962; Gusfield and Irving
/// 1989, sections 1.6.2 and 1.6.3). The counts have to be those of the instance, of few enough seats.
///
/// For the proposers it takes time in proportion to the entries of the instance and to the proposals to seats, and memory in
/// proportion to the proposers and seats; for the reviewers time in proportion to the agents and entries of the instance, and
/// memory in proportion to its agents. To both comes what the cross places of the instance take, where looking for single ones
/// would take longer.
///
/// # Errors
///
/// `AllocError` where memory ran out, and only then.
pub fn find_solution(
    alloc: Global,
    instance: &Instance,
    counts: &SeatCounts,
    side: Option<Side>,
) -> Result<Solution, AllocError>
    requires counts { AreSeatCounts instance.now counts.now }
    requires few { AreFewSeats instance.now }
    ensures side { IfOk result (λ solution. solution.side ≡ unwrap_or side Side.Proposers) }
    ensures best { IfOk result
        (λ solution. IsBestOf solution.side instance.now solution.best.places.items) }
{
    let side = side.unwrap_or(Side::Proposers);
    let best = best_of(alloc, instance, counts, side)?;
    Ok(Solution { side, best })
}

/// The best stable matching of a side.
fn best_of(
    alloc: Global,
    instance: &Instance,
    counts: &SeatCounts,
    side: Side,
) -> Result<Assignment, AllocError>
    requires { AreSeatCounts instance.now counts.now }
    ensures { IfOk result (λ best. IsBestOf side instance.now best.places.items) }
{
    match side {
        Side::Proposers => proposers_best(alloc, instance, counts),
        Side::Reviewers => reviewers_best(alloc, instance),
    }
}

/// The lines of the answer of `solve`.
pub type SolutionLines<'a> = Printed<'a, Then<One, Then<Each<MatchingLines<'a>>, One>>>;

/// The head, the pairs of the best stable matching of a side in the order of the proposers, and `end`. Takes constant time;
/// the lines together take time linear in what they show.
pub fn solution_lines<'a>(
    input: &'a Input,
    instance: &'a Instance,
    solution: &'a Solution,
) -> SolutionLines<'a>
    requires input { input.now ≡ Two instance.now }
    requires best { IsBestOf solution.now.side instance.now solution.now.best.places.items }
    ensures right { (lines : List (List ℕ)) → ⟦<SolutionLines<'a> as Lines>⟧.gives result lines
        → IsShown input.now (IsSolution solution.now.side instance.now) lines }
    ensures some { HasRest (⟦<SolutionLines<'a> as Lines>⟧.gives result) }
{
    let _count = instance.proposer_count();
    Printed {
        input,
        answer: Then {
            first: One(Some(Line::Answer(Head::Solve(Some(solution.side))))),
            second: Then {
                first: Each {
                    items: MatchingLines {
                        word: PairWord::Pair,
                        instance,
                        matching: &solution.best,
                    },
                    next: 0,
                },
                second: One(Some(Line::End)),
            },
        },
    }
}
