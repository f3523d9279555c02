//! The answer of `list`.

ghost use Rattle.std.specs.Prelude.{◌≡◌, ◌≤◌, ℕ, List, IfOk};
ghost use Rattle.sm_text.specs.Limits.{most_limit};
ghost use Rattle.sm_answer.specs.Giving.{HasRest};
ghost use Rattle.sm_answer.specs.Printing.{IsShown};
ghost use Rattle.sm_instance.specs.declared.inputs.Input.TheVariants.{Two};
ghost use Rattle.sm_answer_list.specs.ListAnswer.{IsListAnswer};
ghost use Rattle.sm_answer_list.specs.Started.{cursor_in, IsListerOf};

use crate::listed::Listed;
use sm_answer::Lines;
use sm_answer_vectors::{ListLines, list_vectors};
use sm_instance::{Input, Instance};
use sm_lister::Lister;
use std::alloc::{AllocError, Global};

/// The head, the rank vectors that a lister finds behind `after`, at most `limit`, and the last line. The lister is one of
/// [`crate::start_list`] that made no step yet.
///
/// Each vector is found when its line is asked for. Takes time and memory in proportion to `after`.
///
/// # Errors
///
/// `AllocError` where memory ran out, and only then; the lister is dropped.
pub fn list_lines<'a>(
    alloc: Global,
    input: &'a Input,
    instance: &Instance,
    lister: Lister,
    after: &Option<Vec<u32>>,
    limit: u32,
) -> Result<ListLines<'a, Listed>, AllocError>
    requires input { input.now ≡ Two instance.now }
    requires lister { IsListerOf instance.now (cursor_in after.now) lister }
    requires least { 1 ≤ limit }
    requires greatest { limit ≤ most_limit }
    ensures right { IfOk result (λ made. (lines : List (List ℕ))
        → ⟦<ListLines<'a, Listed> as Lines>⟧.gives made lines
        → IsShown input.now (IsListAnswer (cursor_in after.now) limit instance.now) lines) }
    ensures some { IfOk result (λ made. HasRest (⟦<ListLines<'a, Listed> as Lines>⟧.gives made)) }
{
    let _count = instance.proposer_count();
    list_vectors(alloc, input, Listed(lister), after, limit)
}
