//! The answer that lists vectors.

ghost use Rattle.std.specs.Prelude.{◌≡◌, ◌≤◌, ℕ, List, IfOk, All};
ghost use Rattle.sm_text.specs.Limits.{most_limit};
ghost use Rattle.sm_answer.specs.Giving.{HasRest};
ghost use Rattle.sm_answer.specs.Printing.{IsShown};
ghost use Rattle.sm_report.specs.Sound.{IsSmall};
ghost use Rattle.sm_answer_vectors.specs.Stepping.{HaveNext};
ghost use Rattle.sm_answer_vectors.specs.VectorAnswer.{cursor_in, IsVectorAnswer};

use crate::cursors::copy_of_cursor;
use crate::vector_lines::VectorLines;
use crate::vector_text::VectorText;
use crate::vectors::Vectors;
use sm_answer::Lines;
use sm_instance::Input;
use sm_report::{Head, Line, put_text};
use sm_text::LineWriter;
use std::alloc::{AllocError, Global};

/// The lines of an answer that lists vectors.
#[derive(Drop)]
pub struct ListLines<'a, V: Vectors> {
    input: &'a Input,
    /// The first line, until it is given.
    head: Option<Line>,
    vectors: VectorLines<V>,
}

impl<V: Vectors> Lines for ListLines<'_, V> {
    ghost use Rattle.std.specs.Prelude.{◌+◌, length};
    ghost use Rattle.sm_answer.specs.Lines.{line_left};
    ghost use Rattle.sm_answer_vectors.specs.Remaining.{IsReady, IsLeftOf, IsListLeft, most_lines};

    ghost gives = { λ s lines. IsListLeft
        (IsReady s.vectors.over s.vectors.left (V.here s.vectors.vectors) s.vectors.text)
        (IsLeftOf s.vectors.over (V.order s.vectors.vectors) (V.is_one s.vectors.vectors)
        (V.cursor s.vectors.vectors) s.vectors.left)
        s.input.now
        s.head
        lines };

    ghost most = { λ s. length (line_left s.head) + most_lines s.vectors.over s.vectors.left };

    fn put_next(&mut self, alloc: Global, into: &mut LineWriter) -> Result<bool, AllocError> {
        let _kind = self.input.kind();
        match self.head.take() {
            Some(line) => {
                put_text(into, self.input, &line)?;
                Ok(true)
            }
            None => self.vectors.put_next(alloc, self.input, into),
        }
    }
}

/// The head of `list`, the vectors that come behind `after`, at most `limit`, and the last line. No step was made yet, so that the
/// cursor is `after`.
///
/// Each vector is found when its line is asked for, and of its text only what changed is written anew. Takes time and memory in
/// proportion to `after`.
///
/// # Errors
///
/// `AllocError` where memory ran out, and only then; what steps through the vectors is dropped.
pub fn list_vectors<'a, V: Vectors + Drop>(
    alloc: Global,
    input: &'a Input,
    vectors: V,
    after: &Option<Vec<u32>>,
    limit: u32,
) -> Result<ListLines<'a, V>, AllocError>
    requires cursor { V.cursor vectors ≡ cursor_in after.now }
    requires next { HaveNext (V.order vectors) (V.is_one vectors) }
    requires small { (v : List ℕ) → V.is_one vectors v → All IsSmall v }
    requires least { 1 ≤ limit }
    requires greatest { limit ≤ most_limit }
    ensures right { IfOk result (λ made. (lines : List (List ℕ))
        → ⟦<ListLines<'a, V> as Lines>⟧.gives made lines
        → IsShown input.now (IsVectorAnswer (V.order vectors) (V.is_one vectors)
        (cursor_in after.now) limit) lines) }
    ensures some { IfOk result (λ made. HasRest (⟦<ListLines<'a, V> as Lines>⟧.gives made)) }
{
    let after = copy_of_cursor(alloc, after)?;
    let text = VectorText::new(alloc)?;
    Ok(ListLines {
        input,
        head: Some(Line::Answer(Head::List(after, limit))),
        vectors: VectorLines {
            vectors,
            left: limit,
            over: false,
            text,
        },
    })
}
