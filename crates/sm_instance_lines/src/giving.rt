//! The lines of an instance, one after another.

ghost use Rattle.std.specs.Prelude.{◌≡◌, ℕ, List, length};
ghost use Rattle.sm_answer.specs.Giving.{HasRest};
ghost use Rattle.sm_instance_lines.specs.Printed.{lines_of};

use crate::finding::line_count;
use crate::printing::put_text_at;
use sm_answer::Lines;
use sm_instance::Input;
use sm_text::LineWriter;
use std::alloc::{AllocError, Global};

/// The lines of an instance that aren't given yet.
#[derive(Drop)]
pub struct InstanceLines<'a> {
    input: &'a Input,
    /// How many lines there are, with those that were given.
    count: usize,
    /// The place of the next line, from 0.
    next: usize,
    ghost counted: { count ≡ length (lines_of input.now) },
}

impl Lines for InstanceLines<'_> {
    ghost use Rattle.std.specs.Prelude.{◌≡◌, ◌-◌, drop};
    ghost use Rattle.sm_instance_lines.specs.Printed.{lines_of};

    ghost gives = { λ s lines. lines ≡ drop s.next (lines_of s.input.now) };

    ghost most = { λ s. s.count - s.next };

    fn put_next(&mut self, _alloc: Global, into: &mut LineWriter) -> Result<bool, AllocError> {
        let _kind = self.input.kind();
        if self.next >= self.count {
            return Ok(false);
        }
        put_text_at(into, self.input, self.next)?;
        self.next += 1;
        Ok(true)
    }
}

/// The lines of a printed instance, each without its end. Takes the same time for every instance, and no memory.
pub fn instance_lines<'a>(input: &'a Input) -> InstanceLines<'a>
    ensures right { (lines : List (List ℕ)) → ⟦<InstanceLines<'a> as Lines>⟧.gives result lines
        → lines ≡ lines_of input.now }
    ensures some { HasRest (⟦<InstanceLines<'a> as Lines>⟧.gives result) }
{
    InstanceLines {
        input,
        count: line_count(input),
        next: 0,
    }
}
