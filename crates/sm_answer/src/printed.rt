//! The texts of the lines of an answer.

use crate::answer::Answer;
use crate::lines::Lines;
use sm_instance::Input;
use sm_report::{Line, put_text};
use sm_text::LineWriter;
use std::alloc::{AllocError, Global};

/// The texts of an answer's lines.
#[derive(Drop)]
pub struct Printed<'a, L: Answer> {
    pub input: &'a Input,
    pub answer: L,
}

impl<L: Answer> Lines for Printed<'_, L> {
    ghost use Rattle.sm_answer.specs.Printing.{IsPrinted};

    ghost gives = { λ p lines. IsPrinted p.input.now (L.gives p.answer) lines };

    ghost most = { λ p. L.most p.answer };

    fn put_next(&mut self, alloc: Global, into: &mut LineWriter) -> Result<bool, AllocError> {
        let _kind = self.input.kind();
        match self.answer.next(alloc)? {
            Some(line) => {
                put_text(into, self.input, &line)?;
                Ok(true)
            }
            None => Ok(false),
        }
    }
}
