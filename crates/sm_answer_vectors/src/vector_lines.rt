//! Vectors as lines.

ghost use Rattle.std.specs.Prelude.{◌≡◌, ◌++◌, true, codes, IfOk, OnOk};
ghost use Rattle.sm_answer.specs.Giving.{HasRest, PutsNext};
ghost use Rattle.sm_answer.specs.Printing.{IsPrinted};
ghost use Rattle.sm_report.specs.Lines.{line_of};
ghost use Rattle.sm_report.specs.Texts.{vector_text};
ghost use Rattle.sm_answer_vectors.specs.Remaining.{IsLeftOf, IsReady, IsLastLine, most_lines};
ghost use Rattle.sm_answer_vectors.specs.Spelled.{IsKept};

use crate::vector_text::VectorText;
use crate::vectors::Vectors;
use sm_instance::Input;
use sm_report::{Line, put_text};
use sm_text::LineWriter;
use std::alloc::{AllocError, Global};

/// The vectors that are still to come, at most so many, and the last line: `more` with the last vector where more vectors follow,
/// and `end` where none does. Each line is found when it is asked for, and no vector is made for it.
#[derive(Drop)]
pub struct VectorLines<V: Vectors> {
    pub(crate) vectors: V,
    /// At most so many vectors are given still.
    pub(crate) left: u32,
    /// Whether the last line is given.
    pub(crate) over: bool,
    /// The text of the last vector.
    pub(crate) text: VectorText,
}

impl<V: Vectors> VectorLines<V> {
    /// Puts the next line behind what the writer holds; `false` where no line is left, and then the writer holds what it held.
    pub(crate) fn put_next(
        &mut self,
        alloc: Global,
        input: &Input,
        into: &mut LineWriter,
    ) -> Result<bool, AllocError>
        requires ready { IsReady self.old.over self.old.left (V.here self.old.vectors) self.old.text }
        requires some { HasRest (IsPrinted input.now (IsLeftOf self.old.over
            (V.order self.old.vectors) (V.is_one self.old.vectors) (V.cursor self.old.vectors)
            self.old.left)) }
        ensures ready { OnOk result (IsReady self.new.over self.new.left (V.here self.new.vectors)
            self.new.text) }
        ensures put { PutsNext
            (IsPrinted input.now (IsLeftOf self.old.over (V.order self.old.vectors)
            (V.is_one self.old.vectors) (V.cursor self.old.vectors) self.old.left))
            (IsPrinted input.now (IsLeftOf self.new.over (V.order self.new.vectors)
            (V.is_one self.new.vectors) (V.cursor self.new.vectors) self.new.left))
            (most_lines self.old.over self.old.left) (most_lines self.new.over self.new.left)
            into.old.bytes into.new.bytes result }
    {
        let _kind = input.kind();
        if self.over {
            return Ok(false);
        }
        if self.left == 0 {
            let line = last_line(alloc, &mut self.vectors)?;
            self.over = true;
            put_text(into, input, &line)?;
            return Ok(true);
        }
        let found = self.vectors.advance()?;
        if !found {
            self.over = true;
            put_text(into, input, &Line::End)?;
            return Ok(true);
        }
        self.left -= 1;
        self.text.show(self.vectors.current())?;
        put_vector(into, &self.text)?;
        Ok(true)
    }
}

/// The line behind the last vector that is wanted: the vector again where another one follows it.
fn last_line<V: Vectors>(alloc: Global, vectors: &mut V) -> Result<Line, AllocError>
    requires { V.here vectors.old ≡ true }
    ensures { IfOk result (λ line. IsLastLine (V.order vectors.old) (V.is_one vectors.old)
        (V.cursor vectors.old) (line_of line)) }
{
    let last = Vec::from_slice(alloc, vectors.current())?;
    let found = vectors.advance()?;
    if found {
        Ok(Line::More(last))
    } else {
        Ok(Line::End)
    }
}

/// Puts the line of the vector that is shown.
fn put_vector(into: &mut LineWriter, text: &VectorText) -> Result<(), AllocError>
    requires { IsKept text.now }
    ensures { OnOk result (into.new.bytes ≡ into.old.bytes ++ (codes "vector "
        ++ vector_text text.now.shown.items)) }
{
    into.put_bytes(b"vector ")?;
    text.put(into)
}
