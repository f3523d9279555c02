//! The laws of lines and their texts. Each function does nothing: its contract is the law, a statement over the
//! definitions alone, for all instances and all lines.

ghost use Rattle.sm_report.specs.Reading.{OneLineHasIt, PutIsReadAgain};
ghost use Rattle.sm_report.specs.Plain.{LinesArePlain};

/// Two lines of an instance that have one text are the same line.
pub fn one_line_has_a_text()
    ensures { OneLineHasIt }
{}

/// What was put for a line of an instance is the text of that line and of no other, so that [`crate::read_line`] reads
/// the line again.
pub fn what_was_put_is_read()
    ensures { PutIsReadAgain }
{}

/// The text of each line of an instance has bytes from 32 to 126 alone, neither `"` nor `\`, so that it stands for itself in
/// a string of JSON.
pub fn lines_are_plain()
    ensures { LinesArePlain }
{}
