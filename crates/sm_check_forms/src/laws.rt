//! The laws of layouts. Each function does nothing: its contract is the law, a statement over the definitions alone.

ghost use Rattle.sm_check_forms.specs.Laws.{WholeIsBegun, WholeEnds};

/// The first lines of a whole answer begin an answer.
pub fn whole_is_begun()
    ensures { WholeIsBegun }
{}

/// A whole answer ends with a closing line.
pub fn whole_ends()
    ensures { WholeEnds }
{}
