//! Words and lists that the checker computes, so that the definitions mean what they should. The function does nothing: its
//! contract is the statement.

ghost use Rattle.sm_make.specs.Witnesses.{IsMadeOfTwo};

/// The first words of seed 42, and the lists of a marriage of two that they give.
pub fn made_of_two()
    ensures { IsMadeOfTwo }
{}
