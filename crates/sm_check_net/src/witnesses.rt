//! A small net of which the checker computes what the definitions say, so that they are not about nothing. Each function does
//! nothing: its contract is the statement.

ghost use Rattle.sm_check_net.specs.Witnesses.{WorkedMoves, WorkedSteps, LastIsRepeated};

/// How the rotations of three proposers move them, with their gains, the bonds of conditions, and places of sets.
pub fn worked_moves()
    ensures { WorkedMoves }
{}

/// The residual steps of the flow of value 4 in their net, and those that are edges of its second net.
pub fn worked_steps()
    ensures { WorkedSteps }
{}

/// Which of four lines has the ends of an earlier one.
pub fn last_is_repeated()
    ensures { LastIsRepeated }
{}
