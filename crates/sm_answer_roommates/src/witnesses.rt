//! Answers that were worked out by hand. Each function does nothing: its contract is what the checker computes of the
//! definitions.

ghost use Rattle.sm_answer_roommates.specs.Witnesses.{OddPartiesShown, CouplesShown};

/// Five persons with an odd party.
pub fn odd_parties()
    ensures { OddPartiesShown }
{}

/// Five persons with a stable matching.
pub fn couples()
    ensures { CouplesShown }
{}
