//! Worked answers of which the verdict is known by hand, computed. Each function does nothing: its contract is what is
//! computed.

ghost use Rattle.sm_cert.specs.Witnesses.{OddAnswers, FirstIsntBest};
ghost use Rattle.sm_cert.specs.WitnessesWeight.{WrittenIsKnown, WeightAnswers};

/// By an odd party there is no stable matching of five persons; in another order it is no party of a stable partition.
pub fn odd_answers()
    ensures { OddAnswers }
{}

/// A stable matching that isn't the proposers' best, and behind which no rotation is exposed.
pub fn first_isnt_best()
    ensures { FirstIsntBest }
{}

/// What is written over three proposers and three reviewers is a known market, with its chain of rotations.
pub fn written_is_known()
    ensures { WrittenIsKnown }
{}

/// An answer of `weight` that is right, one whose flow isn't conserved, and one whose flow doesn't come up to the cut.
pub fn weight_answers()
    ensures { WeightAnswers }
{}
