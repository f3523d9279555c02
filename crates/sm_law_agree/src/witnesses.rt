//! Right answers that are known by hand, of which the laws speak. Each function does nothing: its contract is what is
//! computed.

ghost use Rattle.sm_law_agree.specs.Witnesses.{OnePair, Circles, ThreeByThree, WeighedThree, WeighedByTwo};

/// The right answers over a proposer and a reviewer who list each other.
pub fn one_pair()
    ensures { OnePair }
{}

/// A matching of roommates, and the parties by which there is none.
pub fn circles()
    ensures { Circles }
{}

/// Two rotations over three proposers and three reviewers, of which the second needs the first.
pub fn three_by_three()
    ensures { ThreeByThree }
{}

/// The same three by three with two weights, and a flow through both rotations.
pub fn weighed_three()
    ensures { WeighedThree }
{}

/// The same three by three with first and second weights, and two flows through both rotations.
pub fn weighed_by_two()
    ensures { WeighedByTwo }
{}
