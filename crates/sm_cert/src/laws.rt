//! The laws of verdicts, and what a yes means. Each function does nothing: its contract is the law, a statement
//! over the definitions alone.

ghost use Rattle.sm_cert.specs.Laws.{OneVerdict, OneJudgement, JudgedIsntBad, OneMisplaced};
ghost use Rattle.sm_cert.specs.Yes.{ListYes, SolveYes, CouplesYes, NoneYes, RegretYes, MeetYes, JoinYes, ReducedYes, RotationsYes, WeightYes};

/// There is no more than one verdict on an answer.
pub fn one_verdict()
    ensures { OneVerdict }
{}

/// There is no more than one verdict on a text.
pub fn one_judgement()
    ensures { OneJudgement }
{}

/// A text on which there is a verdict is of the form of an answer.
pub fn judged_isnt_bad()
    ensures { JudgedIsntBad }
{}

/// No more than one line of a text is the first that isn't of the form of an answer.
pub fn one_misplaced()
    ensures { OneMisplaced }
{}

/// Where an answer of `list` gets a yes, its vectors are those of allowed stable matchings, and rise from the cursor. If it ends
/// with `more`, they are as many as the limit, and `more` repeats the last one.
pub fn list_yes()
    ensures { ListYes }
{}

/// Where an answer of `solve` over an instance with two sides gets a yes, its pairs are those of the stable matching that is
/// best for the side it names: each pair of that matching stands once, and no other pair does.
pub fn solve_yes()
    ensures { SolveYes }
{}

/// Where an answer of `solve` over roommates writes a matching and gets a yes, its pairs are the couples of a stable matching:
/// each couple stands once, its lower-numbered person first, and no other pair does.
pub fn couples_yes()
    ensures { CouplesYes }
{}

/// Where an answer of `solve` over roommates says that there is no stable matching and gets a yes, there is none: its parties are
/// those of a stable partition, each person stands once in them, and one of them is odd.
pub fn none_yes()
    ensures { NoneYes }
{}

/// Where an answer of `regret` gets a yes, its pairs are those of a stable matching that the conditions allow, and the one
/// regret that it names is that of this matching. It says nothing of whether another matching has a lower one.
pub fn regret_yes()
    ensures { RegretYes }
{}

/// Where an answer of `meet` gets a yes, its two matchings are stable, and its pairs give each proposer the better of its two
/// partners: each pair of that matching stands once, and no other pair does.
pub fn meet_yes()
    ensures { MeetYes }
{}

/// Where an answer of `join` gets a yes, its two matchings are stable, and its pairs give each proposer the worse of its two
/// partners: each pair of that matching stands once, and no other pair does.
pub fn join_yes()
    ensures { JoinYes }
{}

/// Where an answer of `reduced` gets a yes, its first and last seats are the proposers' and the reviewers' best matching of the
/// market of seats, and each proposer and each seat has one line, with its reduced list between the two.
pub fn reduced_yes()
    ensures { ReducedYes }
{}

/// Where an answer of `rotations` gets a yes, its first seats are the proposers' best matching of the market of seats, its
/// rotations are the whole chain from there, each the one that begins with the lowest proposer at its turn, and behind each
/// stand the numbers of all rotations that it needs, and no others.
pub fn rotations_yes()
    ensures { RotationsYes }
{}

/// Where an answer of `weight` gets a yes, its pairs are those of a stable matching that the conditions allow and than which no
/// other is lighter, and of the lightest ones that which is best for all proposers; its totals are the weights of it. In each level
/// its flow fills the cut of the set that it takes, and the value and the cut that it writes are theirs; this set is the reach of
/// the last flow. Its first matching, its chain and what the rotations need are as in an answer of `rotations`.
pub fn weight_yes()
    ensures { WeightYes }
{}
