//! An answer that gets a yes is a right one, but for the order of its free lines. The contract of each function is the law, a
//! statement over the definitions alone. A function calls the law on the meaning of a yes from which its own law follows, if there
//! is one, and does nothing else.

ghost use Rattle.sm_law_yes.specs.Reordered.{ReorderedIsPermuted};
ghost use Rattle.sm_law_yes.specs.YesIsRight.{SolveIsRight, ReducedIsRight, RotationsAreRight, MeetIsRight, JoinIsRight, CouplesAreRight, PartiesAreRight};
ghost use Rattle.sm_law_yes.specs.Exactly.{SolveExactly, ReducedExactly, RotationsExactly, MeetExactly, JoinExactly, RoomExactly};
ghost use Rattle.sm_law_yes.specs.Correspond.{RotationsCorrespond};
ghost use Rattle.sm_law_yes.specs.OrderIsFree.{OrderIsFree};

use sm_cert::laws;
use sm_law_agree::laws as agree;

/// Reordered lines are the same ones, and those of each keyword stand where they stood.
pub fn reordered_is_permuted()
    ensures { ReorderedIsPermuted }
{}

/// An answer of `solve` over an instance with two sides that gets a yes is a right one, but for the order of its pairs.
pub fn solve_is_right()
    ensures { SolveIsRight }
{
    laws::solve_yes();
}

/// An answer of `reduced` that gets a yes is a right one, but for the order of its seats and of its lists.
pub fn reduced_is_right()
    ensures { ReducedIsRight }
{
    laws::reduced_yes();
}

/// An answer of `rotations` that gets a yes is a right one, but for the order of its first seats.
pub fn rotations_are_right()
    ensures { RotationsAreRight }
{
    laws::rotations_yes();
}

/// In an answer of `rotations` that gets a yes the closed sets of what its lines show and the stable matchings of the instance
/// correspond one to one.
pub fn rotations_correspond()
    ensures { RotationsCorrespond }
{
    laws::rotations_yes();
}

/// An answer of `meet` that gets a yes is a right one over the two matchings that it says, but for the order of its pairs.
pub fn meet_is_right()
    ensures { MeetIsRight }
{
    laws::meet_yes();
}

/// An answer of `join` that gets a yes is a right one over the two matchings that it says, but for the order of its pairs.
pub fn join_is_right()
    ensures { JoinIsRight }
{
    laws::join_yes();
}

/// An answer of `solve` over roommates that gets a yes and writes a matching is a right one, but for the order of its couples.
pub fn couples_are_right()
    ensures { CouplesAreRight }
{
    laws::couples_yes();
}

/// An answer of `solve` over roommates that gets a yes and says that there is no stable matching is a right one, but for the order
/// of its parties.
pub fn parties_are_right()
    ensures { PartiesAreRight }
{
    laws::none_yes();
}

/// An answer that gets a yes gets it in any order of its free lines.
pub fn order_is_free()
    ensures { OrderIsFree }
{}

/// Over an instance with two sides the answers of `solve` that get a yes are exactly the right ones, but for the order of the
/// pairs.
pub fn solve_exactly()
    ensures { SolveExactly }
{
    laws::solve_yes();
    agree::solve_agrees();
}

/// The answers of `reduced` that get a yes are exactly the right ones, but for the order of the seats and of the lists.
pub fn reduced_exactly()
    ensures { ReducedExactly }
{
    laws::reduced_yes();
    agree::reduced_agrees();
}

/// The answers of `rotations` that get a yes are exactly the right ones, but for the order of the first seats, where the lists of
/// the seats have no more entries than `check` takes.
pub fn rotations_exactly()
    ensures { RotationsExactly }
{
    laws::rotations_yes();
    agree::rotations_agree();
}

/// The answers of `meet` that get a yes are exactly the right ones over the two matchings that they say, but for the order of the
/// pairs.
pub fn meet_exactly()
    ensures { MeetExactly }
{
    laws::meet_yes();
    agree::meet_agrees();
}

/// The answers of `join` that get a yes are exactly the right ones over the two matchings that they say, but for the order of the
/// pairs.
pub fn join_exactly()
    ensures { JoinExactly }
{
    laws::join_yes();
    agree::join_agrees();
}

/// Over roommates the answers of `solve` that get a yes are exactly the right ones, but for the order of the couples or of the
/// parties.
pub fn room_exactly()
    ensures { RoomExactly }
{
    laws::couples_yes();
    laws::none_yes();
    agree::couples_agree();
    agree::parties_agree();
}
