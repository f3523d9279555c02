//! The text of a right answer gets a yes. Each function does nothing: its contract is the law, a statement over the
//! definitions alone.

ghost use Rattle.sm_law_agree.specs.Agree.{SolveAgrees, CouplesAgree, PartiesAgree, ReducedAgrees, RotationsAgree, ListAgrees, RegretAgrees, WeightAgrees, MeetAgrees, JoinAgrees};

/// The text of a right answer of `solve` over an instance with two sides gets a yes.
pub fn solve_agrees()
    ensures { SolveAgrees }
{}

/// The text of a right answer of `solve` over roommates gets a yes, where it is a matching.
pub fn couples_agree()
    ensures { CouplesAgree }
{}

/// The text of a right answer of `solve` over roommates gets a yes, where it says that there is no stable matching.
pub fn parties_agree()
    ensures { PartiesAgree }
{}

/// The text of a right answer of `reduced` gets a yes.
pub fn reduced_agrees()
    ensures { ReducedAgrees }
{}

/// The text of a right answer of `rotations` gets a yes, where the lists of the seats have no more entries than `check` takes.
pub fn rotations_agree()
    ensures { RotationsAgree }
{}

/// The text of a right answer of `list` gets a yes.
pub fn list_agrees()
    ensures { ListAgrees }
{}

/// The text of a right answer of `regret` gets a yes, where it isn't `none`.
pub fn regret_agrees()
    ensures { RegretAgrees }
{}

/// The text of a right answer of `weight` gets a yes, where the lists of the seats have no more entries than `check` takes.
pub fn weight_agrees()
    ensures { WeightAgrees }
{}

/// The text of a right answer of `meet` gets a yes.
pub fn meet_agrees()
    ensures { MeetAgrees }
{}

/// The text of a right answer of `join` gets a yes.
pub fn join_agrees()
    ensures { JoinAgrees }
{}
