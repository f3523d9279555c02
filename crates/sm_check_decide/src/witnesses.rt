//! A small market of which the checker computes what the definitions say, so that they are not about nothing. The functions do
//! nothing: their contracts are the statements.

ghost use Rattle.sm_check_decide.specs.Witnesses.{RotationIsFound, PassedOneChanged};

/// Who is in an exposed rotation with whom.
pub fn rotation_is_found()
    ensures { RotationIsFound }
{}

/// Whom a search may pass over once a rotation is eliminated.
pub fn passed_one_changed()
    ensures { PassedOneChanged }
{}
