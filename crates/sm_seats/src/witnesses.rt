//! Small instances of which the checker computes what the definitions say, so that they are not about nothing. Each
//! function does nothing: its contract is the statement.

ghost use Rattle.sm_seats.specs.Witnesses.{SmallHospitals, MarriageSeats, TurningHospitals, SecondIsTooMany};

/// Hospitals with two places, with one and with none, and an inert entry: their seats, levels and entries, and the seats that
/// a matching takes.
pub fn small_hospitals()
    ensures { SmallHospitals }
{}

/// A marriage in which nobody acceptable lists the first reviewer, so that the second one has the first seat.
pub fn marriage_seats()
    ensures { MarriageSeats }
{}

/// Two stable matchings, in which a resident has different seats of one hospital, and the gain of the rotation between them.
pub fn turning_hospitals()
    ensures { TurningHospitals }
{}

/// Two hospitals with as many seat entries each as there may be: the second is the first with whom there are too many.
pub fn second_is_too_many()
    ensures { SecondIsTooMany }
{}
