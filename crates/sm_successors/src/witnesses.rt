//! A small market of which the checker computes what the definition says, so that it is not about nothing. The function does
//! nothing: its contract is the statement.

ghost use Rattle.sm_successors.specs.Witnesses.{SeatIsPassed};

/// How far the search for successors may have gone at two matchings.
pub fn seat_is_passed()
    ensures { SeatIsPassed }
{}
