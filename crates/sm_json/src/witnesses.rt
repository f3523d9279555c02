//! Small values and instances in JSON. The checker computes their texts, which were written by hand. Each function does nothing:
//! its contract is the statement.

ghost use Rattle.sm_json.specs.Witnesses.{MarriageRead, HospitalsRead, RoommatesRead, NothingRead, MarriageWritten, OrderedWritten, LinesWritten};

/// A marriage of two and two, hospitals with two weights and an order, and roommates stand for the texts beside them, and
/// three values that are no instances for none.
pub fn small_values_are_read()
    ensures marriage { MarriageRead }
    ensures hospitals { HospitalsRead }
    ensures roommates { RoommatesRead }
    ensures nothing { NothingRead }
{}

/// A marriage with weights and conditions is written as the JSON beside it, and so are the same with a second weight and an
/// order, and the lines of an answer.
pub fn small_values_are_written()
    ensures marriage { MarriageWritten }
    ensures ordered { OrderedWritten }
    ensures lines { LinesWritten }
{}
