//! Small markets of which the checker computes what the laws speak of, so that the laws are not about nothing. Each function does
//! nothing: its contract is the statement.

ghost use Rattle.sm_law_order.specs.Witnesses.{InARow, OverASeat, Apart};

/// A market with three rotations, each a predecessor of the next one: the first precedes the third, though it isn't a
/// predecessor of it.
pub fn in_a_row()
    ensures { InARow }
{}

/// A market in which a rotation precedes another only because of a reviewer that is passed over.
pub fn over_a_seat()
    ensures { OverASeat }
{}

/// A market with two rotations that don't need each other: neither precedes the other.
pub fn apart()
    ensures { Apart }
{}
