//! Texts with right answers that are known by hand, of which the law speaks. Each function does nothing: its contract is what is
//! computed.

ghost use Rattle.sm_law_round.specs.Witnesses.{PairIsWritten, WeighedIsWritten};

/// A proposer and a reviewer who list each other: `solve`, and `meet` of their matching given twice.
pub fn pair_is_written()
    ensures { PairIsWritten }
{}

/// Three by three with two weights: the lightest matching, with its flow.
pub fn weighed_is_written()
    ensures { WeighedIsWritten }
{}
