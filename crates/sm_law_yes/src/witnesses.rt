//! Lines in two orders, of which the laws speak. Each function does nothing: its contract is what is computed.

ghost use Rattle.sm_law_yes.specs.Witnesses.{PairsAndVectors};

/// Two pairs are exchanged, and two vectors can't be.
pub fn pairs_and_vectors()
    ensures { PairsAndVectors }
{}
