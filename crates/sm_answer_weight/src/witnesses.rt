//! Worked answers of which the checker computes the lines, so that the definitions mean what they should. The functions do
//! nothing: their contracts are the statements.

ghost use Rattle.sm_answer_weight.specs.Witnesses.{TurningNet, WorkedAnswer, WorkedOfTwo};

/// The lines for three proposers who go round in a cycle, where a pair that costs 4 leads to one that weighs -10.
pub fn worked_answer()
    ensures { WorkedAnswer }
{}

/// The lines for the same proposers in two levels: of two matchings with equal sums the one with the smaller second sum is taken.
pub fn worked_of_two()
    ensures { WorkedOfTwo }
{}

/// The nodes at which residents enter hospitals and leave them, and the edges of conditions: a rotation that moves a resident
/// between two seats of one hospital doesn't count.
pub fn turning_net()
    ensures { TurningNet }
{}
