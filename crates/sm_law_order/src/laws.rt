//! The laws of the order of rotations. Each function does nothing: its contract is the law, for all markets and all complete
//! chains.

ghost use Rattle.sm_law_order.specs.Laws.{PrecedesIsOrder, ClosedSetsAreDownSets, PrecedesInClosedSets, PrecedesInMatchings, PrecedesWhereExposed, PrecedesInSequences, PrecedesInChains, OneOrder};

/// The closure of the two kinds of predecessor is a partial order on the rotations of a complete chain, and what precedes a
/// rotation doesn't stand behind it.
pub fn precedes_is_order()
    ensures { PrecedesIsOrder }
{}

/// The closed sets of rotations are those that have with each member all that precede it.
pub fn closed_sets_are_down_sets()
    ensures { ClosedSetsAreDownSets }
{}

/// A rotation of a complete chain precedes another exactly where it is in every closed set that has the other
/// (Gusfield and Irving 1989, section 2.5).
pub fn precedes_in_closed_sets()
    ensures { PrecedesInClosedSets }
{}

/// A rotation of a complete chain precedes another exactly where it is eliminated at every stable matching at which the other is
/// (Gusfield and Irving 1989, section 2.5).
pub fn precedes_in_matchings()
    ensures { PrecedesInMatchings }
{}

/// A rotation of a complete chain precedes another than itself exactly where it is eliminated at every stable matching at which the
/// other is exposed (Gusfield and Irving 1989, section 2.5).
pub fn precedes_where_exposed()
    ensures { PrecedesWhereExposed }
{}

/// A rotation of a complete chain precedes another exactly where it has to be eliminated first: in every sequence of
/// eliminations from the proposers' best that has the other, it comes there or before (Gusfield and Irving 1989, section 2.5).
pub fn precedes_in_sequences()
    ensures { PrecedesInSequences }
{}

/// A rotation of a complete chain precedes another exactly where it comes at the other's turn or before in every complete chain.
pub fn precedes_in_chains()
    ensures { PrecedesInChains }
{}

/// The order is the market's own: all its complete chains give one.
pub fn one_order()
    ensures { OneOrder }
{}
