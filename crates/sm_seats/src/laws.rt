//! The laws of seats that the crates above stand on. Each function does nothing: its contract is the law, a statement over
//! the definitions alone, for all instances with two sides.

ghost use Rattle.sm_seats.specs.Laws.{SeatsCorrespond, FewSeatsFit, BestsCorrespond};

/// The stable matchings of an instance and of its seats correspond one to one, with equal rank and level vectors, pairs,
/// conditions, weights and regrets (Gusfield and Irving 1989, section 1.6.1; Manlove 2013, section 3.2).
pub fn seats_correspond()
    ensures { SeatsCorrespond }
{}

/// Few seats make a market within the limits of one.
pub fn few_seats_fit()
    ensures { FewSeatsFit }
{}

/// A stable matching of the seats is the best of a side exactly where that of the instance is.
pub fn bests_correspond()
    ensures { BestsCorrespond }
{}
