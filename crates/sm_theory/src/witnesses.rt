//! Small markets, a net and groups of persons of whom the checker computes what the laws speak of, so that the laws are not
//! about nothing. Each function does nothing: its contract is the statement.

ghost use Rattle.sm_theory.specs.Witnesses.{ThreeCycle, PassedSeat, LeftOver};
ghost use Rattle.sm_theory.specs.WitnessesFlows.{WorkedNet, BarredNet, MiddleLevel, NothingAllowed};
ghost use Rattle.sm_theory.specs.WitnessesLines.{WorkedLines, EachLine};
ghost use Rattle.sm_theory.specs.WitnessesListing.{TwoPairs};
ghost use Rattle.sm_theory.specs.WitnessesSecond.{WorkedSecondNet};
ghost use Rattle.sm_theory.specs.WitnessesRooms.{OddParty, EvenParty};
ghost use Rattle.sm_theory.specs.WitnessesSeats.{Seats};
ghost use Rattle.sm_theory.specs.WitnessesMedians.{MiddleOfFour, MedianOfThree, OneBackOneForth, RouteOfTwo};

/// Three proposers whose stable matchings form a chain of three: their complete chain has two rotations, and the second
/// needs the first. At its end stands the reviewers' best, and the regrets of the three are 3, 2 and 3.
pub fn three_cycle()
    ensures { ThreeCycle }
{}

/// A market whose second rotation needs the first only because of a reviewer that a proposer passes over: the closed sets
/// are the empty one, that of the first rotation and that of both.
pub fn passed_seat()
    ensures { PassedSeat }
{}

/// A market with an unmatched agent on each side: its chain has one rotation, and ends at the reviewers' best because an
/// unmatched reviewer is no successor.
pub fn left_over()
    ensures { LeftOver }
{}

/// A net with a flow of value 4, whose reach has both rotations and a cut of 4; the matching weighs -10.
pub fn worked_net()
    ensures { WorkedNet }
{}

/// The flow of value 4 in that net, by its three lines, and lines that are no flow.
pub fn worked_lines()
    ensures { WorkedLines }
{}

/// Single lines in that net: which of them are on new edges and within the rooms.
pub fn each_line()
    ensures { EachLine }
{}

/// The same market with first and second weights: two matchings are lightest by first sums, and a flow of value 1 in the second net
/// shows which of them is by both.
pub fn worked_second_net()
    ensures { WorkedSecondNet }
{}

/// The same market where the first proposer may have no level: a path of unbounded edges leads from the source to the sink.
pub fn barred_net()
    ensures { BarredNet }
{}

/// The same market where the level in the middle is forced on the first proposer, and where it is forbidden: what is
/// allowed, and which sets are cuts.
pub fn middle_level()
    ensures { MiddleLevel }
{}

/// Levels that allow nothing by themselves where they are forced, or where they are forbidden, and such as allow something.
pub fn nothing_allowed()
    ensures { NothingAllowed }
{}

/// A market with four stable matchings, whose two rotations don't need each other: the meet and the join of two of them, the
/// listings in two orders, and one of two behind a cursor with more to follow.
pub fn two_pairs()
    ensures { TwoPairs }
{}

/// A market of seats in which two seats of one hospital have one level: of two stable matchings the one is before the other
/// by levels, and behind it by seats.
pub fn seats()
    ensures { Seats }
{}

/// Persons whose stable partition has an odd party of three, and two that are alone, of whom one is listed by nobody; with
/// the lowest left out the other two of the party are together.
pub fn odd_party()
    ensures { OddParty }
{}

/// Persons whose stable partition has one party of four, and a stable matching of them, in which a fifth is unmatched whom
/// nobody lists.
pub fn even_party()
    ensures { EvenParty }
{}

/// Of 3, 1, 2 and 1 the number in the middle is 1, and at the third place stands 2.
pub fn middle_of_four()
    ensures { MiddleOfFour }
{}

/// Of three sets the rotations that two of them have, and of one set those that it has.
pub fn median_of_three()
    ensures { MedianOfThree }
{}

/// From one rotation alone to another alone it is one step back and one forth, over the set of none, and in a market whose two
/// rotations don't need each other these are a shortest route.
pub fn one_back_one_forth()
    ensures steps { OneBackOneForth }
    ensures route { RouteOfTwo }
{}
