//! The laws of the lattice of stable matchings, of rotations and of closed sets, of stable pairs and regrets, of flows and
//! the lightest matching, of roommates, and of listings. Each function does nothing: its contract is the law, a statement
//! over the definitions alone, for all markets and all matchings.

ghost use Rattle.sm_market.specs.Laws.{SameAgents};
ghost use Rattle.sm_theory.specs.LawsFlows.{NoFlowAboveCut, FullCutsAreUnleft, FlowOfLines, ReachIsLeastCut, CutsAreAllowed, LeastCutIsLightest, ReachIsBestLightest, PathWhereNothing};
ghost use Rattle.sm_theory.specs.LawsSecond.{SecondCutsAreUnleft, LeastCutsAreSecondCuts, SecondCutsAreLightest, LeastSecondCutsAreLightest, SecondReachIsBest, ZeroSecondFlow, CertificateOfTwo, OneLevel};
ghost use Rattle.sm_theory.specs.LawsListing.{SetsAreOrdered, MovesFollow, NextMoveIsIn, JoinKeepsBounds, VectorsAreOrdered, NextVector, ListingExists, OneListing, ListingResumes};
ghost use Rattle.sm_theory.specs.LawsPairs.{StablePlaces, RegretByBound};
ghost use Rattle.sm_theory.specs.LawsRooms.{OddPartyExcludes, SameOddParties, SamePersons, PartiesPair, EvenPartiesPair, RestIsStable};
ghost use Rattle.sm_theory.specs.Laws.{MeetIsStable, JoinIsStable, PairIsDivided, Dichotomy, EliminationIsStable, NothingExposed, NothingExposedBack, ExposedIsNotBest, NoneBelowAll, BestIsUnique, PredecessorIsEarlier, SetsAreMatchings, ExposedWhereReady, AllInTheChain, MeetKeepsBounds, WeightIsSumOfGains, LevelsDetermine};
ghost use Rattle.sm_theory.specs.LawsMedians.{PlacedInOrder, OneAtPlace, MedianOfSets, OneMedian, MedianIsWithin, MedianIsAllowed, MedianOfVectors, VectorIsAllowed, MedianOfListed, MedianVectorIsAllowed};
ghost use Rattle.sm_theory.specs.LawsRoutes.{NoFewerSteps, StepsAreShortest};

/// The meet of two stable matchings is stable, and each proposer stands in it as in the better of the two
/// (Gusfield and Irving 1989, theorem 1.3.2).
pub fn meet_is_stable()
    ensures { MeetIsStable }
{}

/// The join of two stable matchings is stable, and each proposer stands in it as in the worse of the two
/// (Gusfield and Irving 1989, theorem 1.3.2).
pub fn join_is_stable()
    ensures { JoinIsStable }
{}

/// Of a pair in one stable matching and not in another, one agent prefers the first matching and the other the second
/// (Gusfield and Irving 1989, theorem 1.3.1).
pub fn pair_is_divided()
    ensures { PairIsDivided }
{}

/// The same agents are matched in all stable matchings (Gusfield and Irving 1989, theorem 1.4.2).
pub fn same_agents()
    ensures { SameAgents }
{}

/// For a rotation exposed at one stable matching and any stable matching, either all proposers of the rotation have their
/// reviewer or better in it, or all have the next reviewer or worse (Gusfield and Irving 1989, section 2.5).
pub fn dichotomy()
    ensures { Dichotomy }
{}

/// Eliminating an exposed rotation leaves a stable matching (Gusfield and Irving 1989, section 2.5).
pub fn elimination_is_stable()
    ensures { EliminationIsStable }
{}

/// A stable matching at which no rotation is exposed is the reviewers' best: each proposer stands in it as badly, and each
/// reviewer as well, as in any stable matching.
pub fn nothing_exposed()
    ensures { NothingExposed }
{}

/// A stable matching at which no rotation is exposed once the sides are exchanged is the proposers' best.
pub fn nothing_exposed_back()
    ensures { NothingExposedBack }
{}

/// A stable matching at which a rotation is exposed isn't the reviewers' best, and one at which a rotation is exposed once
/// the sides are exchanged isn't the proposers' best.
pub fn exposed_is_not_best()
    ensures { ExposedIsNotBest }
{}

/// Where no exposed rotation has a proposer below the number of the proposers, no rotation is exposed.
pub fn none_below_all()
    ensures { NoneBelowAll }
{}

/// There is no more than one proposers' best matching, and no more than one reviewers' best.
pub fn best_is_unique()
    ensures { BestIsUnique }
{}

/// A predecessor of a rotation of a complete chain stands earlier in the chain.
pub fn predecessor_is_earlier()
    ensures { PredecessorIsEarlier }
{}

/// The closed sets of a complete chain and the stable matchings correspond one to one, whichever exposed rotation each
/// turn of the chain takes (Irving and Leather 1986; Gusfield and Irving 1989, theorem 2.5.7).
pub fn sets_are_matchings()
    ensures { SetsAreMatchings }
{}

/// At the matching of a closed set, a rotation of the chain is exposed exactly where it is outside the set and all its
/// predecessors are inside.
pub fn exposed_where_ready()
    ensures { ExposedWhereReady }
{}

/// Each rotation that is exposed at some stable matching is one of any complete chain.
pub fn all_in_the_chain()
    ensures { AllInTheChain }
{}

/// The stable matchings within bounds on levels and under conditions are closed under meet.
pub fn meet_keeps_bounds()
    ensures { MeetKeepsBounds }
{}

/// The weight of a closed set's matching is that of the first matching of the chain and the gains of the members
/// (Irving, Leather and Gusfield 1987).
pub fn weight_is_sum_of_gains()
    ensures { WeightIsSumOfGains }
{}

/// Where the places of one level on a proposer's list name reviewers with equal lists, as the seats of one hospital, a
/// level vector determines its stable matching.
pub fn levels_determine()
    ensures { LevelsDetermine }
{}

/// No flow is greater than a cut (Ford and Fulkerson 1956).
pub fn no_flow_above_cut()
    ensures { NoFlowAboveCut }
{}

/// A flow's value is the room of a cut exactly where no residual step leaves the cut (Ford and Fulkerson 1956).
pub fn full_cuts_are_unleft()
    ensures { FullCutsAreUnleft }
{}

/// Amounts on lines are a flow exactly where they are within the rooms and as much comes to each inner node as leaves it, and the
/// value of the flow is what leaves the source (Ford and Fulkerson 1956).
pub fn flow_of_lines()
    ensures { FlowOfLines }
{}

/// Where no residual step leaves the reach of a flow, the reach is a least cut, its cut is the flow's value, and it lies
/// inside every least cut (Ford and Fulkerson 1956).
pub fn reach_is_least_cut()
    ensures { ReachIsLeastCut }
{}

/// In the net of gains, predecessors and conditions, the sets that no unbounded edge leaves are exactly the closed sets
/// whose matching is allowed, where no pair allows nothing by itself (Gusfield and Irving 1989, chapter 3).
pub fn cuts_are_allowed()
    ensures { CutsAreAllowed }
{}

/// In that net, where no pair allows nothing by itself, a closed set is a least cut exactly where its matching is allowed and
/// none that is allowed is lighter (Irving, Leather and Gusfield 1987).
pub fn least_cut_is_lightest()
    ensures { LeastCutIsLightest }
{}

/// In that net, where no pair allows nothing by itself and no residual step leaves the reach of a flow, the matching of the
/// reach is a lightest allowed one, and no proposer does better in another.
pub fn reach_is_best_lightest()
    ensures { ReachIsBestLightest }
{}

/// The sets that no unbounded edge of the second net of a flow leaves are those that no residual step of the flow leaves.
pub fn second_cuts_are_unleft()
    ensures { SecondCutsAreUnleft }
{}

/// Where the value of a flow is some cut, the least cuts are exactly the cuts of its second net (Picard and Queyranne 1980).
pub fn least_cuts_are_second_cuts()
    ensures { LeastCutsAreSecondCuts }
{}

/// In the net of gains, predecessors and conditions, where no pair allows nothing by itself, the cuts of the second net of such a
/// flow are the closed sets whose matchings are allowed and lightest by first sums.
pub fn second_cuts_are_lightest()
    ensures { SecondCutsAreLightest }
{}

/// There, the least cuts of the second net are the closed sets whose matchings are allowed and lightest by both sums.
pub fn least_second_cuts_are_lightest()
    ensures { LeastSecondCutsAreLightest }
{}

/// There, where no residual step of a second flow leaves its reach, the matching of the reach is lightest by both sums and no
/// proposer does better in another that is; and the values of both flows are the cuts of the reach.
pub fn second_reach_is_best()
    ensures { SecondReachIsBest }
{}

/// There, where two flows fill the cuts of a closed set whose matching is allowed, the second flow in the second net of the first,
/// and where the second flow reaches just that set, its matching is lightest by both sums, and no proposer does better in another
/// that is.
pub fn certificate_of_two()
    ensures { CertificateOfTwo }
{}

/// Where all second sums are 0, lightest by both sums is lightest by the first.
pub fn one_level()
    ensures { OneLevel }
{}

/// Where all second gains are 0, the second flow that is 0 everywhere reaches what the first flow reaches.
pub fn zero_second_flow()
    ensures { ZeroSecondFlow }
{}

/// No stable matching is allowed exactly where a pair allows nothing by itself or, in that net, a path of unbounded edges
/// leads from the source to the sink.
pub fn path_where_nothing()
    ensures { PathWhereNothing }
{}

/// Persons who have a stable partition with an odd party of three or more have no stable matching (Tan 1991).
pub fn odd_party_excludes()
    ensures { OddPartyExcludes }
{}

/// Two stable partitions have the same odd parties (Tan 1991).
pub fn same_odd_parties()
    ensures { SameOddParties }
{}

/// The same persons are matched in all stable matchings of roommates (Gusfield and Irving 1989, section 4.5).
pub fn same_persons()
    ensures { SamePersons }
{}

/// The persons of each party of a stable partition can be paired alternately from the lowest on, with the lowest of each
/// odd party left out.
pub fn parties_pair()
    ensures { PartiesPair }
{}

/// Where no party of a stable partition is odd, pairing each party alternately gives a stable matching (Tan 1991).
pub fn even_parties_pair()
    ensures { EvenPartiesPair }
{}

/// With the lowest of each odd party left out, pairing the others alternately gives a matching that no pair of those who
/// stay blocks (Tan 1991).
pub fn rest_is_stable()
    ensures { RestIsStable }
{}

/// Of two closed sets one is inside the other exactly where no proposer stands worse in its matching
/// (Gusfield and Irving 1989, theorem 2.5.7).
pub fn sets_are_ordered()
    ensures { SetsAreOrdered }
{}

/// The first rotation of a complete chain that moves a proposer takes it from its first reviewer, and each later one from
/// the reviewer to which the last one before moved it.
pub fn moves_follow()
    ensures { MovesFollow }
{}

/// A closed set in whose matching a proposer stands worse than in another's has the first of the rotations outside the
/// other that move this proposer.
pub fn next_move_is_in()
    ensures { NextMoveIsIn }
{}

/// The stable matchings within bounds on levels and under conditions are closed under join.
pub fn join_keeps_bounds()
    ensures { JoinKeepsBounds }
{}

/// The order of vectors is a strict one, and of two vectors of one length that differ one is before the other.
pub fn vectors_are_ordered()
    ensures { VectorsAreOrdered }
{}

/// Behind each cursor there is a least level vector of an allowed stable matching, or there is none.
pub fn next_vector()
    ensures { NextVector }
{}

/// For each cursor and each limit there is a listing of the level vectors of the allowed stable matchings.
pub fn listing_exists()
    ensures { ListingExists }
{}

/// For each cursor and each limit there is no more than one listing of the level vectors of the allowed stable matchings.
pub fn one_listing()
    ensures { OneListing }
{}

/// A listing that goes on from where another ended makes with it the listing up to both limits.
pub fn listing_resumes()
    ensures { ListingResumes }
{}

/// A proposer has a place in some stable matching exactly where it is its first place or a rotation moves it there
/// (Gusfield and Irving 1989, section 2.5).
pub fn stable_places()
    ensures { StablePlaces }
{}

/// A matching has a regret of at most a bound exactly where it holds no pair of a rank above the bound (Gusfield 1987).
pub fn regret_by_bound()
    ensures { RegretByBound }
{}

/// What stands at a place among numbers is what any rising arrangement of them has there.
pub fn placed_in_order()
    ensures { PlacedInOrder }
{}

/// There is one number at a place.
pub fn one_at_place()
    ensures { OneAtPlace }
{}

/// For any list of closed sets that isn't empty, the rotations that enough of them have are a closed set, whose matching gives
/// each proposer the partner in the middle of its partners in theirs (Teo and Sethuraman 1998).
pub fn median_of_sets()
    ensures { MedianOfSets }
{}

/// Stable matchings have no more than one stable median.
pub fn one_median()
    ensures { OneMedian }
{}

/// The median of matchings within bounds on levels is within the bounds.
pub fn median_is_within()
    ensures { MedianIsWithin }
{}

/// The median of stable matchings that conditions allow is allowed.
pub fn median_is_allowed()
    ensures { MedianIsAllowed }
{}

/// The level vector of a median is the median of the level vectors.
pub fn median_of_vectors()
    ensures { MedianOfVectors }
{}

/// Of two stable matchings with one level vector both are allowed or neither.
pub fn vector_is_allowed()
    ensures { VectorIsAllowed }
{}

/// For closed sets with the level vectors of allowed stable matchings the rotations that enough of them have are the closed set
/// of an allowed stable matching, whose level vector is the median of theirs (Teo and Sethuraman 1998).
pub fn median_of_listed()
    ensures { MedianOfListed }
{}

/// For some level vectors of allowed stable matchings there is an allowed stable matching whose level vector is their median: so
/// the median can be found from the vectors alone (Teo and Sethuraman 1998).
pub fn median_vector_is_allowed()
    ensures { MedianVectorIsAllowed }
{}

/// Between the matchings of two closed sets no route has fewer steps than there are rotations in exactly one of the sets.
pub fn no_fewer_steps()
    ensures { NoFewerSteps }
{}

/// To take back the rotations of the left set that the right one lacks, the last one first, and then to eliminate those of the
/// right one that the left one lacks, the first one first, goes over stable matchings, and is a shortest route.
pub fn steps_are_shortest()
    ensures { StepsAreShortest }
{}
