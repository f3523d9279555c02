//! The laws of cut lists of roommates, and of listings. Each function does nothing: its contract is the law.

ghost use Rattle.sm_room_list.specs.Laws.{CutInstance, CutKeepsRanks, OneDecides, LowerIsUpper, FirstCuts};
ghost use Rattle.sm_room_list.specs.PairCuts.{PairCut};
ghost use Rattle.sm_room_list.specs.RoomListings.{RoomListings, OneRoomListing, RoomListingResumes, RoomGoesOn};

/// The stable matchings in which nobody's rank is above its top are those of the lists that are cut at the tops in which nobody's
/// is: in which everybody whose top isn't beyond its list has a mate.
pub fn cut_instance()
    ensures { CutInstance }
{}

/// Such a matching has the same rank vector by the lists and by the cut lists.
pub fn cut_keeps_ranks()
    ensures { CutKeepsRanks }
{}

/// Where somebody's rank is above its top in one stable matching of the cut lists, no stable matching is within the tops.
pub fn one_decides()
    ensures { OneDecides }
{}

/// In a stable matching a person's rank is above a number exactly where each that it finds acceptable at as many places has
/// somebody that it likes better. So a lower bound is upper bounds of others.
pub fn lower_is_upper()
    ensures { LowerIsUpper }
{}

/// Where a person's rank is above a number, whoever it finds acceptable at the next place has nobody that it likes less.
pub fn first_cuts()
    ensures { FirstCuts }
{}

/// The stable matchings in which two persons are mates are those of lists in which each of the two lists the other alone, and
/// whomever one of them prefers to the other keeps what stands before that one and has a mate.
pub fn pair_cut()
    ensures { PairCut }
{}

/// What a lister gives in turn is a listing.
pub fn room_listings()
    ensures { RoomListings }
{}

/// For each cursor and each limit there is no more than one listing.
pub fn one_room_listing()
    ensures { OneRoomListing }
{}

/// A listing that goes on from where another ended makes with it the listing up to both limits.
pub fn room_listing_resumes()
    ensures { RoomListingResumes }
{}

/// Behind each cursor there is a next rank vector of a stable matching, or there is none.
pub fn room_goes_on()
    ensures { RoomGoesOn }
{}
