//! What keeps a pair on the reduced lists.

ghost use Rattle.std.specs.Prelude.{◌≡◌, ◌<◌, length, MatchOption, false, nat_le, ◌&&◌};
ghost use Rattle.sm_market.specs.Lists.{row, entry};
ghost use Rattle.sm_market.specs.Pairing.{IsPairingOf};
ghost use Rattle.sm_market.specs.Reduced.{is_no_worse};

use crate::market::Market;
use crate::pairing::Pairing;

/// Whether the reviewer at `place` of `p`'s list stands between two pairings: `p` likes it no less than its partner in
/// `last`, and it likes `p` no less than its partner in `first`. Where these are the reviewers' best and the proposers' best,
/// this says whether the two keep each other on the reduced lists.
///
/// The pairings have to be made for a market of these lists. An agent that is unmatched keeps nobody. Takes constant time
/// (Gusfield and Irving 1989, section 1.2.4).
pub fn is_between(market: &Market, first: &Pairing, last: &Pairing, p: u32, place: u32) -> bool
    requires in_range { p < length market.now.proposers }
    requires on_list { place < length (row market.now.proposers p) }
    requires first { IsPairingOf market.now first.now }
    requires last { IsPairingOf market.now last.now }
    ensures { let r = entry market.now.proposers p place in
        result ≡ (is_no_worse market.now.proposers last.now.places.proposers p r
        && is_no_worse market.now.reviewers first.now.places.reviewers r p) }
{
    let r = market.reviewer_at(p, place);
    is_as_good(place, last.place(p)) && is_as_good(market.cross(p, place), first.reviewer_place(r))
}

/// Whether a place is as good as the one that an agent holds. None is where the agent is unmatched.
fn is_as_good(place: u32, held: Option<u32>) -> bool
    ensures { MatchOption held (result ≡ false) (λ worst. result ≡ nat_le place worst) }
{
    match held {
        Some(worst) => place <= worst,
        None => false,
    }
}
