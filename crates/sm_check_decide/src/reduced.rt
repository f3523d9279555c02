//! Whether a list is one of the reduced lists.

ghost use Rattle.std.specs.Prelude.{◌≡◌, ◌<◌, ◌↔◌, ◌&&◌, length, IsTrue, MatchOption, false, nat_le, slice_index};
ghost use Rattle.sm_market.specs.Lists.{row, entry};
ghost use Rattle.sm_market.specs.Pairing.{IsPairingOf};
ghost use Rattle.sm_market.specs.Reduced.{is_no_worse, reduced_lists_of};

use sm_market::{Market, Pairing, is_between};

/// Whether a list is that of a proposer in the reduced lists of a market, where `first` is the proposers' best and `last` the
/// reviewers' best.
///
/// The pairings have to be made for a market of these lists. Any numbers may stand on the list. Takes time in proportion to
/// the proposer's list in the market (Gusfield and Irving 1989, section 1.2.4).
pub fn is_reduced_proposer_list(
    market: &Market,
    first: &Pairing,
    last: &Pairing,
    p: u32,
    list: &[u32],
) -> bool
    requires in_range { p < length market.now.proposers }
    requires first { IsPairingOf market.now first.now }
    requires last { IsPairingOf market.now last.now }
    ensures { IsTrue result
        ↔ (list.now ≡ row (reduced_lists_of market.now first.now.places last.now.places).proposers
        p) }
{
    let mut next = 0;
    for place in 0..market.proposer_len(p) {
        let r = market.reviewer_at(p, place);
        if is_between(market, first, last, p, place) {
            if !stands_at(list, next, r) {
                return false;
            }
            next += 1;
        }
    }
    next == list.len()
}

/// Whether a list is that of a reviewer in the reduced lists of a market, as [`is_reduced_proposer_list`] says it of a
/// proposer. Takes time in proportion to the reviewer's list in the market.
pub fn is_reduced_reviewer_list(
    market: &Market,
    first: &Pairing,
    last: &Pairing,
    r: u32,
    list: &[u32],
) -> bool
    requires in_range { r < length market.now.reviewers }
    requires first { IsPairingOf market.now first.now }
    requires last { IsPairingOf market.now last.now }
    ensures { IsTrue result
        ↔ (list.now ≡ row (reduced_lists_of market.now first.now.places last.now.places).reviewers
        r) }
{
    let mut next = 0;
    for place in 0..market.reviewer_len(r) {
        let p = market.proposer_at(r, place);
        if is_between(market, first, last, p, market.reviewer_cross(r, place)) {
            if !stands_at(list, next, p) {
                return false;
            }
            next += 1;
        }
    }
    next == list.len()
}

/// Whether a number stands at a place of a list.
fn stands_at(list: &[u32], place: usize, number: u32) -> bool
    ensures { IsTrue result ↔ ((place < length list.now) × (slice_index list.now place ≡ number)) }
{
    place < list.len() && list[place] == number
}
