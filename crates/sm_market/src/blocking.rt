//! Which pairs block a matching.

ghost use Rattle.std.specs.Prelude.{◌≡◌, ℕ, ◌<◌, ◌≤◌, ◌↔◌, length, IsTrue, MatchOption};
ghost use Rattle.sm_market.specs.Lists.{row, entry, place_of};
ghost use Rattle.sm_market.specs.Matching.{standing};
ghost use Rattle.sm_market.specs.Stable.{Blocks};
ghost use Rattle.sm_market.specs.Pairing.{IsPairingOf};
ghost use Rattle.sm_market.specs.Blocking.{IsUnblocked, IsFirstBlocking};

use crate::market::Market;
use crate::pairing::Pairing;

impl Market {
    /// How a proposer stands: the place that it holds, or the length of its list where it is unmatched. Lower is better. The
    /// pairing has to be made for a market of these lists. Takes constant time.
    pub fn proposer_standing(&self, m: &Pairing, p: u32) -> u32
        requires in_range { p < length self.now.proposers }
        requires made { IsPairingOf self.now m.now }
        ensures standing { result ≡ standing self.now.proposers m.now.places.proposers p }
        ensures on_list { result ≤ length (row self.now.proposers p) }
    {
        match m.place(p) {
            Some(place) => place,
            None => self.proposer_len(p),
        }
    }

    /// How a reviewer stands: the place that it holds, or the length of its list where it is unmatched. Lower is better. The
    /// pairing has to be made for a market of these lists. Takes constant time.
    pub fn reviewer_standing(&self, m: &Pairing, r: u32) -> u32
        requires in_range { r < length self.now.reviewers }
        requires made { IsPairingOf self.now m.now }
        ensures standing { result ≡ standing self.now.reviewers m.now.places.reviewers r }
        ensures on_list { result ≤ length (row self.now.reviewers r) }
    {
        match m.reviewer_place(r) {
            Some(place) => place,
            None => self.reviewer_len(r),
        }
    }

    /// Whether `r`, who lists `p`, is unmatched or likes `p` more than its partner.
    ///
    /// The pairing has to be made for a market of these lists. Looks for `p` on `r`'s list, down to the place that `r`
    /// holds. Where the place of `r` on `p`'s list is known, [`Market::cross`] and [`Market::reviewer_standing`] tell
    /// the same in a time that doesn't grow with the lists.
    pub fn prefers(&self, m: &Pairing, r: u32, p: u32) -> bool
        requires in_range { r < length self.now.reviewers }
        requires listed { place_of self.now.reviewers r p < length (row self.now.reviewers r) }
        requires made { IsPairingOf self.now m.now }
        ensures { IsTrue result
            ↔ (place_of self.now.reviewers r p
            < standing self.now.reviewers m.now.places.reviewers r) }
    {
        let standing = self.reviewer_standing(m, r) as usize;
        self.reviewer_list(r)[..standing].contains(&p)
    }

    /// Whether `p` and the reviewer at `place` of its list block the pairing: each of the two would rather have the
    /// other than stay as it stands (Gusfield and Irving 1989, section 1.1.1; Manlove 2013, section 2.2).
    ///
    /// The pairing has to be made for a market of these lists. Takes the same time for all.
    pub fn blocks(&self, m: &Pairing, p: u32, place: u32) -> bool
        requires in_range { p < length self.now.proposers }
        requires on_list { place < length (row self.now.proposers p) }
        requires made { IsPairingOf self.now m.now }
        ensures { IsTrue result ↔ Blocks self.now m.now.places p place }
    {
        place < self.proposer_standing(m, p)
            && self.cross(p, place) < self.reviewer_standing(m, self.reviewer_at(p, place))
    }

    /// The first proposer of a pair that blocks the pairing, and its first place that makes such a pair. `None` exactly
    /// where no pair blocks, so that the pairing is stable.
    ///
    /// The pairing has to be made for a market of these lists. Takes time in proportion to the agents and entries.
    pub fn first_blocking(&self, m: &Pairing) -> Option<(u32, u32)>
        requires made { IsPairingOf self.now m.now }
        ensures { MatchOption result
            (IsUnblocked self.now m.now.places)
            (λ b. IsFirstBlocking self.now m.now.places b.0 b.1) }
    {
        for p in 0..self.proposers() {
            for place in 0..self.proposer_standing(m, p) {
                if self.blocks(m, p, place) {
                    return Some((p, place));
                }
            }
        }
        None
    }
}
