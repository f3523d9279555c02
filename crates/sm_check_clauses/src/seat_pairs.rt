//! Matchings of seats that an answer writes by pairs of a proposer and a seat.

ghost use Rattle.std.specs.Prelude.{◌≡◌, ℕ, ◌<◌, ◌↔◌, [], List, length, IsTrue, IfOk, MatchOption};
ghost use Rattle.sm_market.specs.Lists.{row, place_of};
ghost use Rattle.sm_market.specs.Pairing.{IsPairingOf};
ghost use Rattle.sm_market.specs.PairingFaults.{AreHeld};
ghost use Rattle.sm_market.specs.Stable.{IsStable};
ghost use Rattle.sm_check_clauses.specs.SeatMatchings.{seat_places_in, AreSeatPairs};
ghost use Rattle.sm_check_clauses.specs.SeatPairsKept.{TakesSeat};

use sm_market::{Market, Pairing};
use std::alloc::{AllocError, Global};

/// A matching of seats that grows: the place of each proposer's seat on its list, and which seats are taken.
#[derive(Drop)]
pub struct SeatPairs {
    pub places: Vec<Option<u32>>,
    pub taken: Vec<bool>,
}

impl SeatPairs {
    /// No pair so far. Takes time and memory in proportion to the agents of the market.
    ///
    /// # Errors
    ///
    /// `AllocError` where memory ran out, and only then.
    pub fn none(alloc: Global, market: &Market) -> Result<SeatPairs, AllocError>
        ensures { IfOk result (λ pairs. AreSeatPairs market.now [] pairs) }
    {
        Ok(SeatPairs {
            places: vec![in alloc; None; market.proposers() as usize]?,
            taken: vec![in alloc; false; market.reviewers() as usize]?,
        })
    }

    /// Whether a pair may stand behind those that are kept. It is kept too then. Takes time in the length of the proposer's list.
    pub fn add(&mut self, market: &Market, p: u32, seat: u32) -> bool
        requires proposer { p < length market.now.proposers }
        requires seat { seat < length market.now.reviewers }
        requires one_each { length self.old.places.items ≡ length market.now.proposers }
        requires seats_each { length self.old.taken.items ≡ length market.now.reviewers }
        ensures { (pairs : List (ℕ × ℕ)) → AreSeatPairs market.now pairs self.old
            → TakesSeat market.now pairs (p, seat) self.new result }
    {
        let Some(place) = place_of(market, p, seat) else {
            return false;
        };
        if self.places[p as usize].is_some() {
            return false;
        }
        if self.taken[seat as usize] {
            return false;
        }
        self.places[p as usize] = Some(place);
        self.taken[seat as usize] = true;
        true
    }

    /// The matching of the pairs that are kept. Takes time and memory in proportion to the agents of the market.
    ///
    /// # Errors
    ///
    /// `AllocError` where memory ran out, and only then.
    pub fn pairing(&self, alloc: Global, market: &Market) -> Result<Pairing, AllocError>
        requires { AreHeld market.now self.now.places.items }
        ensures pairing { IfOk result (λ m. IsPairingOf market.now m) }
        ensures places { IfOk result (λ m. (pairs : List (ℕ × ℕ))
            → AreSeatPairs market.now pairs self.now
            → m.places ≡ seat_places_in market.now pairs) }
    {
        prove!(market.proposers() < 1 << 24);
        Pairing::held(alloc, market, &self.places)
    }
}

/// The place of a seat on a proposer's list, `None` where it isn't on it.
fn place_of(market: &Market, p: u32, seat: u32) -> Option<u32>
    requires { p < length market.now.proposers }
    ensures { MatchOption result
        (place_of market.now.proposers p seat ≡ length (row market.now.proposers p))
        (λ place. (place ≡ place_of market.now.proposers p seat)
        × (place < length (row market.now.proposers p))) }
{
    for place in 0..market.proposer_len(p) {
        if market.reviewer_at(p, place) == seat {
            return Some(place);
        }
    }
    None
}

/// Whether no pair of the market blocks a matching. Takes time in proportion to the agents and entries.
pub fn is_unblocked(market: &Market, m: &Pairing) -> bool
    requires { IsPairingOf market.now m.now }
    ensures { IsTrue result ↔ IsStable market.now m.now.places }
{
    market.first_blocking(m).is_none()
}
