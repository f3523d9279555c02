//! Pairings: matchings of a market, by places and by reviewers' partners.

ghost use Rattle.std.specs.Prelude.{◌≡◌, ℕ, ◌<◌, length, IfOk, IfErr, MatchOption, replicate, ◌+◌, ◌==◌, if◌then◌else◌};
ghost use Rattle.sm_market.specs.Lists.{row, entry, place_of, IsMarket};
ghost use Rattle.sm_market.specs.Matching.{held};
ghost use Rattle.sm_market.specs.Pairing.{paired, IsPairingOf};
ghost use Rattle.sm_market.specs.Cycles.{target_at, places_after, CanTurn};
ghost use Rattle.sm_market.specs.Footings.{AreNewFootings};
ghost use Rattle.sm_market.specs.PairingFaults.{IsPairingFault, AreHeld, IsPastList, IsFirstPastList, IsFirstTaken};

use crate::faults::PairingFault;
use crate::footing::Footing;
use crate::market::Market;
use std::alloc::{AllocError, Global};
use std::marker::Model;

/// A matching of a market: the place that each matched agent holds on its list, and each reviewer's proposer.
#[derive(Debug, Drop)]
pub struct Pairing {
    places: Vec<Option<u32>>,
    reviewer_places: Vec<Option<u32>>,
    holders: Vec<Option<u32>>,
}

impl Model for Pairing {
    ghost use Rattle.sm_market.specs.Pairing.{Paired, paired};

    ghost Value = { Paired };

    ghost view = { λ m. paired m.places.items m.reviewer_places.items m.holders.items };
}

impl Pairing {
    /// Makes a pairing of the place that each proposer is to hold on its list, `None` for one that is to be unmatched.
    ///
    /// Takes time and memory in proportion to the agents.
    ///
    /// # Errors
    ///
    /// `WrongLength` where there isn't one item for each proposer. Else `OutOfRange` at the first proposer whose place
    /// is past its list. Else `Taken` at the first proposer whose reviewer an earlier proposer has. `OutOfMemory`
    /// where memory ran out.
    pub fn of(
        alloc: Global,
        market: &Market,
        places: &[Option<u32>],
    ) -> Result<Pairing, PairingFault>
        ensures pairing { IfOk result (λ m. IsPairingOf market.now m) }
        ensures places { IfOk result (λ m. m.places.proposers ≡ places.now) }
        ensures fault { IfErr result (λ f. IsPairingFault market.now places.now f) }
    {
        if places.len() != market.proposers() as usize {
            return Err(PairingFault::WrongLength);
        }
        if let Some(p) = first_past(market, places) {
            return Err(PairingFault::OutOfRange(p));
        }
        let mut reviewer_places = vec![in alloc; None; market.reviewers() as usize]?;
        let mut holders = vec![in alloc; None; market.reviewers() as usize]?;
        if let Some(p) = first_taken(market, places, &mut reviewer_places, &mut holders) {
            return Err(PairingFault::Taken(p));
        }
        Ok(Pairing {
            places: Vec::from_slice(alloc, places)?,
            reviewer_places,
            holders,
        })
    }

    /// The pairing in which the proposers hold these places, one for each, all on their lists and no two with one reviewer.
    ///
    /// Takes time and memory in proportion to the agents.
    ///
    /// # Errors
    ///
    /// `AllocError` where memory ran out, and only then.
    pub fn held(
        alloc: Global,
        market: &Market,
        places: &[Option<u32>],
    ) -> Result<Pairing, AllocError>
        requires { AreHeld market.now places.now }
        ensures pairing { IfOk result (λ m. IsPairingOf market.now m) }
        ensures places { IfOk result (λ m. m.places.proposers ≡ places.now) }
    {
        let mut reviewer_places = vec![in alloc; None; market.reviewers() as usize]?;
        let mut holders = vec![in alloc; None; market.reviewers() as usize]?;
        seat_all(market, places, &mut reviewer_places, &mut holders);
        Ok(Pairing {
            places: Vec::from_slice(alloc, places)?,
            reviewer_places,
            holders,
        })
    }

    /// A pairing with the same partners.
    ///
    /// Takes time and memory in proportion to the agents.
    ///
    /// # Errors
    ///
    /// `AllocError` where memory ran out, and only then.
    pub fn copy(&self, alloc: Global) -> Result<Pairing, AllocError>
        ensures { IfOk result (λ copy. copy ≡ self.now) }
    {
        Ok(Pairing {
            places: Vec::from_slice(alloc, &self.places)?,
            reviewer_places: Vec::from_slice(alloc, &self.reviewer_places)?,
            holders: Vec::from_slice(alloc, &self.holders)?,
        })
    }

    /// The place that a proposer holds on its list, `None` where it is unmatched. All are numbered from 0. Takes constant time.
    pub fn place(&self, p: u32) -> Option<u32>
        requires { p < length self.now.places.proposers }
        ensures { result ≡ held self.now.places.proposers p }
    {
        self.places[p as usize]
    }

    /// The place that a reviewer holds on its list, `None` where it is unmatched. All are numbered from 0. Takes constant time.
    pub fn reviewer_place(&self, r: u32) -> Option<u32>
        requires { r < length self.now.places.reviewers }
        ensures { result ≡ held self.now.places.reviewers r }
    {
        self.reviewer_places[r as usize]
    }

    /// The proposer that a reviewer has, `None` where it is unmatched. All are numbered from 0. Takes constant time.
    pub fn holder(&self, r: u32) -> Option<u32>
        requires { r < length self.now.holders }
        ensures { result ≡ held self.now.holders r }
    {
        self.holders[r as usize]
    }

    /// Moves each proposer of a cycle to the reviewer of the next pair, and the last one to the reviewer of the first
    /// pair. All others keep their partners.
    ///
    /// The pairing has to be made for a market of these lists. The proposers of the cycle have to differ, each has to
    /// have the reviewer of its pair, and each and the reviewer to which it moves have to list each other.
    ///
    /// Takes no memory. The new reviewer is looked for on the proposer's list from the place that it holds on, and
    /// before that place only where it isn't found there. So the time is in proportion to the cycle and to the places
    /// by which its proposers move down their lists, where all of them move down.
    pub fn turn(&mut self, market: &Market, cycle: &[(u32, u32)])
        requires made { IsPairingOf market.now self.old }
        requires cycle { CanTurn market.now self.old.places cycle.now }
        ensures moved { self.new.places.proposers
            ≡ places_after market.now self.old.places.proposers cycle.now }
        ensures made { IsPairingOf market.now self.new }
    {
        prove_eq!(self.places.len(), market.proposers() as usize);
        turn_round(
            market,
            cycle,
            &mut self.places,
            &mut self.reviewer_places,
            &mut self.holders,
        );
    }

    /// Moves the proposers of a cycle as [`Pairing::turn`] does, where it is known how they and their new reviewers will stand.
    ///
    /// The pairing and the cycle have to be as there. For each pair of the cycle `to` has the place of the next pair's
    /// reviewer on the proposer's list, and the proposer's place on that one's. Takes no memory, and time in proportion to
    /// the cycle.
    pub fn turn_to(&mut self, market: &Market, cycle: &[(u32, u32)], to: &[Footing])
        requires made { IsPairingOf market.now self.old }
        requires cycle { CanTurn market.now self.old.places cycle.now }
        requires to { AreNewFootings market.now cycle.now to.now }
        ensures moved { self.new.places.proposers
            ≡ places_after market.now self.old.places.proposers cycle.now }
        ensures made { IsPairingOf market.now self.new }
    {
        prove_eq!(self.places.len(), market.proposers() as usize);
        turn_round_to(
            market,
            cycle,
            to,
            &mut self.places,
            &mut self.reviewer_places,
            &mut self.holders,
        );
    }
}

/// The first proposer whose place is past its list.
fn first_past(market: &Market, places: &[Option<u32>]) -> Option<u32>
    requires { length places.now ≡ length market.now.proposers }
    ensures { MatchOption result
        ((q : ℕ) → ¬ IsPastList market.now places.now q)
        (λ p. IsFirstPastList market.now places.now p) }
{
    for p in 0..market.proposers() {
        if let Some(place) = places[p as usize] {
            if place >= market.proposer_len(p) {
                return Some(p);
            }
        }
    }
    None
}

/// Gives each proposer the reviewer at its place, up to the first proposer whose reviewer is taken, which it returns.
fn first_taken(
    market: &Market,
    places: &[Option<u32>],
    reviewer_places: &mut [Option<u32>],
    holders: &mut [Option<u32>],
) -> Option<u32>
    requires one_each { length places.now ≡ length market.now.proposers }
    requires on_lists { (q : ℕ) → ¬ IsPastList market.now places.now q }
    requires no_places { reviewer_places.old ≡ replicate (length market.now.reviewers) None }
    requires no_holders { holders.old ≡ replicate (length market.now.reviewers) None }
    ensures { MatchOption result
        (IsPairingOf market.now (paired places.now reviewer_places.new holders.new))
        (λ p. IsFirstTaken market.now places.now p) }
{
    for p in 0..market.proposers() {
        if let Some(place) = places[p as usize] {
            let r = market.reviewer_at(p, place);
            if holders[r as usize].is_some() {
                return Some(p);
            }
            holders[r as usize] = Some(p);
            reviewer_places[r as usize] = Some(market.cross(p, place));
        }
    }
    None
}

/// Gives each proposer the reviewer at its place, where no two have one.
fn seat_all(
    market: &Market,
    places: &[Option<u32>],
    reviewer_places: &mut [Option<u32>],
    holders: &mut [Option<u32>],
)
    requires held { AreHeld market.now places.now }
    requires no_places { reviewer_places.old ≡ replicate (length market.now.reviewers) None }
    requires no_holders { holders.old ≡ replicate (length market.now.reviewers) None }
    ensures { IsPairingOf market.now (paired places.now reviewer_places.new holders.new) }
{
    for p in 0..market.proposers() {
        if let Some(place) = places[p as usize] {
            let r = market.reviewer_at(p, place);
            holders[r as usize] = Some(p);
            reviewer_places[r as usize] = Some(market.cross(p, place));
        }
    }
}

/// Moves each proposer of a cycle to the reviewer of the next pair.
fn turn_round(
    market: &Market,
    cycle: &[(u32, u32)],
    places: &mut [Option<u32>],
    reviewer_places: &mut [Option<u32>],
    holders: &mut [Option<u32>],
)
    requires market { IsMarket market.now }
    requires made { IsPairingOf market.now (paired places.old reviewer_places.old holders.old) }
    requires cycle { CanTurn market.now (paired places.old reviewer_places.old holders.old).places
        cycle.now }
    ensures moved { places.new ≡ places_after market.now places.old cycle.now }
    ensures made { IsPairingOf market.now (paired places.new reviewer_places.new holders.new) }
{
    for i in 0..cycle.len() {
        let p = cycle[i].0;
        let target = cycle[next_in(i, cycle.len())].1;
        let from = places[p as usize].unwrap_or(0);
        let place = place_from(market, p, from, target);
        places[p as usize] = Some(place);
        reviewer_places[target as usize] = Some(market.cross(p, place));
        holders[target as usize] = Some(p);
    }
}

/// Moves each proposer of a cycle to the reviewer of the next pair, to places that are known.
fn turn_round_to(
    market: &Market,
    cycle: &[(u32, u32)],
    to: &[Footing],
    places: &mut [Option<u32>],
    reviewer_places: &mut [Option<u32>],
    holders: &mut [Option<u32>],
)
    requires market { IsMarket market.now }
    requires made { IsPairingOf market.now (paired places.old reviewer_places.old holders.old) }
    requires cycle { CanTurn market.now (paired places.old reviewer_places.old holders.old).places
        cycle.now }
    requires to { AreNewFootings market.now cycle.now to.now }
    ensures moved { places.new ≡ places_after market.now places.old cycle.now }
    ensures made { IsPairingOf market.now (paired places.new reviewer_places.new holders.new) }
{
    let _ = market;
    for i in 0..cycle.len() {
        let p = cycle[i].0;
        let target = cycle[next_in(i, cycle.len())].1;
        let Footing { proposer, reviewer } = to[i];
        places[p as usize] = Some(proposer);
        reviewer_places[target as usize] = Some(reviewer);
        holders[target as usize] = Some(p);
    }
}

/// The number of the pair that follows pair `i` round a cycle of `size` pairs. Pairs are numbered from 0. Takes constant time.
pub fn next_in(i: usize, size: usize) -> usize
    requires { i < size }
    ensures { result ≡ (if i + 1 == size then 0 else i + 1) }
{
    if i + 1 == size { 0 } else { i + 1 }
}

/// The place of `r`, who is listed, on `p`'s list, looked for from a place on and then before it. All are numbered from 0. Takes
/// no memory, and time in proportion to the places that are passed.
pub fn place_from(market: &Market, p: u32, from: u32, r: u32) -> u32
    requires in_range { p < length market.now.proposers }
    requires listed { place_of market.now.proposers p r < length (row market.now.proposers p) }
    requires on_list { from < length (row market.now.proposers p) }
    ensures { result ≡ place_of market.now.proposers p r }
{
    for place in from..market.proposer_len(p) {
        if market.reviewer_at(p, place) == r {
            return place;
        }
    }
    let mut place = 0;
    'earlier: while market.reviewer_at(p, place) != r {
        place += 1;
    }
    place
}
