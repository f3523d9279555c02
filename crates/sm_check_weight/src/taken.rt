//! The set of rotations that an answer takes, and its matching.

ghost use Rattle.std.specs.Prelude.{◌≡◌, ℕ, ◌≤◌, ◌↔◌, [], List, true, false, if◌then◌else◌, IfOk, IsTrue, MatchOption, Contains};
ghost use Rattle.sm_instance.specs.Matching.{IsMatching};
ghost use Rattle.sm_check_net.specs.CheckedNets.{NeedsAreOf};
ghost use Rattle.sm_seats.specs.Correspondence.{IsSeating};
ghost use Rattle.sm_seats.specs.SeatMarket.{seat_market};
ghost use Rattle.sm_seats.specs.Seating.{seating_of};
ghost use Rattle.sm_report.specs.Lines.{LineData};
ghost use Rattle.sm_check_clauses.specs.Flows.{set_of_numbers, matching_of_set, IsAllowedSet};
ghost use Rattle.sm_check_clauses.specs.Said.{rotations_in};
ghost use Rattle.sm_check_clauses.specs.SeatMatchings.{first_of};
ghost use Rattle.sm_check_weight.specs.Kept.{IsWholeWalk, HasWholeWalk, HasNeededWalk, HasClosedSet, IsSetOf};

use crate::judging::Weighed;
use sm_check_clauses::ChainWalk;
use sm_check_net::{CheckedNet, is_closed, set_places};
use sm_instance::Assignment;
use sm_market::Pairing;
use std::alloc::{AllocError, Global};

/// A set of rotations, with an item for each, and its matching of the instance; and whether an answer takes it.
#[derive(Drop)]
pub(crate) struct Taken {
    pub(crate) set: Vec<bool>,
    pub(crate) matching: Assignment,
    pub(crate) is_said: bool,
}

impl Taken {
    /// No set is taken yet: the empty one stands in its place.
    pub(crate) fn none(
        alloc: Global,
        weighed: &Weighed,
        walk: &ChainWalk,
    ) -> Result<Taken, AllocError>
        requires seats { weighed.now.seats.now ≡ seating_of weighed.now.instance.now }
        requires seating { IsSeating weighed.now.instance.now
            (seating_of weighed.now.instance.now) }
        requires walk { HasWholeWalk weighed.now.instance.now walk.now }
        ensures set { IfOk result (λ taken. (above : List LineData)
            → IsWholeWalk weighed.now.instance.now above walk.now
            → IsSetOf weighed.now.instance.now (first_of weighed.now.instance.now above)
            (rotations_in weighed.now.instance.now above) [] taken) }
        ensures unsaid { IfOk result (λ taken. taken.is_said ≡ false) }
    {
        let set = set_of(alloc, walk.moves.len(), &[])?;
        let matching = matching_of(alloc, weighed, walk, &set)?;
        Ok(Taken {
            set,
            matching,
            is_said: false,
        })
    }

    /// The set of the rotations with these numbers, which count from 1, where each is there, the set is closed and its matching
    /// allowed.
    pub(crate) fn of(
        alloc: Global,
        weighed: &Weighed,
        walk: &ChainWalk,
        net: &CheckedNet,
        numbers: &[u32],
    ) -> Result<Option<Taken>, AllocError>
        requires seats { weighed.now.seats.now ≡ seating_of weighed.now.instance.now }
        requires seating { IsSeating weighed.now.instance.now
            (seating_of weighed.now.instance.now) }
        requires walk { HasNeededWalk weighed.now.instance.now walk.now net.now }
        ensures { IfOk result (λ taken. (above : List LineData)
            → IsWholeWalk weighed.now.instance.now above walk.now
            → NeedsAreOf (seat_market weighed.now.instance.now)
            (rotations_in weighed.now.instance.now above) net.now
            → MatchOption taken (¬ IsAllowedSet weighed.now.instance.now above numbers.now) (λ t.
            IsAllowedSet weighed.now.instance.now above numbers.now
            × IsSetOf weighed.now.instance.now (first_of weighed.now.instance.now above)
            (rotations_in weighed.now.instance.now above) numbers.now t × (t.is_said ≡ true))) }
    {
        if !are_there(net.size(), numbers) {
            return Ok(None);
        }
        let set = set_of(alloc, walk.moves.len(), numbers)?;
        if !is_closed(net, &set) {
            return Ok(None);
        }
        let matching = matching_of(alloc, weighed, walk, &set)?;
        if !weighed.instance.allowed(&matching) {
            return Ok(None);
        }
        Ok(Some(Taken {
            set,
            matching,
            is_said: true,
        }))
    }

    /// A set is taken. The first that is stays.
    pub(crate) fn say(&mut self, taken: Taken)
        ensures { self.new ≡ (if self.old.is_said then self.old else taken) }
    {
        if !self.is_said {
            *self = taken;
        }
    }
}

/// Whether all these numbers are those of rotations, of which there are so many.
fn are_there(size: u32, numbers: &[u32]) -> bool
    ensures { IsTrue result ↔ ((i : ℕ) → Contains numbers.now i → i ≤ size) }
{
    for &number in numbers {
        if number > size {
            return false;
        }
    }
    true
}

/// The set of the rotations with these numbers.
fn set_of(alloc: Global, size: usize, numbers: &[u32]) -> Result<Vec<bool>, AllocError>
    ensures { IfOk result (λ set. set.items ≡ set_of_numbers size numbers.now) }
{
    let mut set = vec![in alloc; false; size]?;
    for &number in numbers {
        if number > 0 && number as usize <= size {
            set[number as usize - 1] = true;
        }
    }
    Ok(set)
}

/// The matching of a set: each proposer has the reviewer of its seat.
fn matching_of(
    alloc: Global,
    weighed: &Weighed,
    walk: &ChainWalk,
    set: &[bool],
) -> Result<Assignment, AllocError>
    requires seats { weighed.now.seats.now ≡ seating_of weighed.now.instance.now }
    requires seating { IsSeating weighed.now.instance.now (seating_of weighed.now.instance.now) }
    requires set { HasClosedSet weighed.now.instance.now walk.now set.now }
    ensures places { IfOk result (λ a. (above : List LineData)
        → IsWholeWalk weighed.now.instance.now above walk.now
        → a.places.items ≡ matching_of_set weighed.now.instance.now above set.now) }
    ensures matching { IfOk result (λ a. IsMatching weighed.now.instance.now a.places.items) }
{
    let market = weighed.seats.market();
    let places = set_places(alloc, market, &walk.first, &walk.moves, set)?;
    let seated = Pairing::held(alloc, market, &places)?;
    weighed.seats.to_hospitals(alloc, &seated)
}
