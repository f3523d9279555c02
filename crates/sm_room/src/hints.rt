//! Where the first and the second that are left on a list stand.

ghost use Rattle.std.specs.Prelude.{◌≡◌, ℕ, replicate, ◌+◌, ◌<◌, ◌^◌, length, IfSome, IfOk, MatchOption, false, IsTrue};
ghost use Rattle.sm_lists.specs.Rows.{row, place_of};
ghost use Rattle.sm_theory.specs.Rooms.{AreRoomLists};
ghost use Rattle.sm_room.specs.Bounds.{IsLeft, IsSecond, IsGoodAt, bound_in};
ghost use Rattle.sm_room.specs.Rotating.{IsLeftFrom, IsSecondPlace, HasThreeLeft, IsShort, AreHints};

use crate::market::RoomMarket;
use crate::proposing::is_left;
use std::alloc::{AllocError, Global};

/// Where on each person's list the first and the second that are left stand at the earliest. As bounds fall both only go
/// back, so that each list is gone through once for each.
#[derive(Drop)]
pub(crate) struct Hints {
    firsts: Vec<u32>,
    seconds: Vec<u32>,
}

impl Hints {
    /// Nothing is known yet.
    pub(crate) fn new(alloc: Global, market: &RoomMarket) -> Result<Hints, AllocError>
        ensures firsts { IfOk result (λ hints. hints.firsts.items
            ≡ replicate (length market.now) 0) }
        ensures seconds { IfOk result (λ hints. hints.seconds.items
            ≡ replicate (length market.now) 0) }
    {
        let persons = market.persons() as usize;
        let firsts = vec![in alloc; 0; persons]?;
        let seconds = vec![in alloc; 0; persons]?;
        Ok(Hints { firsts, seconds })
    }
}

/// The first place from `from` on of a person's list whose entry is left.
pub(crate) fn left_from(market: &RoomMarket, bounds: &[u32], x: u32, from: u32) -> Option<u32>
    requires in_range { x < length market.now }
    requires one_each { length bounds.now ≡ length market.now }
    ensures first { MatchOption result
        ((y : ℕ) → IsLeft market.now (bound_in bounds.now) x y → place_of market.now x y < from)
        (λ i. IsLeftFrom market.now bounds.now x from i) }
    ensures fits { IfSome result (λ i. i < 2 ^ 24) }
    ensures lists { AreRoomLists market.now }
{
    let _persons = market.persons();
    for place in from..market.len(x) {
        if is_left(market, bounds, x, place) {
            return Some(place);
        }
    }
    None
}

/// The place of the second that is left on a person's list.
pub(crate) fn second_place(
    market: &RoomMarket,
    bounds: &[u32],
    hints: &mut Hints,
    x: u32,
) -> Option<u32>
    requires in_range { x < length market.now }
    requires one_each { length bounds.now ≡ length market.now }
    requires hints { AreHints market.now bounds.now hints.old.firsts.items hints.old.seconds.items }
    ensures hints { AreHints market.now bounds.now hints.new.firsts.items hints.new.seconds.items }
    ensures second { MatchOption result
        ((y : ℕ) → ¬ IsSecond market.now (bound_in bounds.now) x y)
        (λ i. IsSecondPlace market.now bounds.now x i) }
{
    let Some(first) = left_from(market, bounds, x, hints.firsts[x as usize]) else {
        return None;
    };
    hints.firsts[x as usize] = first;
    let from = hints.seconds[x as usize].max(first + 1);
    let Some(second) = left_from(market, bounds, x, from) else {
        return None;
    };
    hints.seconds[x as usize] = second;
    Some(second)
}

/// Whether three or more are left on a person's list.
pub(crate) fn has_three(market: &RoomMarket, bounds: &[u32], hints: &mut Hints, x: u32) -> bool
    requires in_range { x < length market.now }
    requires one_each { length bounds.now ≡ length market.now }
    requires good { IsGoodAt market.now (bound_in bounds.now) }
    requires hints { AreHints market.now bounds.now hints.old.firsts.items hints.old.seconds.items }
    ensures hints { AreHints market.now bounds.now hints.new.firsts.items hints.new.seconds.items }
    ensures three { IsTrue result → HasThreeLeft market.now bounds.now x }
    ensures short { result ≡ false → IsShort market.now bounds.now x }
{
    match second_place(market, bounds, hints, x) {
        Some(place) => place < bounds[x as usize],
        None => false,
    }
}
