//! Phase one: each person proposes to the first that is left on its list, who cuts its list behind the proposer. Whoever is
//! cut off there proposes again (Irving 1985).

ghost use Rattle.std.specs.Prelude.{◌≡◌, ℕ, ◌+◌, ◌<◌, ◌≤◌, ◌⊎◌, ◌↔◌, length, slice_index, IfOk, MatchOption, IsTrue};
ghost use Rattle.sm_lists.specs.Rows.{row, entry};
ghost use Rattle.sm_lists.specs.Limits.{AreWithinLimits};
ghost use Rattle.sm_room.specs.Bounds.{IsLeft, IsGoodAt, bound_in};
ghost use Rattle.sm_room.specs.Proposing.{IsProgress, IsTakenIn, IsTakenFor, IsPassed};

use crate::market::RoomMarket;
use std::alloc::{AllocError, Global};

/// Whether the entry at a place of a person's list is left behind the bounds.
pub(crate) fn is_left(market: &RoomMarket, bounds: &[u32], x: u32, place: u32) -> bool
    requires in_range { x < length market.now }
    requires on_list { place < length (row market.now x) }
    requires one_each { length bounds.now ≡ length market.now }
    ensures { IsTrue result ↔ IsLeft market.now (bound_in bounds.now) x (entry market.now x place) }
{
    let y = market.at(x, place);
    let cross = market.cross(x, place);
    if x == y || cross >= market.len(y) {
        return false;
    }
    place <= bounds[x as usize] && cross <= bounds[y as usize]
}

/// The bounds once everybody has proposed.
pub(crate) fn proposed(alloc: Global, market: &RoomMarket) -> Result<Vec<u32>, AllocError>
    ensures one_each { IfOk result (λ bounds. length bounds.items ≡ length market.now) }
    ensures good { IfOk result (λ bounds. IsGoodAt market.now (bound_in bounds.items)) }
{
    let mut passed = vec![in alloc; 0; market.persons() as usize]?;
    let mut bounds = vec![in alloc; 0; market.persons() as usize]?;
    open_bounds(market, bounds.as_mut_slice());
    propose_all(market, passed.as_mut_slice(), bounds.as_mut_slice());
    Ok(bounds)
}

/// Sets each bound past the list.
fn open_bounds(market: &RoomMarket, bounds: &mut [u32])
    requires { length bounds.old ≡ length market.now }
    ensures one_each { length bounds.new ≡ length market.now }
    ensures free { (x : ℕ) → slice_index bounds.new x ≡ length (row market.now x) }
{
    for x in 0..market.persons() {
        bounds[x as usize] = market.len(x);
    }
}

/// Lets all persons propose in turn.
fn propose_all(market: &RoomMarket, passed: &mut [u32], bounds: &mut [u32])
    requires passed { length passed.old ≡ length market.now }
    requires at_start { (x : ℕ) → slice_index passed.old x ≡ 0 }
    requires bounds { length bounds.old ≡ length market.now }
    requires free { (x : ℕ) → slice_index bounds.old x ≡ length (row market.now x) }
    ensures one_each { length bounds.new ≡ length market.now }
    ensures good { IsGoodAt market.now (bound_in bounds.new) }
{
    for p in 0..market.persons() {
        let_propose(market, p, passed, bounds);
    }
}

/// Lets one more person propose, and in turn each one that is let go, until a person who held nobody takes one or one is at
/// the end of its list.
fn let_propose(market: &RoomMarket, p: u32, passed: &mut [u32], bounds: &mut [u32])
    requires in_range { p < length market.now }
    requires limits { AreWithinLimits market.now }
    requires before { IsProgress market.now p p passed.old bounds.old }
    ensures { IsProgress market.now (p + 1) (p + 1) passed.new bounds.new }
{
    let mut away = p;
    'proposals: while passed[away as usize] < market.len(away) {
        let Some(next) = propose(market, away, passed[away as usize], bounds) else {
            return;
        };
        passed[next as usize] += 1;
        away = next;
    }
}

/// Lets `x` propose to the person at a place of its list, if that is left. Returns who has to go on: `x` where it isn't,
/// else whom that person lets go for `x`, and `None` where it held nobody.
fn propose(market: &RoomMarket, x: u32, place: u32, bounds: &mut [u32]) -> Option<u32>
    requires in_range { x < length market.now }
    requires on_list { place < length (row market.now x) }
    requires one_each { length bounds.old ≡ length market.now }
    ensures { MatchOption result
        (IsTakenIn market.now x place bounds.old bounds.new)
        (λ z. IsTakenFor market.now x place z bounds.old bounds.new
        ⊎ IsPassed market.now x place z bounds.old bounds.new) }
{
    if !is_left(market, bounds, x, place) {
        return Some(x);
    }
    let y = market.at(x, place);
    let held = bounds[y as usize];
    bounds[y as usize] = market.cross(x, place);
    if held < market.len(y) {
        Some(market.at(y, held))
    } else {
        None
    }
}
