//! Phase two: cutting lists round cycles of persons, each of whom has the next last on the list of its second, until nobody
//! has three or more left (Irving 1985).
//!
//! A walk from person to next person closes a cycle. Once that is cut, the walk goes on from whoever is before the cycle on
//! its path: those before it who have two left have the same person next as before, and those who have less are never met
//! again. It ends where the person that it began with has one left, or where the cycle is a party by itself: each of its
//! persons has two left, both of the cycle. To cut that would empty their lists, and the whole walk stands on it.
//!
//! So phase two takes time in proportion to the persons and entries. Each step of a walk puts a person on the path. Those on a
//! cycle that is cut leave it, and the one before them to be put there again: the cut pays for these, since it takes an entry
//! off the list of each one's second. All others leave it at the end of a walk, and have less than two left or are a party by
//! themselves; either way no walk comes to them again. Where the first and the second on a list stand is sought from where they
//! stood last.

ghost use Rattle.std.specs.Prelude.{◌≡◌, ℕ, ◌<◌, ◌≤◌, ◌⊎◌, length, slice_index, [], IfOk, OnOk, MatchOption};
ghost use Rattle.sm_room.specs.Bounds.{IsLeft, IsFirst, IsGoodAt, bound_in};
ghost use Rattle.sm_room.specs.Rotating.{met, IsShort, IsPathKept, IsCycleWalk, IsClosedWalk, IsOwnParty, AreSecondsCut, IsRotated, AreHints, GoesTo};

use crate::cycle_walk::{CycleWalk, go_round, is_own_party};
use crate::hints::{Hints, has_three, left_from};
use crate::market::RoomMarket;
use std::alloc::{AllocError, Global};

/// Goes on until nobody has three or more left.
pub(crate) fn rotate_all(
    alloc: Global,
    market: &RoomMarket,
    bounds: &mut [u32],
) -> Result<(), AllocError>
    requires one_each { length bounds.old ≡ length market.now }
    requires good { IsGoodAt market.now (bound_in bounds.old) }
    ensures one_each { OnOk result (length bounds.new ≡ length market.now) }
    ensures good { OnOk result (IsGoodAt market.now (bound_in bounds.new)) }
    ensures short { OnOk result ((x : ℕ) → x < length market.now
        → IsShort market.now bounds.new x) }
{
    let mut hints = Hints::new(alloc, market)?;
    let mut walk = CycleWalk::new(alloc, market)?;
    for x in 0..market.persons() {
        shorten(market, bounds, &mut hints, &mut walk, x)?;
    }
    Ok(())
}

/// Where a person has three or more left, cuts cycles that the walk from it meets, until it has less. The path is empty before
/// and after.
fn shorten(
    market: &RoomMarket,
    bounds: &mut [u32],
    hints: &mut Hints,
    walk: &mut CycleWalk,
    x: u32,
) -> Result<(), AllocError>
    requires in_range { x < length market.now }
    requires one_each { length bounds.old ≡ length market.now }
    requires good { IsGoodAt market.now (bound_in bounds.old) }
    requires hints { AreHints market.now bounds.old hints.old.firsts.items hints.old.seconds.items }
    requires empty { walk.old.path.items ≡ [] }
    requires path { IsPathKept market.now walk.old.path.items walk.old.places.items
        walk.old.marks.items }
    ensures one_each { OnOk result (length bounds.new ≡ length market.now) }
    ensures good { OnOk result (IsGoodAt market.now (bound_in bounds.new)) }
    ensures lower { OnOk result ((y : ℕ) → slice_index bounds.new y ≤ slice_index bounds.old y) }
    ensures short { OnOk result (IsShort market.now bounds.new x) }
    ensures hints { OnOk result (AreHints market.now bounds.new hints.new.firsts.items
        hints.new.seconds.items) }
    ensures empty { OnOk result (walk.new.path.items ≡ []) }
    ensures path { OnOk result (IsPathKept market.now walk.new.path.items walk.new.places.items
        walk.new.marks.items) }
{
    if !has_three(market, bounds, hints, x) {
        return Ok(());
    }
    let mut from = x;
    'turns: while let Some(one) = next_cycle(market, bounds, hints, walk, from)? {
        cut(market, bounds, &walk.path, &walk.places, one);
        let keep = (one as usize).saturating_sub(1);
        from = walk.path[keep];
        walk.cut_off(keep);
    }
    walk.cut_off(0);
    Ok(())
}

/// The index on the path of the next cycle that can be cut. `None` where there is none, and whoever the walk began with has no
/// three left.
fn next_cycle(
    market: &RoomMarket,
    bounds: &[u32],
    hints: &mut Hints,
    walk: &mut CycleWalk,
    from: u32,
) -> Result<Option<u32>, AllocError>
    requires one_each { length bounds.now ≡ length market.now }
    requires good { IsGoodAt market.now (bound_in bounds.now) }
    requires hints { AreHints market.now bounds.now hints.old.firsts.items hints.old.seconds.items }
    requires path { IsPathKept market.now walk.old.path.items walk.old.places.items
        walk.old.marks.items }
    requires walk { IsCycleWalk market.now bounds.now walk.old.path.items walk.old.places.items from }
    ensures hints { OnOk result (AreHints market.now bounds.now hints.new.firsts.items
        hints.new.seconds.items) }
    ensures path { OnOk result (IsPathKept market.now walk.new.path.items walk.new.places.items
        walk.new.marks.items) }
    ensures found { IfOk result (λ found. MatchOption found
        (IsShort market.now bounds.now (met walk.old.path.items from 0))
        (λ one. (slice_index walk.new.path.items 0 ≡ met walk.old.path.items from 0)
        × IsClosedWalk market.now bounds.now walk.new.path.items walk.new.places.items one
        × (¬ IsOwnParty market.now bounds.now walk.new.path.items one))) }
{
    let Some(one) = go_round(market, bounds, hints, walk, from)? else {
        return Ok(None);
    };
    if is_own_party(market, bounds, walk, one) {
        return Ok(None);
    }
    Ok(Some(one))
}

/// Cuts the list of the second of each person of the cycle behind that person. The cycle isn't a party by itself.
fn cut(market: &RoomMarket, bounds: &mut [u32], path: &[u32], places: &[u32], one: u32)
    requires one_each { length bounds.old ≡ length market.now }
    requires good { IsGoodAt market.now (bound_in bounds.old) }
    requires closed { IsClosedWalk market.now bounds.old path.now places.now one }
    requires apart { ¬ IsOwnParty market.now bounds.old path.now one }
    ensures rotated { IsRotated market.now bounds.old bounds.new }
    ensures cut { AreSecondsCut market.now bounds.old path.now one (length path.now) bounds.new }
{
    for i in one as usize..path.len() {
        let y = market.at(path[i], places[i]);
        bounds[y as usize] = market.cross(path[i], places[i]);
    }
}

/// The first that is left on each person's list, or the person itself.
pub(crate) fn firsts(
    alloc: Global,
    market: &RoomMarket,
    bounds: &[u32],
) -> Result<Vec<u32>, AllocError>
    requires { length bounds.now ≡ length market.now }
    ensures one_each { IfOk result (λ next. length next.items ≡ length market.now) }
    ensures goes { IfOk result (λ next. (x : ℕ) → x < length market.now
        → GoesTo market.now (bound_in bounds.now) next.items x) }
{
    let mut next = Vec::with_capacity(alloc, market.persons() as usize)?;
    for x in 0..market.persons() {
        next.push(first_or_self(market, bounds, x))?;
    }
    Ok(next)
}

/// The first that is left on a person's list, or the person itself.
fn first_or_self(market: &RoomMarket, bounds: &[u32], x: u32) -> u32
    requires in_range { x < length market.now }
    requires one_each { length bounds.now ≡ length market.now }
    ensures { IsFirst market.now (bound_in bounds.now) x result
        ⊎ ((result ≡ x) × ((y : ℕ) → ¬ IsLeft market.now (bound_in bounds.now) x y)) }
{
    match left_from(market, bounds, x, 0) {
        Some(place) => market.at(x, place),
        None => x,
    }
}
