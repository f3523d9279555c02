//! The walk of phase two.

ghost use Rattle.std.specs.Prelude.{◌≡◌, ℕ, ◌<◌, ◌≤◌, length, slice_index, take, [], IfOk, OnOk, MatchOption, false, IsTrue};
ghost use Rattle.sm_room.specs.Bounds.{IsGoodAt, IsLeft, IsLast, bound_in};
ghost use Rattle.sm_room.specs.Rotating.{met, HasTwoLeft, IsPathKept, IsCycleWalk, IsClosedWalk, IsOwnParty, AreUnmarked, AreHints};

use crate::hints::{Hints, second_place};
use crate::market::RoomMarket;
use std::alloc::{AllocError, Global};

/// A walk from person to next person: its path, the place of the second of each person on it, and for each person of the
/// market one more than its index on the path, or 0.
#[derive(Drop)]
pub(crate) struct CycleWalk {
    pub(crate) path: Vec<u32>,
    pub(crate) places: Vec<u32>,
    marks: Vec<u32>,
}

impl CycleWalk {
    /// Nobody is on the path yet.
    pub(crate) fn new(alloc: Global, market: &RoomMarket) -> Result<CycleWalk, AllocError>
        ensures empty { IfOk result (λ walk. walk.path.items ≡ []) }
        ensures path { IfOk result (λ walk. IsPathKept market.now walk.path.items walk.places.items
            walk.marks.items) }
    {
        let persons = market.persons() as usize;
        let path = Vec::with_capacity(alloc, persons)?;
        let places = Vec::with_capacity(alloc, persons)?;
        let marks = vec![in alloc; 0; persons]?;
        Ok(CycleWalk {
            path,
            places,
            marks,
        })
    }

    /// Takes all from an index on off the path.
    pub(crate) fn cut_off(&mut self, keep: usize)
        requires inside { (i : ℕ) → i < length self.old.path.items
            → slice_index self.old.path.items i < length self.old.marks.items }
        requires keep { keep ≤ length self.old.path.items }
        ensures path { self.new.path.items ≡ take keep self.old.path.items }
        ensures places { self.new.places.items ≡ take keep self.old.places.items }
        ensures marks { AreUnmarked self.old.path.items keep (length self.old.path.items)
            self.old.marks.items
            self.new.marks.items }
    {
        unmark(&self.path, keep, self.marks.as_mut_slice());
        self.path.truncate(keep);
        self.places.truncate(keep);
    }
}

/// Sets the marks of all from an index of the path on to 0.
fn unmark(path: &[u32], keep: usize, marks: &mut [u32])
    requires inside { (i : ℕ) → i < length path.now → slice_index path.now i < length marks.old }
    requires keep { keep ≤ length path.now }
    ensures { AreUnmarked path.now keep (length path.now) marks.old marks.new }
{
    for i in keep..path.len() {
        marks[path[i] as usize] = 0;
    }
}

/// Walks on from `from`, from person to next person, until one is met again, and returns its index on the path. `None` where
/// somebody has no two left, and so whoever the walk began with hasn't either.
pub(crate) fn go_round(
    market: &RoomMarket,
    bounds: &[u32],
    hints: &mut Hints,
    walk: &mut CycleWalk,
    from: u32,
) -> Result<Option<u32>, AllocError>
    requires one_each { length bounds.now ≡ length market.now }
    requires good { IsGoodAt market.now (bound_in bounds.now) }
    requires hints { AreHints market.now bounds.now hints.old.firsts.items hints.old.seconds.items }
    requires path { IsPathKept market.now walk.old.path.items walk.old.places.items
        walk.old.marks.items }
    requires walk { IsCycleWalk market.now bounds.now walk.old.path.items walk.old.places.items from }
    ensures hints { OnOk result (AreHints market.now bounds.now hints.new.firsts.items
        hints.new.seconds.items) }
    ensures path { OnOk result (IsPathKept market.now walk.new.path.items walk.new.places.items
        walk.new.marks.items) }
    ensures found { IfOk result (λ found. MatchOption found
        (¬ HasTwoLeft market.now bounds.now (met walk.old.path.items from 0))
        (λ one. (slice_index walk.new.path.items 0 ≡ met walk.old.path.items from 0)
        × IsClosedWalk market.now bounds.now walk.new.path.items walk.new.places.items one)) }
{
    let _persons = market.persons();
    let mut x = from;
    'steps: while let Some(place) = second_place(market, bounds, hints, x) {
        let mark = walk.marks[x as usize];
        if mark > 0 {
            return Ok(Some(mark - 1));
        }
        walk.path.push(x)?;
        walk.places.push(place)?;
        walk.marks[x as usize] = walk.path.len() as u32;
        x = last_of(market, bounds, market.at(x, place), x);
    }
    Ok(None)
}

/// Whether a cycle is a party by itself: each of its persons has two left, both of them on the cycle.
pub(crate) fn is_own_party(market: &RoomMarket, bounds: &[u32], walk: &CycleWalk, one: u32) -> bool
    requires one_each { length bounds.now ≡ length market.now }
    requires path { IsPathKept market.now walk.now.path.items walk.now.places.items
        walk.now.marks.items }
    requires closed { IsClosedWalk market.now bounds.now walk.now.path.items walk.now.places.items one }
    ensures yes { IsTrue result → IsOwnParty market.now bounds.now walk.now.path.items one }
    ensures no { result ≡ false → ¬ IsOwnParty market.now bounds.now walk.now.path.items one }
{
    let x = walk.path[one as usize];
    let place = walk.places[one as usize];
    if place < bounds[x as usize] {
        return false;
    }
    walk.marks[market.at(x, place) as usize] > one
}

/// The last that is left on a person's list, which isn't empty.
fn last_of(market: &RoomMarket, bounds: &[u32], y: u32, x: u32) -> u32
    requires in_range { y < length market.now }
    requires one_each { length bounds.now ≡ length market.now }
    requires good { IsGoodAt market.now (bound_in bounds.now) }
    requires some { IsLeft market.now (bound_in bounds.now) y x }
    ensures in_range { result < length market.now }
    ensures last { IsLast market.now (bound_in bounds.now) y result }
{
    market.at(y, bounds[y as usize])
}
