//! Tops: for each person the greatest rank that it may have, and what follows for others.
//!
//! A person's list is cut at its top, and whoever is cut off there has to look further down its own list, as in phase one. So
//! each person passes places that it holds in no stable matching within the tops, and the first that it could have is cut
//! behind it.

ghost use Rattle.std.specs.Prelude.{◌≡◌, ℕ, ◌+◌, ◌<◌, ◌≤◌, ◌↔◌, List, Option, length, slice_index, IfOk, MatchOption, IsTrue};
ghost use Rattle.std.specs.List.{sum_by};
ghost use Rattle.sm_lists.specs.Rows.{row};
ghost use Rattle.sm_theory.specs.Rooms.{IsRoomStable};
ghost use Rattle.sm_room_list.specs.RoomVectors.{room_rank};
ghost use Rattle.sm_room_list.specs.Cuts.{IsStableWithin};
ghost use Rattle.sm_room_list.specs.Tops.{IsOpen, AreTops, AreLowered, AreKept, IsLoweredAt};

use sm_room::RoomMarket;
use std::alloc::{AllocError, Global};

/// For each person its top, and how many places it has passed.
#[derive(Debug, Drop)]
pub(crate) struct Tops {
    pub(crate) tops: Vec<u32>,
    pub(crate) passed: Vec<u32>,
}

impl Tops {
    /// The tops that phase one leaves: no stable matching is lost.
    pub(crate) fn start(alloc: Global, market: &RoomMarket) -> Result<Tops, AllocError>
        ensures tops { IfOk result (λ t. AreTops market.now t.tops.items t.passed.items) }
        ensures all { IfOk result (λ t. (mates : List (Option ℕ)) → IsRoomStable market.now mates
            → IsStableWithin market.now t.tops.items mates) }
    {
        let mut tops = vec![in alloc; 0; market.persons() as usize]?;
        let mut passed = vec![in alloc; 0; market.persons() as usize]?;
        open_all(market, tops.as_mut_slice(), passed.as_mut_slice());
        Ok(Tops { tops, passed })
    }

    /// A copy.
    pub(crate) fn copied(&self, alloc: Global) -> Result<Tops, AllocError>
        ensures tops { IfOk result (λ t. t.tops.items ≡ self.now.tops.items) }
        ensures passed { IfOk result (λ t. t.passed.items ≡ self.now.passed.items) }
    {
        let tops = Vec::from_slice(alloc, &self.tops)?;
        let passed = Vec::from_slice(alloc, &self.passed)?;
        Ok(Tops { tops, passed })
    }

    /// A person's top.
    pub(crate) fn top(&self, x: u32) -> u32
        requires { x < length self.now.tops.items }
        ensures { result ≡ slice_index self.now.tops.items x }
    {
        self.tops[x as usize]
    }

    /// How many places a person has passed.
    pub(crate) fn passed(&self, x: u32) -> u32
        requires { x < length self.now.passed.items }
        ensures { result ≡ slice_index self.now.passed.items x }
    {
        self.passed[x as usize]
    }

    /// A person's rank is from now on at most `top`.
    pub(crate) fn cap(&mut self, market: &RoomMarket, x: u32, top: u32)
        requires in_range { x < length market.now }
        requires tops { AreTops market.now self.old.tops.items self.old.passed.items }
        ensures tops { AreTops market.now self.new.tops.items self.new.passed.items }
        ensures lowered { AreLowered market.now self.old.tops.items self.new.tops.items (λ mates. room_rank market.now mates x
            ≤ top) }
        ensures capped { slice_index self.new.tops.items x ≤ top }
    {
        cap(
            market,
            x,
            top,
            self.tops.as_mut_slice(),
            self.passed.as_mut_slice(),
        );
    }

    /// A person's rank is from now on above `least`.
    pub(crate) fn raise(&mut self, market: &RoomMarket, x: u32, least: u32)
        requires in_range { x < length market.now }
        requires on_list { least ≤ length (row market.now x) }
        requires tops { AreTops market.now self.old.tops.items self.old.passed.items }
        ensures tops { AreTops market.now self.new.tops.items self.new.passed.items }
        ensures lowered { AreLowered market.now self.old.tops.items self.new.tops.items (λ mates. least
            < room_rank market.now mates x) }
        ensures raised { (mates : List (Option ℕ)) → IsStableWithin market.now self.new.tops.items mates → least
            < room_rank market.now mates x }
    {
        raise(
            market,
            x,
            least,
            self.tops.as_mut_slice(),
            self.passed.as_mut_slice(),
        );
    }

    /// A person's rank is from now on this one.
    pub(crate) fn fix(&mut self, market: &RoomMarket, x: u32, rank: u32)
        requires in_range { x < length market.now }
        requires some { 1 ≤ rank }
        requires most { rank ≤ length (row market.now x) + 1 }
        requires tops { AreTops market.now self.old.tops.items self.old.passed.items }
        ensures tops { AreTops market.now self.new.tops.items self.new.passed.items }
        ensures lowered { AreLowered market.now self.old.tops.items self.new.tops.items (λ mates. room_rank market.now mates x
            ≡ rank) }
        ensures fixed { (mates : List (Option ℕ)) → IsStableWithin market.now self.new.tops.items mates
            → room_rank market.now mates x ≡ rank }
    {
        fix(
            market,
            x,
            rank,
            self.tops.as_mut_slice(),
            self.passed.as_mut_slice(),
        );
    }
}

/// Sets tops that cut nothing, and then those that phase one leaves.
fn open_all(market: &RoomMarket, tops: &mut [u32], passed: &mut [u32])
    requires top_each { length tops.old ≡ length market.now }
    requires passed_each { length passed.old ≡ length market.now }
    requires at_start { (x : ℕ) → slice_index passed.old x ≡ 0 }
    ensures tops { AreTops market.now tops.new passed.new }
    ensures all { (mates : List (Option ℕ)) → IsRoomStable market.now mates
        → IsStableWithin market.now tops.new mates }
{
    open_tops(market, tops);
    settle_all(market, tops, passed);
}

/// Sets each top to one more than the list is long, so that it cuts nothing.
pub(crate) fn open_tops(market: &RoomMarket, tops: &mut [u32])
    requires { length tops.old ≡ length market.now }
    ensures one_each { length tops.new ≡ length market.now }
    ensures free { (x : ℕ) → x < length market.now → slice_index tops.new x
        ≡ length (row market.now x) + 1 }
{
    for x in 0..market.persons() {
        tops[x as usize] = market.len(x) + 1;
    }
}

/// Lets each person in turn pass whom it can't have, and cuts the lists of those whom it could have.
fn settle_all(market: &RoomMarket, tops: &mut [u32], passed: &mut [u32])
    requires { AreTops market.now tops.old passed.old }
    ensures tops { AreTops market.now tops.new passed.new }
    ensures kept { AreKept market.now tops.old tops.new }
{
    for x in 0..market.persons() {
        settle(market, x, tops, passed);
    }
}

/// A person's rank is from now on at most `top`.
fn cap(market: &RoomMarket, x: u32, top: u32, tops: &mut [u32], passed: &mut [u32])
    requires in_range { x < length market.now }
    requires tops { AreTops market.now tops.old passed.old }
    ensures tops { AreTops market.now tops.new passed.new }
    ensures lowered { AreLowered market.now tops.old tops.new (λ mates. room_rank market.now mates x
        ≤ top) }
    ensures capped { slice_index tops.new x ≤ top }
{
    if let Some(z) = lower(market, x, top, tops) {
        settle(market, z, tops, passed);
    }
}

/// A person's rank is from now on this one.
fn fix(market: &RoomMarket, x: u32, rank: u32, tops: &mut [u32], passed: &mut [u32])
    requires in_range { x < length market.now }
    requires some { 1 ≤ rank }
    requires most { rank ≤ length (row market.now x) + 1 }
    requires tops { AreTops market.now tops.old passed.old }
    ensures tops { AreTops market.now tops.new passed.new }
    ensures lowered { AreLowered market.now tops.old tops.new (λ mates. room_rank market.now mates x
        ≡ rank) }
    ensures fixed { (mates : List (Option ℕ)) → IsStableWithin market.now tops.new mates
        → room_rank market.now mates x ≡ rank }
{
    raise(market, x, rank - 1, tops, passed);
    cap(market, x, rank, tops, passed);
}

/// A person's rank is from now on above `least`.
fn raise(market: &RoomMarket, x: u32, least: u32, tops: &mut [u32], passed: &mut [u32])
    requires in_range { x < length market.now }
    requires on_list { least ≤ length (row market.now x) }
    requires tops { AreTops market.now tops.old passed.old }
    ensures tops { AreTops market.now tops.new passed.new }
    ensures lowered { AreLowered market.now tops.old tops.new (λ mates. least
        < room_rank market.now mates x) }
    ensures raised { (mates : List (Option ℕ)) → IsStableWithin market.now tops.new mates → least
        < room_rank market.now mates x }
{
    let _persons = market.persons();
    for place in passed[x as usize]..least {
        shut(market, x, place, tops, passed);
    }
    settle(market, x, tops, passed);
}

/// Whoever stands at a place of x's list has to have somebody that it likes better than x, where x could have it.
fn shut(market: &RoomMarket, x: u32, place: u32, tops: &mut [u32], passed: &mut [u32])
    requires in_range { x < length market.now }
    requires on_list { place < length (row market.now x) }
    requires tops { AreTops market.now tops.old passed.old }
    ensures tops { AreTops market.now tops.new passed.new }
    ensures lowered { AreLowered market.now tops.old tops.new (λ mates. place + 1
        < room_rank market.now mates x) }
    ensures shut { ¬ IsOpen market.now tops.new x place }
{
    if !is_open(market, x, place, tops) {
        return;
    }
    let y = market.at(x, place);
    let top = market.cross(x, place);
    cap(market, y, top, tops, passed);
}

/// Lets a person pass whom it can't have, and cuts the list of the first that it could have behind it; then whoever is cut off
/// there, and so on.
fn settle(market: &RoomMarket, x: u32, tops: &mut [u32], passed: &mut [u32])
    requires in_range { x < length market.now }
    requires tops { AreTops market.now tops.old passed.old }
    ensures tops { AreTops market.now tops.new passed.new }
    ensures kept { AreKept market.now tops.old tops.new }
{
    let mut next = x;
    'turns: while let Some(z) = propose(market, next, tops, passed) {
        next = z;
    }
}

/// Lets a person pass whom it can't have, and cuts the list of the first that it could have behind it. Returns who stood last
/// there, if somebody is cut off.
fn propose(market: &RoomMarket, x: u32, tops: &mut [u32], passed: &mut [u32]) -> Option<u32>
    requires in_range { x < length market.now }
    requires tops { AreTops market.now tops.old passed.old }
    ensures tops { AreTops market.now tops.new passed.new }
    ensures kept { AreKept market.now tops.old tops.new }
    ensures cut_off { MatchOption result (Unit {0}) (λ z. (z < length market.now)
        × (sum_by (λ i. i) tops.new < sum_by (λ i. i) tops.old)) }
{
    pass(market, x, tops, passed);
    let place = passed[x as usize];
    if place >= market.len(x) {
        return None;
    }
    let y = market.at(x, place);
    let top = market.cross(x, place) + 1;
    lower(market, y, top, tops)
}

/// Lets a person pass whom it can't have.
fn pass(market: &RoomMarket, x: u32, tops: &[u32], passed: &mut [u32])
    requires in_range { x < length market.now }
    requires tops { AreTops market.now tops.now passed.old }
    ensures tops { AreTops market.now tops.now passed.new }
    ensures first { slice_index passed.new x < length (row market.now x)
        → IsOpen market.now tops.now x (slice_index passed.new x) }
{
    let _persons = market.persons();
    'places: while passed[x as usize] < market.len(x) {
        if is_open(market, x, passed[x as usize], tops) {
            return;
        }
        passed[x as usize] += 1;
    }
}

/// Whether a person and whoever stands at a place of its list are acceptable to each other, and it stands there before the top.
pub(crate) fn is_open(market: &RoomMarket, x: u32, place: u32, tops: &[u32]) -> bool
    requires in_range { x < length market.now }
    requires on_list { place < length (row market.now x) }
    requires one_each { length tops.now ≡ length market.now }
    ensures { IsTrue result ↔ IsOpen market.now tops.now x place }
{
    let y = market.at(x, place);
    let cross = market.cross(x, place);
    if x == y || cross >= market.len(y) {
        return false;
    }
    cross < tops[y as usize]
}

/// Lowers a top to a number, where it is above it. Returns who stood last there, if somebody is cut off.
fn lower(market: &RoomMarket, y: u32, top: u32, tops: &mut [u32]) -> Option<u32>
    requires in_range { y < length market.now }
    requires one_each { length tops.old ≡ length market.now }
    ensures lowered { IsLoweredAt tops.old y top tops.new }
    ensures cut_off { MatchOption result (Unit {0}) (λ z. (z < length market.now)
        × (sum_by (λ i. i) tops.new < sum_by (λ i. i) tops.old)) }
{
    let old = tops[y as usize];
    if old <= top {
        return None;
    }
    tops[y as usize] = top;
    if old > market.len(y) {
        return None;
    }
    Some(market.at(y, old - 1))
}
