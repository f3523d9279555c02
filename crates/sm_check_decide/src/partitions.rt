//! Whether a partition of roommates into parties is stable.

ghost use Rattle.std.specs.Prelude.{◌≡◌, ◌↔◌, ◌<◌, ◌^◌, ℕ, length, IsTrue, IfOk, MatchOption, slice_index, ◌==◌, if◌then◌else◌};
ghost use Rattle.sm_lists.specs.Rows.{row, place_of};
ghost use Rattle.sm_theory.specs.Partitions.{IsStablePartition, predecessor_in, successor_in};
ghost use Rattle.sm_check_decide.specs.Rooms.{ArePredecessors, ArePartyPlaces, PrefersSuccessor, AreDistinct};

use crate::room_lists::{RoomLists, is_unblocked};
use std::alloc::{AllocError, Global};

/// Whether the parties, given by each person's successor in its party, itself where it is alone, are a stable partition
/// (Tan 1991). Takes time in proportion to the persons and entries, and memory in proportion to the persons.
///
/// # Errors
///
/// `AllocError` where memory ran out, and only then.
pub fn is_stable_partition(
    alloc: Global,
    lists: &RoomLists,
    next: &[u32],
) -> Result<bool, AllocError>
    requires one_each { length next.now ≡ length lists.now }
    requires in_range { (x : ℕ) → x < length lists.now → successor_in next.now x
        < length lists.now }
    ensures { IfOk result (λ stable. IsTrue stable ↔ IsStablePartition lists.now next.now) }
{
    let _persons = lists.persons();
    let Some(before) = predecessors(alloc, next)? else {
        return Ok(false);
    };
    if !prefer_successors(lists, next, &before) {
        return Ok(false);
    }
    let standings = party_places(alloc, lists, next, &before)?;
    Ok(is_unblocked(lists, &standings))
}

/// Each person's predecessor. `None` exactly where two have one successor.
fn predecessors(alloc: Global, next: &[u32]) -> Result<Option<Vec<u32>>, AllocError>
    requires few { length next.now < 2 ^ 24 }
    requires in_range { (x : ℕ) → x < length next.now → successor_in next.now x < length next.now }
    ensures { IfOk result (λ found. MatchOption found
        (¬ AreDistinct next.now)
        (λ before. ArePredecessors next.now before.items)) }
{
    let persons = next.len() as u32;
    let mut before = vec![in alloc; persons; next.len()]?;
    for x in 0..persons {
        let y = next[x as usize] as usize;
        if before[y] < persons {
            return Ok(None);
        }
        before[y] = x;
    }
    Ok(Some(before))
}

/// Whether each person is alone or finds its successor acceptable, and prefers it to its predecessor where they differ.
fn prefer_successors(lists: &RoomLists, next: &[u32], before: &[u32]) -> bool
    requires next_each { length next.now ≡ length lists.now }
    requires before_each { length before.now ≡ length lists.now }
    ensures { IsTrue result ↔ ((x : ℕ) → x < length lists.now
        → PrefersSuccessor lists.now x (slice_index next.now x) (slice_index before.now x)) }
{
    for x in 0..lists.persons() {
        if !prefers_successor(lists, x, next[x as usize], before[x as usize]) {
            return false;
        }
    }
    true
}

/// Whether a person is alone or finds its successor acceptable, and prefers it to its predecessor where they differ.
fn prefers_successor(lists: &RoomLists, x: u32, after: u32, before: u32) -> bool
    requires { x < length lists.now }
    ensures { IsTrue result ↔ PrefersSuccessor lists.now x after before }
{
    if after != x && !lists.is_acceptable(x, after) {
        return false;
    }
    after == before || lists.place(x, after) < lists.place(x, before)
}

/// The places at which persons stand, by their predecessors.
fn party_places(
    alloc: Global,
    lists: &RoomLists,
    next: &[u32],
    before: &[u32],
) -> Result<Vec<u32>, AllocError>
    requires one_each { length next.now ≡ length lists.now }
    requires before { ArePredecessors next.now before.now }
    ensures { IfOk result (λ standings. ArePartyPlaces lists.now next.now standings.items) }
{
    let mut standings = Vec::with_capacity(alloc, next.len())?;
    for x in 0..lists.persons() {
        standings.push(party_place(lists, x, before[x as usize]))?;
    }
    Ok(standings)
}

/// The place of a person's predecessor on its list; who is alone ranks itself last.
fn party_place(lists: &RoomLists, x: u32, before: u32) -> u32
    requires { x < length lists.now }
    ensures { result ≡ (if before == x then length (row lists.now x) else place_of lists.now x
        before) }
{
    if before == x {
        lists.len(x)
    } else {
        lists.place(x, before)
    }
}
