//! Whether a matching of roommates is stable.

ghost use Rattle.std.specs.Prelude.{◌≡◌, ◌↔◌, ◌<◌, ℕ, length, IsTrue, IfOk};
ghost use Rattle.sm_theory.specs.Rooms.{IsRoomMatching, IsRoomStable, mate_of, place_of_mate};
ghost use Rattle.sm_check_decide.specs.Rooms.{AreMatePlaces};

use crate::room_lists::{RoomLists, is_unblocked};
use std::alloc::{AllocError, Global};

/// Whether a matching, given by each person's mate, is stable (Irving 1985). Takes time in proportion to the persons and
/// entries, and memory in proportion to the persons.
///
/// # Errors
///
/// `AllocError` where memory ran out, and only then.
pub fn is_room_stable(
    alloc: Global,
    lists: &RoomLists,
    mates: &[Option<u32>],
) -> Result<bool, AllocError>
    requires { IsRoomMatching lists.now mates.now }
    ensures { IfOk result (λ stable. IsTrue stable ↔ IsRoomStable lists.now mates.now) }
{
    let standings = mate_places(alloc, lists, mates)?;
    Ok(is_unblocked(lists, &standings))
}

/// The places at which persons stand, by their mates.
fn mate_places(
    alloc: Global,
    lists: &RoomLists,
    mates: &[Option<u32>],
) -> Result<Vec<u32>, AllocError>
    requires { length mates.now ≡ length lists.now }
    ensures { IfOk result (λ standings. AreMatePlaces lists.now mates.now standings.items) }
{
    let mut standings = Vec::with_capacity(alloc, mates.len())?;
    for x in 0..lists.persons() {
        standings.push(place_of_mate(lists, x, mates[x as usize]))?;
    }
    Ok(standings)
}

/// The place of somebody on `x`'s list, or one past the list for nobody.
fn place_of_mate(lists: &RoomLists, x: u32, mate: Option<u32>) -> u32
    requires { x < length lists.now }
    ensures { result ≡ place_of_mate lists.now x mate }
{
    match mate {
        Some(y) => lists.place(x, y),
        None => lists.len(x),
    }
}
