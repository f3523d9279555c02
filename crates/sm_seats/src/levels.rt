//! The levels of places on a proposer's list of seats, by its written list.

ghost use Rattle.std.specs.Prelude.{◌≡◌, ◌<◌, ◌^◌, length, IfOk};
ghost use Rattle.sm_lists.specs.Rows.{place_on};
ghost use Rattle.sm_seats.specs.Begins.{AreRisingPlaces, AreLevelsBetween, AreLevelsUpTo};

use std::alloc::{AllocError, Global};

/// The levels along a list of seats, each the rank of the seat's reviewer on the written list, and behind them that of being
/// unmatched: from where the seats of each reviewer begin, and behind the last one how many there are. Takes time and memory in
/// proportion to the seats and the written list.
///
/// # Errors
///
/// `AllocError` where memory ran out, and only then.
pub(crate) fn levels_between(alloc: Global, begins: &[u32]) -> Result<Vec<u32>, AllocError>
    requires { AreRisingPlaces begins.now }
    ensures { IfOk result (λ levels. AreLevelsBetween begins.now levels.items) }
{
    let reviewers = begins.len() as u32 - 1;
    let mut levels = Vec::with_capacity(alloc, begins[reviewers as usize] as usize + 1)?;
    for place in 0..reviewers {
        levels.resize(begins[place as usize + 1] as usize, place + 1)?;
    }
    levels.push(reviewers + 1)?;
    Ok(levels)
}

/// The same along a list that is the written one: its ranks, and behind them that of being unmatched. Takes time and memory in
/// proportion to the list.
///
/// # Errors
///
/// `AllocError` where memory ran out, and only then.
pub(crate) fn levels_up_to(alloc: Global, places: u32) -> Result<Vec<u32>, AllocError>
    requires { places < 2 ^ 24 }
    ensures { IfOk result (λ levels. AreLevelsUpTo places levels.items) }
{
    let mut levels = Vec::with_capacity(alloc, places as usize + 1)?;
    for place in 0..places + 1 {
        levels.push_reserved(place + 1);
    }
    Ok(levels)
}

/// The place of a reviewer on a list on which it stands. Takes time in proportion to the place.
#[inline(always)]
pub(crate) fn place_on(list: &[u32], r: u32) -> u32
    requires listed { place_on list.now r < length list.now }
    requires short { length list.now < 2 ^ 24 }
    ensures { result ≡ place_on list.now r }
{
    let mut place = 0;
    while list[place as usize] != r {
        place += 1;
    }
    place
}
