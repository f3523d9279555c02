//! The answer of `list` on roommates.

ghost use Rattle.std.specs.Prelude.{◌≡◌, ◌≤◌, ℕ, List, length, IfOk};
ghost use Rattle.sm_text.specs.Limits.{most_limit};
ghost use Rattle.sm_answer.specs.Giving.{HasRest};
ghost use Rattle.sm_answer.specs.Printing.{IsShown};
ghost use Rattle.sm_agents.specs.Written.{lists_of};
ghost use Rattle.sm_answer_vectors.specs.VectorAnswer.{IsCursor, cursor_in};
ghost use Rattle.sm_room_list.specs.RoomListers.{IsRoomStarted};
ghost use Rattle.sm_answer_roommates.specs.RoomListAnswer.{IsRoomListAnswer};

use crate::room_listed::RoomListed;
use crate::solution::market_of;
use sm_answer::Lines;
use sm_answer_vectors::{ListLines, copy_of_cursor, list_vectors};
use sm_instance::{Input, Persons};
use sm_room_list::RoomLister;
use std::alloc::{AllocError, Global};

/// The head, the rank vectors of the stable matchings behind `after`, at most `limit`, and the last line. `after` has an item for
/// each person; it needn't be the vector of a matching. Where there is no stable matching no vector stands between the first line
/// and the last.
///
/// Each vector is found when its line is asked for, in the time and the memory of [`RoomLister::advance`]. Takes time and memory in
/// proportion to the persons and entries.
///
/// # Errors
///
/// `AllocError` where memory ran out, and only then.
pub fn room_list_lines<'a>(
    alloc: Global,
    input: &'a Input,
    persons: &Persons,
    after: &Option<Vec<u32>>,
    limit: u32,
) -> Result<ListLines<'a, RoomListed>, AllocError>
    requires after { IsCursor (length persons.now) (cursor_in after.now) }
    requires least { 1 ≤ limit }
    requires greatest { limit ≤ most_limit }
    ensures right { IfOk result (λ made. (lines : List (List ℕ))
        → ⟦<ListLines<'a, RoomListed> as Lines>⟧.gives made lines
        → IsShown input.now (IsRoomListAnswer (cursor_in after.now) limit persons.now) lines) }
    ensures some { IfOk result
        (λ made. HasRest (⟦<ListLines<'a, RoomListed> as Lines>⟧.gives made)) }
{
    let _persons = persons.persons();
    let lister = start_room_list(alloc, persons, after)?;
    list_vectors(alloc, input, RoomListed(lister), after, limit)
}

/// Makes ready to list the rank vectors of the stable matchings of persons, behind a vector where one is given.
fn start_room_list(
    alloc: Global,
    persons: &Persons,
    after: &Option<Vec<u32>>,
) -> Result<RoomLister, AllocError>
    requires { IsCursor (length persons.now) (cursor_in after.now) }
    ensures { IfOk result (λ lister. IsRoomStarted (lists_of persons.now) (cursor_in after.now)
        lister) }
{
    let market = market_of(alloc, persons)?;
    let after = copy_of_cursor(alloc, after)?;
    RoomLister::start(alloc, market, after)
}
