//! Whether the entries of roommates' lists are sound.

ghost use Rattle.std.specs.Prelude.{◌≡◌, ℕ, ◌+◌, ◌<◌, ◌≤◌, length, IfErr, OnOk, slice_index};
ghost use Rattle.sm_lists.specs.Rows.{row, rows_of};
ghost use Rattle.sm_lists.specs.Limits.{AreWithinLimits};
ghost use Rattle.sm_theory.specs.Rooms.{AreRoomLists};
ghost use Rattle.sm_room.specs.Entries.{IsSound, IsFirstFault};

use crate::faults::RoomFault;
use sm_lists::list_at;
use std::alloc::Global;

/// Finds the first faulty entry.
pub(crate) fn check_entries(alloc: Global, lists: &[Vec<u32>]) -> Result<(), RoomFault>
    requires { AreWithinLimits (rows_of lists.now) }
    ensures sound { OnOk result (AreRoomLists (rows_of lists.now)) }
    ensures fault { IfErr result (λ f. IsFirstFault (rows_of lists.now) f) }
{
    let mut met = vec![in alloc; 0; lists.len()]?;
    let met = met.as_mut_slice();
    for x in 0..lists.len() as u32 {
        check_list(x, lists, met)?;
    }
    Ok(())
}

/// Finds the first faulty entry of one list, which is the first of all where there is one. Whom the list names is marked in
/// `met` with a number of its own.
fn check_list(x: u32, lists: &[Vec<u32>], met: &mut [u32]) -> Result<(), RoomFault>
    requires in_range { x < length lists.now }
    requires limits { AreWithinLimits (rows_of lists.now) }
    requires earlier { (z j : ℕ) → z < x → j < length (row (rows_of lists.now) z)
        → IsSound (rows_of lists.now) z j }
    requires one_each { length met.old ≡ length (rows_of lists.now) }
    requires met { (y : ℕ) → slice_index met.old y ≤ x }
    ensures met { OnOk result ((y : ℕ) → slice_index met.new y ≤ x + 1) }
    ensures sound { OnOk result ((i : ℕ) → i < length (row (rows_of lists.now) x)
        → IsSound (rows_of lists.now) x i) }
    ensures fault { IfErr result (λ f. IsFirstFault (rows_of lists.now) f) }
{
    let stamp = x + 1;
    let list = list_at(lists, x);
    for i in 0..list.len() as u32 {
        let y = list[i as usize] as usize;
        if y >= lists.len() {
            return Err(RoomFault::OutOfRange(x, i));
        }
        if met[y] == stamp {
            return Err(RoomFault::Repeated(x, i));
        }
        met[y] = stamp;
    }
    Ok(())
}
