//! Whether the entries of lists are sound, where their cross places are known.

ghost use Rattle.std.specs.Prelude.{◌≡◌, ℕ, ◌+◌, ◌<◌, ◌≤◌, length, map, IfErr, OnOk, slice_index};
ghost use Rattle.sm_lists.specs.Crosses.{AreCrossPlacesOf, AreCrossPlaces};
ghost use Rattle.sm_lists.specs.Held.{held_in, place_in};
ghost use Rattle.sm_market.specs.Lists.{row};
ghost use Rattle.sm_market.specs.Vectors.{rows_of};
ghost use Rattle.sm_market.specs.Limits.{AreWithinLimits};
ghost use Rattle.sm_market.specs.Crosses.{AreCrosses};
ghost use Rattle.sm_market.specs.Entries.{IsSound, AreSound};
ghost use Rattle.sm_market.specs.MarketFaults.{IsFirstFaultOf};

use crate::faults::{MarketFault, Side};
use sm_lists::{KeptPlace, Packed, list_at};
use std::alloc::Global;

/// Finds the first faulty entry of the lists of one side, which are named as those of `side`. Where there is none, the cross
/// places are the positions of the lists' owners.
pub(crate) fn check_entries(
    alloc: Global,
    side: Side,
    rows: &[Vec<u32>],
    others: &[Vec<u32>],
    crosses: &Packed<u32>,
) -> Result<(), MarketFault>
    requires rows { AreWithinLimits (rows_of rows.now) }
    requires crosses { AreCrossPlaces (rows_of rows.now) (rows_of others.now)
        (held_in place_in crosses.now) }
    ensures sound { OnOk result (AreSound (rows_of rows.now) (rows_of others.now)) }
    ensures crosses { OnOk result (AreCrosses (rows_of rows.now) (rows_of others.now)
        crosses.now) }
    ensures fault { IfErr result (λ f. IsFirstFaultOf side (rows_of rows.now)
        (rows_of others.now) f) }
{
    let mut met = vec![in alloc; 0; others.len()]?;
    let met = met.as_mut_slice();
    for a in 0..rows.len() as u32 {
        check_list(side, a, rows, others, crosses.at(a), met)?;
    }
    Ok(())
}

/// Finds the first faulty entry of one list, which is the first of its side where there is one.
fn check_list(
    side: Side,
    a: u32,
    rows: &[Vec<u32>],
    others: &[Vec<u32>],
    crosses: &[u32],
    met: &mut [u32],
) -> Result<(), MarketFault>
    requires in_range { a < length rows.now }
    requires limits { AreWithinLimits (rows_of rows.now) }
    requires earlier_agents { (c j : ℕ) → c < a → j < length (row (rows_of rows.now) c)
        → IsSound (rows_of rows.now) (rows_of others.now) c j }
    requires crosses { AreCrossPlacesOf (rows_of rows.now) (rows_of others.now) a
        (map place_in crosses.now) }
    requires one_each { length met.old ≡ length (rows_of others.now) }
    requires met { (b : ℕ) → slice_index met.old b ≤ a }
    ensures met { OnOk result ((b : ℕ) → slice_index met.new b ≤ a + 1) }
    ensures sound { OnOk result ((i : ℕ) → i < length (row (rows_of rows.now) a)
        → IsSound (rows_of rows.now) (rows_of others.now) a i) }
    ensures fault { IfErr result (λ f. IsFirstFaultOf side (rows_of rows.now)
        (rows_of others.now) f) }
{
    let stamp = a + 1;
    let list = list_at(rows, a);
    for i in 0..list.len() as u32 {
        let b = list[i as usize] as usize;
        if b >= others.len() {
            return Err(MarketFault::OutOfRange(side, a, i));
        }
        if met[b] == stamp {
            return Err(MarketFault::Repeated(side, a, i));
        }
        let Some(_) = crosses[i as usize].place() else {
            return Err(MarketFault::NotMutual(side, a, i));
        };
        met[b] = stamp;
    }
    Ok(())
}
