//! The parties of a stable partition.

ghost use Rattle.std.specs.Prelude.{◌≡◌, ℕ, ◌<◌, length, IfOk, true, false};
ghost use Rattle.sm_lists.specs.Rows.{rows_of};
ghost use Rattle.sm_theory.specs.Partitions.{successor_in, IsStablePartition};
ghost use Rattle.sm_answer_roommates.specs.Parties.{AreParties};
ghost use Rattle.sm_answer_roommates.specs.Walking.{is_met, IsPartyOf};

use sm_room::{Partition, RoomMarket};
use std::alloc::{AllocError, Global};

/// The parties of a stable partition: each from its lowest member along successors, in the order of these members. Takes
/// time and memory in proportion to the persons.
///
/// # Errors
///
/// `AllocError` where memory ran out, and only then.
pub(crate) fn parties_of(
    alloc: Global,
    market: &RoomMarket,
    partition: &Partition,
) -> Result<Vec<Vec<u32>>, AllocError>
    requires { IsStablePartition market.now partition.now.next }
    ensures { IfOk result (λ parties. AreParties partition.now.next (rows_of parties.items)) }
{
    let mut met = vec![in alloc; false; market.persons() as usize]?;
    let met = met.as_mut_slice();
    let mut parties = Vec::new(alloc);
    for x in 0..market.persons() {
        if met[x as usize] {
            continue;
        }
        parties.push(party_of(alloc, market, partition, x, met)?)?;
    }
    Ok(parties)
}

/// The party of a person that isn't met yet, which is its lowest. All its members are met then.
fn party_of(
    alloc: Global,
    market: &RoomMarket,
    partition: &Partition,
    x: u32,
    met: &mut [bool],
) -> Result<Vec<u32>, AllocError>
    requires stable { IsStablePartition market.now partition.now.next }
    requires in_range { x < length partition.now.next }
    requires one_each { length met.old ≡ length partition.now.next }
    requires below { (y : ℕ) → y < x → is_met met.old y ≡ true }
    requires back { (y : ℕ) → y < length partition.now.next
        → is_met met.old (successor_in partition.now.next y) ≡ true → is_met met.old y ≡ true }
    requires unmet { is_met met.old x ≡ false }
    ensures { IfOk result (λ party. IsPartyOf partition.now.next x met.old met.new party.items) }
{
    let _ = market;
    met[x as usize] = true;
    let mut party = Vec::new(alloc);
    party.push(x)?;
    let mut y = partition.next(x);
    'along: while y != x {
        met[y as usize] = true;
        party.push(y)?;
        y = partition.next(y);
    }
    Ok(party)
}
