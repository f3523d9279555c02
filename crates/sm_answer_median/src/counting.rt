//! The ranks that vectors give each proposer, by how often each rank is given.

ghost use Rattle.std.specs.Prelude.{◌≡◌, ◌<◌, ◌∷◌, ◌++◌, [], ℕ, List, length, IfOk};
ghost use Rattle.sm_instance.specs.Matching.{held};
ghost use Rattle.sm_market.specs.Vectors.{rows_of};
ghost use Rattle.sm_seats.specs.Vectors.{IsAllowedRankVector};
ghost use Rattle.sm_answer_median.specs.RankCounts.{AreRankCounts, AreFewCounted, IsCountedPlace, IsMedianCounted};
ghost use Rattle.sm_answer_median.specs.Found.{IsMedianOfSome};

use sm_instance::Instance;
use sm_lattice::{count_number, number_at_place};
use std::alloc::{AllocError, Global};

/// For each proposer a count for each of its ranks, also for 0, all of them 0.
pub(crate) fn no_counts(alloc: Global, instance: &Instance) -> Result<Vec<Vec<u32>>, AllocError>
    ensures { IfOk result (λ counts. AreRankCounts instance.now [] (rows_of counts.items)) }
{
    let mut counts = Vec::with_capacity(alloc, instance.proposer_count() as usize)?;
    for p in 0..instance.proposer_count() {
        let ranks = instance.proposer_len(p) as usize + 2;
        counts.push(vec![in alloc; 0; ranks]?)?;
    }
    Ok(counts)
}

/// Counts the ranks of one vector more. Takes no memory, and time in proportion to the proposers.
pub(crate) fn count_ranks(counts: &mut [Vec<u32>], instance: &Instance, ranks: &[u32])
    requires vector { IsAllowedRankVector instance.now ranks.now }
    requires few { AreFewCounted instance.now (rows_of counts.old) }
    ensures { (vectors : List (List ℕ))
        → AreRankCounts instance.now vectors (rows_of counts.old)
        → AreRankCounts instance.now (vectors ++ ranks.now ∷ []) (rows_of counts.new) }
{
    for p in 0..instance.proposer_count() {
        count_number(&mut counts[p as usize], ranks[p as usize]);
    }
}

/// For each proposer the place on its list that stands in the middle of so many matchings, of which the ranks are counted.
pub(crate) fn middle_places(
    alloc: Global,
    instance: &Instance,
    counts: &[Vec<u32>],
    listed: u32,
) -> Result<Vec<Option<u32>>, AllocError>
    requires { IsMedianCounted instance.now listed (rows_of counts.now) }
    ensures { IfOk result (λ places. IsMedianOfSome instance.now listed places.items) }
{
    let middle = (listed + 1) / 2;
    let mut places = Vec::with_capacity(alloc, counts.len())?;
    for p in 0..instance.proposer_count() {
        places.push(counted_place(instance, p, &counts[p as usize], middle))?;
    }
    Ok(places)
}

/// The place on a proposer's list whose rank stands at a place, counted from 1, when the counted ranks stand in order; none
/// where that is the rank past the end of the list.
fn counted_place(instance: &Instance, p: u32, counts: &[u32], place: u32) -> Option<u32>
    requires in_range { p < length instance.now.proposers }
    requires counted { IsCountedPlace instance.now p counts.now place }
    ensures { (c : IsCountedPlace instance.now p counts.now place) → result ≡ held c.places p }
{
    let len = instance.proposer_len(p);
    let rank = number_at_place(counts, place);
    if rank <= len { Some(rank - 1) } else { None }
}
