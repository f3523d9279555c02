//! Lists of numbers, one for each rotation: which ones need it, and which ones it needs.

ghost use Rattle.std.specs.Prelude.{◌≡◌, ℕ, ◌+◌, ◌<◌, ◌≤◌, ◌^◌, length, replicate, [], slice_index_or, IfOk, OnOk};
ghost use Rattle.sm_market.specs.Lists.{row};
ghost use Rattle.sm_market.specs.Vectors.{rows_of};
ghost use Rattle.sm_rotations.specs.Graph.{times, AreTurnedBack, AreCounts, AreCounted, AreAddedTo};

use std::alloc::{AllocError, Global};

/// An empty list for each rotation.
fn empty_lists(alloc: Global, rotations: usize) -> Result<Vec<Vec<u32>>, AllocError>
    ensures { IfOk result (λ lists. rows_of lists.items ≡ replicate rotations []) }
{
    let mut lists = Vec::with_capacity(alloc, rotations)?;
    for _ in 0..rotations {
        lists.push(Vec::new(alloc))?;
    }
    Ok(lists)
}

/// For each of these counts an empty list, with room for so many.
pub(crate) fn lists_with_room(alloc: Global, counts: &[u32]) -> Result<Vec<Vec<u32>>, AllocError>
    ensures { IfOk result (λ lists. rows_of lists.items ≡ replicate (length counts.now) []) }
{
    let mut lists = Vec::with_capacity(alloc, counts.len())?;
    for &count in counts {
        lists.push(Vec::with_capacity(alloc, count as usize)?)?;
    }
    Ok(lists)
}

/// Adds a number once to the list of each of those, which have only lower numbers before.
pub(crate) fn add_once(number: u32, those: &[u32], lists: &mut [Vec<u32>]) -> Result<(), AllocError>
    requires in_range { (a : ℕ) → a < length those.now → slice_index_or those.now a 0
        < length lists.old }
    requires lower { (j a : ℕ) → a < length (row (rows_of lists.old) j)
        → slice_index_or (row (rows_of lists.old) j) a 0 < number }
    ensures { OnOk result (AreAddedTo number those.now (rows_of lists.old) (rows_of lists.new)) }
{
    for &j in those {
        let list = &mut lists[j as usize];
        if list.last().copied() != Some(number) {
            list.push(number)?;
        }
    }
    Ok(())
}

/// For each rotation those that it needs, rising and each once, from those that need each one.
pub(crate) fn needs_by_followers(
    alloc: Global,
    followers: &[Vec<u32>],
) -> Result<Vec<Vec<u32>>, AllocError>
    requires few { length followers.now < 2 ^ 32 }
    requires in_range { (i a : ℕ) → a < length (row (rows_of followers.now) i)
        → slice_index_or (row (rows_of followers.now) i) a 0 < length followers.now }
    ensures { IfOk result (λ needs. AreTurnedBack (rows_of followers.now) (length followers.now)
        (rows_of needs.items)) }
{
    let mut needs = empty_lists(alloc, followers.len())?;
    for i in 0..followers.len() as u32 {
        add_once(i, &followers[i as usize], &mut needs)?;
    }
    Ok(needs)
}

/// On how many of the lists each number stands. It stands on each at most once.
pub(crate) fn counts(alloc: Global, lists: &[Vec<u32>]) -> Result<Vec<u32>, AllocError>
    requires few { length lists.now < 2 ^ 32 }
    requires in_range { (i a : ℕ) → a < length (row (rows_of lists.now) i)
        → slice_index_or (row (rows_of lists.now) i) a 0 < length lists.now }
    requires once { (i j : ℕ) → times (row (rows_of lists.now) i) j ≤ 1 }
    ensures { IfOk result (λ c. AreCounts (rows_of lists.now) (length lists.now) c.items) }
{
    let mut counts = vec![in alloc; 0; lists.len()]?;
    for list in lists {
        count(list, &mut counts);
    }
    Ok(counts)
}

/// Counts the numbers of a list.
fn count(list: &[u32], counts: &mut [u32])
    requires in_range { (a : ℕ) → a < length list.now → slice_index_or list.now a 0
        < length counts.old }
    requires room { (j : ℕ) → slice_index_or counts.old j 0 + times list.now j < 2 ^ 32 }
    ensures { AreCounted list.now counts.old counts.new }
{
    for &j in list {
        counts[j as usize] += 1;
    }
}
