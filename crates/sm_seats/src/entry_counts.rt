//! What is counted of the seats of an instance by its cross places.

ghost use Rattle.std.specs.Prelude.{◌≡◌, ◌<◌, ◌≤◌, length, IfOk, OnOk};
ghost use Rattle.sm_text.specs.Limits.{most_agents};
ghost use Rattle.sm_seats.specs.Mutual.{mutual_row};
ghost use Rattle.sm_seats.specs.Counted.{AreEntryCounts, acceptable_of, first_seats_of};
ghost use Rattle.sm_seats.specs.SeatEntries.{AreFewSeats, seat_entries_before};

use crate::crossed_instance::CrossedInstance;
use sm_lists::first_numbers;
use std::alloc::{AllocError, Global};

/// What is counted of the seats of an instance by its cross places, beside the first seats.
#[derive(Drop)]
pub(crate) struct EntryCounts<'a> {
    /// The number of the first seat of each reviewer, and behind them how many seats there are.
    pub(crate) firsts: &'a [u32],
    /// The numbers of all seats, from 0.
    pub(crate) numbers: Vec<u32>,
    /// How many proposers are acceptable to each reviewer.
    pub(crate) acceptable: Vec<u32>,
    /// How many entries the lists of all seats have.
    pub(crate) entries: u32,
}

/// Counts the seats, the acceptable proposers of each reviewer and the entries, by the first seats.
pub(crate) fn entry_counts<'a>(
    alloc: Global,
    instance: &CrossedInstance<'_>,
    firsts: &'a [u32],
) -> Result<EntryCounts<'a>, AllocError>
    requires firsts { firsts.now ≡ first_seats_of instance.now }
    requires few { AreFewSeats instance.now }
    ensures { IfOk result (AreEntryCounts instance.now) }
{
    let reviewers = instance.reviewer_count() as usize;
    let mut acceptable = Vec::with_capacity(alloc, reviewers)?;
    let entries = count_entries(instance, &mut acceptable)?;
    Ok(EntryCounts {
        firsts,
        numbers: first_numbers(alloc, firsts[reviewers])?,
        acceptable,
        entries,
    })
}

/// Adds how many proposers are acceptable to each reviewer, and tells how many entries the lists of all seats have.
fn count_entries(instance: &CrossedInstance<'_>, counts: &mut Vec<u32>) -> Result<u32, AllocError>
    requires none { length counts.old.items ≡ 0 }
    requires few { AreFewSeats instance.now }
    ensures acceptable { OnOk result (counts.new.items ≡ acceptable_of instance.now) }
    ensures entries { IfOk result (λ entries. entries
        ≡ seat_entries_before instance.now (length instance.now.reviewers)) }
{
    let mut entries = 0;
    for r in 0..instance.reviewer_count() {
        let acceptable = acceptable_count(instance, r);
        let count = instance.capacity(r).min(acceptable);
        counts.push(acceptable)?;
        entries += count * acceptable;
    }
    Ok(entries)
}

/// How many proposers are acceptable to a reviewer.
pub(crate) fn acceptable_count(instance: &CrossedInstance<'_>, r: u32) -> u32
    requires { r < length instance.now.reviewers }
    ensures count { result ≡ length (mutual_row instance.now.reviewers instance.now.proposers r) }
    ensures fits { result ≤ most_agents }
{
    let crosses = instance.reviewer_crosses(r);
    let mut count = 0;
    for place in 0..instance.reviewer_len(r) as usize {
        if crosses[place].place().is_some() {
            count += 1;
        }
    }
    count
}
