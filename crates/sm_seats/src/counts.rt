//! How many seats each reviewer has, and where they begin.

ghost use Rattle.std.specs.Prelude.{◌≡◌, ◌<◌, ◌≤◌, length, IfOk, IfErr, OnOk, IsTrue, MatchOption};
ghost use Rattle.sm_agents.specs.Sound.{IsInstance};
ghost use Rattle.sm_seats.specs.SeatMarket.{seat_count};
ghost use Rattle.sm_seats.specs.Counted.{AreSeatCounts, first_seats_of};
ghost use Rattle.sm_seats.specs.SeatEntries.{AreFewSeats, IsFirstTooMany, IsSeatsFault};

use crate::crossed_instance::CrossedInstance;
use crate::entry_counts::acceptable_count;
use crate::faults::SeatsFault;
use sm_instance::{CrossSearch, Instance};
use sm_text::MOST_SEAT_ENTRIES;
use std::alloc::{AllocError, Global};

/// What is counted of the seats of an instance.
#[derive(Drop)]
pub struct SeatCounts {
    /// The number of the first seat of each reviewer, and behind them how many seats there are.
    pub firsts: Vec<u32>,
}

/// Counts the seats. Takes time in proportion to the agents and the entries, and memory in proportion to the reviewers. Where
/// the lists of the seats might have too many entries, and the instance keeps no cross places, these are made on the way.
///
/// # Errors
///
/// Those of [`crate::Seats::of`].
pub fn seat_counts(alloc: Global, instance: &Instance) -> Result<SeatCounts, SeatsFault>
    ensures instance { IsInstance instance.now }
    ensures counts { IfOk result (AreSeatCounts instance.now) }
    ensures few { OnOk result (AreFewSeats instance.now) }
    ensures fault { IfErr result (λ f. IsSeatsFault instance.now f) }
{
    if !are_surely_few(instance) {
        refuse_too_many(alloc, instance)?;
    }
    Ok(SeatCounts {
        firsts: first_seats(alloc, instance)?,
    })
}

/// Would the lists of the seats have few enough entries even if no entry were inert?
fn are_surely_few(instance: &Instance) -> bool
    ensures instance { IsInstance instance.now }
    ensures few { IsTrue result → AreFewSeats instance.now }
{
    let mut entries = 0;
    for r in 0..instance.reviewer_count() {
        let len = instance.reviewer_len(r);
        let count = instance.capacity(r).min(len);
        entries += count * len;
        if entries as usize > MOST_SEAT_ENTRIES {
            return false;
        }
    }
    true
}

/// Refuses an instance with too many entries on the lists of the seats.
fn refuse_too_many(alloc: Global, instance: &Instance) -> Result<(), SeatsFault>
    ensures few { OnOk result (AreFewSeats instance.now) }
    ensures fault { IfErr result (λ f. IsSeatsFault instance.now f) }
{
    let crosses = instance.crosses(alloc)?;
    match first_too_many(&CrossedInstance::of(instance, crosses.get())) {
        Some(r) => Err(SeatsFault::TooManySeats(r)),
        None => Ok(()),
    }
}

/// The first reviewer with whom the lists of the seats have too many entries; `None` where they are few enough.
fn first_too_many(instance: &CrossedInstance<'_>) -> Option<u32>
    ensures { MatchOption result (AreFewSeats instance.now) (IsFirstTooMany instance.now) }
{
    let mut entries = 0;
    for r in 0..instance.reviewer_count() {
        let acceptable = acceptable_count(instance, r);
        let count = instance.capacity(r).min(acceptable);
        entries += count * acceptable;
        if entries as usize > MOST_SEAT_ENTRIES {
            return Some(r);
        }
    }
    None
}

/// The number of the first seat of each reviewer, and behind them how many seats there are.
fn first_seats(alloc: Global, instance: &Instance) -> Result<Vec<u32>, AllocError>
    ensures { IfOk result (λ firsts. firsts.items ≡ first_seats_of instance.now) }
{
    let mut firsts = Vec::with_capacity(alloc, instance.reviewer_count() as usize + 1)?;
    let mut search = CrossSearch::new(instance);
    let added = add_first_seats(alloc, instance, &mut search, &mut firsts);
    drop(search);
    added?;
    Ok(firsts)
}

/// Adds these numbers, by cross places that are looked for one by one.
fn add_first_seats(
    alloc: Global,
    instance: &Instance,
    search: &mut CrossSearch<'_>,
    firsts: &mut Vec<u32>,
) -> Result<(), AllocError>
    requires searched { search.old ≡ instance.now }
    requires none { length firsts.old.items ≡ 0 }
    ensures { OnOk result (firsts.new.items ≡ first_seats_of instance.now) }
{
    let mut seats = 0;
    for r in 0..instance.reviewer_count() {
        firsts.push(seats)?;
        seats += seats_at(alloc, instance, search, r)?;
    }
    firsts.push(seats)?;
    Ok(())
}

/// How many seats a reviewer has: as many as places, but no more than acceptable proposers. No more of these are looked for.
fn seats_at(
    alloc: Global,
    instance: &Instance,
    search: &mut CrossSearch<'_>,
    r: u32,
) -> Result<u32, AllocError>
    requires in_range { r < length instance.now.reviewers }
    requires searched { search.old ≡ instance.now }
    ensures same { search.new ≡ search.old }
    ensures seats { IfOk result (λ seats. seats ≡ seat_count instance.now r) }
    ensures fits { IfOk result (λ seats. seats ≤ 4096) }
{
    let capacity = instance.capacity(r);
    let mut count = 0;
    for place in 0..instance.reviewer_len(r) {
        if count == capacity {
            return Ok(count);
        }
        if search.cross_back(alloc, r, place)?.is_some() {
            count += 1;
        }
    }
    Ok(count)
}
