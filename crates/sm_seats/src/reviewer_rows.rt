//! The seats' lists of proposers.

ghost use Rattle.std.specs.Prelude.{◌≡◌, ℕ, ◌+◌, ◌-◌, ◌<◌, ◌≤◌, ◌^◌, ◌++◌, length, map, replicate, slice_index, IfOk, OnOk};
ghost use Rattle.std.specs.List.{range_with_len};
ghost use Rattle.sm_text.specs.Limits.{most_capacity};
ghost use Rattle.sm_agents.specs.Sound.{IsInstance};
ghost use Rattle.sm_seats.specs.Mutual.{mutual_row};
ghost use Rattle.sm_seats.specs.SeatMarket.{seats_of};
ghost use Rattle.sm_seats.specs.Tables.{seat_places_of, begin_of};
ghost use Rattle.sm_seats.specs.Counted.{acceptable_of, acceptable_at, first_seats_of};
ghost use Rattle.sm_seats.specs.ReviewerRows.{seat_lists_before, seat_crosses_before};

use crate::crossed_instance::CrossedInstance;
use crate::entry_counts::EntryCounts;
use sm_lists::{RaisedRows, Rows};
use std::alloc::{AllocError, Global};

/// The lists of all seats: of proposers, and of the seat's place on the list of each; and the reviewer and the number of each
/// seat. The seats of a reviewer share their list of proposers, and the places too: they are one more for each seat than for
/// the seat before it.
#[derive(Drop)]
pub(crate) struct ReviewerRows {
    pub(crate) seats: Vec<(u32, u32)>,
    pub(crate) lists: Rows,
    pub(crate) crosses: RaisedRows,
}

/// The lists of all seats, from what is counted of them, and the places where the seats of each reviewer begin.
pub(crate) fn reviewer_rows(
    alloc: Global,
    instance: &CrossedInstance<'_>,
    counts: &EntryCounts<'_>,
    begins: &Rows,
) -> Result<ReviewerRows, AllocError>
    requires firsts { counts.now.firsts.now ≡ first_seats_of instance.now }
    requires acceptable { counts.now.acceptable.items ≡ acceptable_of instance.now }
    requires begins { begins.now ≡ seat_places_of instance.now }
    ensures seats { IfOk result (λ rows. rows.seats.items ≡ seats_of instance.now) }
    ensures lists { IfOk result
        (λ rows. rows.lists ≡ seat_lists_before instance.now (length instance.now.reviewers)) }
    ensures crosses { IfOk result
        (λ rows. rows.crosses ≡ seat_crosses_before instance.now (length instance.now.reviewers)) }
{
    let firsts = counts.firsts;
    let acceptable = counts.acceptable.as_slice();
    let reviewers = instance.reviewer_count();
    let count = firsts[reviewers as usize] as usize;
    let mut seats = Vec::with_capacity(alloc, count)?;
    let room = sum_of(acceptable);
    let mut lists = Rows::with_capacity(alloc, count, room)?;
    let mut crosses = RaisedRows::with_capacity(alloc, count, room)?;
    let mut row = Vec::new(alloc);
    for r in 0..reviewers {
        let count = firsts[r as usize + 1] - firsts[r as usize];
        add_names(&mut seats, r, count)?;
        add_lists(
            &mut lists,
            instance,
            r,
            acceptable[r as usize],
            count,
            &mut row,
        )?;
        write_begins(&mut row, instance, r, begins)?;
        crosses.push_raised(&row, count)?;
    }
    Ok(ReviewerRows {
        seats,
        lists,
        crosses,
    })
}

/// The sum of numbers, or the greatest number where it is more.
fn sum_of(numbers: &[u32]) -> usize {
    let mut sum: usize = 0;
    for number in numbers {
        sum = sum.saturating_add(*number as usize);
    }
    sum
}

/// Adds the names of so many seats of a reviewer.
fn add_names(seats: &mut Vec<(u32, u32)>, r: u32, count: u32) -> Result<(), AllocError>
    requires { count ≤ most_capacity }
    ensures { OnOk result (seats.new.items
        ≡ seats.old.items ++ map (λ k. (r, k)) (range_with_len 1 count)) }
{
    for k in 0..count {
        seats.push((r, k + 1))?;
    }
    Ok(())
}

/// Adds the lists of so many seats of a reviewer, to whom so many proposers are acceptable. They share the written list, or
/// what is written into `row` where some entries of it are inert.
fn add_lists(
    lists: &mut Rows,
    instance: &CrossedInstance<'_>,
    r: u32,
    acceptable: u32,
    count: u32,
    row: &mut Vec<u32>,
) -> Result<(), AllocError>
    requires in_range { r < length instance.now.reviewers }
    requires acceptable { acceptable ≡ acceptable_at instance.now r }
    ensures { OnOk result (lists.new ≡ lists.old
        ++ replicate count (mutual_row instance.now.reviewers instance.now.proposers r)) }
{
    if acceptable == instance.reviewer_len(r) {
        return lists.push_shared(instance.reviewer_list(r), count);
    }
    write_without_inert(row, instance, r)?;
    lists.push_shared(row, count)
}

/// Writes the list of a reviewer without inert entries.
fn write_without_inert(
    kept: &mut Vec<u32>,
    instance: &CrossedInstance<'_>,
    r: u32,
) -> Result<(), AllocError>
    requires in_range { r < length instance.now.reviewers }
    ensures { OnOk result
        (kept.new.items ≡ mutual_row instance.now.reviewers instance.now.proposers r) }
{
    kept.clear();
    let list = instance.reviewer_list(r);
    let crosses = instance.reviewer_crosses(r);
    kept.reserve(list.len())?;
    for place in 0..list.len() {
        if crosses[place].place().is_some() {
            kept.push_reserved(list[place]);
        }
    }
    Ok(())
}

/// Writes where the seats of a reviewer begin on the list of each acceptable proposer.
fn write_begins(
    kept: &mut Vec<u32>,
    instance: &CrossedInstance<'_>,
    r: u32,
    begins: &Rows,
) -> Result<(), AllocError>
    requires instance { IsInstance instance.now }
    requires in_range { r < length instance.now.reviewers }
    requires begins { begins.now ≡ seat_places_of instance.now }
    ensures begins { OnOk result (kept.new.items
        ≡ map (begin_of instance.now r) (mutual_row instance.now.reviewers
        instance.now.proposers r)) }
    ensures small { OnOk result ((i : ℕ) → slice_index kept.new.items i ≤ 2 ^ 24) }
{
    kept.clear();
    let list = instance.reviewer_list(r);
    let crosses = instance.reviewer_crosses(r);
    kept.reserve(list.len())?;
    for place in 0..list.len() {
        if let Some(back) = crosses[place].place() {
            kept.push_reserved(begins.entry_at(list[place], back));
        }
    }
    Ok(())
}
