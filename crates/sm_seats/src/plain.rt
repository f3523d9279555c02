//! Instances in which each reviewer has one seat and no entry is inert, as most marriages: the seats have the written lists,
//! and the cross places of the instance.

ghost use Rattle.std.specs.Prelude.{◌≡◌, ℕ, ◌<◌, ◌≤◌, ◌↔◌, length, IfOk, IsTrue};
ghost use Rattle.sm_text.specs.Limits.{most_agents};
ghost use Rattle.sm_agents.specs.Sound.{IsInstance};
ghost use Rattle.sm_agents.specs.Written.{row, lists_of};
ghost use Rattle.sm_seats.specs.Mutual.{mutual_row};
ghost use Rattle.sm_seats.specs.SeatMarket.{seats_of};
ghost use Rattle.sm_seats.specs.Counted.{acceptable_of, first_seats_of};
ghost use Rattle.sm_seats.specs.ProposerRows.{seat_rows_of, cross_rows_of};
ghost use Rattle.sm_seats.specs.ReviewerRows.{seat_lists_before, seat_crosses_before};
ghost use Rattle.sm_instance.specs.Crosses.{AreCrossPlaces};
ghost use Rattle.sm_seats.specs.Plain.{HasOneSeat, IsPlain};

use crate::crossed_instance::CrossedInstance;
use crate::entry_counts::EntryCounts;
use crate::proposer_rows::ProposerRows;
use crate::reviewer_rows::ReviewerRows;
use sm_agents::count_entries;
use sm_instance::Instance;
use sm_lists::{Cross, Packed, RaisedRows, Rows};
use std::alloc::{AllocError, Global};

/// Is the instance such a one? Takes time in proportion to the entries.
pub(crate) fn is_plain(instance: &CrossedInstance<'_>, counts: &EntryCounts<'_>) -> bool
    requires firsts { counts.now.firsts.now ≡ first_seats_of instance.now }
    requires acceptable { counts.now.acceptable.items ≡ acceptable_of instance.now }
    ensures { IsTrue result ↔ IsPlain instance.now }
{
    have_one_seat(instance, counts) && have_whole_lists(instance)
}

/// Have all reviewers one seat and no inert entries?
fn have_one_seat(instance: &CrossedInstance<'_>, counts: &EntryCounts<'_>) -> bool
    requires firsts { counts.now.firsts.now ≡ first_seats_of instance.now }
    requires acceptable { counts.now.acceptable.items ≡ acceptable_of instance.now }
    ensures { IsTrue result ↔ ((r : ℕ) → r < length instance.now.reviewers
        → HasOneSeat instance.now r) }
{
    for r in 0..instance.reviewer_count() {
        if !has_one_seat(instance, counts, r) {
            return false;
        }
    }
    true
}

/// Has a reviewer one seat and no inert entries?
fn has_one_seat(instance: &CrossedInstance<'_>, counts: &EntryCounts<'_>, r: u32) -> bool
    requires in_range { r < length instance.now.reviewers }
    requires firsts { counts.now.firsts.now ≡ first_seats_of instance.now }
    requires acceptable { counts.now.acceptable.items ≡ acceptable_of instance.now }
    ensures { IsTrue result ↔ HasOneSeat instance.now r }
{
    let firsts = counts.firsts;
    let acceptable = counts.acceptable.as_slice();
    let count = firsts[r as usize + 1] - firsts[r as usize];
    if count != 1 {
        return false;
    }
    acceptable[r as usize] == instance.reviewer_len(r)
}

/// Have all proposers no inert entries?
fn have_whole_lists(instance: &CrossedInstance<'_>) -> bool
    ensures { IsTrue result ↔ ((p : ℕ) → p < length instance.now.proposers
        → mutual_row instance.now.proposers instance.now.reviewers p
        ≡ row instance.now.proposers p) }
{
    for p in 0..instance.proposer_count() {
        if acceptable_count(instance, p) != instance.proposer_len(p) {
            return false;
        }
    }
    true
}

/// How many reviewers are acceptable to a proposer.
fn acceptable_count(instance: &CrossedInstance<'_>, p: u32) -> u32
    requires { p < length instance.now.proposers }
    ensures { result ≡ length (mutual_row instance.now.proposers instance.now.reviewers p) }
{
    let crosses = instance.proposer_crosses(p);
    let mut count = 0;
    for place in 0..instance.proposer_len(p) as usize {
        if crosses[place].place().is_some() {
            count += 1;
        }
    }
    count
}

/// The lists of all proposers, with their cross places, which are moved in.
pub(crate) fn plain_proposers(
    alloc: Global,
    instance: &Instance,
    crosses: Packed<Cross>,
) -> Result<ProposerRows, AllocError>
    requires plain { IsPlain instance.now }
    requires crosses { AreCrossPlaces instance.now.proposers instance.now.reviewers crosses }
    ensures instance { IsInstance instance.now }
    ensures lists { IfOk result
        (λ rows. rows.lists ≡ seat_rows_of instance.now (length instance.now.proposers)) }
    ensures written { IfOk result (λ rows. rows.lists ≡ lists_of instance.now.proposers) }
    ensures crosses { IfOk result
        (λ rows. rows.crosses ≡ cross_rows_of instance.now (length instance.now.proposers)) }
{
    let proposers = instance.proposer_count();
    let entries = count_entries(instance.proposers());
    let mut lists = Rows::with_capacity(alloc, proposers as usize, entries)?;
    for p in 0..proposers {
        lists.push(instance.proposer_list(p))?;
    }
    let crosses = RaisedRows::of_crosses(alloc, crosses)?;
    Ok(ProposerRows { lists, crosses })
}

/// The lists of all seats, with their cross places, which are moved in.
pub(crate) fn plain_seats(
    alloc: Global,
    instance: &Instance,
    crosses: Packed<Cross>,
) -> Result<ReviewerRows, AllocError>
    requires plain { IsPlain instance.now }
    requires crosses { AreCrossPlaces instance.now.reviewers instance.now.proposers crosses }
    ensures seats { IfOk result (λ rows. rows.seats.items ≡ seats_of instance.now) }
    ensures lists { IfOk result
        (λ rows. rows.lists ≡ seat_lists_before instance.now (length instance.now.reviewers)) }
    ensures crosses { IfOk result
        (λ rows. rows.crosses ≡ seat_crosses_before instance.now (length instance.now.reviewers)) }
{
    let reviewers = instance.reviewer_count();
    let entries = count_entries(instance.reviewers());
    let mut seats = Vec::with_capacity(alloc, reviewers as usize)?;
    let mut lists = Rows::with_capacity(alloc, reviewers as usize, entries)?;
    for r in 0..reviewers {
        seats.push((r, 1))?;
        lists.push(instance.reviewer_list(r))?;
    }
    let crosses = RaisedRows::of_crosses(alloc, crosses)?;
    Ok(ReviewerRows {
        seats,
        lists,
        crosses,
    })
}
