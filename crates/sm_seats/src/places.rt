//! Places on written lists, turned into places on the lists of the market of seats.

ghost use Rattle.std.specs.Prelude.{◌≡◌, ◌<◌, length, IfOk, OnOk};
ghost use Rattle.sm_agents.specs.Sound.{IsInstance};
ghost use Rattle.sm_agents.specs.Written.{row};
ghost use Rattle.sm_seats.specs.Tables.{mutual_before, mutual_places_at, inert_places_at, inert_places_of, seat_places_at, seat_places_of};
ghost use Rattle.sm_seats.specs.Counted.{acceptable_of, acceptable_at, first_seats_of};

use crate::crossed_instance::CrossedInstance;
use sm_lists::Rows;
use std::alloc::{AllocError, Global};

/// For each reviewer, and each place of its written list, how many acceptable proposers stand before that place. A list
/// without inert entries has no table of them.
pub(crate) fn mutual_places(
    alloc: Global,
    instance: &CrossedInstance<'_>,
    acceptable: &[u32],
) -> Result<Rows, AllocError>
    requires { acceptable.now ≡ acceptable_of instance.now }
    ensures { IfOk result (λ places. places ≡ inert_places_of instance.now) }
{
    let mut places = Rows::with_capacity(alloc, instance.reviewer_count() as usize, 0)?;
    let mut row = Vec::new(alloc);
    for r in 0..instance.reviewer_count() {
        write_inert_places(&mut row, instance, r, acceptable[r as usize])?;
        places.push(&row)?;
    }
    Ok(places)
}

/// Writes the same for one reviewer, with so many acceptable proposers.
fn write_inert_places(
    places: &mut Vec<u32>,
    instance: &CrossedInstance<'_>,
    r: u32,
    acceptable: u32,
) -> Result<(), AllocError>
    requires in_range { r < length instance.now.reviewers }
    requires acceptable { acceptable ≡ acceptable_at instance.now r }
    ensures { OnOk result (places.new.items ≡ inert_places_at instance.now r) }
{
    places.clear();
    if acceptable == instance.reviewer_len(r) {
        return Ok(());
    }
    write_mutual_places(places, instance, r)
}

/// How many acceptable proposers stand before a place of a reviewer's written list, from these tables.
pub(crate) fn mutual_place(instance: &CrossedInstance<'_>, places: &Rows, r: u32, place: u32) -> u32
    requires places { places.now ≡ inert_places_of instance.now }
    requires in_range { r < length instance.now.reviewers }
    requires on_list { place < length (row instance.now.reviewers r) }
    ensures { result ≡ mutual_before instance.now r place }
{
    let _ = instance;
    let table = places.at(r);
    if (place as usize) < table.len() {
        table[place as usize]
    } else {
        place
    }
}

/// Writes how many acceptable proposers stand before each place of a reviewer's written list.
fn write_mutual_places(
    places: &mut Vec<u32>,
    instance: &CrossedInstance<'_>,
    r: u32,
) -> Result<(), AllocError>
    requires { r < length instance.now.reviewers }
    ensures { OnOk result (places.new.items ≡ mutual_places_at instance.now r) }
{
    places.clear();
    let mut before = 0;
    let count = instance.reviewer_len(r) as usize;
    let crosses = instance.reviewer_crosses(r);
    places.reserve(count)?;
    for place in 0..count {
        places.push_reserved(before);
        if crosses[place].place().is_some() {
            before += 1;
        }
    }
    Ok(())
}

/// For each proposer, and each place of its written list, how many seats it lists before those of the reviewer there; and
/// how many it lists at all.
pub(crate) fn seat_places(
    alloc: Global,
    instance: &CrossedInstance<'_>,
    firsts: &[u32],
) -> Result<Rows, AllocError>
    requires { firsts.now ≡ first_seats_of instance.now }
    ensures { IfOk result (λ places. places ≡ seat_places_of instance.now) }
{
    let proposers = instance.proposer_count() as usize;
    let room = written_entries(instance).saturating_add(proposers);
    let mut places = Rows::with_capacity(alloc, proposers, room)?;
    let mut row = Vec::new(alloc);
    for p in 0..instance.proposer_count() {
        write_seat_places(&mut row, instance, firsts, p)?;
        places.push(&row)?;
    }
    Ok(places)
}

/// Writes how many seats a proposer lists before those of the reviewer at each place, and at all.
fn write_seat_places(
    places: &mut Vec<u32>,
    instance: &CrossedInstance<'_>,
    firsts: &[u32],
    p: u32,
) -> Result<(), AllocError>
    requires firsts { firsts.now ≡ first_seats_of instance.now }
    requires in_range { p < length instance.now.proposers }
    ensures { OnOk result (places.new.items ≡ seat_places_at instance.now p) }
{
    places.clear();
    let mut before = 0;
    let count = instance.proposer_len(p) as usize;
    let list = instance.proposer_list(p);
    let crosses = instance.proposer_crosses(p);
    places.reserve(count + 1)?;
    for place in 0..count {
        places.push_reserved(before);
        if crosses[place].place().is_some() {
            let r = list[place] as usize;
            before += firsts[r + 1] - firsts[r];
        }
    }
    places.push_reserved(before);
    Ok(())
}

/// How many entries the proposers' written lists have.
pub(crate) fn written_entries(instance: &CrossedInstance<'_>) -> usize
    ensures { IsInstance instance.now }
{
    let mut entries: usize = 0;
    for p in 0..instance.proposer_count() {
        entries = entries.saturating_add(instance.proposer_len(p) as usize);
    }
    entries
}
