//! The lists with which lines end, read.

ghost use Rattle.std.specs.Prelude.{◌≡◌, IfOk, option_map};
ghost use Rattle.std.specs.Option.{option_zip};
ghost use Rattle.sm_report.specs.Vectors.{each_in};
ghost use Rattle.sm_report.specs.Meanings.{left_in, seat_in, large_in, rising_above, each_pair_in, lefts_in, seats_in, figures_in, rising_in, seated_pairs_in};
ghost use Rattle.sm_text.specs.Slices.{texts_of};

use crate::field_readers::{MOST_ROTATION, left_in, number_within, seat_in};
use crate::fields_of::items_in;
use crate::lines::Seat;
use sm_instance::Input;
use sm_text::number;
use std::alloc::{AllocError, Global};

/// The proposers that a list names, in roommates the persons.
pub(crate) fn lefts_in(
    alloc: Global,
    input: &Input,
    fields: &[&[u8]],
) -> Result<Option<Vec<u32>>, AllocError>
    ensures { IfOk result (λ found. lefts_in input.now (texts_of fields.now)
        ≡ option_map (λ v. v.items) found) }
{
    match items_in(fields) {
        Some(items) => each_left(alloc, input, items),
        None => Ok(None),
    }
}

/// The proposers that items name.
fn each_left(alloc: Global, input: &Input, items: &[&[u8]]) -> Result<Option<Vec<u32>>, AllocError>
    ensures { IfOk result (λ found. each_in (left_in input.now) (texts_of items.now)
        ≡ option_map (λ v. v.items) found) }
{
    let mut found = Vec::with_capacity(alloc, items.len())?;
    for item in items {
        match left_in(input, item) {
            Some(p) => found.push(p)?,
            None => return Ok(None),
        }
    }
    Ok(Some(found))
}

/// The seats that a list names.
pub(crate) fn seats_in(
    alloc: Global,
    input: &Input,
    fields: &[&[u8]],
) -> Result<Option<Vec<Seat>>, AllocError>
    ensures { IfOk result (λ found. seats_in input.now (texts_of fields.now)
        ≡ option_map (λ v. v.items) found) }
{
    match items_in(fields) {
        Some(items) => each_seat(alloc, input, items),
        None => Ok(None),
    }
}

/// The seats that items name.
fn each_seat(alloc: Global, input: &Input, items: &[&[u8]]) -> Result<Option<Vec<Seat>>, AllocError>
    ensures { IfOk result (λ found. each_in (seat_in input.now) (texts_of items.now)
        ≡ option_map (λ v. v.items) found) }
{
    let mut found = Vec::with_capacity(alloc, items.len())?;
    for item in items {
        match seat_in(input, item) {
            Some(seat) => found.push(seat)?,
            None => return Ok(None),
        }
    }
    Ok(Some(found))
}

/// The figures that a list spells.
pub(crate) fn figures_in(alloc: Global, fields: &[&[u8]]) -> Result<Option<Vec<u64>>, AllocError>
    ensures { IfOk result (λ found. figures_in (texts_of fields.now)
        ≡ option_map (λ v. v.items) found) }
{
    match items_in(fields) {
        Some(items) => each_figure(alloc, items),
        None => Ok(None),
    }
}

/// The figures that items spell.
fn each_figure(alloc: Global, items: &[&[u8]]) -> Result<Option<Vec<u64>>, AllocError>
    ensures { IfOk result (λ found. each_in large_in (texts_of items.now)
        ≡ option_map (λ v. v.items) found) }
{
    let mut found = Vec::with_capacity(alloc, items.len())?;
    for item in items {
        match number(item, u64::MAX) {
            Some(n) => found.push(n)?,
            None => return Ok(None),
        }
    }
    Ok(Some(found))
}

/// The numbers of rotations that a list spells, each above the one before it.
pub(crate) fn rising_in(alloc: Global, fields: &[&[u8]]) -> Result<Option<Vec<u32>>, AllocError>
    ensures { IfOk result (λ found. rising_in (texts_of fields.now)
        ≡ option_map (λ v. v.items) found) }
{
    match items_in(fields) {
        Some(items) => each_rising(alloc, items),
        None => Ok(None),
    }
}

/// The numbers of rotations that items spell, each above the one before it.
fn each_rising(alloc: Global, items: &[&[u8]]) -> Result<Option<Vec<u32>>, AllocError>
    ensures { IfOk result (λ found. rising_above 0 (texts_of items.now)
        ≡ option_map (λ v. v.items) found) }
{
    let mut found = Vec::with_capacity(alloc, items.len())?;
    let mut last = 0;
    for item in items {
        match number_within(item, last + 1, MOST_ROTATION) {
            Some(n) => {
                found.push(n)?;
                last = n;
            }
            None => return Ok(None),
        }
    }
    Ok(Some(found))
}

/// The proposers that a list names, each with its seat.
pub(crate) fn seated_pairs_in(
    alloc: Global,
    input: &Input,
    fields: &[&[u8]],
) -> Result<Option<Vec<(u32, Seat)>>, AllocError>
    ensures { IfOk result (λ found. seated_pairs_in input.now (texts_of fields.now)
        ≡ option_map (λ v. v.items) found) }
{
    match items_in(fields) {
        Some(items) => each_seated(alloc, input, items),
        None => Ok(None),
    }
}

/// The proposers that items name, each with its seat.
fn each_seated(
    alloc: Global,
    input: &Input,
    items: &[&[u8]],
) -> Result<Option<Vec<(u32, Seat)>>, AllocError>
    ensures { IfOk result (λ found. each_pair_in (left_in input.now) (seat_in input.now)
        (texts_of items.now) ≡ option_map (λ v. v.items) found) }
{
    let mut found = Vec::with_capacity(alloc, items.len() / 2)?;
    let mut rest = items;
    'pairs: while let [p, seat, more @ ..] = rest {
        match seated(input, p, seat) {
            Some(pair) => found.push(pair)?,
            None => return Ok(None),
        }
        rest = more;
    }
    match rest {
        [] => Ok(Some(found)),
        _ => Ok(None),
    }
}

/// A proposer and its seat.
fn seated(input: &Input, p: &[u8], seat: &[u8]) -> Option<(u32, Seat)>
    ensures { result ≡ option_zip (left_in input.now p.now) (seat_in input.now seat.now) }
{
    Some((left_in(input, p)?, seat_in(input, seat)?))
}
