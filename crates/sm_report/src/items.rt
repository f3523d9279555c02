//! The lists with which lines end, which are written `-` where they are empty.

ghost use Rattle.std.specs.Prelude.{◌≡◌, ◌<◌, [], ◌∷◌, length, slice_index_or};
ghost use Rattle.sm_report.specs.Fields.{spaced};
ghost use Rattle.sm_report.specs.Items.{fields_of_items, each_of, AreNamed};
ghost use Rattle.sm_report.specs.Putting.{PutsText};
ghost use Rattle.sm_report.specs.Sound.{ArePair};
ghost use Rattle.sm_report.specs.Texts.{left_name, seat_text};
ghost use Rattle.sm_instance.specs.declared.inputs.Input.{Input};

use crate::fields::{Field, put_field};
use crate::lines::Seat;
use sm_instance::Input;
use sm_text::LineWriter;
use std::alloc::AllocError;

/// The list with which a line ends.
#[derive(Clone, Copy)]
pub(crate) enum Items<'a> {
    /// Proposers, in roommates persons.
    Lefts(&'a [u32]),
    Seats(&'a [Seat]),
    /// Proposers, each with a seat.
    Pairs(&'a [(u32, Seat)]),
    Numbers(&'a [u32]),
    /// A tally's figures.
    Figures(&'a [u64]),
}

/// What is written for an empty list.
const NONE: Field<'static> = Field::Text(b"-");

/// Puts a list.
pub(crate) fn put_items(
    into: &mut LineWriter,
    input: &Input,
    items: Items<'_>,
) -> Result<(), AllocError>
    requires { AreNamed input.now items }
    ensures { PutsText into.old into.new (spaced (fields_of_items input.now items.entry)) result }
{
    let count = item_count(items);
    if count == 0 {
        return put_field(into, input, NONE);
    }
    for i in 0..count {
        put_item(into, input, items, i)?;
    }
    Ok(())
}

/// How many items a list has.
fn item_count(items: Items<'_>) -> usize
    ensures { (input : Input) → result ≡ length (each_of input items.entry) }
{
    match items {
        Items::Lefts(list) | Items::Numbers(list) => list.len(),
        Items::Seats(list) => list.len(),
        Items::Pairs(list) => list.len(),
        Items::Figures(list) => list.len(),
    }
}

/// Puts the item at a place.
#[inline(always)]
fn put_item(
    into: &mut LineWriter,
    input: &Input,
    items: Items<'_>,
    at: usize,
) -> Result<(), AllocError>
    requires named { AreNamed input.now items }
    requires in_range { at < length (each_of input.now items) }
    ensures { PutsText into.old into.new (spaced (slice_index_or (each_of input.now items.entry)
        at [])) result }
{
    match items {
        Items::Lefts(list) => put_field(into, input, Field::Left(list[at])),
        Items::Seats(list) => put_field(into, input, Field::At(list[at])),
        Items::Pairs(list) => put_pair(into, input, list[at]),
        Items::Numbers(list) => put_field(into, input, Field::Number(u64::from(list[at]))),
        Items::Figures(list) => put_field(into, input, Field::Number(list[at])),
    }
}

/// Puts a proposer and a seat.
#[inline(always)]
fn put_pair(into: &mut LineWriter, input: &Input, pair: (u32, Seat)) -> Result<(), AllocError>
    requires { ArePair input.now pair.0 pair.1.reviewer }
    ensures { PutsText into.old into.new (spaced (left_name input.now pair.0 ∷ seat_text input.now pair.1 ∷ [])) result }
{
    put_field(into, input, Field::Left(pair.0))?;
    put_field(into, input, Field::At(pair.1))
}
