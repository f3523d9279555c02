//! The proposers' lists of seats.

ghost use Rattle.std.specs.Prelude.{◌≡◌, ◌<◌, [], length, IfOk, OnOk};
ghost use Rattle.sm_seats.specs.Tables.{inert_places_of, cross_row};
ghost use Rattle.sm_seats.specs.Counted.{seat_numbers_of, first_seats_of};
ghost use Rattle.sm_seats.specs.SeatMarket.{seat_row};
ghost use Rattle.sm_seats.specs.ProposerRows.{seat_rows_of, cross_rows_of};

use crate::crossed_instance::CrossedInstance;
use crate::entry_counts::EntryCounts;
use crate::places::mutual_place;
use sm_lists::{RaisedRows, Rows, RowsWriter};
use std::alloc::{AllocError, Global};

/// The lists of all proposers: of seats, and of the proposer's place on the list of each.
#[derive(Drop)]
pub(crate) struct ProposerRows {
    pub(crate) lists: Rows,
    pub(crate) crosses: RaisedRows,
}

/// The lists of all proposers, from the numbers of the seats, and the mutual places of the reviewers' lists.
pub(crate) fn proposer_rows(
    alloc: Global,
    instance: &CrossedInstance<'_>,
    counts: &EntryCounts<'_>,
    places: &Rows,
) -> Result<ProposerRows, AllocError>
    requires firsts { counts.now.firsts.now ≡ first_seats_of instance.now }
    requires numbers { counts.now.numbers.items ≡ seat_numbers_of instance.now }
    requires places { places.now ≡ inert_places_of instance.now }
    ensures lists { IfOk result
        (λ rows. rows.lists ≡ seat_rows_of instance.now (length instance.now.proposers)) }
    ensures crosses { IfOk result
        (λ rows. rows.crosses ≡ cross_rows_of instance.now (length instance.now.proposers)) }
{
    let proposers = instance.proposer_count();
    let mut writer = RowsWriter::with_capacity(alloc, proposers as usize, counts.entries as usize)?;
    for p in 0..proposers {
        write_row(&mut writer, instance, p, counts, places)?;
        writer.end_list()?;
    }
    let (lists, crosses) = writer.into_rows(alloc)?;
    Ok(ProposerRows { lists, crosses })
}

/// Writes the lists of one proposer: for each acceptable reviewer its seats, and beside each the proposer's place on its list.
fn write_row(
    writer: &mut RowsWriter,
    instance: &CrossedInstance<'_>,
    p: u32,
    counts: &EntryCounts<'_>,
    places: &Rows,
) -> Result<(), AllocError>
    requires in_range { p < length instance.now.proposers }
    requires firsts { counts.now.firsts.now ≡ first_seats_of instance.now }
    requires numbers { counts.now.numbers.items ≡ seat_numbers_of instance.now }
    requires places { places.now ≡ inert_places_of instance.now }
    requires list_begun { writer.old.list ≡ [] }
    requires crosses_begun { writer.old.list_crosses ≡ [] }
    ensures lists { OnOk result (writer.new.lists ≡ writer.old.lists) }
    ensures crosses { OnOk result (writer.new.crosses ≡ writer.old.crosses) }
    ensures list { OnOk result (writer.new.list ≡ seat_row instance.now p) }
    ensures list_crosses { OnOk result (writer.new.list_crosses ≡ cross_row instance.now p) }
{
    let firsts = counts.firsts;
    let numbers = counts.numbers.as_slice();
    let written = instance.proposer_list(p);
    let written_crosses = instance.proposer_crosses(p);
    for place in 0..instance.proposer_len(p) {
        if let Some(back) = written_crosses[place as usize].place() {
            let r = written[place as usize];
            let from = firsts[r as usize] as usize;
            let to = firsts[r as usize + 1] as usize;
            writer.add(&numbers[from..to], mutual_place(instance, places, r, back))?;
        }
    }
    Ok(())
}
