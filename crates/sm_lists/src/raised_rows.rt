//! Lists that share their entries but for a number that is added to each.

ghost use Rattle.std.specs.Prelude.{◌≡◌, ℕ, ◌+◌, ◌<◌, ◌≤◌, ◌^◌, ◌++◌, [], length, map, slice_index, IfOk, OnOk, OnErr};
ghost use Rattle.sm_lists.specs.Places.{places_in};
ghost use Rattle.sm_lists.specs.Rows.{row, entry};
ghost use Rattle.sm_lists.specs.Spans.{rows_in, AreSpans};
ghost use Rattle.sm_lists.specs.Raised.{raised_lists};

use crate::cells::Cells;
use crate::cross::Cross;
use crate::packed::Packed;
use crate::rows::Rows;
use crate::span::Span;
use std::alloc::{AllocError, Global};
use std::marker::Model;

/// The lists of one side's agents, of which some are others raised: a number is added to each entry.
///
/// Agents and places are numbered from 0. A list and those that it is raised to share their entries, so that they take hardly
/// more memory than one of them. What is pushed takes two bytes an entry, and four from the first list on with one too great.
#[derive(Debug, Drop)]
pub struct RaisedRows {
    entries: Cells,
    spans: Vec<Span>,
    /// By how much each agent's list is raised. One past the last isn't.
    raises: Vec<u32>,
}

impl Model for RaisedRows {
    ghost use Rattle.std.specs.Prelude.{ℕ, List};
    ghost use Rattle.sm_lists.specs.Spans.{rows_in};
    ghost use Rattle.sm_lists.specs.Raises.{raised_rows, AreRaisedSpans};

    ghost Value = { List (List ℕ) };

    ghost view = { λ r. raised_rows (rows_in r.entries r.spans.items) r.raises.items };

    ghost invariant = { λ r. AreRaisedSpans r.entries r.spans.items r.raises.items };
}

impl RaisedRows {
    /// No list yet, with room for so many lists with so many entries in all, where raised ones count once.
    ///
    /// # Errors
    ///
    /// `AllocError` where memory ran out, and only then.
    pub fn with_capacity(
        alloc: Global,
        lists: usize,
        entries: usize,
    ) -> Result<RaisedRows, AllocError>
        ensures { IfOk result (λ rows. rows ≡ []) }
    {
        Ok(RaisedRows {
            entries: Cells::with_capacity(alloc, entries)?,
            spans: Vec::with_capacity(alloc, lists)?,
            raises: Vec::with_capacity(alloc, lists)?,
        })
    }

    /// These lists, of which none is raised. Takes constant time.
    pub fn level(alloc: Global, rows: Rows) -> RaisedRows
        ensures { result ≡ rows }
    {
        let (entries, spans) = rows.into_parts();
        RaisedRows::of_cells(alloc, Cells::wide(alloc, entries), spans)
    }

    /// These cross places, of which none is raised; where there is none, 0. They are moved in. Takes time and memory in proportion
    /// to the lists.
    ///
    /// # Errors
    ///
    /// `AllocError` where memory ran out, and only then.
    pub fn of_crosses(alloc: Global, crosses: Packed<Cross>) -> Result<RaisedRows, AllocError>
        ensures { IfOk result (λ rows. rows ≡ map places_in crosses) }
    {
        let (places, spans) = crosses.into_spans(alloc)?;
        Ok(RaisedRows::of_cells(alloc, Cells::of_crosses(alloc, places), spans))
    }

    /// The lists that stand so among all entries, of which none is raised. Takes constant time.
    pub(crate) fn of_cells(alloc: Global, entries: Cells, spans: Vec<Span>) -> RaisedRows
        requires { AreSpans (length entries) spans.items }
        ensures { result ≡ rows_in entries spans.items }
    {
        RaisedRows {
            entries,
            spans,
            raises: Vec::new(alloc),
        }
    }

    /// Adds a list for each of so many agents: this one for the first, and for each other the list of the one before it with
    /// entries that are greater by one. Takes time in proportion to the list and the agents.
    ///
    /// # Errors
    ///
    /// Those of [`Rows::push`].
    pub fn push_raised(&mut self, list: &[u32], count: u32) -> Result<(), AllocError>
        requires small { (i : ℕ) → slice_index list.now i + count ≤ 2 ^ 32 }
        ensures pushed { OnOk result (self.new ≡ self.old ++ raised_lists list.now count) }
        ensures kept { OnErr result (self.new ≡ self.old) }
    {
        if count == 0 {
            return Ok(());
        }
        let agents = self.spans.len();
        let span = add_entries(&mut self.entries, list)?;
        self.raises.resize(agents + count as usize, 0)?;
        self.spans.resize(agents + count as usize, span)?;
        count_from(&mut self.raises, agents);
        Ok(())
    }

    /// What an agent's list has at a place. Takes constant time.
    pub fn entry_at(&self, a: u32, place: u32) -> u32
        requires in_range { a < length self.now }
        requires on_list { place < length (row self.now a) }
        ensures { result ≡ entry self.now a place }
    {
        let entry = entry_in(&self.entries, &self.spans, a, place);
        match self.raises.get(a as usize) {
            Some(raise) => entry + *raise,
            None => entry,
        }
    }

    /// The same lists. Takes time and memory in proportion to the lists and their entries, where raised ones count once.
    ///
    /// # Errors
    ///
    /// `AllocError` where memory ran out, and only then.
    pub fn copy(&self, alloc: Global) -> Result<RaisedRows, AllocError>
        ensures { IfOk result (λ copy. copy ≡ self.now) }
    {
        Ok(RaisedRows {
            entries: self.entries.copy(alloc)?,
            spans: Vec::from_slice(alloc, &self.spans)?,
            raises: Vec::from_slice(alloc, &self.raises)?,
        })
    }
}

/// Adds the entries of a list behind the others, and tells where they stand.
fn add_entries(entries: &mut Cells, list: &[u32]) -> Result<Span, AllocError>
    ensures added { OnOk result (entries.new ≡ entries.old ++ list.now) }
    ensures start { IfOk result (λ span. span.start ≡ length entries.old) }
    ensures end { IfOk result (λ span. span.end ≡ length entries.new) }
    ensures kept { OnErr result (entries.new ≡ entries.old) }
{
    let span = Span::behind(entries.len(), list.len())?;
    entries.extend(list)?;
    Ok(span)
}

/// What an agent's list has at a place, before it is raised.
fn entry_in(entries: &Cells, spans: &[Span], a: u32, place: u32) -> u32
    requires spans { AreSpans (length entries.now) spans.now }
    requires in_range { a < length spans.now }
    requires on_list { place < length (row (rows_in entries.now spans.now) a) }
    ensures { result ≡ entry (rows_in entries.now spans.now) a place }
{
    let Span { start, .. } = spans[a as usize];
    entries.at(start as usize + place as usize)
}

/// Writes 0, 1, 2 and so on from a place on.
fn count_from(numbers: &mut [u32], from: usize)
    requires { length numbers.old ≤ from + 2 ^ 32 }
    ensures as_long { length numbers.new ≡ length numbers.old }
    ensures before { (a : ℕ) → a < from → slice_index numbers.new a ≡ slice_index numbers.old a }
    ensures counted { (k : ℕ) → from + k < length numbers.old → slice_index numbers.new (from + k) ≡ k }
{
    for at in from..numbers.len() {
        numbers[at] = (at - from) as u32;
    }
}
