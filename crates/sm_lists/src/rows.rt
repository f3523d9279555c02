//! Lists that stand one behind another in one vector, read by agent and place.

ghost use Rattle.std.specs.Prelude.{◌≡◌, ℕ, ◌<◌, ◌^◌, ◌++◌, ◌∷◌, [], length, replicate, IfOk, OnOk, OnErr};
ghost use Rattle.sm_lists.specs.Rows.{rows_of, row, entry};
ghost use Rattle.sm_lists.specs.Spans.{rows_in, AreSpans};

use crate::packed::Packed;
use crate::span::Span;
use std::alloc::{AllocError, Global};
use std::marker::Model;

/// The lists of one side's agents, one behind another.
///
/// Agents and places are numbered from 0. Equal lists may share their entries, so that many agents with one list take hardly
/// more memory than one of them.
#[derive(Debug, Drop)]
pub struct Rows {
    entries: Vec<u32>,
    spans: Vec<Span>,
}

impl Model for Rows {
    ghost use Rattle.std.specs.Prelude.{ℕ, List, length};
    ghost use Rattle.sm_lists.specs.Spans.{rows_in, AreSpans};

    ghost Value = { List (List ℕ) };

    ghost view = { λ r. rows_in r.entries.items r.spans.items };

    ghost invariant = { λ r. AreSpans (length r.entries.items) r.spans.items };
}

impl Rows {
    /// No list yet, with room for so many lists with so many entries in all.
    ///
    /// # Errors
    ///
    /// `AllocError` where memory ran out, and only then.
    pub fn with_capacity(alloc: Global, lists: usize, entries: usize) -> Result<Rows, AllocError>
        ensures { IfOk result (λ rows. rows ≡ []) }
    {
        Ok(Rows {
            entries: Vec::with_capacity(alloc, entries)?,
            spans: Vec::with_capacity(alloc, lists)?,
        })
    }

    /// The lists that these vectors hold. Takes time and memory in proportion to the lists and their entries.
    ///
    /// # Errors
    ///
    /// Those of [`Rows::push`].
    pub fn of(alloc: Global, vectors: &[Vec<u32>]) -> Result<Rows, AllocError>
        ensures { IfOk result (λ rows. rows ≡ rows_of vectors.now) }
    {
        let mut rows = Rows::with_capacity(alloc, vectors.len(), entries_of(vectors))?;
        for vector in vectors {
            rows.push(vector)?;
        }
        Ok(rows)
    }

    /// The lists that are packed. Takes time and memory in proportion to the lists and their entries.
    ///
    /// # Errors
    ///
    /// Those of [`Rows::push`].
    pub fn of_packed(alloc: Global, packed: &Packed<u32>) -> Result<Rows, AllocError>
        requires { length packed.now < 2 ^ 32 }
        ensures { IfOk result (λ rows. rows ≡ packed.now) }
    {
        let mut rows = Rows::with_capacity(alloc, packed.len(), 0)?;
        for a in 0..packed.len() as u32 {
            rows.push(packed.at(a))?;
        }
        Ok(rows)
    }

    /// Adds a list. Takes time in proportion to it.
    ///
    /// # Errors
    ///
    /// `AllocError` where memory ran out, or where the lists would have more than 4,294,967,295 entries. The lists are then
    /// what they were.
    pub fn push(&mut self, list: &[u32]) -> Result<(), AllocError>
        ensures pushed { OnOk result (self.new ≡ self.old ++ list.now ∷ []) }
        ensures kept { OnErr result (self.new ≡ self.old) }
    {
        let span = add_entries(&mut self.entries, list)?;
        self.spans.push(span)?;
        Ok(())
    }

    /// Adds a list for each of so many agents, who share its entries. Takes time in proportion to the list and the agents.
    ///
    /// # Errors
    ///
    /// Those of [`Rows::push`].
    pub fn push_shared(&mut self, list: &[u32], count: u32) -> Result<(), AllocError>
        ensures pushed { OnOk result (self.new ≡ self.old ++ replicate count list.now) }
        ensures kept { OnErr result (self.new ≡ self.old) }
    {
        if count == 0 {
            return Ok(());
        }
        let span = add_entries(&mut self.entries, list)?;
        let agents = self.spans.len() + count as usize;
        self.spans.resize(agents, span)?;
        Ok(())
    }

    /// How many lists there are. Takes constant time.
    pub fn len(&self) -> usize
        ensures count { result ≡ length self.now }
        ensures fits { result < 2 ^ 63 }
    {
        self.spans.len()
    }

    /// The list of an agent. Takes constant time.
    pub fn at(&self, a: u32) -> &[u32]
        requires { a < length self.now }
        ensures { result.now ≡ row self.now a }
    {
        let Span { start, end } = self.spans[a as usize];
        &self.entries[start as usize..end as usize]
    }

    /// Whom an agent's list names at a place. Takes constant time.
    pub fn entry_at(&self, a: u32, place: u32) -> u32
        requires in_range { a < length self.now }
        requires on_list { place < length (row self.now a) }
        ensures { result ≡ entry self.now a place }
    {
        let Span { start, .. } = self.spans[a as usize];
        self.entries[start as usize + place as usize]
    }

    /// The lists that stand so among all entries. Takes constant time.
    pub(crate) fn of_parts(entries: Vec<u32>, spans: Vec<Span>) -> Rows
        requires { AreSpans (length entries.items) spans.items }
        ensures { result ≡ rows_in entries.items spans.items }
    {
        Rows { entries, spans }
    }

    /// All entries, and where the list of each agent stands among them.
    pub(crate) fn into_parts(self) -> (Vec<u32>, Vec<Span>)
        ensures spans { AreSpans (length result.0.items) result.1.items }
        ensures lists { rows_in result.0.items result.1.items ≡ self }
    {
        let Rows { entries, spans } = self;
        (entries, spans)
    }

    /// The same lists. Takes time and memory in proportion to the lists and their entries, where shared ones count once.
    ///
    /// # Errors
    ///
    /// `AllocError` where memory ran out, and only then.
    pub fn copy(&self, alloc: Global) -> Result<Rows, AllocError>
        ensures { IfOk result (λ copy. copy ≡ self.now) }
    {
        Ok(Rows {
            entries: Vec::from_slice(alloc, &self.entries)?,
            spans: Vec::from_slice(alloc, &self.spans)?,
        })
    }
}

/// Adds the entries of a list behind the others, and tells where they stand.
fn add_entries(entries: &mut Vec<u32>, list: &[u32]) -> Result<Span, AllocError>
    ensures added { OnOk result (entries.new.items ≡ entries.old.items ++ list.now) }
    ensures start { IfOk result (λ span. span.start ≡ length entries.old.items) }
    ensures end { IfOk result (λ span. span.end ≡ length entries.new.items) }
    ensures kept { OnErr result (entries.new.items ≡ entries.old.items) }
{
    let span = Span::behind(entries.len(), list.len())?;
    entries.extend_from_slice(list)?;
    Ok(span)
}

/// How many entries these lists have, or the greatest number where they are more.
fn entries_of(vectors: &[Vec<u32>]) -> usize {
    let mut entries: usize = 0;
    for vector in vectors {
        entries = entries.saturating_add(vector.len());
    }
    entries
}
