//! Lists that are written in pieces, beside their cross places.

ghost use Rattle.std.specs.Prelude.{◌≡◌, ◌++◌, ◌∷◌, [], length, replicate, IfOk, OnOk, OnErr};

use crate::cells::Cells;
use crate::raised_rows::RaisedRows;
use crate::rows::Rows;
use crate::span::Span;
use std::alloc::{AllocError, Global};
use std::marker::Model;

/// The lists of one side's agents, one behind another, with the cross places of their entries. The list that is being written
/// stands behind those that are ended, and grows by pieces whose entries have equal cross places.
#[derive(Debug, Drop)]
pub struct RowsWriter {
    entries: Vec<u32>,
    crosses: Cells,
    spans: Vec<Span>,
    /// Where the list begins that is being written.
    from: usize,
}

impl Model for RowsWriter {
    ghost use Rattle.sm_lists.specs.RowsWritten.{RowsWritten, written_in, AreInStep};

    ghost Value = { RowsWritten };

    ghost view = { λ w. written_in w.entries.items w.crosses w.spans.items w.from };

    ghost invariant = { λ w. AreInStep w.entries.items w.crosses w.spans.items w.from };
}

impl RowsWriter {
    /// No list yet, with room for so many lists with so many entries in all.
    ///
    /// # Errors
    ///
    /// `AllocError` where memory ran out, and only then.
    pub fn with_capacity(
        alloc: Global,
        lists: usize,
        entries: usize,
    ) -> Result<RowsWriter, AllocError>
        ensures lists { IfOk result (λ writer. writer.lists ≡ []) }
        ensures crosses { IfOk result (λ writer. writer.crosses ≡ []) }
        ensures list { IfOk result (λ writer. writer.list ≡ []) }
        ensures list_crosses { IfOk result (λ writer. writer.list_crosses ≡ []) }
    {
        Ok(RowsWriter {
            entries: Vec::with_capacity(alloc, entries)?,
            crosses: Cells::with_capacity(alloc, entries)?,
            spans: Vec::with_capacity(alloc, lists)?,
            from: 0,
        })
    }

    /// Adds a piece to the list that is being written: entries, and for each of them this cross place. Takes time in proportion to
    /// the piece.
    ///
    /// # Errors
    ///
    /// `AllocError` where memory ran out, and only then. The lists are then what they were.
    pub fn add(&mut self, piece: &[u32], cross: u32) -> Result<(), AllocError>
        ensures lists { OnOk result (self.new.lists ≡ self.old.lists) }
        ensures crosses { OnOk result (self.new.crosses ≡ self.old.crosses) }
        ensures list { OnOk result (self.new.list ≡ self.old.list ++ piece.now) }
        ensures list_crosses { OnOk result (self.new.list_crosses
            ≡ self.old.list_crosses ++ replicate (length piece.now) cross) }
        ensures kept { OnErr result (self.new ≡ self.old) }
    {
        let before = self.entries.len();
        self.entries.extend_from_slice(piece)?;
        if let Err(error) = self.crosses.extend_equal(cross, piece.len()) {
            self.entries.truncate(before);
            return Err(error);
        }
        Ok(())
    }

    /// Ends the list that is being written, and begins the next one. Takes constant time.
    ///
    /// # Errors
    ///
    /// `AllocError` where memory ran out, or where there are more than 4,294,967,295 entries. The lists are then
    /// what they were.
    pub fn end_list(&mut self) -> Result<(), AllocError>
        ensures lists { OnOk result (self.new.lists ≡ self.old.lists ++ self.old.list ∷ []) }
        ensures crosses { OnOk result (self.new.crosses
            ≡ self.old.crosses ++ self.old.list_crosses ∷ []) }
        ensures list { OnOk result (self.new.list ≡ []) }
        ensures list_crosses { OnOk result (self.new.list_crosses ≡ []) }
        ensures kept { OnErr result (self.new ≡ self.old) }
    {
        let end = self.entries.len();
        self.spans.push(Span::behind(self.from, end - self.from)?)?;
        self.from = end;
        Ok(())
    }

    /// The lists that are ended, and their cross places, of which none is raised. Takes time and memory in proportion to the
    /// lists.
    ///
    /// # Errors
    ///
    /// `AllocError` where memory ran out, and only then.
    pub fn into_rows(self, alloc: Global) -> Result<(Rows, RaisedRows), AllocError>
        ensures lists { IfOk result (λ rows. rows.0 ≡ self.lists) }
        ensures crosses { IfOk result (λ rows. rows.1 ≡ self.crosses) }
    {
        let RowsWriter {
            entries,
            crosses,
            spans,
            ..
        } = self;
        let lists = Rows::of_parts(entries, Vec::from_slice(alloc, &spans)?);
        Ok((lists, RaisedRows::of_cells(alloc, crosses, spans)))
    }
}
