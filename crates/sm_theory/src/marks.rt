//! What is noted of the rotations of a chain, one after another: which one moved each proposer last, and which one moved a
//! reviewer past each proposer of its list.

ghost use Rattle.std.specs.Prelude.{◌≡◌, ℕ, ◌+◌, ◌<◌, ◌≤◌, ◌^◌, [], length, replicate, IfOk, OnOk, None};
ghost use Rattle.sm_market.specs.Lists.{row, IsMarket};
ghost use Rattle.sm_theory.specs.Rotations.{proposer_at};
ghost use Rattle.sm_theory.specs.Marks.{marks_in, marks_of, mark_at, AreMarksFor, AreMoved, IsEntryMarked, IsSpanMarked};

use crate::mark::Mark;
use sm_market::Market;
use std::alloc::{AllocError, Global};
use std::marker::Model;

/// For each entry of the proposers' lists the rotation that moved its reviewer from somebody worse than the list's owner to
/// somebody better, or none.
///
/// The marks of a list take memory from the first one on. Proposers, places and rotations are numbered from 0.
#[derive(Debug, Drop)]
pub struct Marks {
    rows: Vec<Vec<Mark>>,
}

impl Model for Marks {
    ghost use Rattle.std.specs.Prelude.{ℕ, List, Option};
    ghost use Rattle.sm_theory.specs.Marks.{marks_in};

    ghost Value = { List (List (Option ℕ)) };

    ghost view = { λ m. marks_in m.rows.items };
}

impl Marks {
    /// No mark beside any entry of the proposers' lists. Takes time and memory in proportion to the proposers.
    ///
    /// # Errors
    ///
    /// `AllocError` where memory ran out, and only then.
    pub fn new(alloc: Global, market: &Market) -> Result<Marks, AllocError>
        ensures for_entries { IfOk result (λ marks. AreMarksFor market.now marks) }
        ensures none { IfOk result (λ marks. (p x : ℕ) → mark_at marks p x ≡ None) }
    {
        let proposers = market.proposers();
        let mut rows = Vec::with_capacity(alloc, proposers as usize)?;
        for p in 0..proposers {
            rows.push(Vec::new(alloc))?;
        }
        Ok(Marks { rows })
    }

    /// The marks beside a proposer's list: one for each entry, or none at all where no entry is marked. Takes constant time.
    pub fn at(&self, p: u32) -> &[Mark]
        requires { p < length self.now }
        ensures { result.now ≡ marks_of self.now p }
    {
        &self.rows[p as usize]
    }
}

/// Notes a rotation, by its number `j`, with each proposer that it moves: `last[p]` is `j` afterwards where `p` is in the
/// rotation, and what it was before elsewhere. Takes time in proportion to the rotation's pairs.
pub fn note_movers(pairs: &[(u32, u32)], j: u32, last: &mut [Option<u32>])
    requires in_range { (i : ℕ) → i < length pairs.now → proposer_at pairs.now i < length last.old }
    ensures { AreMoved pairs.now (length pairs.now) j last.old last.new }
{
    for i in 0..pairs.len() {
        last[pairs[i].0 as usize] = Some(j);
    }
}

/// Marks a reviewer's entries behind one place of its list and before another with a rotation's number `j`, each at its place
/// on the proposer's list. Places count from 0, and the number is less than 4,294,967,295.
///
/// Takes time in proportion to the entries that are marked, and where an entry is the first one of its proposer's list that is
/// marked, time and memory in proportion to that list.
///
/// # Errors
///
/// `AllocError` where memory ran out, and only then; nothing is said of the marks then.
pub fn mark_span(
    market: &Market,
    r: u32,
    better: u32,
    worse: u32,
    j: u32,
    marks: &mut Marks,
) -> Result<(), AllocError>
    requires market { IsMarket market.now }
    requires in_range { r < length market.now.reviewers }
    requires gains { better < worse }
    requires on_list { worse ≤ length (row market.now.reviewers r) }
    requires number { j + 1 < 2 ^ 32 }
    requires for_entries { AreMarksFor market.now marks.old }
    ensures { OnOk result (IsSpanMarked market.now r better worse j marks.old marks.new) }
{
    let mark = Mark::of(Some(j));
    let rows = marks.rows.as_mut_slice();
    for place in better + 1..worse {
        let p = market.proposer_at(r, place);
        put(market, p, market.reviewer_cross(r, place), mark, rows)?;
    }
    Ok(())
}

/// Puts a mark beside the entry at a place of a proposer's list.
fn put(
    market: &Market,
    p: u32,
    place: u32,
    mark: Mark,
    rows: &mut [Vec<Mark>],
) -> Result<(), AllocError>
    requires in_range { p < length market.now.proposers }
    requires on_list { place < length (row market.now.proposers p) }
    requires for_entries { AreMarksFor market.now (marks_in rows.old) }
    ensures { OnOk result (IsEntryMarked market.now p place mark (marks_in rows.old) (marks_in
        rows.new)) }
{
    let row = &mut rows[p as usize];
    if row.is_empty() {
        make_row(market, p, row)?;
    }
    row[place as usize] = mark;
    Ok(())
}

/// Makes the marks beside a proposer's list, with none of its entries marked. Never inlined, so that a list whose marks are
/// made pays nothing for it.
#[inline(never)]
fn make_row(market: &Market, p: u32, made: &mut Vec<Mark>) -> Result<(), AllocError>
    requires in_range { p < length market.now.proposers }
    requires empty { made.old.items ≡ [] }
    ensures { OnOk result (made.new.items ≡ replicate (length (row market.now.proposers p)) None) }
{
    made.resize(market.proposer_len(p) as usize, Mark::of(None))?;
    Ok(())
}
