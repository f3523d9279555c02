//! What each rotation of a chain needs: its predecessors, as far as the chain is known.

ghost use Rattle.std.specs.Prelude.{◌≡◌, ℕ, ◌+◌, ◌-◌, ◌<◌, ◌≤◌, ◌^◌, ◌++◌, ◌∷◌, [], ◌↔◌, List, length, slice_index, IsTrue, IfOk, OnOk, Contains};
ghost use Rattle.sm_market.specs.Lists.{Lists, IsMarket, place_of, row};
ghost use Rattle.sm_market.specs.Matching.{Places, IsMatching};
ghost use Rattle.sm_market.specs.Pairing.{IsPairingOf};
ghost use Rattle.sm_theory.specs.Rotations.{IsExposed, proposer_at, target_at, next_in};
ghost use Rattle.sm_theory.specs.Chains.{stage, AreNeedsOf};
ghost use Rattle.sm_theory.specs.Marks.{note_of, IsBetween, AreMarksFor, AreMarked, IsFoundNeed, Adds};
ghost use Rattle.sm_check_decide.specs.Noting.{IsNotesFor, AreNoted, AreNotesBelow};

use crate::trail::Trail;
use sm_market::{Market, Pairing, next_in};
use sm_successors::first_taker;
use sm_theory::{Mark, Marks, Rotation, mark_span, note_movers};
use std::alloc::{AllocError, Global};
use std::marker::Model;

/// What is noted of the rotations of a chain, one after another, to tell what each one needs.
///
/// Each proposer is noted with the last rotation that moved it, and each entry of a list with the rotation that moved its
/// reviewer from somebody worse than the list's owner to somebody better.
#[derive(Debug, Drop)]
pub struct Notes {
    last: Vec<Option<u32>>,
    marks: Marks,
    found: Trail,
    count: u32,
}

impl Model for Notes {
    ghost use Rattle.sm_check_decide.specs.Noting.{RotationNotes};

    ghost Value = { RotationNotes };

    ghost view = { λ n. record {
      most = n.found.bound;
      count = n.count;
      last = n.last.items;
      marks = n.marks;
      found = n.found.items;
    } };
}

impl Notes {
    /// Nothing is noted yet of a chain of at most so many rotations.
    ///
    /// Takes time and memory in proportion to the proposers and the rotations.
    ///
    /// # Errors
    ///
    /// `AllocError` where memory ran out, and only then.
    pub fn of(alloc: Global, market: &Market, most: u32) -> Result<Notes, AllocError>
        ensures notes { IfOk result (λ notes. IsNotesFor market.now notes) }
        ensures most { IfOk result (λ notes. notes.most ≡ most) }
        ensures none { IfOk result (λ notes. (first : Places) → IsMatching market.now first
            → AreNoted market.now first [] notes) }
    {
        Ok(Notes {
            last: vec![in alloc; None; market.proposers() as usize]?,
            marks: Marks::new(alloc, market)?,
            found: Trail::new(alloc, most)?,
            count: 0,
        })
    }

    /// Notes the next rotation of the chain, before it is eliminated, and finds what it needs.
    ///
    /// The pairing has to be made for a market of these lists, and the rotation exposed at it. Takes the time and the memory
    /// of [`mark_span`] for each reviewer that it moves, and otherwise time in proportion to the rotation and to the places by
    /// which it moves its proposers down.
    ///
    /// # Errors
    ///
    /// `AllocError` where memory ran out, and only then; nothing is said of what is noted then.
    pub fn note(
        &mut self,
        market: &Market,
        m: &Pairing,
        rotation: &Rotation,
    ) -> Result<(), AllocError>
        requires made { IsPairingOf market.now m.now }
        requires exposed { IsExposed market.now m.now.places rotation.now.pairs.items }
        requires notes { IsNotesFor market.now self.old }
        requires room { self.old.count < self.old.most }
        ensures notes { OnOk result (IsNotesFor market.now self.new) }
        ensures most { OnOk result (self.new.most ≡ self.old.most) }
        ensures noted { OnOk result ((first : Places) (rotations : List (List (ℕ × ℕ)))
            → AreNoted market.now first rotations self.old
            → m.now.places ≡ stage market.now first rotations (length rotations)
            → AreNoted market.now first (rotations ++ rotation.now.pairs.items ∷ []) self.new) }
    {
        prove!(self.count < self.found.bound());
        let pairs = rotation.pairs.as_slice();
        find(market, m, pairs, &self.last, &self.marks, &mut self.found);
        mark_moves(market, m, pairs, self.count, &mut self.marks)?;
        note_movers(pairs, self.count, &mut self.last);
        self.count += 1;
        Ok(())
    }

    /// Whether these are the numbers of all predecessors of the newest rotation, rising; of no rotation there are none.
    /// Rotations are numbered from 0, and any numbers may stand there.
    ///
    /// Takes time in proportion to the numbers (Gusfield and Irving 1989, chapter 3, in a form of this project's own).
    pub fn are_needs(&self, needs: &[u32]) -> bool
        ensures { (l : Lists) (first : Places) (rotations : List (List (ℕ × ℕ)))
            → AreNoted l first rotations self.now → IsTrue result
            ↔ AreNeedsOf l rotations (length rotations - 1) needs.now }
    {
        needs.len() == self.found.len() as usize && are_rising_in(needs, &self.found)
    }
}

/// Whether numbers rise and are all on a trail.
fn are_rising_in(needs: &[u32], found: &Trail) -> bool
    ensures { IsTrue result
        ↔ (((a b : ℕ) → a < b → b < length needs.now → slice_index needs.now a
        < slice_index needs.now b)
        × ((a : ℕ) → a < length needs.now → Contains found.now.items (slice_index needs.now a))) }
{
    for a in 0..needs.len() {
        if !is_risen(needs, a) || !is_among(found, needs[a]) {
            return false;
        }
    }
    true
}

/// Whether a number is greater than the one before it, if there is one.
fn is_risen(needs: &[u32], a: usize) -> bool
    requires { a < length needs.now }
    ensures { IsTrue result ↔ (0 < a → slice_index needs.now (a - 1) < slice_index needs.now a) }
{
    a == 0 || needs[a - 1] < needs[a]
}

/// Whether any number was come by.
fn is_among(found: &Trail, i: u32) -> bool
    ensures { IsTrue result ↔ Contains found.now.items i }
{
    i < found.bound() && found.has(i)
}

/// Finds what a rotation needs, by what was noted of the rotations before it.
fn find(
    market: &Market,
    m: &Pairing,
    pairs: &[(u32, u32)],
    last: &[Option<u32>],
    marks: &Marks,
    found: &mut Trail,
)
    requires made { IsPairingOf market.now m.now }
    requires exposed { IsExposed market.now m.now.places pairs.now }
    requires one_each { length last.now ≡ length market.now.proposers }
    requires for_entries { AreMarksFor market.now marks.now }
    requires below { AreNotesBelow found.old.bound last.now marks.now }
    ensures bound { found.new.bound ≡ found.old.bound }
    ensures found { Adds (λ i. IsFoundNeed market.now pairs.now (length pairs.now) last.now
        marks.now i) [] found.new.items }
{
    found.clear();
    prove!(market.proposers() < 1 << 24);
    for i in 0..pairs.len() {
        let p = pairs[i].0;
        let from = market.proposer_standing(m, p);
        let to = place_behind(market, m, pairs, i);
        add(last[p as usize], found);
        add_between(marks.at(p), from, to, found);
    }
}

/// Adds what is noted, if anything is.
fn add(note: Option<u32>, found: &mut Trail)
    requires below { (i : ℕ) → note ≡ Some i → i < found.old.bound }
    ensures bound { found.new.bound ≡ found.old.bound }
    ensures added { Adds (λ i. note ≡ Some i) found.old.items found.new.items }
{
    let Some(i) = note else {
        return;
    };
    if !found.has(i) {
        found.push(i);
    }
}

/// Adds what is marked behind one place and before another.
fn add_between(marks: &[Mark], from: u32, to: u32, found: &mut Trail)
    requires below { (x i : ℕ) → note_of marks.now x ≡ Some i → i < found.old.bound }
    requires down { from < to }
    ensures bound { found.new.bound ≡ found.old.bound }
    ensures added { Adds (λ i. IsBetween marks.now from to i) found.old.items found.new.items }
{
    let end = marks.len().min(to as usize);
    for place in from as usize + 1..end {
        add(marks[place].get(), found);
    }
}

/// Marks with a rotation each entry over which it moves the entry's reviewer.
fn mark_moves(
    market: &Market,
    m: &Pairing,
    pairs: &[(u32, u32)],
    j: u32,
    marks: &mut Marks,
) -> Result<(), AllocError>
    requires made { IsPairingOf market.now m.now }
    requires exposed { IsExposed market.now m.now.places pairs.now }
    requires number { j + 1 < 2 ^ 32 }
    requires for_entries { AreMarksFor market.now marks.old }
    ensures marked { OnOk result (AreMarked market.now pairs.now (length pairs.now) j marks.old
        marks.new) }
    ensures market { IsMarket market.now }
{
    prove!(market.proposers() < 1 << 24);
    for i in 0..pairs.len() {
        let PassedSpan {
            reviewer,
            better,
            worse,
        } = passed_span(market, m, pairs, i);
        mark_span(market, reviewer, better, worse, j, marks)?;
    }
    Ok(())
}

/// Those past whom a reviewer is moved: the entries of its list behind one place and before another, counted from 0.
#[derive(Clone, Copy)]
pub(crate) struct PassedSpan {
    pub(crate) reviewer: u32,
    pub(crate) better: u32,
    pub(crate) worse: u32,
}

/// Those past whom an exposed rotation moves the reviewer to whom the proposer of one of its pairs moves, pairs counted from 0.
/// Takes time in proportion to the places by which the proposer moves down its list.
pub(crate) fn passed_span(
    market: &Market,
    m: &Pairing,
    pairs: &[(u32, u32)],
    i: usize,
) -> PassedSpan
    requires in_range { i < length pairs.now }
    requires made { IsPairingOf market.now m.now }
    requires exposed { IsExposed market.now m.now.places pairs.now }
    ensures reviewer { result.reviewer ≡ target_at pairs.now i }
    ensures in_range { result.reviewer < length market.now.reviewers }
    ensures better { result.better ≡ place_of market.now.reviewers (target_at pairs.now i)
        (proposer_at pairs.now i) }
    ensures worse { result.worse ≡ place_of market.now.reviewers (target_at pairs.now i)
        (proposer_at pairs.now (next_in pairs.now i)) }
    ensures gains { result.better < result.worse }
    ensures on_list { result.worse ≤ length (row market.now.reviewers result.reviewer) }
    ensures market { IsMarket market.now }
{
    prove!(market.proposers() < 1 << 24);
    let reviewer = pairs[next_in(i, pairs.len())].1;
    PassedSpan {
        reviewer,
        better: market.cross(pairs[i].0, place_behind(market, m, pairs, i)),
        worse: market.reviewer_standing(m, reviewer),
    }
}

/// The place to which the proposer of a pair of an exposed rotation moves, places and pairs counted from 0. Takes time in
/// proportion to the places by which it moves down its list (Gusfield and Irving 1989, section 2.5).
pub fn place_behind(market: &Market, m: &Pairing, pairs: &[(u32, u32)], i: usize) -> u32
    requires in_range { i < length pairs.now }
    requires made { IsPairingOf market.now m.now }
    requires exposed { IsExposed market.now m.now.places pairs.now }
    ensures { result ≡ place_of market.now.proposers (proposer_at pairs.now i)
        (target_at pairs.now i) }
{
    prove!(market.proposers() < 1 << 24);
    first_taker(market, m, pairs[i].0, 0)
}
