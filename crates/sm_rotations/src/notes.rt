//! What is noted of the rotations of a chain, as they are eliminated one after another.

ghost use Rattle.std.specs.Prelude.{◌≡◌, ℕ, ◌+◌, ◌<◌, ◌^◌, ◌++◌, ◌∷◌, List, length, IfOk, OnOk, Some, []};
ghost use Rattle.sm_market.specs.Lists.{IsMarket};
ghost use Rattle.sm_market.specs.Matching.{Places, IsMatching};
ghost use Rattle.sm_market.specs.Pairing.{IsPairingOf};
ghost use Rattle.sm_theory.specs.Rotations.{IsExposed, proposer_at, eliminated};
ghost use Rattle.sm_theory.specs.Chains.{stage};
ghost use Rattle.sm_rotations.specs.Marking.{AreMarksFor, AreMarked, IsBetween, Adds};
ghost use Rattle.sm_rotations.specs.Footings.{footing_at, AreSteps, AreTargetPlaces, IsFoundAlong};
ghost use Rattle.sm_rotations.specs.Noting.{AreNoted, IsNotedUpTo};

use crate::footings::step;
use crate::graph::add_once;
use sm_market::{Footing, Market, Pairing, next_in};
use sm_theory::{Mark, Marks, Rotation, mark_span, note_movers};
use std::alloc::{AllocError, Global};

/// What is noted of the rotations of a chain, to tell which ones need each one.
///
/// Each proposer is noted with the last rotation that moved it, and each entry of a list with the rotation that moved its
/// reviewer from somebody worse than the list's owner to somebody better. There is no more than one such rotation, since
/// reviewers never go down.
#[derive(Drop)]
pub(crate) struct Notes {
    /// The rotation that moved each proposer last.
    last: Vec<Option<u32>>,
    /// The rotation that moved the reviewer of each entry of the proposers' lists past the proposer.
    marks: Marks,
    /// For each rotation those that need it, each once.
    followers: Vec<Vec<u32>>,
    /// How those whom the newest rotation moves stood before.
    before: Vec<Footing>,
    /// How they stand after it.
    after: Vec<Footing>,
    /// What the newest rotation needs. A number may stand there more than once.
    found: Vec<u32>,
}

impl Notes {
    /// Nothing is noted yet. Takes time and memory in proportion to the proposers.
    pub(crate) fn of(alloc: Global, market: &Market) -> Result<Notes, AllocError>
        ensures { IfOk result (λ notes. (first : Places) → IsMatching market.now first
            → AreNoted market.now first [] notes) }
    {
        Ok(Notes {
            last: vec![in alloc; None; market.proposers() as usize]?,
            marks: Marks::new(alloc, market)?,
            followers: Vec::new(alloc),
            before: Vec::new(alloc),
            after: Vec::new(alloc),
            found: Vec::new(alloc),
        })
    }

    /// Eliminates the next rotation of the chain, and notes it. `places` has the places to which its
    /// proposers move.
    pub(crate) fn eliminate(
        &mut self,
        alloc: Global,
        market: &Market,
        m: &mut Pairing,
        rotation: &Rotation,
        places: &[u32],
    ) -> Result<(), AllocError>
        requires made { IsPairingOf market.now m.old }
        requires exposed { IsExposed market.now m.old.places rotation.now.pairs.items }
        requires places { AreTargetPlaces market.now rotation.now.pairs.items places.now }
        requires noted { IsNotedUpTo market.now m.old.places self.old }
        ensures made { OnOk result (IsPairingOf market.now m.new) }
        ensures moved { OnOk result (m.new.places
            ≡ eliminated market.now m.old.places rotation.now.pairs.items) }
        ensures noted { OnOk result ((first : Places) (rotations : List (List (ℕ × ℕ)))
            → AreNoted market.now first rotations self.old
            → m.old.places ≡ stage market.now first rotations (length rotations)
            → AreNoted market.now first (rotations ++ rotation.now.pairs.items ∷ []) self.new) }
    {
        prove!(market.proposers() < 1 << 24);
        step(
            market,
            m,
            rotation,
            places,
            &mut self.before,
            &mut self.after,
        )?;
        let pairs = rotation.pairs.as_slice();
        let number = self.followers.len() as u32;
        find(
            pairs,
            &self.before,
            &self.after,
            &self.last,
            &self.marks,
            &mut self.found,
        )?;
        self.followers.push(Vec::new(alloc))?;
        add_once(number, &self.found, &mut self.followers)?;
        note_movers(pairs, number, &mut self.last);
        mark_moves(
            market,
            pairs,
            &self.before,
            &self.after,
            number,
            &mut self.marks,
        )?;
        Ok(())
    }

    /// For each rotation those that need it. All else is dropped.
    pub(crate) fn into_followers(self) -> Vec<Vec<u32>>
        ensures { result ≡ self.followers }
    {
        let Notes { followers, .. } = self;
        followers
    }
}

/// Finds what a rotation needs, by what was noted of the rotations before it, in place of what was found for another.
fn find(
    pairs: &[(u32, u32)],
    before: &[Footing],
    after: &[Footing],
    last: &[Option<u32>],
    marks: &Marks,
    found: &mut Vec<u32>,
) -> Result<(), AllocError>
    requires before_each { length before.now ≡ length pairs.now }
    requires after_each { length after.now ≡ length pairs.now }
    requires in_last { (i : ℕ) → i < length pairs.now → proposer_at pairs.now i < length last.now }
    requires in_marks { (i : ℕ) → i < length pairs.now → proposer_at pairs.now i
        < length marks.now }
    requires down { (i : ℕ) → i < length pairs.now → (footing_at before.now i).proposer
        < (footing_at after.now i).proposer }
    ensures { OnOk result (Adds
        (λ i. IsFoundAlong pairs.now before.now after.now (length pairs.now) last.now
        marks.now i)
        [] found.new.items) }
{
    found.clear();
    for i in 0..pairs.len() {
        let p = pairs[i].0;
        add(last[p as usize], found)?;
        add_between(marks.at(p), before[i].proposer, after[i].proposer, found)?;
    }
    Ok(())
}

/// Adds the rotations that are marked behind one place and before another.
fn add_between(marks: &[Mark], from: u32, to: u32, found: &mut Vec<u32>) -> Result<(), AllocError>
    requires down { from < to }
    ensures { OnOk result (Adds (λ i. IsBetween marks.now from to i) found.old.items
        found.new.items) }
{
    let end = marks.len().min(to as usize);
    for place in from as usize + 1..end {
        add(marks[place].get(), found)?;
    }
    Ok(())
}

/// Adds a rotation, if any, unless it was added last: many of a rotation's pairs need the same one.
fn add(needed: Option<u32>, found: &mut Vec<u32>) -> Result<(), AllocError>
    ensures { OnOk result (Adds (λ i. needed ≡ Some i) found.old.items found.new.items) }
{
    if let Some(i) = needed {
        if found.last().copied() != needed {
            found.push(i)?;
        }
    }
    Ok(())
}

/// Marks with a rotation each entry over which it moves the entry's reviewer.
fn mark_moves(
    market: &Market,
    pairs: &[(u32, u32)],
    before: &[Footing],
    after: &[Footing],
    j: u32,
    marks: &mut Marks,
) -> Result<(), AllocError>
    requires market { IsMarket market.now }
    requires moved { AreSteps market.now pairs.now before.now after.now }
    requires number { j + 1 < 2 ^ 32 }
    requires for_entries { AreMarksFor market.now marks.old }
    ensures { OnOk result (AreMarked market.now pairs.now (length pairs.now) j marks.old
        marks.new) }
{
    for i in 0..pairs.len() {
        let r = pairs[next_in(i, pairs.len())].1;
        mark_span(market, r, after[i].reviewer, before[i].reviewer, j, marks)?;
    }
    Ok(())
}
