//! Some complete chain of rotations, found by a walk along successors and noted on the way.
//!
//! Each proposer's successor is looked for along its list, from where it was looked for before. Reviewers never get worse
//! partners by an elimination, so that no entry is passed twice.

ghost use Rattle.std.specs.Prelude.{◌≡◌, ◌≢◌, ℕ, ◌+◌, ◌-◌, ◌<◌, ◌≤◌, ◌++◌, ◌∷◌, [], length, take, Some, None, true, false, IfOk, OnOk, replicate, slice_index, slice_set, vec_len, vec_capacity};
ghost use Rattle.sm_market.specs.Lists.{place_of, IsMarket};
ghost use Rattle.sm_market.specs.Matching.{held};
ghost use Rattle.sm_market.specs.Stable.{IsStable, IsProposersBest};
ghost use Rattle.sm_market.specs.Pairing.{IsPairingOf};
ghost use Rattle.sm_theory.specs.Chains.{IsCompleteChain};
ghost use Rattle.sm_theory.specs.Values.{rotations_of};
ghost use Rattle.sm_successors.specs.Search.{IsSearchAt};
ghost use Rattle.sm_rotations.specs.Noting.{AreNoted};
ghost use Rattle.sm_rotations.specs.Walking.{IsAtWorst, IsStack, AreFound, IsFoundStep, AreStackPairs, AreTakenOff, is_finished, spot_of, IsTopTakenOff, IsWalkStep, LeadsBack};

use crate::notes::Notes;
use sm_market::{Market, Pairing};
use sm_successors::next_proposer;
use sm_theory::Rotation;
use std::alloc::{AllocError, Global};

/// What the walk does next.
#[derive(Clone, Copy)]
enum WalkStep {
    /// The top of the stack is finished.
    Over,
    /// A proposer is put on the stack.
    On(u32),
    /// The stack from a spot on is a rotation.
    Back(usize),
}

/// A walk's stack of proposers, and who is finished.
#[derive(Drop)]
struct WalkStack {
    /// The proposers on the stack, of whom each is followed by the one that has its successor.
    stack: Vec<u32>,
    /// Where each proposer stands on the stack.
    spots: Vec<Option<usize>>,
    /// Which proposers are finished.
    finished: Vec<bool>,
}

/// Some complete chain of rotations from the proposers' best stable matching to the reviewers' best.
///
/// The pairing has to be the proposers' best of the market. A stack of proposers leads along successors. Where the top's
/// successor leads back to the stack, the part of it from there on is a rotation, which is taken off and eliminated. Where
/// the top has no successor, or the proposer that has it is finished, no stable matching is worse for the top, and it is
/// finished too (Gusfield and Irving 1989, chapter 3, in a form of this project's own).
///
/// A rotation begins with that proposer of it that was put on the stack first, and each one is noted as it is eliminated. Each
/// entry of the market is passed at most once, so the time is in proportion to the agents and entries. The memory is in
/// proportion to the proposers, the pairs of the rotations, what each rotation needs, and those proposers' lists on which a
/// reviewer is moved past the list's owner.
///
/// # Errors
///
/// `AllocError` where memory ran out, and only then.
pub(crate) fn walk(
    alloc: Global,
    market: &Market,
    best: &Pairing,
    notes: &mut Notes,
) -> Result<Vec<Rotation>, AllocError>
    requires made { IsPairingOf market.now best.now }
    requires best { IsProposersBest market.now best.now.places }
    requires none { AreNoted market.now best.now.places [] notes.old }
    ensures chain { IfOk result (λ rotations. IsCompleteChain market.now best.now.places
        (rotations_of rotations.items)) }
    ensures noted { IfOk result (λ rotations. AreNoted market.now best.now.places
        (rotations_of rotations.items) notes.new) }
{
    let mut m = best.copy(alloc)?;
    let mut trail = WalkStack::new(alloc, market.proposers() as usize)?;
    let mut from = vec![in alloc; 0; market.proposers() as usize]?;
    let mut rotations = Vec::new(alloc);
    let from = from.as_mut_slice();
    for p in 0..market.proposers() {
        'steps: while !trail.is_finished(p) {
            match walk_step(market, &m, &trail, from, p) {
                WalkStep::Over => trail.take_top_off(),
                WalkStep::On(q) => trail.put_on(q)?,
                WalkStep::Back(spot) => {
                    let rotation = trail.take_off(alloc, market, &m, spot)?;
                    notes.eliminate(alloc, market, &mut m, &rotation, from)?;
                    rotations.push(rotation)?;
                }
            }
        }
    }
    Ok(rotations)
}

/// What the walk does next, while `p` isn't finished. Where the stack is empty, `p` is put on it. `from` has how far the
/// successors were looked for, and where those of all on the stack but its top stand.
fn walk_step(market: &Market, m: &Pairing, trail: &WalkStack, from: &mut [u32], p: u32) -> WalkStep
    requires in_range { p < length market.now.proposers }
    requires market { IsMarket market.now }
    requires made { IsPairingOf market.now m.now }
    requires stable { IsStable market.now m.now.places }
    requires search { IsSearchAt market.now m.now.places from.old }
    requires found { AreFound market.now m.now.places trail.now.stack.items 1 from.old }
    requires stack { IsStack market.now m.now.places trail.now.stack.items trail.now.spots.items }
    requires finished_each { length trail.now.finished.items ≡ length market.now.proposers }
    requires at_worst { (q : ℕ) → is_finished trail.now.finished.items q ≡ true
        → IsAtWorst market.now m.now.places q }
    requires unfinished { is_finished trail.now.finished.items p ≡ false }
    ensures search { IsSearchAt market.now m.now.places from.new }
    ensures found { IsFoundStep market.now m.now.places trail.now.stack.items from.new result }
    ensures step { IsWalkStep market.now m.now.places trail.now.stack.items trail.now.spots.items
        trail.now.finished.items result }
{
    if trail.stack.is_empty() {
        return WalkStep::On(p);
    }
    let top = trail.top();
    let Some(q) = next_proposer(market, m, top, from) else {
        return WalkStep::Over;
    };
    if trail.is_finished(q) {
        return WalkStep::Over;
    }
    match trail.spot(q) {
        None => WalkStep::On(q),
        Some(spot) => WalkStep::Back(spot),
    }
}

impl WalkStack {
    /// An empty stack, for so many proposers of whom none is finished.
    fn new(alloc: Global, proposers: usize) -> Result<WalkStack, AllocError>
        ensures stack { IfOk result (λ trail. trail.stack.items ≡ []) }
        ensures spots { IfOk result (λ trail. trail.spots.items ≡ replicate proposers None) }
        ensures finished { IfOk result (λ trail. trail.finished.items ≡ replicate proposers false) }
    {
        Ok(WalkStack {
            stack: Vec::with_capacity(alloc, proposers)?,
            spots: vec![in alloc; None; proposers]?,
            finished: vec![in alloc; false; proposers]?,
        })
    }

    /// The proposer on top of the stack.
    fn top(&self) -> u32
        requires { 0 < length self.now.stack.items }
        ensures { result ≡ slice_index self.now.stack.items (length self.now.stack.items - 1) }
    {
        self.stack[self.stack.len() - 1]
    }

    /// Where a proposer stands on the stack.
    fn spot(&self, p: u32) -> Option<usize>
        requires { p < length self.now.spots.items }
        ensures { result ≡ spot_of self.now.spots.items p }
    {
        self.spots[p as usize]
    }

    /// Whether a proposer is finished.
    fn is_finished(&self, p: u32) -> bool
        requires { p < length self.now.finished.items }
        ensures { result ≡ is_finished self.now.finished.items p }
    {
        self.finished[p as usize]
    }

    /// Takes the top off the stack and says that it is finished.
    fn take_top_off(&mut self)
        requires not_empty { 0 < length self.old.stack.items }
        requires in_range { (k : ℕ) → k < length self.old.stack.items
            → slice_index self.old.stack.items k < length self.old.spots.items }
        requires finished_each { length self.old.finished.items ≡ length self.old.spots.items }
        ensures { IsTopTakenOff self.old.stack.items self.new.stack.items self.old.spots.items
            self.new.spots.items
            self.old.finished.items self.new.finished.items }
    {
        let top = self.stack.len() - 1;
        let p = self.stack[top] as usize;
        self.spots[p] = None;
        self.finished[p] = true;
        self.stack.truncate(top);
    }

    /// Puts a proposer on the stack.
    fn put_on(&mut self, p: u32) -> Result<(), AllocError>
        requires in_range { p < length self.old.spots.items }
        ensures stack { OnOk result (self.new.stack.items ≡ self.old.stack.items ++ p ∷ []) }
        ensures spots { OnOk result (self.new.spots.items
            ≡ slice_set self.old.spots.items p (Some (length self.old.stack.items))) }
        ensures finished { self.new.finished ≡ self.old.finished }
    {
        self.spots[p as usize] = Some(self.stack.len());
        self.stack.push(p)?;
        Ok(())
    }

    /// Takes the stack from a spot on off, and gives it as a rotation, where the successors lead back to that spot.
    fn take_off(
        &mut self,
        alloc: Global,
        market: &Market,
        m: &Pairing,
        from: usize,
    ) -> Result<Rotation, AllocError>
        requires market { IsMarket market.now }
        requires made { IsPairingOf market.now m.now }
        requires stack { IsStack market.now m.now.places self.old.stack.items self.old.spots.items }
        requires back { LeadsBack market.now m.now.places self.old.stack.items from }
        ensures pairs { IfOk result (λ rotation. AreStackPairs market.now m.now.places
            self.old.stack.items from rotation.pairs.items) }
        ensures off { OnOk result (AreTakenOff self.old.stack.items from self.old.spots.items
            self.new.spots.items) }
        ensures rest { OnOk result (self.new.stack.items ≡ take from self.old.stack.items) }
        ensures finished { self.new.finished ≡ self.old.finished }
    {
        let mut pairs = Vec::with_capacity(alloc, self.stack.len() - from)?;
        put_pairs(market, m, from, &self.stack, &mut self.spots, &mut pairs);
        self.stack.truncate(from);
        Ok(Rotation { pairs })
    }
}

/// Puts the pairs of the proposers on the stack from a spot on where there is room for them, and notes that these are on the
/// stack no more.
fn put_pairs(
    market: &Market,
    m: &Pairing,
    from: usize,
    stack: &[u32],
    spots: &mut [Option<usize>],
    pairs: &mut Vec<(u32, u32)>,
)
    requires market { IsMarket market.now }
    requires made { IsPairingOf market.now m.now }
    requires in_range { (k : ℕ) → k < length stack.now → slice_index stack.now k
        < length market.now.proposers }
    requires matched { (k : ℕ) → from ≤ k → k < length stack.now
        → held m.now.places.proposers (slice_index stack.now k) ≢ None }
    requires from_in { from ≤ length stack.now }
    requires spots_each { length spots.old ≡ length market.now.proposers }
    requires none { pairs.old.items ≡ [] }
    requires room { vec_len pairs.old + (length stack.now - from) ≤ vec_capacity pairs.old }
    ensures pairs { AreStackPairs market.now m.now.places stack.now from pairs.new.items }
    ensures off { AreTakenOff stack.now from spots.old spots.new }
{
    for k in from..stack.len() {
        let p = stack[k];
        pairs.push_reserved(pair_of(market, m, p));
        spots[p as usize] = None;
    }
}

/// A matched proposer and its partner.
fn pair_of(market: &Market, m: &Pairing, p: u32) -> (u32, u32)
    requires in_range { p < length market.now.proposers }
    requires market { IsMarket market.now }
    requires made { IsPairingOf market.now m.now }
    requires matched { held m.now.places.proposers p ≢ None }
    ensures who { result.0 ≡ p }
    ensures paired { held m.now.places.proposers p
        ≡ Some (place_of market.now.proposers p result.1) }
{
    let place = m.place(p).unwrap();
    (p, market.reviewer_at(p, place))
}
