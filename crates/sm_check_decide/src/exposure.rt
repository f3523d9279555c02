//! Which rotations are exposed at a pairing, by the plain definition.

ghost use Rattle.std.specs.Prelude.{◌≡◌, ℕ, ◌<◌, ◌≤◌, ◌↔◌, ◌⊎◌, length, true, false, IsTrue, IfOk, slice_index, Contains};
ghost use Rattle.sm_market.specs.Lists.{IsMarket, row};
ghost use Rattle.sm_market.specs.Matching.{Places};
ghost use Rattle.sm_market.specs.Pairing.{IsPairingOf};
ghost use Rattle.sm_market.specs.Stable.{IsStable};
ghost use Rattle.sm_theory.specs.Rotations.{IsExposed, IsNoneBelow, IsNothingExposed, IsLowestExposed, eliminated};
ghost use Rattle.sm_successors.specs.Search.{IsSearchAt};
ghost use Rattle.sm_check_decide.specs.Exposure.{IsSafe, IsPassed, IsSearchOf};
ghost use Rattle.sm_check_decide.specs.ExposureKept.{AreSafe, AreClosed, AreOn, AreChanged, IsSpanAdded, IsStartAdded, AreStartsAdded};

use crate::needs::{PassedSpan, passed_span};
use crate::trail::Trail;
use sm_market::{Market, Pairing};
use sm_successors::next_proposer;
use sm_theory::{Rotation, is_exposed};
use std::alloc::{AllocError, Global};
use std::marker::Model;

/// What it takes to look for exposed rotations at stable pairings of a market, each of which comes from the one before by
/// eliminating a rotation.
///
/// It is made once for all of them. Of each proposer it keeps how far the successor was looked for on its list: reviewers
/// never get worse partners, so that the search goes on from there and passes each entry once.
///
/// It also keeps who was in no exposed rotation when one was last looked for, and who changed since: whom an elimination moved,
/// and whom it moved a reviewer past. A rotation that is exposed only now has somebody who changed, so all others who were in
/// none are passed over: those below a number, and those with a mark.
#[derive(Debug, Drop)]
pub struct Search {
    trail: Trail,
    from: Vec<u32>,
    /// From whom the search begins: who changed.
    starts: Trail,
    passed: Vec<bool>,
    quiet: u32,
}

impl Model for Search {
    ghost use Rattle.std.specs.Prelude.{◌≡◌, length};
    ghost use Rattle.sm_check_decide.specs.Exposure.{Searched};

    ghost Value = { Searched };

    ghost view = { λ s. record {
      from = s.from.items;
      starts = s.starts.items;
      passed = s.passed.items;
      quiet = s.quiet;
    } };

    ghost invariant = { λ s. (s.trail.bound ≡ length s.from.items)
        × (s.starts.bound ≡ length s.from.items)
        × (length s.passed.items ≡ length s.from.items) };
}

impl Search {
    /// A search at the pairings of a market, where nothing was looked for yet.
    ///
    /// Takes time and memory in proportion to the proposers.
    ///
    /// # Errors
    ///
    /// `AllocError` where memory ran out, and only then.
    pub fn of(alloc: Global, market: &Market) -> Result<Search, AllocError>
        ensures { IfOk result (λ search. (m : Places) → IsSearchOf market.now m search) }
    {
        Ok(Search {
            trail: Trail::new(alloc, market.proposers())?,
            from: vec![in alloc; 0; market.proposers() as usize]?,
            starts: Trail::new(alloc, market.proposers())?,
            passed: vec![in alloc; false; market.proposers() as usize]?,
            quiet: 0,
        })
    }

    /// Whether no exposed rotation has a proposer whose number is below the bound.
    ///
    /// The pairing has to be made for a market of these lists; a stable one is meant. From each proposer that changed, and from
    /// those between the last bound and this one that aren't passed over, the successors are followed until they end, or come
    /// to a proposer that was come by before. Where that one was come by on the same way, the way goes round a rotation, and
    /// otherwise round none that has proposers below the bound. So each proposer is come by at most once. The time is in
    /// proportion to those that are come by, to the entries that are passed for the first time, and to the numbers between the
    /// two bounds, with one test for each that is passed over (Gusfield and Irving 1989, section 2.5).
    pub fn none_below(&mut self, market: &Market, m: &Pairing, bound: u32) -> bool
        requires bound { bound ≤ length market.now.proposers }
        requires made { IsPairingOf market.now m.now }
        requires search { IsSearchOf market.now m.now.places self.old }
        ensures search { IsSearchOf market.now m.now.places self.new }
        ensures decided { IsTrue result ↔ IsNoneBelow market.now m.now.places bound }
    {
        prove!(bound <= market.proposers());
        let _places = self.from.len();
        add_starts(&self.passed, self.quiet, bound, &mut self.starts);
        self.trail.clear();
        if !are_safe(
            market,
            m,
            bound,
            &self.starts,
            &mut self.trail,
            &mut self.from,
        ) {
            return false;
        }
        let passed = self.passed.as_mut_slice();
        take_back(&self.trail, passed);
        pass_over(self.quiet, bound, passed);
        self.starts.clear();
        self.quiet = bound;
        true
    }

    /// Whether no rotation is exposed. Takes the time of [`Search::none_below`].
    pub fn is_nothing_exposed(&mut self, market: &Market, m: &Pairing) -> bool
        requires made { IsPairingOf market.now m.now }
        requires search { IsSearchOf market.now m.now.places self.old }
        ensures search { IsSearchOf market.now m.now.places self.new }
        ensures decided { IsTrue result ↔ IsNothingExposed market.now m.now.places }
        ensures market { IsMarket market.now }
    {
        self.none_below(market, m, market.proposers())
    }

    /// Whether a rotation is exposed, and begins with the lowest-numbered proposer of all exposed rotations. Any numbers may
    /// stand in the rotation. Takes the time of [`is_exposed`] and [`Search::none_below`].
    pub fn is_lowest_exposed(&mut self, market: &Market, m: &Pairing, rotation: &Rotation) -> bool
        requires made { IsPairingOf market.now m.now }
        requires search { IsSearchOf market.now m.now.places self.old }
        ensures search { IsSearchOf market.now m.now.places self.new }
        ensures decided { IsTrue result
            ↔ IsLowestExposed market.now m.now.places rotation.now.pairs.items }
    {
        if !is_exposed(market, m, rotation) {
            return false;
        }
        self.none_below(market, m, rotation.pairs[0].0)
    }

    /// Goes on to the pairing that is left once a rotation is eliminated. It is called before that.
    ///
    /// The pairing has to be stable and made for a market of these lists, and the rotation exposed at it. Takes no memory, and
    /// time in proportion to the rotation and to the places by which it moves its proposers down and its reviewers up.
    pub fn go_on(&mut self, market: &Market, m: &Pairing, rotation: &Rotation)
        requires made { IsPairingOf market.now m.now }
        requires stable { IsStable market.now m.now.places }
        requires exposed { IsExposed market.now m.now.places rotation.now.pairs.items }
        requires search { IsSearchOf market.now m.now.places self.old }
        ensures { IsSearchOf market.now (eliminated market.now m.now.places
            rotation.now.pairs.items) self.new }
    {
        let _places = self.from.len();
        add_changed(market, m, rotation.pairs.as_slice(), &mut self.starts);
    }
}

/// Adds whom a rotation moves, and whom it moves a reviewer past.
fn add_changed(market: &Market, m: &Pairing, pairs: &[(u32, u32)], changed: &mut Trail)
    requires made { IsPairingOf market.now m.now }
    requires exposed { IsExposed market.now m.now.places pairs.now }
    requires proposers { changed.old.bound ≡ length market.now.proposers }
    ensures proposers { changed.new.bound ≡ changed.old.bound }
    ensures kept { (q : ℕ) → Contains changed.old.items q → Contains changed.new.items q }
    ensures added { AreChanged market.now pairs.now (length pairs.now) changed.new.items }
    ensures market { IsMarket market.now }
{
    prove!(market.proposers() < 1 << 24);
    for i in 0..pairs.len() {
        let PassedSpan {
            reviewer,
            better,
            worse,
        } = passed_span(market, m, pairs, i);
        changed.put(pairs[i].0);
        add_span(market, reviewer, better, worse, changed);
    }
}

/// Adds whom a reviewer's list names behind one place and before another.
fn add_span(market: &Market, r: u32, better: u32, worse: u32, changed: &mut Trail)
    requires in_range { r < length market.now.reviewers }
    requires gains { better < worse }
    requires on_list { worse ≤ length (row market.now.reviewers r) }
    requires proposers { changed.old.bound ≡ length market.now.proposers }
    ensures proposers { changed.new.bound ≡ changed.old.bound }
    ensures kept { (q : ℕ) → Contains changed.old.items q → Contains changed.new.items q }
    ensures added { IsSpanAdded market.now r better worse changed.new.items }
{
    for place in better + 1..worse {
        changed.put(market.proposer_at(r, place));
    }
}

/// Adds the proposers from one number on and below another that aren't passed over.
fn add_starts(passed: &[bool], first: u32, bound: u32, starts: &mut Trail)
    requires bound { bound ≤ length passed.now }
    requires proposers { starts.old.bound ≡ length passed.now }
    ensures proposers { starts.new.bound ≡ starts.old.bound }
    ensures kept { (q : ℕ) → Contains starts.old.items q → Contains starts.new.items q }
    ensures added { AreStartsAdded passed.now first bound starts.new.items }
{
    for p in first..bound {
        add_start(passed, p, starts);
    }
}

/// Adds a proposer that isn't passed over.
fn add_start(passed: &[bool], p: u32, starts: &mut Trail)
    requires in_range { p < length passed.now }
    requires proposers { starts.old.bound ≡ length passed.now }
    ensures proposers { starts.new.bound ≡ starts.old.bound }
    ensures kept { (q : ℕ) → Contains starts.old.items q → Contains starts.new.items q }
    ensures added { IsStartAdded passed.now starts.new.items p }
{
    if !passed[p as usize] {
        starts.put(p);
    }
}

/// Nobody on a trail is passed over any more.
fn take_back(trail: &Trail, passed: &mut [bool])
    requires { trail.now.bound ≡ length passed.old }
    ensures one_each { length passed.new ≡ length passed.old }
    ensures left { (p : ℕ) → IsPassed passed.new p → IsPassed passed.old p
        × (¬ Contains trail.now.items p) }
{
    for k in 0..trail.len() {
        passed[trail.at(k) as usize] = false;
    }
}

/// The proposers from one number on and below another are passed over.
fn pass_over(first: u32, bound: u32, passed: &mut [bool])
    requires { bound ≤ length passed.old }
    ensures one_each { length passed.new ≡ length passed.old }
    ensures more { (p : ℕ) → IsPassed passed.new p → IsPassed passed.old p ⊎ (p < bound) }
{
    for p in first..bound {
        passed[p as usize] = true;
    }
}

/// Whether the successors from each of some proposers on go round no rotation that has a proposer below the bound.
fn are_safe(
    market: &Market,
    m: &Pairing,
    bound: u32,
    starts: &Trail,
    trail: &mut Trail,
    from: &mut [u32],
) -> bool
    requires market { IsMarket market.now }
    requires made { IsPairingOf market.now m.now }
    requires in_range { starts.now.bound ≡ length market.now.proposers }
    requires proposers { trail.old.bound ≡ length market.now.proposers }
    requires before { AreSafe market.now m.now.places bound trail.old.items }
    requires closed { AreClosed market.now m.now.places trail.old.items }
    requires search { IsSearchAt market.now m.now.places from.old }
    ensures proposers { trail.new.bound ≡ trail.old.bound }
    ensures search { IsSearchAt market.now m.now.places from.new }
    ensures closed { result ≡ true → AreClosed market.now m.now.places trail.new.items }
    ensures on { result ≡ true → AreOn starts.now.items trail.new.items }
    ensures safe { result ≡ true → AreSafe market.now m.now.places bound starts.now.items }
    ensures found { result ≡ false → ¬ IsNoneBelow market.now m.now.places bound }
{
    for k in 0..starts.len() {
        if !is_safe(market, m, starts.at(k), bound, trail, from) {
            return false;
        }
    }
    true
}

/// Follows the successors from `p` on, until they end or come to the trail, and tells whether they go round no rotation that
/// has a proposer below the bound.
fn is_safe(
    market: &Market,
    m: &Pairing,
    p: u32,
    bound: u32,
    trail: &mut Trail,
    from: &mut [u32],
) -> bool
    requires in_range { p < length market.now.proposers }
    requires market { IsMarket market.now }
    requires made { IsPairingOf market.now m.now }
    requires proposers { trail.old.bound ≡ length market.now.proposers }
    requires before { AreSafe market.now m.now.places bound trail.old.items }
    requires search { IsSearchAt market.now m.now.places from.old }
    ensures proposers { trail.new.bound ≡ trail.old.bound }
    ensures search { IsSearchAt market.now m.now.places from.new }
    ensures all { result ≡ true → AreSafe market.now m.now.places bound trail.new.items }
    ensures kept { (q : ℕ) → Contains trail.old.items q → Contains trail.new.items q }
    ensures on { result ≡ true → Contains trail.new.items p }
    ensures closed { result ≡ true → AreClosed market.now m.now.places trail.old.items
        → AreClosed market.now m.now.places trail.new.items }
    ensures safe { result ≡ true → IsSafe market.now m.now.places bound p }
    ensures found { result ≡ false → ¬ IsNoneBelow market.now m.now.places bound }
{
    let start = trail.len();
    let mut q = p;
    'steps: while !trail.has(q) {
        trail.push(q);
        let Some(next) = next_proposer(market, m, q, from) else {
            return true;
        };
        q = next;
    }
    let spot = trail.spot(q);
    spot < start || none_is_below(trail, spot, bound)
}

/// Whether no proposer on a trail from a spot on is below the bound.
fn none_is_below(trail: &Trail, from: u32, bound: u32) -> bool
    ensures { IsTrue result ↔ ((k : ℕ) → from ≤ k → k < length trail.now.items → bound
        ≤ slice_index trail.now.items k) }
{
    for k in from..trail.len() {
        if trail.at(k) < bound {
            return false;
        }
    }
    true
}
