//! Whether a vector's matching is one, and stable, where that of the vector before is: only what changed is tried.

ghost use Rattle.std.specs.Prelude.{◌≡◌, ℕ, ◌<◌, ◌≤◌, ◌⊎◌, ◌↔◌, true, false, Some, None, IsTrue, length, slice_index};
ghost use Rattle.sm_agents.specs.Written.{row, entry, capacity_of, IsAcceptable};
ghost use Rattle.sm_instance.specs.Matching.{held, standing, load, IsAssignment, IsMatching};
ghost use Rattle.sm_instance.specs.Stable.{Blocks, HasWorse, IsStable, IsGainLimit};
ghost use Rattle.sm_agents.specs.Sound.{IsInstance};
ghost use Rattle.sm_check_clauses.specs.Verdicts.{Finds};
ghost use Rattle.sm_check_answers.specs.Tried.{AreLimits, is_touched, IsTouchedAt, AreTouched, IsUnblockedFrom, BlocksNoneFrom, StableHolds, HasTrialRoom, IsTried};

use sm_check_clauses::Reason;
use sm_instance::{Assignment, Instance};

/// The last stable matching and the gain limit of each reviewer in it; and room for the next matching, and for which reviewers
/// have other proposers in that.
#[derive(Drop)]
pub(crate) struct Tried {
    pub(crate) matching: Assignment,
    pub(crate) next: Assignment,
    pub(crate) limits: Vec<u32>,
    pub(crate) touched: Vec<bool>,
}

/// The first clause that the next assignment fails, that it be a matching or that it be stable, where so many were stable
/// before it. Where it fails neither, it is the one that is kept then.
///
/// Takes time in proportion to the agents, to the lists of the reviewers whose proposers changed, and to the places between
/// the old and the new partner of each proposer; for the first one to the agents and entries.
pub(crate) fn stability_fault(instance: &Instance, tried: &mut Tried, count: u32) -> Option<Reason>
    requires room { HasTrialRoom instance.now tried.old }
    requires assignment { IsAssignment instance.now tried.old.next.places.items }
    requires kept { 0 < count → IsTried instance.now tried.old.matching.places.items tried.old }
    ensures found { Finds (StableHolds instance.now tried.old.next.places.items) result }
    ensures room { HasTrialRoom instance.now tried.new }
    ensures next { tried.new.next.places.items ≡ tried.old.next.places.items }
    ensures kept { result ≡ None → IsTried instance.now tried.old.next.places.items tried.new }
{
    let why = if count == 0 {
        first_fault(instance, &tried.next, &mut tried.limits)
    } else {
        next_fault(
            instance,
            &tried.matching,
            &tried.next,
            &mut tried.limits,
            &mut tried.touched,
        )
    };
    tried.matching.places.copy_from_slice(&tried.next.places);
    why
}

/// The same for an assignment with none before it. Writes the limits of a stable one.
fn first_fault(instance: &Instance, a: &Assignment, limits: &mut [u32]) -> Option<Reason>
    requires assignment { IsAssignment instance.now a.now.places.items }
    requires one_each { length limits.old ≡ length instance.now.reviewers }
    ensures found { Finds (StableHolds instance.now a.now.places.items) result }
    ensures one_each { length limits.new ≡ length instance.now.reviewers }
    ensures limits { result ≡ None → AreLimits instance.now a.now.places.items limits.new }
{
    if instance.breach(a).is_some() {
        return Some(Reason::NotAMatching);
    }
    if instance.first_blocking(a).is_some() {
        return Some(Reason::Blocked);
    }
    set_all_limits(instance, a, limits);
    None
}

/// Writes the limits of all reviewers.
fn set_all_limits(instance: &Instance, a: &Assignment, limits: &mut [u32])
    requires matching { IsMatching instance.now a.now.places.items }
    requires one_each { length limits.old ≡ length instance.now.reviewers }
    ensures { AreLimits instance.now a.now.places.items limits.new }
{
    for r in 0..instance.reviewer_count() {
        limits[r as usize] = instance.gain_limit(a, r);
    }
}

/// The same for an assignment behind a stable matching with these limits. Writes the limits of a stable one.
fn next_fault(
    instance: &Instance,
    old: &Assignment,
    new: &Assignment,
    limits: &mut [u32],
    touched: &mut [bool],
) -> Option<Reason>
    requires stable { IsStable instance.now old.now.places.items }
    requires limits { AreLimits instance.now old.now.places.items limits.old }
    requires assignment { IsAssignment instance.now new.now.places.items }
    requires one_each { length touched.old ≡ length instance.now.reviewers }
    ensures found { Finds (StableHolds instance.now new.now.places.items) result }
    ensures limits_each { length limits.new ≡ length instance.now.reviewers }
    ensures touched_each { length touched.new ≡ length instance.now.reviewers }
    ensures limits { result ≡ None → AreLimits instance.now new.now.places.items limits.new }
{
    touch_changed(instance, old, new, touched);
    if !are_acceptable(instance, old, new) {
        return Some(Reason::NotAMatching);
    }
    if !are_within(instance, new, touched) {
        return Some(Reason::NotAMatching);
    }
    if !set_limits(instance, new, limits, touched) {
        return Some(Reason::Blocked);
    }
    if !are_unblocked(instance, old, new, limits) {
        return Some(Reason::Blocked);
    }
    None
}

/// Whether a proposer holds the same place in both.
fn holds_same_place(old: &Assignment, new: &Assignment, p: u32) -> bool
    requires old { p < length old.now.places.items }
    requires new { p < length new.now.places.items }
    ensures { IsTrue result ↔ (held old.now.places.items p ≡ held new.now.places.items p) }
{
    match (old.places[p as usize], new.places[p as usize]) {
        (Some(before), Some(after)) => before == after,
        (None, None) => true,
        _ => false,
    }
}

/// Touches the reviewer of a proposer.
fn touch(instance: &Instance, a: &Assignment, p: u32, touched: &mut [bool])
    requires assignment { IsAssignment instance.now a.now.places.items }
    requires in_range { p < length instance.now.proposers }
    requires one_each { length touched.old ≡ length instance.now.reviewers }
    ensures one_each { length touched.new ≡ length instance.now.reviewers }
    ensures told { IsTouchedAt instance.now touched.new p (held a.now.places.items p) }
    ensures kept { (r : ℕ) → is_touched touched.old r ≡ true → is_touched touched.new r ≡ true }
{
    if let Some(place) = a.places[p as usize] {
        touched[instance.reviewer_at(p, place) as usize] = true;
    }
}

/// Touches the reviewers of each proposer that holds another place, the old one and the new one.
fn touch_changed(instance: &Instance, old: &Assignment, new: &Assignment, touched: &mut [bool])
    requires old { IsAssignment instance.now old.now.places.items }
    requires new { IsAssignment instance.now new.now.places.items }
    requires one_each { length touched.old ≡ length instance.now.reviewers }
    ensures { AreTouched instance.now old.now.places.items new.now.places.items
        (length instance.now.proposers) touched.new }
{
    for p in 0..instance.proposer_count() {
        if !holds_same_place(old, new, p) {
            touch(instance, old, p, touched);
            touch(instance, new, p, touched);
        }
    }
}

/// Whether the place that a proposer holds is of a reviewer that lists it, if it holds one.
fn is_acceptable(instance: &Instance, a: &Assignment, p: u32) -> bool
    requires instance { IsInstance instance.now }
    requires assignment { IsAssignment instance.now a.now.places.items }
    requires in_range { p < length instance.now.proposers }
    ensures { IsTrue result ↔ ((i : ℕ) → held a.now.places.items p ≡ Some i
        → IsAcceptable instance.now p (entry instance.now.proposers p i)) }
{
    match a.places[p as usize] {
        Some(place) => instance.cross(p, place).is_some(),
        None => true,
    }
}

/// The same for all proposers, where it is so in an assignment before.
fn are_acceptable(instance: &Instance, old: &Assignment, new: &Assignment) -> bool
    requires matching { IsMatching instance.now old.now.places.items }
    requires assignment { IsAssignment instance.now new.now.places.items }
    ensures { IsTrue result ↔ ((p i : ℕ) → held new.now.places.items p ≡ Some i
        → IsAcceptable instance.now p (entry instance.now.proposers p i)) }
{
    for p in 0..instance.proposer_count() {
        if !holds_same_place(old, new, p) && !is_acceptable(instance, new, p) {
            return false;
        }
    }
    true
}

/// Whether no touched reviewer has more proposers than its capacity.
fn are_within(instance: &Instance, a: &Assignment, touched: &[bool]) -> bool
    requires assignment { IsAssignment instance.now a.now.places.items }
    requires one_each { length touched.now ≡ length instance.now.reviewers }
    ensures { IsTrue result ↔ ((r : ℕ) → r < length instance.now.reviewers
        → is_touched touched.now r ≡ true
        → load instance.now a.now.places.items r ≤ capacity_of instance.now.reviewers r) }
{
    for r in 0..instance.reviewer_count() {
        if touched[r as usize] && instance.load(a, r) > instance.capacity(r) {
            return false;
        }
    }
    true
}

/// Whether a reviewer and the proposer at a place of its list block, where it would gain by that one.
fn blocks_back(instance: &Instance, a: &Assignment, r: u32, place: u32) -> bool
    requires instance { IsInstance instance.now }
    requires matching { IsMatching instance.now a.now.places.items }
    requires in_range { r < length instance.now.reviewers }
    requires on_list { place < length (row instance.now.reviewers r) }
    requires gains { (load instance.now a.now.places.items r < capacity_of instance.now.reviewers r)
        ⊎ HasWorse instance.now a.now.places.items r (entry instance.now.reviewers r place) }
    ensures { IsTrue result ↔ Blocks instance.now a.now.places.items (entry instance.now.reviewers r
        place) r }
{
    let p = instance.reviewer_list(r)[place as usize];
    match instance.cross_back(r, place) {
        Some(back) => back < instance.standing(a, p),
        None => false,
    }
}

/// Whether a reviewer with this gain limit blocks with nobody at this place of its list or behind it.
fn is_unblocked_from(instance: &Instance, a: &Assignment, r: u32, from: u32, limit: u32) -> bool
    requires instance { IsInstance instance.now }
    requires matching { IsMatching instance.now a.now.places.items }
    requires in_range { r < length instance.now.reviewers }
    requires limit { IsGainLimit instance.now a.now.places.items r limit }
    ensures { IsTrue result ↔ IsUnblockedFrom instance.now a.now.places.items r from }
{
    let to = limit.min(instance.reviewer_len(r));
    for place in from..to {
        if blocks_back(instance, a, r, place) {
            return false;
        }
    }
    true
}

/// Writes the limits of the touched reviewers, where the others have theirs, as long as none blocks with those whom it lists
/// between its old and its new one. Whether none does.
fn set_limits(instance: &Instance, a: &Assignment, limits: &mut [u32], touched: &mut [bool]) -> bool
    requires matching { IsMatching instance.now a.now.places.items }
    requires limits_each { length limits.old ≡ length instance.now.reviewers }
    requires touched_each { length touched.old ≡ length instance.now.reviewers }
    requires others { (r : ℕ) → r < length instance.now.reviewers → is_touched touched.old r ≡ false
        → IsGainLimit instance.now a.now.places.items r (slice_index limits.old r) }
    ensures limits_each { length limits.new ≡ length instance.now.reviewers }
    ensures touched_each { length touched.new ≡ length instance.now.reviewers }
    ensures limits { IsTrue result → AreLimits instance.now a.now.places.items limits.new }
    ensures unblocked { IsTrue result ↔ ((r : ℕ) → r < length instance.now.reviewers
        → IsUnblockedFrom instance.now a.now.places.items r (slice_index limits.old r)) }
{
    for r in 0..instance.reviewer_count() {
        if touched[r as usize] {
            let limit = instance.gain_limit(a, r);
            if !is_unblocked_from(instance, a, r, limits[r as usize], limit) {
                return false;
            }
            limits[r as usize] = limit;
            touched[r as usize] = false;
        }
    }
    true
}

/// Whether a proposer and the reviewer at a place of its list block, where it would rather have that one.
fn blocks_at(instance: &Instance, a: &Assignment, limits: &[u32], p: u32, place: u32) -> bool
    requires instance { IsInstance instance.now }
    requires limits { AreLimits instance.now a.now.places.items limits.now }
    requires in_range { p < length instance.now.proposers }
    requires on_list { place < length (row instance.now.proposers p) }
    requires gains { place < standing instance.now a.now.places.items p }
    ensures { IsTrue result ↔ Blocks instance.now a.now.places.items p (entry instance.now.proposers
        p place) }
{
    match instance.cross(p, place) {
        Some(back) => back < limits[instance.reviewer_at(p, place) as usize],
        None => false,
    }
}

/// Whether a proposer blocks with nobody at this place of its list or behind it.
fn blocks_none_from(instance: &Instance, a: &Assignment, limits: &[u32], p: u32, from: u32) -> bool
    requires assignment { IsAssignment instance.now a.now.places.items }
    requires limits { AreLimits instance.now a.now.places.items limits.now }
    requires in_range { p < length instance.now.proposers }
    ensures { IsTrue result ↔ BlocksNoneFrom instance.now a.now.places.items p from }
{
    for place in from..instance.standing(a, p) {
        if blocks_at(instance, a, limits, p, place) {
            return false;
        }
    }
    true
}

/// Whether no proposer blocks with one whom it lists where it stood or behind that.
fn are_unblocked(instance: &Instance, old: &Assignment, new: &Assignment, limits: &[u32]) -> bool
    requires old { IsAssignment instance.now old.now.places.items }
    requires new { IsAssignment instance.now new.now.places.items }
    requires limits { AreLimits instance.now new.now.places.items limits.now }
    ensures { IsTrue result ↔ ((p : ℕ) → p < length instance.now.proposers
        → BlocksNoneFrom instance.now new.now.places.items p (standing instance.now
        old.now.places.items p)) }
{
    for p in 0..instance.proposer_count() {
        if !blocks_none_from(instance, new, limits, p, instance.standing(old, p)) {
            return false;
        }
    }
    true
}
