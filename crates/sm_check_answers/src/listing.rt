//! Answers of `list`.

ghost use Rattle.std.specs.Prelude.{◌≡◌, ◌<◌, ◌≤◌, ◌+◌, ◌-◌, ◌^◌, ◌↔◌, All, Some, None, IsTrue, IfOk, IfSome, length, map, nat_le, if◌then◌else◌};
ghost use Rattle.std.specs.Option.{option_map};
ghost use Rattle.sm_text.specs.Limits.{most_entries};
ghost use Rattle.sm_instance.specs.Matching.{IsAssignment};
ghost use Rattle.sm_instance.specs.Ranks.{rank_vector_of, IsBefore, order_of};
ghost use Rattle.sm_theory.specs.Listings.{IsBehind};
ghost use Rattle.sm_report.specs.Heads.HeadData.{List as ListHead};
ghost use Rattle.sm_report.specs.Lines.{line_of};
ghost use Rattle.sm_check_clauses.specs.Verdicts.{AtLine, Finds, IsVerdict};
ghost use Rattle.sm_check_clauses.specs.Vectors.{MoreHolds, VectorHolds, places_of_ranks};
ghost use Rattle.sm_check_answers.specs.Listing.{last_or};
ghost use Rattle.sm_check_answers.specs.Tried.{HasTrialRoom, IsTried};
ghost use Rattle.sm_check_clauses.specs.Judges.{IsOwnLine};
ghost use Rattle.sm_check_clauses.specs.Judging.{answer, Clauses};

use crate::tried::{Tried, stability_fault};
use sm_check_clauses::{Judge, Reason, Verdict, judge_lines};
use sm_instance::{Assignment, Instance};
use sm_report::Line;
use std::alloc::{AllocError, Global};

/// What is kept of an answer of `list`: how many vectors it has so far, and the last of them with its matching.
#[derive(Drop)]
struct ListJudge<'a> {
    instance: &'a Instance,
    after: Option<&'a [u32]>,
    limit: u32,
    count: u32,
    last: Vec<u32>,
    tried: Tried,
}

/// The verdict on an answer of `list` from this cursor up to this limit, whose lines are of their form and whose first line has
/// this number. That nothing is missing, and that `end` is right, isn't decided.
///
/// Takes memory in proportion to the agents, and time in proportion to the lines, to the entries and, for each vector, to the
/// agents and conditions, to the lists of the reviewers that have other proposers than in the vector before, and to the places
/// between the old and the new partner of each proposer.
///
/// # Errors
///
/// `AllocError` where memory ran out, and only then.
pub fn list_verdict(
    alloc: Global,
    instance: &Instance,
    after: Option<&[u32]>,
    limit: u32,
    lines: &[Line],
    first_line: u32,
) -> Result<Verdict, AllocError>
    requires few { first_line + length lines.now < 2 ^ 32 }
    requires own { All (IsOwnLine (answer instance.now (ListHead (option_map (λ b. b.now) after)
        limit)))
        (map line_of lines.now) }
    requires after_each { IfSome after (λ b. length b.now ≡ length instance.now.proposers) }
    ensures { IfOk result (λ v. IsVerdict
        (AtLine (Clauses (answer instance.now (ListHead (option_map (λ b. b.now) after.entry)
        limit)))
        (map line_of lines.now)) first_line v) }
{
    let proposers = instance.proposer_count() as usize;
    let reviewers = instance.reviewer_count() as usize;
    let judge = ListJudge {
        instance,
        after,
        limit,
        count: 0,
        last: vec![in alloc; 0; proposers]?,
        tried: Tried {
            matching: Assignment {
                places: vec![in alloc; None; proposers]?,
            },
            next: Assignment {
                places: vec![in alloc; None; proposers]?,
            },
            limits: vec![in alloc; 0; reviewers]?,
            touched: vec![in alloc; false; reviewers]?,
        },
    };
    judge_lines(alloc, judge, lines, first_line)
}

impl<'a> Judge for ListJudge<'a> {
    ghost use Rattle.std.specs.Option.{option_map};
    ghost use Rattle.sm_report.specs.Heads.HeadData.{List as ListHead};
    ghost use Rattle.sm_check_clauses.specs.Judging.{answer};
    ghost use Rattle.sm_check_answers.specs.Listing.{AreVectorsKept};

    ghost subject = { λ j. answer j.instance.now (ListHead (option_map (λ b. b.now) j.after)
        j.limit) };

    ghost knows = { λ j above. AreVectorsKept j.instance.now (option_map (λ b. b.now) j.after)
        above j.count j.last.items j.tried };

    fn find_fault(&mut self, _alloc: Global, line: &Line) -> Result<Option<Reason>, AllocError> {
        let before = last_vector(self.after, self.count, &self.last);
        match line {
            Line::Vector(v) => {
                let tried = &mut self.tried;
                if let Some(why) = vector_fault(
                    self.instance,
                    tried,
                    before,
                    self.count,
                    self.limit,
                    v,
                ) {
                    return Ok(Some(why));
                }
                self.last.copy_from_slice(v);
                self.count += 1;
                Ok(None)
            }
            Line::More(v) => Ok(more_fault(before, self.count, self.limit, v)),
            _ => Ok(None),
        }
    }
}

/// The last vector of so many, or else the cursor.
fn last_vector<'a, 'b: 'a>(
    after: Option<&'b [u32]>,
    count: u32,
    last: &'a [u32],
) -> Option<&'a [u32]>
    requires after_each { IfSome after (λ b. length b.now ≡ length last.now) }
    ensures last { option_map (λ b. b.now) result ≡ last_or count last.now (option_map
        (λ b. b.now) after.entry) }
    ensures each { IfSome result (λ b. length b.now ≡ length last.now) }
{
    if count > 0 {
        return Some(last);
    }
    match after {
        Some(after) => Some(after),
        None => None,
    }
}

/// The first clause that fails at a vector's line. Where none does, its matching is kept for the next one.
fn vector_fault(
    instance: &Instance,
    tried: &mut Tried,
    before: Option<&[u32]>,
    count: u32,
    limit: u32,
    v: &[u32],
) -> Option<Reason>
    requires one_each { length v.now ≡ length instance.now.proposers }
    requires before_each { IfSome before (λ b. length b.now ≡ length instance.now.proposers) }
    requires room { HasTrialRoom instance.now tried.old }
    requires kept { 0 < count → IsTried instance.now tried.old.matching.places.items tried.old }
    ensures found { Finds (VectorHolds instance.now (option_map (λ b. b.now) before.entry) count
        limit v.now) result }
    ensures room { HasTrialRoom instance.now tried.new }
    ensures kept { result ≡ None → IsTried instance.now (places_of_ranks instance.now v.now)
        tried.new }
{
    if !set_places(instance, &mut tried.next, v) {
        return Some(Reason::NotAMatching);
    }
    if let Some(why) = stability_fault(instance, tried, count) {
        return Some(why);
    }
    if !is_behind(instance, before, v) {
        return Some(Reason::NotRising);
    }
    if !instance.allowed(&tried.next) {
        return Some(Reason::NotAllowed);
    }
    if count >= limit {
        return Some(Reason::OverLimit);
    }
    None
}

/// The first clause that fails at a line of `more`.
fn more_fault(before: Option<&[u32]>, count: u32, limit: u32, v: &[u32]) -> Option<Reason>
    ensures { Finds (MoreHolds (option_map (λ b. b.now) before.entry) count limit v.now) result }
{
    if count == limit && is_one(before, v) {
        return None;
    }
    Some(Reason::WrongTail)
}

/// Whether there is a vector, and it is this one.
fn is_one(before: Option<&[u32]>, v: &[u32]) -> bool
    ensures { IsTrue result ↔ (option_map (λ b. b.now) before.entry ≡ Some v.now) }
{
    match before {
        Some(before) => before == v,
        None => false,
    }
}

/// The place of a rank on a list of so many, none for a rank past it.
fn place_of(rank: u32, len: u32) -> Option<u32>
    ensures { result ≡ (if nat_le rank len then Some (rank - 1) else None) }
{
    if rank <= len {
        Some(rank.saturating_sub(1))
    } else {
        None
    }
}

/// Whether a rank is of a list of so many, or that of being unmatched.
fn is_rank(rank: u32, len: u32) -> bool
    requires { len ≤ most_entries }
    ensures { IsTrue result ↔ ((1 ≤ rank) × (rank ≤ len + 1)) }
{
    1 <= rank && rank <= len + 1
}

/// Writes the places of ranks, and tells whether all are ranks.
fn set_places(instance: &Instance, a: &mut Assignment, v: &[u32]) -> bool
    requires one_each { length v.now ≡ length instance.now.proposers }
    requires places_each { length a.old.places.items ≡ length instance.now.proposers }
    ensures places_each { length a.new.places.items ≡ length instance.now.proposers }
    ensures places { a.new.places.items ≡ places_of_ranks instance.now v.now }
    ensures ranks { IsTrue result ↔ (rank_vector_of instance.now (places_of_ranks instance.now
        v.now) ≡ v.now) }
    ensures assigned { IsTrue result → IsAssignment instance.now (places_of_ranks instance.now
        v.now) }
{
    let mut are_ranks = true;
    for p in 0..instance.proposer_count() {
        let len = instance.proposer_len(p);
        let rank = v[p as usize];
        if !is_rank(rank, len) {
            are_ranks = false;
        }
        a.places[p as usize] = place_of(rank, len);
    }
    are_ranks
}

/// Whether a vector stands behind another one, if there is one, in the order of the instance.
fn is_behind(instance: &Instance, before: Option<&[u32]>, v: &[u32]) -> bool
    requires one_each { length v.now ≡ length instance.now.proposers }
    requires before_each { IfSome before (λ b. length b.now ≡ length instance.now.proposers) }
    ensures { IsTrue result ↔ IsBehind (IsBefore (order_of instance.now)) (option_map
        (λ b. b.now) before.entry) v.now }
{
    let Some(before) = before else {
        return true;
    };
    let order = instance.order();
    for j in 0..order.len() {
        let p = order[j] as usize;
        if before[p] != v[p] {
            return before[p] < v[p];
        }
    }
    false
}
