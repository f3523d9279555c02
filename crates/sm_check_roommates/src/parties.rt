//! Answers of `solve` for roommates that write parties.

ghost use Rattle.std.specs.Prelude.{◌≡◌, ◌≢◌, ◌⊎◌, ℕ, ◌+◌, ◌<◌, ◌^◌, ◌↔◌, [], List, All, length, map, slice_index, IsTrue, IfOk, EachIndex, false, true};
ghost use Rattle.sm_agents.specs.Written.{AgentData, lists_of};
ghost use Rattle.sm_report.specs.Lines.{LineData, line_of};
ghost use Rattle.sm_check_clauses.specs.Verdicts.{AtLine, Finds, IsVerdict};
ghost use Rattle.sm_check_clauses.specs.Judging.{parties, Clauses};
ghost use Rattle.sm_check_clauses.specs.Judges.{IsOwnLine};
ghost use Rattle.sm_check_clauses.specs.Rooming.{PartiesHold};
ghost use Rattle.sm_check_roommates.specs.PartiesKept.{is_met, MeetsParty, AreLinked, IsOdd, ArePartiesHeld, KeepsParty};

use crate::persons::room_lists;
use sm_check_clauses::{Judge, Reason, Verdict, judge_lines};
use sm_check_decide::{RoomLists, is_stable_partition};
use sm_instance::Persons;
use sm_lists::first_numbers;
use sm_market::next_in;
use sm_report::Line;
use std::alloc::{AllocError, Global};

/// Who follows each person in the parties so far, who stands in them, and whether one is odd.
#[derive(Drop)]
struct Parties {
    next: Vec<u32>,
    met: Vec<bool>,
    odd: bool,
}

/// What is kept of an answer that writes parties.
#[derive(Drop)]
struct PartiesJudge<'a> {
    persons: &'a Persons,
    rooms: RoomLists<'a>,
    parties: Parties,
}

/// The verdict on an answer of `solve` for roommates that writes parties, of which the first line has this number. Takes time
/// and memory in proportion to the persons, the entries and the members of the parties.
///
/// # Errors
///
/// `AllocError` where memory ran out, and only then.
pub fn parties_verdict(
    alloc: Global,
    persons: &Persons,
    lines: &[Line],
    first_line: u32,
) -> Result<Verdict, AllocError>
    requires few { first_line + length lines.now < 2 ^ 32 }
    requires own { All (IsOwnLine (parties persons.now)) (map line_of lines.now) }
    ensures { IfOk result (λ v. IsVerdict (AtLine (Clauses (parties persons.now))
        (map line_of lines.now)) first_line v) }
{
    let rooms = room_lists(alloc, persons)?;
    let none = Parties::none(alloc, rooms.persons())?;
    let judge = PartiesJudge {
        persons,
        rooms,
        parties: none,
    };
    judge_lines(alloc, judge, lines, first_line)
}

impl<'a> Judge for PartiesJudge<'a> {
    ghost use Rattle.sm_check_clauses.specs.Judging.{parties};
    ghost use Rattle.sm_check_roommates.specs.PartiesKept.{ArePartiesKept};

    ghost subject = { λ j. parties j.persons.now };

    ghost knows = { λ j above. ArePartiesKept j.persons.now j.rooms above
        j.parties.next.items j.parties.met.items j.parties.odd };

    fn find_fault(&mut self, alloc: Global, line: &Line) -> Result<Option<Reason>, AllocError> {
        match line {
            Line::Party(party) => {
                if !self.parties.add(party) {
                    return Ok(Some(Reason::NotPartition));
                }
                Ok(None)
            }
            Line::End => end_fault(alloc, &self.rooms, &self.parties),
            _ => Ok(None),
        }
    }
}

/// The first clause that fails at the end, behind these parties.
fn end_fault(
    alloc: Global,
    rooms: &RoomLists,
    parties: &Parties,
) -> Result<Option<Reason>, AllocError>
    requires one_each { length parties.now.next.items ≡ length rooms.now }
    requires in_range { (x : ℕ) → x < length rooms.now → slice_index parties.now.next.items x
        < length rooms.now }
    ensures { IfOk result (λ why. (persons : List AgentData) (parties_above : List (List ℕ))
        → rooms.now ≡ lists_of persons
        → ArePartiesHeld (length rooms.now) parties_above parties.now.next.items
        parties.now.met.items parties.now.odd
        → Finds (PartiesHold persons parties_above LineData.End) why) }
{
    if !are_all_met(&parties.met) {
        return Ok(Some(Reason::NotPartition));
    }
    if !is_stable_partition(alloc, rooms, &parties.next)? {
        return Ok(Some(Reason::NotPartition));
    }
    if !parties.odd {
        return Ok(Some(Reason::NoOddParty));
    }
    Ok(None)
}

/// Whether all persons were met.
fn are_all_met(met: &[bool]) -> bool
    ensures { IsTrue result ↔ EachIndex met.now (λ z. is_met met.now z ≡ true) }
{
    met.iter().all(|met| *met)
}

impl Parties {
    /// No party so far. Each person follows itself.
    fn none(alloc: Global, persons: u32) -> Result<Parties, AllocError>
        ensures { IfOk result (λ none. ArePartiesHeld persons [] none.next.items none.met.items
            none.odd) }
    {
        let next = first_numbers(alloc, persons)?;
        let met = vec![in alloc; false; persons as usize]?;
        Ok(Parties {
            next,
            met,
            odd: false,
        })
    }

    /// Whether a party may stand behind these. It stands among them then.
    fn add(&mut self, party: &[u32]) -> bool
        requires in_range { EachIndex party.now (λ j. slice_index party.now j
            < length self.old.met.items) }
        requires as_many { length self.old.next.items ≡ length self.old.met.items }
        ensures { (parties : List (List ℕ))
            → ArePartiesHeld (length self.old.met.items) parties self.old.next.items
            self.old.met.items self.old.odd
            → KeepsParty parties party.now (length self.old.met.items) self.new.next.items
            self.new.met.items self.new.odd result }
    {
        if !mark_party(&mut self.met, party) {
            return false;
        }
        link(&mut self.next, party);
        self.odd = is_odd_or(self.odd, party);
        true
    }
}

/// Whether no person of a party was met before, nor stands in it twice. All of them are met then.
fn mark_party(met: &mut [bool], party: &[u32]) -> bool
    requires { EachIndex party.now (λ j. slice_index party.now j < length met.old) }
    ensures { MeetsParty party.now met.old met.new result }
{
    for j in 0..party.len() {
        let x = party[j] as usize;
        if met[x] {
            return false;
        }
        met[x] = true;
    }
    true
}

/// Writes who follows whom in a party: the first person follows the last one.
fn link(next: &mut [u32], party: &[u32])
    requires in_range { EachIndex party.now (λ j. slice_index party.now j < length next.old) }
    requires distinct { (i j : ℕ) → i < j → j < length party.now → slice_index party.now i
        ≢ slice_index party.now j }
    ensures { AreLinked party.now next.old (length party.now) next.new }
{
    for j in 0..party.len() {
        next[party[j] as usize] = party[next_in(j, party.len())];
    }
}

/// Whether a party was odd, with three or more members, or this one is.
fn is_odd_or(odd: bool, party: &[u32]) -> bool
    ensures { IsTrue result ↔ (IsTrue odd ⊎ IsOdd (length party.now)) }
{
    odd || (party.len() % 2 == 1 && party.len() >= 3)
}
