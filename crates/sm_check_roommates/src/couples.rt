//! Answers of `solve` for roommates that write a matching.

ghost use Rattle.std.specs.Prelude.{◌≡◌, ℕ, ◌+◌, ◌<◌, ◌^◌, ◌∷◌, ◌++◌, [], List, All, None, length, map, replicate, IfOk};
ghost use Rattle.sm_agents.specs.Written.{AgentData, lists_of};
ghost use Rattle.sm_theory.specs.Rooms.{IsRoomMatching};
ghost use Rattle.sm_report.specs.Lines.{LineData, line_of};
ghost use Rattle.sm_check_clauses.specs.Verdicts.{AtLine, Finds, IsVerdict};
ghost use Rattle.sm_check_clauses.specs.Said.{pairs_in};
ghost use Rattle.sm_check_clauses.specs.Rooming.{CouplesHold};
ghost use Rattle.sm_check_clauses.specs.Judging.{couples, Clauses};
ghost use Rattle.sm_check_clauses.specs.Judges.{IsOwnLine};
ghost use Rattle.sm_check_roommates.specs.CouplesKept.{AreThere, AreCouplesHeld, Couples};

use crate::persons::room_lists;
use sm_check_clauses::{Judge, Reason, Verdict, judge_lines};
use sm_check_decide::{RoomLists, is_room_stable};
use sm_instance::Persons;
use sm_report::Line;
use std::alloc::{AllocError, Global};

/// What is kept of an answer that writes a matching: the mate of each person so far.
#[derive(Drop)]
struct CouplesJudge<'a> {
    persons: &'a Persons,
    rooms: RoomLists<'a>,
    mates: Vec<Option<u32>>,
}

/// The verdict on an answer of `solve` for roommates that writes a matching, of which the first line has this number. Takes
/// time in proportion to the persons, the entries and the lines, and memory in proportion to the persons and entries.
///
/// # Errors
///
/// `AllocError` where memory ran out, and only then.
pub fn couples_verdict(
    alloc: Global,
    persons: &Persons,
    lines: &[Line],
    first_line: u32,
) -> Result<Verdict, AllocError>
    requires few { first_line + length lines.now < 2 ^ 32 }
    requires own { All (IsOwnLine (couples persons.now)) (map line_of lines.now) }
    ensures { IfOk result (λ v. IsVerdict (AtLine (Clauses (couples persons.now))
        (map line_of lines.now)) first_line v) }
{
    let rooms = room_lists(alloc, persons)?;
    let mates = no_mates(alloc, &rooms)?;
    let judge = CouplesJudge {
        persons,
        rooms,
        mates,
    };
    judge_lines(alloc, judge, lines, first_line)
}

/// Nobody has a mate.
fn no_mates(alloc: Global, rooms: &RoomLists) -> Result<Vec<Option<u32>>, AllocError>
    ensures { IfOk result (λ mates. mates.items ≡ replicate (length rooms.now) None) }
{
    Ok(vec![in alloc; None; rooms.persons() as usize]?)
}

impl<'a> Judge for CouplesJudge<'a> {
    ghost use Rattle.sm_check_clauses.specs.Judging.{couples};
    ghost use Rattle.sm_check_roommates.specs.CouplesKept.{AreCouplesKept};

    ghost subject = { λ j. couples j.persons.now };

    ghost knows = { λ j above. AreCouplesKept j.persons.now j.rooms above j.mates.items };

    fn find_fault(&mut self, alloc: Global, line: &Line) -> Result<Option<Reason>, AllocError> {
        line_fault(alloc, &self.rooms, &mut self.mates, line)
    }
}

/// The first clause that fails at a line, behind these couples. The couple of the line is kept too.
fn line_fault(
    alloc: Global,
    rooms: &RoomLists,
    mates: &mut [Option<u32>],
    line: &Line,
) -> Result<Option<Reason>, AllocError>
    requires in_range { AreThere (length rooms.now) (line_of line.now) }
    requires matching { IsRoomMatching rooms.now mates.old }
    ensures found { IfOk result (λ why. (persons : List AgentData) (pairs : List (ℕ × ℕ))
        → rooms.now ≡ lists_of persons
        → AreCouplesHeld rooms.now pairs mates.old
        → Finds (CouplesHold persons pairs (line_of line.now)) why) }
    ensures held { IfOk result (λ why. (pairs : List (ℕ × ℕ))
        → AreCouplesHeld rooms.now pairs mates.old → why ≡ None
        → AreCouplesHeld rooms.now (pairs ++ pairs_in (line_of line.now ∷ [])) mates.new) }
{
    match line {
        Line::Pair(x, y) => {
            if !couples(rooms, mates, *x, *y) {
                return Ok(Some(Reason::NotAMatching));
            }
            Ok(None)
        }
        Line::End => end_fault(alloc, rooms, mates),
        _ => Ok(None),
    }
}

/// The first clause that fails at the end, behind these couples.
fn end_fault(
    alloc: Global,
    rooms: &RoomLists,
    mates: &[Option<u32>],
) -> Result<Option<Reason>, AllocError>
    requires { IsRoomMatching rooms.now mates.now }
    ensures { IfOk result (λ why. (persons : List AgentData) (pairs : List (ℕ × ℕ)) → rooms.now
        ≡ lists_of persons
        → AreCouplesHeld rooms.now pairs mates.now → Finds (CouplesHold persons pairs LineData.End)
        why) }
{
    if is_room_stable(alloc, rooms, mates)? {
        return Ok(None);
    }
    Ok(Some(Reason::Blocked))
}

/// Whether a couple may stand behind those that are kept. It is kept too then.
fn couples(rooms: &RoomLists, mates: &mut [Option<u32>], x: u32, y: u32) -> bool
    requires first { x < length rooms.now }
    requires second { y < length rooms.now }
    requires matching { IsRoomMatching rooms.now mates.old }
    ensures { (pairs : List (ℕ × ℕ)) → AreCouplesHeld rooms.now pairs mates.old
        → Couples rooms.now pairs (x, y) mates.new result }
{
    if mates[x as usize].is_some() {
        return false;
    }
    if mates[y as usize].is_some() {
        return false;
    }
    if !rooms.is_acceptable(x, y) {
        return false;
    }
    mates[x as usize] = Some(y);
    mates[y as usize] = Some(x);
    true
}
