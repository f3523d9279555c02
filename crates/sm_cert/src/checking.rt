//! Checking the text of an answer.

ghost use Rattle.std.specs.Prelude.{◌≡◌, ◌+◌, ◌<◌, ◌≤◌, ◌^◌, All, length, map, true, Some, IfOk, IfErr, OnOk};
ghost use Rattle.std.specs.Option.{option_map};
ghost use Rattle.sm_text.specs.Limits.{most_bytes};
ghost use Rattle.sm_text.specs.Lines.{lines, content};
ghost use Rattle.sm_instance.specs.declared.inputs.Input.TheVariants.{Two, Room};
ghost use Rattle.sm_report.specs.Heads.{HeadData, head_of};
ghost use Rattle.sm_report.specs.Lines.{line_of};
ghost use Rattle.sm_seats.specs.Counted.{AreSeatCounts};
ghost use Rattle.sm_seats.specs.SeatEntries.{AreFewSeats};
ghost use Rattle.sm_check_forms.specs.Forms.{AreAnswer, is_placed};
ghost use Rattle.sm_check_forms.specs.Layouts.{is_whole};
ghost use Rattle.sm_check_forms.specs.Seats.{AreFirsts};
ghost use Rattle.sm_check_clauses.specs.Verdicts.{AtLine, IsVerdict};
ghost use Rattle.sm_check_clauses.specs.Judging.{Subject, answer, couples, parties, Clauses, Holds, IsJudged};
ghost use Rattle.sm_check_clauses.specs.Judges.{IsOwnLine, input_of};
ghost use Rattle.sm_cert.specs.Checking.{HasFewSeats, IsCertFault, first_head, says_none};

use crate::faults::CertFault;
use sm_check_answers::{
    chosen_verdict, list_verdict, reduced_verdict, regret_verdict, rotations_verdict, solve_verdict,
};
use sm_check_clauses::Verdict;
use sm_check_forms::{AnswerFault, read_answer};
use sm_check_roommates::{couples_verdict, parties_verdict};
use sm_check_weight::{Weighed, weight_verdict};
use sm_instance::{Input, Instance, Persons};
use sm_report::{Head, Line};
use sm_seats::{SeatCounts, Seats, seat_counts};
use sm_theory::Choice;
use std::alloc::{AllocError, Global};

/// The verdict on the text of an answer over an instance, of which the first line has this number. It stands on no solver:
/// the clauses of the answer's head are tried line by line.
///
/// Takes memory in proportion to the text and, where the head asks for seats, to the entries on their lists. Time: as the
/// verdict on an answer with that head, and linear in the text.
///
/// # Errors
///
/// `TooManySeats` where the seats have too many entries, as [`Seats::of`] gives it, before anything is said of the text.
/// Else `BadAnswer` with the first line that isn't of an answer's form where it stands, or the one behind the last where the
/// closing line is missing. `OutOfMemory` where memory ran out, and only then.
pub fn check(
    alloc: Global,
    input: &Input,
    answer: &[u8],
    first_line: u32,
) -> Result<Verdict, CertFault>
    requires short { length answer.now ≤ most_bytes }
    requires first_line { first_line ≤ most_bytes + 1 }
    ensures judged { IfOk result (λ v. IsJudged input.now (map content (lines answer.now))
        first_line v) }
    ensures few { OnOk result (HasFewSeats input.now) }
    ensures fault { IfErr result (λ f. IsCertFault input.now (map content (lines answer.now))
        first_line f) }
{
    match input {
        Input::Two(instance) => {
            let counts = seat_counts(alloc, instance)?;
            let lines = read_lines(alloc, input, &counts.firsts, answer, first_line)?;
            Ok(judge_two(alloc, instance, &counts, &lines, first_line)?)
        }
        Input::Room(persons) => {
            let lines = read_lines(alloc, input, &[], answer, first_line)?;
            Ok(judge_room(alloc, persons, &lines, first_line)?)
        }
    }
}

/// The lines of an answer, of which the first has this number.
fn read_lines(
    alloc: Global,
    input: &Input,
    firsts: &[u32],
    answer: &[u8],
    first_line: u32,
) -> Result<Vec<Line>, CertFault>
    requires firsts { AreFirsts input.now firsts.now }
    requires few { HasFewSeats input.now }
    requires short { length answer.now ≤ most_bytes }
    requires first_line { first_line ≤ most_bytes + 1 }
    ensures lines { IfOk result (λ found. AreAnswer input.now (map content (lines answer.now))
        (map line_of found.items)) }
    ensures few { IfOk result (λ found. first_line + length found.items < 2 ^ 32) }
    ensures own { IfOk result (λ found.
        (subject : Subject) → input_of subject ≡ input.now
        → All (IsOwnLine subject) (map line_of found.items)) }
    ensures fault { IfErr result (λ f. IsCertFault input.now (map content (lines answer.now))
        first_line f) }
{
    match read_answer(alloc, input, firsts, answer) {
        Ok(lines) => Ok(lines),
        Err(AnswerFault::Misplaced(k)) => Err(CertFault::BadAnswer(first_line + k)),
        Err(AnswerFault::OutOfMemory) => Err(CertFault::OutOfMemory),
    }
}

/// The verdict on an answer over an instance with two sides. Lines without a head have no clauses.
fn judge_two(
    alloc: Global,
    instance: &Instance,
    counts: &SeatCounts,
    lines: &[Line],
    first_line: u32,
) -> Result<Verdict, AllocError>
    requires few { first_line + length lines.now < 2 ^ 32 }
    requires counts { AreSeatCounts instance.now counts.now }
    requires few_seats { AreFewSeats instance.now }
    requires own { (head : HeadData) → All (IsOwnLine (answer instance.now head))
        (map line_of lines.now) }
    requires placed { is_placed is_whole (Two instance.now) (map line_of lines.now) ≡ true }
    ensures { IfOk result (λ v. IsVerdict (Holds (Two instance.now) (map line_of lines.now))
        first_line v) }
{
    match head_in(lines) {
        Some(head) => judge_head(alloc, instance, counts, head, lines, first_line),
        None => Ok(Verdict::Yes),
    }
}

/// What an answer answers.
fn head_in(lines: &[Line]) -> Option<&Head>
    ensures { option_map (λ head. head_of head.now) result ≡ first_head (map line_of lines.now) }
{
    match lines.first() {
        Some(Line::Answer(head)) => Some(head),
        _ => None,
    }
}

/// The verdict on an answer with this head. An answer that can't be checked has no clauses.
fn judge_head(
    alloc: Global,
    instance: &Instance,
    counts: &SeatCounts,
    head: &Head,
    lines: &[Line],
    first_line: u32,
) -> Result<Verdict, AllocError>
    requires few { first_line + length lines.now < 2 ^ 32 }
    requires counts { AreSeatCounts instance.now counts.now }
    requires few_seats { AreFewSeats instance.now }
    requires own { (head : HeadData) → All (IsOwnLine (answer instance.now head))
        (map line_of lines.now) }
    requires placed { is_placed is_whole (Two instance.now) (map line_of lines.now) ≡ true }
    requires head { first_head (map line_of lines.now) ≡ Some (head_of head.now) }
    ensures { IfOk result (λ v. IsVerdict
        (AtLine (Clauses (answer instance.now (head_of head.now))) (map line_of lines.now))
        first_line v) }
{
    let firsts = counts.firsts.as_slice();
    match head {
        Head::Solve(Some(side)) => {
            let seats = Seats::counted(alloc, instance, counts)?;
            solve_verdict(alloc, instance, &seats, *side, lines, first_line)
        }
        Head::Reduced => {
            let seats = Seats::counted(alloc, instance, counts)?;
            reduced_verdict(alloc, instance, &seats, firsts, lines, first_line)
        }
        Head::Rotations => {
            let seats = Seats::counted(alloc, instance, counts)?;
            rotations_verdict(alloc, instance, &seats, firsts, lines, first_line)
        }
        Head::List(after, limit) => {
            let after = after.as_deref();
            list_verdict(alloc, instance, after, *limit, lines, first_line)
        }
        Head::Regret => regret_verdict(alloc, instance, lines, first_line),
        Head::Weight(by) => {
            let seats = Seats::counted(alloc, instance, counts)?;
            let weighed = Weighed {
                instance,
                seats: &seats,
                by: *by,
            };
            weight_verdict(alloc, &weighed, firsts, lines, first_line)
        }
        Head::Meet => chosen_verdict(alloc, instance, Choice::Better, lines, first_line),
        Head::Join => chosen_verdict(alloc, instance, Choice::Worse, lines, first_line),
        Head::Solve(None) => Ok(Verdict::Yes),
        Head::Pairs => Ok(Verdict::Yes),
        Head::Survey(_) => Ok(Verdict::Yes),
        Head::Check => Ok(Verdict::Yes),
        Head::Median => Ok(Verdict::Yes),
        Head::Route => Ok(Verdict::Yes),
        Head::Rest => Ok(Verdict::Yes),
    }
}

/// The verdict on an answer over roommates.
fn judge_room(
    alloc: Global,
    persons: &Persons,
    lines: &[Line],
    first_line: u32,
) -> Result<Verdict, AllocError>
    requires few { first_line + length lines.now < 2 ^ 32 }
    requires couples { All (IsOwnLine (couples persons.now)) (map line_of lines.now) }
    requires parties { All (IsOwnLine (parties persons.now)) (map line_of lines.now) }
    ensures { IfOk result (λ v. IsVerdict (Holds (Room persons.now) (map line_of lines.now))
        first_line v) }
{
    if says_none(lines) {
        return parties_verdict(alloc, persons, lines, first_line);
    }
    couples_verdict(alloc, persons, lines, first_line)
}

/// Whether an answer over roommates says that there is no stable matching.
fn says_none(lines: &[Line]) -> bool
    ensures { result ≡ says_none (map line_of lines.now) }
{
    match lines.get(1) {
        Some(Line::Nothing) => true,
        _ => false,
    }
}
