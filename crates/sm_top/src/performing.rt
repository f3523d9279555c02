//! Doing a job: an arm for each command, which makes its answer and writes it.

ghost use Rattle.std.specs.Prelude.{◌≡◌, ℕ, ◌+◌, ◌<◌, ◌^◌, ◌≤◌, ◌↔◌, drop, Ok, None, IfOk, IfErr, OnOk, IsTrue, unwrap_or, length, map, true, false, List};
ghost use Rattle.sm_answer.specs.Printing.{IsShown};
ghost use Rattle.sm_agents.specs.Sound.{IsInstance};
ghost use Rattle.sm_instance.specs.declared.inputs.Input.TheVariants.{Two, Room};
ghost use Rattle.sm_reader.specs.InstanceText.{read_of};
ghost use Rattle.sm_report.specs.Sound.{IsLimit};
ghost use Rattle.sm_text.specs.Limits.{most_bytes};
ghost use Rattle.sm_text.specs.declared.refusal.RefusalKind.TheVariants.{WrongKind};
ghost use Rattle.sm_text.specs.Lines.{lines, texts_from};
ghost use Rattle.sm_words.specs.Jobs.{job_of, IsFormFor, IsInBounds};
ghost use Rattle.sm_words.specs.Takes.{reads_input, takes_text, IsTextFor, judges_answer, takes_rooms_alone};
ghost use Rattle.sm_top.specs.Accepting.{judged, accepted};
ghost use Rattle.sm_serve.specs.Refusals.{too_many_in, IsTooMany};
ghost use Rattle.sm_answer_solve.specs.Solution.{IsSolution};
ghost use Rattle.sm_answer_roommates.specs.RestAnswer.{IsRest};
ghost use Rattle.sm_answer_roommates.specs.RoomListAnswer.{IsRoomListAnswer};
ghost use Rattle.sm_answer_list.specs.ListAnswer.{IsCursor, IsListAnswer};
ghost use Rattle.sm_answer_list.specs.Started.{cursor_in};
ghost use Rattle.sm_answer_pairs.specs.PairsAnswer.{IsPairsAnswer};
ghost use Rattle.sm_tally.specs.Fold.{Shown, shown_as};
ghost use Rattle.sm_answer_survey.specs.SurveyAnswer.{IsSurveyAnswer};
ghost use Rattle.sm_answer_route.specs.RouteAnswer.{IsRouteAnswer};
ghost use Rattle.sm_top.specs.Outcome.{IsSolved, IsRegretted, IsWeighed, IsMiddle, IsAnswer, IsBadCursor, IsTooManyAllowed, IsGivenRefusal, IsOwnRefusal, IsRefused};
ghost use Rattle.sm_answer_rotations.specs.Reduction.{IsReduction};
ghost use Rattle.sm_answer_rotations.specs.RotationAnswer.{IsRotationAnswer};
ghost use Rattle.sm_serve.specs.Stops.{StopsBy};
ghost use Rattle.sm_serve.specs.declared.stop.Stop.TheVariants.{Refused};
ghost use Rattle.sm_serve.specs.Wrote.{Leaves, With};

use crate::behind::given_behind;
use crate::choosing::choose;
use crate::counted::Counted;
use crate::exporting::export;
use sm_answer_list::{list_lines, start_list};
use sm_answer_median::{MedianFault, find_median, median_lines};
use sm_answer_pairs::{find_pairs, find_regret, pairs_lines, regret_lines};
use sm_answer_roommates::{
    RoomSolution, couple_lines, find_rest, find_roommates, party_lines, rest_lines, room_list_lines,
};
use sm_answer_rotations::{
    find_reduction, find_rotations, none_lines, reduction_lines, rotation_answer_lines,
};
use sm_answer_route::{find_route, route_lines};
use sm_answer_solve::{find_solution, solution_lines};
use sm_answer_survey::survey_lines;
use sm_answer_weight::{find_lightest, lightest_lines};
use sm_instance::{Input, Instance, Measure, Persons, Side};
use sm_io::Sink;
use sm_reader::Read;
use sm_report::Head;
use sm_seats::Seats;
use sm_serve::{Status, Stop, counts_of, write};
use sm_tally::Tally;
use sm_text::RefusalKind;
use sm_theory::Choice;
use sm_words::{Form, Job, takes_rooms_alone, takes_text};
use std::alloc::{AllocError, Global};

/// What was read, and the form in which its answer is written.
#[derive(Clone, Copy)]
pub(crate) struct Reading<'a> {
    pub(crate) read: &'a Read,
    pub(crate) form: Form,
}

/// Does a job, but `check`, on an input that was read for it, where its kind and its seats aren't refused. The text of the
/// input is freed before seats are made, where the job takes none behind `end`.
pub(crate) fn perform<K: Sink>(
    alloc: Global,
    job: &Job,
    bytes: Vec<u8>,
    reading: &Reading<'_>,
    tallies: &mut Vec<Box<dyn Tally>>,
    sink: &mut K,
) -> Result<Status, Stop>
    requires reads { reads_input (job_of job.now) ≡ true }
    requires answers { judges_answer (job_of job.now) ≡ false }
    requires short { length bytes.items ≤ most_bytes }
    requires accepted { accepted (job_of job.now) bytes.items
        ≡ judged (job_of job.now) (read_of reading.now.read.now) }
    requires bounds { IsInBounds (job_of job.now) }
    requires form { IsFormFor (job_of job.now) reading.now.form }
    ensures leaves { Leaves reading.now.form (IsAnswer (map
        (λ t. shown_as (kind t) (shown t)) tallies.old.items) (job_of job.now) bytes.items)
        K.held K.faults sink.old sink.new result }
    ensures stop { IfErr result (λ stop. StopsBy (λ _. ⊥)
        (IsRefused (job_of job.now) bytes.items) ⊥ stop) }
{
    let behind = text_for(alloc, job, bytes);
    match &reading.read.input {
        Input::Two(instance) => {
            if takes_rooms_alone(job) {
                return Err(refuse_sides(reading.read, instance));
            }
            let given = with_counts(alloc, reading, instance)?;
            perform_on_two(alloc, job, &behind, &given, tallies, sink)
        }
        Input::Room(persons) => perform_on_persons(alloc, job, reading, persons, sink),
    }
}

/// The refusal of an instance with two sides at its header. The count is for the proof alone: it shows that there are two.
fn refuse_sides(read: &Read, instance: &Instance) -> Stop
    ensures sides { IsInstance instance.now }
    ensures refused { result ≡ Refused WrongKind read.now.header_line }
{
    let _count = instance.proposer_count();
    Stop::Refused(RefusalKind::WrongKind, read.header_line)
}

/// The text of an input, for a job that takes text behind `end`. For any other it is freed.
fn text_for(alloc: Global, job: &Job, bytes: Vec<u8>) -> Vec<u8>
    ensures { IsTextFor (job_of job.now) bytes.items result.items }
{
    if takes_text(job) {
        bytes
    } else {
        Vec::new(alloc)
    }
}

/// An instance with what is counted of its seats, where they aren't too many.
fn with_counts<'a>(
    alloc: Global,
    reading: &Reading<'a>,
    instance: &'a Instance,
) -> Result<Counted<'a>, Stop>
    requires { reading.now.read.now.input ≡ Two instance.now }
    ensures instance { IsInstance instance.now }
    ensures read { IfOk result (λ given. given.read.now ≡ reading.now.read.now) }
    ensures form { IfOk result (λ given. given.form ≡ reading.now.form) }
    ensures none { OnOk result (too_many_in reading.now.read.now.input ≡ None) }
    ensures stop { IfErr result
        (λ stop. StopsBy (λ _. ⊥) (IsTooMany reading.now.read.now.input) ⊥ stop) }
{
    let _count = instance.proposer_count();
    let counts = counts_of(alloc, instance)?;
    Ok(Counted {
        read: reading.read,
        instance,
        counts,
        form: reading.form,
    })
}

/// Does a job that takes an instance with two sides, with its text where the job takes text behind `end`.
fn perform_on_two<K: Sink>(
    alloc: Global,
    job: &Job,
    bytes: &[u8],
    given: &Counted<'_>,
    tallies: &mut Vec<Box<dyn Tally>>,
    sink: &mut K,
) -> Result<Status, Stop>
    requires reads { reads_input (job_of job.now) ≡ true }
    requires answers { judges_answer (job_of job.now) ≡ false }
    requires sides { takes_rooms_alone (job_of job.now) ≡ false }
    requires few { takes_text (job_of job.now) ≡ true → given.now.read.now.rest_line
        + length (lines (drop given.now.read.now.rest bytes.now)) < 2 ^ 32 }
    requires bounds { IsInBounds (job_of job.now) }
    requires form { IsFormFor (job_of job.now) given.now.form }
    ensures leaves { (text : List ℕ) → IsTextFor (job_of job.now) text bytes.now
        → accepted (job_of job.now) text ≡ Ok (read_of given.now.read.now)
        → Leaves given.now.form (IsAnswer (map (λ t. shown_as (kind t) (shown t))
        tallies.old.items) (job_of job.now) text)
        K.held K.faults sink.old sink.new result }
    ensures stop { (text : List ℕ) → IsTextFor (job_of job.now) text bytes.now
        → IfErr result (λ stop. StopsBy (λ _. ⊥)
        (IsOwnRefusal (job_of job.now) text (read_of given.now.read.now)) ⊥ stop) }
{
    match job {
        Job::Solve(side) => Ok(solve(alloc, given, *side, sink)?),
        Job::Reduced => Ok(reduce(alloc, given, sink)?),
        Job::Rotations => Ok(show_rotations(alloc, given, sink)?),
        Job::List(after, limit) => list(alloc, given, after, *limit, sink),
        Job::Pairs => Ok(show_pairs(alloc, given, sink)?),
        Job::Regret => Ok(show_regret(alloc, given, sink)?),
        Job::Weight(by) => Ok(show_lightest(alloc, given, *by, sink)?),
        Job::Meet => choose(alloc, given, bytes, Choice::Better, sink),
        Job::Join => choose(alloc, given, bytes, Choice::Worse, sink),
        Job::Survey(limit) => Ok(survey(alloc, given, *limit, tallies, sink)?),
        Job::Median => show_median(alloc, given, sink),
        Job::Route => show_route(alloc, given, bytes, sink),
        Job::Export => Ok(export(alloc, &given.read.input, sink)?),
        Job::Check | Job::Make(_, _, _, _) | Job::Rest => unreachable!(),
    }
}

/// Does a job on roommates, where it takes them.
fn perform_on_persons<K: Sink>(
    alloc: Global,
    job: &Job,
    reading: &Reading<'_>,
    persons: &Persons,
    sink: &mut K,
) -> Result<Status, Stop>
    requires reads { reads_input (job_of job.now) ≡ true }
    requires answers { judges_answer (job_of job.now) ≡ false }
    requires room { reading.now.read.now.input ≡ Room persons.now }
    requires bounds { IsInBounds (job_of job.now) }
    requires form { IsFormFor (job_of job.now) reading.now.form }
    ensures leaves { (text : List ℕ) (tallies : List Shown)
        → accepted (job_of job.now) text ≡ judged (job_of job.now) (read_of reading.now.read.now)
        → Leaves reading.now.form (IsAnswer tallies (job_of job.now) text)
        K.held K.faults sink.old sink.new result }
    ensures stop { (text : List ℕ)
        → accepted (job_of job.now) text ≡ judged (job_of job.now) (read_of reading.now.read.now)
        → IfErr result (λ stop. StopsBy (λ _. ⊥) (IsRefused (job_of job.now) text) ⊥ stop) }
{
    let input = &reading.read.input;
    match job {
        Job::Solve(None) => Ok(solve_roommates(alloc, input, persons, reading.form, sink)?),
        Job::List(after, limit) => list_persons(alloc, reading, persons, after, *limit, sink),
        Job::Rest => Ok(show_rest(alloc, input, persons, reading.form, sink)?),
        Job::Export => Ok(export(alloc, input, sink)?),
        Job::Solve(Some(_))
        | Job::Reduced
        | Job::Rotations
        | Job::Pairs
        | Job::Regret
        | Job::Weight(_)
        | Job::Meet
        | Job::Join
        | Job::Survey(_)
        | Job::Median
        | Job::Route => Err(Stop::Refused(RefusalKind::WrongKind, reading.read.header_line)),
        Job::Check | Job::Make(_, _, _, _) => unreachable!(),
    }
}

/// Does `solve` on an instance with two sides.
fn solve<K: Sink>(
    alloc: Global,
    given: &Counted<'_>,
    side: Option<Side>,
    sink: &mut K,
) -> Result<Status, AllocError>
    ensures { Leaves given.now.form
        (With Status.Done (IsShown given.now.read.now.input
        (IsSolution (unwrap_or side Side.Proposers) given.now.instance.now)))
        K.held K.faults sink.old sink.new result }
{
    let solution = find_solution(alloc, given.instance, &given.counts, side)?;
    let lines = solution_lines(&given.read.input, given.instance, &solution);
    Ok(write(alloc, sink, given.form, Status::Done, lines))
}

/// Does `solve` on roommates.
pub(crate) fn solve_roommates<K: Sink>(
    alloc: Global,
    input: &Input,
    persons: &Persons,
    form: Form,
    sink: &mut K,
) -> Result<Status, AllocError>
    requires { input.now ≡ Room persons.now }
    ensures { Leaves form
        (λ status. IsShown input.now (IsSolved None input.now status))
        K.held K.faults sink.old sink.new result }
{
    match find_roommates(alloc, persons)? {
        RoomSolution::Matching(mates) => {
            let lines = couple_lines(input, persons, &mates);
            Ok(write(alloc, sink, form, Status::Done, lines))
        }
        RoomSolution::Parties(parties) => {
            let lines = party_lines(input, persons, &parties);
            Ok(write(alloc, sink, form, Status::NoneExists, lines))
        }
    }
}

/// Does `list` on roommates.
fn list_persons<K: Sink>(
    alloc: Global,
    reading: &Reading<'_>,
    persons: &Persons,
    after: &Option<Vec<u32>>,
    limit: u32,
    sink: &mut K,
) -> Result<Status, Stop>
    requires room { reading.now.read.now.input ≡ Room persons.now }
    requires limit { IsLimit limit }
    ensures leaves { Leaves reading.now.form
        (With Status.Done (IsShown reading.now.read.now.input (IsRoomListAnswer
        (cursor_in after.now) limit persons.now)))
        K.held K.faults sink.old sink.new result }
    ensures stop { IfErr result (λ stop.
        StopsBy (λ _. ⊥) (IsBadCursor (cursor_in after.now) (Room persons.now)) ⊥ stop) }
{
    if !is_cursor(count_of(persons), after) {
        return Err(Stop::Refused(RefusalKind::BadCursor, 0));
    }
    let lines = room_list_lines(alloc, &reading.read.input, persons, after, limit)?;
    Ok(write(alloc, sink, reading.form, Status::Done, lines))
}

/// Does `rest`.
fn show_rest<K: Sink>(
    alloc: Global,
    input: &Input,
    persons: &Persons,
    form: Form,
    sink: &mut K,
) -> Result<Status, AllocError>
    requires { input.now ≡ Room persons.now }
    ensures { Leaves form
        (With Status.Done (IsShown input.now (IsRest persons.now)))
        K.held K.faults sink.old sink.new result }
{
    let rest = find_rest(alloc, persons)?;
    let lines = rest_lines(input, persons, &rest);
    Ok(write(alloc, sink, form, Status::Done, lines))
}

/// Does `reduced`.
fn reduce<K: Sink>(alloc: Global, given: &Counted<'_>, sink: &mut K) -> Result<Status, AllocError>
    ensures { Leaves given.now.form
        (With Status.Done (IsShown given.now.read.now.input (IsReduction given.now.instance.now)))
        K.held K.faults sink.old sink.new result }
{
    let seats = Seats::counted(alloc, given.instance, &given.counts)?;
    let reduction = find_reduction(alloc, &seats)?;
    let lines = reduction_lines(&given.read.input, given.instance, &seats, &reduction);
    Ok(write(alloc, sink, given.form, Status::Done, lines))
}

/// Does `rotations`.
fn show_rotations<K: Sink>(
    alloc: Global,
    given: &Counted<'_>,
    sink: &mut K,
) -> Result<Status, AllocError>
    ensures { Leaves given.now.form
        (With Status.Done (IsShown given.now.read.now.input
        (IsRotationAnswer given.now.instance.now)))
        K.held K.faults sink.old sink.new result }
{
    let seats = Seats::counted(alloc, given.instance, &given.counts)?;
    let found = find_rotations(alloc, &seats)?;
    let lines = rotation_answer_lines(&given.read.input, given.instance, &seats, &found);
    Ok(write(alloc, sink, given.form, Status::Done, lines))
}

/// Does `list`.
fn list<K: Sink>(
    alloc: Global,
    given: &Counted<'_>,
    after: &Option<Vec<u32>>,
    limit: u32,
    sink: &mut K,
) -> Result<Status, Stop>
    requires { IsLimit limit }
    ensures leaves { Leaves given.now.form
        (With Status.Done (IsShown given.now.read.now.input (IsListAnswer (cursor_in after.now)
        limit given.now.instance.now)))
        K.held K.faults sink.old sink.new result }
    ensures stop { IfErr result (λ stop.
        StopsBy (λ _. ⊥) (IsBadCursor (cursor_in after.now) (Two given.now.instance.now)) ⊥ stop) }
{
    if !is_cursor(given.instance.proposer_count() as usize, after) {
        return Err(Stop::Refused(RefusalKind::BadCursor, 0));
    }
    let seats = Seats::counted(alloc, given.instance, &given.counts)?;
    let lister = start_list(alloc, given.instance, &seats, after)?;
    let lines = list_lines(
        alloc,
        &given.read.input,
        given.instance,
        lister,
        after,
        limit,
    )?;
    Ok(write(alloc, sink, given.form, Status::Done, lines))
}

/// Does `pairs`.
fn show_pairs<K: Sink>(
    alloc: Global,
    given: &Counted<'_>,
    sink: &mut K,
) -> Result<Status, AllocError>
    ensures { Leaves given.now.form
        (With Status.Done (IsShown given.now.read.now.input (IsPairsAnswer given.now.instance.now)))
        K.held K.faults sink.old sink.new result }
{
    let seats = Seats::counted(alloc, given.instance, &given.counts)?;
    let pairs = find_pairs(alloc, given.instance, &seats)?;
    let lines = pairs_lines(&given.read.input, given.instance, &pairs);
    Ok(write(alloc, sink, given.form, Status::Done, lines))
}

/// Does `regret`.
fn show_regret<K: Sink>(
    alloc: Global,
    given: &Counted<'_>,
    sink: &mut K,
) -> Result<Status, AllocError>
    ensures { Leaves given.now.form
        (λ status. IsShown given.now.read.now.input (IsRegretted given.now.read.now.input status))
        K.held K.faults sink.old sink.new result }
{
    let seats = Seats::counted(alloc, given.instance, &given.counts)?;
    match find_regret(alloc, given.instance, &seats)? {
        Some(found) => {
            let lines = regret_lines(&given.read.input, given.instance, &seats, &found);
            Ok(write(alloc, sink, given.form, Status::Done, lines))
        }
        None => {
            let none = none_lines(&given.read.input, given.instance, Head::Regret);
            Ok(write(alloc, sink, given.form, Status::NoneExists, none))
        }
    }
}

/// Does `weight`.
fn show_lightest<K: Sink>(
    alloc: Global,
    given: &Counted<'_>,
    by: Measure,
    sink: &mut K,
) -> Result<Status, AllocError>
    ensures { Leaves given.now.form
        (λ status. IsShown given.now.read.now.input (IsWeighed by given.now.read.now.input status))
        K.held K.faults sink.old sink.new result }
{
    let seats = Seats::counted(alloc, given.instance, &given.counts)?;
    match find_lightest(alloc, given.instance, &seats, by)? {
        Some(found) => {
            let lines = lightest_lines(&given.read.input, given.instance, &seats, &found);
            Ok(write(alloc, sink, given.form, Status::Done, lines))
        }
        None => {
            let nothing = none_lines(&given.read.input, given.instance, Head::Weight(by));
            Ok(write(alloc, sink, given.form, Status::NoneExists, nothing))
        }
    }
}

/// Does `survey`.
fn survey<K: Sink>(
    alloc: Global,
    given: &Counted<'_>,
    limit: u32,
    tallies: &mut Vec<Box<dyn Tally>>,
    sink: &mut K,
) -> Result<Status, AllocError>
    requires { IsLimit limit }
    ensures { Leaves given.now.form
        (With Status.Done (IsShown given.now.read.now.input (IsSurveyAnswer (map
        (λ t. shown_as (kind t) (shown t)) tallies.old.items) limit given.now.instance.now)))
        K.held K.faults sink.old sink.new result }
{
    let seats = Seats::counted(alloc, given.instance, &given.counts)?;
    let lines = survey_lines(
        alloc,
        &given.read.input,
        given.instance,
        &seats,
        limit,
        tallies,
    )?;
    Ok(write(alloc, sink, given.form, Status::Done, lines))
}

/// Does `median`.
fn show_median<K: Sink>(alloc: Global, given: &Counted<'_>, sink: &mut K) -> Result<Status, Stop>
    ensures leaves { Leaves given.now.form
        (λ status. IsShown given.now.read.now.input (IsMiddle given.now.read.now.input status))
        K.held K.faults sink.old sink.new result }
    ensures stop { IfErr result (λ stop.
        StopsBy (λ _. ⊥) (IsTooManyAllowed given.now.read.now.input) ⊥ stop) }
{
    let seats = Seats::counted(alloc, given.instance, &given.counts)?;
    match find_median(alloc, given.instance, &seats) {
        Ok(Some(found)) => {
            let lines = median_lines(&given.read.input, given.instance, &found);
            Ok(write(alloc, sink, given.form, Status::Done, lines))
        }
        Ok(None) => {
            let no_median = none_lines(&given.read.input, given.instance, Head::Median);
            Ok(write(alloc, sink, given.form, Status::NoneExists, no_median))
        }
        Err(MedianFault::TooMany) => Err(Stop::Refused(RefusalKind::TooMany, 0)),
        Err(MedianFault::OutOfMemory) => Err(Stop::OutOfMemory),
    }
}

/// Does `route`, with the two matchings behind `end`.
fn show_route<K: Sink>(
    alloc: Global,
    given: &Counted<'_>,
    bytes: &[u8],
    sink: &mut K,
) -> Result<Status, Stop>
    requires { given.now.read.now.rest_line
        + length (lines (drop given.now.read.now.rest bytes.now)) < 2 ^ 32 }
    ensures leaves { Leaves given.now.form
        (With Status.Done (IsShown given.now.read.now.input (IsRouteAnswer (texts_from bytes.now
        given.now.read.now.rest) given.now.instance.now)))
        K.held K.faults sink.old sink.new result }
    ensures stop { IfErr result (λ stop. StopsBy (λ _. ⊥)
        (IsGivenRefusal given.now.instance.now (texts_from bytes.now given.now.read.now.rest)
        given.now.read.now.rest_line) ⊥ stop) }
{
    let ends = given_behind(alloc, given, bytes)?;
    let seats = Seats::counted(alloc, given.instance, &given.counts)?;
    let found = find_route(alloc, given.instance, &seats, &ends)?;
    let lines = route_lines(&given.read.input, given.instance, &seats, &ends, &found);
    Ok(write(alloc, sink, given.form, Status::Done, lines))
}

/// Has a cursor so many items, where there is one?
fn is_cursor(count: usize, after: &Option<Vec<u32>>) -> bool
    ensures { IsTrue result ↔ IsCursor count (cursor_in after.now) }
{
    match after {
        Some(vector) => vector.len() == count,
        None => true,
    }
}

/// How many persons there are.
fn count_of(persons: &Persons) -> usize
    ensures { result ≡ length persons.now }
{
    persons.persons().len()
}
