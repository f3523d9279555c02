//! The top call.

ghost use Rattle.std.specs.Prelude.{◌≡◌, ◌≤◌, ℕ, List, Ok, IfErr, length, map, true, false};
ghost use Rattle.sm_text.specs.Limits.{most_bytes};
ghost use Rattle.sm_io.specs.Faults.{Rose};
ghost use Rattle.sm_words.specs.Jobs.{job_of, IsFormFor, IsInBounds};
ghost use Rattle.sm_words.specs.Words.{texts, words_meaning};
ghost use Rattle.sm_tally.specs.Fold.{shown_as};
ghost use Rattle.sm_words.specs.Takes.{reads_input};
ghost use Rattle.sm_serve.specs.Input.{Drains};
ghost use Rattle.sm_serve.specs.Running.{Runs};
ghost use Rattle.sm_serve.specs.Steps.{IsServed};
ghost use Rattle.sm_serve.specs.Stops.{StopsBy};
ghost use Rattle.sm_serve.specs.Wrote.{Leaves};
ghost use Rattle.sm_top.specs.Outcome.{IsAnswer, IsRefused, Outcome};
ghost use Rattle.sm_top.specs.Running.{reads, form_of, Answers, AnswersAccepted};
ghost use Rattle.sm_top.specs.Steps.{IsAnswerIn, IsRefusedFrom};

use crate::checking::check_answer;
use crate::giving::text_given;
use crate::making::show_made;
use crate::performing::{Reading, perform};
use crate::refusing::read_for;
use sm_io::{Sink, Source};
use sm_make::make;
use sm_serve::{Status, Stop, read_all, say_stop};
use sm_tally::Tally;
use sm_words::{Form, Job, WordsFault, judges_answer, read_words};
use std::alloc::Global;

/// Does all that the program does, and says how it ended.
///
/// The words are those of the command line behind the program's name. Where they are faulty nothing is read, nor for `make`. Else
/// the source is read to its end, or until it gave more than 16,777,216 bytes, and the answer is written to the sink, each line
/// with one put. With `form=json` the input is an instance in JSON, which stands for a text ([`sm_json::to_text`]), and all that is
/// said below is said of that text; the lines of the answer or of the refusal are written as an array of strings in JSON, each with
/// one put, and `]` with LF with one more.
///
/// - `Done`: the whole answer is written. For `solve` it is the pairs of the stable matching in which every agent of a side has the
///   best partner that it has in any stable matching (Gale and Shapley 1962), in the order of the text, and for roommates those of
///   a stable matching; for `reduced` the partners in both such matchings and the lists in which all stable pairs lie (Gusfield and
///   Irving 1989, section 1.2.4); for `rotations` the proposers' partners in the first of them, the rotations that lead from it to
///   the last, and what each needs, so that the stable matchings are those of the closed sets that the lines show (theorem 2.5.7
///   there); for `list` the rank vectors of the allowed stable matchings behind the cursor, in their order and at most so many as
///   the limit (after section 3.3 there); for `pairs` the pairs of all stable matchings, and which of them are in each (section
///   2.3.3 there); for `regret` the least regret of an allowed stable matching, and of those that have it the pairs of the one that
///   is best for all proposers (Gusfield 1987); for `weight` what `rotations` has, the gain of each rotation, a greatest flow in
///   the net that needs, gains and conditions make, with the rotations that it takes and a cut of its value, and the total and the
///   pairs of the lightest allowed stable matching, of several the one that is best for all proposers (Irving, Leather and Gusfield
///   1987); for `meet` and `join` the pairs of two stable matchings, which are read behind `end`, and those of the matching in
///   which each proposer has the better of its two partners, or the worse (section 1.3.1 there); for `survey` how many allowed
///   stable matchings are listed from the first on, up to the limit, and what the tallies show that were told of each of them; for
///   `median` how many stable matchings are allowed, and the pairs of the one in which each proposer has the partner in the middle
///   of those that it has in all of them (Teo and Sethuraman 1998); for `route` the pairs of two stable matchings, which are read
///   behind `end`, what `rotations` has, and the fewest rotations that lead from the left one back and forth to the right one; for
///   `rest` of roommates the lowest member of each odd party of three or more of a stable partition, and a matching of all others
///   that no two of them block (Tan 1991); for `check` that the answer which is read behind `end` is right: each clause holds at
///   each of its lines, and what that means of the instance is said in [`sm_cert::laws`]; for `make` the text of the instance that
///   is made, or what `survey` with a limit of 100, or for roommates `solve`, writes for it; for `export` the one line of the
///   instance in JSON ([`sm_json::to_json`]).
/// - `Refused`: the input is refused for this reason, at this line; the one line `refused NAME LINE` is written. An input that is
///   too long comes first, then, with `form=json`, one that is no instance in JSON and one whose text is too long, each at line 0,
///   then the faults of its lines from the top, then a missing `end`, then a name that isn't declared, then text behind `end` where
///   the command takes none, then a kind that the command doesn't take, then seats that have more than 1,048,576 entries. Then come
///   a cursor that hasn't a number for each proposer, or for each person, for `list`; more than 100,000 allowed stable matchings,
///   for `median`; and for `meet`, `join` and `route` the first line behind `end` that can't stand where it stands, then, with four
///   more fields, the first pair that can't be held beside those before it, then, at the closing `end`, a pair that blocks the left
///   matching, then one that blocks the right one; and for `check` the first line behind `end` that isn't of the form of an answer
///   where it stands.
/// - `NoneExists`: the whole answer is written, and says that there is no such matching. For `solve` it is `none`, where roommates
///   have no stable matching, and the parties of a stable partition that has an odd one of three or more (Tan 1991), and so for
///   `make` with `show=summary`; for `regret`, `weight` and `median` it is `none` alone, where no stable matching is allowed.
/// - `CheckedNo`: the whole answer is written, and says that the answer behind `end`, for `check`, isn't right: at this line,
///   counted over the whole input, a clause fails for this reason. At the lines before it none does, nor at it for a reason that
///   comes before.
/// - `Usage`: the words are faulty; the one line `usage WORD` is written.
/// - `ReadFault`, `WriteFault`: the source or the sink failed. Nothing was written, or a front of the answer.
/// - `OutOfMemory`: there was no memory. Nothing was written, or a front of the answer.
///
/// The tallies are fed by `survey`, and by `make` with `show=summary`, and dropped.
///
/// What is written is added to what the sink held. It depends on the bytes that the source gave and not on how they were cut.
/// Takes time and memory linear in the bytes for `solve`, `reduced`, `rest`, `meet` and `join`, beside a look-up for each name, and
/// for `make` in those that are written. For the others those of [`sm_rotations::chain`] and [`sm_poset::Poset::of`] come
/// besides, and then those of [`sm_answer_list::start_list`] and of each step for `list` and `survey`, of
/// [`sm_answer_pairs::find_pairs`] and [`sm_answer_pairs::find_regret`] for `pairs` and `regret`, of
/// [`sm_answer_weight::find_lightest`] for `weight`, of [`sm_answer_median::find_median`] for `median`, and of
/// [`sm_answer_route::find_route`] for `route`. On roommates `list` takes those of [`sm_room_list::RoomLister::advance`] for each
/// step instead. `check` takes those of [`sm_cert::check`], `export` those of [`sm_json::to_json`], and `form=json` those of
/// [`sm_json::to_text`] besides.
pub fn run<S: Source, K: Sink>(
    alloc: Global,
    words: &[String],
    source: &mut S,
    sink: &mut K,
    tallies: Vec<Box<dyn Tally>>,
) -> Status
    ensures answer { Answers (map (λ t. shown_as (kind t) (shown t)) tallies.items)
        (texts words.now) (S.left source.old) (S.left source.new)
        (K.held sink.old) (K.held sink.new) result }
    ensures accepted { AnswersAccepted (texts words.now) (S.left source.old) result }
    ensures untouched { reads (texts words.now) ≡ false → source.new ≡ source.old }
    ensures read_fault { result ≡ Status.ReadFault
        → Rose (S.faults source.old) (S.faults source.new) }
    ensures write_fault { result ≡ Status.WriteFault
        → Rose (K.faults sink.old) (K.faults sink.new) }
    ensures source_later { S.faults source.old ≤ S.faults source.new }
    ensures sink_later { K.faults sink.old ≤ K.faults sink.new }
{
    let mut tallies = tallies;
    match read_words(alloc, words) {
        Ok((job, form)) => run_job(alloc, &job, form, source, &mut tallies, sink),
        Err(WordsFault::Usage(word)) => { say_stop(alloc, Form::Text, sink, Stop::Usage(word)) },
        Err(WordsFault::OutOfMemory) => Status::OutOfMemory,
    }
}

/// Does a job in a form, and says how it ended.
fn run_job<S: Source, K: Sink>(
    alloc: Global,
    job: &Job,
    form: Form,
    source: &mut S,
    tallies: &mut Vec<Box<dyn Tally>>,
    sink: &mut K,
) -> Status
    requires bounds { IsInBounds (job_of job.now) }
    requires form { IsFormFor (job_of job.now) form }
    ensures runs { (words : List (List ℕ)) → words_meaning words ≡ Ok (job_of job.now, form)
        → Runs (reads words) (form_of words) (Outcome (map
        (λ t. shown_as (kind t) (shown t)) tallies.old.items) words)
        S.left S.faults K.held K.faults source.old source.new sink.old sink.new result }
    ensures untouched { reads_input (job_of job.now) ≡ false → source.new ≡ source.old }
{
    match serve(alloc, job, form, source, tallies, sink) {
        Ok(status) => status,
        Err(stop) => say_stop(alloc, form, sink, stop),
    }
}

/// Does a job in a form.
fn serve<S: Source, K: Sink>(
    alloc: Global,
    job: &Job,
    form: Form,
    source: &mut S,
    tallies: &mut Vec<Box<dyn Tally>>,
    sink: &mut K,
) -> Result<Status, Stop>
    requires bounds { IsInBounds (job_of job.now) }
    requires form { IsFormFor (job_of job.now) form }
    ensures served { IsServed (reads_input (job_of job.now)) form (IsAnswerIn (map
        (λ t. shown_as (kind t) (shown t)) tallies.old.items) (job_of job.now) form)
        (IsRefusedFrom (job_of job.now) form)
        S.left S.faults K.held K.faults source.old source.new sink.old sink.new result }
    ensures drains { Drains S.left S.faults source.old source.new }
    ensures untouched { reads_input (job_of job.now) ≡ false → source.new ≡ source.old }
{
    match job {
        Job::Make(shape, size, seed, is_summary) => {
            let input = make(alloc, *shape, *size, *seed)?;
            show_made(alloc, &input, *is_summary, form, tallies, sink)
        }
        _ => read_and_answer(alloc, job, form, source, tallies, sink),
    }
}

/// Reads the input, and does a job on the text that it gives in a form.
fn read_and_answer<S: Source, K: Sink>(
    alloc: Global,
    job: &Job,
    form: Form,
    source: &mut S,
    tallies: &mut Vec<Box<dyn Tally>>,
    sink: &mut K,
) -> Result<Status, Stop>
    requires reads { reads_input (job_of job.now) ≡ true }
    requires bounds { IsInBounds (job_of job.now) }
    requires form { IsFormFor (job_of job.now) form }
    ensures served { IsServed (reads_input (job_of job.now)) form (IsAnswerIn (map
        (λ t. shown_as (kind t) (shown t)) tallies.old.items) (job_of job.now) form)
        (IsRefusedFrom (job_of job.now) form)
        S.left S.faults K.held K.faults source.old source.new sink.old sink.new result }
    ensures drains { Drains S.left S.faults source.old source.new }
{
    let bytes = read_all(alloc, source)?;
    let text = text_given(alloc, form, bytes)?;
    answer(alloc, job, form, text, tallies, sink)
}

/// Does a job on the text that an input gives.
fn answer<K: Sink>(
    alloc: Global,
    job: &Job,
    form: Form,
    bytes: Vec<u8>,
    tallies: &mut Vec<Box<dyn Tally>>,
    sink: &mut K,
) -> Result<Status, Stop>
    requires reads { reads_input (job_of job.now) ≡ true }
    requires short { length bytes.items ≤ most_bytes }
    requires bounds { IsInBounds (job_of job.now) }
    requires form { IsFormFor (job_of job.now) form }
    ensures leaves { Leaves form (IsAnswer (map
        (λ t. shown_as (kind t) (shown t)) tallies.old.items) (job_of job.now) bytes.items)
        K.held K.faults sink.old sink.new result }
    ensures stop { IfErr result (λ stop. StopsBy (λ _. ⊥) (IsRefused (job_of job.now) bytes.items) ⊥
        stop) }
{
    let read = read_for(alloc, job, &bytes)?;
    if judges_answer(job) {
        return check_answer(alloc, &bytes, &read, form, sink);
    }
    let reading = Reading { read: &read, form };
    perform(alloc, job, bytes, &reading, tallies, sink)
}
