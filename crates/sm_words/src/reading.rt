//! Reading the words.

ghost use Rattle.std.specs.Prelude.{◌≡◌, ◌+◌, ℕ, List, [], length, IfOk, IfErr, Ok, option_map};
ghost use Rattle.sm_make.specs.Made.{most_size};
ghost use Rattle.sm_words.specs.Jobs.{job_of, asked_of, IsFormFor, IsInBounds};
ghost use Rattle.sm_words.specs.Kept.{given_of, kept_of, AreKept};
ghost use Rattle.sm_words.specs.Words.{texts, right_words, job_for, is_too_large, gives_size, word_of_size, asked, words_meaning, IsFaultBy, IsWordsFault, IsNoMemory};

use crate::jobs::{Form, Job, WordsFault};
use crate::operands::{Command, GREATEST_SIZE, Given, command_named, nothing, take_word};
use sm_make::Shape;
use std::alloc::Global;

/// The number of the first operand's word.
const FIRST_OPERAND: u32 = 2;

/// The limit of a listing or a survey where none is given.
pub const USUAL_LIMIT: u32 = 100;

/// The text of a made instance is shown where nothing is said.
const USUAL_SHOW: bool = false;

/// The form where none is given.
const USUAL_FORM: Form = Form::Text;

/// The greatest size of a shape that isn't copies.
const MOST_SIZE: u32 = 512;

/// What the words ask for, which are those of the command line behind the program's name, and in which form.
///
/// The first word is a command. Each later word is `name=value`: an operand of the command and its value, which is all
/// behind the first `=`. Each operand stands at most once, and they stand in any order. `solve` may have
/// `side=proposers` or `side=reviewers`; `list` may have `after=` with the numbers of a vector, one comma between each two
/// or `-` for none, and `limit=` with a number from 1 to 1,000,000, which is 100 where none is given; `survey` may have
/// `limit=` alike; `weight` has `by=ranks` or `by=given`. These four, and `reduced`, `rotations`, `pairs` and `regret`, may
/// also have `form=text` or `form=json`; the form is `Text` where none is given, and for each other command. `meet`, `join`,
/// `check`, `rest`, `median`, `route` and `export` have no operands. `make` has `shape=copies`, `cycle`, `random`, `hospitals`
/// or `rooms`, `size=` with a number from 1 to 2,048, which has to be at most 512 where the shape isn't `copies`, and `seed=`
/// with a number below 2^64, and may have `show=text`
/// or `show=summary`, which is `text` where none is given. Takes time linear in the words, and memory for the vector alone.
///
/// # Errors
///
/// `Usage` with the number of the faulty word, counted from 1. The words are tried from the left, and the first that isn't
/// what may stand there is faulty; where none is and a word is missing, it is the one behind the last; and where none is
/// missing and the size is too large for the shape, it is the word of the size. `OutOfMemory` where there was no memory for
/// a vector, or where there are as many words as have no number.
pub fn read_words(alloc: Global, words: &[String]) -> Result<(Job, Form), WordsFault>
    ensures job { IfOk result (λ asked. words_meaning (texts words.now) ≡ Ok (asked_of asked)) }
    ensures bounds { IfOk result (λ asked. IsInBounds (job_of asked.0)) }
    ensures form { IfOk result (λ asked. IsFormFor (job_of asked.0) asked.1) }
    ensures fault { IfErr result (λ fault. IsWordsFault (texts words.now) fault) }
{
    match words {
        [] => Err(WordsFault::Usage(1)),
        [word, operands @ ..] => match command_named(word.as_str()) {
            Some(command) => command_job(alloc, command, operands),
            None => Err(WordsFault::Usage(1)),
        },
    }
}

/// What a command asks for with its operands.
fn command_job(
    alloc: Global,
    command: Command,
    operands: &[String],
) -> Result<(Job, Form), WordsFault>
    ensures job { IfOk result (λ found. asked command (texts operands.now) ≡ Ok (asked_of found)) }
    ensures fault { IfErr result (λ fault. IsFaultBy (asked command (texts operands.now)) fault) }
{
    let given = operands_in(alloc, command, operands)?;
    let form = given.form.unwrap_or(USUAL_FORM);
    let Some(job) = job_for(command, given) else {
        return Err(WordsFault::Usage(number_behind(operands)?));
    };
    if is_too_large(&job) {
        return Err(WordsFault::Usage(word_of_size(operands)?));
    }
    Ok((job, form))
}

/// The operands that words give, the first of which has the number 2.
fn operands_in(alloc: Global, command: Command, words: &[String]) -> Result<Given, WordsFault>
    ensures given { IfOk result (λ given. AreKept command (texts words.now) (given_of given)) }
    ensures fault { IfErr result (λ fault. IsFaultBy (right_words command [] (texts words.now)) fault) }
{
    let mut given = nothing();
    let mut number = FIRST_OPERAND;
    for word in words {
        if !take_word(alloc, command, word.as_str(), &mut given)? {
            return Err(WordsFault::Usage(number));
        }
        number = next_number(number)?;
    }
    Ok(given)
}

/// The job of a command with its operands; `None` where a required one is missing.
fn job_for(command: Command, given: Given) -> Option<Job>
    ensures { (words : List (List ℕ)) → given_of given ≡ kept_of words
        → option_map job_of result ≡ job_for command words }
{
    match command {
        Command::Solve => Some(Job::Solve(given.side)),
        Command::Reduced => Some(Job::Reduced),
        Command::Rotations => Some(Job::Rotations),
        Command::List => Some(Job::List(given.after, given.limit.unwrap_or(USUAL_LIMIT))),
        Command::Pairs => Some(Job::Pairs),
        Command::Regret => Some(Job::Regret),
        Command::Weight => Some(Job::Weight(given.by?)),
        Command::Meet => Some(Job::Meet),
        Command::Join => Some(Job::Join),
        Command::Survey => Some(Job::Survey(given.limit.unwrap_or(USUAL_LIMIT))),
        Command::Check => Some(Job::Check),
        Command::Make => making(&given),
        Command::Rest => Some(Job::Rest),
        Command::Median => Some(Job::Median),
        Command::Route => Some(Job::Route),
        Command::Export => Some(Job::Export),
    }
}

/// What `make` asks for with its operands; `None` where a required one is missing.
fn making(given: &Given) -> Option<Job>
    ensures { (words : List (List ℕ)) → given_of given.now ≡ kept_of words
        → option_map job_of result ≡ job_for Command.Make words }
{
    Some(Job::Make(
        given.shape?,
        given.size?,
        given.seed?,
        given.show.unwrap_or(USUAL_SHOW),
    ))
}

/// Whether a job asks for a size that is too large for its shape.
fn is_too_large(job: &Job) -> bool
    ensures { result ≡ is_too_large (job_of job.now) }
{
    match job {
        Job::Make(shape, size, ..) => *size > most_size(*shape),
        _ => false,
    }
}

/// The greatest size of a shape.
fn most_size(shape: Shape) -> u32
    ensures { result ≡ most_size shape }
{
    match shape {
        Shape::Copies => GREATEST_SIZE,
        Shape::Cycle | Shape::Random | Shape::Hospitals | Shape::Rooms => MOST_SIZE,
    }
}

/// The number of the word that gives the size, where the first of these has the number 2.
fn word_of_size(operands: &[String]) -> Result<u32, WordsFault>
    ensures number { IfOk result (λ number. number ≡ word_of_size (texts operands.now)) }
    ensures fault { IfErr result IsNoMemory }
{
    let mut number = FIRST_OPERAND;
    for word in operands {
        if gives_size(word.as_str()) {
            return Ok(number);
        }
        number = next_number(number)?;
    }
    Ok(number)
}

/// Whether a word gives a size.
fn gives_size(word: &str) -> bool
    ensures { result ≡ gives_size word.now }
{
    matches!(word.split_once('='), Some(("size", _)))
}

/// The number behind that of the last word, where the first of these has the number 2.
fn number_behind(operands: &[String]) -> Result<u32, WordsFault>
    ensures number { IfOk result (λ number. number ≡ length operands.now + 2) }
    ensures fault { IfErr result IsNoMemory }
{
    match u32::try_from(operands.len()) {
        Ok(count) => {
            let last = next_number(count)?;
            next_number(last)
        }
        Err(_) => Err(WordsFault::OutOfMemory),
    }
}

/// The number of the next word. So many words as have no number would take more memory than there is.
fn next_number(number: u32) -> Result<u32, WordsFault>
    ensures next { IfOk result (λ next. next ≡ number + 1) }
    ensures fault { IfErr result IsNoMemory }
{
    match number.checked_add(1) {
        Some(next) => Ok(next),
        None => Err(WordsFault::OutOfMemory),
    }
}
