//! Which inputs are refused before their kind and their seats are looked at.

ghost use Rattle.std.specs.Prelude.{◌≡◌, ◌≤◌, length, MatchOption, IfOk, IfErr, Ok, Err};
ghost use Rattle.sm_text.specs.Limits.{most_bytes};
ghost use Rattle.sm_text.specs.declared.refusal.RefusalKind.TheVariants.{AfterEnd};
ghost use Rattle.sm_reader.specs.InstanceText.{instance_text, read_of};
ghost use Rattle.sm_serve.specs.Stops.{StopsBy};
ghost use Rattle.sm_serve.specs.declared.stop.Stop.{Stop};
ghost use Rattle.sm_top.specs.Accepting.{judged, accepted, IsUnaccepted};
ghost use Rattle.sm_words.specs.Jobs.{job_of};

use sm_instance::{Input, Measure};
use sm_reader::{Read, TextFault, read_instance};
use sm_serve::{Stop, text_behind};
use sm_text::RefusalKind;
use sm_words::{Job, takes_text};
use std::alloc::{AllocError, Global};

/// Reads an input for a job, where it isn't refused before its kind and its seats are looked at.
pub(crate) fn read_for(alloc: Global, job: &Job, bytes: &[u8]) -> Result<Read, Stop>
    requires { length bytes.now ≤ most_bytes }
    ensures read { IfOk result (λ read. accepted (job_of job.now) bytes.now
        ≡ judged (job_of job.now) (read_of read)) }
    ensures text { IfOk result (λ read. instance_text bytes.now ≡ Ok (read_of read)) }
    ensures stop { IfErr result (λ stop. StopsBy (λ _. ⊥) (IsUnaccepted (job_of job.now) bytes.now)
        ⊥ stop) }
{
    match read_instance(alloc, bytes) {
        Ok(read) => match text_refused(job, bytes, &read) {
            Some(line) => Err(Stop::Refused(RefusalKind::AfterEnd, line)),
            None => kept_for(job, bytes, read),
        },
        Err(TextFault::Refused(kind, at)) => Err(Stop::Refused(kind, at)),
        Err(TextFault::OutOfMemory) => Err(Stop::OutOfMemory),
    }
}

/// What was read, with what its input keeps for a job.
fn kept_for(job: &Job, bytes: &[u8], mut read: Read) -> Result<Read, Stop>
    ensures read { IfOk result (λ kept. read_of kept ≡ read_of read) }
    ensures stop { IfErr result (λ stop. stop ≡ Stop.OutOfMemory) }
{
    match keep_for(job, bytes, &mut read.input) {
        Ok(()) => Ok(read),
        Err(_) => {
            drop(read);
            Err(Stop::OutOfMemory)
        }
    }
}

/// Lets an input keep what a job looks up again and again: its cross places, and names where there is text behind `end`.
fn keep_for(job: &Job, bytes: &[u8], input: &mut Input) -> Result<(), AllocError>
    ensures { input.new ≡ input.old }
{
    if looks_at_crosses(job) {
        input.keep_crosses()?;
    }
    if takes_text(job) {
        input.keep_names()?;
    }
    Ok(())
}

/// Whether a job looks at cross places of the instance itself, beside those of the market of its seats.
fn looks_at_crosses(job: &Job) -> bool {
    match job {
        Job::Regret | Job::Weight(Measure::Ranks) | Job::Survey(_) => true,
        Job::Meet | Job::Join | Job::Route | Job::Check => true,
        _ => false,
    }
}

/// The line of text behind `end`, where a job takes none and there is some.
fn text_refused(job: &Job, bytes: &[u8], read: &Read) -> Option<u32>
    requires short { length bytes.now ≤ most_bytes }
    requires read { instance_text bytes.now ≡ Ok (read_of read.now) }
    ensures { MatchOption result
        (accepted (job_of job.now) bytes.now ≡ judged (job_of job.now) (read_of read.now))
        (λ line. accepted (job_of job.now) bytes.now ≡ Err (AfterEnd, line)) }
{
    if takes_text(job) {
        return None;
    }
    text_behind(bytes, read)
}
