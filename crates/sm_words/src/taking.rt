//! What a job takes.

ghost use Rattle.std.specs.Prelude.{◌≡◌};
ghost use Rattle.sm_words.specs.Jobs.{job_of};
ghost use Rattle.sm_words.specs.Takes.{takes_text, takes_rooms_alone, judges_answer};

use crate::jobs::Job;

/// Does a job take text behind `end`? Takes constant time.
pub fn takes_text(job: &Job) -> bool
    ensures { result ≡ takes_text (job_of job.now) }
{
    match job {
        Job::Solve(_)
        | Job::Reduced
        | Job::Rotations
        | Job::List(_, _)
        | Job::Pairs
        | Job::Regret
        | Job::Weight(_)
        | Job::Survey(_)
        | Job::Make(_, _, _, _)
        | Job::Rest
        | Job::Median
        | Job::Export => false,
        Job::Meet | Job::Join | Job::Check | Job::Route => true,
    }
}

/// Does a job take roommates alone? Takes constant time.
pub fn takes_rooms_alone(job: &Job) -> bool
    ensures { result ≡ takes_rooms_alone (job_of job.now) }
{
    match job {
        Job::Rest => true,
        _ => false,
    }
}

/// Does a job judge the answer behind `end`? Takes constant time.
pub fn judges_answer(job: &Job) -> bool
    ensures { result ≡ judges_answer (job_of job.now) }
{
    match job {
        Job::Check => true,
        _ => false,
    }
}
