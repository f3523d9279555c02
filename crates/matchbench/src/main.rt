//! The program `matchbench`: [`sm_top::run`] over the words of the command line, standard input and standard output, with a
//! tally of each tag in rising order.
//!
//! It ends with the number of the status. Where the system has no memory for the words or the tallies it ends with 4, and
//! where it refuses the words for another cause with 8; nothing is written then.
#![tactic(auto)]

use sm_io::{ReadSource, WriteSink};
use sm_tally::{CountTally, ProfileTally, RegretTally, SumTally, Tally};
use sm_top::run;
use std::alloc::Global;
use std::io::ErrorKind;
use std::process::ExitCode;
use std::{env, io};

/// The system has no memory for the words or the tallies.
const NO_MEMORY: u8 = 4;

/// The system refuses the words for another cause.
const NO_WORDS: u8 = 8;

/// A block that is nearly as large as the largest one after which the C library keeps memory.
const LARGE: usize = 33_000_000;

fn main(rt: HostRuntime) -> ExitCode {
    let words = match words(&rt) {
        Ok(words) => words,
        Err(error) => return ExitCode::from(status_of(error.kind())),
    };
    let alloc = rt.alloc();
    keep_memory(alloc);
    let mut tallies: Vec<Box<dyn Tally>> = Vec::new(alloc);
    let (Ok(count), Ok(sum), Ok(regret), Ok(profile)) = (
        Box::new(alloc, CountTally::new()),
        Box::new(alloc, SumTally::new()),
        Box::new(alloc, RegretTally::new()),
        Box::new(alloc, ProfileTally::new()),
    ) else {
        return ExitCode::from(NO_MEMORY);
    };
    if tallies.push(count).is_err()
        || tallies.push(sum).is_err()
        || tallies.push(regret).is_err()
        || tallies.push(profile).is_err()
    {
        return ExitCode::from(NO_MEMORY);
    }
    let mut source = ReadSource::new(rt.reader());
    let mut sink = WriteSink::new(io::writer(&rt));
    ExitCode::from(run(alloc, &words, &mut source, &mut sink, tallies).number())
}

/// Has the C library keep memory that is given back, so that the pages of a text serve the lists that come after it. It gives
/// large blocks back to the system, and has each page of the next one made anew, until a large block was taken and given back.
/// No page of this one is touched.
fn keep_memory(alloc: Global) {
    let _ = Vec::<u8>::with_capacity(alloc, LARGE);
}

/// The words behind the program's name.
fn words(rt: &HostRuntime) -> io::Result<Vec<String>> {
    Ok(env::args(rt)?.skip(1).collect(rt.alloc())?)
}

/// The status where there are no words.
fn status_of(kind: ErrorKind) -> u8 {
    match kind {
        ErrorKind::OutOfMemory => NO_MEMORY,
        _ => NO_WORDS,
    }
}
