//! The program `matchtrim`: [`sm_trim_top::run`] over the words of the command line, standard input and standard output.
//!
//! It ends with the number of the status. Where the system has no memory for the words it ends with 4, and where it refuses the
//! words for another cause with 8; nothing is written then.
#![tactic(auto)]

use sm_io::{ReadSource, WriteSink};
use sm_trim_top::run;
use std::io::ErrorKind;
use std::process::ExitCode;
use std::{env, io};

/// The system has no memory for the words.
const NO_MEMORY: u8 = 4;

/// The system refuses the words for another cause.
const NO_WORDS: u8 = 8;

fn main(rt: HostRuntime) -> ExitCode {
    let words = match words(&rt) {
        Ok(words) => words,
        Err(error) => return ExitCode::from(status_of(error.kind())),
    };
    let mut source = ReadSource::new(rt.reader());
    let mut sink = WriteSink::new(io::writer(&rt));
    ExitCode::from(run(rt.alloc(), &words, &mut source, &mut sink).number())
}

/// The words behind the program's name.
fn words(rt: &HostRuntime) -> io::Result<Vec<String>> {
    Ok(env::args(rt)?.skip(1).collect(rt.alloc())?)
}

/// The status where there are no words.
fn status_of(kind: ErrorKind) -> u8 {
    match kind {
        ErrorKind::OutOfMemory => NO_MEMORY,
        _ => NO_WORDS,
    }
}
