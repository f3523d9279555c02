//! A run over a source and a sink in memory.

use sm_io::{MemSink, MemSource};
use sm_tally::{CountTally, ProfileTally, RegretTally, SumTally, Tally};
use sm_top::run;
use std::alloc::{AllocError, Global};

/// The bytes for which a sink has room.
const ROOM: usize = 16_777_216;

/// The calls that fail in a run, each counted from 1.
#[derive(Clone, Copy, PartialEq)]
pub enum Failing {
    None,
    /// The read of this number.
    Read(u64),
    /// The write of this number, which takes at most so many bytes.
    Write(u64, u32),
}

/// What came of a run.
#[derive(Drop)]
pub struct Ran {
    /// The number of the status.
    pub status: u8,
    /// What is written.
    pub written: Vec<u8>,
    /// How many reads there were.
    pub reads: u64,
    /// How many writes there were.
    pub writes: u64,
}

/// A run with words on an input that comes in pieces of so many bytes, or of one where that is 0.
pub fn run_once(
    alloc: Global,
    words: &str,
    input: &[u8],
    piece: usize,
    failing: Failing,
) -> Result<Ran, AllocError> {
    let words = words_in(alloc, words)?;
    let mut reads = Vec::new(alloc);
    let mut writes = Vec::new(alloc);
    match failing {
        Failing::None => {}
        Failing::Read(call) => reads.push(call)?,
        Failing::Write(call, most) => writes.push((call, most))?,
    }
    let input = Vec::from_slice(alloc, input)?;
    let mut source = MemSource::new(input, piece.max(1), reads);
    let mut sink = MemSink::new(alloc, ROOM, writes)?;
    // A tally of each tag in rising order, as the program has them.
    let mut tallies: Vec<Box<dyn Tally>> = Vec::new(alloc);
    let count = Box::new(alloc, CountTally::new())?;
    tallies.push(count)?;
    let sum = Box::new(alloc, SumTally::new())?;
    tallies.push(sum)?;
    let regret = Box::new(alloc, RegretTally::new())?;
    tallies.push(regret)?;
    let profile = Box::new(alloc, ProfileTally::new())?;
    tallies.push(profile)?;
    let status = run(alloc, &words, &mut source, &mut sink, tallies).number();
    Ok(Ran {
        status,
        written: Vec::from_slice(alloc, sink.held())?,
        reads: source.calls(),
        writes: sink.calls(),
    })
}

/// The words of a text with a blank between each two.
fn words_in(alloc: Global, text: &str) -> Result<Vec<String>, AllocError> {
    let mut words = Vec::new(alloc);
    for word in text.split_whitespace() {
        words.push(String::from_str(alloc, word)?)?;
    }
    Ok(words)
}
