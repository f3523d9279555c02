//! A worked run, as the table has it.

use serde::Deserialize;

/// A worked run: its words, its input, and what comes of it.
#[derive(Drop, Deserialize)]
#[serde(deny_unknown_fields)]
pub struct Case {
    /// What it shows.
    pub shows: String,
    /// The words, with a blank between each two.
    pub words: String,
    /// What is read; where nothing is said, what the case before read.
    pub input: Option<Input>,
    /// What follows the input.
    pub behind: Option<Behind>,
    /// The number of the status.
    pub status: u8,
    /// What is written; where nothing is said, anything.
    pub output: Option<Output>,
    /// The calls that fail; none where nothing is said.
    pub faults: Option<Faults>,
}

/// What is read.
#[derive(Drop, Deserialize)]
#[serde(untagged)]
pub enum Input {
    /// Lines, each with its end.
    Lines(Vec<Line>),
    /// A text as it stands.
    Text(String),
    /// What the program itself writes for words.
    Made { words: String },
    /// A text, so many times.
    Filled { text: String, times: u32 },
    /// The first lines of what the case before read, so many.
    Front { front: usize },
}

/// A line, or several that differ in numbers alone.
#[derive(Drop, Deserialize)]
#[serde(untagged)]
pub enum Line {
    /// The line.
    One(String),
    /// As many lines as `times`, in which `@` stands for the numbers from 1. Behind the text come a blank and `name` with each
    /// number from 1 to `names`.
    Each {
        line: String,
        times: u32,
        name: Option<String>,
        names: Option<u32>,
    },
}

/// What follows an input, from what the case before wrote.
#[derive(Clone, Copy, Drop, Deserialize)]
#[serde(rename_all = "snake_case")]
pub enum Behind {
    /// Its answer.
    Answer,
    /// The pairs of its answer, as both given matchings.
    BothSides,
}

/// What is written.
#[derive(Drop, Deserialize)]
#[serde(untagged)]
pub enum Output {
    /// Lines, each with its end.
    Lines(Vec<Line>),
    /// A text as it stands.
    Text(String),
    /// One of several answers.
    Either {
        either: Vec<Vec<Line>>,
    },
    /// So many lines, the first and the last of which are these.
    Outline {
        lines: usize,
        first: String,
        last: String,
    },
}

/// The calls that fail, counted from 1.
#[derive(Clone, Copy, Drop, Deserialize)]
#[serde(rename_all = "snake_case")]
pub enum Faults {
    /// The read of this number.
    Read(u64),
    /// The write of this number, which takes at most so many bytes.
    Write(u64, u32),
    /// Each read in turn, until a run ends with `Done`. The status is that of the runs before it, which write nothing.
    EachRead,
    /// Each of the first five writes in turn, which takes nothing or four bytes.
    EachWrite,
}
