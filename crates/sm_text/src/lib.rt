//! Lines, names and numbers of texts, and a writer of lines.
//!
//! A text is bytes. A line ends at LF, or at the end of the text where its last byte isn't LF; one CR directly before the
//! LF, or as the last byte of the text, belongs to the line's end.
#![tactic(auto)]

mod limits;
mod lines;
mod names;
mod numbers;
mod refusal;
mod spaced_name;
mod text_hash;
mod tokens;
pub mod witnesses;
mod writer;

pub use limits::{
    MOST_AGENTS, MOST_BYTES, MOST_CAPACITY, MOST_ENTRIES, MOST_LIMIT, MOST_NAME_BYTES,
    MOST_SEAT_ENTRIES, MOST_WEIGHT,
};
pub use lines::{LineSpan, line_at, line_count};
pub use names::{begins_name, is_name, is_name_byte};
pub use numbers::{number, signed};
pub use refusal::RefusalKind;
pub use spaced_name::SpacedName;
pub use text_hash::{Digest, TextHash};
pub use tokens::{TokenAt, is, token_at};
pub use writer::LineWriter;
