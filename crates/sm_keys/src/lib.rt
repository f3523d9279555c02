//! Names as a text has them: the tokens of a line, keys of a set, guesses at the indexes that they got there, and the names of
//! one side by index.
#![tactic(auto)]

mod key;
mod known;
mod long;
mod names;
mod recent;
mod repeats;
mod text_key;
mod tokens;

pub use key::Key;
pub use long::cut_enough;
pub use names::Names;
pub use recent::Recent;
pub use repeats::has_repeated;
pub use text_key::TextKey;
pub use tokens::{Found, Head, head_of, is_run, line_from};
