//! What `matchtrim` writes is the text of the instance to which it trimmed the one that it read.
#![tactic(auto)]

pub mod laws;
