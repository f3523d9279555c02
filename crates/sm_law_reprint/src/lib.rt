//! A printed instance is read back: what is printed for an instance is the text of this instance, and its JSON stands for that
//! text.
#![tactic(auto)]

pub mod exported;
pub mod laws;
pub mod witnesses;
