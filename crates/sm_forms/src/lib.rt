//! The forms of the lines of an instance's text.
#![tactic(auto)]

mod forms;

pub use forms::{Condition, Form, form_under, header_of, is_end};
