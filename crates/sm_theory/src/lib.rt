//! The theory of the lattice of stable matchings: rotations, closed sets and the laws that tie them.
//!
//! [`laws`] states what holds of all markets, by functions that do nothing. [`successor`] and [`is_exposed`] tell of a
//! given matching what the laws speak of, and [`eliminate`] goes from one to the next (Gusfield and Irving 1989, chapters 1
//! to 3). [`chosen_place`] gives the better or the worse of two places.
#![tactic(auto)]

mod chain;
mod choice;
mod closed_set;
mod elimination;
mod flow_lines;
pub mod laws;
mod mark;
mod marks;
mod rotations;
mod step;
pub mod witnesses;

pub use chain::Chain;
pub use choice::{Choice, chosen_place};
pub use closed_set::ClosedSet;
pub use elimination::eliminate;
pub use flow_lines::{FlowLevel, FlowLine};
pub use mark::Mark;
pub use marks::{Marks, mark_span, note_movers};
pub use rotations::{Rotation, is_exposed, successor, would_take};
pub use step::Step;
