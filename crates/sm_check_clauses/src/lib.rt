//! What an answer has to keep, clause by clause, and how its lines are gone along.
//!
//! `specs` has the table of clauses for each head, by the definitions of the field alone. An answer is judged line by line: at
//! each line the clauses are tried in the order of their reasons, and the first that fails is the verdict. A [`Judge`] says which
//! clause a line breaks, and [`judge_lines`] finds the first line that breaks one. A [`ChainWalk`] eliminates the rotations that an
//! answer writes, one after another.
#![tactic(auto)]

mod chain_walk;
mod judging;
mod seat_pairs;
mod verdicts;

pub use chain_walk::{ChainWalk, from_zero, is_up_to_rotations};
pub use judging::{Judge, judge_lines};
pub use seat_pairs::{SeatPairs, is_unblocked};
pub use verdicts::{Reason, Verdict};
