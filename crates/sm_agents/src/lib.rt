//! What instances of stable matching problems are made of, and what is checked of it: agents with their names, capacities and
//! lists, the pairs that are weighed, forced and forbidden, second weights, and the order of the proposers.
//!
//! Agents are numbered from 0 on each side, in the order of their declarations. [`checked`] and the other checks find the first
//! thing that stands in the way of an instance, as an [`InstanceFault`].
#![tactic(auto)]

mod agents;
mod checks;
mod faults;
mod kinds;
mod name_key;
mod name_tables;
mod names;
mod order;
mod pairs;
mod parts;
mod seconds;
mod spaced_sides;

pub use agents::{Agent, Assignment, capacity_at, count_entries, lent_lists, list_at, name_at};
pub use checks::{are_within_limits, check_entries, checked, checked_names};
pub use faults::InstanceFault;
pub use kinds::{Kind, Measure, Side};
pub use name_tables::{NameTables, find_named, names_for};
pub use names::Names;
pub use order::full_order;
pub use pairs::Pairs;
pub use parts::Parts;
pub use seconds::{checked_seconds, has_nonzero, set_seconds};
pub use spaced_sides::{SpacedSides, put_name_at, spaced_names};
