//! The rotation poset of a market: what each rotation needs, whom it moves where, and the closed sets, which are the stable
//! matchings.
//!
//! [`Poset::of`] makes it of a market and its complete chain, and [`Poset::with_needs`] where it is known what each rotation
//! needs. [`Poset::matching_of`] and [`Poset::set_of`] go from a closed set of rotations to its stable matching and back
//! (Irving and Leather 1986; Gusfield and Irving 1989, theorem 2.5.7).
#![tactic(auto)]

mod conditions;
mod digraph;
mod moves;
mod poset;
mod sets;

pub use conditions::Conditions;
pub use digraph::Digraph;
pub use poset::Poset;
