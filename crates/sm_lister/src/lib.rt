//! The stable matchings that conditions allow, one after the other in the order of their level vectors.
//!
//! [`Lister`] steps from one vector to the next one, from the closed set that it holds, in arrays that it keeps. [`Listing`] is an
//! iterator over its vectors with a limit; its law stands in [`laws`].
#![tactic(auto)]

mod bars;
pub mod laws;
mod lister;
mod listing;
mod start;
mod vector_walk;

pub use lister::Lister;
pub use listing::Listing;
