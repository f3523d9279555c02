//! Instances of stable matching problems: named agents on two sides with written lists and capacities, weights of pairs
//! and conditions; and matchings of them.
//!
//! Agents are numbered from 0 on each side, in the order of their declarations. Places on a list are counted from 0, and
//! ranks from 1. A proposer and a reviewer are acceptable to each other when each lists the other; any other entry is
//! inert, and keeps its place (Manlove 2013, chapters 1 and 2; Gusfield and Irving 1989, chapter 1).
//!
//! [`Instance::build`] and [`Persons::build`] make instances, or name the first thing that stands in the way; `held` and
//! [`Parts::plain`] are for parts that are known to make one. Cross places and tables of names are kept on demand. Beside what
//! makes them, only [`Instance::reorder`] and [`Instance::add_seconds`] take memory.
#![tactic(auto)]

mod allowed;
mod blocking;
mod cross_search;
mod crosses;
mod inputs;
mod instance;
mod matching;
mod namings;
mod persons;
mod ranks;
pub mod witnesses;

pub use cross_search::CrossSearch;
pub use crosses::{Crosses, LentCrosses};
pub use inputs::Input;
pub use instance::Instance;
pub use matching::held_place;
pub use persons::Persons;
pub use sm_agents::{Agent, Assignment, InstanceFault, Kind, Measure, Parts, Side};
pub use sm_lists::Cross;
