//! Why what was given makes no instance, or can't be set in one.

use crate::kinds::Side;
use std::alloc::{AllocError, AllocFailed};

/// Why what was given makes no instance, or can't be set in one. The faults of a build are tried in this order, and each
/// but `TooMany` names its first place. Agents, places and items are numbered from 0.
#[derive(Clone, Copy, Debug, PartialEq, Eq)]
pub enum InstanceFault {
    /// A side has more than 4,096 agents, or the lists together have more than 524,288 entries.
    TooMany,
    /// The agent's name isn't a name or stands earlier on its side, or its capacity is above 4,096 or isn't 1 where it
    /// has to be.
    BadAgent(Side, u32),
    /// The entry at this place of the agent's list names nobody, or an agent that stands earlier on the list.
    BadEntry(Side, u32, u32),
    /// The item of this number, through the weights, the forced and the forbidden pairs, names an agent that isn't there,
    /// has a weight of a size above 1,000,000,000 or weighs a pair again.
    BadPair(u32),
    /// The order that was to be set doesn't have each proposer once.
    BadOrder,
    /// Memory ran out. Nothing is said of the rest.
    OutOfMemory,
}

impl From<AllocError> for InstanceFault {
    ghost use Rattle.std.specs.Prelude.{◌≡◌};
    ghost use Rattle.sm_agents.specs.declared.faults.InstanceFault.TheVariants.{OutOfMemory};

    ghost from_gives = { λ _ e. e ≡ OutOfMemory };

    fn from(_error: AllocError) -> InstanceFault {
        InstanceFault::OutOfMemory
    }
}

impl<T: Drop> From<AllocFailed<T>> for InstanceFault {
    ghost use Rattle.std.specs.Prelude.{◌≡◌};
    ghost use Rattle.sm_agents.specs.declared.faults.InstanceFault.TheVariants.{OutOfMemory};

    ghost from_gives = { λ _ e. e ≡ OutOfMemory };

    fn from(_error: AllocFailed<T>) -> InstanceFault {
        InstanceFault::OutOfMemory
    }
}
