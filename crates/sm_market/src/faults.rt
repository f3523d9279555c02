//! Why lists make no market, and places no pairing.

use std::alloc::{AllocError, AllocFailed};

/// One of the two sides of a market.
#[derive(Clone, Copy, Debug, PartialEq, Eq)]
pub enum Side {
    Proposers,
    Reviewers,
}

/// Why lists make no market: the first faulty entry, by its side, its agent and its place on that agent's list.
/// The proposers' lists come first, then agents by number, then places. All are numbered from 0.
#[derive(Clone, Copy, Debug, PartialEq, Eq)]
pub enum MarketFault {
    /// The entry names no agent of the other side.
    OutOfRange(Side, u32, u32),
    /// The entry names an agent that stands earlier on the same list.
    Repeated(Side, u32, u32),
    /// The entry names an agent that doesn't list the agent in turn.
    NotMutual(Side, u32, u32),
    /// Memory ran out. Nothing is said of the lists.
    OutOfMemory,
}

impl From<AllocError> for MarketFault {
    ghost use Rattle.std.specs.Prelude.{◌≡◌};
    ghost use Rattle.sm_market.specs.declared.faults.MarketFault.TheVariants.{OutOfMemory};

    ghost from_gives = { λ _ e. e ≡ OutOfMemory };

    fn from(_error: AllocError) -> MarketFault {
        MarketFault::OutOfMemory
    }
}

impl<T: Drop> From<AllocFailed<T>> for MarketFault {
    ghost use Rattle.std.specs.Prelude.{◌≡◌};
    ghost use Rattle.sm_market.specs.declared.faults.MarketFault.TheVariants.{OutOfMemory};

    ghost from_gives = { λ _ e. e ≡ OutOfMemory };

    fn from(_error: AllocFailed<T>) -> MarketFault {
        MarketFault::OutOfMemory
    }
}

/// Why places make no pairing. The faults are tried in this order.
#[derive(Clone, Copy, Debug, PartialEq, Eq)]
pub enum PairingFault {
    /// There isn't one place for each proposer.
    WrongLength,
    /// The first proposer whose place is past the end of its list.
    OutOfRange(u32),
    /// The first proposer whose reviewer an earlier proposer has.
    Taken(u32),
    /// Memory ran out. Nothing is said of the places.
    OutOfMemory,
}

impl From<AllocError> for PairingFault {
    ghost use Rattle.std.specs.Prelude.{◌≡◌};
    ghost use Rattle.sm_market.specs.declared.faults.PairingFault.TheVariants.{OutOfMemory};

    ghost from_gives = { λ _ e. e ≡ OutOfMemory };

    fn from(_error: AllocError) -> PairingFault {
        PairingFault::OutOfMemory
    }
}
