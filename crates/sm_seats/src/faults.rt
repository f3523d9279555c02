//! Why an instance has no seats.

use std::alloc::{AllocError, AllocFailed};

/// Why an instance's seats aren't made.
#[derive(Clone, Copy, Debug, PartialEq, Eq)]
pub enum SeatsFault {
    /// The first reviewer, from 0 in the order of the file, with whom the seats' lists have more than 1,048,576 entries.
    TooManySeats(u32),
    /// Memory ran out. Nothing is said of the seats.
    OutOfMemory,
}

impl From<AllocError> for SeatsFault {
    ghost use Rattle.std.specs.Prelude.{◌≡◌};
    ghost use Rattle.sm_seats.specs.declared.faults.SeatsFault.TheVariants.{OutOfMemory};

    ghost from_gives = { λ _ e. e ≡ OutOfMemory };

    fn from(_error: AllocError) -> SeatsFault {
        SeatsFault::OutOfMemory
    }
}

impl<T: Drop> From<AllocFailed<T>> for SeatsFault {
    ghost use Rattle.std.specs.Prelude.{◌≡◌};
    ghost use Rattle.sm_seats.specs.declared.faults.SeatsFault.TheVariants.{OutOfMemory};

    ghost from_gives = { λ _ e. e ≡ OutOfMemory };

    fn from(_error: AllocFailed<T>) -> SeatsFault {
        SeatsFault::OutOfMemory
    }
}
