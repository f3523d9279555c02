//! Why no answer is judged.

use sm_seats::SeatsFault;
use std::alloc::AllocError;

/// Why no verdict is given on a text.
#[derive(Clone, Copy, Debug, PartialEq, Eq)]
pub enum CertFault {
    /// The first reviewer, from 0 in the order of the file, with whom the seats' lists have more than 1,048,576 entries.
    TooManySeats(u32),
    /// The first line, from the number that the first one was given, that isn't of an answer's form where it stands, or the
    /// one behind the last where the closing line is missing.
    BadAnswer(u32),
    /// Memory ran out. Nothing is said of the text.
    OutOfMemory,
}

impl From<AllocError> for CertFault {
    ghost use Rattle.std.specs.Prelude.{◌≡◌};
    ghost use Rattle.sm_cert.specs.declared.faults.CertFault.TheVariants.{OutOfMemory};

    ghost from_gives = { λ _ e. e ≡ OutOfMemory };

    fn from(_error: AllocError) -> CertFault {
        CertFault::OutOfMemory
    }
}

impl From<SeatsFault> for CertFault {
    ghost use Rattle.std.specs.Prelude.{◌≡◌};
    ghost use Rattle.sm_cert.specs.Checking.{of_seats};

    ghost from_gives = { λ f e. e ≡ of_seats f };

    fn from(fault: SeatsFault) -> CertFault {
        match fault {
            SeatsFault::TooManySeats(r) => CertFault::TooManySeats(r),
            SeatsFault::OutOfMemory => CertFault::OutOfMemory,
        }
    }
}
