//! Why a text isn't read.

use sm_text::RefusalKind;
use std::alloc::{AllocError, AllocFailed};

/// Why a text isn't read.
#[derive(Clone, Copy, Debug, PartialEq, Eq)]
pub enum TextFault {
    /// The text is refused for this reason, at the line of this number, counted from 1; a text that is too long is
    /// refused at 0.
    Refused(RefusalKind, u32),
    /// Memory ran out. Nothing is said of the text.
    OutOfMemory,
}

impl From<AllocError> for TextFault {
    ghost use Rattle.std.specs.Prelude.{◌≡◌};
    ghost use Rattle.sm_reader.specs.declared.faults.TextFault.TheVariants.{OutOfMemory};

    ghost from_gives = { λ _ e. e ≡ OutOfMemory };

    fn from(_error: AllocError) -> TextFault {
        TextFault::OutOfMemory
    }
}

impl<T: Drop> From<AllocFailed<T>> for TextFault {
    ghost use Rattle.std.specs.Prelude.{◌≡◌};
    ghost use Rattle.sm_reader.specs.declared.faults.TextFault.TheVariants.{OutOfMemory};

    ghost from_gives = { λ _ e. e ≡ OutOfMemory };

    fn from(_error: AllocFailed<T>) -> TextFault {
        TextFault::OutOfMemory
    }
}
