//! Why no median is looked for.

use std::alloc::AllocError;

/// Why no median is looked for.
#[derive(Clone, Copy, Debug, PartialEq, Eq)]
pub enum MedianFault {
    /// More than [`crate::MOST_LISTED`] stable matchings are allowed.
    TooMany,
    /// Memory ran out. Nothing is said of the instance.
    OutOfMemory,
}

impl From<AllocError> for MedianFault {
    ghost use Rattle.std.specs.Prelude.{◌≡◌};
    ghost use Rattle.sm_answer_median.specs.declared.faults.MedianFault.TheVariants.{OutOfMemory};

    ghost from_gives = { λ _ e. e ≡ OutOfMemory };

    fn from(_error: AllocError) -> MedianFault {
        MedianFault::OutOfMemory
    }
}
