//! Why no answer is read.

use std::alloc::AllocError;

/// Why a text isn't read as an answer.
#[derive(Clone, Copy, Debug, PartialEq, Eq)]
pub enum AnswerFault {
    /// The first line, counted from 0, that isn't of an answer's form where it stands, or the one behind the last where the
    /// closing line is missing.
    Misplaced(u32),
    /// Memory ran out. Nothing is said of the text.
    OutOfMemory,
}

impl From<AllocError> for AnswerFault {
    ghost use Rattle.std.specs.Prelude.{◌≡◌};
    ghost use Rattle.sm_check_forms.specs.declared.answer_fault.AnswerFault.TheVariants.{OutOfMemory};

    ghost from_gives = { λ _ e. e ≡ OutOfMemory };

    fn from(_error: AllocError) -> AnswerFault {
        AnswerFault::OutOfMemory
    }
}
