//! How a run ended.

ghost use Rattle.std.specs.Prelude.{◌≡◌};
ghost use Rattle.sm_serve.specs.Statuses.{number_of_status};

use sm_check_clauses::Reason;
use sm_text::RefusalKind;

/// How a run ended.
#[derive(Clone, Copy, Debug, PartialEq, Eq)]
pub enum Status {
    /// The answer is written.
    Done,
    /// The input is refused, for this reason and at this line, counted from 1; 0 stands for the whole input.
    Refused(RefusalKind, u32),
    /// The word of this number, counted from 1, is faulty.
    Usage(u32),
    /// The answer is written: there is no such matching.
    NoneExists,
    /// There was no memory for the work.
    OutOfMemory,
    /// The source failed.
    ReadFault,
    /// The sink failed.
    WriteFault,
    /// The answer is written: the answer that was given isn't right. The first line at which a clause fails, counted from 1, and
    /// why.
    CheckedNo(u32, Reason),
}

impl Status {
    /// The number from 0 to 7 with which the program ends, one for each kind of end. Takes constant time.
    pub fn number(&self) -> u8
        ensures { result ≡ number_of_status self.now }
    {
        match self {
            Status::Done => 0,
            Status::Refused(_, _) => 1,
            Status::Usage(_) => 2,
            Status::NoneExists => 3,
            Status::OutOfMemory => 4,
            Status::ReadFault => 5,
            Status::WriteFault => 6,
            Status::CheckedNo(_, _) => 7,
        }
    }
}
