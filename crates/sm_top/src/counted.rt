//! An instance that was read, with what is counted of its seats.

ghost use Rattle.sm_top.specs.Counted.{IsCounted};

use sm_instance::Instance;
use sm_reader::Read;
use sm_seats::SeatCounts;
use sm_words::Form;

/// An instance with two sides that was read, what is counted of its seats, and the form in which its answer is written. Its seats
/// have few enough entries.
#[derive(Drop)]
pub(crate) struct Counted<'a> {
    pub(crate) read: &'a Read,
    pub(crate) instance: &'a Instance,
    pub(crate) counts: SeatCounts,
    pub(crate) form: Form,
    pub(crate) ghost counted: { IsCounted read.now.input instance.now counts },
}
