//! The seats of a pairing as lines.

ghost use Rattle.std.specs.Prelude.{◌≡◌, ◌<◌, length};
ghost use Rattle.sm_market.specs.Pairing.{IsPairingOf};
ghost use Rattle.sm_report.specs.Lines.{line_of};
ghost use Rattle.sm_answer_rotations.specs.Reduction.{seat_of, best_seat};

use sm_answer::Numbered;
use sm_instance::Side;
use sm_market::Pairing;
use sm_report::{Line, Seat};
use sm_seats::Seats;
use std::alloc::{AllocError, Global};

/// The seats of the proposers in the best matching of a side, in the order of the proposers.
#[derive(Drop)]
pub struct SeatLines<'a> {
    pub side: Side,
    pub seats: &'a Seats,
    pub pairing: &'a Pairing,
    ghost made: { IsPairingOf seats.now.market pairing.now },
    ghost one_each: { length seats.now.market.reviewers ≡ length seats.now.seats },
}

/// A seat, numbered from 0, as it is shown: its reviewer, numbered from 0, and its number there, from 1. Takes constant time.
pub(crate) fn seat_of(seats: &Seats, seat: u32) -> Seat
    requires { seat < length seats.now.seats }
    ensures { result ≡ seat_of seats.now seat }
{
    let (reviewer, number) = seats.seat(seat);
    Seat { reviewer, number }
}

/// The line of a proposer and its seat in the best matching of a side.
fn best_seat(side: Side, p: u32, seat: Seat) -> Line
    ensures { line_of result ≡ best_seat side p seat }
{
    match side {
        Side::Proposers => Line::First(p, seat),
        Side::Reviewers => Line::Last(p, seat),
    }
}

impl Numbered for SeatLines<'_> {
    ghost use Rattle.std.specs.Prelude.{length};
    ghost use Rattle.sm_answer_rotations.specs.Reduction.{seat_line};

    ghost line = { λ lines p. seat_line lines.side lines.seats.now lines.pairing.now.places p };

    ghost count = { λ lines. length lines.seats.now.market.proposers };

    fn count(&self) -> u32 {
        self.seats.market().proposers()
    }

    fn line(&self, _alloc: Global, p: u32) -> Result<Option<Line>, AllocError> {
        match self.pairing.place(p) {
            Some(place) => {
                let seat = self.seats.market().reviewer_at(p, place);
                Ok(Some(best_seat(self.side, p, seat_of(self.seats, seat))))
            }
            None => Ok(None),
        }
    }
}
