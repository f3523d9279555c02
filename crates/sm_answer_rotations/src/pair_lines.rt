//! The pairs of a matching as lines.

ghost use Rattle.std.specs.Prelude.{◌≡◌, length};
ghost use Rattle.sm_market.specs.Pairing.{IsPairingOf};

use sm_answer::Numbered;
use sm_market::Pairing;
use sm_report::Line;
use sm_seats::Seats;
use std::alloc::{AllocError, Global};

/// The pairs of a matching of seats, each proposer with its seat's reviewer, in the order of the proposers.
#[derive(Drop)]
pub struct PairLines<'a> {
    pub seats: &'a Seats,
    pub pairing: &'a Pairing,
    ghost made: { IsPairingOf seats.now.market pairing.now },
    ghost one_each: { length seats.now.market.reviewers ≡ length seats.now.seats },
}

impl Numbered for PairLines<'_> {
    ghost use Rattle.std.specs.Prelude.{length};
    ghost use Rattle.sm_answer_rotations.specs.PairLines.{seated_pair_line};

    ghost line = { λ pairs p. seated_pair_line pairs.seats.now pairs.pairing.now.places p };

    ghost count = { λ pairs. length pairs.seats.now.market.proposers };

    fn count(&self) -> u32 {
        self.seats.market().proposers()
    }

    fn line(&self, _alloc: Global, p: u32) -> Result<Option<Line>, AllocError> {
        match self.pairing.place(p) {
            Some(place) => {
                let seat = self.seats.market().reviewer_at(p, place);
                Ok(Some(Line::Pair(p, self.seats.seat(seat).0)))
            }
            None => Ok(None),
        }
    }
}
