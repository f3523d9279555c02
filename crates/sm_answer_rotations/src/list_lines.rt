//! The reduced lists as lines.

ghost use Rattle.std.specs.Prelude.{◌≡◌, ◌<◌, ◌≤◌, ◌^◌, ℕ, All, length, map, IfOk};
ghost use Rattle.sm_market.specs.Lists.{row};
ghost use Rattle.sm_market.specs.Vectors.{rows_of};
ghost use Rattle.sm_answer_rotations.specs.Reduction.{seat_of};

use crate::seat_lines::seat_of;
use sm_answer::Numbered;
use sm_lists::list_at;
use sm_report::{Line, Seat};
use sm_seats::Seats;
use std::alloc::{AllocError, Global};

/// The proposers' reduced lists.
#[derive(Drop)]
pub struct ProposerLists<'a> {
    pub seats: &'a Seats,
    pub rows: &'a [Vec<u32>],
    ghost few: { length rows.now < 2 ^ 32 },
    ghost named: { (p : ℕ) → All (λ k. k < length seats.now.seats) (row (rows_of rows.now) p) },
}

impl Numbered for ProposerLists<'_> {
    ghost use Rattle.sm_market.specs.Vectors.{rows_of};
    ghost use Rattle.sm_answer_rotations.specs.Reduction.{proposer_line};

    ghost line = { λ lists p. proposer_line lists.seats.now (rows_of lists.rows.now) p };

    ghost count = { λ lists. length lists.rows.now };

    fn count(&self) -> u32 {
        self.rows.len() as u32
    }

    fn line(&self, alloc: Global, p: u32) -> Result<Option<Line>, AllocError> {
        let seats = seats_of(alloc, self.seats, list_at(self.rows, p))?;
        Ok(Some(Line::ProposerList(p, seats)))
    }
}

/// The reduced lists of the seats.
#[derive(Drop)]
pub struct ReviewerLists<'a> {
    pub seats: &'a Seats,
    pub rows: &'a [Vec<u32>],
    ghost few: { length rows.now < 2 ^ 32 },
    ghost no_more: { length rows.now ≤ length seats.now.seats },
}

impl Numbered for ReviewerLists<'_> {
    ghost use Rattle.sm_market.specs.Vectors.{rows_of};
    ghost use Rattle.sm_answer_rotations.specs.Reduction.{reviewer_line};

    ghost line = { λ lists k. reviewer_line lists.seats.now (rows_of lists.rows.now) k };

    ghost count = { λ lists. length lists.rows.now };

    fn count(&self) -> u32 {
        self.rows.len() as u32
    }

    fn line(&self, alloc: Global, k: u32) -> Result<Option<Line>, AllocError> {
        let proposers = Vec::from_slice(alloc, list_at(self.rows, k))?;
        Ok(Some(Line::ReviewerList(seat_of(self.seats, k), proposers)))
    }
}

/// Some seats as they are shown.
fn seats_of(alloc: Global, seats: &Seats, numbers: &[u32]) -> Result<Vec<Seat>, AllocError>
    requires { All (λ k. k < length seats.now.seats) numbers.now }
    ensures { IfOk result (λ shown. shown.items ≡ map (seat_of seats.now) numbers.now) }
{
    let mut shown = Vec::with_capacity(alloc, numbers.len())?;
    for k in numbers {
        shown.push(seat_of(seats, *k))?;
    }
    Ok(shown)
}
