//! The rotations of a chain as lines, each with what it needs.

ghost use Rattle.std.specs.Prelude.{◌≡◌, ◌<◌, ◌^◌, ◌+◌, ℕ, All, length, IfOk};
ghost use Rattle.sm_market.specs.Lists.{row};
ghost use Rattle.sm_market.specs.Vectors.{rows_of};
ghost use Rattle.sm_report.specs.Lines.{line_of};
ghost use Rattle.sm_theory.specs.Chains.{rotation_at};
ghost use Rattle.sm_theory.specs.Values.{rotations_of};
ghost use Rattle.sm_answer_rotations.specs.RotationLines.{seated_rotation, numbers_of, rotation_line, needs_line};

use crate::seat_lines::seat_of;
use sm_answer::Answer;
use sm_lists::list_at;
use sm_report::{Line, Seat};
use sm_seats::Seats;
use sm_theory::Rotation;
use std::alloc::{AllocError, Global};

/// The rotations of a chain and what each of them needs.
#[derive(Drop)]
pub struct Rotations<'a> {
    /// The seats that the rotations move proposers from and to.
    pub seats: &'a Seats,
    /// The rotations, in the order of the chain.
    pub rotations: &'a [Rotation],
    /// For each rotation the numbers, from 0, of those that it needs, rising.
    pub needs: &'a [Vec<u32>],
    ghost few: { length rotations.now < 2 ^ 24 },
    ghost one_each: { length needs.now ≡ length rotations.now },
    ghost small: { (k : ℕ) → All (λ i. i < 2 ^ 24) (row (rows_of needs.now) k) },
    ghost named: { (k : ℕ) → All (λ pair. pair.1 < length seats.now.seats) (rotation_at
        (rotations_of rotations.now) k) },
}

/// Two lines for each rotation from one on: its pairs, and then what it needs.
#[derive(Drop)]
pub struct RotationLines<'a> {
    /// What the lines show.
    pub rows: Rotations<'a>,
    /// The number of the next rotation, from 0.
    pub next: u32,
    /// Whether the first line of the next rotation is given already.
    pub halfway: bool,
}

impl Answer for RotationLines<'_> {
    ghost use Rattle.std.specs.Prelude.{◌≡◌, ◌-◌, length};
    ghost use Rattle.sm_market.specs.Vectors.{rows_of};
    ghost use Rattle.sm_theory.specs.Values.{rotations_of};
    ghost use Rattle.sm_answer_rotations.specs.GivenLines.{lines_left, most_left};

    ghost gives = { λ s rest. rest
        ≡ lines_left s.halfway s.rows.seats.now (rotations_of s.rows.rotations.now)
        (rows_of s.rows.needs.now) s.next };

    ghost most = { λ s. most_left s.halfway (length s.rows.rotations.now - s.next) };

    #[tactic(auto, using(crate::proofs::RotationLemmas::rotation_given, crate::proofs::RotationLemmas::needs_given, crate::proofs::RotationLemmas::none_given))]
    fn next(&mut self, alloc: Global) -> Result<Option<Line>, AllocError> {
        if self.next >= self.rows.rotations.len() as u32 {
            return Ok(None);
        }
        if !self.halfway {
            let line = rotation_line(alloc, &self.rows, self.next)?;
            self.halfway = true;
            return Ok(Some(line));
        }
        let line = needs_line(alloc, &self.rows, self.next)?;
        self.halfway = false;
        self.next += 1;
        Ok(Some(line))
    }
}

/// The line of a rotation's pairs; rotations are numbered from 0, and from 1 in the line. Takes time linear in the pairs.
///
/// # Errors
///
/// `AllocError` where memory ran out, and only then.
pub fn rotation_line(alloc: Global, rows: &Rotations, k: u32) -> Result<Line, AllocError>
    requires { k < length rows.now.rotations.now }
    ensures { IfOk result (λ line. line_of line
        ≡ rotation_line rows.now.seats.now (rotations_of rows.now.rotations.now) k) }
{
    let pairs = seated_pairs(alloc, rows.seats, &rows.rotations[k as usize].pairs)?;
    Ok(Line::Rotation(k + 1, pairs))
}

/// The line of what a rotation needs; rotations are numbered from 0, and from 1 in the line. Takes time linear in the numbers.
///
/// # Errors
///
/// `AllocError` where memory ran out, and only then.
pub fn needs_line(alloc: Global, rows: &Rotations, k: u32) -> Result<Line, AllocError>
    requires { k < length rows.now.rotations.now }
    ensures { IfOk result (λ line. line_of line ≡ needs_line (rows_of rows.now.needs.now) k) }
{
    let numbers = numbers_of(alloc, list_at(rows.needs, k))?;
    Ok(Line::Needs(k + 1, numbers))
}

/// The pairs of a rotation with their seats as they are shown.
fn seated_pairs(
    alloc: Global,
    seats: &Seats,
    pairs: &[(u32, u32)],
) -> Result<Vec<(u32, Seat)>, AllocError>
    requires { All (λ pair. pair.1 < length seats.now.seats) pairs.now }
    ensures { IfOk result (λ shown. shown.items ≡ seated_rotation seats.now pairs.now) }
{
    let mut shown = Vec::with_capacity(alloc, pairs.len())?;
    for pair in pairs {
        shown.push((pair.0, seat_of(seats, pair.1)))?;
    }
    Ok(shown)
}

/// The numbers of rotations as they are shown, from 1.
fn numbers_of(alloc: Global, needed: &[u32]) -> Result<Vec<u32>, AllocError>
    requires { All (λ i. i < 2 ^ 24) needed.now }
    ensures { IfOk result (λ numbers. numbers.items ≡ numbers_of needed.now) }
{
    let mut numbers = Vec::with_capacity(alloc, needed.len())?;
    for k in needed {
        numbers.push(*k + 1)?;
    }
    Ok(numbers)
}
