//! The rotations of a chain as lines, each with what it needs and its gain.

ghost use Rattle.std.specs.Prelude.{◌≡◌, length};

use crate::lightest_parts::Lightest;
use sm_answer::Answer;
use sm_answer_rotations::{Rotations, needs_line, rotation_line};
use sm_report::Line;
use std::alloc::{AllocError, Global};

/// The lines of a rotation, in turn.
#[derive(Debug, Clone, Copy, PartialEq, Eq)]
pub enum RotationPart {
    Pairs,
    Needs,
    Gain,
    /// The gain by second weights, in two levels alone.
    SecondGain,
}

/// The lines for each rotation from the one with the number `next` on, counted from 0: its pairs, what it needs, its gain, and in
/// two levels its second gain.
#[derive(Drop)]
pub struct GainedLines<'a> {
    pub rows: Rotations<'a>,
    pub found: &'a Lightest,
    pub next: u32,
    /// The line of the next rotation that comes first; those before it are given already.
    pub part: RotationPart,
    ghost one_each: { length found.now.in_market.gains.items ≡ length rows.rotations.now },
    ghost second_each: { length found.now.in_market.gains2.items ≡ length rows.rotations.now },
}

impl Answer for GainedLines<'_> {
    ghost use Rattle.std.specs.Prelude.{◌≡◌, ◌-◌, length};
    ghost use Rattle.sm_market.specs.Vectors.{rows_of};
    ghost use Rattle.sm_theory.specs.Values.{rotations_of};
    ghost use Rattle.sm_answer_weight.specs.Given.{rows_found, gained_left, most_gained};

    ghost gives = { λ s rest. rest ≡ gained_left s.part s.rows.seats.now
        (rows_found s.found.now (rotations_of s.rows.rotations.now) (rows_of s.rows.needs.now))
        s.next };

    ghost most = { λ s. most_gained s.part (length s.rows.rotations.now - s.next) };

    #[tactic(auto, using(crate::proofs::RowLemmas::pairs_given, crate::proofs::RowLemmas::needs_given, crate::proofs::RowLemmas::gain_given, crate::proofs::RowLemmas::gain_before_second, crate::proofs::RowLemmas::second_given, crate::proofs::RowLemmas::gained_over))]
    fn next(&mut self, alloc: Global) -> Result<Option<Line>, AllocError> {
        if self.next >= self.rows.rotations.len() as u32 {
            return Ok(None);
        }
        match self.part {
            RotationPart::Pairs => {
                let line = rotation_line(alloc, &self.rows, self.next)?;
                self.part = RotationPart::Needs;
                Ok(Some(line))
            }
            RotationPart::Needs => {
                let line = needs_line(alloc, &self.rows, self.next)?;
                self.part = RotationPart::Gain;
                Ok(Some(line))
            }
            RotationPart::Gain => {
                let gain = self.found.in_market.gains[self.next as usize];
                let line = Line::Gain(self.next + 1, gain);
                if self.found.two_levels {
                    self.part = RotationPart::SecondGain;
                    return Ok(Some(line));
                }
                self.part = RotationPart::Pairs;
                self.next += 1;
                Ok(Some(line))
            }
            RotationPart::SecondGain => {
                let gain = self.found.in_market.gains2[self.next as usize];
                let line = Line::SecondGain(self.next + 1, gain);
                self.part = RotationPart::Pairs;
                self.next += 1;
                Ok(Some(line))
            }
        }
    }
}
