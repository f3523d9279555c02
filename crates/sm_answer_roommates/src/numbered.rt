//! Couples, parties and those who are left out as lines.

ghost use Rattle.std.specs.Prelude.{◌≡◌, ◌<◌, ◌^◌, length, Some};
ghost use Rattle.std.specs.Option.{option_map};
ghost use Rattle.sm_report.specs.Lines.{line_of};
ghost use Rattle.sm_answer_roommates.specs.RoomAnswer.{couple_with};

use sm_answer::Numbered;
use sm_lists::list_at;
use sm_report::Line;
use std::alloc::{AllocError, Global};

/// The couples of a matching, by the mate of each person: the lower-numbered person first, in the order of these.
#[derive(Drop)]
pub struct CoupleLines<'a> {
    pub mates: &'a [Option<u32>],
    ghost few: { length mates.now < 2 ^ 32 },
}

impl Numbered for CoupleLines<'_> {
    ghost use Rattle.std.specs.Prelude.{length};
    ghost use Rattle.sm_answer_roommates.specs.RoomAnswer.{couple_line};

    ghost line = { λ couples x. couple_line couples.mates.now x };

    ghost count = { λ couples. length couples.mates.now };

    fn count(&self) -> u32 {
        self.mates.len() as u32
    }

    fn line(&self, _alloc: Global, x: u32) -> Result<Option<Line>, AllocError> {
        match self.mates[x as usize] {
            Some(y) => Ok(couple(x, y)),
            None => Ok(None),
        }
    }
}

/// The line of a person and its mate, where the mate has the higher number.
fn couple(x: u32, y: u32) -> Option<Line>
    ensures { option_map line_of result ≡ couple_with x (Some y) }
{
    if x < y { Some(Line::Pair(x, y)) } else { None }
}

/// The parties of a partition.
#[derive(Drop)]
pub struct PartyLines<'a> {
    pub parties: &'a [Vec<u32>],
    ghost few: { length parties.now < 2 ^ 32 },
}

impl Numbered for PartyLines<'_> {
    ghost use Rattle.std.specs.Prelude.{length};
    ghost use Rattle.sm_lists.specs.Rows.{rows_of};
    ghost use Rattle.sm_answer_roommates.specs.RoomAnswer.{party_line};

    ghost line = { λ lines k. party_line (rows_of lines.parties.now) k };

    ghost count = { λ lines. length lines.parties.now };

    fn count(&self) -> u32 {
        self.parties.len() as u32
    }

    fn line(&self, alloc: Global, k: u32) -> Result<Option<Line>, AllocError> {
        let party = Vec::from_slice(alloc, list_at(self.parties, k))?;
        Ok(Some(Line::Party(party)))
    }
}

/// Those who are left out.
#[derive(Drop)]
pub struct OutLines<'a> {
    pub out: &'a [u32],
    ghost few: { length out.now < 2 ^ 32 },
}

impl Numbered for OutLines<'_> {
    ghost use Rattle.std.specs.Prelude.{length};
    ghost use Rattle.sm_answer_roommates.specs.RestAnswer.{out_line};

    ghost line = { λ lines k. out_line lines.out.now k };

    ghost count = { λ lines. length lines.out.now };

    fn count(&self) -> u32 {
        self.out.len() as u32
    }

    fn line(&self, _alloc: Global, k: u32) -> Result<Option<Line>, AllocError> {
        Ok(Some(Line::Out(self.out[k as usize])))
    }
}
