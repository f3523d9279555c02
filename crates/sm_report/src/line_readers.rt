//! The fields behind the words of lines, read.

ghost use Rattle.std.specs.Prelude.{◌≡◌, IfOk, option_map};
ghost use Rattle.std.specs.Option.{option_and_then};
ghost use Rattle.sm_report.specs.Lines.{line_of, LineData};
ghost use Rattle.sm_report.specs.Vectors.{vector_in};
ghost use Rattle.sm_report.specs.Meanings.{bare_in, one_of, small_in, large_in, signed_in, rotation_in, left_in, pair_in, seated_in, proposer_in, reviewer_in, rotation_with_pairs_in, needs_in, tally_in, gain_in, flow_in, no_in};
ghost use Rattle.sm_text.specs.Slices.{texts_of};

use crate::field_readers::{end_in, left_in, reason_in, right_in, rotation_in, seat_in};
use crate::fields_of::{headed, one, three, two};
use crate::lines::{Line, Seat};
use crate::list_readers::{figures_in, lefts_in, rising_in, seated_pairs_in, seats_in};
use crate::vectors::{small_number, vector_in};
use sm_instance::Input;
use sm_text::{number, signed};
use std::alloc::{AllocError, Global};

/// A line that has no fields behind its word.
#[tactic(auto, unfolding(crate::specs::Meanings::bare_in))]
pub(crate) fn bare_in(line: Line, fields: &[&[u8]]) -> Option<Line>
    ensures { bare_in (line_of line) (texts_of fields.now) ≡ option_map line_of result }
{
    if fields.is_empty() { Some(line) } else { None }
}

/// A number of 32 bits.
pub(crate) fn small_in(fields: &[&[u8]]) -> Option<u32>
    ensures { result ≡ option_and_then small_in (one_of (texts_of fields.now)) }
{
    small_number(one(fields)?)
}

/// A number of 64 bits.
pub(crate) fn large_in(fields: &[&[u8]]) -> Option<u64>
    ensures { result ≡ option_and_then large_in (one_of (texts_of fields.now)) }
{
    number(one(fields)?, u64::MAX)
}

/// A signed number.
pub(crate) fn total_in(fields: &[&[u8]]) -> Option<i64>
    ensures { result ≡ option_and_then signed_in (one_of (texts_of fields.now)) }
{
    signed(one(fields)?, i64::MAX)
}

/// The number of a rotation.
pub(crate) fn step_in(fields: &[&[u8]]) -> Option<u32>
    ensures { result ≡ option_and_then rotation_in (one_of (texts_of fields.now)) }
{
    rotation_in(one(fields)?)
}

/// A proposer, in roommates a person.
pub(crate) fn person_in(input: &Input, fields: &[&[u8]]) -> Option<u32>
    ensures { result ≡ option_and_then (left_in input.now) (one_of (texts_of fields.now)) }
{
    left_in(input, one(fields)?)
}

/// A vector.
pub(crate) fn only_vector_in(
    alloc: Global,
    fields: &[&[u8]],
) -> Result<Option<Vec<u32>>, AllocError>
    ensures { IfOk result (λ found. option_and_then vector_in (one_of (texts_of fields.now))
        ≡ option_map (λ v. v.items) found) }
{
    match one(fields) {
        Some(text) => vector_in(alloc, text),
        None => Ok(None),
    }
}

/// Two agents.
pub(crate) fn pair_in(input: &Input, fields: &[&[u8]]) -> Option<(u32, u32)>
    ensures { result ≡ pair_in input.now (texts_of fields.now) }
{
    let (p, r) = two(fields)?;
    Some((left_in(input, p)?, right_in(input, r)?))
}

/// A proposer and a seat.
pub(crate) fn seated_in(input: &Input, fields: &[&[u8]]) -> Option<(u32, Seat)>
    ensures { result ≡ seated_in input.now (texts_of fields.now) }
{
    let (p, seat) = two(fields)?;
    Some((left_in(input, p)?, seat_in(input, seat)?))
}

/// A rotation and what it adds.
pub(crate) fn gain_in(fields: &[&[u8]]) -> Option<(u32, i64)>
    ensures { result ≡ gain_in (texts_of fields.now) }
{
    let (rotation, gain) = two(fields)?;
    Some((rotation_in(rotation)?, signed(gain, i64::MAX)?))
}

/// Two ends and what flows between them.
pub(crate) fn flow_in(fields: &[&[u8]]) -> Option<((u32, u32), u64)>
    ensures { result ≡ flow_in (texts_of fields.now) }
{
    let (from, to, amount) = three(fields)?;
    Some(((end_in(from)?, end_in(to)?), number(amount, u64::MAX)?))
}

/// A line's number and a reason.
pub(crate) fn no_in(fields: &[&[u8]]) -> Option<(u32, u32)>
    ensures { result ≡ no_in (texts_of fields.now) }
{
    let (at, reason) = two(fields)?;
    Some((small_number(at)?, reason_in(reason)?))
}

/// A proposer and its list.
pub(crate) fn proposer_in(
    alloc: Global,
    input: &Input,
    fields: &[&[u8]],
) -> Result<Option<Line>, AllocError>
    ensures { IfOk result (λ found. option_map (λ x. LineData.ProposerList x.0 x.1)
        (proposer_in input.now (texts_of fields.now)) ≡ option_map line_of found) }
{
    let Some((p, list)) = headed(fields) else {
        return Ok(None);
    };
    let Some(p) = left_in(input, p) else {
        return Ok(None);
    };
    Ok(seats_in(alloc, input, list)?.map(|seats| Line::ProposerList(p, seats)))
}

/// A seat and its list.
pub(crate) fn reviewer_in(
    alloc: Global,
    input: &Input,
    fields: &[&[u8]],
) -> Result<Option<Line>, AllocError>
    ensures { IfOk result (λ found. option_map (λ x. LineData.ReviewerList x.0 x.1)
        (reviewer_in input.now (texts_of fields.now)) ≡ option_map line_of found) }
{
    let Some((seat, list)) = headed(fields) else {
        return Ok(None);
    };
    let Some(seat) = seat_in(input, seat) else {
        return Ok(None);
    };
    Ok(lefts_in(alloc, input, list)?.map(|proposers| Line::ReviewerList(seat, proposers)))
}

/// A rotation and its pairs.
pub(crate) fn rotation_with_pairs_in(
    alloc: Global,
    input: &Input,
    fields: &[&[u8]],
) -> Result<Option<Line>, AllocError>
    ensures { IfOk result (λ found. option_map (λ x. LineData.Rotation x.0 x.1)
        (rotation_with_pairs_in input.now (texts_of fields.now)) ≡ option_map line_of found) }
{
    let Some((rotation, list)) = headed(fields) else {
        return Ok(None);
    };
    let Some(rotation) = rotation_in(rotation) else {
        return Ok(None);
    };
    Ok(seated_pairs_in(alloc, input, list)?.map(|pairs| Line::Rotation(rotation, pairs)))
}

/// A rotation and those that it needs.
pub(crate) fn needs_in(alloc: Global, fields: &[&[u8]]) -> Result<Option<Line>, AllocError>
    ensures { IfOk result (λ found. option_map (λ x. LineData.Needs x.0 x.1)
        (needs_in (texts_of fields.now)) ≡ option_map line_of found) }
{
    let Some((rotation, list)) = headed(fields) else {
        return Ok(None);
    };
    let Some(rotation) = rotation_in(rotation) else {
        return Ok(None);
    };
    Ok(rising_in(alloc, list)?.map(|needed| Line::Needs(rotation, needed)))
}

/// A tag and figures.
pub(crate) fn tally_in(alloc: Global, fields: &[&[u8]]) -> Result<Option<Line>, AllocError>
    ensures { IfOk result (λ found. option_map (λ x. LineData.TallyLine x.0 x.1)
        (tally_in (texts_of fields.now)) ≡ option_map line_of found) }
{
    let Some((tag, list)) = headed(fields) else {
        return Ok(None);
    };
    let Some(tag) = small_number(tag) else {
        return Ok(None);
    };
    Ok(figures_in(alloc, list)?.map(|figures| Line::TallyLine(tag, figures)))
}
