//! The fields of lines, read.

ghost use Rattle.std.specs.Prelude.{◌≡◌};
ghost use Rattle.sm_report.specs.Meanings.{number_within, left_in, rotation_in, seat_in, numbered_seat_in, end_in, reason_in, right_in};

use crate::fields::{SINK, SOURCE};
use crate::lines::Seat;
use crate::reasons::reason_place;
use crate::vectors::cut_at;
use sm_instance::{Input, Kind};
use sm_text::{is, number};

/// The greatest number of a rotation.
pub(crate) const MOST_ROTATION: u32 = u32::MAX - 1;

/// The number that a text spells in decimal, from a least to a greatest one. `None` exactly where the text spells none of these.
///
/// It takes time in the length of the text, and no memory.
pub fn number_within(text: &[u8], least: u32, most: u32) -> Option<u32>
    ensures { result ≡ number_within least most text.now }
{
    let n = number(text, u64::from(most))?;
    if n < u64::from(least) {
        return None;
    }
    Some(n as u32)
}

/// The number of a rotation that a text spells.
pub(crate) fn rotation_in(text: &[u8]) -> Option<u32>
    ensures { result ≡ rotation_in text.now }
{
    number_within(text, 1, MOST_ROTATION)
}

/// The proposer that a text names, in roommates the person.
#[tactic(auto, unfolding(crate::specs::Meanings::left_in))]
pub(crate) fn left_in(input: &Input, text: &[u8]) -> Option<u32>
    ensures { result ≡ left_in input.now text.now }
{
    input.find_left(text)
}

/// The reviewer that a text names, in roommates the person.
#[tactic(auto, unfolding(crate::specs::Meanings::right_in))]
pub(crate) fn right_in(input: &Input, text: &[u8]) -> Option<u32>
    ensures { result ≡ right_in input.now text.now }
{
    input.find_right(text)
}

/// The seat that a text names: by its reviewer's name, in hospitals with `/` and its number behind it.
pub(crate) fn seat_in(input: &Input, text: &[u8]) -> Option<Seat>
    ensures { result ≡ seat_in input.now text.now }
{
    match input.kind() {
        Kind::Hospitals => numbered_seat_in(input, text),
        Kind::Marriage | Kind::Roommates => Some(Seat {
            reviewer: right_in(input, text)?,
            number: 1,
        }),
    }
}

/// The seat with a number that a text names.
fn numbered_seat_in(input: &Input, text: &[u8]) -> Option<Seat>
    ensures { result ≡ numbered_seat_in (right_in input.now) text.now }
{
    let (name, number) = cut_at(text, b'/')?;
    Some(Seat {
        reviewer: right_in(input, name)?,
        number: number_within(number, 1, u32::MAX)?,
    })
}

/// The end of a flow that a text names: `S` for the source, `T` for the sink, or a rotation's number.
pub(crate) fn end_in(text: &[u8]) -> Option<u32>
    ensures { result ≡ end_in text.now }
{
    if is(text, b"S") {
        Some(SOURCE)
    } else if is(text, b"T") {
        Some(SINK)
    } else {
        rotation_in(text)
    }
}

/// The reason that a text names, by its number.
pub(crate) fn reason_in(text: &[u8]) -> Option<u32>
    ensures { result ≡ reason_in text.now }
{
    let place = reason_place(text)?;
    Some(place as u32 + 1)
}
