//! The fields of lines.

ghost use Rattle.std.specs.Prelude.{◌∷◌, ◌++◌, map, codes, decimal};
ghost use Rattle.sm_report.specs.Texts.{seat_text, vector_text, end_text};
ghost use Rattle.sm_report.specs.Sound.{IsOnRight};
ghost use Rattle.sm_report.specs.Fields.{text_of_field, IsFieldSound, AreShown, spaced};
ghost use Rattle.sm_report.specs.Putting.{PutsText};

use crate::lines::Seat;
use sm_instance::{Input, Kind};
use sm_text::LineWriter;
use std::alloc::AllocError;

/// A single field of a line.
#[derive(Clone, Copy)]
pub(crate) enum Field<'a> {
    /// These bytes.
    Text(&'a [u8]),
    /// The name of a proposer, in roommates of a person.
    Left(u32),
    /// The name of a reviewer, in roommates of a person.
    Right(u32),
    /// A seat.
    At(Seat),
    Number(u64),
    Signed(i64),
    /// An end of a flow: the source, a rotation or the sink.
    FlowEnd(u32),
    /// Numbers with commas between them.
    Vector(&'a [u32]),
    /// The operand that gives the vector behind which a list begins.
    After(&'a [u32]),
    /// The operand that gives the greatest number of what is listed.
    Limit(u32),
}

/// Where a flow begins.
pub(crate) const SOURCE: u32 = 0;

/// Where a flow ends.
pub(crate) const SINK: u32 = u32::MAX;

/// Puts fields, each behind a space.
pub(crate) fn put_fields(
    into: &mut LineWriter,
    input: &Input,
    fields: &[Field<'_>],
) -> Result<(), AllocError>
    requires { AreShown input.now fields.now }
    ensures { PutsText into.old into.new (spaced (map (text_of_field input.now) fields.now))
        result }
{
    for field in fields {
        put_field(into, input, *field)?;
    }
    Ok(())
}

/// Puts a field behind a space. Always inlined, so that where the kind of a field is known nothing asks for it.
#[inline(always)]
pub(crate) fn put_field(
    into: &mut LineWriter,
    input: &Input,
    field: Field<'_>,
) -> Result<(), AllocError>
    requires { IsFieldSound input.now field }
    ensures { PutsText into.old into.new (32 ∷ text_of_field input.now field.entry) result }
{
    match field {
        Field::Left(p) => input.put_left_name(into, p),
        Field::Right(r) => input.put_right_name(into, r),
        Field::At(seat) => put_seat(into, input, seat),
        Field::Text(text) => into.put_behind_space(text),
        Field::Number(n) => {
            into.put_byte(b' ')?;
            into.put_number(n)
        }
        Field::Signed(n) => {
            into.put_byte(b' ')?;
            into.put_signed(n)
        }
        Field::FlowEnd(end) => {
            into.put_byte(b' ')?;
            put_flow_end(into, end)
        }
        Field::Vector(vector) => {
            into.put_byte(b' ')?;
            put_vector(into, vector)
        }
        Field::After(vector) => {
            into.put_behind_space(b"after=")?;
            put_vector(into, vector)
        }
        Field::Limit(limit) => {
            into.put_behind_space(b"limit=")?;
            into.put_number(u64::from(limit))
        }
    }
}

/// Puts a seat behind a space: its reviewer's name, in hospitals with `/` and its number behind it.
#[inline(always)]
fn put_seat(into: &mut LineWriter, input: &Input, seat: Seat) -> Result<(), AllocError>
    requires { IsOnRight input.now seat.reviewer }
    ensures { PutsText into.old into.new (32 ∷ seat_text input.now seat) result }
{
    input.put_right_name(into, seat.reviewer)?;
    match input.kind() {
        Kind::Hospitals => put_seat_number(into, seat.number),
        Kind::Marriage | Kind::Roommates => Ok(()),
    }
}

/// Puts the number of a seat behind `/`.
fn put_seat_number(into: &mut LineWriter, number: u32) -> Result<(), AllocError>
    ensures { PutsText into.old into.new (codes "/" ++ decimal number) result }
{
    into.put_byte(b'/')?;
    into.put_number(u64::from(number))
}

/// Puts an end of a flow: `S` for the source, `T` for the sink, or a rotation's number.
fn put_flow_end(into: &mut LineWriter, end: u32) -> Result<(), AllocError>
    ensures { PutsText into.old into.new (end_text end) result }
{
    match end {
        SOURCE => into.put_byte(b'S'),
        SINK => into.put_byte(b'T'),
        rotation => into.put_number(u64::from(rotation)),
    }
}

/// Puts numbers with commas between them, and `-` where there are none.
fn put_vector(into: &mut LineWriter, vector: &[u32]) -> Result<(), AllocError>
    ensures { PutsText into.old into.new (vector_text vector.now) result }
{
    let [first, more @ ..] = vector else {
        return into.put_byte(b'-');
    };
    into.put_number(u64::from(*first))?;
    for number in more {
        put_behind_comma(into, *number)?;
    }
    Ok(())
}

/// Puts a number behind a comma.
fn put_behind_comma(into: &mut LineWriter, number: u32) -> Result<(), AllocError>
    ensures { PutsText into.old into.new (44 ∷ decimal number) result }
{
    into.put_byte(b',')?;
    into.put_number(u64::from(number))
}
