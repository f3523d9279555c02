//! What a line of an answer has to be on its own.

ghost use Rattle.std.specs.Prelude.{◌≡◌, ◌<◌, nat_le, length};
ghost use Rattle.std.specs.List.{list_all, All};
ghost use Rattle.sm_instance.specs.declared.inputs.Input.TheVariants.{Two};
ghost use Rattle.sm_report.specs.Heads.{head_of};
ghost use Rattle.sm_report.specs.Lines.{line_of, LineData};
ghost use Rattle.sm_report.specs.Sound.{IsPrintable};
ghost use Rattle.sm_seats.specs.SeatMarket.{seat_count};
ghost use Rattle.sm_seats.specs.Counted.{first_seats_of};
ghost use Rattle.sm_check_forms.specs.Seats.{is_seat, pair_has_seat, AreFirsts};
ghost use Rattle.sm_check_forms.specs.Forms.{fits, fits_two, fits_room, has_one_each, begins_with_lowest};

use sm_instance::{Input, Instance};
use sm_report::{Head, Line, Seat};

/// Whether a line of an input has its seats alone, one number for each proposer where it has a vector, and in roommates the
/// lowest person first. The first seats are those of the reviewers.
///
/// Takes time in proportion to the line.
pub(crate) fn fits(input: &Input, firsts: &[u32], line: &Line) -> bool
    requires firsts { AreFirsts input.now firsts.now }
    requires line { IsPrintable input.now (line_of line.now) }
    ensures { result ≡ fits input.now (line_of line.now) }
{
    match input {
        Input::Two(instance) => fits_two(instance, firsts, line),
        Input::Room(_) => fits_room(line),
    }
}

/// The same over an instance with two sides.
fn fits_two(instance: &Instance, firsts: &[u32], line: &Line) -> bool
    requires firsts { firsts.now ≡ first_seats_of instance.now }
    requires line { IsPrintable (Two instance.now) (line_of line.now) }
    ensures { result ≡ fits_two instance.now (line_of line.now) }
{
    match line {
        Line::Answer(head) => cursor_fits(instance, head),
        Line::Vector(v) => has_one_each(instance, v),
        Line::More(v) => has_one_each(instance, v),
        Line::First(_, seat) => is_seat(instance, firsts, *seat),
        Line::Last(_, seat) => is_seat(instance, firsts, *seat),
        Line::ProposerList(_, seats) => are_seats(instance, firsts, seats),
        Line::ReviewerList(seat, _) => is_seat(instance, firsts, *seat),
        Line::Rotation(_, pairs) => have_seats(instance, firsts, pairs),
        _ => true,
    }
}

/// Whether a head has one number for each proposer where it has a cursor.
fn cursor_fits(instance: &Instance, head: &Head) -> bool
    ensures { result ≡ fits_two instance.now (LineData.Answer (head_of head.now)) }
{
    match head {
        Head::List(Some(after), _) => has_one_each(instance, after),
        _ => true,
    }
}

/// Whether a vector has one number for each proposer.
fn has_one_each(instance: &Instance, v: &[u32]) -> bool
    ensures { result ≡ has_one_each instance.now v.now }
{
    v.len() == instance.proposer_count() as usize
}

/// Whether a seat is one of the instance.
fn is_seat(instance: &Instance, firsts: &[u32], seat: Seat) -> bool
    requires firsts { firsts.now ≡ first_seats_of instance.now }
    requires there { seat.reviewer < length instance.now.reviewers }
    ensures { result ≡ is_seat instance.now seat }
{
    1 <= seat.number && seat.number <= seat_count(instance, firsts, seat.reviewer)
}

/// How many seats a reviewer has.
fn seat_count(instance: &Instance, firsts: &[u32], r: u32) -> u32
    requires firsts { firsts.now ≡ first_seats_of instance.now }
    requires there { r < length instance.now.reviewers }
    ensures { result ≡ seat_count instance.now r }
{
    let _reviewers = instance.reviewer_count();
    firsts[r as usize + 1] - firsts[r as usize]
}

/// Whether all seats are of the instance.
fn are_seats(instance: &Instance, firsts: &[u32], seats: &[Seat]) -> bool
    requires firsts { firsts.now ≡ first_seats_of instance.now }
    requires there { All (λ seat. seat.reviewer < length instance.now.reviewers) seats.now }
    ensures { result ≡ list_all (is_seat instance.now) seats.now }
{
    for i in 0..seats.len() {
        if !is_seat(instance, firsts, seats[i]) {
            return false;
        }
    }
    true
}

/// Whether the seats of all pairs are.
fn have_seats(instance: &Instance, firsts: &[u32], pairs: &[(u32, Seat)]) -> bool
    requires firsts { firsts.now ≡ first_seats_of instance.now }
    requires there { All (λ pair. pair.1.reviewer < length instance.now.reviewers) pairs.now }
    ensures { result ≡ list_all (pair_has_seat instance.now) pairs.now }
{
    for i in 0..pairs.len() {
        if !is_seat(instance, firsts, pairs[i].1) {
            return false;
        }
    }
    true
}

/// Whether a line over roommates has its lowest person first.
fn fits_room(line: &Line) -> bool
    ensures { result ≡ fits_room (line_of line.now) }
{
    match line {
        Line::Pair(x, y) => *x < *y,
        Line::Party(persons) => begins_with_lowest(persons),
        _ => true,
    }
}

/// Whether the lowest person comes first.
fn begins_with_lowest(persons: &[u32]) -> bool
    ensures { result ≡ begins_with_lowest persons.now }
{
    match persons {
        [] => false,
        [first, others @ ..] => are_above(*first, others),
    }
}

/// Whether all persons are at least this one.
fn are_above(lowest: u32, persons: &[u32]) -> bool
    ensures { result ≡ list_all (nat_le lowest) persons.now }
{
    for i in 0..persons.len() {
        if persons[i] < lowest {
            return false;
        }
    }
    true
}
