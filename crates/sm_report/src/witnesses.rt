//! The texts of lines of each kind, and texts of no line, which the checker computes and which were written by hand. Each
//! function does nothing: its contract is the statement.

ghost use Rattle.sm_report.specs.Witnesses.{MarriageTexts, HospitalTexts, RoomTexts, NumberTexts, HeadTexts, BadTexts, BadSeats, BadRooms};

/// A line of each kind has the text beside it and is read from it, in a marriage, in hospitals and in roommates.
pub fn lines_have_texts()
    ensures marriage { MarriageTexts }
    ensures hospitals { HospitalTexts }
    ensures room { RoomTexts }
    ensures numbers { NumberTexts }
    ensures heads { HeadTexts }
{}

/// No line is read from a text whose fields are out of place, or that names nobody, or whose numbers are written
/// otherwise or out of bounds.
pub fn other_texts_have_no_line()
    ensures texts { BadTexts }
    ensures seats { BadSeats }
    ensures rooms { BadRooms }
{}
