//! Lines, names, tokens, numbers and plain lines of small texts, which the checker computes and which were found by hand.
//! The function does nothing: its contract is the statement.

ghost use Rattle.sm_text.specs.Witnesses.{LinesEnd, NamesBegin, TokensCut, NumbersSpelt, PlainLines};

/// Where lines end, what names begin with, how a line is cut into tokens, which numbers runs spell, and which lines are
/// plain.
pub fn small_texts()
    ensures lines { LinesEnd }
    ensures names { NamesBegin }
    ensures tokens { TokensCut }
    ensures numbers { NumbersSpelt }
    ensures plain { PlainLines }
{}
