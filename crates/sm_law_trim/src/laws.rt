//! The laws of trimmed texts. Each function does nothing: its contract is the law, a statement over the definitions alone.

ghost use Rattle.sm_law_trim.specs.Laws.{TrimmedIsRead, TrimmedAnswers};

/// The text that is written for a trimmed instance, where it isn't too long for an input, is read back whole, as that instance.
/// The two differ in the numbers of lines alone.
pub fn trimmed_is_read()
    ensures { TrimmedIsRead }
{}

/// The instance of that text has the stable matchings of the one that was trimmed, the same best ones of each side, the same
/// lightest allowed ones, and the same listings of the rank vectors of the allowed ones.
pub fn trimmed_answers()
    ensures { TrimmedAnswers }
{}
