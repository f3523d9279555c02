//! What is written is judged with yes. The function does nothing: its contract is the law, a statement over the definitions
//! alone.

ghost use Rattle.sm_law_round.specs.Round.{WrittenIsChecked};

/// What is a right answer to a command whose answers `check` takes, put behind the instance's text, is a text of which the right
/// answer to `check` is `yes`; where the instance's text ends with its line `end` and the LF of that line, and both together are
/// within the limit of bytes.
pub fn written_is_checked()
    ensures { WrittenIsChecked }
{}
