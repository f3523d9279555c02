//! The laws of printed instances. Each function does nothing: its contract is the law, a statement over the definitions alone,
//! for all instances.

ghost use Rattle.sm_law_reprint.specs.Reading.{PrintedIsRead, JsonIsRead};

/// The text of a printed instance, where it isn't too long for an input, means the instance that was printed. The two differ
/// in the numbers of lines alone.
pub fn printed_is_read()
    ensures { PrintedIsRead }
{}

/// An instance in JSON is read back: its JSON text, which [`sm_json::to_json`] writes, stands for a text that means this instance,
/// where that text isn't too long for an input. The two instances differ in the numbers of lines alone.
pub fn json_is_read()
    ensures { JsonIsRead }
{}
