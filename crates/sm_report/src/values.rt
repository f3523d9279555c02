//! The values of operands, by their texts. Each takes constant time and no memory.

ghost use Rattle.std.specs.Prelude.{◌≡◌};
ghost use Rattle.sm_report.specs.Meanings.{look_up, sides, measures, limit_named};

use crate::field_readers::number_within;
use sm_instance::{Measure, Side};
use sm_text::{MOST_LIMIT, is};

/// The least limit.
const LEAST_LIMIT: u32 = 1;

/// The side of this name, `proposers` or `reviewers`. `None` exactly for any other. Takes constant time.
pub fn side_named(name: &[u8]) -> Option<Side>
    ensures { result ≡ look_up sides name.now }
{
    if is(name, b"proposers") {
        Some(Side::Proposers)
    } else if is(name, b"reviewers") {
        Some(Side::Reviewers)
    } else {
        None
    }
}

/// The measure of this name, `ranks` or `given`. `None` exactly for any other. Takes constant time.
pub fn measure_named(name: &[u8]) -> Option<Measure>
    ensures { result ≡ look_up measures name.now }
{
    if is(name, b"ranks") {
        Some(Measure::Ranks)
    } else if is(name, b"given") {
        Some(Measure::Given)
    } else {
        None
    }
}

/// The limit that a text spells, from 1 to [`MOST_LIMIT`]. `None` exactly where the text spells none. Takes time in the
/// length of the text.
pub fn limit_named(text: &[u8]) -> Option<u32>
    ensures { result ≡ limit_named text.now }
{
    number_within(text, LEAST_LIMIT, MOST_LIMIT)
}
