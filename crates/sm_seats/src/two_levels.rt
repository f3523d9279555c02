//! How many levels of weights an answer has.

ghost use Rattle.std.specs.Prelude.{◌≡◌};
ghost use Rattle.sm_seats.specs.Levels.{has_two_levels};

use sm_instance::{Instance, Measure};

/// Whether an answer by these weights has two levels: matchings are weighed by a second sum too where the weights are given and a
/// pair has a second weight that isn't 0. Takes time in proportion to the weights.
pub fn has_two_levels(instance: &Instance, by: Measure) -> bool
    ensures { result ≡ has_two_levels by instance.now }
{
    match by {
        Measure::Ranks => false,
        Measure::Given => instance.has_seconds(),
    }
}
