//! What the answer of `weight` is read from.

ghost use Rattle.sm_report.specs.Sound.{IsLarge};

use sm_instance::Measure;
use sm_market::Pairing;
use sm_poset::Poset;
use sm_weight::LightestFound;

/// The lightest allowed stable matching, with a flow that shows that none is lighter, and in two levels with a second one.
#[derive(Drop)]
pub struct Lightest {
    /// How matchings are weighed.
    pub by: Measure,
    /// Whether they are weighed by a second sum too.
    pub two_levels: bool,
    /// The poset of the seats.
    pub poset: Poset,
    /// What is lightest in the market of the seats: a closed set, the gains of the rotations, and the flows. Nodes are those of the
    /// net: the source is 0, rotations are numbered from 1, and the sink follows the last one.
    pub in_market: LightestFound,
    /// The weight of the matching.
    pub total: i64,
    /// The second sum of the matching.
    pub second_total: i64,
    /// The matching of the seats.
    pub matching: Pairing,
    ghost large: { IsLarge in_market.cut },
    ghost second_large: { IsLarge in_market.cut2 },
}
