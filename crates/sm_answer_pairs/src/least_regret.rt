//! A matching of the least regret.

ghost use Rattle.sm_report.specs.Sound.{IsSmall};

use sm_market::Pairing;

/// An allowed stable matching of the least regret.
#[derive(Drop)]
pub struct LeastRegret {
    pub regret: u32,
    /// The matching of the seats.
    pub matching: Pairing,
    ghost small: { IsSmall regret },
}
