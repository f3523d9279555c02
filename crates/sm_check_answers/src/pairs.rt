//! Matchings that an answer writes by pairs.

ghost use Rattle.std.specs.Prelude.{ℕ, ◌<◌, ◌↔◌, List, length, IsTrue};
ghost use Rattle.sm_instance.specs.Stable.{IsStable};
ghost use Rattle.sm_holding.specs.Holding.{IsHolding};
ghost use Rattle.sm_holding.specs.PairsKept.{ArePairsHeld, Joins};

use sm_holding::Holding;
use sm_instance::Instance;

/// Whether a pair may stand behind those that are held. It is held too then.
pub(crate) fn joins(holding: &mut Holding, instance: &Instance, p: u32, r: u32) -> bool
    requires proposer { p < length instance.now.proposers }
    requires reviewer { r < length instance.now.reviewers }
    requires held { IsHolding instance.now holding.old }
    ensures { (pairs : List (ℕ × ℕ)) → ArePairsHeld instance.now pairs holding.old
        → Joins instance.now pairs (p, r) holding.new result }
{
    holding.add(instance, p, r)
}

/// Whether no pair blocks the matching of the pairs that are held. Takes time in proportion to the agents and entries.
pub(crate) fn is_unblocked(instance: &Instance, holding: &Holding) -> bool
    requires { IsHolding instance.now holding.now }
    ensures { IsTrue result ↔ IsStable instance.now holding.now.matching.places.items }
{
    instance.first_blocking(&holding.matching).is_none()
}
