//! The conditions of an instance, as the finders take them.

ghost use Rattle.std.specs.Prelude.{◌≡◌, ◌+◌, ◌<◌, ◌^◌, length, IfOk};
ghost use Rattle.sm_agents.specs.Sound.{IsInstance};
ghost use Rattle.sm_seats.specs.Correspondence.{leveled};

use sm_instance::Instance;
use sm_poset::Conditions;
use sm_seats::leveled;
use std::alloc::{AllocError, Global};

/// The conditions of an instance by levels: a proposer and the rank of the reviewer that it has to have, or must not have.
/// Takes time and memory in proportion to them, with a logarithm of how many list a reviewer.
///
/// # Errors
///
/// `AllocError` where memory ran out, and only then.
pub fn conditions_of(alloc: Global, instance: &Instance) -> Result<Conditions, AllocError>
    ensures instance { IsInstance instance.now }
    ensures forced { IfOk result (λ conditions. conditions.forced.items
        ≡ leveled instance.now instance.now.forced) }
    ensures forbidden { IfOk result (λ conditions. conditions.forbidden.items
        ≡ leveled instance.now instance.now.forbidden) }
    ensures few { IfOk result (λ conditions. length conditions.forced.items
        + length conditions.forbidden.items < 2 ^ 24) }
{
    Ok(Conditions {
        forced: leveled(alloc, instance, instance.forced())?,
        forbidden: leveled(alloc, instance, instance.forbidden())?,
    })
}
