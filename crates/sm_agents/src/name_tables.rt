//! The names of both sides' agents.

ghost use Rattle.std.specs.Prelude.{◌≡◌, ◌≢◌, ℕ, ◌<◌, ◌≤◌, length, position, IfOk, IfSome};
ghost use Rattle.std.specs.Str.{bytes_eq};
ghost use Rattle.sm_text.specs.Limits.{most_agents};
ghost use Rattle.sm_agents.specs.Written.{agent_at, names_of};
ghost use Rattle.sm_agents.specs.Sound.{IsWithinLimits};
ghost use Rattle.sm_agents.specs.NameTables.{AreNamesOf};
ghost use Rattle.sm_agents.specs.Vectors.{agents_of};

use crate::agents::{Agent, name_at};
use crate::names::Names;
use sm_text::TextHash;
use std::alloc::{AllocError, Global};

/// The names of both sides' agents, by which an agent is found without a look at all of them.
#[derive(Drop)]
pub struct NameTables {
    pub proposers: Names,
    pub reviewers: Names,
}

impl NameTables {
    /// The names of both sides, which will be found by these hashes. Takes time and memory in proportion to the agents.
    ///
    /// # Errors
    ///
    /// `AllocError` where memory ran out, and only then.
    pub fn of(
        alloc: Global,
        hash: TextHash,
        proposers: &[Agent],
        reviewers: &[Agent],
    ) -> Result<NameTables, AllocError>
        requires limits { IsWithinLimits (agents_of proposers.now) (agents_of reviewers.now) }
        requires proposers { (a b : ℕ) → b < a → a < length (agents_of proposers.now)
            → (agent_at (agents_of proposers.now) b).name ≢ (agent_at (agents_of proposers.now) a).name }
        requires reviewers { (a b : ℕ) → b < a → a < length (agents_of reviewers.now)
            → (agent_at (agents_of reviewers.now) b).name ≢ (agent_at (agents_of reviewers.now) a).name }
        ensures { IfOk result
            (λ names. AreNamesOf (agents_of proposers.now) (agents_of reviewers.now) names) }
    {
        let proposers = names_for(alloc, hash, proposers)?;
        let reviewers = names_for(alloc, hash, reviewers)?;
        Ok(NameTables {
            proposers,
            reviewers,
        })
    }
}

/// The names of agents that all differ, in the order of the agents, which will be found by these hashes. Takes time and memory in
/// proportion to the agents.
///
/// # Errors
///
/// `AllocError` where memory ran out, and only then.
pub fn names_for(alloc: Global, hash: TextHash, agents: &[Agent]) -> Result<Names, AllocError>
    requires few { length agents.now ≤ most_agents }
    requires differ { (a b : ℕ) → b < a → a < length (agents_of agents.now)
        → (agent_at (agents_of agents.now) b).name ≢ (agent_at (agents_of agents.now) a).name }
    ensures { IfOk result (λ names. names ≡ names_of (agents_of agents.now)) }
{
    let mut names = Names::with_room(alloc, hash, agents.len())?;
    for a in 0..agents.len() as u32 {
        names.add(alloc, name_at(agents, a))?;
    }
    Ok(names)
}

/// The number of the agent with a name, `None` where there is none. Takes time in proportion to the agents.
pub fn find_named(agents: &[Agent], name: &[u8]) -> Option<u32>
    requires { length agents.now ≤ most_agents }
    ensures number { result ≡ position (bytes_eq name.now) (names_of (agents_of agents.now)) }
    ensures in_range { IfSome result (λ n. n < length agents.now) }
{
    for a in 0..agents.len() as u32 {
        if name == name_at(agents, a) {
            return Some(a);
        }
    }
    None
}
