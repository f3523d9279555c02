//! Agents and assignments, and agents of a side by number.

ghost use Rattle.std.specs.Prelude.{◌≡◌, ◌<◌, ◌≤◌, length, IfOk};
ghost use Rattle.sm_text.specs.Limits.{most_entries};
ghost use Rattle.sm_lists.specs.Rows.{lists_in};
ghost use Rattle.sm_agents.specs.Written.{agent_at, row, capacity_of, lists_of};
ghost use Rattle.sm_agents.specs.Sound.{entries_of};
ghost use Rattle.sm_agents.specs.Vectors.{agents_of};

use std::alloc::{AllocError, Global};

/// A declared agent: its name, how many partners it may have, the line of its declaration, which is 0 where it was made
/// and not read, and the numbers of those whom it lists, best first.
#[derive(Debug, Drop)]
pub struct Agent {
    pub name: Vec<u8>,
    pub capacity: u32,
    pub line: u32,
    pub entries: Vec<u32>,
}

/// For each proposer the place of its partner on its written list, `None` where it has none.
#[derive(Debug, Drop)]
pub struct Assignment {
    pub places: Vec<Option<u32>>,
}

/// An agent's name. Takes constant time.
pub fn name_at(agents: &[Agent], a: u32) -> &[u8]
    requires { a < length agents.now }
    ensures { result.now ≡ (agent_at (agents_of agents.now) a).name }
{
    &agents[a as usize].name
}

/// The lists of agents, lent one by one. Takes time and memory in proportion to the agents.
///
/// # Errors
///
/// `AllocError` where memory ran out, and only then.
pub fn lent_lists(alloc: Global, agents: &[Agent]) -> Result<Vec<&[u32]>, AllocError>
    ensures { IfOk result (λ lists. lists_in lists.items ≡ lists_of (agents_of agents.now)) }
{
    let mut lists = Vec::with_capacity(alloc, agents.len())?;
    for agent in agents {
        lists.push(agent.entries.as_slice())?;
    }
    Ok(lists)
}

/// An agent's list. Takes constant time.
pub fn list_at(agents: &[Agent], a: u32) -> &[u32]
    requires { a < length agents.now }
    ensures { result.now ≡ row (agents_of agents.now) a }
{
    &agents[a as usize].entries
}

/// An agent's capacity. Takes constant time.
pub fn capacity_at(agents: &[Agent], a: u32) -> u32
    requires { a < length agents.now }
    ensures { result ≡ capacity_of (agents_of agents.now) a }
{
    agents[a as usize].capacity
}

/// How many entries the lists of these agents have together. Takes time in proportion to the agents.
pub fn count_entries(agents: &[Agent]) -> usize
    requires { entries_of (agents_of agents.now) ≤ most_entries }
    ensures { result ≡ entries_of (agents_of agents.now) }
{
    let mut count = 0;
    for agent in agents {
        count += agent.entries.len();
    }
    count
}
