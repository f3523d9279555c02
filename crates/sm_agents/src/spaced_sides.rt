//! The names of both sides, ready to be put into lines.

ghost use Rattle.std.specs.Prelude.{◌≡◌, ◌<◌, ◌∷◌, length, IfOk};
ghost use Rattle.sm_text.specs.Writer.{PutsPiece};
ghost use Rattle.sm_agents.specs.Written.{agent_at};
ghost use Rattle.sm_agents.specs.Vectors.{agents_of};
ghost use Rattle.sm_agents.specs.Spaced.{AreSpaced, AreSpacedSides};

use crate::agents::{Agent, name_at};
use sm_text::{LineWriter, SpacedName};
use std::alloc::{AllocError, Global};

/// The names of both sides' agents, with a space before each.
#[derive(Drop)]
pub struct SpacedSides {
    pub proposers: Vec<SpacedName>,
    pub reviewers: Vec<SpacedName>,
}

impl SpacedSides {
    /// Those of both sides. Takes time and memory in proportion to the agents.
    ///
    /// # Errors
    ///
    /// `AllocError` where memory ran out, and only then.
    pub fn of(
        alloc: Global,
        proposers: &[Agent],
        reviewers: &[Agent],
    ) -> Result<SpacedSides, AllocError>
        ensures { IfOk result
            (λ sides. AreSpacedSides (agents_of proposers.now) (agents_of reviewers.now) sides) }
    {
        let proposers = spaced_names(alloc, proposers)?;
        let reviewers = spaced_names(alloc, reviewers)?;
        Ok(SpacedSides {
            proposers,
            reviewers,
        })
    }
}

/// The names of agents, in their order, with a space before each. Takes time and memory in proportion to the agents.
///
/// # Errors
///
/// `AllocError` where memory ran out, and only then.
pub fn spaced_names(alloc: Global, agents: &[Agent]) -> Result<Vec<SpacedName>, AllocError>
    ensures { IfOk result (λ spaced. AreSpaced (agents_of agents.now) (length agents.now) spaced.items) }
{
    let mut spaced = Vec::with_capacity(alloc, agents.len())?;
    for agent in agents {
        spaced.push(SpacedName::of(&agent.name))?;
    }
    Ok(spaced)
}

/// Puts a space and the name of an agent behind what a writer holds. Takes what [`LineWriter::put_name`] takes.
///
/// # Errors
///
/// As [`LineWriter::put_name`].
#[inline(always)]
pub fn put_name_at(
    into: &mut LineWriter,
    agents: &[Agent],
    spaced: &[SpacedName],
    a: u32,
) -> Result<(), AllocError>
    requires in_range { a < length agents.now }
    requires spaced { AreSpaced (agents_of agents.now) (length agents.now) spaced.now }
    ensures { PutsPiece into.old into.new (32 ∷ (agent_at (agents_of agents.now) a).name) result }
{
    into.put_name(&spaced[a as usize], name_at(agents, a))
}
