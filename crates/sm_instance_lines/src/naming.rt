//! Agents and their names as they are printed.

ghost use Rattle.std.specs.Prelude.{◌≡◌, ℕ, ◌<◌, ◌++◌, ◌∷◌, length, map, codes, decimal, slice_index};
ghost use Rattle.sm_instance.specs.Inputs.{IsInput, left_of, right_of};
ghost use Rattle.sm_agents.specs.Vectors.{agent_of, agents_of};
ghost use Rattle.sm_report.specs.Fields.{spaced};
ghost use Rattle.sm_report.specs.Putting.{PutsText};
ghost use Rattle.sm_instance_lines.specs.Names.{name_of, said_agent};
ghost use Rattle.sm_instance_lines.specs.Printed.{list_text, capacity_text, proposer_line, reviewer_line};

use sm_instance::{Agent, Input, Kind};
use sm_text::LineWriter;
use std::alloc::AllocError;

/// The proposers, in roommates the persons.
pub(crate) fn lefts(input: &Input) -> &[Agent]
    ensures agents { agents_of result.now ≡ left_of input.now }
    ensures sound { IsInput input.now }
{
    match input {
        Input::Two(instance) => instance.proposers(),
        Input::Room(persons) => persons.persons(),
    }
}

/// The reviewers, in roommates the persons.
pub(crate) fn rights(input: &Input) -> &[Agent]
    ensures agents { agents_of result.now ≡ right_of input.now }
    ensures sound { IsInput input.now }
{
    match input {
        Input::Two(instance) => instance.reviewers(),
        Input::Room(persons) => persons.persons(),
    }
}

/// Puts the line of a proposer, who lists agents of others.
pub(crate) fn put_proposer(
    into: &mut LineWriter,
    agent: &Agent,
    others: &[Agent],
) -> Result<(), AllocError>
    requires { (i : ℕ) → i < length agent.now.entries.items
        → slice_index agent.now.entries.items i < length others.now }
    ensures { PutsText into.old into.new (proposer_line
        (said_agent (agents_of others.now) (agent_of agent.now))) result }
{
    into.put_bytes(b"p ")?;
    into.put_bytes(&agent.name)?;
    put_list(into, others, &agent.entries)
}

/// Puts the line of a reviewer, who lists agents of others.
pub(crate) fn put_reviewer(
    into: &mut LineWriter,
    kind: Kind,
    agent: &Agent,
    others: &[Agent],
) -> Result<(), AllocError>
    requires { (i : ℕ) → i < length agent.now.entries.items
        → slice_index agent.now.entries.items i < length others.now }
    ensures { PutsText into.old into.new (reviewer_line kind
        (said_agent (agents_of others.now) (agent_of agent.now))) result }
{
    into.put_bytes(b"r ")?;
    into.put_bytes(&agent.name)?;
    put_capacity(into, kind, agent.capacity)?;
    put_list(into, others, &agent.entries)
}

/// Puts the capacity of a reviewer, in hospitals.
fn put_capacity(into: &mut LineWriter, kind: Kind, capacity: u32) -> Result<(), AllocError>
    ensures { PutsText into.old into.new (capacity_text kind capacity) result }
{
    match kind {
        Kind::Hospitals => put_bracketed(into, capacity),
        Kind::Marriage | Kind::Roommates => Ok(()),
    }
}

/// Puts a number between `[` and `]`, behind a space.
fn put_bracketed(into: &mut LineWriter, capacity: u32) -> Result<(), AllocError>
    ensures { PutsText into.old into.new (codes " [" ++ decimal capacity ++ codes "]") result }
{
    into.put_bytes(b" [")?;
    into.put_number(u64::from(capacity))?;
    into.put_bytes(b"]")
}

/// Puts `:` and the names of those on a list.
fn put_list(into: &mut LineWriter, others: &[Agent], list: &[u32]) -> Result<(), AllocError>
    requires { (i : ℕ) → i < length list.now → slice_index list.now i < length others.now }
    ensures { PutsText into.old into.new (list_text
        (map (name_of (agents_of others.now)) list.now)) result }
{
    into.put_bytes(b":")?;
    put_names(into, others, list)
}

/// Puts the names of agents, each behind a space.
pub(crate) fn put_names(
    into: &mut LineWriter,
    others: &[Agent],
    list: &[u32],
) -> Result<(), AllocError>
    requires { (i : ℕ) → i < length list.now → slice_index list.now i < length others.now }
    ensures { PutsText into.old into.new (spaced
        (map (name_of (agents_of others.now)) list.now)) result }
{
    for a in list {
        put_name(into, others, *a)?;
    }
    Ok(())
}

/// Puts the name of an agent behind a space.
fn put_name(into: &mut LineWriter, others: &[Agent], a: u32) -> Result<(), AllocError>
    requires { a < length others.now }
    ensures { PutsText into.old into.new (32 ∷ name_of (agents_of others.now) a) result }
{
    into.put_bytes(b" ")?;
    into.put_bytes(&others[a as usize].name)
}
