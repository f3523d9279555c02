//! Lines of agents whose lists are read where they stand, and not cut into tokens first.

ghost use Rattle.std.specs.Prelude.{◌≡◌, ℕ, ◌<◌, ◌≤◌, true, slice_index, length, IfOk, IfErr, IfSome};
ghost use Rattle.sm_text.specs.Limits.{most_agents, most_entries};
ghost use Rattle.sm_text.specs.Name.{is_name as is_a_name};
ghost use Rattle.sm_text.specs.Tokens.{tokens};
ghost use Rattle.sm_agents.specs.Kinds.{has_two_sides};
ghost use Rattle.sm_reader.specs.Draft.{IsDraft, declared_on, table_on};
ghost use Rattle.sm_reader.specs.Listed.{side_by, DeclaresSide, IsAgentLine, ListsLineOn, AddsLine, IsAgentFault, PutsDeclared, IsPutFault};

use crate::draft::{Declared, Draft};
use crate::faults::TextFault;
use crate::judging::{beyond, declare, listed_side, put_agent};
use sm_instance::{Kind, Side};
use sm_keys::{Head, head_of};
use sm_text::{MOST_ENTRIES, is};
use std::alloc::{AllocError, Global};

/// The line of an agent, up to its list.
#[derive(Clone, Copy)]
pub(crate) struct AgentLine<'a> {
    pub(crate) side: Side,
    pub(crate) name: &'a [u8],
    /// What stands behind the colon.
    pub(crate) list: &'a [u8],
}

/// The line as that of an agent in an instance of two sides, `None` where it begins in another way than with `p` or `r`, a name
/// and a colon.
pub(crate) fn agent_line<'a>(kind: Kind, line: &'a [u8]) -> Option<AgentLine<'a>>
    ensures { IfSome result (λ agent. IsAgentLine kind line.now agent.side agent.name.now
        agent.list.now) }
{
    let Head { word, name, list } = head_of(line)?;
    let side = side_of(kind, word)?;
    Some(AgentLine { side, name, list })
}

/// The side of the agents whose lines begin with a word in an instance of two sides.
fn side_of(kind: Kind, word: &[u8]) -> Option<Side>
    ensures { IfSome result (λ side. DeclaresSide kind word.now side) }
{
    match kind {
        Kind::Roommates => None,
        _ => side_by(word),
    }
}

/// The side that a word stands for.
fn side_by(word: &[u8]) -> Option<Side>
    ensures { result ≡ side_by word.now }
{
    if is(word, b"p") {
        Some(Side::Proposers)
    } else if is(word, b"r") {
        Some(Side::Reviewers)
    } else {
        None
    }
}

/// Adds the agent of a line, if its list holds names that differ and nothing else, and answers whether it does. The vector is for
/// their indexes.
pub(crate) fn add_line<'a>(
    alloc: Global,
    kind: Kind,
    draft: &mut Draft<'a>,
    line: u32,
    agent: AgentLine<'a>,
    indexes: &mut Vec<u32>,
) -> Result<bool, TextFault>
    requires two_sided { has_two_sides kind ≡ true }
    requires named { is_a_name agent.name.now ≡ true }
    requires draft { IsDraft kind line draft.old }
    ensures added { IfOk result (λ all. AddsLine kind line agent.entry.side agent.entry.name.now
        (tokens agent.entry.list.now) draft.old draft.new all) }
    ensures fault { IfErr result (λ f. IsAgentFault kind line agent.entry.side agent.entry.name.now
        (tokens agent.entry.list.now) draft.old f) }
{
    let AgentLine { side, name, list } = agent;
    if !list_line(draft, listed_side(kind, side), list, line, indexes)? {
        return Ok(false);
    }
    let entries = Vec::from_slice(alloc, indexes)?;
    let agent = Declared {
        name,
        capacity: 1,
        line,
        entries,
    };
    put_declared(draft, side, agent)?;
    Ok(true)
}

/// Lists the names on a list on their side, if it holds names that differ and nothing else, and answers whether it does.
fn list_line<'a>(
    draft: &mut Draft<'a>,
    side: Side,
    list: &'a [u8],
    line: u32,
    indexes: &mut Vec<u32>,
) -> Result<bool, AllocError>
    requires fresh { (k : ℕ) → slice_index (table_on side draft.old).stamps k < line }
    ensures { IfOk result (λ all. ListsLineOn side draft.old draft.new (tokens list.now) line all
        indexes.new.items) }
{
    match side {
        Side::Proposers => draft.proposer_names.list_line(list, line, indexes),
        Side::Reviewers => draft.reviewer_names.list_line(list, line, indexes),
    }
}

/// Declares an agent whose list is listed, and puts it behind the others of its side.
fn put_declared<'a>(draft: &mut Draft<'a>, side: Side, agent: Declared<'a>) -> Result<(), TextFault>
    requires few { length (table_on side draft.old).declared ≤ most_agents }
    requires fits { draft.old.entries ≤ most_entries }
    ensures put { IfOk result (λ _. PutsDeclared side draft.old draft.new agent.entry) }
    ensures fault { IfErr result (λ f. IsPutFault side draft.old agent.entry f) }
{
    declare(draft, side, agent.name, agent.line)?;
    if agent.entries.len() > MOST_ENTRIES - draft.entries {
        return Err(beyond(draft, side, agent.line));
    }
    put_agent(draft, side, agent)
}
