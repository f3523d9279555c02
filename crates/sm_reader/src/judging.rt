//! How a line is judged, and what it adds.

ghost use Rattle.std.specs.Prelude.{◌≡◌, ℕ, ◌+◌, ◌<◌, ◌≤◌, ◌∷◌, [], true, false, length, slice_index, nat_le, IfOk, IfErr};
ghost use Rattle.std.specs.List.{list_any, list_all};
ghost use Rattle.std.specs.Option.{option_map};
ghost use Rattle.std.specs.Str.{bytes_eq};
ghost use Rattle.std.specs.Int.RustNames.{unsigned_abs};
ghost use Rattle.sm_text.specs.Limits.{most_agents, most_entries, most_weight};
ghost use Rattle.sm_text.specs.Name.{is_name as is_a_name};
ghost use Rattle.sm_keys.specs.Tokens.{is_bad, AreNamesAtEnd};
ghost use Rattle.sm_reader.specs.Judging.{verdict_on, fault_of, second_in};
ghost use Rattle.sm_keys.specs.Tables.{has_repeated};
ghost use Rattle.sm_text.specs.Slices.{texts_of};
ghost use Rattle.sm_reader.specs.Draft.{said_of, listed_side, table_on, declared_on, IsDraft, AddsForm, AddsBy, IsJudged, IsRefusedBy, IsLineFault, IsLongFault, IsWeighed, run_fault, name_fault, limit_fault, AreRunsRight, DeclaresOn, ListsOn, PutsOn, RefusesFor, AddsAgent, weights_in, weight_fault, PutsWeight, PutsPair, Binds, runs_form};
ghost use Rattle.sm_forms.specs.Forms.{form_of, entries_in};

use crate::draft::{Declared, Draft, Pair, Weights, make_ready};
use crate::faults::TextFault;
use crate::header::Header;
use crate::masters::{MasterRuns, add_master, master_entries};
use crate::ordering::check_order;
use sm_forms::{Condition, Form, form_under, is_end};
use sm_instance::{Kind, Side};
use sm_keys::{Found, TextKey, has_repeated};
use sm_text::{
    MOST_AGENTS, MOST_CAPACITY, MOST_ENTRIES, MOST_WEIGHT, RefusalKind, is_name, number, signed,
};
use std::alloc::{AllocError, Global};

/// An agent as its line declares it, with its capacity and the names on its list.
#[derive(Clone, Copy)]
struct Stated<'a, 'b> {
    side: Side,
    name: &'a [u8],
    capacity: u32,
    entries: &'b [&'a [u8]],
}

/// The runs of the line of an agent: of its name, of its capacity and on its list.
#[derive(Clone, Copy)]
struct AgentRuns<'a, 'b> {
    side: Side,
    name: &'a [u8],
    capacity: Option<&'a [u8]>,
    entries: &'b [&'a [u8]],
}

/// The runs of the weights of a pair.
#[derive(Clone, Copy)]
struct WeightRuns<'a> {
    weight: &'a [u8],
    second: Option<&'a [u8]>,
}

/// What comes of a line that isn't refused.
#[derive(Clone, Copy)]
pub(crate) enum Step {
    /// The instance goes on.
    Goes,
    /// The line ends the instance.
    Stops,
}

/// What comes of a line that is judged by its tokens, and isn't refused.
#[derive(Clone, Copy)]
pub(crate) enum Judged {
    /// What it says is added.
    Added,
    /// It orders proposers, whose names are its tokens behind the first. These are still to be kept.
    Orders,
    /// It ends the instance.
    Ends,
}

/// Judges a line by its tokens and what they were found to be, and adds what it says, but for an order.
pub(crate) fn judge<'a>(
    alloc: Global,
    header: Header,
    draft: &mut Draft<'a>,
    line: u32,
    tokens: &[&'a [u8]],
    found: Found,
) -> Result<Judged, TextFault>
    requires draft { IsDraft header.kind line draft.old }
    requires bad { found.bad ≡ list_any is_bad (texts_of tokens.now) }
    requires names { AreNamesAtEnd found.names (texts_of tokens.now) }
    ensures judged { IfOk result (λ judged. IsJudged header.kind header.format line
        (texts_of tokens.now) draft.old draft.new judged) }
    ensures refused { IfErr result (λ f. IsRefusedBy
        (verdict_on header.kind header.format (said_of header.kind draft.old) line
        (texts_of tokens.now)) line f) }
{
    let [word, rest @ ..] = tokens else {
        return Ok(Judged::Added);
    };
    if found.bad {
        return Err(TextFault::Refused(RefusalKind::BadByte, line));
    }
    if is_end(tokens) {
        return Ok(Judged::Ends);
    }
    match form_under(header.kind, header.format, word, rest, found.names) {
        None => Err(TextFault::Refused(RefusalKind::BadLine, line)),
        Some(form) => add(alloc, header.kind, draft, line, form, found.names),
    }
}

/// Adds what a line of this form says, but for an order, unless it has a fault. The last `names` runs on its list are names, and no
/// more.
fn add<'a>(
    alloc: Global,
    kind: Kind,
    draft: &mut Draft<'a>,
    line: u32,
    form: Form<'a, '_>,
    names: usize,
) -> Result<Judged, TextFault>
    requires draft { IsDraft kind line draft.old }
    requires names { AreNamesAtEnd names (entries_in (form_of form)) }
    ensures added { IfOk result (λ judged. AddsBy kind line form.entry draft.old draft.new judged) }
    ensures fault { IfErr result (λ f. IsLineFault
        (fault_of (said_of kind draft.old) (form_of form.entry)) line f) }
{
    match form {
        Form::Agent {
            side,
            name,
            capacity,
            entries,
        } => {
            let agent = AgentRuns {
                side,
                name,
                capacity,
                entries,
            };
            add_runs(alloc, kind, draft, line, agent, names)?;
            Ok(Judged::Added)
        }
        Form::Use {
            side,
            name,
            capacity,
            master,
        } => {
            let entries = master_entries(alloc, draft, master, line)?;
            let agent = AgentRuns {
                side,
                name,
                capacity,
                entries: &entries,
            };
            add_runs(alloc, kind, draft, line, agent, entries.len())?;
            Ok(Judged::Added)
        }
        Form::Master { name, entries } => {
            let master = MasterRuns { name, entries };
            add_master(alloc, draft, line, master, names)?;
            Ok(Judged::Added)
        }
        Form::Order { proposers } => {
            check_order(alloc, draft, line, proposers, names)?;
            Ok(Judged::Orders)
        }
        Form::Weight {
            proposer,
            reviewer,
            weight,
            second,
        } => {
            let weights = WeightRuns { weight, second };
            add_weight(draft, line, proposer, reviewer, weights)?;
            Ok(Judged::Added)
        }
        Form::Pair {
            condition,
            proposer,
            reviewer,
        } => {
            add_condition(draft, line, condition, proposer, reviewer)?;
            Ok(Judged::Added)
        }
    }
}

/// Adds the agent that a line declares, unless the line has a fault. The last `names` runs on its list are names, and no more.
fn add_runs<'a>(
    alloc: Global,
    kind: Kind,
    draft: &mut Draft<'a>,
    line: u32,
    agent: AgentRuns<'a, '_>,
    names: usize,
) -> Result<(), TextFault>
    requires draft { IsDraft kind line draft.old }
    requires names { AreNamesAtEnd names (texts_of agent.entries.now) }
    ensures added { IfOk result (λ _. AddsForm kind line (runs_form agent.entry) draft.old
        draft.new) }
    ensures fault { IfErr result (λ f. IsLineFault
        (fault_of (said_of kind draft.old) (runs_form agent.entry)) line f) }
{
    let AgentRuns {
        side,
        name,
        capacity,
        entries,
    } = agent;
    let capacity = checked_capacity(name, capacity, entries, names, line)?;
    let agent = Stated {
        side,
        name,
        capacity,
        entries,
    };
    add_agent(alloc, kind, draft, line, agent)
}

/// The capacity that the line of an agent says, which is 1 where it says none.
pub(crate) fn checked_capacity(
    name: &[u8],
    capacity: Option<&[u8]>,
    entries: &[&[u8]],
    names: usize,
    line: u32,
) -> Result<u32, TextFault>
    requires { AreNamesAtEnd names (texts_of entries.now) }
    ensures checked { IfOk result (λ n. AreRunsRight name.now
        (option_map (λ x. x.now) capacity.entry) (texts_of entries.now) n) }
    ensures fault { IfErr result (λ f. IsLineFault
        (run_fault name.now (option_map (λ x. x.now) capacity.entry) (texts_of entries.now))
        line f) }
{
    if !is_name(name) || !are_names(entries, names) {
        return Err(TextFault::Refused(RefusalKind::BadName, line));
    }
    let Some(run) = capacity else {
        return Ok(1);
    };
    match number(run, u64::from(MOST_CAPACITY)) {
        Some(capacity) => Ok(capacity as u32),
        None => Err(TextFault::Refused(RefusalKind::BadNumber, line)),
    }
}

/// Are all these runs names? The last `names` of them are, and no more.
#[tactic(auto, using(sm_forms::proofs::NameLemmas::all_names))]
pub(crate) fn are_names(runs: &[&[u8]], names: usize) -> bool
    requires { AreNamesAtEnd names (texts_of runs.now) }
    ensures { result ≡ list_all is_a_name (texts_of runs.now) }
{
    runs.len() <= names
}

/// Adds an agent with its list.
fn add_agent<'a>(
    alloc: Global,
    kind: Kind,
    draft: &mut Draft<'a>,
    line: u32,
    agent: Stated<'a, '_>,
) -> Result<(), TextFault>
    requires { IsDraft kind line draft.old }
    ensures added { IfOk result (λ _. AddsAgent kind line agent.entry.side agent.entry.name.now
        agent.entry.capacity (texts_of agent.entry.entries.now) draft.old draft.new) }
    ensures fault { IfErr result (λ f. IsLineFault
        (name_fault (table_on agent.entry.side draft.old).declared agent.entry.name.now
        (texts_of agent.entry.entries.now)
        (length (declared_on agent.entry.side draft.old)) draft.old.entries) line f) }
{
    let Stated {
        side,
        name,
        capacity,
        entries,
    } = agent;
    declare(draft, side, name, line)?;
    if entries.len() > MOST_ENTRIES - draft.entries {
        return Err(refusal_of_long(alloc, draft, side, entries, line));
    }
    let entries = listed(alloc, draft, listed_side(kind, side), entries, line)?;
    let agent = Declared {
        name,
        capacity,
        line,
        entries,
    };
    put_agent(draft, side, agent)
}

/// Why an agent is refused whose list is longer than what is left to entries. Nothing of the list is kept.
fn refusal_of_long(
    alloc: Global,
    draft: &Draft<'_>,
    side: Side,
    entries: &[&[u8]],
    line: u32,
) -> TextFault
    requires { most_entries < draft.now.entries + length entries.now }
    ensures { IsLongFault (length (declared_on side draft.now)) draft.now.entries
        (texts_of entries.now) line result }
{
    match has_repeated(alloc, draft.text, entries) {
        Ok(true) => TextFault::Refused(RefusalKind::RepeatedEntry, line),
        Ok(false) => beyond(draft, side, line),
        Err(AllocError) => TextFault::OutOfMemory,
    }
}

/// Why an agent is refused that has more entries than are left.
pub(crate) fn beyond(draft: &Draft<'_>, side: Side, line: u32) -> TextFault
    ensures { (more : ℕ) → most_entries < draft.now.entries + more → IsLineFault
        (limit_fault (length (declared_on side draft.now)) draft.now.entries more) line result }
{
    if has_all_agents(draft, side) {
        TextFault::Refused(RefusalKind::TooManyAgents, line)
    } else {
        TextFault::Refused(RefusalKind::TooManyEntries, line)
    }
}

/// Has a side as many agents as it may have?
fn has_all_agents(draft: &Draft<'_>, side: Side) -> bool
    ensures { result ≡ nat_le most_agents (length (declared_on side draft.now)) }
{
    match side {
        Side::Proposers => draft.proposers.len() >= MOST_AGENTS,
        Side::Reviewers => draft.reviewers.len() >= MOST_AGENTS,
    }
}

/// The side that the agents of a side list.
pub(crate) fn listed_side(kind: Kind, side: Side) -> Side
    ensures { result ≡ listed_side kind side }
{
    match (kind, side) {
        (Kind::Roommates, Side::Proposers) => Side::Proposers,
        (_, Side::Proposers) => Side::Reviewers,
        (_, Side::Reviewers) => Side::Proposers,
    }
}

/// Declares a name that isn't declared yet on its side.
pub(crate) fn declare<'a>(
    draft: &mut Draft<'a>,
    side: Side,
    name: &'a [u8],
    line: u32,
) -> Result<(), TextFault>
    requires few { length (table_on side draft.old).declared ≤ most_agents }
    ensures declared { IfOk result (λ _. DeclaresOn side draft.old draft.new name.now) }
    ensures refused { IfErr result (λ f. RefusesFor RefusalKind.Redeclared line
        (list_any (bytes_eq name.now) (table_on side draft.old).declared ≡ true) f) }
{
    let is_new = match side {
        Side::Proposers => draft.proposer_names.declare(name)?,
        Side::Reviewers => draft.reviewer_names.declare(name)?,
    };
    if is_new {
        Ok(())
    } else {
        Err(TextFault::Refused(RefusalKind::Redeclared, line))
    }
}

/// The indexes on a side of the names on a list, on which none stands twice.
pub(crate) fn listed<'a>(
    alloc: Global,
    draft: &mut Draft<'a>,
    side: Side,
    entries: &[&'a [u8]],
    line: u32,
) -> Result<Vec<u32>, TextFault>
    requires fresh { (k : ℕ) → slice_index (table_on side draft.old).stamps k < line }
    ensures listed { IfOk result (λ indexes. ListsOn side draft.old draft.new
        (texts_of entries.now) line indexes.items) }
    ensures refused { IfErr result (λ f. RefusesFor RefusalKind.RepeatedEntry line
        (has_repeated (texts_of entries.now) ≡ true) f) }
{
    let indexes = match side {
        Side::Proposers => draft.proposer_names.list(alloc, entries, line)?,
        Side::Reviewers => draft.reviewer_names.list(alloc, entries, line)?,
    };
    match indexes {
        Some(indexes) => Ok(indexes),
        None => Err(TextFault::Refused(RefusalKind::RepeatedEntry, line)),
    }
}

/// Puts an agent behind the others of its side, unless they are too many. There is room for its entries.
pub(crate) fn put_agent<'a>(
    draft: &mut Draft<'a>,
    side: Side,
    agent: Declared<'a>,
) -> Result<(), TextFault>
    requires { draft.old.entries + length agent.entries.items ≤ most_entries }
    ensures put { IfOk result (λ _. PutsOn side draft.old draft.new agent.entry) }
    ensures fault { IfErr result (λ f. IsLineFault
        (limit_fault (length (declared_on side draft.old)) draft.old.entries
        (length agent.entry.entries.items)) agent.entry.line f) }
{
    if has_all_agents(draft, side) {
        return Err(TextFault::Refused(RefusalKind::TooManyAgents, agent.line));
    }
    draft.entries += agent.entries.len();
    match side {
        Side::Proposers => draft.proposers.push(agent)?,
        Side::Reviewers => draft.reviewers.push(agent)?,
    }
    Ok(())
}

/// Are both runs of a pair names?
fn check_pair(proposer: &[u8], reviewer: &[u8], line: u32) -> Result<(), TextFault>
    ensures names { IfOk result (λ _. list_all is_a_name (proposer.now ∷ reviewer.now ∷ [])
        ≡ true) }
    ensures refused { IfErr result (λ f. RefusesFor RefusalKind.BadName line
        (list_all is_a_name (proposer.now ∷ reviewer.now ∷ []) ≡ false) f) }
{
    if is_name(proposer) && is_name(reviewer) {
        Ok(())
    } else {
        Err(TextFault::Refused(RefusalKind::BadName, line))
    }
}

/// Adds the weights of a pair that has none yet.
fn add_weight<'a>(
    draft: &mut Draft<'a>,
    line: u32,
    proposer: &'a [u8],
    reviewer: &'a [u8],
    weights: WeightRuns<'_>,
) -> Result<(), TextFault>
    ensures put { IfOk result (λ _. PutsWeight draft.old draft.new proposer.now reviewer.now
        weights.entry.weight.now (option_map (λ x. x.now) weights.entry.second) line) }
    ensures fault { IfErr result (λ f. IsLineFault
        (weight_fault (weights_in draft.old) proposer.now reviewer.now weights.entry.weight.now
        (option_map (λ x. x.now) weights.entry.second)) line f) }
{
    check_pair(proposer, reviewer, line)?;
    let Some(weights) = weights_on(weights, line) else {
        return Err(TextFault::Refused(RefusalKind::BadNumber, line));
    };
    make_ready(&mut draft.weights, draft.text)?;
    let pair = (TextKey { text: proposer }, TextKey { text: reviewer });
    if draft.weights.insert(pair, weights)?.is_some() {
        return Err(TextFault::Refused(RefusalKind::RepeatedWeight, line));
    }
    Ok(())
}

/// The weights that a line says; `None` where one is no number within the limit.
fn weights_on(runs: WeightRuns<'_>, line: u32) -> Option<Weights>
    ensures { IsWeighed runs.entry.weight.now (option_map (λ x. x.now) runs.entry.second) line
        result }
{
    let weight = signed(runs.weight, MOST_WEIGHT)?;
    let second = second_in(runs.second)?;
    Some(Weights {
        line,
        weight: in_four_bytes(weight),
        second: in_four_bytes(second),
    })
}

/// A weight within its limit, in four bytes.
fn in_four_bytes(weight: i64) -> i32
    requires { unsigned_abs weight ≤ most_weight }
    ensures { result ≡ weight }
{
    weight as i32
}

/// The second weight that a line says, which is 0 where it says none; `None` where it is no number within the limit.
fn second_in(run: Option<&[u8]>) -> Option<i64>
    ensures { result ≡ second_in (option_map (λ x. x.now) run.entry) }
{
    match run {
        Some(run) => signed(run, MOST_WEIGHT),
        None => Some(0),
    }
}

/// Adds a pair of which something is asked.
fn add_condition<'a>(
    draft: &mut Draft<'a>,
    line: u32,
    condition: Condition,
    proposer: &'a [u8],
    reviewer: &'a [u8],
) -> Result<(), TextFault>
    ensures bound { IfOk result (λ _. Binds condition draft.old draft.new proposer.now
        reviewer.now line) }
    ensures refused { IfErr result (λ f. RefusesFor RefusalKind.BadName line
        (list_all is_a_name (proposer.now ∷ reviewer.now ∷ []) ≡ false) f) }
{
    check_pair(proposer, reviewer, line)?;
    let pair = Pair {
        proposer,
        reviewer,
        line,
    };
    put_pair(draft, condition, pair)?;
    Ok(())
}

/// Puts a pair behind the others of which the same is asked.
fn put_pair<'a>(
    draft: &mut Draft<'a>,
    condition: Condition,
    pair: Pair<'a>,
) -> Result<(), AllocError>
    ensures { IfOk result (λ _. PutsPair condition draft.old draft.new pair.entry) }
{
    match condition {
        Condition::Force => draft.forced.push(pair)?,
        Condition::Forbid => draft.forbidden.push(pair)?,
    }
    Ok(())
}
