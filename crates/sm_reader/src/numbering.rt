//! Numbers for names, once all agents are declared.

ghost use Rattle.std.specs.Prelude.{◌≡◌, ◌<◌, ◌^◌, ◌||◌, ◌==◌, ◌++◌, ◌∷◌, [], if◌then◌else◌, ℕ, true, length, map, drop, slice_index_or, false, IfOk};
ghost use Rattle.std.specs.List.{list_any};
ghost use Rattle.std.specs.Option.{option_map};
ghost use Rattle.sm_agents.specs.Named.{names_first};
ghost use Rattle.sm_agents.specs.Vectors.{agent_of, agents_of};
ghost use Rattle.sm_reader.specs.InstanceText.{least, unknown_lines, lines_with_unknown, pairs_with_unknown, order_with_unknown, numbered};
ghost use Rattle.sm_keys.specs.Tables.{is_unknown, number_in, text_at, AreBelow, AreInOrder};
ghost use Rattle.sm_text.specs.Slices.{texts_of};
ghost use Rattle.sm_reader.specs.Draft.{said_of, listed_table, agent_in, pair_in, given_in, order_of, AreAgentsBelow};
ghost use Rattle.sm_reader.specs.Numbering.{line_if, pair_among, weight_among, weighed_pair, second_of, agents_with_unknown, IsReady, IsTwoSided, NumbersPersons, NumbersSides, NumbersSaid, NumbersBoth, ArePartsOf};

use crate::draft::{Declared, Draft, Order, Pair, Weighed};
use sm_agents::full_order;
use sm_instance::{Agent, Kind, Parts};
use sm_keys::Names;
use sm_lists::earlier;
use std::alloc::{AllocError, Global};

/// The agents of both sides by number, and the order of the proposers.
#[derive(Drop)]
struct BothNumbered {
    proposers: Vec<Agent>,
    reviewers: Vec<Agent>,
    order: Vec<u32>,
}

/// The weights of pairs and the pairs of which something is asked, by number.
#[derive(Drop)]
struct SaidNumbered {
    weights: Vec<(u32, u32, i64)>,
    seconds: Vec<i64>,
    forced: Vec<(u32, u32)>,
    forbidden: Vec<(u32, u32)>,
}

/// The first line that names an agent which isn't declared.
pub(crate) fn first_unknown(kind: Kind, draft: &Draft<'_>) -> Option<u32>
    requires { IsReady kind draft.now }
    ensures { result ≡ least (unknown_lines kind (said_of kind draft.now)) }
{
    let proposers = &draft.proposer_names;
    let reviewers = &draft.reviewer_names;
    let in_agents = first_in_agents(kind, draft);
    let in_weights = first_in_weights(proposers, reviewers, &draft.weights);
    let in_forced = first_in_pairs(proposers, reviewers, &draft.forced);
    let in_forbidden = first_in_pairs(proposers, reviewers, &draft.forbidden);
    let of_weights = earlier(in_agents, in_weights);
    let of_forced = earlier(of_weights, in_forced);
    let of_pairs = earlier(of_forced, in_forbidden);
    earlier(of_pairs, first_in_order(proposers, &draft.order))
}

/// The first line of an agent that lists a name which isn't declared. No line does where each name that stands on lists is
/// declared, and nothing is looked for then.
fn first_in_agents(kind: Kind, draft: &Draft<'_>) -> Option<u32>
    requires { IsReady kind draft.now }
    ensures { result ≡ least (agents_with_unknown kind draft.now) }
{
    if draft.proposer_names.are_declared() && draft.reviewer_names.are_declared() {
        return None;
    }
    let in_proposers = first_in_proposers(kind, draft);
    earlier(
        in_proposers,
        first_in_lists(&draft.proposer_names, &draft.reviewers),
    )
}

/// The first line whose proposer lists a name that isn't declared.
fn first_in_proposers(kind: Kind, draft: &Draft<'_>) -> Option<u32>
    requires { IsReady kind draft.now }
    ensures { let t = listed_table kind draft.now.proposer_names draft.now.reviewer_names in
        result ≡ least (lines_with_unknown t.declared (map (agent_in t.texts)
        draft.now.proposers.items)) }
{
    match kind {
        Kind::Roommates => first_in_lists(&draft.proposer_names, &draft.proposers),
        _ => first_in_lists(&draft.reviewer_names, &draft.proposers),
    }
}

/// The first line whose list has a name that isn't declared.
fn first_in_lists(names: &Names<'_>, agents: &[Declared<'_>]) -> Option<u32>
    requires { AreAgentsBelow (length names.now.texts) agents.now }
    ensures { result ≡ least (lines_with_unknown names.now.declared
        (map (agent_in names.now.texts) agents.now)) }
{
    let mut first = None;
    'agents: for agent in agents {
        first = earlier(
            first,
            line_if(agent.line, has_unknown(names, &agent.entries)),
        );
    }
    first
}

/// A line, if it counts.
fn line_if(line: u32, counts: bool) -> Option<u32>
    ensures { result ≡ line_if counts line }
{
    if counts { Some(line) } else { None }
}

/// Is one of these names not declared?
fn has_unknown(names: &Names<'_>, indexes: &[u32]) -> bool
    requires { AreBelow (length names.now.texts) indexes.now }
    ensures { result ≡ list_any (is_unknown names.now.declared)
        (map (text_at names.now.texts) indexes.now) }
{
    'indexes: for index in indexes {
        if !names.is_declared(*index) {
            return true;
        }
    }
    false
}

/// The first line that gives weights to a pair of which one isn't declared.
fn first_in_weights(
    proposers: &Names<'_>,
    reviewers: &Names<'_>,
    weights: &Weighed<'_>,
) -> Option<u32>
    ensures { result ≡ least (pairs_with_unknown proposers.now.declared reviewers.now.declared
        (map weighed_pair weights.now.entries)) }
{
    let mut first = None;
    'weights: for (names, given) in weights.iter() {
        let (proposer, reviewer) = (names.0.text, names.1.text);
        first = earlier(
            first,
            line_if(
                given.line,
                is_unknown(proposers, reviewers, proposer, reviewer),
            ),
        );
    }
    first
}

/// The first line that says something of a pair of which one isn't declared.
fn first_in_pairs(proposers: &Names<'_>, reviewers: &Names<'_>, pairs: &[Pair<'_>]) -> Option<u32>
    ensures { result ≡ least (pairs_with_unknown proposers.now.declared reviewers.now.declared
        (map pair_in pairs.now)) }
{
    let mut first = None;
    'pairs: for pair in pairs {
        first = earlier(
            first,
            line_if(
                pair.line,
                is_unknown(proposers, reviewers, pair.proposer, pair.reviewer),
            ),
        );
    }
    first
}

/// The line of an order that names a proposer who isn't declared.
fn first_in_order(proposers: &Names<'_>, order: &Option<Order<'_>>) -> Option<u32>
    ensures { result ≡ least (order_with_unknown proposers.now.declared
        (option_map order_of order.now)) }
{
    match order {
        Some(order) => line_if(order.line, are_unknown(proposers, &order.tokens)),
        None => None,
    }
}

/// Is one of the names behind the first token not declared?
fn are_unknown(names: &Names<'_>, tokens: &[&[u8]]) -> bool
    ensures { result ≡ list_any (is_unknown names.now.declared) (drop 1 (texts_of tokens.now)) }
{
    'names: for at in 1..tokens.len() {
        if !names.knows(tokens[at]) {
            return true;
        }
    }
    false
}

/// Is one of a pair not declared?
fn is_unknown(
    proposers: &Names<'_>,
    reviewers: &Names<'_>,
    proposer: &[u8],
    reviewer: &[u8],
) -> bool
    ensures { result ≡ (is_unknown proposers.now.declared proposer.now
        || is_unknown reviewers.now.declared reviewer.now) }
{
    !proposers.knows(proposer) || !reviewers.knows(reviewer)
}

/// The persons of a draft by number. Nothing else of the draft is kept.
pub(crate) fn numbered_persons(alloc: Global, draft: Draft<'_>) -> Result<Vec<Agent>, AllocError>
    requires { IsReady Kind.Roommates draft }
    ensures { IfOk result (λ persons. NumbersPersons draft.entry persons.items) }
{
    let Draft {
        proposer_names,
        reviewer_names,
        proposers,
        reviewers,
        weights,
        masters,
        on_masters,
        ..
    } = draft;
    drop(reviewer_names);
    drop(reviewers);
    drop(weights);
    drop(masters);
    drop(on_masters);
    let persons = number_agents(alloc, &proposer_names, proposers);
    drop(proposer_names);
    persons
}

/// The two sides of a draft by number. Nothing else of the draft is kept.
pub(crate) fn numbered_sides(
    alloc: Global,
    kind: Kind,
    draft: Draft<'_>,
) -> Result<Parts, AllocError>
    requires { IsTwoSided draft }
    ensures kind { IfOk result (λ sides. sides.kind ≡ kind) }
    ensures sides { IfOk result (λ sides. NumbersSides draft.entry sides) }
{
    let Draft {
        proposer_names,
        reviewer_names,
        proposers,
        reviewers,
        weights,
        forced,
        forbidden,
        masters,
        on_masters,
        order,
        ..
    } = draft;
    drop(masters);
    drop(on_masters);
    let said = number_said(
        alloc,
        &proposer_names,
        &reviewer_names,
        weights,
        forced,
        forbidden,
    );
    let both = number_both(
        alloc,
        &proposer_names,
        &reviewer_names,
        proposers,
        reviewers,
        order,
    );
    drop(proposer_names);
    drop(reviewer_names);
    parts_of(kind, both, said)
}

/// The parts of an instance, if there was memory for all of them.
fn parts_of(
    kind: Kind,
    both: Result<BothNumbered, AllocError>,
    said: Result<SaidNumbered, AllocError>,
) -> Result<Parts, AllocError>
    ensures { IfOk result (λ parts. ArePartsOf kind both said parts) }
{
    let BothNumbered {
        proposers,
        reviewers,
        order,
    } = both?;
    let SaidNumbered {
        weights,
        seconds,
        forced,
        forbidden,
    } = said?;
    Ok(Parts {
        kind,
        proposers,
        reviewers,
        weights,
        forced,
        forbidden,
        seconds,
        order,
    })
}

/// Weights and conditions by number.
fn number_said(
    alloc: Global,
    proposers: &Names<'_>,
    reviewers: &Names<'_>,
    weights: Weighed<'_>,
    forced: Vec<Pair<'_>>,
    forbidden: Vec<Pair<'_>>,
) -> Result<SaidNumbered, AllocError>
    requires few_proposers { length proposers.now.declared < 2 ^ 32 }
    requires few_reviewers { length reviewers.now.declared < 2 ^ 32 }
    ensures { IfOk result (λ said. NumbersSaid proposers.now.declared reviewers.now.declared
        weights.entry.entries forced.entry.items forbidden.entry.items said) }
{
    let seconds = second_weights(alloc, &weights)?;
    let weights = number_weights(alloc, proposers, reviewers, &weights)?;
    let forced = number_pairs(alloc, proposers, reviewers, forced)?;
    let forbidden = number_pairs(alloc, proposers, reviewers, forbidden)?;
    Ok(SaidNumbered {
        weights,
        seconds,
        forced,
        forbidden,
    })
}

/// The agents of both sides by number, and the order of the proposers.
fn number_both(
    alloc: Global,
    proposer_names: &Names<'_>,
    reviewer_names: &Names<'_>,
    proposers: Vec<Declared<'_>>,
    reviewers: Vec<Declared<'_>>,
    order: Option<Order<'_>>,
) -> Result<BothNumbered, AllocError>
    requires few_proposers { length proposer_names.now.declared < 2 ^ 32 }
    requires few_reviewers { length reviewer_names.now.declared < 2 ^ 32 }
    requires few { length proposers.items < 2 ^ 32 }
    requires proposers_in { AreAgentsBelow (length reviewer_names.now.texts) proposers.items }
    requires reviewers_in { AreAgentsBelow (length proposer_names.now.texts) reviewers.items }
    ensures { IfOk result (λ agents. NumbersBoth proposer_names.now reviewer_names.now
        proposers.entry.items reviewers.entry.items order.entry agents) }
{
    let count = proposers.len();
    let first = number_order(alloc, proposer_names, order)?;
    let order = full_order(alloc, count, first)?;
    let proposers = number_agents(alloc, reviewer_names, proposers)?;
    let reviewers = number_agents(alloc, proposer_names, reviewers)?;
    Ok(BothNumbered {
        proposers,
        reviewers,
        order,
    })
}

/// The agents of a side, with numbers for the names on their lists.
fn number_agents(
    alloc: Global,
    names: &Names<'_>,
    side: Vec<Declared<'_>>,
) -> Result<Vec<Agent>, AllocError>
    requires few { length names.now.declared < 2 ^ 32 }
    requires in_range { AreAgentsBelow (length names.now.texts) side.items }
    ensures { IfOk result (λ v. agents_of v.items ≡ map (numbered names.now.declared)
        (map (agent_in names.now.texts) side.entry.items)) }
{
    let in_order = names.are_in_order();
    let mut agents = Vec::with_capacity(alloc, side.len())?;
    'agents: for declared in side {
        agents.push(number_agent(alloc, names, in_order, declared)?)?;
    }
    Ok(agents)
}

/// An agent, with numbers for the names on its list.
fn number_agent(
    alloc: Global,
    names: &Names<'_>,
    in_order: bool,
    declared: Declared<'_>,
) -> Result<Agent, AllocError>
    requires order { in_order ≡ true → AreInOrder names.now }
    requires few { length names.now.declared < 2 ^ 32 }
    requires in_range { AreBelow (length names.now.texts) declared.entries.items }
    ensures { IfOk result (λ a. agent_of a ≡ numbered names.now.declared
        (agent_in names.now.texts declared.entry)) }
{
    let Declared {
        name,
        capacity,
        line,
        mut entries,
    } = declared;
    let name = Vec::from_slice(alloc, name)?;
    number_names(names, in_order, &mut entries);
    Ok(Agent {
        name,
        capacity,
        line,
        entries,
    })
}

/// Puts the numbers of names in the place of their indexes. In order these are the same, and nothing is put.
fn number_names(names: &Names<'_>, in_order: bool, entries: &mut [u32])
    requires order { in_order ≡ true → AreInOrder names.now }
    requires few { length names.now.declared < 2 ^ 32 }
    requires in_range { AreBelow (length names.now.texts) entries.old }
    ensures { entries.new ≡ map (number_in names.now.declared)
        (map (text_at names.now.texts) entries.old) }
{
    if in_order {
        return;
    }
    'entries: for entry in entries.iter_mut() {
        *entry = names.number(*entry);
    }
}

/// A pair of two names by number.
fn number_pair(
    proposers: &Names<'_>,
    reviewers: &Names<'_>,
    proposer: &[u8],
    reviewer: &[u8],
) -> (u32, u32)
    requires few_proposers { length proposers.now.declared < 2 ^ 32 }
    requires few_reviewers { length reviewers.now.declared < 2 ^ 32 }
    ensures { result ≡ (number_in proposers.now.declared proposer.now, number_in reviewers.now.declared reviewer.now) }
{
    let proposer = proposers.number_of(proposer);
    let reviewer = reviewers.number_of(reviewer);
    (proposer, reviewer)
}

/// Pairs by number.
fn number_pairs(
    alloc: Global,
    proposers: &Names<'_>,
    reviewers: &Names<'_>,
    pairs: Vec<Pair<'_>>,
) -> Result<Vec<(u32, u32)>, AllocError>
    requires few_proposers { length proposers.now.declared < 2 ^ 32 }
    requires few_reviewers { length reviewers.now.declared < 2 ^ 32 }
    ensures { IfOk result (λ v. v.items
        ≡ map (pair_among proposers.now.declared reviewers.now.declared) (map pair_in pairs.entry.items)) }
{
    let mut numbers = Vec::with_capacity(alloc, pairs.len())?;
    'pairs: for pair in pairs {
        let numbered = number_pair(proposers, reviewers, pair.proposer, pair.reviewer);
        numbers.push(numbered)?;
    }
    Ok(numbers)
}

/// Weights of pairs by number.
fn number_weights(
    alloc: Global,
    proposers: &Names<'_>,
    reviewers: &Names<'_>,
    weights: &Weighed<'_>,
) -> Result<Vec<(u32, u32, i64)>, AllocError>
    requires few_proposers { length proposers.now.declared < 2 ^ 32 }
    requires few_reviewers { length reviewers.now.declared < 2 ^ 32 }
    ensures { IfOk result (λ v. v.items ≡ map (weight_among proposers.now.declared
        reviewers.now.declared) (map given_in weights.now.entries)) }
{
    let mut numbers = Vec::with_capacity(alloc, weights.len())?;
    'weights: for (names, given) in weights.iter() {
        let (proposer, reviewer) = number_pair(proposers, reviewers, names.0.text, names.1.text);
        numbers.push((proposer, reviewer, i64::from(given.weight)))?;
    }
    Ok(numbers)
}

/// The second weights of pairs.
fn second_weights(alloc: Global, weights: &Weighed<'_>) -> Result<Vec<i64>, AllocError>
    ensures { IfOk result (λ v. v.items ≡ map second_of weights.now.entries) }
{
    let mut seconds = Vec::with_capacity(alloc, weights.len())?;
    'weights: for (_, given) in weights.iter() {
        seconds.push(i64::from(given.second))?;
    }
    Ok(seconds)
}

/// The numbers of the proposers that come first by an order; none do where there is no order.
fn number_order(
    alloc: Global,
    proposers: &Names<'_>,
    order: Option<Order<'_>>,
) -> Result<Vec<u32>, AllocError>
    requires { length proposers.now.declared < 2 ^ 32 }
    ensures { IfOk result (λ v. v.items ≡ map (number_in proposers.now.declared)
        (names_first (option_map order_of order.entry))) }
{
    match order {
        Some(Order { tokens, .. }) => number_tokens(alloc, proposers, &tokens),
        None => Ok(Vec::new(alloc)),
    }
}

/// The numbers of the names behind the first token.
fn number_tokens(alloc: Global, names: &Names<'_>, tokens: &[&[u8]]) -> Result<Vec<u32>, AllocError>
    requires { length names.now.declared < 2 ^ 32 }
    ensures { IfOk result (λ v. v.items ≡ map (number_in names.now.declared)
        (drop 1 (texts_of tokens.now))) }
{
    let mut numbers = Vec::with_capacity(alloc, tokens.len())?;
    'names: for at in 1..tokens.len() {
        numbers.push(names.number_of(tokens[at]))?;
    }
    Ok(numbers)
}
