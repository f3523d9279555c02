//! From an instance to JSON.

ghost use Rattle.std.specs.Prelude.{◌≡◌, ◌<◌, ℕ, ℤ, All, IfOk, OnOk, IsTrue, length, map, slice_index, slice_index_or, pos, Some, true, false, codes, [], ◌∷◌};
ghost use Rattle.std.specs.List.{zip};
ghost use Rattle.serde_json.specs.View.{view, items_view, members_view};
ghost use Rattle.serde_json.specs.Data.{string, array, object};
ghost use Rattle.serde_json.specs.Written.{compact_text};
ghost use Rattle.sm_text.specs.Name.{is_name};
ghost use Rattle.sm_agents.specs.Sound.{IsInstance, ArePersons, IsPairOf};
ghost use Rattle.sm_instance.specs.Inputs.{IsInput};
ghost use Rattle.sm_json.specs.Parts.{has_capacities};
ghost use Rattle.sm_agents.specs.Written.{weighed};
ghost use Rattle.sm_agents.specs.Vectors.{agent_of, agents_of};
ghost use Rattle.sm_instance.specs.declared.inputs.Input.TheVariants.{Two, Room};
ghost use Rattle.sm_instance_lines.specs.Names.{name_of, said_agent, said_pair, said_weight, said_of};
ghost use Rattle.sm_instance_lines.specs.Printed.{lines_of};
ghost use Rattle.sm_answer.specs.Writing.{text_of};
ghost use Rattle.sm_json.specs.Making.{json_of, room_json, array_of, agent_json, pair_json, weight_json, put_if, put_order, sides_put, conditions_put, AreNamed, AreListed, AreAllListed};
ghost use Rattle.sm_agents.specs.Kinds.{kind_name};
ghost use Rattle.sm_json.specs.JsonText.{text_in};

use serde_json::{Map, Value, push, put};
use sm_instance::{Agent, Input, Instance, Kind, Persons};
use sm_instance_lines::has_own_order;
use std::alloc::{AllocError, Global};

/// The JSON of an instance: one object without spaces, in which members stand in the order of their names.
///
/// [`crate::to_text`] gives the text of the printed instance for it. `weights`, `forced` and `forbidden` stand only where they
/// aren't empty, `order` only where it isn't that of the proposers' lines, and a second weight only where it isn't 0. Takes time in
/// proportion to what is given, and memory for each name that is listed.
///
/// # Errors
///
/// `AllocError` where memory ran out, and only then.
pub fn to_json(alloc: Global, input: &Input) -> Result<Vec<u8>, AllocError>
    ensures json { IfOk result (λ bytes. bytes.items ≡ compact_text (json_of input.now)) }
    ensures back { IfOk result (λ bytes. text_in bytes.items
        ≡ Some (text_of (lines_of input.now))) }
{
    let value = value_of(alloc, input)?;
    value.to_vec(alloc)
}

/// The value of an instance.
fn value_of(alloc: Global, input: &Input) -> Result<Value, AllocError>
    ensures value { IfOk result (λ value. view value ≡ json_of input.now) }
    ensures sound { IsInput input.now }
{
    match input {
        Input::Two(instance) => two_value(alloc, instance),
        Input::Room(persons) => room_value(alloc, persons),
    }
}

/// The value of an instance with two sides.
fn two_value(alloc: Global, instance: &Instance) -> Result<Value, AllocError>
    ensures value { IfOk result (λ value. view value ≡ json_of (Two instance.now)) }
    ensures sound { IsInstance instance.now }
{
    let proposers = instance.proposers();
    let reviewers = instance.reviewers();
    let forced = instance.forced();
    let forbidden = instance.forbidden();
    let mut members = sides_and_weights(alloc, instance.kind(), proposers, reviewers, instance)?;
    put_order(alloc, &mut members, instance)?;
    with_conditions(alloc, members, proposers, reviewers, forced, forbidden)
}

/// The members of an instance with two sides but for its order and its conditions.
fn sides_and_weights(
    alloc: Global,
    kind: Kind,
    proposers: &[Agent],
    reviewers: &[Agent],
    instance: &Instance,
) -> Result<Map<String, Value>, AllocError>
    requires left { AreNamed (agents_of proposers.now) }
    requires right { AreNamed (agents_of reviewers.now) }
    requires left_lists { AreAllListed (agents_of proposers.now) (length reviewers.now) }
    requires right_lists { AreAllListed (agents_of reviewers.now) (length proposers.now) }
    requires weighed { All (λ (x : ℕ × ℕ × ℤ). IsPairOf (length proposers.now)
        (length reviewers.now) (weighed x)) instance.now.weights }
    requires instance { IsInstance instance.now }
    ensures { IfOk result (λ members. members_view members.entries
        ≡ sides_put kind (agents_of proposers.now) (agents_of reviewers.now)
        (zip instance.now.weights instance.now.seconds)) }
{
    let mut members = Map::new(alloc);
    put_weights(alloc, &mut members, proposers, reviewers, instance)?;
    let list = agents_value(alloc, reviewers, proposers, has_capacities(kind))?;
    put(&mut members, alloc, "reviewers", list)?;
    let list = agents_value(alloc, proposers, reviewers, false)?;
    put(&mut members, alloc, "proposers", list)?;
    let kind = kind_value(alloc, kind)?;
    put(&mut members, alloc, "kind", kind)?;
    Ok(members)
}

/// The value of an object with these members and with the conditions of an instance.
fn with_conditions(
    alloc: Global,
    members: Map<String, Value>,
    proposers: &[Agent],
    reviewers: &[Agent],
    forced: &[(u32, u32)],
    forbidden: &[(u32, u32)],
) -> Result<Value, AllocError>
    requires left { AreNamed (agents_of proposers.now) }
    requires right { AreNamed (agents_of reviewers.now) }
    requires forced { All (IsPairOf (length proposers.now) (length reviewers.now)) forced.now }
    requires forbidden { All (IsPairOf (length proposers.now) (length reviewers.now))
        forbidden.now }
    ensures { IfOk result (λ value. view value ≡ object
        (conditions_put (agents_of proposers.now) (agents_of reviewers.now) forced.now forbidden.now
        (members_view members.entries))) }
{
    let mut members = members;
    put_pairs(alloc, &mut members, "forced", proposers, reviewers, forced)?;
    put_pairs(
        alloc,
        &mut members,
        "forbidden",
        proposers,
        reviewers,
        forbidden,
    )?;
    Ok(Value::Object(members))
}

/// Puts the order of an instance into an object, where it isn't that of the proposers' lines.
fn put_order(
    alloc: Global,
    members: &mut Map<String, Value>,
    instance: &Instance,
) -> Result<(), AllocError>
    ensures { OnOk result (members_view members.new.entries
        ≡ put_order (said_of (Two instance.now)).order (members_view members.old.entries)) }
{
    if !has_own_order(instance) {
        return Ok(());
    }
    let names = list_value(alloc, instance.proposers(), instance.order())?;
    put(members, alloc, "order", names)
}

/// Has each reviewer its capacity?
fn has_capacities(kind: Kind) -> bool
    ensures { result ≡ has_capacities kind }
{
    match kind {
        Kind::Hospitals => true,
        Kind::Marriage | Kind::Roommates => false,
    }
}

/// The value of an instance of roommates.
fn room_value(alloc: Global, persons: &Persons) -> Result<Value, AllocError>
    ensures sound { ArePersons persons.now }
    ensures value { IfOk result (λ value. view value ≡ json_of (Room persons.now)) }
{
    let agents = persons.persons();
    room_parts(alloc, agents)
}

/// The value of roommates of these persons.
fn room_parts(alloc: Global, persons: &[Agent]) -> Result<Value, AllocError>
    requires named { AreNamed (agents_of persons.now) }
    requires lists { AreAllListed (agents_of persons.now) (length persons.now) }
    ensures { IfOk result (λ value. view value ≡ room_json
        (said_of (Room (agents_of persons.now)))) }
{
    let mut members = Map::new(alloc);
    let list = agents_value(alloc, persons, persons, false)?;
    put(&mut members, alloc, "persons", list)?;
    let kind = kind_value(alloc, Kind::Roommates)?;
    put(&mut members, alloc, "kind", kind)?;
    Ok(Value::Object(members))
}

/// The value of a kind: its name.
fn kind_value(alloc: Global, kind: Kind) -> Result<Value, AllocError>
    ensures { IfOk result (λ value. view value ≡ string (kind_name kind)) }
{
    Value::try_from_str(alloc, kind.name())
}

/// The value of some agents, who list agents of others.
fn agents_value(
    alloc: Global,
    agents: &[Agent],
    others: &[Agent],
    has_capacity: bool,
) -> Result<Value, AllocError>
    requires named { AreNamed (agents_of agents.now) }
    requires others { AreNamed (agents_of others.now) }
    requires listed { AreAllListed (agents_of agents.now) (length others.now) }
    ensures { IfOk result (λ value. view value ≡ array_of (agent_json has_capacity)
        (map (said_agent (agents_of others.now)) (agents_of agents.now))) }
{
    let mut list = Vec::new(alloc);
    for agent in agents {
        let value = agent_value(alloc, agent, others, has_capacity)?;
        push(&mut list, value)?;
    }
    Ok(Value::Array(list))
}

/// The value of an agent, who lists agents of others.
fn agent_value(
    alloc: Global,
    agent: &Agent,
    others: &[Agent],
    has_capacity: bool,
) -> Result<Value, AllocError>
    requires named { is_name agent.now.name.items ≡ true }
    requires others { AreNamed (agents_of others.now) }
    requires listed { AreListed agent.now.entries.items (length others.now) }
    ensures { IfOk result (λ value. view value ≡ agent_json has_capacity
        (said_agent (agents_of others.now) (agent_of agent.now))) }
{
    let mut members = Map::new(alloc);
    let name = name_value(alloc, &agent.name)?;
    put(&mut members, alloc, "name", name)?;
    let list = list_value(alloc, others, &agent.entries)?;
    put(&mut members, alloc, "list", list)?;
    if has_capacity {
        put(&mut members, alloc, "capacity", Value::from(agent.capacity))?;
    }
    Ok(Value::Object(members))
}

/// The value of a list of agents.
fn list_value(alloc: Global, others: &[Agent], entries: &[u32]) -> Result<Value, AllocError>
    requires others { AreNamed (agents_of others.now) }
    requires listed { AreListed entries.now (length others.now) }
    ensures { IfOk result (λ value. view value
        ≡ array_of string (map (name_of (agents_of others.now)) entries.now)) }
{
    let mut list = Vec::new(alloc);
    for a in entries {
        let name = name_value(alloc, name_at(others, *a))?;
        push(&mut list, name)?;
    }
    Ok(Value::Array(list))
}

/// The name of an agent.
fn name_at(agents: &[Agent], a: u32) -> &[u8]
    requires named { AreNamed (agents_of agents.now) }
    requires within { a < length agents.now }
    ensures name { result.now ≡ name_of (agents_of agents.now) a }
    ensures sound { is_name (name_of (agents_of agents.now) a) ≡ true }
{
    &agents[a as usize].name
}

/// A name as a string of JSON; its bytes are ASCII.
#[tactic(auto, using(crate::proofs::MakeLemmas::name_utf8))]
fn name_value(alloc: Global, name: &[u8]) -> Result<Value, AllocError>
    requires { is_name name.now ≡ true }
    ensures { IfOk result (λ value. view value ≡ string name.now) }
{
    let bytes = Vec::from_slice(alloc, name)?;
    Ok(Value::String(String::from_utf8(bytes).unwrap()))
}

/// Puts the weights of an instance into an object, where there are some.
fn put_weights(
    alloc: Global,
    members: &mut Map<String, Value>,
    proposers: &[Agent],
    reviewers: &[Agent],
    instance: &Instance,
) -> Result<(), AllocError>
    requires proposers { AreNamed (agents_of proposers.now) }
    requires reviewers { AreNamed (agents_of reviewers.now) }
    requires pairs { All (λ (x : ℕ × ℕ × ℤ). IsPairOf (length proposers.now)
        (length reviewers.now) (weighed x)) instance.now.weights }
    requires instance { IsInstance instance.now }
    ensures { OnOk result (members_view members.new.entries ≡ put_if (codes "weights") weight_json
        (map (said_weight (agents_of proposers.now) (agents_of reviewers.now))
        (zip instance.now.weights instance.now.seconds)) (members_view members.old.entries)) }
{
    let weights = instance.weights();
    if weights.is_empty() {
        return Ok(());
    }
    let mut list = Vec::new(alloc);
    'numbers: for n in 0..weights.len() {
        let value = weight_at(alloc, proposers, reviewers, instance, n)?;
        push(&mut list, value)?;
    }
    put(members, alloc, "weights", Value::Array(list))
}

/// The value of the weight of a number.
fn weight_at(
    alloc: Global,
    proposers: &[Agent],
    reviewers: &[Agent],
    instance: &Instance,
    n: usize,
) -> Result<Value, AllocError>
    requires proposers { AreNamed (agents_of proposers.now) }
    requires reviewers { AreNamed (agents_of reviewers.now) }
    requires pairs { All (λ (x : ℕ × ℕ × ℤ). IsPairOf (length proposers.now)
        (length reviewers.now) (weighed x)) instance.now.weights }
    requires instance { IsInstance instance.now }
    requires there { n < length instance.now.weights }
    ensures { IfOk result (λ value. view value ≡ weight_json
        (said_weight (agents_of proposers.now) (agents_of reviewers.now) (
          slice_index_or instance.now.weights n (0, 0, pos 0),
          slice_index_or instance.now.seconds n (pos 0),
        ))) }
{
    let weights = instance.weights();
    let seconds = instance.seconds();
    weight_value(alloc, proposers, reviewers, weights[n], seconds[n])
}

/// The value of a pair and its weights, of which the second stands where it isn't 0.
fn weight_value(
    alloc: Global,
    proposers: &[Agent],
    reviewers: &[Agent],
    weight: (u32, u32, i64),
    second: i64,
) -> Result<Value, AllocError>
    requires proposers { AreNamed (agents_of proposers.now) }
    requires reviewers { AreNamed (agents_of reviewers.now) }
    requires pair { IsPairOf (length proposers.now) (length reviewers.now) (weighed weight) }
    ensures { IfOk result (λ value. view value ≡ weight_json
        (said_weight (agents_of proposers.now) (agents_of reviewers.now) (weight, second))) }
{
    let (p, r, size) = weight;
    let mut items = pair_items(alloc, proposers, reviewers, p, r)?;
    push(&mut items, Value::from(size))?;
    if second == 0 {
        return Ok(Value::Array(items));
    }
    push(&mut items, Value::from(second))?;
    Ok(Value::Array(items))
}

/// Puts pairs into an object, where there are some.
fn put_pairs(
    alloc: Global,
    members: &mut Map<String, Value>,
    key: &str,
    proposers: &[Agent],
    reviewers: &[Agent],
    pairs: &[(u32, u32)],
) -> Result<(), AllocError>
    requires proposers { AreNamed (agents_of proposers.now) }
    requires reviewers { AreNamed (agents_of reviewers.now) }
    requires pairs { All (IsPairOf (length proposers.now) (length reviewers.now)) pairs.now }
    ensures { OnOk result (members_view members.new.entries ≡ put_if key.now pair_json
        (map (said_pair (agents_of proposers.now) (agents_of reviewers.now)) pairs.now)
        (members_view members.old.entries)) }
{
    if pairs.is_empty() {
        return Ok(());
    }
    let mut list = Vec::new(alloc);
    for pair in pairs {
        let (p, r) = *pair;
        let items = pair_items(alloc, proposers, reviewers, p, r)?;
        push(&mut list, Value::Array(items))?;
    }
    put(members, alloc, key, Value::Array(list))
}

/// The names of a pair.
fn pair_items(
    alloc: Global,
    proposers: &[Agent],
    reviewers: &[Agent],
    p: u32,
    r: u32,
) -> Result<Vec<Value>, AllocError>
    requires proposers { AreNamed (agents_of proposers.now) }
    requires reviewers { AreNamed (agents_of reviewers.now) }
    requires pair { IsPairOf (length proposers.now) (length reviewers.now) (p, r) }
    ensures { IfOk result (λ items. map view items.items ≡ string (name_of (agents_of proposers.now) p)
        ∷ string (name_of (agents_of reviewers.now) r) ∷ []) }
{
    let mut items = Vec::new(alloc);
    let proposer = name_value(alloc, name_at(proposers, p))?;
    push(&mut items, proposer)?;
    let reviewer = name_value(alloc, name_at(reviewers, r))?;
    push(&mut items, reviewer)?;
    Ok(items)
}
