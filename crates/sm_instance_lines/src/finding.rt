//! The lines of an instance by number.

ghost use Rattle.std.specs.Prelude.{◌≡◌, ◌<◌, ◌^◌, length, slice_get, IfSome};
ghost use Rattle.std.specs.Option.{option_map};
ghost use Rattle.sm_agents.specs.declared.kinds.Kind.TheVariants.{Roommates};
ghost use Rattle.sm_instance.specs.declared.inputs.Input.TheVariants.{Two, Room};
ghost use Rattle.sm_instance_lines.specs.Lines.{line_text, NamesAgents, end_line_at};
ghost use Rattle.sm_instance_lines.specs.Printed.{lines_of, agent_lines, item_lines, last_lines};
ghost use Rattle.sm_instance_lines.specs.Names.{said_of};

use crate::formats::has_own_order;
use sm_instance::{Input, Instance, Persons};

/// A line of a printed instance. Agents go by number, from 0.
#[derive(Clone, Copy)]
pub(crate) enum InstanceLine {
    /// The format and the kind of the instance.
    Header,
    /// A proposer, in roommates a person, and its list.
    Proposer(u32),
    /// A reviewer and its list.
    Reviewer(u32),
    /// The weight of a proposer and a reviewer, and their second weight.
    Weight(u32, u32, i64, i64),
    /// A forced pair.
    Force(u32, u32),
    /// A forbidden pair.
    Forbid(u32, u32),
    /// All proposers, in the order in which they are compared.
    Order,
    /// The end of the instance.
    End,
}

/// The line at a place, from 0, of the lines of an instance; `None` where there are fewer.
pub(crate) fn line_at(input: &Input, place: usize) -> Option<InstanceLine>
    ensures text { option_map (line_text input.now) result ≡ slice_get (lines_of input.now) place }
    ensures agents { IfSome result (λ line. NamesAgents input.now line) }
{
    if place == 0 {
        return Some(InstanceLine::Header);
    }
    match input {
        Input::Two(instance) => agent_line_at(instance, place - 1),
        Input::Room(persons) => person_line_at(persons, place - 1),
    }
}

/// The line at a place behind the header of an instance with two sides.
fn agent_line_at(instance: &Instance, place: usize) -> Option<InstanceLine>
    ensures text { option_map (line_text (Two instance.now)) result
        ≡ slice_get (agent_lines instance.now.kind (said_of (Two instance.now))) place }
    ensures agents { IfSome result (λ line. NamesAgents (Two instance.now) line) }
{
    let proposers = instance.proposer_count() as usize;
    if place < proposers {
        return Some(InstanceLine::Proposer(place as u32));
    }
    let place = place - proposers;
    let reviewers = instance.reviewer_count() as usize;
    if place < reviewers {
        return Some(InstanceLine::Reviewer(place as u32));
    }
    item_line_at(instance, place - reviewers)
}

/// The line at a place behind those of the agents.
fn item_line_at(instance: &Instance, place: usize) -> Option<InstanceLine>
    ensures text { option_map (line_text (Two instance.now)) result
        ≡ slice_get (item_lines (said_of (Two instance.now))) place }
    ensures agents { IfSome result (λ line. NamesAgents (Two instance.now) line) }
{
    let weights = instance.weights();
    let forced = instance.forced();
    let forbidden = instance.forbidden();
    if place < weights.len() {
        let (p, r, weight) = weights[place];
        let second = instance.seconds()[place];
        return Some(InstanceLine::Weight(p, r, weight, second));
    }
    let place = place - weights.len();
    if place < forced.len() {
        let (p, r) = forced[place];
        return Some(InstanceLine::Force(p, r));
    }
    let place = place - forced.len();
    if place < forbidden.len() {
        let (p, r) = forbidden[place];
        return Some(InstanceLine::Forbid(p, r));
    }
    last_line_at(instance, place - forbidden.len())
}

/// The line at a place behind those of the agents and pairs.
fn last_line_at(instance: &Instance, place: usize) -> Option<InstanceLine>
    ensures text { option_map (line_text (Two instance.now)) result
        ≡ slice_get (last_lines (said_of (Two instance.now))) place }
    ensures agents { IfSome result (λ line. NamesAgents (Two instance.now) line) }
{
    if !has_own_order(instance) {
        return end_line_at(place);
    }
    if place == 0 {
        return Some(InstanceLine::Order);
    }
    end_line_at(place - 1)
}

/// The line at a place behind which only `end` stands.
fn end_line_at(place: usize) -> Option<InstanceLine>
    ensures { result ≡ end_line_at place }
{
    if place == 0 {
        Some(InstanceLine::End)
    } else {
        None
    }
}

/// The line at a place behind the header of roommates.
fn person_line_at(persons: &Persons, place: usize) -> Option<InstanceLine>
    ensures text { option_map (line_text (Room persons.now)) result
        ≡ slice_get (agent_lines Roommates (said_of (Room persons.now))) place }
    ensures agents { IfSome result (λ line. NamesAgents (Room persons.now) line) }
{
    let count = persons.persons().len();
    if place < count {
        return Some(InstanceLine::Proposer(place as u32));
    }
    if place == count {
        return Some(InstanceLine::End);
    }
    None
}

/// How many lines an instance has.
pub(crate) fn line_count(input: &Input) -> usize
    ensures { result ≡ length (lines_of input.now) }
{
    match input {
        Input::Two(instance) => agent_line_count(instance) + 1,
        Input::Room(persons) => persons.persons().len() + 2,
    }
}

/// How many lines an instance with two sides has behind the header.
fn agent_line_count(instance: &Instance) -> usize
    ensures count { result ≡ length (agent_lines instance.now.kind (said_of (Two instance.now))) }
    ensures few { result < 2 ^ 63 }
{
    let agents = instance.proposer_count() as usize + instance.reviewer_count() as usize;
    let weights = instance.weights().len();
    let forced = instance.forced().len();
    let forbidden = instance.forbidden().len();
    let pairs = weights + forced + forbidden;
    if has_own_order(instance) {
        agents + pairs + 2
    } else {
        agents + pairs + 1
    }
}
