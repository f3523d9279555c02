//! From JSON to the text of an instance.

ghost use Rattle.std.specs.Prelude.{◌≡◌, codes, Some, true, false};
ghost use Rattle.serde_json.specs.View.{view};
ghost use Rattle.serde_json.specs.Find.{get};
ghost use Rattle.sm_json.specs.Values.{has_only};
ghost use Rattle.sm_json.specs.Adding.{Adds, IsText};
ghost use Rattle.sm_json.specs.JsonText.{json_header, text_in, json_text, value_in};
ghost use Rattle.sm_json.specs.Parts.{two_in, room_in, two_members};
ghost use Rattle.sm_json.specs.Reading.{IsValue, instance_added, items_added, role_of, two_added, room_added, asks_second};
ghost use Rattle.sm_json.specs.Roles.{with_end};

use crate::agents::{Role, put_agents};
use crate::faults::JsonFault;
use crate::looking::{Owner, has_only, kind_at};
use crate::weights::{is_seconded, put_order, put_pairs, put_weights};
use serde_json::Value;
use sm_instance::Kind;
use sm_instance_lines::put_header;
use sm_text::LineWriter;
use std::alloc::Global;

/// The text of the instance that bytes are in JSON.
///
/// The value is an object with exactly these members. For a marriage or hospitals: `kind`, `proposers`, `reviewers`, and, if
/// they are there, `weights`, `forced`, `forbidden` and `order`; for roommates: `kind` and `persons`. Agents are objects with
/// exactly `name` and `list`, and in hospitals each reviewer has also `capacity`. Of members of one name the last counts. The
/// text has the lines of a printed instance, of these members in their order; whether it can be read is not looked at. It is of
/// the second format exactly where there is `order`, or a weight with two numbers.
///
/// Takes time and memory in proportion to the bytes: the value that is read takes up to some 130 bytes of memory for each, as was
/// measured, and is let go before the text is given.
///
/// # Errors
///
/// `BadJson` exactly where the bytes aren't JSON in UTF-8, nested at most 127 deep, or their value is no instance; `OutOfMemory`
/// where memory ran out.
#[tactic(auto, using(crate::proofs::ReadLemmas::behind_nothing))]
pub fn to_text(alloc: Global, bytes: &[u8]) -> Result<Vec<u8>, JsonFault>
    ensures { IsText (text_in bytes.now) result }
{
    let mut into = LineWriter::new(alloc, bytes.len())?;
    put_read(alloc, &mut into, bytes)?;
    Ok(into.into_bytes())
}

/// Puts the text of the instance that bytes are.
fn put_read(alloc: Global, into: &mut LineWriter, bytes: &[u8]) -> Result<(), JsonFault>
    ensures { Adds into.old.bytes into.new.bytes (text_in bytes.now) result }
{
    let value = read_value(alloc, bytes)?;
    put_instance(into, &value)
}

/// The value that bytes are.
#[tactic(auto, using(crate::proofs::ReadLemmas::value_found, crate::proofs::ReadLemmas::value_refused))]
fn read_value(alloc: Global, bytes: &[u8]) -> Result<Value, JsonFault>
    ensures { IsValue (value_in bytes.now) result }
{
    match Value::from_slice(alloc, bytes) {
        Ok(value) => Ok(value),
        Err(error) => if error.is_memory() {
            Err(JsonFault::OutOfMemory)
        } else {
            Err(JsonFault::BadJson)
        },
    }
}

/// Puts the text of the instance that a value is.
fn put_instance(into: &mut LineWriter, value: &Value) -> Result<(), JsonFault>
    ensures { Adds into.old.bytes into.new.bytes (json_text (view value.now)) result }
{
    match kind_at(value, "kind") {
        Some(Kind::Marriage) => put_two(into, Kind::Marriage, Role::Reviewer, value),
        Some(Kind::Hospitals) => put_two(into, Kind::Hospitals, Role::Hospital, value),
        Some(Kind::Roommates) => put_room(into, value),
        None => Err(JsonFault::BadJson),
    }
}

/// Puts the text of an instance with two sides.
#[tactic(auto, using(crate::proofs::ReadLemmas::two_none_only))]
fn put_two(into: &mut LineWriter, kind: Kind, role: Role, value: &Value) -> Result<(), JsonFault>
    requires { role ≡ role_of kind }
    ensures { Adds into.old.bytes into.new.bytes (instance_added (two_in kind (view value.now)))
        result }
{
    if has_only(value, Owner::Two) {
        put_two_sides(into, kind, role, value)
    } else {
        Err(JsonFault::BadJson)
    }
}

/// Puts the text of the instance that an object with no other members is.
#[tactic(auto, using(crate::proofs::ReadLemmas::two_none_left, crate::proofs::ReadLemmas::two_none_right))]
fn put_two_sides(
    into: &mut LineWriter,
    kind: Kind,
    role: Role,
    value: &Value,
) -> Result<(), JsonFault>
    requires role { role ≡ role_of kind }
    requires only { has_only two_members (view value.now) ≡ true }
    ensures { Adds into.old.bytes into.new.bytes (instance_added (two_in kind (view value.now)))
        result }
{
    match value.get("proposers") {
        Some(proposers) => match value.get("reviewers") {
            Some(reviewers) => put_sides(into, kind, role, value, proposers, reviewers),
            None => Err(JsonFault::BadJson),
        },
        None => Err(JsonFault::BadJson),
    }
}

/// Puts the text of an instance with these proposers and reviewers.
fn put_sides(
    into: &mut LineWriter,
    kind: Kind,
    role: Role,
    value: &Value,
    proposers: &Value,
    reviewers: &Value,
) -> Result<(), JsonFault>
    requires { role ≡ role_of kind }
    ensures { Adds into.old.bytes into.new.bytes
        (two_added kind (view value.now) (view proposers.now) (view reviewers.now)) result }
{
    put_head(into, kind, value)?;
    put_agents(into, Role::Proposer, proposers)?;
    put_agents(into, role, reviewers)?;
    put_items(into, value)?;
    put_last(into)
}

/// Puts `end` and LF, with which every text of an instance ends.
fn put_last(into: &mut LineWriter) -> Result<(), JsonFault>
    ensures { Adds into.old.bytes into.new.bytes (Some (codes "end\n")) result }
{
    into.put_bytes(b"end\n")?;
    Ok(())
}

/// Puts the header of an instance with two sides.
fn put_head(into: &mut LineWriter, kind: Kind, value: &Value) -> Result<(), JsonFault>
    ensures { Adds into.old.bytes into.new.bytes
        (Some (with_end (json_header (asks_second (get (codes "weights") (view value.now))
        (get (codes "order") (view value.now))) kind))) result }
{
    put_header(into, if asks_second(value) { 2 } else { 1 }, kind)?;
    into.put_bytes(b"\n")?;
    Ok(())
}

/// Is there an order, or a pair with two weights?
fn asks_second(value: &Value) -> bool
    ensures { result ≡ asks_second (get (codes "weights") (view value.now))
        (get (codes "order") (view value.now)) }
{
    match value.get("order") {
        Some(_) => true,
        None => match value.get("weights") {
            Some(weights) => is_seconded(weights),
            None => false,
        },
    }
}

/// Puts the lines of pairs, and that of an order.
fn put_items(into: &mut LineWriter, value: &Value) -> Result<(), JsonFault>
    ensures { Adds into.old.bytes into.new.bytes (items_added (view value.now)) result }
{
    put_weights(into, value)?;
    put_pairs(into, b"force ", value, "forced")?;
    put_pairs(into, b"forbid ", value, "forbidden")?;
    put_order(into, value)
}

/// Puts the text of an instance of roommates.
#[tactic(auto, using(crate::proofs::ReadLemmas::room_none_only, crate::proofs::ReadLemmas::room_none_left, crate::proofs::ReadLemmas::room_text))]
fn put_room(into: &mut LineWriter, value: &Value) -> Result<(), JsonFault>
    ensures { Adds into.old.bytes into.new.bytes (instance_added (room_in (view value.now)))
        result }
{
    if has_only(value, Owner::Room) {
        match value.get("persons") {
            Some(persons) => put_persons(into, persons),
            None => Err(JsonFault::BadJson),
        }
    } else {
        Err(JsonFault::BadJson)
    }
}

/// Puts the text of an instance of roommates with these persons.
fn put_persons(into: &mut LineWriter, persons: &Value) -> Result<(), JsonFault>
    ensures { Adds into.old.bytes into.new.bytes (room_added (view persons.now)) result }
{
    put_room_head(into)?;
    put_agents(into, Role::Proposer, persons)?;
    put_last(into)
}

/// Puts the header of roommates.
fn put_room_head(into: &mut LineWriter) -> Result<(), JsonFault>
    ensures { Adds into.old.bytes into.new.bytes
        (Some (with_end (json_header false Kind.Roommates))) result }
{
    put_header(into, 1, Kind::Roommates)?;
    into.put_bytes(b"\n")?;
    Ok(())
}
