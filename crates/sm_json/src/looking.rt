//! Looking into a JSON value.

ghost use Rattle.std.specs.Prelude.{◌≡◌, map, option_map};
ghost use Rattle.std.specs.List.{list_any};
ghost use Rattle.std.specs.Str.{bytes_eq};
ghost use Rattle.serde_json.specs.View.{view, members_view};
ghost use Rattle.sm_json.specs.Values.{items_in, name_in, capacity_in, weight_in, are_only, has_only};
ghost use Rattle.sm_json.specs.Parts.{at, kind_in};
ghost use Rattle.sm_json.specs.Roles.{members_of};

use serde_json::{Map, Value};
use sm_instance::Kind;
use sm_text::{MOST_CAPACITY, MOST_WEIGHT, is_name};

/// What an object stands for.
#[derive(Clone, Copy)]
pub(crate) enum Owner {
    /// An agent without a capacity.
    Agent,
    /// An agent with one.
    Hospital,
    /// An instance with two sides.
    Two,
    /// An instance of roommates.
    Room,
}

/// May an object that stands for this have a member of this name?
fn may_have(owner: Owner, key: &str) -> bool
    ensures { result ≡ list_any (bytes_eq key.now) (members_of owner) }
{
    match owner {
        Owner::Agent => key == "list" || key == "name",
        Owner::Hospital => key == "capacity" || key == "list" || key == "name",
        Owner::Two => {
            key == "kind"
                || key == "proposers"
                || key == "reviewers"
                || key == "weights"
                || key == "forced"
                || key == "forbidden"
                || key == "order"
        }
        Owner::Room => key == "kind" || key == "persons",
    }
}

/// Is a value an object that has no members but those that it may have?
pub(crate) fn has_only(value: &Value, owner: Owner) -> bool
    ensures { result ≡ has_only (members_of owner) (view value.now) }
{
    match value.as_object() {
        Some(members) => are_only(members, owner),
        None => false,
    }
}

/// May an object have each of these members?
fn are_only(members: &Map<String, Value>, owner: Owner) -> bool
    ensures { result ≡ are_only (members_of owner) (members_view members.now.entries) }
{
    for (key, _) in members.iter() {
        if !may_have(owner, key.as_str()) {
            return false;
        }
    }
    true
}

/// The items of an array.
#[tactic(auto, using(crate::proofs::AddLemmas::list_again))]
pub(crate) fn items_of(value: &Value) -> Option<&[Value]>
    ensures { option_map (λ items. map view items.now) result ≡ items_in (view value.now) }
{
    match value.as_array() {
        Some(items) => Some(items.as_slice()),
        None => None,
    }
}

/// The name that a value is.
pub(crate) fn name_of(value: &Value) -> Option<&[u8]>
    ensures { option_map (λ s. s.now) result ≡ name_in (view value.now) }
{
    match value.as_str() {
        Some(text) => if is_name(text.as_bytes()) {
            Some(text.as_bytes())
        } else {
            None
        },
        None => None,
    }
}

/// The name that stands in a member.
pub(crate) fn name_at<'v>(value: &'v Value, key: &str) -> Option<&'v [u8]>
    ensures { option_map (λ s. s.now) result ≡ at key.now name_in (view value.now) }
{
    match value.get(key) {
        Some(member) => name_of(member),
        None => None,
    }
}

/// The capacity that stands in a member.
pub(crate) fn capacity_at(value: &Value, key: &str) -> Option<u64>
    ensures { result ≡ at key.now capacity_in (view value.now) }
{
    match value.get(key) {
        Some(member) => capacity_of(member),
        None => None,
    }
}

/// The capacity that a value is.
fn capacity_of(value: &Value) -> Option<u64>
    ensures { result ≡ capacity_in (view value.now) }
{
    match value.as_u64() {
        Some(capacity) => if capacity <= u64::from(MOST_CAPACITY) {
            Some(capacity)
        } else {
            None
        },
        None => None,
    }
}

/// The weight that a value is.
pub(crate) fn weight_of(value: &Value) -> Option<i64>
    ensures { result ≡ weight_in (view value.now) }
{
    match value.as_i64() {
        Some(weight) => if weight.unsigned_abs() <= MOST_WEIGHT.unsigned_abs() {
            Some(weight)
        } else {
            None
        },
        None => None,
    }
}

/// The kind that stands in a member.
pub(crate) fn kind_at(value: &Value, key: &str) -> Option<Kind>
    ensures { result ≡ at key.now kind_in (view value.now) }
{
    match value.get(key) {
        Some(member) => kind_of(member),
        None => None,
    }
}

/// The kind that a value names.
fn kind_of(value: &Value) -> Option<Kind>
    ensures { result ≡ kind_in (view value.now) }
{
    match value.as_str() {
        Some(text) => Kind::named(text.as_bytes()),
        None => None,
    }
}
