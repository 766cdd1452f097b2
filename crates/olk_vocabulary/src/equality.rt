//! Equality of JSON values (JSON Schema 2020-12 Core, 4.2.2).
ghost use Rattle.std.specs.Prelude.{◌≡◌};
ghost use Rattle.std.specs.List.{list_any};
ghost use Rattle.serde_json.specs.Data.{string};
ghost use Rattle.serde_json.specs.View.{view, number_view, items_view, members_view};
ghost use Rattle.olk_base.specs.Nodes.{data_of};
ghost use Rattle.olk_spec.specs.Malformed.{items_list};
ghost use Rattle.olk_vocabulary.specs.Same.{same_value, same_items, same_members, is_bool, is_number, is_text};

use olk_base::{Node, is_same_text};
use olk_numbers::JsonNumber;
use serde_json::{Map, Number, Value};

/// Whether the node is the value.
pub(crate) fn is_value(value: &Value, node: Node<'_>) -> bool
    ensures { result ≡ same_value (view value.now) (data_of node.entry) }
{
    match node {
        Node::Value(other) => is_same_value(value, other),
        Node::Name(name) => is_spelled(value, name),
    }
}

fn is_spelled(value: &Value, name: &str) -> bool
    ensures { result ≡ same_value (view value.now) (string name.now) }
{
    match value {
        Value::String(text) => is_same_text(text.as_str(), name),
        _ => false,
    }
}

/// Whether the node is one of the values.
pub(crate) fn is_candidate(values: &Vec<Value>, node: Node<'_>) -> bool
    ensures { result ≡ list_any (λ d. same_value d (data_of node.entry))
        (items_list (items_view values.now.items)) }
{
    for value in values {
        if is_value(value, node) {
            return true;
        }
    }
    false
}

fn is_bool(one: bool, other: &Value) -> bool
    ensures { result ≡ is_bool one (view other.now) }
{
    match other {
        Value::Bool(truth) => if one { *truth } else { !*truth },
        _ => false,
    }
}

fn is_text(one: &str, other: &Value) -> bool
    ensures { result ≡ is_text one.now (view other.now) }
{
    match other {
        Value::String(text) => is_same_text(one, text.as_str()),
        _ => false,
    }
}

fn is_number(one: &Number, other: &Value) -> bool
    ensures { result ≡ is_number (number_view one.now) (view other.now) }
{
    match other {
        Value::Number(number) => JsonNumber::of(one).equals(JsonNumber::of(number)),
        _ => false,
    }
}

/// Whether the values are the same: numbers by value, and members by their names.
#[cycle(equality)]
fn is_same_value(one: &Value, other: &Value) -> bool
    ensures { result ≡ same_value (view one.now) (view other.now) }
{
    match one {
        Value::Null => matches!(other, Value::Null),
        Value::Bool(truth) => is_bool(*truth, other),
        Value::Number(number) => is_number(number, other),
        Value::String(text) => is_text(text.as_str(), other),
        Value::Array(items) => match other {
            Value::Array(others) => items_are_same(items, others),
            _ => false,
        },
        Value::Object(members) => match other {
            Value::Object(others) => members_are_same(members, others),
            _ => false,
        },
    }
}

#[cycle(equality)]
#[tactic(auto, using(crate::proofs::Sameness::item_rules))]
fn items_are_same(one: &Vec<Value>, other: &Vec<Value>) -> bool
    ensures { result ≡ same_items (items_view one.now.items) (items_view other.now.items) }
{
    if one.len() != other.len() {
        return false;
    }
    for (index, item) in one.iter().enumerate() {
        if !is_same_value(item, &other[index]) {
            return false;
        }
    }
    true
}

#[cycle(equality)]
fn members_are_same(one: &Map<String, Value>, other: &Map<String, Value>) -> bool
    ensures { result
        ≡ same_members (members_view one.now.entries) (members_view other.now.entries) }
{
    let mut others = other.iter();
    for (name, member) in one.iter() {
        let Some((other_name, other_member)) = others.next() else {
            return false;
        };
        if !is_same_text(name.as_str(), other_name.as_str()) {
            return false;
        }
        if !is_same_value(member, other_member) {
            return false;
        }
    }
    match others.next() {
        Some(_) => false,
        None => true,
    }
}
