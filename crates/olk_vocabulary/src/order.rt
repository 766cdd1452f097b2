//! An order of JSON values in which those that are the same are `Equal`.
ghost use Rattle.std.specs.Prelude.{◌≡◌, bytes_eq};
ghost use Rattle.std.specs.Ordering.{is_eq, nat_cmp};
ghost use Rattle.std.specs.Cmp.Lexicographic.{slice_cmp};
ghost use Rattle.serde_json.specs.Data.{null, boolean, number, string};
ghost use Rattle.serde_json.specs.View.{view, number_view, items_view, members_view};
ghost use Rattle.olk_vocabulary.specs.Order.{value_cmp, items_cmp, members_cmp};
ghost use Rattle.olk_vocabulary.specs.Same.{same_value, same_items, same_members};

use crate::ranked::RankedNumber;
use serde_json::{Map, Number, Value};
use std::cmp::Ordering;

/// Values by their kinds, numbers by value, texts by bytes, and lists and objects part by part.
#[cycle(order)]
pub(crate) fn compare(one: &Value, other: &Value) -> Ordering
    ensures order { result ≡ value_cmp (view one.now) (view other.now) }
    ensures same { is_eq result ≡ same_value (view one.now) (view other.now) }
{
    match one {
        Value::Null => compare_null(other),
        Value::Bool(truth) => compare_truth(*truth, other),
        Value::Number(number) => compare_number(number, other),
        Value::String(text) => compare_text(text.as_str(), other),
        Value::Array(items) => match other {
            Value::Array(others) => compare_items(items, others),
            Value::Object(_) => Ordering::Less,
            _ => Ordering::Greater,
        },
        Value::Object(members) => match other {
            Value::Object(others) => compare_members(members, others),
            _ => Ordering::Greater,
        },
    }
}

fn compare_null(other: &Value) -> Ordering
    ensures order { result ≡ value_cmp null (view other.now) }
    ensures same { is_eq result ≡ same_value null (view other.now) }
{
    match other {
        Value::Null => Ordering::Equal,
        _ => Ordering::Less,
    }
}

fn compare_truth(one: bool, other: &Value) -> Ordering
    ensures order { result ≡ value_cmp (boolean one) (view other.now) }
    ensures same { is_eq result ≡ same_value (boolean one) (view other.now) }
{
    match other {
        Value::Null => Ordering::Greater,
        Value::Bool(truth) => one.cmp(truth),
        _ => Ordering::Less,
    }
}

#[tactic(auto, using(crate::proofs::Orders::number_same))]
fn compare_number(one: &Number, other: &Value) -> Ordering
    ensures order { result ≡ value_cmp (number (number_view one.now)) (view other.now) }
    ensures same { is_eq result ≡ same_value (number (number_view one.now)) (view other.now) }
{
    match other {
        Value::Null | Value::Bool(_) => Ordering::Greater,
        Value::Number(number) => RankedNumber::of(one).cmp(&RankedNumber::of(number)),
        _ => Ordering::Less,
    }
}

fn compare_text(one: &str, other: &Value) -> Ordering
    ensures order { result ≡ value_cmp (string one.now) (view other.now) }
    ensures same { is_eq result ≡ same_value (string one.now) (view other.now) }
{
    match other {
        Value::Array(_) | Value::Object(_) => Ordering::Less,
        Value::String(text) => compare_texts(one, text.as_str()),
        _ => Ordering::Greater,
    }
}

#[tactic(auto, using(crate::proofs::Orders::text_same))]
fn compare_texts(one: &str, other: &str) -> Ordering
    ensures order { result ≡ slice_cmp nat_cmp one.now other.now }
    ensures same { is_eq result ≡ bytes_eq one.now other.now }
{
    one.cmp(other)
}

#[cycle(order)]
fn compare_items(one: &Vec<Value>, other: &Vec<Value>) -> Ordering
    ensures order { result ≡ items_cmp (items_view one.now.items) (items_view other.now.items) }
    ensures same { is_eq result
        ≡ same_items (items_view one.now.items) (items_view other.now.items) }
{
    let mut others = other.iter();
    for item in one {
        let Some(counterpart) = others.next() else {
            return Ordering::Greater;
        };
        let order = compare(item, counterpart);
        if order.is_ne() {
            return order;
        }
    }
    match others.next() {
        Some(_) => Ordering::Less,
        None => Ordering::Equal,
    }
}

#[cycle(order)]
fn compare_members(one: &Map<String, Value>, other: &Map<String, Value>) -> Ordering
    ensures order { result
        ≡ members_cmp (members_view one.now.entries) (members_view other.now.entries) }
    ensures same { is_eq result
        ≡ same_members (members_view one.now.entries) (members_view other.now.entries) }
{
    let mut others = other.iter();
    for (name, member) in one.iter() {
        let Some((other_name, other_member)) = others.next() else {
            return Ordering::Greater;
        };
        let names = compare_texts(name.as_str(), other_name.as_str());
        if names.is_ne() {
            return names;
        }
        let order = compare(member, other_member);
        if order.is_ne() {
            return order;
        }
    }
    match others.next() {
        Some(_) => Ordering::Less,
        None => Ordering::Equal,
    }
}
