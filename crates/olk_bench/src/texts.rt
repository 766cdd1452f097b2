//! The texts of values.
ghost use Rattle.std.specs.Prelude.{◌≡◌, ◌++◌, IfOk, string_bytes};
ghost use Rattle.serde_json.specs.View.{view, items_view, members_view};
ghost use Rattle.serde_json.specs.Written.{number_text, has_float, items_have_float, members_have_float};
ghost use Rattle.olk_base.specs.Nodes.{data_of};
ghost use Rattle.olk_spec.specs.Bench.{shown};
ghost use Rattle.olk_bench.specs.Numbers.{num_of};

use crate::numbers::WholeNumber;
use olk_base::{Node, SAID_ROOM, quoted_text};
use serde_json::{Map, Value};
use std::alloc::{AllocError, Global};

#[cycle(search)]
fn has_fraction(value: &Value) -> bool
    ensures { result ≡ has_float (view value.now) }
{
    match value {
        Value::Null | Value::Bool(_) | Value::String(_) => false,
        Value::Number(n) => n.is_f64(),
        Value::Array(items) => items_have_fraction(items),
        Value::Object(members) => members_have_fraction(members),
    }
}

#[cycle(search)]
fn items_have_fraction(items: &Vec<Value>) -> bool
    ensures { result ≡ items_have_float (items_view items.now.items) }
{
    for item in items {
        if has_fraction(item) {
            return true;
        }
    }
    false
}

#[cycle(search)]
fn members_have_fraction(members: &Map<String, Value>) -> bool
    ensures { result ≡ members_have_float (members_view members.now.entries) }
{
    for (_, member) in members.iter() {
        if has_fraction(member) {
            return true;
        }
    }
    false
}

/// The node as JSON, and `value` where it has a number that is not whole.
///
/// # Errors
///
/// Out of memory.
pub fn shown_text(alloc: Global, node: Node<'_>) -> Result<String, AllocError>
    ensures { IfOk result (λ s. string_bytes s ≡ shown (data_of node.entry)) }
{
    match node {
        Node::Value(Value::Null) => word(alloc, "null"),
        Node::Value(Value::Bool(true)) => word(alloc, "true"),
        Node::Value(Value::Bool(false)) => word(alloc, "false"),
        Node::Value(Value::Number(number)) => match WholeNumber::of(number) {
            Some(number) => digits(alloc, number),
            None => word(alloc, "value"),
        },
        Node::Value(Value::String(text)) => quoted_text(alloc, text.as_str()),
        Node::Value(value) => if has_fraction(value) {
            word(alloc, "value")
        } else {
            value.to_string(alloc)
        },
        Node::Name(name) => quoted_text(alloc, name),
    }
}

/// The word, with room for what is said behind it.
fn word(alloc: Global, word: &str) -> Result<String, AllocError>
    ensures { IfOk result (λ s. string_bytes s ≡ word.now) }
{
    let mut text = String::with_capacity(alloc, SAID_ROOM)?;
    text.push_str(word)?;
    Ok(text)
}

pub(crate) fn digits(alloc: Global, number: WholeNumber) -> Result<String, AllocError>
    ensures { IfOk result (λ s. string_bytes s ≡ number_text (num_of number)) }
{
    let mut text = String::with_capacity(alloc, SAID_ROOM)?;
    number.write_to(&mut text)?;
    Ok(text)
}

/// The value, the text and the number.
pub(crate) fn compared_text(
    alloc: Global,
    node: Node<'_>,
    middle: &str,
    number: WholeNumber,
) -> Result<String, AllocError>
    ensures { IfOk result (λ s. string_bytes s
        ≡ shown (data_of node.entry) ++ middle.now ++ number_text (num_of number)) }
{
    let mut text = shown_text(alloc, node)?;
    text.push_str(middle)?;
    number.write_to(&mut text)?;
    Ok(text)
}
