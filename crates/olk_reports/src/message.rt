//! The parts of the texts of errors.
ghost use Rattle.std.specs.Prelude.{◌≡◌, ◌++◌, IfOk, OnOk, false, string_bytes, map, codes};
ghost use Rattle.std.specs.List.{flat_map};
ghost use Rattle.serde_json.specs.Data.{string};
ghost use Rattle.serde_json.specs.Written.{compact_text, has_float};
ghost use Rattle.olk_base.specs.Nodes.{data_of};
ghost use Rattle.olk_spec.specs.Texts.{in_quotes, type_text, unexpected_text};
ghost use Rattle.olk_reports.specs.Errors.{type_name_of};
ghost use Rattle.olk_reports.specs.Messages.{later_name};

use olk_base::{JsonType, Node, SAID_ROOM, quoted_text};
use serde_json::Value;
use std::alloc::{AllocError, Global};

pub(crate) fn node_text(alloc: Global, node: Node<'_>) -> Result<String, AllocError>
    ensures { IfOk result (λ s. has_float (data_of node.entry) ≡ false
        → string_bytes s ≡ compact_text (data_of node.entry)) }
{
    match node {
        Node::Value(Value::String(text)) => quoted_text(alloc, text.as_str()),
        Node::Value(value) => value.to_string(alloc),
        Node::Name(name) => quoted_text(alloc, name),
    }
}

/// The node, and then the text.
pub(crate) fn starting_text(alloc: Global, node: Node<'_>, rest: &str) -> Result<String, AllocError>
    ensures { IfOk result (λ s. has_float (data_of node.entry) ≡ false
        → string_bytes s ≡ compact_text (data_of node.entry) ++ rest.now) }
{
    let mut text = node_text(alloc, node)?;
    text.push_str(rest)?;
    Ok(text)
}

/// The text, and then the node.
pub(crate) fn ending_text(alloc: Global, start: &str, node: Node<'_>) -> Result<String, AllocError>
    ensures { IfOk result (λ s. has_float (data_of node.entry) ≡ false
        → string_bytes s ≡ start.now ++ compact_text (data_of node.entry)) }
{
    let value = node_text(alloc, node)?;
    let mut text = String::with_capacity(alloc, start.len().saturating_add(value.len()))?;
    text.push_str(start)?;
    text.push_str(value.as_str())?;
    Ok(text)
}

/// A node, the text, and the text of another.
pub(crate) fn joined_text(
    alloc: Global,
    first: Node<'_>,
    middle: &str,
    last: &str,
) -> Result<String, AllocError>
    ensures { IfOk result (λ s. has_float (data_of first.entry) ≡ false
        → string_bytes s ≡ compact_text (data_of first.entry) ++ middle.now ++ last.now) }
{
    let mut text = starting_text(alloc, first, middle)?;
    text.push_str(last)?;
    Ok(text)
}

/// The name as JSON, and then the text.
pub(crate) fn name_text(alloc: Global, name: &str, rest: &str) -> Result<String, AllocError>
    ensures { IfOk result (λ s. string_bytes s ≡ compact_text (string name.now) ++ rest.now) }
{
    let mut text = quoted_text(alloc, name)?;
    text.push_str(rest)?;
    Ok(text)
}

pub(crate) fn required_text(alloc: Global, property: &str) -> Result<String, AllocError>
    ensures { IfOk result (λ s. string_bytes s
        ≡ compact_text (string property.now) ++ codes " is a required property") }
{
    name_text(alloc, property, " is a required property")
}

fn type_name(json_type: JsonType) -> &'static str
    ensures { result.now ≡ type_text (type_name_of json_type) }
{
    match json_type {
        JsonType::Null => "null",
        JsonType::Boolean => "boolean",
        JsonType::Number => "number",
        JsonType::String => "string",
        JsonType::Array => "array",
        JsonType::Object => "object",
    }
}

pub(crate) fn type_error_text(
    alloc: Global,
    node: Node<'_>,
    expected: JsonType,
) -> Result<String, AllocError>
    ensures { IfOk result (λ s. has_float (data_of node.entry) ≡ false
        → string_bytes s ≡ compact_text (data_of node.entry) ++ codes " is not of type \""
        ++ type_text (type_name_of expected) ++ codes "\"") }
{
    let mut text = starting_text(alloc, node, " is not of type \"")?;
    text.push_str(type_name(expected))?;
    text.push_str("\"")?;
    Ok(text)
}

fn push_quoted(text: &mut String, name: &str) -> Result<(), AllocError>
    ensures { OnOk result (string_bytes text.new ≡ string_bytes text.old ++ in_quotes name.now) }
{
    text.push_str("'")?;
    text.push_str(name)?;
    text.push_str("'")?;
    Ok(())
}

fn push_later(text: &mut String, name: &str) -> Result<(), AllocError>
    ensures { OnOk result (string_bytes text.new ≡ string_bytes text.old ++ later_name name.now) }
{
    text.push_str(", ")?;
    push_quoted(text, name)?;
    Ok(())
}

fn push_later_names(text: &mut String, names: &[&str]) -> Result<(), AllocError>
    ensures { OnOk result (string_bytes text.new
        ≡ string_bytes text.old ++ flat_map later_name (map (λ n. n.now) names.now)) }
{
    for name in names {
        push_later(text, name)?;
    }
    Ok(())
}

pub(crate) fn names_text(alloc: Global, names: &[&str]) -> Result<String, AllocError>
    ensures { IfOk result (λ s. string_bytes s ≡ unexpected_text (map (λ n. n.now) names.now)) }
{
    let mut text = String::with_capacity(alloc, 2 * SAID_ROOM)?;
    text.push_str("Additional properties are not allowed (")?;
    if let Some((first, rest)) = names.split_first() {
        push_quoted(&mut text, first)?;
        push_later_names(&mut text, rest)?;
    }
    let rest = if names.len() == 1 {
        " was unexpected)"
    } else {
        " were unexpected)"
    };
    text.push_str(rest)?;
    Ok(text)
}
