//! How long texts, arrays and objects are (JSON Schema 2020-12 Validation, 6.3 to 6.5).
ghost use Rattle.std.specs.Prelude.{◌≡◌, option_map, true, nat_le};
ghost use Rattle.std.specs.Option.{option_map_or};
ghost use Rattle.serde_json.specs.Find.{as_str};
ghost use Rattle.olk_base.specs.Nodes.{data_of};
ghost use Rattle.olk_vocabulary.specs.Keywords.{characters, items, members, length_for, is_allowed};

use crate::keyword::Limit;
use olk_base::Node;
use olk_bench::has_more_chars;
use serde_json::Value;

/// Whether the node is as long as the limit allows. What has no such length is.
pub(crate) fn is_allowed(limit: Limit, number: u64, node: Node<'_>) -> bool
    ensures { result ≡ option_map_or (λ n. is_allowed limit number n)
        (length_for limit (data_of node.entry)) true }
{
    match limit {
        Limit::MinLength => has_characters_from(number, node),
        Limit::MaxLength => has_characters_up_to(number, node),
        Limit::MinItems => is_from(number, item_count(node)),
        Limit::MaxItems => is_up_to(number, item_count(node)),
        Limit::MinProperties => is_from(number, member_count(node)),
        Limit::MaxProperties => is_up_to(number, member_count(node)),
    }
}

fn is_from(least: u64, count: Option<u64>) -> bool
    ensures { result ≡ option_map_or (λ n. nat_le least n) count true }
{
    match count {
        Some(count) => least <= count,
        None => true,
    }
}

fn is_up_to(most: u64, count: Option<u64>) -> bool
    ensures { result ≡ option_map_or (λ n. nat_le n most) count true }
{
    match count {
        Some(count) => count <= most,
        None => true,
    }
}

/// The text that the node is, if it is one.
pub(crate) fn text_of(node: Node<'_>) -> Option<&str>
    ensures { option_map (λ s. s.now) result ≡ as_str (data_of node.entry) }
{
    match node {
        Node::Value(value) => value.as_str(),
        Node::Name(name) => Some(name),
    }
}

fn has_characters_from(least: u64, node: Node<'_>) -> bool
    ensures { result
        ≡ option_map_or (λ n. nat_le least n) (characters (data_of node.entry)) true }
{
    match text_of(node) {
        Some(text) => least == 0 || has_more_chars(text, least - 1),
        None => true,
    }
}

fn has_characters_up_to(most: u64, node: Node<'_>) -> bool
    ensures { result
        ≡ option_map_or (λ n. nat_le n most) (characters (data_of node.entry)) true }
{
    match text_of(node) {
        Some(text) => !has_more_chars(text, most),
        None => true,
    }
}

fn item_count(node: Node<'_>) -> Option<u64>
    ensures { result ≡ items (data_of node.entry) }
{
    match node {
        Node::Value(Value::Array(items)) => Some(items.len() as u64),
        _ => None,
    }
}

fn member_count(node: Node<'_>) -> Option<u64>
    ensures { result ≡ members (data_of node.entry) }
{
    match node {
        Node::Value(Value::Object(members)) => Some(members.len() as u64),
        _ => None,
    }
}
