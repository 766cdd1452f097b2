//! What a schema is asked about.
ghost use Rattle.std.specs.Prelude.{◌≡◌, IfOk, option_map, string_bytes};
ghost use Rattle.std.specs.List.{list_all};
ghost use Rattle.olk_spec.specs.Names.{is_empty};
ghost use Rattle.olk_base.specs.Nodes.{data_of, subject_data, type_of};
ghost use Rattle.olk_base.specs.Plain.{is_plain};
ghost use Rattle.serde_json.specs.Find.{as_object};
ghost use Rattle.serde_json.specs.Data.{string};
ghost use Rattle.serde_json.specs.View.{members_view};
ghost use Rattle.serde_json.specs.Written.{compact_text};

use crate::traits::Leaf;
use serde_json::{Map, Value};
use std::alloc::{AllocError, Global};

/// The six types of JSON values (JSON Schema 2020-12 Core, 4.2.1). A whole number is a number.
#[derive(Debug, Clone, Copy, PartialEq, Eq)]
pub enum JsonType {
    /// `null`.
    Null,
    /// `true` or `false`.
    Boolean,
    /// A number, whole or not.
    Number,
    /// A text.
    String,
    /// An array.
    Array,
    /// An object.
    Object,
}

/// A JSON value, or the name of a member, which is asked as the text that it spells (JSON Schema
/// 2020-12 Core, 10.3.2.4).
#[derive(Clone, Copy)]
pub enum Node<'a> {
    /// A JSON value.
    Value(&'a Value),
    /// The name of a member, as the text that it spells.
    Name(&'a str),
}

impl<'a> Node<'a> {
    /// The members, where the node is an object; a name is none.
    pub fn as_object(self) -> Option<&'a Map<String, Value>>
        ensures { option_map (λ m. members_view m.now.entries) result
            ≡ as_object (data_of self.entry) }
    {
        match self {
            Node::Value(value) => value.as_object(),
            Node::Name(_) => None,
        }
    }

    /// The type of the value (JSON Schema 2020-12 Core, 4.2.1); that of a name is `String`.
    pub fn json_type(self) -> JsonType
        ensures { result ≡ type_of (data_of self.entry) }
    {
        match self {
            Node::Value(Value::Null) => JsonType::Null,
            Node::Value(Value::Bool(_)) => JsonType::Boolean,
            Node::Value(Value::Number(_)) => JsonType::Number,
            Node::Value(Value::String(_)) => JsonType::String,
            Node::Value(Value::Array(_)) => JsonType::Array,
            Node::Value(Value::Object(_)) => JsonType::Object,
            Node::Name(_) => JsonType::String,
        }
    }
}

/// What is asked about below a public call, in two words: a value, or the name of a member.
#[derive(Clone, Copy)]
pub enum Subject<'n, 'a> {
    /// A JSON value.
    Value(&'a Value),
    /// The name of a member, as the text that it spells.
    Name(&'n &'a str),
}

impl<'n, 'a> Subject<'n, 'a> {
    /// What a public call is asked about.
    #[inline(always)]
    pub fn of(node: &'n Node<'a>) -> Subject<'n, 'a>
        ensures { subject_data result ≡ data_of node.now }
    {
        match node {
            Node::Value(value) => Subject::Value(*value),
            Node::Name(name) => Subject::Name(name),
        }
    }

    /// The members, where it is an object; a name is none.
    pub fn as_object(self) -> Option<&'a Map<String, Value>>
        ensures { option_map (λ m. members_view m.now.entries) result
            ≡ as_object (subject_data self.entry) }
    {
        match self {
            Subject::Value(value) => value.as_object(),
            Subject::Name(_) => None,
        }
    }

    /// The same as a node.
    #[inline(always)]
    pub fn node(self) -> Node<'a>
        ensures { data_of result ≡ subject_data self.entry }
    {
        match self {
            Subject::Value(value) => Node::Value(value),
            Subject::Name(name) => Node::Name(*name),
        }
    }
}

/// Whether the leaf accepts the subject; one choice is made, so that the leaf makes none.
#[inline(always)]
pub fn leaf_accepts<K: Leaf>(leaf: &K, subject: Subject<'_, '_>) -> bool
    ensures { result ≡ is_empty (K.finds leaf.now (subject_data subject.entry)) }
{
    match subject {
        Subject::Value(value) => leaf.is_valid(Node::Value(value)),
        Subject::Name(name) => leaf.is_valid(Node::Name(*name)),
    }
}

/// What a schema can be asked about, as the one that asks knows it: a value, or a name alone.
pub trait Asked: Copy {
    ghost use Rattle.std.specs.Prelude.{◌≡◌, option_map};
    ghost use Rattle.serde_json.specs.Data.{Data};
    ghost use Rattle.serde_json.specs.Find.{as_object};
    ghost use Rattle.serde_json.specs.View.{members_view};
    ghost use Rattle.olk_base.specs.Nodes.{data_of};

    // what is asked about
    ghost stands_for: { Self → Data };

    /// The members, where it is an object.
    fn as_object(&self) -> Option<&Map<String, Value>>
        ensures { option_map (λ m. members_view m.now.entries) result
            ≡ as_object (stands_for self.now) };

    /// The same as a node.
    fn node(&self) -> Node<'_>
        ensures { data_of result ≡ stands_for self.now };
}

impl<'a> Asked for &'a Value {
    ghost use Rattle.serde_json.specs.View.{view};

    ghost stands_for = { λ v. view v.now };

    fn as_object(&self) -> Option<&Map<String, Value>> {
        Value::as_object(*self)
    }

    fn node(&self) -> Node<'_> {
        Node::Value(*self)
    }
}

impl<'a> Asked for &'a str {
    ghost use Rattle.serde_json.specs.Data.{string};

    ghost stands_for = { λ s. string s.now };

    fn as_object(&self) -> Option<&Map<String, Value>> {
        None
    }

    fn node(&self) -> Node<'_> {
        Node::Name(*self)
    }
}

/// How many bytes an error mostly says of a value, behind its text.
pub const SAID_ROOM: usize = 80;

/// The text as JSON, in quotes (RFC 8259, section 7), with room for what is said of it.
///
/// # Errors
///
/// Out of memory.
pub fn quoted_text(alloc: Global, text: &str) -> Result<String, AllocError>
    ensures { IfOk result (λ s. string_bytes s ≡ compact_text (string text.now)) }
{
    if !is_plain(text) {
        let value = Value::String(String::from_str(alloc, text)?);
        return value.to_string(alloc);
    }
    let mut quoted = String::with_capacity(alloc, text.len().saturating_add(SAID_ROOM))?;
    quoted.push('"')?;
    quoted.push_str(text)?;
    quoted.push('"')?;
    Ok(quoted)
}

/// Whether the text stands in JSON as it is.
fn is_plain(text: &str) -> bool
    ensures { result ≡ list_all is_plain text.now }
{
    text.bytes()
        .all(|byte| byte >= 32 && byte != b'"' && byte != b'\\')
}
