//! `type` (JSON Schema 2020-12 Validation, 6.1.1).
ghost use Rattle.std.specs.Prelude.{◌≡◌, IfOk, MatchOption, true, false, map};
ghost use Rattle.std.specs.List.{list_any};
ghost use Rattle.serde_json.specs.Data.{string};
ghost use Rattle.serde_json.specs.View.{view, items_view};
ghost use Rattle.olk_base.specs.Nodes.{data_of};
ghost use Rattle.olk_vocabulary.specs.Keywords.{names_kind, is_integer, is_integer_of_draft_4, is_of_kind, is_short, name_kinds, told_kind};
ghost use Rattle.olk_vocabulary.specs.Leaves.{kind_name, kind_value};

use olk_base::Node;
use olk_bench::ValueKind;
use olk_numbers::JsonNumber;
use serde_json::Value;
use std::alloc::{AllocError, Global};

/// The name that integers of draft 4 have here.
const INTEGER_OF_DRAFT_4: &str = "integer of draft 4";

/// A kind of values that `type` names (JSON Schema 2020-12 Validation, 6.1.1).
#[derive(Clone, Copy)]
pub enum Kind {
    /// The kind of one of the standard's names.
    Of(ValueKind),
    /// `integer of draft 4`: numbers that were written without a fraction (draft 4 Core, 3.5). It is
    /// told as `integer`.
    IntegerOfDraft4,
}

impl Kind {
    /// The kind of this name, if there is one.
    fn named(name: &str) -> Option<Kind>
        ensures { MatchOption result (names_kind (string name.now) ≡ false)
            (λ k. (names_kind (string name.now) ≡ true) × (kind_name k ≡ name.now)) }
    {
        if name == INTEGER_OF_DRAFT_4 {
            return Some(Kind::IntegerOfDraft4);
        }
        match ValueKind::named(name) {
            Some(kind) => Some(Kind::Of(kind)),
            None => None,
        }
    }

    /// The name as it is told, as JSON.
    pub(crate) fn quoted(self) -> &'static str
        ensures { result.now ≡ told_kind (kind_value self) }
    {
        match self {
            Kind::Of(kind) => kind.quoted(),
            Kind::IntegerOfDraft4 => ValueKind::Integer.quoted(),
        }
    }
}

/// Whether the node is of the kind. Every number without a fraction is an integer.
pub(crate) fn is_of_kind(kind: Kind, node: Node<'_>) -> bool
    ensures { result ≡ is_of_kind (kind_name kind) (data_of node.entry) }
{
    match kind {
        Kind::Of(ValueKind::Integer) => is_integer(node),
        Kind::Of(ValueKind::Of(json_type)) => json_type == node.json_type(),
        Kind::IntegerOfDraft4 => is_integer_of_draft_4(node),
    }
}

fn is_integer(node: Node<'_>) -> bool
    ensures { result ≡ is_integer (data_of node.entry) }
{
    match node {
        Node::Value(Value::Number(number)) => JsonNumber::of(number).is_integral(),
        _ => false,
    }
}

fn is_integer_of_draft_4(node: Node<'_>) -> bool
    ensures { result ≡ is_integer_of_draft_4 (data_of node.entry) }
{
    match node {
        Node::Value(Value::Number(number)) => JsonNumber::of(number).is_written_whole(),
        _ => false,
    }
}

pub(crate) fn is_of_some_kind(kinds: &Vec<Kind>, node: Node<'_>) -> bool
    ensures { result
        ≡ list_any (λ k. is_of_kind (kind_name k) (data_of node.entry)) kinds.now.items }
{
    for kind in kinds {
        if is_of_kind(*kind, node) {
            return true;
        }
    }
    false
}

/// The kind that the value names, if it names one.
pub(crate) fn kind_of(value: &Value) -> Option<Kind>
    ensures { MatchOption result (names_kind (view value.now) ≡ false)
        (λ k. (names_kind (view value.now) ≡ true) × (kind_value k ≡ view value.now)) }
{
    let name = value.as_str()?;
    Kind::named(name)
}

/// The kinds that the values name, if each names one.
pub(crate) fn kinds_of(alloc: Global, items: &Vec<Value>) -> Result<Option<Vec<Kind>>, AllocError>
    ensures { IfOk result (λ o. MatchOption o (name_kinds (map view items.now.items) ≡ false)
        (λ ks. (name_kinds (map view items.now.items) ≡ true)
        × (map kind_value ks.items ≡ map view items.now.items))) }
{
    let mut kinds = Vec::with_capacity(alloc, items.len())?;
    for item in items {
        match kind_of(item) {
            Some(kind) => kinds.push(kind)?,
            None => return Ok(None),
        }
    }
    Ok(Some(kinds))
}

/// Whether there are no more items than kinds. A longer list of names has one of them twice.
pub(crate) fn is_short(items: &Vec<Value>) -> bool
    ensures { result ≡ is_short (items_view items.now.items) }
{
    items.len() <= 7
}
