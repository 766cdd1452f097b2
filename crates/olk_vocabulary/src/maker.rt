//! Makes the leaves of keywords and their values.
ghost use Rattle.std.specs.Prelude.{◌≡◌, IfOk};
ghost use Rattle.serde_json.specs.Data.{array};
ghost use Rattle.serde_json.specs.View.{view, items_view};
ghost use Rattle.olk_vocabulary.specs.Leaves.{IsMade};
ghost use Rattle.olk_vocabulary.specs.Vocabulary.{is_unread};

use crate::candidates::Candidates;
use crate::keyword::{Bound, Keyword, Limit};
use crate::kinds::{is_short, kind_of, kinds_of};
use crate::leaf::VocabularyLeaf;
use crate::text_pattern::TextPattern;
use olk_base::{MakeError, MakeLeaf, Meter};
use olk_numbers::{Divisor, JsonNumber, natural};
use serde_json::Value;
use std::alloc::{AllocError, Global};

/// Makes the leaves of the assertion keywords of JSON Schema 2020-12 Validation that hold no schema
/// (6.1 to 6.5).
///
/// The others that assert something are refused with every value: `prefixItems`, `items`,
/// `contains`, `minContains` and `maxContains`.
#[derive(Drop)]
pub struct Vocabulary;

impl MakeLeaf for Vocabulary {
    type Leaf = VocabularyLeaf;

    fn reads(&self, keyword: &str) -> bool {
        Keyword::named(keyword).is_some() || is_unread(keyword)
    }

    fn make(
        &self,
        alloc: Global,
        keyword: &str,
        value: &Value,
        meter: &mut Meter,
    ) -> Result<VocabularyLeaf, MakeError> {
        meter.tick_leaves();
        match Keyword::named(keyword) {
            Some(keyword) => match leaf_of(alloc, keyword, value)? {
                Some(leaf) => Ok(leaf),
                None => Err(MakeError::Refused),
            },
            None => Err(MakeError::Refused),
        }
    }
}

/// Whether a name is an assertion of the standard that is refused with every value.
pub fn is_unread(name: &str) -> bool
    ensures { result ≡ is_unread name.now }
{
    matches!(
        name,
        "prefixItems" | "items" | "contains" | "minContains" | "maxContains"
    )
}

fn leaf_of(
    alloc: Global,
    keyword: Keyword,
    value: &Value,
) -> Result<Option<VocabularyLeaf>, AllocError>
    ensures { IfOk result (IsMade keyword (view value.now)) }
{
    match keyword {
        Keyword::Type => type_leaf(alloc, value),
        Keyword::Enum => enum_leaf(alloc, value),
        Keyword::Const => const_leaf(value),
        Keyword::MultipleOf => Ok(multiple_leaf(value)),
        Keyword::Bound(bound) => Ok(bound_leaf(bound, value)),
        Keyword::Limit(limit) => Ok(limit_leaf(limit, value)),
        Keyword::Pattern => pattern_leaf(alloc, value),
        Keyword::UniqueItems => Ok(unique_leaf(value)),
    }
}

fn type_leaf(alloc: Global, value: &Value) -> Result<Option<VocabularyLeaf>, AllocError>
    ensures { IfOk result (IsMade Keyword.Type (view value.now)) }
{
    match value {
        Value::Array(items) => types_leaf(alloc, items),
        _ => match kind_of(value) {
            Some(kind) => Ok(Some(VocabularyLeaf::Type(kind))),
            None => Ok(None),
        },
    }
}

fn types_leaf(alloc: Global, items: &Vec<Value>) -> Result<Option<VocabularyLeaf>, AllocError>
    ensures { IfOk result (IsMade Keyword.Type (array (items_view items.now.items))) }
{
    if !is_short(items) {
        return Ok(None);
    }
    match kinds_of(alloc, items)? {
        Some(kinds) => Ok(Some(VocabularyLeaf::Types(kinds))),
        None => Ok(None),
    }
}

fn enum_leaf(alloc: Global, value: &Value) -> Result<Option<VocabularyLeaf>, AllocError>
    ensures { IfOk result (IsMade Keyword.Enum (view value.now)) }
{
    match value.clone()? {
        Value::Array(values) => {
            let candidates = Candidates::new(alloc, values)?;
            Ok(Some(VocabularyLeaf::Enum(candidates)))
        }
        Value::Null | Value::Bool(_) | Value::Number(_) => Ok(None),
        Value::String(_) | Value::Object(_) => Ok(None),
    }
}

fn const_leaf(value: &Value) -> Result<Option<VocabularyLeaf>, AllocError>
    ensures { IfOk result (IsMade Keyword.Const (view value.now)) }
{
    let value = value.clone()?;
    Ok(Some(VocabularyLeaf::Const(value)))
}

fn multiple_leaf(value: &Value) -> Option<VocabularyLeaf>
    ensures { IsMade Keyword.MultipleOf (view value.now) result }
{
    match value {
        Value::Number(number) => match Divisor::of(number) {
            Some(divisor) => Some(VocabularyLeaf::MultipleOf(divisor)),
            None => None,
        },
        _ => None,
    }
}

fn bound_leaf(bound: Bound, value: &Value) -> Option<VocabularyLeaf>
    ensures { IsMade (Keyword.Bound bound) (view value.now) result }
{
    match value {
        Value::Number(number) => Some(VocabularyLeaf::Bound(bound, JsonNumber::of(number))),
        _ => None,
    }
}

fn limit_leaf(limit: Limit, value: &Value) -> Option<VocabularyLeaf>
    ensures { IsMade (Keyword.Limit limit) (view value.now) result }
{
    let number = natural(value)?;
    Some(VocabularyLeaf::Limit(limit, number))
}

fn unique_leaf(value: &Value) -> Option<VocabularyLeaf>
    ensures { IsMade Keyword.UniqueItems (view value.now) result }
{
    let wanted = value.as_bool()?;
    Some(VocabularyLeaf::UniqueItems(wanted))
}

fn pattern_leaf(alloc: Global, value: &Value) -> Result<Option<VocabularyLeaf>, AllocError>
    ensures { IfOk result (IsMade Keyword.Pattern (view value.now)) }
{
    match value {
        Value::String(text) => match TextPattern::new(alloc, text.as_str())? {
            Some(pattern) => Ok(Some(VocabularyLeaf::Pattern(pattern))),
            None => Ok(None),
        },
        _ => Ok(None),
    }
}
