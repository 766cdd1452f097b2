//! Reading the values of keywords, as far as this needs no nodes.
ghost use Rattle.std.specs.Prelude.{◌≡◌, ◌++◌, false, true, [], map, string_bytes, IfOk, IfErr};
ghost use Rattle.serde_json.specs.Data.{array, object};
ghost use Rattle.serde_json.specs.View.{view, items_view, members_view};
ghost use Rattle.olk_spec.specs.Names.{is_among};
ghost use Rattle.olk_spec.specs.Vocabulary.{unsupported_names, keyword_named, leaf};
ghost use Rattle.olk_spec.specs.Schemas.{members, texts, texts_in, is_object, is_array};
ghost use Rattle.olk_spec.specs.Malformed.{unless_object, unless_array, not_a_text};
ghost use Rattle.olk_base.specs.Kit.{kit, world};
ghost use Rattle.olk_meaning.specs.Conditions.{Known, known};
ghost use Rattle.olk_build.specs.Refusing.{TellsOneOf};
ghost use Rattle.olk_build.specs.Reading.{not_texts, IsFor, IsOther, IsRead, RefusesKeyword};

use crate::additional_properties::shape_of_others;
use crate::context::Makers;
use crate::dependencies::{lists_of_object, required_of_object};
use crate::if_::shape_if_read;
use crate::pattern_properties::shape_of_patterns;
use crate::property_dependencies::choices_of_object;
use crate::property_names::shape_of_names;
use crate::refusal::{Stop, refuse, refuse_type};
use crate::shape::Shape;
use olk_base::{JsonType, MakeError, MakeLeaf, MakeRegex, Meter, append};
use olk_meaning::Neighbours;
use olk_reports::{Location, ValidationErrorKind};
use olk_tree::names::SortedNames;
use serde_json::{Map, Value};
use std::alloc::Global;

/// Which keyword a name is: one that is read here, one that is refused by its name, or any other.
#[derive(Clone, Copy)]
pub enum KeywordFor {
    Properties,
    PatternProperties,
    AdditionalProperties,
    PropertyNames,
    Required,
    DependentRequired,
    DependentSchemas,
    Dependencies,
    PropertyDependencies,
    AllOf,
    AnyOf,
    OneOf,
    Not,
    If,
    Then,
    Else,
    Refused,
    Other,
}

/// Whether a keyword is refused by its name.
#[inline(always)]
fn is_refused(name: &str) -> bool
    ensures { result ≡ is_among name.now unsupported_names }
{
    matches!(
        name,
        "$ref" | "$dynamicRef" | "$recursiveRef" | "unevaluatedProperties" | "unevaluatedItems"
    )
}

/// Which keyword a name is.
fn keyword_for(name: &str) -> KeywordFor
    ensures { IsFor name.now result }
{
    match name {
        "properties" => KeywordFor::Properties,
        "patternProperties" => KeywordFor::PatternProperties,
        "additionalProperties" => KeywordFor::AdditionalProperties,
        "propertyNames" => KeywordFor::PropertyNames,
        "required" => KeywordFor::Required,
        "dependentRequired" => KeywordFor::DependentRequired,
        "dependentSchemas" => KeywordFor::DependentSchemas,
        "dependencies" => KeywordFor::Dependencies,
        "propertyDependencies" => KeywordFor::PropertyDependencies,
        "allOf" => KeywordFor::AllOf,
        "anyOf" => KeywordFor::AnyOf,
        "oneOf" => KeywordFor::OneOf,
        "not" => KeywordFor::Not,
        "if" => KeywordFor::If,
        "then" => KeywordFor::Then,
        "else" => KeywordFor::Else,
        _ => {
            if is_refused(name) {
                KeywordFor::Refused
            } else {
                KeywordFor::Other
            }
        }
    }
}

// ---- by the form of the value

/// The names of an object's members.
pub(crate) fn names_of_object<'a>(
    alloc: Global,
    location: &Location,
    value: &'a Value,
) -> Result<SortedNames, Stop<'a>>
    ensures object { IfOk result (λ n. is_object (view value.now) ≡ true) }
    ensures names { IfOk result (λ n. n ≡ map (λ e. e.0) (members (view value.now))) }
    ensures refused { IfErr result (TellsOneOf (unless_object (view value.now) location.now)) }
{
    let Value::Object(map) = value else {
        return Err(refuse_type(alloc, JsonType::Object, value, location));
    };
    Ok(SortedNames::of(alloc, map)?)
}

/// The items of an array.
pub(crate) fn items_of_array<'a>(
    alloc: Global,
    location: &Location,
    value: &'a Value,
) -> Result<&'a Vec<Value>, Stop<'a>>
    ensures array { IfOk result (λ items. view value.now ≡ array (items_view items.now.items)) }
    ensures refused { IfErr result (TellsOneOf (unless_array (view value.now) location.now)) }
{
    let Value::Array(items) = value else {
        return Err(refuse_type(alloc, JsonType::Array, value, location));
    };
    Ok(items)
}

/// The texts that items are.
pub(crate) fn texts_of_items<'a>(
    alloc: Global,
    place: &Location,
    items: &'a Vec<Value>,
) -> Result<Vec<String>, Stop<'a>>
    ensures names { IfOk result (λ v. map string_bytes v.items
        ≡ texts_in (items_view items.now.items)) }
    ensures texts { IfOk result (λ v. not_texts place.now (items_view items.now.items) ≡ []) }
    ensures refused { IfErr result (TellsOneOf
        (not_texts place.now (items_view items.now.items))) }
{
    let mut names = Vec::with_capacity(alloc, items.len())?;
    for item in items {
        let Some(text) = item.as_str() else {
            return Err(refuse_type(alloc, JsonType::String, item, place));
        };
        append(&mut names, String::from_str(alloc, text)?)?;
    }
    Ok(names)
}

/// The texts of an array.
fn texts_of_array<'a>(
    alloc: Global,
    location: &Location,
    value: &'a Value,
) -> Result<Vec<String>, Stop<'a>>
    ensures array { IfOk result (λ v. is_array (view value.now) ≡ true) }
    ensures names { IfOk result (λ v. map string_bytes v.items ≡ texts (view value.now)) }
    ensures texts { IfOk result (λ v. not_a_text (view value.now) location.now ≡ []) }
    ensures refused { IfErr result (TellsOneOf
        (unless_array (view value.now) location.now ++ not_a_text (view value.now) location.now)) }
{
    let items = items_of_array(alloc, location, value)?;
    texts_of_items(alloc, location, items)
}

/// The members of an object.
pub(crate) fn members_of_object<'a>(
    alloc: Global,
    location: &Location,
    value: &'a Value,
) -> Result<&'a Map<String, Value>, Stop<'a>>
    ensures object { IfOk result (λ m. view value.now ≡ object (members_view m.now.entries)) }
    ensures refused { IfErr result (TellsOneOf (unless_object (view value.now) location.now)) }
{
    let Value::Object(members) = value else {
        return Err(refuse_type(alloc, JsonType::Object, value, location));
    };
    Ok(members)
}

/// The shape of a keyword whose value is an array of branches.
fn shape_of_branches<'a, K: Drop, R: Drop>(
    alloc: Global,
    location: &Location,
    shape: Shape<K, R>,
    value: &'a Value,
) -> Result<Shape<K, R>, Stop<'a>>
    ensures array { IfOk result (λ x. is_array (view value.now) ≡ true) }
    ensures same { IfOk result (λ x. x ≡ shape) }
    ensures refused { IfErr result (TellsOneOf (unless_array (view value.now) location.now)) }
{
    items_of_array(alloc, location, value)?;
    Ok(shape)
}

// ---- by the keyword

/// A keyword's value, read: its shape, counted where it is a leaf. `if`, `then` and `else` are read
/// where the condition is; of `patternProperties` each matcher is counted.
///
/// # Errors
///
/// What is wrong with the keyword itself, apart from the schemas inside; else out of memory.
#[inline(always)]
pub fn read_keyword<'a, L: MakeLeaf, M: MakeRegex>(
    alloc: Global,
    makers: &Makers<'_, L, M>,
    meter: &mut Meter,
    neighbours: Neighbours<'_>,
    location: &Location,
    name: &'a str,
    value: &'a Value,
) -> Result<Shape<L::Leaf, M::Engine>, Stop<'a>>
    ensures built { IfOk result (λ x. IsRead (kit L.Leaf.Leaf M.Engine.RegexEngine) x
        (known neighbours.entry) name.now (view value.now) location.now meter.old meter.new) }
    ensures refused { IfErr result (RefusesKeyword (kit L.Leaf.Leaf M.Engine.RegexEngine)
        name.now (view value.now) location.now meter.old meter.new) }
{
    match keyword_for(name) {
        KeywordFor::Properties => Ok(Shape::Properties(names_of_object(alloc, location, value)?)),
        KeywordFor::PatternProperties => {
            Ok(shape_of_patterns(alloc, makers, meter, location, value)?)
        }
        KeywordFor::AdditionalProperties => Ok(shape_of_others(alloc, location, value)?),
        KeywordFor::PropertyNames => Ok(shape_of_names(value)),
        KeywordFor::Required => Ok(Shape::Required(texts_of_array(alloc, location, value)?)),
        KeywordFor::DependentRequired => {
            let (keys, required) = required_of_object(alloc, location, value)?;
            Ok(Shape::DependentRequired(keys, required))
        }
        KeywordFor::DependentSchemas => {
            Ok(Shape::DependentSchemas(names_of_object(alloc, location, value)?))
        }
        KeywordFor::Dependencies => {
            let (keys, lists) = lists_of_object(alloc, location, value)?;
            Ok(Shape::Dependencies(keys, lists))
        }
        KeywordFor::PropertyDependencies => {
            let (keys, texts) = choices_of_object(alloc, location, value)?;
            Ok(Shape::PropertyDependencies(keys, texts))
        }
        KeywordFor::AllOf => Ok(shape_of_branches(alloc, location, Shape::AllOf, value)?),
        KeywordFor::AnyOf => Ok(shape_of_branches(alloc, location, Shape::AnyOf, value)?),
        KeywordFor::OneOf => Ok(shape_of_branches(alloc, location, Shape::OneOf, value)?),
        KeywordFor::Not => Ok(Shape::Not(value.clone()?)),
        KeywordFor::If => Ok(shape_if_read(neighbours, Shape::If)),
        KeywordFor::Then => Ok(shape_if_read(neighbours, Shape::Then)),
        KeywordFor::Else => Ok(shape_if_read(neighbours, Shape::Else)),
        KeywordFor::Refused => {
            let kind = ValidationErrorKind::Unsupported { keyword: name };
            Err(refuse(alloc, kind, value, location))
        }
        KeywordFor::Other => Ok(read_other(alloc, makers, meter, location, name, value)?),
    }
}

/// A leaf, or a name that nothing reads.
fn read_other<'a, L: MakeLeaf, M: MakeRegex>(
    alloc: Global,
    makers: &Makers<'_, L, M>,
    meter: &mut Meter,
    location: &Location,
    name: &'a str,
    value: &'a Value,
) -> Result<Shape<L::Leaf, M::Engine>, Stop<'a>>
    requires other { IsOther name.now }
    requires let_through { is_among name.now unsupported_names ≡ false }
    ensures built { IfOk result (λ x. (c : Known)
        → IsRead (kit L.Leaf.Leaf M.Engine.RegexEngine) x
        c name.now (view value.now) location.now meter.old meter.new) }
    ensures refused { IfErr result (RefusesKeyword (kit L.Leaf.Leaf M.Engine.RegexEngine)
        name.now (view value.now) location.now meter.old meter.new) }
{
    if !makers.leaves.reads(name) {
        return Ok(Shape::Unread);
    }
    read_leaf(alloc, makers, meter, location, name, value)
}

/// A leaf, counted.
fn read_leaf<'a, L: MakeLeaf, M: MakeRegex>(
    alloc: Global,
    makers: &Makers<'_, L, M>,
    meter: &mut Meter,
    location: &Location,
    name: &'a str,
    value: &'a Value,
) -> Result<Shape<L::Leaf, M::Engine>, Stop<'a>>
    requires leaf { keyword_named (world L.Leaf.Leaf M.Engine.RegexEngine) name.now ≡ leaf }
    ensures built { IfOk result (λ x. (c : Known)
        → IsRead (kit L.Leaf.Leaf M.Engine.RegexEngine) x
        c name.now (view value.now) location.now meter.old meter.new) }
    ensures refused { IfErr result (RefusesKeyword (kit L.Leaf.Leaf M.Engine.RegexEngine)
        name.now (view value.now) location.now meter.old meter.new) }
{
    match makers.leaves.make(alloc, name, value, meter) {
        Ok(leaf) => Ok(Shape::Leaf(leaf)),
        Err(MakeError::Refused) => {
            let kind = ValidationErrorKind::LeafRefused { keyword: name };
            Err(refuse(alloc, kind, value, location))
        }
        Err(MakeError::Memory(error)) => Err(Stop::from(error)),
    }
}
