//! `additionalProperties`: how it is read, compiled and made.
ghost use Rattle.std.specs.Prelude.{◌≡◌, Bool, false, true, cond, IfOk, IfErr, is_none, length, option_map, codes, ◌∷◌, [], Option, None, Some, is_some};
ghost use Rattle.serde_json.specs.View.{view, members_view};
ghost use Rattle.olk_spec.specs.Schemas.{is_object, is_truth, listed, members};
ghost use Rattle.olk_spec.specs.Faults.{MultipleTypes};
ghost use Rattle.olk_spec.specs.Malformed.{unless_kind};
ghost use Rattle.olk_meaning.specs.AdditionalProperties.{is_rule};
ghost use Rattle.olk_build.specs.Refusing.{TellsOneOf};
ghost use Rattle.olk_build.specs.declared.shape.Shape.TheVariants as shape;
ghost use Rattle.std.specs.Option.{IfNone};
ghost use Rattle.olk_spec.specs.Names.{lookup_name, Name, Path};
ghost use Rattle.olk_reports.specs.Paths.{one_below};
ghost use Rattle.olk_base.specs.Kit.{kit};
ghost use Rattle.olk_tree.specs.Steps.{StepsOf, layer};
ghost use Rattle.olk_meaning.specs.Plans.{plan_of, planned};
ghost use Rattle.olk_build.specs.Forms.{IsAdditionalProperties, IsMapOf, IsRestriction, IsFormOfAdditionalProperties};
ghost use Rattle.olk_build.specs.Building.{IsMember};
ghost use Rattle.olk_build.specs.Taking.{GivesMember, Gives};
ghost use Rattle.olk_build.specs.Making.{MakesRestriction};

use crate::part::{Beside, DeclaredNodes, Patterns};
use crate::properties::map_of;
use crate::refusal::{Stop, refuse};
use crate::shape::Shape;
use crate::{Context, compile_keyword};
use olk_base::{Leaf, MakeLeaf, MakeRegex, RegexEngine};
use olk_meaning::Plan;
use olk_reports::{BuildError, Location, ValidationErrorKind};
use olk_tree::additional_properties::{
    AdditionalProperties, AdditionalPropertiesFalse, AdditionalPropertiesNotEmpty,
    AdditionalPropertiesNotEmptyFalse, AdditionalPropertiesNotEmptyFalseWithRequired1,
    AdditionalPropertiesWithPatterns, AdditionalPropertiesWithPatternsFalse,
    AdditionalPropertiesWithPatternsNotEmpty, AdditionalPropertiesWithPatternsNotEmptyFalse,
    Restriction,
};
use olk_tree::built_node::BuiltNode;
use olk_tree::node::KeywordOver;
use olk_tree::properties_map::PropertiesMap;
use serde_json::{Map, Value};
use std::alloc::{AllocError, Global};

/// The shape of `additionalProperties`: an object is a schema for every other member, `false`
/// allows none, `true` any.
pub(crate) fn shape_of_others<'a, K: Drop, R: Drop>(
    alloc: Global,
    location: &Location,
    value: &'a Value,
) -> Result<Shape<K, R>, Stop<'a>>
    ensures rule { IfOk result (λ x. is_rule (view value.now) ≡ true) }
    ensures shape { IfOk result (λ x. x ≡ cond (is_object (view value.now))
        shape.AdditionalProperties (cond (is_truth false (view value.now)) shape.NoOthers
        shape.AnyOthers)) }
    ensures refused { IfErr result (TellsOneOf (unless_kind (is_rule (view value.now))
        MultipleTypes (view value.now) location.now)) }
{
    match value {
        Value::Object(_) => Ok(Shape::AdditionalProperties),
        Value::Bool(true) => Ok(Shape::AnyOthers),
        Value::Bool(false) => Ok(Shape::NoOthers),
        Value::Null | Value::Number(_) | Value::String(_) | Value::Array(_) => {
            Err(refuse(alloc, ValidationErrorKind::MultipleTypes, value, location))
        }
    }
}

/// The keyword of `additionalProperties` in the object at the context's place (JSON Schema 2020-12
/// Core, 10.3.2.3), with `properties` and `patternProperties` of the parent that there are and with
/// the one name of `required` that it fuses, for all of which it stands; none where it is `true`,
/// which holds other members to nothing.
///
/// The meter rises by the cost of the three, or by a part of it where nothing is built; the
/// context's place is left as it was.
///
/// # Errors
///
/// One of the malformations of the three; else out of memory.
pub fn compile<'a, L: MakeLeaf, M: MakeRegex, N: BuiltNode<L::Leaf, M::Engine>>(
    alloc: Global,
    ctx: &mut Context<'_, L, M>,
    parent: &'a Map<String, Value>,
    schema: &'a Value,
) -> Option<Result<KeywordOver<L::Leaf, M::Engine, N>, BuildError<'a>>>
    ensures gives { GivesMember (layer L.Leaf.Leaf M.Engine.RegexEngine)
        (members_view parent.now.entries) (codes "additionalProperties", view schema.now)
        ctx.old.place ctx.old.meter.now ctx.new.meter.now N.answers result }
    ensures form { Gives (members_view parent.now.entries)
        (codes "additionalProperties", view schema.now) result
        (IsAdditionalProperties ctx.old.place
        (one_below ctx.old.place (codes "additionalProperties")) (is_object (view schema.now))
        (option_map (λ d. length (members d))
        (lookup_name (codes "properties") (listed (members_view parent.now.entries))))
        (option_map (λ d. length (members d))
        (lookup_name (codes "patternProperties") (listed (members_view parent.now.entries))))
        (plan_of (members_view parent.now.entries)).fused_one) }
    ensures unread { IsMember (members_view parent.now.entries)
        (codes "additionalProperties", view schema.now)
        → is_none result ≡ is_truth true (view schema.now) }
    ensures unread_at_no_cost { IsMember (members_view parent.now.entries)
        (codes "additionalProperties", view schema.now)
        → IfNone result (ctx.new.meter.now ≡ ctx.old.meter.now) }
    ensures place { ctx.new.place ≡ ctx.old.place }
    ensures same_meter { ctx.new.meter.ghost_name ≡ ctx.old.meter.ghost_name }
{
    if schema.as_bool() == Some(true) {
        return None;
    }
    compile_keyword(alloc, ctx, parent, "additionalProperties", schema)
}

/// The map of the declared names, if there are any.
fn declared<N: Drop>(properties: Option<DeclaredNodes<N>>) -> Option<PropertiesMap<N>>
    ensures { IsMapOf properties result }
{
    match properties {
        Some(held) => Some(map_of(held.names, held.nodes)),
        None => None,
    }
}

/// The validator where neither `properties` nor `patternProperties` stands beside it.
fn alone<R, N: Drop>(
    alloc: Global,
    location: Location,
    rest: Option<N>,
) -> Result<Restriction<R, N>, AllocError>
    ensures { (P : Path) (n : Option Name)
        → IfOk result (IsRestriction P location rest None None n) }
{
    match rest {
        Some(node) => {
            let keyword = AdditionalProperties { node, location };
            Ok(Restriction::Schema(Box::new(alloc, keyword)?))
        }
        None => Ok(Restriction::False(AdditionalPropertiesFalse { location })),
    }
}

/// The validator beside `properties`, with the name that the plan fuses.
fn with_properties<R, N: Drop>(
    alloc: Global,
    plan: Plan<'_>,
    place: &Location,
    location: Location,
    rest: Option<N>,
    properties: PropertiesMap<N>,
) -> Result<Restriction<R, N>, AllocError>
    ensures { IfOk result (IsRestriction place.now location rest (Some properties) None
        (planned plan.entry).fused_one) }
{
    if let Some(node) = rest {
        let keyword = AdditionalPropertiesNotEmpty {
            properties,
            node,
            location,
        };
        return Ok(Restriction::NotEmpty(Box::new(alloc, keyword)?));
    }
    let Some(name) = plan.fused_one() else {
        let keyword = AdditionalPropertiesNotEmptyFalse {
            properties,
            location,
        };
        return Ok(Restriction::NotEmptyFalse(Box::new(alloc, keyword)?));
    };
    let required = String::from_str(alloc, name)?;
    let required_location = place.join(alloc, "required")?;
    let keyword = AdditionalPropertiesNotEmptyFalseWithRequired1 {
        properties,
        required,
        location,
        required_location,
    };
    Ok(Restriction::NotEmptyFalseWithRequired1(Box::new(alloc, keyword)?))
}

/// The validator beside `patternProperties`.
fn with_patterns<R: Drop, N: Drop>(
    alloc: Global,
    location: Location,
    rest: Option<N>,
    held: Patterns<R, N>,
) -> Result<Restriction<R, N>, AllocError>
    ensures { (P : Path) (n : Option Name)
        → IfOk result (IsRestriction P location rest None (Some held) n) }
{
    let pattern_keyword_path = held.location;
    let patterns = held.patterns;
    match rest {
        Some(node) => {
            let keyword = AdditionalPropertiesWithPatterns {
                patterns,
                node,
                location,
                pattern_keyword_path,
            };
            Ok(Restriction::WithPatterns(Box::new(alloc, keyword)?))
        }
        None => {
            let keyword = AdditionalPropertiesWithPatternsFalse {
                patterns,
                location,
                pattern_keyword_path,
            };
            Ok(Restriction::WithPatternsFalse(Box::new(alloc, keyword)?))
        }
    }
}

/// The validator beside both.
fn with_both<R: Drop, N: Drop>(
    alloc: Global,
    location: Location,
    rest: Option<N>,
    properties: PropertiesMap<N>,
    held: Patterns<R, N>,
) -> Result<Restriction<R, N>, AllocError>
    ensures { (P : Path) (n : Option Name)
        → IfOk result (IsRestriction P location rest (Some properties) (Some held) n) }
{
    let property_pattern_indices = held.table;
    let patterns = held.patterns;
    match rest {
        Some(node) => {
            let keyword = AdditionalPropertiesWithPatternsNotEmpty {
                properties,
                patterns,
                property_pattern_indices,
                node,
                location,
            };
            Ok(Restriction::WithPatternsNotEmpty(Box::new(alloc, keyword)?))
        }
        None => {
            let keyword = AdditionalPropertiesWithPatternsNotEmptyFalse {
                properties,
                patterns,
                property_pattern_indices,
                location,
            };
            Ok(Restriction::WithPatternsNotEmptyFalse(Box::new(alloc, keyword)?))
        }
    }
}

/// The form over the node for the rest and what stands beside it, with the name that the plan
/// fuses.
fn form<R: Drop, N: Drop>(
    alloc: Global,
    plan: Plan<'_>,
    place: &Location,
    location: Location,
    rest: Option<N>,
    beside: Beside<R, N>,
) -> Result<Restriction<R, N>, AllocError>
    ensures { IfOk result (IsFormOfAdditionalProperties place.now location rest beside
        (planned plan.entry).fused_one) }
{
    let properties = declared(beside.properties);
    match (properties, beside.patterns) {
        (None, None) => alone(alloc, location, rest),
        (Some(map), None) => with_properties(alloc, plan, place, location, rest, map),
        (None, Some(patterns)) => with_patterns(alloc, location, rest, patterns),
        (Some(map), Some(patterns)) => with_both(alloc, location, rest, map, patterns),
    }
}

/// The validator of `additionalProperties` in the object at the place, over the node for the rest,
/// or without one where nothing else is expected, and over what stands beside it; with the name
/// that the plan fuses.
///
/// From [`HASHMAP_THRESHOLD`](olk_spec::HASHMAP_THRESHOLD) names on they stand in a map of many.
///
/// # Errors
///
/// Out of memory.
pub(crate) fn make<K: Leaf, R: RegexEngine, N: BuiltNode<K, R>>(
    alloc: Global,
    plan: Plan<'_>,
    place: &Location,
    location: Location,
    rest: Option<N>,
    beside: Beside<R, N>,
) -> Result<KeywordOver<K, R, N>, AllocError>
    ensures form { IfOk result (IsAdditionalProperties place.now location (is_some rest)
        (option_map (λ m. length m.names) beside.properties)
        (option_map (λ x. length x.patterns.items) beside.patterns)
        (planned plan.entry).fused_one) }
    ensures makes { IfOk result (λ k. (I : StepsOf (kit K.Leaf R.RegexEngine))
        → MakesRestriction I N.answers location rest beside place.now (planned plan.entry) (k ∷
        [])) }
{
    let restriction = form(alloc, plan, place, location, rest, beside)?;
    Ok(KeywordOver::AdditionalProperties(restriction))
}
