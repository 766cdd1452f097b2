//! Making the validator of a part of a schema object.
ghost use Rattle.std.specs.Prelude.{option_to_list, IfOk};
ghost use Rattle.olk_base.specs.Kit.{kit};
ghost use Rattle.olk_tree.specs.Steps.{StepsOf};
ghost use Rattle.olk_meaning.specs.Plans.{planned};
ghost use Rattle.olk_build.specs.Making.{MakesPart};
ghost use Rattle.olk_build.specs.Made.{IsMade};

use crate::part::{Part, TakenNeighbours};
use crate::shape::Shape;
use crate::{
    additional_properties, all_of, any_of, dependencies, if_, not, one_of, pattern_properties,
    properties, property_dependencies, property_names, required,
};
use olk_base::{Leaf, RegexEngine};
use olk_meaning::Plan;
use olk_reports::Location;
use olk_tree::built_node::BuiltNode;
use olk_tree::node::KeywordOver;
use std::alloc::{AllocError, Global};

/// The keyword of a part of the object at the place, if it is read and the plan names no other for
/// it. `if` and `additionalProperties` have what was taken for them.
///
/// # Errors
///
/// Out of memory.
#[inline(never)]
pub(crate) fn make_keyword<K: Leaf, R: RegexEngine, N: BuiltNode<K, R>>(
    alloc: Global,
    plan: Plan<'_>,
    place: &Location,
    taken: &mut TakenNeighbours<R, N>,
    part: Part<K, R, N>,
) -> Result<Option<KeywordOver<K, R, N>>, AllocError>
    ensures makes { IfOk result (λ o. (I : StepsOf (kit K.Leaf R.RegexEngine))
        → MakesPart I N.answers part.shape
        part.location part.nodes.items taken.old place.now (planned plan.entry)
        (option_to_list o)) }
    ensures form { IfOk result (λ r. (I : StepsOf (kit K.Leaf R.RegexEngine))
        → IsMade I N.answers part.shape
        part.location part.nodes.items taken.old place.now (planned plan.entry) r) }
{
    let Part {
        location,
        shape,
        mut nodes,
    } = part;
    match shape {
        Shape::Properties(names) => Ok(Some(properties::make(
            alloc, plan, place, location, names, nodes,
        )?)),
        Shape::PatternProperties(patterns) => Ok(Some(pattern_properties::make(
            alloc, location, patterns, nodes,
        )?)),
        Shape::AdditionalProperties => match nodes.pop() {
            Some(rest) => Ok(Some(additional_properties::make(
                alloc,
                plan,
                place,
                location,
                Some(rest),
                taken.beside.take(),
            )?)),
            None => Ok(None),
        },
        Shape::NoOthers => Ok(Some(additional_properties::make(
            alloc,
            plan,
            place,
            location,
            None,
            taken.beside.take(),
        )?)),
        Shape::AnyOthers => Ok(None),
        Shape::PropertyNames => Ok(property_names::make(location, nodes)),
        Shape::NoNames => Ok(Some(property_names::make_false(location))),
        Shape::AnyNames => Ok(None),
        Shape::Required(names) => Ok(required::make(plan, location, names, nodes)),
        Shape::DependentRequired(keys, lists) => Ok(Some(dependencies::make_required(
            alloc, location, keys, lists,
        )?)),
        Shape::DependentSchemas(keys) => {
            Ok(Some(dependencies::make_schemas(location, keys, nodes)))
        }
        Shape::Dependencies(keys, lists) => Ok(Some(dependencies::make(
            alloc, location, keys, lists, nodes,
        )?)),
        Shape::PropertyDependencies(keys, texts) => Ok(Some(property_dependencies::make(
            alloc, location, keys, texts, nodes,
        )?)),
        Shape::AllOf => Ok(Some(all_of::make(location, nodes))),
        Shape::AnyOf => Ok(Some(any_of::make(location, nodes))),
        Shape::OneOf => Ok(Some(one_of::make(location, nodes))),
        Shape::Not(original) => Ok(not::make(location, original, nodes)),
        Shape::If => match nodes.pop() {
            Some(schema) => Ok(if_::make(alloc, location, schema, taken.cases.take())?),
            None => Ok(None),
        },
        Shape::Then | Shape::Else | Shape::Unpaired => Ok(None),
        Shape::Leaf(leaf) => Ok(Some(KeywordOver::Leaf(location, leaf))),
        Shape::Unread => Ok(None),
    }
}
