//! `propertyNames`: how it is read, compiled and made.
ghost use Rattle.std.specs.Prelude.{◌≡◌, false, cond, ◌||◌, true, not, is_none, codes, ◌∷◌, [], option_to_list};
ghost use Rattle.serde_json.specs.View.{view, members_view};
ghost use Rattle.olk_spec.specs.Schemas.{is_object, is_truth};
ghost use Rattle.olk_build.specs.declared.shape.Shape.TheVariants as shape;
ghost use Rattle.std.specs.Option.{IfNone, IfSome};
ghost use Rattle.olk_reports.specs.Paths.{one_below};
ghost use Rattle.olk_base.specs.Kit.{kit};
ghost use Rattle.olk_tree.specs.Steps.{StepsOf, layer};
ghost use Rattle.olk_build.specs.Forms.{IsPropertyNames, IsPropertyNamesFalse};
ghost use Rattle.olk_build.specs.Building.{IsMember};
ghost use Rattle.olk_build.specs.Taking.{GivesMember, Gives};
ghost use Rattle.olk_build.specs.Making.{MakesMember};

use crate::shape::Shape;
use crate::{Context, compile_keyword};
use olk_base::{Leaf, MakeLeaf, MakeRegex, RegexEngine};
use olk_reports::{BuildError, Location};
use olk_tree::built_node::BuiltNode;
use olk_tree::node::KeywordOver;
use olk_tree::property_names::{PropertyNames, PropertyNamesFalse};
use serde_json::{Map, Value};
use std::alloc::Global;

/// The shape of `propertyNames`: an object is a schema for each name, `false` allows no name,
/// anything else any.
pub(crate) fn shape_of_names<K: Drop, R: Drop>(value: &Value) -> Shape<K, R>
    ensures { result ≡ cond (is_object (view value.now)) shape.PropertyNames
        (cond (is_truth false (view value.now)) shape.NoNames shape.AnyNames) }
{
    if value.is_object() {
        Shape::PropertyNames
    } else if value.as_bool() == Some(false) {
        Shape::NoNames
    } else {
        Shape::AnyNames
    }
}

/// The keyword of `propertyNames` in the object at the context's place (JSON Schema 2020-12 Core,
/// 10.3.2.4): an object is a schema for each name, `false` allows no name; none for anything else,
/// which allows any.
///
/// The meter rises by the cost of the keyword, or by a part of it where nothing is built; the
/// context's place is left as it was.
///
/// # Errors
///
/// One of the malformations of the keyword; else out of memory.
pub fn compile<'a, L: MakeLeaf, M: MakeRegex, N: BuiltNode<L::Leaf, M::Engine>>(
    alloc: Global,
    ctx: &mut Context<'_, L, M>,
    parent: &'a Map<String, Value>,
    schema: &'a Value,
) -> Option<Result<KeywordOver<L::Leaf, M::Engine, N>, BuildError<'a>>>
    ensures gives { GivesMember (layer L.Leaf.Leaf M.Engine.RegexEngine)
        (members_view parent.now.entries) (codes "propertyNames", view schema.now)
        ctx.old.place ctx.old.meter.now ctx.new.meter.now N.answers result }
    ensures form { is_object (view schema.now) ≡ true
        → Gives (members_view parent.now.entries) (codes "propertyNames", view schema.now) result
        (IsPropertyNames (one_below ctx.old.place (codes "propertyNames"))) }
    ensures form_of_false { is_truth false (view schema.now) ≡ true
        → Gives (members_view parent.now.entries) (codes "propertyNames", view schema.now) result
        (IsPropertyNamesFalse (one_below ctx.old.place (codes "propertyNames"))) }
    ensures unread { IsMember (members_view parent.now.entries)
        (codes "propertyNames", view schema.now)
        → is_none result
        ≡ not (is_object (view schema.now) || is_truth false (view schema.now)) }
    ensures unread_at_no_cost { IsMember (members_view parent.now.entries)
        (codes "propertyNames", view schema.now)
        → IfNone result (ctx.new.meter.now ≡ ctx.old.meter.now) }
    ensures place { ctx.new.place ≡ ctx.old.place }
    ensures same_meter { ctx.new.meter.ghost_name ≡ ctx.old.meter.ghost_name }
{
    if !restricts_names(schema) {
        return None;
    }
    compile_keyword(alloc, ctx, parent, "propertyNames", schema)
}

/// Whether names are restricted at all: by a schema that is an object, or by `false`.
fn restricts_names(schema: &Value) -> bool
    ensures { result ≡ (is_object (view schema.now) || is_truth false (view schema.now)) }
{
    schema.is_object() || schema.as_bool() == Some(false)
}

/// The validator of a schema's node, and none where there is no node.
pub(crate) fn make<K: Leaf, R: RegexEngine, N: BuiltNode<K, R>>(
    location: Location,
    mut nodes: Vec<N>,
) -> Option<KeywordOver<K, R, N>>
    ensures none { IfNone result (nodes.items ≡ []) }
    ensures form { IfSome result (IsPropertyNames location) }
    ensures makes { (I : StepsOf (kit K.Leaf R.RegexEngine))
        → MakesMember I N.answers shape.PropertyNames location
        nodes.items (option_to_list result) }
{
    let Some(node) = nodes.pop() else {
        return None;
    };
    Some(KeywordOver::PropertyNames(PropertyNames { node, location }))
}

/// The validator of `false`, which allows no name.
pub(crate) fn make_false<K: Leaf, R: RegexEngine, N: BuiltNode<K, R>>(
    location: Location,
) -> KeywordOver<K, R, N>
    ensures form { IsPropertyNamesFalse location result }
    ensures makes { (I : StepsOf (kit K.Leaf R.RegexEngine))
        → MakesMember I N.answers shape.NoNames location []
        (result ∷ []) }
{
    KeywordOver::PropertyNamesFalse(PropertyNamesFalse { location })
}
