//! `properties`: how it is read, compiled and made.
ghost use Rattle.std.specs.Prelude.{◌≡◌, codes, is_none, length, map, IfOk, IfErr, ◌∷◌, [], None};
ghost use Rattle.std.specs.Option.{IfNone};
ghost use Rattle.serde_json.specs.View.{view, members_view};
ghost use Rattle.olk_spec.specs.Schemas.{listed, members};
ghost use Rattle.olk_reports.specs.Paths.{one_below};
ghost use Rattle.olk_base.specs.Kit.{kit};
ghost use Rattle.olk_build.specs.Forms.{IsProperties, IsMapOver, IsMapFor, IsFormOfProperties};
ghost use Rattle.olk_meaning.specs.Conditions.{is_restricted};
ghost use Rattle.olk_meaning.specs.Plans.{plan_of, planned};
ghost use Rattle.olk_build.specs.Building.{IsMember, AreBuilt, RefusesEach};
ghost use Rattle.olk_build.specs.Taking.{GivesMember, Gives};
ghost use Rattle.olk_spec.specs.Names.{Path};
ghost use Rattle.olk_tree.specs.Ascending.{Ascend};
ghost use Rattle.olk_tree.specs.Steps.{StepsOf, layer};
ghost use Rattle.olk_build.specs.Making.{MakesClaims};
ghost use Rattle.olk_build.specs.declared.shape.Shape.TheVariants as shape;

use crate::{Context, compile_declared, compile_keyword};
use olk_base::{Leaf, MakeLeaf, MakeRegex, RegexEngine};
use olk_meaning::{Plan, is_restricted};
use olk_reports::{BuildError, Location};
use olk_spec::HASHMAP_THRESHOLD;
use olk_tree::big_map::BigMap;
use olk_tree::built_node::BuiltNode;
use olk_tree::map::SmallMap;
use olk_tree::names::SortedNames;
use olk_tree::node::KeywordOver;
use olk_tree::properties::{BigProperties, SmallProperties, SmallPropertiesWithRequired2};
use olk_tree::properties_map::PropertiesMap;
use serde_json::{Map, Value};
use std::alloc::{AllocError, Global};

/// The keyword of `properties` in the object at the context's place (JSON Schema 2020-12 Core,
/// 10.3.2.1): with the two names that it fuses from `required` of the parent, and then it stands
/// for both, or alone; none where `additionalProperties` of the parent is `false` or an object,
/// since that keyword then stands for the names too.
///
/// The meter rises by the cost of the keyword, or by a part of it where nothing is built; the
/// context's place is left as it was.
///
/// # Errors
///
/// One of the malformations of the keyword; else out of memory.
pub fn compile<'a, L: MakeLeaf, M: MakeRegex, N: BuiltNode<L::Leaf, M::Engine>>(
    alloc: Global,
    ctx: &mut Context<'_, L, M>,
    parent: &'a Map<String, Value>,
    schema: &'a Value,
) -> Option<Result<KeywordOver<L::Leaf, M::Engine, N>, BuildError<'a>>>
    ensures gives { GivesMember (layer L.Leaf.Leaf M.Engine.RegexEngine)
        (members_view parent.now.entries) (codes "properties", view schema.now)
        ctx.old.place ctx.old.meter.now ctx.new.meter.now N.answers result }
    ensures form { Gives (members_view parent.now.entries)
        (codes "properties", view schema.now) result
        (IsProperties ctx.old.place (one_below ctx.old.place (codes "properties"))
        (length (members (view schema.now)))
        (plan_of (members_view parent.now.entries)).fused_pair) }
    ensures unread { IsMember (members_view parent.now.entries)
        (codes "properties", view schema.now)
        → is_none result ≡ is_restricted (members_view parent.now.entries) }
    ensures unread_at_no_cost { IsMember (members_view parent.now.entries)
        (codes "properties", view schema.now)
        → IfNone result (ctx.new.meter.now ≡ ctx.old.meter.now) }
    ensures place { ctx.new.place ≡ ctx.old.place }
    ensures same_meter { ctx.new.meter.ghost_name ≡ ctx.old.meter.ghost_name }
{
    if is_restricted(parent) {
        return None;
    }
    compile_keyword(alloc, ctx, parent, "properties", schema)
}

/// The declared names, found by bisection, and beside each the node of its subschema, below
/// `properties` at the context's place (JSON Schema 2020-12 Core, 10.3.2.1).
///
/// The meter rises by the cost of the subschemas, or by a part of it where nothing is built; the
/// context's place is left as it was.
///
/// # Errors
///
/// One of the subschemas' malformations; else out of memory.
pub fn compile_small_map<'a, L: MakeLeaf, M: MakeRegex, N: BuiltNode<L::Leaf, M::Engine>>(
    alloc: Global,
    ctx: &mut Context<'_, L, M>,
    properties: &'a Map<String, Value>,
) -> Result<SmallMap<N>, BuildError<'a>>
    ensures names { IfOk result (λ m. m.names
        ≡ map (λ e. e.0) (listed (members_view properties.now.entries))) }
    ensures built { IfOk result (λ m. AreBuilt (layer L.Leaf.Leaf M.Engine.RegexEngine) N.answers
        m.nodes.items (listed (members_view properties.now.entries))
        (one_below ctx.old.place (codes "properties")) ctx.old.meter.now ctx.new.meter.now) }
    ensures refused { IfErr result (RefusesEach (layer L.Leaf.Leaf M.Engine.RegexEngine)
        (listed (members_view properties.now.entries))
        (one_below ctx.old.place (codes "properties")) ctx.old.meter.now ctx.new.meter.now) }
    ensures place { ctx.new.place ≡ ctx.old.place }
    ensures same_meter { ctx.new.meter.ghost_name ≡ ctx.old.meter.ghost_name }
{
    let names = SortedNames::of(alloc, properties)?;
    let nodes = compile_declared(alloc, ctx, "properties", properties)?;
    Ok(SmallMap { names, nodes })
}

/// The names and nodes that [`compile_small_map`] gives, in a map of many.
///
/// The meter rises by the cost of the subschemas, or by a part of it where nothing is built; the
/// context's place is left as it was.
///
/// # Errors
///
/// One of the subschemas' malformations; else out of memory.
pub fn compile_big_map<'a, L: MakeLeaf, M: MakeRegex, N: BuiltNode<L::Leaf, M::Engine>>(
    alloc: Global,
    ctx: &mut Context<'_, L, M>,
    properties: &'a Map<String, Value>,
) -> Result<BigMap<N>, BuildError<'a>>
    ensures names { IfOk result (λ m. m.names
        ≡ map (λ e. e.0) (listed (members_view properties.now.entries))) }
    ensures built { IfOk result (λ m. AreBuilt (layer L.Leaf.Leaf M.Engine.RegexEngine) N.answers
        m.nodes.items (listed (members_view properties.now.entries))
        (one_below ctx.old.place (codes "properties")) ctx.old.meter.now ctx.new.meter.now) }
    ensures refused { IfErr result (RefusesEach (layer L.Leaf.Leaf M.Engine.RegexEngine)
        (listed (members_view properties.now.entries))
        (one_below ctx.old.place (codes "properties")) ctx.old.meter.now ctx.new.meter.now) }
    ensures place { ctx.new.place ≡ ctx.old.place }
    ensures same_meter { ctx.new.meter.ghost_name ≡ ctx.old.meter.ghost_name }
{
    let SmallMap { names, nodes } = compile_small_map(alloc, ctx, properties)?;
    Ok(BigMap { names, nodes })
}

/// The map of these names, each with the node beside it.
pub(crate) fn map_of<N: Drop>(names: SortedNames, nodes: Vec<N>) -> PropertiesMap<N>
    ensures entries { IsMapOver names nodes.items result }
    ensures size { IsMapFor (length names) result }
    ensures ordered { Ascend names }
{
    if names.len() < HASHMAP_THRESHOLD {
        PropertiesMap::Small(SmallMap { names, nodes })
    } else {
        PropertiesMap::Big(BigMap { names, nodes })
    }
}

/// The validator of these names alone.
fn alone<K, R, N: Drop>(
    location: Location,
    names: SortedNames,
    nodes: Vec<N>,
) -> KeywordOver<K, R, N>
    ensures { (P : Path) → IsFormOfProperties P location names nodes.items None result }
{
    match map_of(names, nodes) {
        PropertiesMap::Small(properties) => {
            KeywordOver::SmallProperties(SmallProperties {
                properties,
                location,
            })
        }
        PropertiesMap::Big(properties) => {
            KeywordOver::BigProperties(BigProperties {
                properties,
                location,
            })
        }
    }
}

/// The form that the plan names, in the object at the place.
fn form<K, R, N: Drop>(
    alloc: Global,
    plan: Plan<'_>,
    place: &Location,
    location: Location,
    names: SortedNames,
    nodes: Vec<N>,
) -> Result<KeywordOver<K, R, N>, AllocError>
    ensures { IfOk result (IsFormOfProperties place.now location names nodes.items
        (planned plan.entry).fused_pair) }
{
    let Some((first, second)) = plan.fused_pair() else {
        return Ok(alone(location, names, nodes));
    };
    let first = String::from_str(alloc, first)?;
    let second = String::from_str(alloc, second)?;
    let required_location = place.join(alloc, "required")?;
    let keyword = SmallPropertiesWithRequired2 {
        properties: SmallMap { names, nodes },
        first,
        second,
        location,
        required_location,
    };
    Ok(KeywordOver::PropertiesWithRequired2(Box::new(alloc, keyword)?))
}

/// The validator of the declared names' nodes in the object at the place, and of the names that the
/// plan fuses.
///
/// From [`HASHMAP_THRESHOLD`] names on they stand in a map of many, where none are fused.
///
/// # Errors
///
/// Out of memory.
pub(crate) fn make<K: Leaf, R: RegexEngine, N: BuiltNode<K, R>>(
    alloc: Global,
    plan: Plan<'_>,
    place: &Location,
    location: Location,
    names: SortedNames,
    nodes: Vec<N>,
) -> Result<KeywordOver<K, R, N>, AllocError>
    ensures form { IfOk result (IsProperties place.now location (length names)
        (planned plan.entry).fused_pair) }
    ensures makes { IfOk result (λ k. (I : StepsOf (kit K.Leaf R.RegexEngine))
        → MakesClaims I N.answers
        (shape.Properties names) location nodes.items place.now (planned plan.entry) (k ∷ [])) }
{
    form(alloc, plan, place, location, names, nodes)
}
