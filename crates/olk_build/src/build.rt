//! Building nodes from a schema, place by place.
ghost use Rattle.std.specs.Prelude.{◌≡◌, [], false, is_none, IfOk, IfErr, OnOk, OnErr, decimal};
ghost use Rattle.serde_json.specs.View.{view, members_view, items_view};
ghost use Rattle.olk_spec.specs.Schemas.{listed, numbered};
ghost use Rattle.olk_spec.specs.Malformed.{items_list, malformations_at};
ghost use Rattle.olk_spec.specs.Costs.{cost};
ghost use Rattle.olk_reports.specs.Paths.{one_below};
ghost use Rattle.olk_base.specs.Kit.{kit, world};
ghost use Rattle.olk_tree.specs.Places.{Stands};
ghost use Rattle.olk_tree.specs.Steps.{layer};
ghost use Rattle.olk_build.specs.Building.{IsMember, IsBuilt, ObjectIsBuilt, AreBuilt, InnerAreBuilt, is_read, entries_read, RefusesSchema, RefusesEach, RefusesInner, RefusesObject, RefusesPart, IsPart, PlacesAreBuilt, RefusesPlaces};
ghost use Rattle.olk_meaning.specs.Conditions.{known, known_of};
ghost use Rattle.olk_build.specs.Refusing.{TellsOneOf, Spends, SpendsWithin};
ghost use Rattle.olk_build.specs.Taking.{takes_of, IsNeighbour, RefusesNeighbour, IsTaken, RefusesTaken, MemberIsBuilt, RefusesMember, GivesMember, Gives};
ghost use Rattle.olk_build.specs.Chooser.{has_no_validator, HasForm};
ghost use Rattle.olk_spec.specs.Vocabulary.{keyword_named};

use crate::context::{Context, Makers};
use crate::part::{Part, TakenNeighbours};
use crate::reading::read_keyword;
use crate::refusal::{Stop, refuse};
use crate::shape::{ReadPlaces, Shape};
use crate::taking::{
    append_alone, append_taking, is_taken, make_taking, take, take_nothing, takes, takes_any,
};
use olk_base::{MakeLeaf, MakeRegex, Meter, append, one};
use olk_meaning::{Neighbours, Plan};
use olk_reports::{BuildError, Location, ValidationErrorKind};
use olk_tree::built_node::BuiltNode;
use olk_tree::node::{Body, KeywordOver};
use serde_json::{Map, Value};
use std::alloc::{AllocError, Global};

/// The place of an item of an array.
fn place_of_item(alloc: Global, place: &Location, index: usize) -> Result<Location, AllocError>
    ensures { IfOk result (λ l. l ≡ one_below place.now (decimal index)) }
{
    let segment = format!(in alloc; "{index}")?;
    place.join(alloc, segment.as_str())
}

/// The node of a schema, which takes its place over.
#[cycle(compile)]
fn compile_schema<'a, L: MakeLeaf, M: MakeRegex, N: BuiltNode<L::Leaf, M::Engine>>(
    alloc: Global,
    makers: &Makers<'_, L, M>,
    meter: &mut Meter,
    location: Location,
    schema: &'a Value,
) -> Result<N, Stop<'a>>
    ensures built { IfOk result (λ n. IsBuilt (layer L.Leaf.Leaf M.Engine.RegexEngine) N.answers n
        (view schema.now) location meter.old meter.new) }
    ensures refused { IfErr result (RefusesSchema (layer L.Leaf.Leaf M.Engine.RegexEngine)
        (view schema.now) location meter.old meter.new) }
{
    meter.tick_compiled();
    match schema {
        Value::Bool(true) => Ok(N::new(alloc, location, Body::True)),
        Value::Bool(false) => Ok(N::new(alloc, location, Body::False)),
        Value::Object(members) => {
            let keywords = compile_object(alloc, makers, meter, &location, members)?;
            Ok(N::new(alloc, location, Body::Keywords(keywords)))
        }
        Value::Null | Value::Number(_) | Value::String(_) | Value::Array(_) => {
            Err(refuse(alloc, ValidationErrorKind::MultipleTypes, schema, &location))
        }
    }
}

/// The keywords of a schema object, in the order of their names.
#[cycle(compile)]
fn compile_object<'a, L: MakeLeaf, M: MakeRegex, N: BuiltNode<L::Leaf, M::Engine>>(
    alloc: Global,
    makers: &Makers<'_, L, M>,
    meter: &mut Meter,
    place: &Location,
    members: &'a Map<String, Value>,
) -> Result<Vec<KeywordOver<L::Leaf, M::Engine, N>>, Stop<'a>>
    ensures built { IfOk result (λ ks. ObjectIsBuilt (layer L.Leaf.Leaf M.Engine.RegexEngine)
        (members_view members.now.entries) N.answers ks.items place.now meter.old meter.new) }
    ensures refused { IfErr result (RefusesObject (layer L.Leaf.Leaf M.Engine.RegexEngine)
        (members_view members.now.entries) place.now meter.old meter.new) }
{
    let plan = Plan::of(members);
    let neighbours = Neighbours::of(members);
    let mut keywords = Vec::with_capacity(alloc, members.len())?;
    for (name, value) in members {
        let name = name.as_str();
        if !is_taken(plan, name) {
            let location = place.join(alloc, name)?;
            let part = compile_part(alloc, makers, meter, neighbours, location, name, value)?;
            if takes_any(&part.shape) {
                let taken = compile_taken(alloc, makers, meter, place, members, &part.shape)?;
                append_taking(alloc, plan, place, part, taken, &mut keywords)?;
            } else {
                append_alone(alloc, plan, place, part, &mut keywords)?;
            }
        }
    }
    Ok(keywords)
}

/// What the keyword of a part of this shape takes of two neighbours, as far as they are there.
/// Where it takes patterns, each is asked once of each name that is declared beside them.
#[cycle(compile)]
fn compile_taken<'a, L: MakeLeaf, M: MakeRegex, N: BuiltNode<L::Leaf, M::Engine>>(
    alloc: Global,
    makers: &Makers<'_, L, M>,
    meter: &mut Meter,
    place: &Location,
    members: &'a Map<String, Value>,
    shape: &Shape<L::Leaf, M::Engine>,
) -> Result<TakenNeighbours<M::Engine, N>, Stop<'a>>
    ensures built { IfOk result (IsTaken (layer L.Leaf.Leaf M.Engine.RegexEngine) N.answers
        (members_view members.now.entries) shape.now place.now meter.old meter.new) }
    ensures refused { IfErr result (RefusesTaken (layer L.Leaf.Leaf M.Engine.RegexEngine)
        (members_view members.now.entries) (takes_of shape.now)
        place.now meter.old meter.new) }
{
    match takes(shape) {
        Some((first, second)) => {
            let first = compile_neighbour(alloc, makers, meter, place, members, first)?;
            let second = compile_neighbour(alloc, makers, meter, place, members, second)?;
            let neighbours = Neighbours::of(members);
            Ok(take(alloc, meter, neighbours, shape, first, second)?)
        }
        None => Ok(take_nothing()),
    }
}

/// The part of the member of this name, if there is one.
#[cycle(compile)]
fn compile_neighbour<'a, L: MakeLeaf, M: MakeRegex, N: BuiltNode<L::Leaf, M::Engine>>(
    alloc: Global,
    makers: &Makers<'_, L, M>,
    meter: &mut Meter,
    place: &Location,
    members: &'a Map<String, Value>,
    name: &'static str,
) -> Result<Option<Part<L::Leaf, M::Engine, N>>, Stop<'a>>
    ensures built { IfOk result (λ p. IsNeighbour (layer L.Leaf.Leaf M.Engine.RegexEngine)
        N.answers (members_view members.now.entries) p name.now place.now meter.old meter.new) }
    ensures refused { IfErr result (RefusesNeighbour (layer L.Leaf.Leaf M.Engine.RegexEngine)
        (members_view members.now.entries) name.now place.now meter.old meter.new) }
{
    let neighbours = Neighbours::of(members);
    match members.get(name) {
        Some(value) => {
            let location = place.join(alloc, name)?;
            let part = compile_part(alloc, makers, meter, neighbours, location, name, value)?;
            Ok(Some(part))
        }
        None => Ok(None),
    }
}

/// The part of a member of a schema object, by what it has to know of its neighbours.
#[cycle(compile)]
fn compile_part<'a, L: MakeLeaf, M: MakeRegex, N: BuiltNode<L::Leaf, M::Engine>>(
    alloc: Global,
    makers: &Makers<'_, L, M>,
    meter: &mut Meter,
    neighbours: Neighbours<'_>,
    location: Location,
    name: &'a str,
    value: &'a Value,
) -> Result<Part<L::Leaf, M::Engine, N>, Stop<'a>>
    ensures built { IfOk result (λ p. IsPart (layer L.Leaf.Leaf M.Engine.RegexEngine) N.answers p
        (known neighbours.entry) name.now (view value.now) location meter.old meter.new) }
    ensures refused { IfErr result (RefusesPart (layer L.Leaf.Leaf M.Engine.RegexEngine)
        (known neighbours.entry) name.now (view value.now) location meter.old meter.new) }
{
    let shape = read_keyword(alloc, makers, meter, neighbours, &location, name, value)?;
    let nodes = compile_places(alloc, makers, meter, &location, shape.reads(), value)?;
    Ok(Part {
        location,
        shape,
        nodes,
    })
}

/// The nodes of the places that are read in a value.
#[cycle(compile)]
fn compile_places<'a, L: MakeLeaf, M: MakeRegex, N: BuiltNode<L::Leaf, M::Engine>>(
    alloc: Global,
    makers: &Makers<'_, L, M>,
    meter: &mut Meter,
    location: &Location,
    reads: ReadPlaces,
    value: &'a Value,
) -> Result<Vec<N>, Stop<'a>>
    ensures built { IfOk result (λ ns. PlacesAreBuilt (layer L.Leaf.Leaf M.Engine.RegexEngine)
        N.answers reads ns.items (view value.now) location.now meter.old meter.new) }
    ensures refused { IfErr result (RefusesPlaces (layer L.Leaf.Leaf M.Engine.RegexEngine)
        reads (view value.now) location.now meter.old meter.new) }
{
    match reads {
        ReadPlaces::Nothing => Ok(Vec::new(alloc)),
        ReadPlaces::Itself => {
            let place = location.try_clone(alloc)?;
            let node = compile_schema(alloc, makers, meter, place, value)?;
            Ok(one(alloc, node)?)
        }
        ReadPlaces::Entries => {
            let Value::Object(map) = value else {
                return Ok(Vec::new(alloc));
            };
            compile_entries(alloc, makers, meter, location, false, map)
        }
        ReadPlaces::SchemaEntries => {
            let Value::Object(map) = value else {
                return Ok(Vec::new(alloc));
            };
            compile_entries(alloc, makers, meter, location, true, map)
        }
        ReadPlaces::InnerEntries => {
            let Value::Object(map) = value else {
                return Ok(Vec::new(alloc));
            };
            compile_inner_entries(alloc, makers, meter, location, map)
        }
        ReadPlaces::Branches => {
            let Value::Array(items) = value else {
                return Ok(Vec::new(alloc));
            };
            compile_branches(alloc, makers, meter, location, items)
        }
    }
}

/// Whether an entry of an object is read as a schema: each is, but for arrays where these are
/// passed over.
fn is_read(passes_arrays: bool, entry: &Value) -> bool
    ensures { result ≡ is_read passes_arrays (view entry.now) }
{
    !(passes_arrays && entry.is_array())
}

/// The nodes of the entries of an object that are read, each below the place under its name.
#[cycle(compile)]
fn compile_entries<'a, L: MakeLeaf, M: MakeRegex, N: BuiltNode<L::Leaf, M::Engine>>(
    alloc: Global,
    makers: &Makers<'_, L, M>,
    meter: &mut Meter,
    place: &Location,
    passes_arrays: bool,
    map: &'a Map<String, Value>,
) -> Result<Vec<N>, Stop<'a>>
    ensures built { IfOk result (λ ns. AreBuilt (layer L.Leaf.Leaf M.Engine.RegexEngine)
        N.answers ns.items (entries_read passes_arrays (listed (members_view map.now.entries)))
        place.now meter.old meter.new) }
    ensures refused { IfErr result (RefusesEach (layer L.Leaf.Leaf M.Engine.RegexEngine)
        (entries_read passes_arrays (listed (members_view map.now.entries)))
        place.now meter.old meter.new) }
{
    let mut nodes = Vec::with_capacity(alloc, map.len())?;
    for (name, schema) in map {
        if is_read(passes_arrays, schema) {
            let location = place.join(alloc, name.as_str())?;
            let node = compile_schema(alloc, makers, meter, location, schema)?;
            append(&mut nodes, node)?;
        }
    }
    Ok(nodes)
}

/// The nodes of the entries of each entry of an object, below the place under both names.
#[cycle(compile)]
fn compile_inner_entries<'a, L: MakeLeaf, M: MakeRegex, N: BuiltNode<L::Leaf, M::Engine>>(
    alloc: Global,
    makers: &Makers<'_, L, M>,
    meter: &mut Meter,
    place: &Location,
    map: &'a Map<String, Value>,
) -> Result<Vec<N>, Stop<'a>>
    ensures built { IfOk result (λ ns. InnerAreBuilt (layer L.Leaf.Leaf M.Engine.RegexEngine)
        N.answers ns.items (listed (members_view map.now.entries)) place.now meter.old meter.new) }
    ensures refused { IfErr result (RefusesInner (layer L.Leaf.Leaf M.Engine.RegexEngine)
        (listed (members_view map.now.entries)) place.now meter.old meter.new) }
{
    let mut nodes = Vec::new(alloc);
    for (name, entry) in map {
        let location = place.join(alloc, name.as_str())?;
        let reads = ReadPlaces::Entries;
        let mut inner = compile_places(alloc, makers, meter, &location, reads, entry)?;
        nodes.append(&mut inner)?;
    }
    Ok(nodes)
}

/// The nodes of the branches of an array, each below the place under its position.
#[cycle(compile)]
fn compile_branches<'a, L: MakeLeaf, M: MakeRegex, N: BuiltNode<L::Leaf, M::Engine>>(
    alloc: Global,
    makers: &Makers<'_, L, M>,
    meter: &mut Meter,
    place: &Location,
    items: &'a Vec<Value>,
) -> Result<Vec<N>, Stop<'a>>
    ensures built { IfOk result (λ ns. AreBuilt (layer L.Leaf.Leaf M.Engine.RegexEngine)
        N.answers ns.items
        (numbered (items_list (items_view items.now.items))) place.now meter.old meter.new) }
    ensures refused { IfErr result (RefusesEach (layer L.Leaf.Leaf M.Engine.RegexEngine)
        (numbered (items_list (items_view items.now.items))) place.now meter.old meter.new) }
{
    let mut nodes = Vec::with_capacity(alloc, items.len())?;
    for (i, schema) in items.iter().enumerate() {
        let location = place_of_item(alloc, place, i)?;
        let node = compile_schema(alloc, makers, meter, location, schema)?;
        append(&mut nodes, node)?;
    }
    Ok(nodes)
}

/// The keyword of this name and value, a member of the object at the context's place, with the
/// neighbours that it takes; none where it is not read, or another keyword takes what it holds.
fn compile_member<'a, L: MakeLeaf, M: MakeRegex, N: BuiltNode<L::Leaf, M::Engine>>(
    alloc: Global,
    ctx: &mut Context<'_, L, M>,
    parent: &'a Map<String, Value>,
    name: &'a str,
    value: &'a Value,
) -> Result<Option<KeywordOver<L::Leaf, M::Engine, N>>, BuildError<'a>>
    ensures built { IsMember (members_view parent.now.entries) (name.now, view value.now)
        → IfOk result (MemberIsBuilt (layer L.Leaf.Leaf M.Engine.RegexEngine)
        (members_view parent.now.entries) (name.now, view value.now) ctx.old.place
        ctx.old.meter.now ctx.new.meter.now N.answers) }
    ensures refused { IsMember (members_view parent.now.entries) (name.now, view value.now)
        → IfErr result (RefusesMember (layer L.Leaf.Leaf M.Engine.RegexEngine)
        (members_view parent.now.entries) (name.now, view value.now) ctx.old.place
        ctx.old.meter.now ctx.new.meter.now) }
    ensures place { ctx.new.place ≡ ctx.old.place }
    ensures same_meter { ctx.new.meter.ghost_name ≡ ctx.old.meter.ghost_name }
{
    let plan = Plan::of(parent);
    if is_taken(plan, name) {
        return Ok(None);
    }
    let neighbours = Neighbours::of(parent);
    let location = ctx.place.join(alloc, name)?;
    let part = compile_part(
        alloc,
        &ctx.makers,
        ctx.meter,
        neighbours,
        location,
        name,
        value,
    )?;
    let taken = compile_taken(
        alloc,
        &ctx.makers,
        ctx.meter,
        &ctx.place,
        parent,
        &part.shape,
    )?;
    let keyword = make_taking(alloc, plan, &ctx.place, part, taken)?;
    Ok(keyword)
}

/// The keyword of this name and value, a member of the object at the context's place, with the
/// neighbours that it takes; none only where it is not read, or another keyword's validator stands
/// for it. Of what is no member of the object nothing is said.
///
/// The meter rises by the cost of the member and of what it takes, or by a part of it where nothing
/// is built; the context's place is left as it was.
///
/// # Errors
///
/// One of the malformations of the member and of what it takes; else out of memory.
pub fn compile_keyword<'a, L: MakeLeaf, M: MakeRegex, N: BuiltNode<L::Leaf, M::Engine>>(
    alloc: Global,
    ctx: &mut Context<'_, L, M>,
    parent: &'a Map<String, Value>,
    name: &'a str,
    value: &'a Value,
) -> Option<Result<KeywordOver<L::Leaf, M::Engine, N>, BuildError<'a>>>
    ensures gives { GivesMember (layer L.Leaf.Leaf M.Engine.RegexEngine)
        (members_view parent.now.entries) (name.now, view value.now) ctx.old.place
        ctx.old.meter.now ctx.new.meter.now N.answers result }
    ensures form { Gives (members_view parent.now.entries) (name.now, view value.now) result
        (HasForm (members_view parent.now.entries) ctx.old.place
        (keyword_named (world L.Leaf.Leaf M.Engine.RegexEngine) name.now)
        name.now (view value.now)) }
    ensures some { IsMember (members_view parent.now.entries) (name.now, view value.now)
        → has_no_validator (members_view parent.now.entries)
        (keyword_named (world L.Leaf.Leaf M.Engine.RegexEngine) name.now) (view value.now)
        ≡ false → is_none result ≡ false }
    ensures place { ctx.new.place ≡ ctx.old.place }
    ensures same_meter { ctx.new.meter.ghost_name ≡ ctx.old.meter.ghost_name }
{
    compile_member(alloc, ctx, parent, name, value).transpose()
}

/// The nodes of the entries of an object, each below the keyword of this name at the context's
/// place, which is left as it was.
///
/// # Errors
///
/// One of these entries' malformations; else out of memory.
pub fn compile_declared<'a, L: MakeLeaf, M: MakeRegex, N: BuiltNode<L::Leaf, M::Engine>>(
    alloc: Global,
    ctx: &mut Context<'_, L, M>,
    name: &str,
    entries: &'a Map<String, Value>,
) -> Result<Vec<N>, BuildError<'a>>
    ensures built { IfOk result (λ ns. AreBuilt (layer L.Leaf.Leaf M.Engine.RegexEngine)
        N.answers ns.items
        (listed (members_view entries.now.entries)) (one_below ctx.old.place name.now)
        ctx.old.meter.now ctx.new.meter.now) }
    ensures refused { IfErr result (RefusesEach (layer L.Leaf.Leaf M.Engine.RegexEngine)
        (listed (members_view entries.now.entries)) (one_below ctx.old.place name.now)
        ctx.old.meter.now ctx.new.meter.now) }
    ensures place { ctx.new.place ≡ ctx.old.place }
    ensures same_meter { ctx.new.meter.ghost_name ≡ ctx.old.meter.ghost_name }
{
    let location = ctx.place.join(alloc, name)?;
    Ok(compile_entries(alloc, &ctx.makers, ctx.meter, &location, false, entries)?)
}

/// The node of a schema at the context's place, with all that it reads inside. It is of any type
/// that is a place, as what is done with it tells.
///
/// The meter rises by the cost of the schema, or by a part of it where nothing is built; the
/// context's place is left as it was.
///
/// # Errors
///
/// A malformed schema is refused, with one of its malformations (JSON Schema 2020-12 Core, 4.3, and
/// the shapes of the keywords). Without memory nothing is said of the schema.
pub fn compile<'a, L: MakeLeaf, M: MakeRegex, N: BuiltNode<L::Leaf, M::Engine>>(
    alloc: Global,
    ctx: &mut Context<'_, L, M>,
    schema: &'a Value,
) -> Result<N, BuildError<'a>>
    ensures stands { IfOk result (λ n. Stands (kit L.Leaf.Leaf M.Engine.RegexEngine) N.answers n
        (view schema.now) ctx.old.place) }
    ensures clean { OnOk result (malformations_at (world L.Leaf.Leaf M.Engine.RegexEngine)
        (view schema.now) ctx.old.place ≡ []) }
    ensures refused { IfErr result (TellsOneOf
        (malformations_at (world L.Leaf.Leaf M.Engine.RegexEngine)
        (view schema.now) ctx.old.place)) }
    ensures costs { OnOk result (Spends ctx.old.meter.now ctx.new.meter.now
        (cost (world L.Leaf.Leaf M.Engine.RegexEngine) (view schema.now))) }
    ensures costs_at_most { OnErr result (SpendsWithin ctx.old.meter.now ctx.new.meter.now
        (cost (world L.Leaf.Leaf M.Engine.RegexEngine) (view schema.now))) }
    ensures place { ctx.new.place ≡ ctx.old.place }
    ensures same_meter { ctx.new.meter.ghost_name ≡ ctx.old.meter.ghost_name }
{
    let location = ctx.place.try_clone(alloc)?;
    Ok(compile_schema(alloc, &ctx.makers, ctx.meter, location, schema)?)
}
