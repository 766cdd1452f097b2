//! Building the places of a document's schema, place by place.
ghost use Rattle.std.specs.Prelude.{◌≡◌, [], false, true, IfOk, IfErr, OnOk, ◌++◌, option_to_list, map, decimal};
ghost use Rattle.serde_json.specs.View.{view, members_view, items_view};
ghost use Rattle.olk_spec.specs.Schemas.{listed, numbered};
ghost use Rattle.olk_spec.specs.Malformed.{items_list};
ghost use Rattle.olk_reports.specs.Paths.{one_below};
ghost use Rattle.olk_base.specs.Kit.{kit};
ghost use Rattle.olk_meaning.specs.Conditions.{known};
ghost use Rattle.olk_document_spec.specs.Keywords.{is_other};
ghost use Rattle.olk_document_meaning.specs.Layers.{layer_members};
ghost use Rattle.olk_build.specs.Building.{IsBuilt, AreBuilt, InnerAreBuilt, is_read, entries_read, RefusesSchema, RefusesEach, RefusesInner, RefusesPart, IsPart, PlacesAreBuilt, RefusesPlaces};
ghost use Rattle.olk_build.specs.Taking.{takes_of, IsNeighbour, RefusesNeighbour, IsTaken, RefusesTaken};
ghost use Rattle.olk_document_build.specs.Targets.{ByTargets, answers_by};
ghost use Rattle.olk_document_build.specs.Building.{ObjectIsBuilt, RefusesObject, OwnIsBuilt, RefusesOwn};

use crate::own::{OwnShape, read_own};
use crate::reading::is_read;
use crate::targets::Targets;
use olk_base::{MakeLeaf, MakeRegex, Meter, append, one};
use olk_build::part::{Part, TakenNeighbours};
use olk_build::reading::read_keyword;
use olk_build::refusal::{Stop, refuse};
use olk_build::shape::{ReadPlaces, Shape};
use olk_build::taking::{
    append_alone, append_taking, is_taken, take, take_nothing, takes, takes_any,
};
use olk_build::{Context, Makers};
use olk_documents::{Contains, DocumentKeyword, DocumentNode, Items, PrefixItems, Reference};
use olk_meaning::{Neighbours, Plan};
use olk_reports::{BuildError, Location, ValidationErrorKind};
use olk_tree::built_node::BuiltNode;
use olk_tree::node::Body;
use serde_json::{Map, Value};
use std::alloc::{AllocError, Global};

/// The place of an item of an array.
fn place_of_item(alloc: Global, place: &Location, index: usize) -> Result<Location, AllocError>
    ensures { IfOk result (λ l. l ≡ one_below place.now (decimal index)) }
{
    let segment = format!(in alloc; "{index}")?;
    place.join(alloc, segment.as_str())
}

/// Appends the keyword, if there is one.
fn append_own<N: Drop>(
    more: &mut Vec<DocumentKeyword<N>>,
    own: Option<DocumentKeyword<N>>,
) -> Result<(), AllocError>
    ensures { OnOk result (more.new.items ≡ more.old.items ++ option_to_list own) }
{
    match own {
        Some(keyword) => append(more, keyword),
        None => Ok(()),
    }
}

/// The node of a schema, which takes its place over.
#[cycle(documents)]
fn compile_place<'a, L: MakeLeaf, M: MakeRegex>(
    alloc: Global,
    makers: &Makers<'_, L, M>,
    targets: &Targets<L::Leaf, M::Engine>,
    meter: &mut Meter,
    location: Location,
    schema: &'a Value,
) -> Result<DocumentNode<L::Leaf, M::Engine>, Stop<'a>>
    ensures built { IfOk result (λ n. ByTargets L.Leaf.Leaf M.Engine.RegexEngine targets.now
        (λ I. IsBuilt I (answers_by I) n (view schema.now) location meter.old meter.new)) }
    ensures refused { IfErr result (λ e. ByTargets L.Leaf.Leaf M.Engine.RegexEngine targets.now
        (λ I. RefusesSchema I (view schema.now) location meter.old meter.new e)) }
{
    meter.tick_compiled();
    match schema {
        Value::Bool(true) => Ok(DocumentNode::new(alloc, location, Body::True)),
        Value::Bool(false) => Ok(DocumentNode::new(alloc, location, Body::False)),
        Value::Object(members) => compile_object(alloc, makers, targets, meter, location, members),
        Value::Null | Value::Number(_) | Value::String(_) | Value::Array(_) => {
            Err(refuse(alloc, ValidationErrorKind::MultipleTypes, schema, &location))
        }
    }
}

/// The node of a schema object, which takes its place over: the keywords of the layer, and then the
/// document's own, both in the order of their names.
#[cycle(documents)]
fn compile_object<'a, L: MakeLeaf, M: MakeRegex>(
    alloc: Global,
    makers: &Makers<'_, L, M>,
    targets: &Targets<L::Leaf, M::Engine>,
    meter: &mut Meter,
    location: Location,
    members: &'a Map<String, Value>,
) -> Result<DocumentNode<L::Leaf, M::Engine>, Stop<'a>>
    ensures built { IfOk result (λ n. ByTargets L.Leaf.Leaf M.Engine.RegexEngine targets.now
        (λ I. ObjectIsBuilt I (answers_by I) n (members_view members.now.entries) location
        meter.old meter.new)) }
    ensures refused { IfErr result (λ e. ByTargets L.Leaf.Leaf M.Engine.RegexEngine targets.now
        (λ I. RefusesObject I (members_view members.now.entries) location meter.old meter.new e)) }
{
    let plan = Plan::of(members);
    let neighbours = Neighbours::of(members);
    let mut keywords = Vec::with_capacity(alloc, members.len())?;
    let mut more = Vec::new(alloc);
    for (name, value) in members {
        let name = name.as_str();
        let place = location.join(alloc, name)?;
        match read_own(alloc, targets, members, &place, name, value)? {
            Some(shape) => {
                let own = compile_own(alloc, makers, targets, meter, place, shape, value)?;
                append_own(&mut more, own)?;
            }
            None => {
                if !is_taken(plan, name) {
                    let part = compile_part(
                        alloc, makers, targets, meter, neighbours, place, name, value,
                    )?;
                    if takes_any(&part.shape) {
                        let taken = compile_taken(
                            alloc,
                            makers,
                            targets,
                            meter,
                            &location,
                            members,
                            &part.shape,
                        )?;
                        append_taking(alloc, plan, &location, part, taken, &mut keywords)?;
                    } else {
                        append_alone(alloc, plan, &location, part, &mut keywords)?;
                    }
                }
            }
        }
    }
    let body = Body::Keywords(keywords);
    Ok(DocumentNode {
        location,
        body,
        more,
    })
}

/// The keyword of the document of this shape, over the nodes in its value; none for a bound.
#[cycle(documents)]
fn compile_own<'a, L: MakeLeaf, M: MakeRegex>(
    alloc: Global,
    makers: &Makers<'_, L, M>,
    targets: &Targets<L::Leaf, M::Engine>,
    meter: &mut Meter,
    location: Location,
    shape: OwnShape<L::Leaf, M::Engine>,
    value: &'a Value,
) -> Result<Option<DocumentKeyword<DocumentNode<L::Leaf, M::Engine>>>, Stop<'a>>
    ensures built { IfOk result (λ t. OwnIsBuilt (kit L.Leaf.Leaf M.Engine.RegexEngine)
        targets.now shape (view value.now) location meter.old meter.new t) }
    ensures refused { IfErr result (λ e. RefusesOwn (kit L.Leaf.Leaf M.Engine.RegexEngine)
        targets.now shape (view value.now) location meter.old meter.new e) }
{
    match shape {
        OwnShape::PrefixItems => {
            let reads = ReadPlaces::Branches;
            let schemas = compile_places(alloc, makers, targets, meter, &location, reads, value)?;
            Ok(Some(DocumentKeyword::PrefixItems(PrefixItems { schemas, location })))
        }
        OwnShape::Items(skip) => {
            let place = location.try_clone(alloc)?;
            let node = compile_place(alloc, makers, targets, meter, place, value)?;
            Ok(Some(DocumentKeyword::Items(Items {
                node,
                skip,
                location,
            })))
        }
        OwnShape::Contains(bounds) => {
            let place = location.try_clone(alloc)?;
            let node = compile_place(alloc, makers, targets, meter, place, value)?;
            Ok(Some(DocumentKeyword::Contains(Contains {
                node,
                bounds,
                location,
            })))
        }
        OwnShape::Reference(target) => {
            Ok(Some(DocumentKeyword::Reference(Reference { target, location })))
        }
        OwnShape::Bound => Ok(None),
    }
}

/// What the keyword of a part of this shape takes of two neighbours, as far as they are there.
/// Where it takes patterns, each is asked once of each name that is declared beside them.
#[cycle(documents)]
fn compile_taken<'a, L: MakeLeaf, M: MakeRegex>(
    alloc: Global,
    makers: &Makers<'_, L, M>,
    targets: &Targets<L::Leaf, M::Engine>,
    meter: &mut Meter,
    place: &Location,
    members: &'a Map<String, Value>,
    shape: &Shape<L::Leaf, M::Engine>,
) -> Result<TakenNeighbours<M::Engine, DocumentNode<L::Leaf, M::Engine>>, Stop<'a>>
    ensures built { IfOk result (λ t. ByTargets L.Leaf.Leaf M.Engine.RegexEngine targets.now
        (λ I. IsTaken I (answers_by I) (layer_members (members_view members.now.entries))
        shape.now place.now meter.old meter.new t)) }
    ensures refused { IfErr result (λ e. ByTargets L.Leaf.Leaf M.Engine.RegexEngine targets.now
        (λ I. RefusesTaken I (layer_members (members_view members.now.entries))
        (takes_of shape.now) place.now meter.old meter.new e)) }
{
    match takes(shape) {
        Some((first, second)) => {
            let first = compile_neighbour(alloc, makers, targets, meter, place, members, first)?;
            let second = compile_neighbour(alloc, makers, targets, meter, place, members, second)?;
            let neighbours = Neighbours::of(members);
            Ok(take(alloc, meter, neighbours, shape, first, second)?)
        }
        None => Ok(take_nothing()),
    }
}

/// The part of the member of this name, if there is one.
#[cycle(documents)]
fn compile_neighbour<'a, L: MakeLeaf, M: MakeRegex>(
    alloc: Global,
    makers: &Makers<'_, L, M>,
    targets: &Targets<L::Leaf, M::Engine>,
    meter: &mut Meter,
    place: &Location,
    members: &'a Map<String, Value>,
    name: &'static str,
) -> Result<Option<Part<L::Leaf, M::Engine, DocumentNode<L::Leaf, M::Engine>>>, Stop<'a>>
    requires of_the_layer { is_other name.now ≡ true }
    ensures built { IfOk result (λ p. ByTargets L.Leaf.Leaf M.Engine.RegexEngine targets.now
        (λ I. IsNeighbour I (answers_by I)
        (layer_members (members_view members.now.entries)) p name.now place.now
        meter.old meter.new)) }
    ensures refused { IfErr result (λ e. ByTargets L.Leaf.Leaf M.Engine.RegexEngine targets.now
        (λ I. RefusesNeighbour I (layer_members (members_view members.now.entries)) name.now
        place.now meter.old meter.new e)) }
{
    let neighbours = Neighbours::of(members);
    match members.get(name) {
        Some(value) => {
            let location = place.join(alloc, name)?;
            let part = compile_part(
                alloc, makers, targets, meter, neighbours, location, name, value,
            )?;
            Ok(Some(part))
        }
        None => Ok(None),
    }
}

/// The part of a member of a schema object, by what it has to know of its neighbours.
#[cycle(documents)]
fn compile_part<'a, L: MakeLeaf, M: MakeRegex>(
    alloc: Global,
    makers: &Makers<'_, L, M>,
    targets: &Targets<L::Leaf, M::Engine>,
    meter: &mut Meter,
    neighbours: Neighbours<'_>,
    location: Location,
    name: &'a str,
    value: &'a Value,
) -> Result<Part<L::Leaf, M::Engine, DocumentNode<L::Leaf, M::Engine>>, Stop<'a>>
    ensures built { IfOk result (λ p. ByTargets L.Leaf.Leaf M.Engine.RegexEngine targets.now
        (λ I. IsPart I (answers_by I) p (known neighbours.entry)
        name.now (view value.now) location meter.old meter.new)) }
    ensures refused { IfErr result (λ e. ByTargets L.Leaf.Leaf M.Engine.RegexEngine targets.now
        (λ I. RefusesPart I (known neighbours.entry)
        name.now (view value.now) location meter.old meter.new e)) }
{
    let shape = read_keyword(alloc, makers, meter, neighbours, &location, name, value)?;
    let nodes = compile_places(
        alloc,
        makers,
        targets,
        meter,
        &location,
        shape.reads(),
        value,
    )?;
    Ok(Part {
        location,
        shape,
        nodes,
    })
}

/// The nodes of the places that are read in a value.
#[cycle(documents)]
fn compile_places<'a, L: MakeLeaf, M: MakeRegex>(
    alloc: Global,
    makers: &Makers<'_, L, M>,
    targets: &Targets<L::Leaf, M::Engine>,
    meter: &mut Meter,
    location: &Location,
    reads: ReadPlaces,
    value: &'a Value,
) -> Result<Vec<DocumentNode<L::Leaf, M::Engine>>, Stop<'a>>
    ensures built { IfOk result (λ ns. ByTargets L.Leaf.Leaf M.Engine.RegexEngine targets.now
        (λ I. PlacesAreBuilt I (answers_by I) reads ns.items (view value.now)
        location.now meter.old meter.new)) }
    ensures refused { IfErr result (λ e. ByTargets L.Leaf.Leaf M.Engine.RegexEngine targets.now
        (λ I. RefusesPlaces I reads (view value.now) location.now meter.old meter.new e)) }
{
    match reads {
        ReadPlaces::Nothing => Ok(Vec::new(alloc)),
        ReadPlaces::Itself => {
            let place = location.try_clone(alloc)?;
            let node = compile_place(alloc, makers, targets, meter, place, value)?;
            Ok(one(alloc, node)?)
        }
        ReadPlaces::Entries => {
            let Value::Object(map) = value else {
                return Ok(Vec::new(alloc));
            };
            compile_entries(alloc, makers, targets, meter, location, false, map)
        }
        ReadPlaces::SchemaEntries => {
            let Value::Object(map) = value else {
                return Ok(Vec::new(alloc));
            };
            compile_entries(alloc, makers, targets, meter, location, true, map)
        }
        ReadPlaces::InnerEntries => {
            let Value::Object(map) = value else {
                return Ok(Vec::new(alloc));
            };
            compile_inner_entries(alloc, makers, targets, meter, location, map)
        }
        ReadPlaces::Branches => {
            let Value::Array(items) = value else {
                return Ok(Vec::new(alloc));
            };
            compile_branches(alloc, makers, targets, meter, location, items)
        }
    }
}

/// The nodes of the entries of an object that are read, each below the place under its name.
#[cycle(documents)]
fn compile_entries<'a, L: MakeLeaf, M: MakeRegex>(
    alloc: Global,
    makers: &Makers<'_, L, M>,
    targets: &Targets<L::Leaf, M::Engine>,
    meter: &mut Meter,
    place: &Location,
    passes_arrays: bool,
    map: &'a Map<String, Value>,
) -> Result<Vec<DocumentNode<L::Leaf, M::Engine>>, Stop<'a>>
    ensures built { IfOk result (λ ns. ByTargets L.Leaf.Leaf M.Engine.RegexEngine targets.now
        (λ I. AreBuilt I (answers_by I) ns.items
        (entries_read passes_arrays (listed (members_view map.now.entries)))
        place.now meter.old meter.new)) }
    ensures refused { IfErr result (λ e. ByTargets L.Leaf.Leaf M.Engine.RegexEngine targets.now
        (λ I. RefusesEach I (entries_read passes_arrays (listed (members_view map.now.entries)))
        place.now meter.old meter.new e)) }
{
    let mut nodes = Vec::with_capacity(alloc, map.len())?;
    for (name, schema) in map {
        if is_read(passes_arrays, schema) {
            let location = place.join(alloc, name.as_str())?;
            let node = compile_place(alloc, makers, targets, meter, location, schema)?;
            append(&mut nodes, node)?;
        }
    }
    Ok(nodes)
}

/// The nodes of the entries of each entry of an object, below the place under both names.
#[cycle(documents)]
fn compile_inner_entries<'a, L: MakeLeaf, M: MakeRegex>(
    alloc: Global,
    makers: &Makers<'_, L, M>,
    targets: &Targets<L::Leaf, M::Engine>,
    meter: &mut Meter,
    place: &Location,
    map: &'a Map<String, Value>,
) -> Result<Vec<DocumentNode<L::Leaf, M::Engine>>, Stop<'a>>
    ensures built { IfOk result (λ ns. ByTargets L.Leaf.Leaf M.Engine.RegexEngine targets.now
        (λ I. InnerAreBuilt I (answers_by I) ns.items (listed (members_view map.now.entries))
        place.now meter.old meter.new)) }
    ensures refused { IfErr result (λ e. ByTargets L.Leaf.Leaf M.Engine.RegexEngine targets.now
        (λ I. RefusesInner I (listed (members_view map.now.entries))
        place.now meter.old meter.new e)) }
{
    let mut nodes = Vec::new(alloc);
    for (name, entry) in map {
        let location = place.join(alloc, name.as_str())?;
        let reads = ReadPlaces::Entries;
        let mut inner = compile_places(alloc, makers, targets, meter, &location, reads, entry)?;
        nodes.append(&mut inner)?;
    }
    Ok(nodes)
}

/// The nodes of the branches of an array, each below the place under its position.
#[cycle(documents)]
fn compile_branches<'a, L: MakeLeaf, M: MakeRegex>(
    alloc: Global,
    makers: &Makers<'_, L, M>,
    targets: &Targets<L::Leaf, M::Engine>,
    meter: &mut Meter,
    place: &Location,
    items: &'a Vec<Value>,
) -> Result<Vec<DocumentNode<L::Leaf, M::Engine>>, Stop<'a>>
    ensures built { IfOk result (λ ns. ByTargets L.Leaf.Leaf M.Engine.RegexEngine targets.now
        (λ I. AreBuilt I (answers_by I) ns.items
        (numbered (items_list (items_view items.now.items)))
        place.now meter.old meter.new)) }
    ensures refused { IfErr result (λ e. ByTargets L.Leaf.Leaf M.Engine.RegexEngine targets.now
        (λ I. RefusesEach I (numbered (items_list (items_view items.now.items)))
        place.now meter.old meter.new e)) }
{
    let mut nodes = Vec::with_capacity(alloc, items.len())?;
    for (i, schema) in items.iter().enumerate() {
        let location = place_of_item(alloc, place, i)?;
        let node = compile_place(alloc, makers, targets, meter, location, schema)?;
        append(&mut nodes, node)?;
    }
    Ok(nodes)
}

/// The node of a place of a document, where references name these targets.
///
/// # Errors
///
/// The schema is refused with one of its malformations, or there was no memory. A reference without
/// a target is refused by its name.
pub fn compile_under<'a, L: MakeLeaf, M: MakeRegex>(
    alloc: Global,
    ctx: &mut Context<'_, L, M>,
    targets: &Targets<L::Leaf, M::Engine>,
    schema: &'a Value,
) -> Result<DocumentNode<L::Leaf, M::Engine>, BuildError<'a>>
    ensures built { IfOk result (λ n. ByTargets L.Leaf.Leaf M.Engine.RegexEngine targets.now
        (λ I. IsBuilt I (answers_by I) n (view schema.now) ctx.old.place
        ctx.old.meter.now ctx.new.meter.now)) }
    ensures refused { IfErr result (λ e. ByTargets L.Leaf.Leaf M.Engine.RegexEngine targets.now
        (λ I. RefusesSchema I (view schema.now) ctx.old.place
        ctx.old.meter.now ctx.new.meter.now e)) }
    ensures place { ctx.new.place ≡ ctx.old.place }
    ensures same_meter { ctx.new.meter.ghost_name ≡ ctx.old.meter.ghost_name }
{
    let location = ctx.place.try_clone(alloc)?;
    compile_at(alloc, ctx, targets, location, schema)
}

/// The node of a schema, which takes its place over, where references name these targets.
pub(crate) fn compile_at<'a, L: MakeLeaf, M: MakeRegex>(
    alloc: Global,
    ctx: &mut Context<'_, L, M>,
    targets: &Targets<L::Leaf, M::Engine>,
    location: Location,
    schema: &'a Value,
) -> Result<DocumentNode<L::Leaf, M::Engine>, BuildError<'a>>
    ensures built { IfOk result (λ n. ByTargets L.Leaf.Leaf M.Engine.RegexEngine targets.now
        (λ I. IsBuilt I (answers_by I) n (view schema.now) location
        ctx.old.meter.now ctx.new.meter.now)) }
    ensures refused { IfErr result (λ e. ByTargets L.Leaf.Leaf M.Engine.RegexEngine targets.now
        (λ I. RefusesSchema I (view schema.now) location
        ctx.old.meter.now ctx.new.meter.now e)) }
    ensures place { ctx.new.place ≡ ctx.old.place }
    ensures same_meter { ctx.new.meter.ghost_name ≡ ctx.old.meter.ghost_name }
{
    Ok(compile_place(alloc, &ctx.makers, targets, ctx.meter, location, schema)?)
}
