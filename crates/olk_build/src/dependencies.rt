//! `dependencies`: how it is read, compiled and made.
ghost use Rattle.std.specs.Prelude.{◌≡◌, ◌++◌, false, true, [], map, string_bytes, IfOk, IfErr, codes, is_none, ◌∷◌};
ghost use Rattle.serde_json.specs.Data.{object};
ghost use Rattle.serde_json.specs.View.{view, items_view, members_view};
ghost use Rattle.olk_spec.specs.Schemas.{listed, members, texts, texts_in, is_object};
ghost use Rattle.olk_spec.specs.Malformed.{unless_object, not_a_text, has_repeat, name_list_refusals};
ghost use Rattle.olk_build.specs.Refusing.{TellsOneOf};
ghost use Rattle.olk_build.specs.Reading.{list_of, names_in, names_in_list, name_list_faults, list_faults};
ghost use Rattle.olk_reports.specs.Paths.{one_below};
ghost use Rattle.olk_base.specs.Kit.{kit};
ghost use Rattle.olk_tree.specs.Steps.{StepsOf, layer};
ghost use Rattle.olk_build.specs.Forms.{IsDependencies, IsDependentRequired, IsDependentSchemas, IsListAt, AreListsAt, AreInOrder};
ghost use Rattle.olk_build.specs.Building.{IsMember};
ghost use Rattle.olk_build.specs.Taking.{GivesMember, Gives};
ghost use Rattle.olk_build.specs.Made.{MakesDependencies};
ghost use Rattle.olk_build.specs.Making.{MakesMember};
ghost use Rattle.olk_build.specs.declared.shape.Shape.TheVariants as shape;

use crate::reading::{items_of_array, members_of_object, texts_of_items};
use crate::refusal::{Stop, refuse};
use crate::{Context, compile_keyword};
use olk_base::{Leaf, MakeLeaf, MakeRegex, RegexEngine, append};
use olk_reports::{BuildError, Location, ValidationErrorKind};
use olk_tree::built_node::BuiltNode;
use olk_tree::dependencies::{Dependencies, DependentRequired, DependentSchemas};
use olk_tree::map::SmallMap;
use olk_tree::names::SortedNames;
use olk_tree::node::{Body, KeywordOver};
use olk_tree::required::RequiredValidator;
use serde_json::{Map, Value};
use std::alloc::{AllocError, Global};
use std::collections::BTreeSet;

/// Whether two items are equal texts.
fn has_repeated_text(alloc: Global, items: &[Value]) -> Result<bool, AllocError>
    ensures { IfOk result (λ b. b ≡ has_repeat (texts_in (items_view items.now))) }
{
    let mut seen = BTreeSet::new(alloc);
    for item in items {
        if let Some(text) = item.as_str() {
            let is_new = seen.insert(text)?;
            if !is_new {
                return Ok(true);
            }
        }
    }
    Ok(false)
}

/// The names that an entry of `dependentRequired` lists.
fn names_of_entry<'a>(
    alloc: Global,
    location: &Location,
    key: &str,
    value: &'a Value,
) -> Result<Vec<String>, Stop<'a>>
    ensures names { IfOk result (λ v. map string_bytes v.items ≡ texts (view value.now)) }
    ensures right { IfOk result (λ v.
        name_list_refusals key.now (view value.now) location.now ≡ []) }
    ensures refused { IfErr result (TellsOneOf
        (name_list_refusals key.now (view value.now) location.now)) }
{
    let place = location.join(alloc, key)?;
    let items = items_of_array(alloc, &place, value)?;
    if has_repeated_text(alloc, items)? {
        return Err(refuse(alloc, ValidationErrorKind::UniqueItems, value, &place));
    }
    texts_of_items(alloc, location, items)
}

/// The names that each entry of `dependentRequired` lists.
fn names_of_entries<'a>(
    alloc: Global,
    location: &Location,
    entries: &'a Map<String, Value>,
) -> Result<Vec<Vec<String>>, Stop<'a>>
    ensures names { IfOk result (λ v. map names_in v.items
        ≡ map (λ e. texts e.1) (listed (members_view entries.now.entries))) }
    ensures right { IfOk result (λ v.
        name_list_faults location.now (listed (members_view entries.now.entries)) ≡ []) }
    ensures refused { IfErr result (TellsOneOf
        (name_list_faults location.now (listed (members_view entries.now.entries)))) }
{
    let mut required = Vec::new(alloc);
    for (key, value) in entries {
        let names = names_of_entry(alloc, location, key.as_str(), value)?;
        append(&mut required, names)?;
    }
    Ok(required)
}

/// The keys of `dependentRequired`, and the names that each entry lists.
pub(crate) fn required_of_object<'a>(
    alloc: Global,
    location: &Location,
    value: &'a Value,
) -> Result<(SortedNames, Vec<Vec<String>>), Stop<'a>>
    ensures object { IfOk result (λ r. is_object (view value.now) ≡ true) }
    ensures keys { IfOk result (λ r. r.0 ≡ map (λ e. e.0) (members (view value.now))) }
    ensures names { IfOk result (λ r. map names_in r.1.items
        ≡ map (λ e. texts e.1) (members (view value.now))) }
    ensures right { IfOk result (λ r.
        name_list_faults location.now (members (view value.now)) ≡ []) }
    ensures refused { IfErr result (TellsOneOf (unless_object (view value.now) location.now
        ++ name_list_faults location.now (members (view value.now)))) }
{
    let entries = members_of_object(alloc, location, value)?;
    let keys = SortedNames::of(alloc, entries)?;
    let required = names_of_entries(alloc, location, entries)?;
    Ok((keys, required))
}

/// The names that an entry of `dependencies` lists; none where it is a schema.
fn list_of_entry<'a>(
    alloc: Global,
    location: &Location,
    value: &'a Value,
) -> Result<Option<Vec<String>>, Stop<'a>>
    ensures list { IfOk result (λ l. names_in_list l ≡ list_of (view value.now)) }
    ensures texts { IfOk result (λ l. not_a_text (view value.now) location.now ≡ []) }
    ensures refused { IfErr result (TellsOneOf (not_a_text (view value.now) location.now)) }
{
    let Value::Array(items) = value else {
        return Ok(None);
    };
    Ok(Some(texts_of_items(alloc, location, items)?))
}

/// The names that each entry of `dependencies` lists.
fn lists_of_entries<'a>(
    alloc: Global,
    location: &Location,
    entries: &'a Map<String, Value>,
) -> Result<Vec<Option<Vec<String>>>, Stop<'a>>
    ensures lists { IfOk result (λ v. map names_in_list v.items
        ≡ map (λ e. list_of e.1) (listed (members_view entries.now.entries))) }
    ensures texts { IfOk result (λ v.
        list_faults location.now (listed (members_view entries.now.entries)) ≡ []) }
    ensures refused { IfErr result (TellsOneOf
        (list_faults location.now (listed (members_view entries.now.entries)))) }
{
    let mut lists = Vec::new(alloc);
    for (_, value) in entries {
        let list = list_of_entry(alloc, location, value)?;
        append(&mut lists, list)?;
    }
    Ok(lists)
}

/// The keys of `dependencies`, and the names that each entry lists.
pub(crate) fn lists_of_object<'a>(
    alloc: Global,
    location: &Location,
    value: &'a Value,
) -> Result<(SortedNames, Vec<Option<Vec<String>>>), Stop<'a>>
    ensures object { IfOk result (λ r. is_object (view value.now) ≡ true) }
    ensures keys { IfOk result (λ r. r.0 ≡ map (λ e. e.0) (members (view value.now))) }
    ensures lists { IfOk result (λ r. map names_in_list r.1.items
        ≡ map (λ e. list_of e.1) (members (view value.now))) }
    ensures texts { IfOk result (λ r. list_faults location.now (members (view value.now)) ≡ []) }
    ensures refused { IfErr result (TellsOneOf (unless_object (view value.now) location.now
        ++ list_faults location.now (members (view value.now)))) }
{
    let entries = members_of_object(alloc, location, value)?;
    let keys = SortedNames::of(alloc, entries)?;
    let lists = lists_of_entries(alloc, location, entries)?;
    Ok((keys, lists))
}

/// The keyword of `dependencies` in the object at the context's place (JSON Schema draft 7
/// Validation, 6.5.7): a key whose value is a list wants its names, any other has a schema.
///
/// The meter rises by the cost of the keyword, or by a part of it where nothing is built; the
/// context's place is left as it was.
///
/// # Errors
///
/// One of the malformations of the keyword; else out of memory. There always is an answer.
pub fn compile<'a, L: MakeLeaf, M: MakeRegex, N: BuiltNode<L::Leaf, M::Engine>>(
    alloc: Global,
    ctx: &mut Context<'_, L, M>,
    parent: &'a Map<String, Value>,
    schema: &'a Value,
) -> Option<Result<KeywordOver<L::Leaf, M::Engine, N>, BuildError<'a>>>
    ensures gives { GivesMember (layer L.Leaf.Leaf M.Engine.RegexEngine)
        (members_view parent.now.entries) (codes "dependencies", view schema.now)
        ctx.old.place ctx.old.meter.now ctx.new.meter.now N.answers result }
    ensures form { Gives (members_view parent.now.entries)
        (codes "dependencies", view schema.now) result
        (IsDependencies (one_below ctx.old.place (codes "dependencies"))
        (map (λ e. e.0) (members (view schema.now)))) }
    ensures always { IsMember (members_view parent.now.entries)
        (codes "dependencies", view schema.now)
        → is_none result ≡ false }
    ensures place { ctx.new.place ≡ ctx.old.place }
    ensures same_meter { ctx.new.meter.ghost_name ≡ ctx.old.meter.ghost_name }
{
    compile_keyword(alloc, ctx, parent, "dependencies", schema)
}

/// The keyword of `dependentRequired` in the object at the context's place (JSON Schema 2020-12
/// Validation, 6.5.4).
///
/// The meter rises by the cost of the keyword, or by a part of it where nothing is built; the
/// context's place is left as it was.
///
/// # Errors
///
/// One of the malformations of the keyword; else out of memory. There always is an answer.
pub fn compile_dependent_required<'a, L: MakeLeaf, M: MakeRegex, N: BuiltNode<L::Leaf, M::Engine>>(
    alloc: Global,
    ctx: &mut Context<'_, L, M>,
    parent: &'a Map<String, Value>,
    schema: &'a Value,
) -> Option<Result<KeywordOver<L::Leaf, M::Engine, N>, BuildError<'a>>>
    ensures gives { GivesMember (layer L.Leaf.Leaf M.Engine.RegexEngine)
        (members_view parent.now.entries) (codes "dependentRequired", view schema.now)
        ctx.old.place ctx.old.meter.now ctx.new.meter.now N.answers result }
    ensures form { Gives (members_view parent.now.entries)
        (codes "dependentRequired", view schema.now) result
        (IsDependentRequired (one_below ctx.old.place (codes "dependentRequired"))
        (map (λ e. e.0) (members (view schema.now)))) }
    ensures always { IsMember (members_view parent.now.entries)
        (codes "dependentRequired", view schema.now)
        → is_none result ≡ false }
    ensures place { ctx.new.place ≡ ctx.old.place }
    ensures same_meter { ctx.new.meter.ghost_name ≡ ctx.old.meter.ghost_name }
{
    compile_keyword(alloc, ctx, parent, "dependentRequired", schema)
}

/// The keyword of `dependentSchemas` in the object at the context's place (JSON Schema 2020-12
/// Core, 10.2.2.4).
///
/// The meter rises by the cost of the keyword, or by a part of it where nothing is built; the
/// context's place is left as it was.
///
/// # Errors
///
/// One of the malformations of the keyword; else out of memory. There always is an answer.
pub fn compile_dependent_schemas<'a, L: MakeLeaf, M: MakeRegex, N: BuiltNode<L::Leaf, M::Engine>>(
    alloc: Global,
    ctx: &mut Context<'_, L, M>,
    parent: &'a Map<String, Value>,
    schema: &'a Value,
) -> Option<Result<KeywordOver<L::Leaf, M::Engine, N>, BuildError<'a>>>
    ensures gives { GivesMember (layer L.Leaf.Leaf M.Engine.RegexEngine)
        (members_view parent.now.entries) (codes "dependentSchemas", view schema.now)
        ctx.old.place ctx.old.meter.now ctx.new.meter.now N.answers result }
    ensures form { Gives (members_view parent.now.entries)
        (codes "dependentSchemas", view schema.now) result
        (IsDependentSchemas (one_below ctx.old.place (codes "dependentSchemas"))
        (map (λ e. e.0) (members (view schema.now)))) }
    ensures always { IsMember (members_view parent.now.entries)
        (codes "dependentSchemas", view schema.now)
        → is_none result ≡ false }
    ensures place { ctx.new.place ≡ ctx.old.place }
    ensures same_meter { ctx.new.meter.ghost_name ≡ ctx.old.meter.ghost_name }
{
    compile_keyword(alloc, ctx, parent, "dependentSchemas", schema)
}

/// The node of a list of names, at the keyword's place.
fn node_of_list<K: Leaf, R: RegexEngine, N: BuiltNode<K, R>>(
    alloc: Global,
    location: &Location,
    required: Vec<String>,
) -> Result<N, AllocError>
    ensures { IfOk result (IsListAt (kit K.Leaf R.RegexEngine) N.answers location.now required) }
{
    let names = RequiredValidator {
        required,
        location: location.try_clone(alloc)?,
    };
    let place = location.try_clone(alloc)?;
    Ok(N::new(alloc, place, Body::RequiredNames(Box::new(alloc, names)?)))
}

/// The nodes of lists of names.
fn nodes_of_lists<K: Leaf, R: RegexEngine, N: BuiltNode<K, R>>(
    alloc: Global,
    location: &Location,
    lists: Vec<Vec<String>>,
) -> Result<Vec<N>, AllocError>
    ensures { IfOk result (λ nodes. AreListsAt (kit K.Leaf R.RegexEngine) N.answers
        location.now lists.items nodes.items) }
{
    let mut nodes = Vec::new(alloc);
    for list in lists {
        let node = node_of_list(alloc, location, list)?;
        append(&mut nodes, node)?;
    }
    Ok(nodes)
}

/// The nodes of entries, in their order: of a list of names its own, and else the next of the
/// schemas' nodes.
fn nodes_in_order<K: Leaf, R: RegexEngine, N: BuiltNode<K, R>>(
    alloc: Global,
    location: &Location,
    lists: Vec<Option<Vec<String>>>,
    schemas: Vec<N>,
) -> Result<Vec<N>, AllocError>
    ensures { IfOk result (λ nodes. AreInOrder (kit K.Leaf R.RegexEngine) N.answers
        location.now lists.items
        schemas.items nodes.items) }
{
    let mut schemas = schemas.into_iter();
    let mut nodes = Vec::new(alloc);
    for list in lists {
        match list {
            Some(names) => append(&mut nodes, node_of_list(alloc, location, names)?)?,
            None => {
                if let Some(node) = schemas.next() {
                    append(&mut nodes, node)?;
                }
            }
        }
    }
    Ok(nodes)
}

/// The validator of `dependentRequired` with these keys, and the names that each lists.
///
/// # Errors
///
/// Out of memory.
pub(crate) fn make_required<K: Leaf, R: RegexEngine, N: BuiltNode<K, R>>(
    alloc: Global,
    location: Location,
    keys: SortedNames,
    lists: Vec<Vec<String>>,
) -> Result<KeywordOver<K, R, N>, AllocError>
    ensures form { IfOk result (λ r. (I : StepsOf (kit K.Leaf R.RegexEngine))
        → MakesDependencies I N.answers
        (shape.DependentRequired keys lists) location [] IsDependentRequired r) }
    ensures makes { IfOk result (λ k. (I : StepsOf (kit K.Leaf R.RegexEngine))
        → MakesMember I N.answers
        (shape.DependentRequired keys lists) location [] (k ∷ [])) }
{
    let nodes = nodes_of_lists(alloc, &location, lists)?;
    Ok(KeywordOver::DependentRequired(DependentRequired {
        dependencies: SmallMap { names: keys, nodes },
        location,
    }))
}

/// The validator of `dependentSchemas` with these keys, and the node of each.
pub(crate) fn make_schemas<K: Leaf, R: RegexEngine, N: BuiltNode<K, R>>(
    location: Location,
    keys: SortedNames,
    nodes: Vec<N>,
) -> KeywordOver<K, R, N>
    ensures form { (I : StepsOf (kit K.Leaf R.RegexEngine))
        → MakesDependencies I N.answers
        (shape.DependentSchemas keys) location nodes.items IsDependentSchemas result }
    ensures makes { (I : StepsOf (kit K.Leaf R.RegexEngine))
        → MakesMember I N.answers
        (shape.DependentSchemas keys) location nodes.items (result ∷ []) }
{
    KeywordOver::DependentSchemas(DependentSchemas {
        dependencies: SmallMap { names: keys, nodes },
        location,
    })
}

/// The validator of `dependencies` with these keys, the names that each lists, and the nodes of
/// those that list none.
///
/// # Errors
///
/// Out of memory.
pub(crate) fn make<K: Leaf, R: RegexEngine, N: BuiltNode<K, R>>(
    alloc: Global,
    location: Location,
    keys: SortedNames,
    lists: Vec<Option<Vec<String>>>,
    schemas: Vec<N>,
) -> Result<KeywordOver<K, R, N>, AllocError>
    ensures form { IfOk result (λ r. (I : StepsOf (kit K.Leaf R.RegexEngine))
        → MakesDependencies I N.answers
        (shape.Dependencies keys lists) location schemas.items IsDependencies r) }
    ensures makes { IfOk result (λ k. (I : StepsOf (kit K.Leaf R.RegexEngine))
        → MakesMember I N.answers
        (shape.Dependencies keys lists) location schemas.items (k ∷ [])) }
{
    let nodes = nodes_in_order(alloc, &location, lists, schemas)?;
    Ok(KeywordOver::Dependencies(Dependencies {
        dependencies: SmallMap { names: keys, nodes },
        location,
    }))
}
