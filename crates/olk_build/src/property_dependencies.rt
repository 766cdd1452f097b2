//! `propertyDependencies`: how it is read, compiled and made.
ghost use Rattle.std.specs.Prelude.{◌≡◌, ◌++◌, true, [], map, IfOk, IfErr, codes, is_none, false, ◌+◌, ◌∷◌, length, min};
ghost use Rattle.serde_json.specs.Data.{object};
ghost use Rattle.serde_json.specs.View.{view, members_view};
ghost use Rattle.olk_spec.specs.Schemas.{listed, members, texts, is_object};
ghost use Rattle.olk_spec.specs.Malformed.{unless_object};
ghost use Rattle.olk_build.specs.Refusing.{TellsOneOf};
ghost use Rattle.olk_build.specs.Reading.{names_of, no_object_faults};
ghost use Rattle.olk_reports.specs.Paths.{one_below};
ghost use Rattle.olk_base.specs.Kit.{kit};
ghost use Rattle.olk_tree.specs.Steps.{StepsOf, layer};
ghost use Rattle.olk_build.specs.Forms.{IsPropertyDependencies, AreCut};
ghost use Rattle.olk_build.specs.Building.{IsMember};
ghost use Rattle.olk_build.specs.Taking.{GivesMember, Gives};
ghost use Rattle.std.specs.Vec.Iter.{into_iter_items, into_iter_len};
ghost use Rattle.olk_build.specs.Made.{MakesPropertyDependencies};
ghost use Rattle.olk_build.specs.Making.{MakesMember};
ghost use Rattle.olk_build.specs.declared.shape.Shape.TheVariants as shape;

use crate::reading::{members_of_object, names_of_object};
use crate::refusal::Stop;
use crate::{Context, compile_keyword};
use olk_base::{Leaf, MakeLeaf, MakeRegex, RegexEngine, append};
use olk_reports::{BuildError, Location};
use olk_tree::built_node::BuiltNode;
use olk_tree::map::SmallMap;
use olk_tree::names::SortedNames;
use olk_tree::node::KeywordOver;
use olk_tree::property_dependencies::PropertyDependencies;
use serde_json::{Map, Value};
use std::alloc::{AllocError, Global};
use std::vec::IntoIter;

/// The texts of each entry of `propertyDependencies`.
fn texts_of_entries<'a>(
    alloc: Global,
    location: &Location,
    entries: &'a Map<String, Value>,
) -> Result<Vec<SortedNames>, Stop<'a>>
    ensures names { IfOk result (λ v. v.items
        ≡ map (λ e. names_of e.1) (listed (members_view entries.now.entries))) }
    ensures objects { IfOk result (λ v.
        no_object_faults location.now (listed (members_view entries.now.entries)) ≡ []) }
    ensures refused { IfErr result (TellsOneOf
        (no_object_faults location.now (listed (members_view entries.now.entries)))) }
{
    let mut texts = Vec::new(alloc);
    for (key, value) in entries {
        let place = location.join(alloc, key.as_str())?;
        let names = names_of_object(alloc, &place, value)?;
        append(&mut texts, names)?;
    }
    Ok(texts)
}

/// The keys of `propertyDependencies`, and the texts of each entry.
pub(crate) fn choices_of_object<'a>(
    alloc: Global,
    location: &Location,
    value: &'a Value,
) -> Result<(SortedNames, Vec<SortedNames>), Stop<'a>>
    ensures object { IfOk result (λ r. is_object (view value.now) ≡ true) }
    ensures keys { IfOk result (λ r. r.0 ≡ map (λ e. e.0) (members (view value.now))) }
    ensures texts { IfOk result (λ r. r.1.items
        ≡ map (λ e. names_of e.1) (members (view value.now))) }
    ensures objects { IfOk result (λ r.
        no_object_faults location.now (members (view value.now)) ≡ []) }
    ensures refused { IfErr result (TellsOneOf (unless_object (view value.now) location.now
        ++ no_object_faults location.now (members (view value.now)))) }
{
    let entries = members_of_object(alloc, location, value)?;
    let keys = SortedNames::of(alloc, entries)?;
    let texts = texts_of_entries(alloc, location, entries)?;
    Ok((keys, texts))
}

/// The keyword of `propertyDependencies` in the object at the context's place (a proposal for JSON
/// Schema, which is not part of a standard): for each key a map from the texts of its entry to
/// their schemas.
///
/// The meter rises by the cost of the keyword, or by a part of it where nothing is built; the
/// context's place is left as it was.
///
/// # Errors
///
/// One of the malformations of the keyword; else out of memory. There always is an answer.
pub fn compile<'a, L: MakeLeaf, M: MakeRegex, N: BuiltNode<L::Leaf, M::Engine>>(
    alloc: Global,
    ctx: &mut Context<'_, L, M>,
    parent: &'a Map<String, Value>,
    schema: &'a Value,
) -> Option<Result<KeywordOver<L::Leaf, M::Engine, N>, BuildError<'a>>>
    ensures gives { GivesMember (layer L.Leaf.Leaf M.Engine.RegexEngine)
        (members_view parent.now.entries) (codes "propertyDependencies", view schema.now)
        ctx.old.place ctx.old.meter.now ctx.new.meter.now N.answers result }
    ensures form { Gives (members_view parent.now.entries)
        (codes "propertyDependencies", view schema.now) result
        (IsPropertyDependencies (one_below ctx.old.place (codes "propertyDependencies"))
        (map (λ e. e.0) (members (view schema.now)))
        (map (λ e. map (λ c. c.0) (members e.1)) (members (view schema.now)))) }
    ensures always { IsMember (members_view parent.now.entries)
        (codes "propertyDependencies", view schema.now)
        → is_none result ≡ false }
    ensures place { ctx.new.place ≡ ctx.old.place }
    ensures same_meter { ctx.new.meter.ghost_name ≡ ctx.old.meter.ghost_name }
{
    compile_keyword(alloc, ctx, parent, "propertyDependencies", schema)
}

/// The next nodes, so many, or all where there are no more.
fn take_next<N: Drop>(
    alloc: Global,
    nodes: &mut IntoIter<N>,
    count: usize,
) -> Result<Vec<N>, AllocError>
    ensures items { IfOk result (λ taken. into_iter_items nodes.old
        ≡ taken.items ++ into_iter_items nodes.new) }
    ensures count { IfOk result (λ taken. length taken.items
        ≡ min count (into_iter_len nodes.old)) }
    ensures left { IfOk result (λ taken. length taken.items + into_iter_len nodes.new
        ≡ into_iter_len nodes.old) }
{
    let mut taken = Vec::new(alloc);
    for _ in 0..count {
        let Some(node) = nodes.next() else {
            return Ok(taken);
        };
        append(&mut taken, node)?;
    }
    Ok(taken)
}

/// The nodes, cut into a map for each of these lists of names.
fn cut<N: Drop>(
    alloc: Global,
    texts: Vec<SortedNames>,
    nodes: Vec<N>,
) -> Result<Vec<SmallMap<N>>, AllocError>
    ensures { IfOk result (λ maps. AreCut texts.items nodes.items maps.items) }
{
    let mut nodes = nodes.into_iter();
    let mut maps = Vec::new(alloc);
    for names in texts {
        let nodes = take_next(alloc, &mut nodes, names.len())?;
        append(&mut maps, SmallMap { names, nodes })?;
    }
    Ok(maps)
}

/// The validator of these keys, the texts of each, and the nodes at the texts, key by key.
///
/// # Errors
///
/// Out of memory.
pub(crate) fn make<K: Leaf, R: RegexEngine, N: BuiltNode<K, R>>(
    alloc: Global,
    location: Location,
    keys: SortedNames,
    texts: Vec<SortedNames>,
    nodes: Vec<N>,
) -> Result<KeywordOver<K, R, N>, AllocError>
    ensures form { IfOk result (λ r. (I : StepsOf (kit K.Leaf R.RegexEngine))
        → MakesPropertyDependencies I N.answers
        (shape.PropertyDependencies keys texts) location nodes.items r) }
    ensures makes { IfOk result (λ k. (I : StepsOf (kit K.Leaf R.RegexEngine))
        → MakesMember I N.answers
        (shape.PropertyDependencies keys texts) location nodes.items (k ∷ [])) }
{
    let maps = cut(alloc, texts, nodes)?;
    Ok(KeywordOver::PropertyDependencies(PropertyDependencies {
        dependencies: SmallMap {
            names: keys,
            nodes: maps,
        },
        location,
    }))
}
