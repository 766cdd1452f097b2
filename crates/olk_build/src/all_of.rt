//! `allOf`: how it is read, compiled and made.
ghost use Rattle.std.specs.Prelude.{◌≡◌, codes, is_none, false, ◌∷◌, []};
ghost use Rattle.serde_json.specs.View.{view, members_view};
ghost use Rattle.olk_reports.specs.Paths.{one_below};
ghost use Rattle.olk_base.specs.Kit.{kit};
ghost use Rattle.olk_tree.specs.Steps.{StepsOf, layer};
ghost use Rattle.olk_build.specs.Forms.{IsAllOf, IsFormOfAllOf};
ghost use Rattle.olk_build.specs.Building.{IsMember};
ghost use Rattle.olk_build.specs.Taking.{GivesMember, Gives};
ghost use Rattle.olk_build.specs.Making.{MakesMember};
ghost use Rattle.olk_build.specs.declared.shape.Shape.TheVariants as shape;

use crate::{Context, compile_keyword};
use olk_base::{Leaf, MakeLeaf, MakeRegex, RegexEngine};
use olk_reports::{BuildError, Location};
use olk_tree::all_of::{AllOf, SingleValueAllOf};
use olk_tree::built_node::BuiltNode;
use olk_tree::node::KeywordOver;
use serde_json::{Map, Value};
use std::alloc::Global;

/// The keyword of `allOf` in the object at the context's place (JSON Schema 2020-12 Core,
/// 10.2.1.1): of one branch the single form, else the other.
///
/// The meter rises by the cost of the keyword, or by a part of it where nothing is built; the
/// context's place is left as it was.
///
/// # Errors
///
/// One of the malformations of the keyword; else out of memory. There always is an answer.
pub fn compile<'a, L: MakeLeaf, M: MakeRegex, N: BuiltNode<L::Leaf, M::Engine>>(
    alloc: Global,
    ctx: &mut Context<'_, L, M>,
    parent: &'a Map<String, Value>,
    schema: &'a Value,
) -> Option<Result<KeywordOver<L::Leaf, M::Engine, N>, BuildError<'a>>>
    ensures gives { GivesMember (layer L.Leaf.Leaf M.Engine.RegexEngine)
        (members_view parent.now.entries) (codes "allOf", view schema.now)
        ctx.old.place ctx.old.meter.now ctx.new.meter.now N.answers result }
    ensures form { Gives (members_view parent.now.entries)
        (codes "allOf", view schema.now) result
        (IsAllOf (one_below ctx.old.place (codes "allOf")) (view schema.now)) }
    ensures always { IsMember (members_view parent.now.entries)
        (codes "allOf", view schema.now)
        → is_none result ≡ false }
    ensures place { ctx.new.place ≡ ctx.old.place }
    ensures same_meter { ctx.new.meter.ghost_name ≡ ctx.old.meter.ghost_name }
{
    compile_keyword(alloc, ctx, parent, "allOf", schema)
}

/// The form for so many branches.
fn form<K, R, N: Drop>(location: Location, mut schemas: Vec<N>) -> KeywordOver<K, R, N>
    ensures { IsFormOfAllOf location schemas.items result }
{
    if schemas.len() == 1
        && let Some(node) = schemas.pop()
    {
        KeywordOver::SingleValueAllOf(SingleValueAllOf { node, location })
    } else {
        KeywordOver::AllOf(AllOf { schemas, location })
    }
}

/// The validator of the branches' nodes.
pub(crate) fn make<K: Leaf, R: RegexEngine, N: BuiltNode<K, R>>(
    location: Location,
    nodes: Vec<N>,
) -> KeywordOver<K, R, N>
    ensures form { IsFormOfAllOf location nodes.items result }
    ensures makes { (I : StepsOf (kit K.Leaf R.RegexEngine))
        → MakesMember I N.answers shape.AllOf location nodes.items (result ∷ []) }
{
    form(location, nodes)
}
