//! `not`: how it is read, compiled and made.
ghost use Rattle.std.specs.Prelude.{◌≡◌, codes, is_none, false, [], option_to_list};
ghost use Rattle.serde_json.specs.View.{view, members_view};
ghost use Rattle.olk_reports.specs.Paths.{one_below};
ghost use Rattle.olk_base.specs.Kit.{kit};
ghost use Rattle.olk_tree.specs.Steps.{StepsOf, layer};
ghost use Rattle.olk_build.specs.Forms.{IsNot};
ghost use Rattle.olk_build.specs.Building.{IsMember};
ghost use Rattle.olk_build.specs.Taking.{GivesMember, Gives};
ghost use Rattle.std.specs.Option.{IfSome, IfNone};
ghost use Rattle.olk_build.specs.Making.{MakesMember};
ghost use Rattle.olk_build.specs.declared.shape.Shape.TheVariants as shape;

use crate::{Context, compile_keyword};
use olk_base::{Leaf, MakeLeaf, MakeRegex, RegexEngine};
use olk_reports::{BuildError, Location};
use olk_tree::built_node::BuiltNode;
use olk_tree::node::KeywordOver;
use olk_tree::not::Not;
use serde_json::{Map, Value};
use std::alloc::Global;

/// The keyword of `not` in the object at the context's place (JSON Schema 2020-12 Core, 10.2.1.4).
///
/// The meter rises by the cost of the keyword, or by a part of it where nothing is built; the
/// context's place is left as it was.
///
/// # Errors
///
/// One of the malformations of the keyword; else out of memory. There always is an answer.
pub fn compile<'a, L: MakeLeaf, M: MakeRegex, N: BuiltNode<L::Leaf, M::Engine>>(
    alloc: Global,
    ctx: &mut Context<'_, L, M>,
    parent: &'a Map<String, Value>,
    schema: &'a Value,
) -> Option<Result<KeywordOver<L::Leaf, M::Engine, N>, BuildError<'a>>>
    ensures gives { GivesMember (layer L.Leaf.Leaf M.Engine.RegexEngine)
        (members_view parent.now.entries) (codes "not", view schema.now)
        ctx.old.place ctx.old.meter.now ctx.new.meter.now N.answers result }
    ensures form { Gives (members_view parent.now.entries)
        (codes "not", view schema.now) result
        (IsNot (one_below ctx.old.place (codes "not")) (view schema.now)) }
    ensures always { IsMember (members_view parent.now.entries)
        (codes "not", view schema.now)
        → is_none result ≡ false }
    ensures place { ctx.new.place ≡ ctx.old.place }
    ensures same_meter { ctx.new.meter.ghost_name ≡ ctx.old.meter.ghost_name }
{
    compile_keyword(alloc, ctx, parent, "not", schema)
}

/// The validator of a schema's node, and none where there is no node.
pub(crate) fn make<K: Leaf, R: RegexEngine, N: BuiltNode<K, R>>(
    location: Location,
    original: Value,
    mut nodes: Vec<N>,
) -> Option<KeywordOver<K, R, N>>
    ensures none { IfNone result (nodes.items ≡ []) }
    ensures form { IfSome result (IsNot location (view original)) }
    ensures makes { (I : StepsOf (kit K.Leaf R.RegexEngine))
        → MakesMember I N.answers (shape.Not original) location
        nodes.items (option_to_list result) }
{
    let Some(node) = nodes.pop() else {
        return None;
    };
    Some(KeywordOver::Not(Not {
        original,
        node,
        location,
    }))
}
