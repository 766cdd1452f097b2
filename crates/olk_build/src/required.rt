//! `required`: how it is read, compiled and made.
ghost use Rattle.std.specs.Prelude.{◌≡◌, ◌||◌, codes, is_some, is_none, true, false, option_to_list};
ghost use Rattle.std.specs.Option.{IfNone, IfSome};
ghost use Rattle.serde_json.specs.View.{members_view, view};
ghost use Rattle.olk_reports.specs.Paths.{one_below};
ghost use Rattle.olk_base.specs.Kit.{kit};
ghost use Rattle.olk_tree.specs.Steps.{StepsOf, layer};
ghost use Rattle.olk_build.specs.Forms.{IsRequired, IsRequiredOver};
ghost use Rattle.olk_meaning.specs.Plans.{plan_of, planned};
ghost use Rattle.olk_build.specs.Building.{IsMember};
ghost use Rattle.olk_build.specs.Taking.{GivesMember, Gives};
ghost use Rattle.olk_spec.specs.Names.{Path};
ghost use Rattle.olk_build.specs.Making.{MakesClaims};
ghost use Rattle.olk_build.specs.declared.shape.Shape.TheVariants as shape;

use crate::{Context, compile_keyword};
use olk_base::{Leaf, MakeLeaf, MakeRegex, RegexEngine};
use olk_meaning::Plan;
use olk_reports::{BuildError, Location};
use olk_tree::built_node::BuiltNode;
use olk_tree::node::KeywordOver;
use olk_tree::required::RequiredValidator;
use serde_json::{Map, Value};
use std::alloc::Global;

/// The keyword of `required` in the object at the context's place (JSON Schema 2020-12 Validation,
/// 6.5.3), and none where `properties` of the parent fuses its two names, or `additionalProperties`
/// its one.
///
/// The meter rises by the cost of the keyword, or by a part of it where nothing is built; the
/// context's place is left as it was.
///
/// # Errors
///
/// One of the malformations of the keyword; else out of memory.
pub fn compile<'a, L: MakeLeaf, M: MakeRegex, N: BuiltNode<L::Leaf, M::Engine>>(
    alloc: Global,
    ctx: &mut Context<'_, L, M>,
    parent: &'a Map<String, Value>,
    schema: &'a Value,
) -> Option<Result<KeywordOver<L::Leaf, M::Engine, N>, BuildError<'a>>>
    ensures gives { GivesMember (layer L.Leaf.Leaf M.Engine.RegexEngine)
        (members_view parent.now.entries) (codes "required", view schema.now)
        ctx.old.place ctx.old.meter.now ctx.new.meter.now N.answers result }
    ensures form { Gives (members_view parent.now.entries)
        (codes "required", view schema.now) result
        (IsRequired (one_below ctx.old.place (codes "required")) (view schema.now)) }
    ensures fused { IsMember (members_view parent.now.entries)
        (codes "required", view schema.now)
        → is_none result
        ≡ (is_some (plan_of (members_view parent.now.entries)).fused_pair
        || is_some (plan_of (members_view parent.now.entries)).fused_one) }
    ensures fused_at_no_cost { IsMember (members_view parent.now.entries)
        (codes "required", view schema.now)
        → IfNone result (ctx.new.meter.now ≡ ctx.old.meter.now) }
    ensures place { ctx.new.place ≡ ctx.old.place }
    ensures same_meter { ctx.new.meter.ghost_name ≡ ctx.old.meter.ghost_name }
{
    let plan = Plan::of(parent);
    if plan.fuses() || plan.fused_one().is_some() {
        return None;
    }
    compile_keyword(alloc, ctx, parent, "required", schema)
}

/// The validator of the names, unless the plan fuses them: two into `properties`, or one into
/// `additionalProperties`.
pub(crate) fn make<K: Leaf, R: RegexEngine, N: BuiltNode<K, R>>(
    plan: Plan<'_>,
    location: Location,
    required: Vec<String>,
    nodes: Vec<N>,
) -> Option<KeywordOver<K, R, N>>
    ensures none { IfNone result ((is_some (planned plan.entry).fused_pair
        || is_some (planned plan.entry).fused_one) ≡ true) }
    ensures form { IfSome result (λ k. ((is_some (planned plan.entry).fused_pair
        || is_some (planned plan.entry).fused_one) ≡ false)
        × IsRequiredOver required location k) }
    ensures makes { (P : Path) → (I : StepsOf (kit K.Leaf R.RegexEngine))
        → MakesClaims I N.answers (shape.Required required)
        location nodes.items P (planned plan.entry) (option_to_list result) }
{
    if plan.fuses() {
        return None;
    }
    if plan.fused_one().is_some() {
        return None;
    }
    Some(KeywordOver::Required(RequiredValidator { required, location }))
}
