//! `properties`: what it shows.
ghost use Rattle.std.specs.Prelude.{◌≡◌, ◌∷◌, [], OnOk};
ghost use Rattle.serde_json.specs.View.{view, members_view};
ghost use Rattle.olk_base.specs.Nodes.{subject_data};
ghost use Rattle.olk_spec.specs.Names.{Path};
ghost use Rattle.olk_spec.specs.Schemas.{listed};
ghost use Rattle.olk_reports.specs.Paths.{one_below};
ghost use Rattle.olk_reports.specs.Evaluations.{annotated, node_at, nothing_shown, shown_of};
ghost use Rattle.olk_tree.specs.Properties.{properties_mean};
ghost use Rattle.olk_tree.specs.Shown.{properties_tree};
ghost use Rattle.olk_tree.specs.Visited.{declared_as, members_declared, object_of};
ghost use Rattle.olk_evaluate.specs.Members.{HasMet, MeetsMore, wanted_at};
ghost use Rattle.olk_evaluate.specs.Shows.{Shows};
ghost use Rattle.olk_evaluate.specs.Wanted.{IsShown, ShowsMore, wanted};

use crate::required::add_missing_child;
use crate::walk::add_child;
use crate::{EvaluationContext, Located, Show};
use olk_base::Subject;
use olk_reports::EvaluationResult;
use olk_tree::declared::DeclaredMembers;
use olk_tree::entries::Entries;
use olk_tree::properties::{BigProperties, SmallProperties, SmallPropertiesWithRequired2};
use serde_json::{Map, Value};
use std::alloc::AllocError;

/// A child for each member whose name is declared; where the value is an object, these names are
/// annotated (JSON Schema 2020-12 Core, 10.3.2.1).
impl<'a, N: Located<'a>> Show<'a> for SmallProperties<N> {
    ghost use Rattle.olk_tree.specs.Properties.{small_properties_answers};

    ghost place = { λ k. k.location };

    ghost tree = { λ k. (small_properties_answers k).tree N.means N.tree };

    fn show(
        &'a self,
        node: Subject<'_, 'a>,
        ctx: &mut EvaluationContext,
        outcome: &mut EvaluationResult<'a>,
    ) -> Result<(), AllocError> {
        show_properties(self.properties.entries(), node, ctx, outcome)
    }
}

/// A child for each member whose name is declared; where the value is an object, these names are
/// annotated (JSON Schema 2020-12 Core, 10.3.2.1).
impl<'a, N: Located<'a>> Show<'a> for BigProperties<N> {
    ghost use Rattle.olk_tree.specs.Properties.{big_properties_answers};

    ghost place = { λ k. k.location };

    ghost tree = { λ k. (big_properties_answers k).tree N.means N.tree };

    fn show(
        &'a self,
        node: Subject<'_, 'a>,
        ctx: &mut EvaluationContext,
        outcome: &mut EvaluationResult<'a>,
    ) -> Result<(), AllocError> {
        show_properties(self.properties.entries(), node, ctx, outcome)
    }
}

/// Beside these, a child at the place of `required` where an object lacks one of the two names,
/// with an error for each (JSON Schema 2020-12 Validation, 6.5.3).
impl<'a, N: Located<'a>> Show<'a> for SmallPropertiesWithRequired2<N> {
    ghost use Rattle.olk_tree.specs.Properties.{properties_with_required2_answers};

    ghost place = { λ k. k.location };

    ghost tree = { λ k. (properties_with_required2_answers k).tree N.means N.tree };

    #[inline(never)]
    fn show(
        &'a self,
        node: Subject<'_, 'a>,
        ctx: &mut EvaluationContext,
        outcome: &mut EvaluationResult<'a>,
    ) -> Result<(), AllocError> {
        match node.as_object() {
            Some(members) => {
                show_declared_members(self.properties.entries(), members, ctx, outcome)?;
                add_missing_child(self, members, node, &ctx.path, outcome)
            }
            None => Ok(()),
        }
    }
}

/// A child for each member whose name is declared, and these names annotated, where the value is an
/// object.
#[inline(never)]
fn show_properties<'a, N: Located<'a> + 'a>(
    properties: Entries<'a, N>,
    node: Subject<'_, 'a>,
    ctx: &mut EvaluationContext,
    outcome: &mut EvaluationResult<'a>,
) -> Result<(), AllocError>
    requires { shown_of outcome.old ≡ nothing_shown }
    ensures { Shows result ctx.old ctx.new (λ u _. (P : Path) → IsShown (
      properties_tree (λ n. N.tree n u) (subject_data node.entry)
          ctx.old.path P properties.entry [],
      (properties_mean N.means properties.entry (subject_data node.entry)).accepts
          u,
    )
        (node_at P ctx.old.path (shown_of outcome.new))) }
{
    match node.as_object() {
        Some(members) => show_declared_members(properties, members, ctx, outcome),
        None => Ok(()),
    }
}

/// Room for so many members: names that are annotated, and children.
pub(crate) fn make_room(
    members: usize,
    outcome: &mut EvaluationResult<'_>,
) -> Result<(), AllocError>
    ensures { OnOk result (shown_of outcome.new ≡ annotated [] (shown_of outcome.old)) }
{
    outcome.annotate(Vec::with_capacity(outcome.allocator(), members)?);
    outcome.reserve_children(members)
}

/// The members that are declared, in the order of their names.
fn show_declared_members<'a, N: Located<'a> + 'a>(
    properties: Entries<'a, N>,
    members: &'a Map<String, Value>,
    ctx: &mut EvaluationContext,
    outcome: &mut EvaluationResult<'a>,
) -> Result<(), AllocError>
    requires { shown_of outcome.old ≡ nothing_shown }
    ensures { Shows result ctx.old ctx.new (λ u _. HasMet
        (wanted_at N.tree N.means u ctx.old.path)
        (members_declared properties.entry (listed (members_view members.now.entries)))
        ((properties_mean N.means properties.entry
        (object_of members.now.entries)).accepts u)
        (shown_of outcome.new)) }
{
    make_room(members.len().min(properties.len()), outcome)?;
    for (name, subschema, value) in DeclaredMembers::of(properties, members) {
        show_member(subschema, (name, value), ctx, outcome)?;
    }
    Ok(())
}

/// One member more: its name, and what is shown of its value.
#[inline(always)]
pub(crate) fn show_member<'a, N: Located<'a>>(
    subschema: &'a N,
    member: (&'a str, &'a Value),
    ctx: &mut EvaluationContext,
    outcome: &mut EvaluationResult<'a>,
) -> Result<(), AllocError>
    ensures { Shows result ctx.old ctx.new (λ u _. MeetsMore
        (wanted_at N.tree N.means u ctx.old.path)
        (declared_as member.entry.0.now subschema.now (view member.entry.1.now))
        (shown_of outcome.old) (shown_of outcome.new)) }
{
    outcome.annotate_also(member.0)?;
    add_child_below(subschema, member, ctx, outcome)
}

/// One child more: what is shown of a member's value.
#[inline(always)]
pub(crate) fn add_child_below<'a, N: Located<'a>>(
    subschema: &'a N,
    member: (&'a str, &'a Value),
    ctx: &mut EvaluationContext,
    outcome: &mut EvaluationResult<'a>,
) -> Result<(), AllocError>
    ensures { Shows result ctx.old ctx.new (λ u _. ShowsMore
        (wanted N.tree N.means u
        subschema.now (view member.entry.1.now) (one_below ctx.old.path member.entry.0.now) ∷ [])
        (shown_of outcome.old) (shown_of outcome.new)) }
{
    let mark = ctx.path.push(member.0)?;
    let added = add_child(subschema, Subject::Value(member.1), ctx, outcome);
    ctx.path.pop(mark);
    added
}
