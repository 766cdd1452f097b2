//! What the nodes of a keyword show.
ghost use Rattle.std.specs.Prelude.{◌≡◌, ◌∷◌, [], OnOk};
ghost use Rattle.olk_base.specs.Nodes.{subject_data};
ghost use Rattle.olk_reports.specs.Evaluations.{node_at, shown_of, with_children};
ghost use Rattle.olk_evaluate.specs.Shows.{Shows};
ghost use Rattle.olk_evaluate.specs.Wanted.{ShowsMore, wanted, each_wanted};

use crate::{EvaluationContext, Located};
use olk_base::Subject;
use olk_reports::{EvaluationNode, EvaluationResult, InstancePath, PathText};
use std::alloc::AllocError;

/// One child more: what the node shows.
///
/// # Errors
///
/// Out of memory.
#[inline(always)]
pub fn add_child<'a, N: Located<'a>>(
    schema: &'a N,
    node: Subject<'_, 'a>,
    ctx: &mut EvaluationContext,
    outcome: &mut EvaluationResult<'a>,
) -> Result<(), AllocError>
    ensures { Shows result ctx.old ctx.new (λ u _. ShowsMore
        (wanted N.tree N.means u
        schema.now (subject_data node.entry) ctx.old.path ∷ [])
        (shown_of outcome.old) (shown_of outcome.new)) }
{
    let mut shown: EvaluationResult<'a> = EvaluationResult::valid_empty(outcome.allocator());
    schema.show(node, ctx, &mut shown)?;
    // The path is written first, so that what is shown is moved but once.
    let instance_path = PathText::from_str(outcome.allocator(), ctx.path.as_str())?;
    outcome.add_child(EvaluationNode::at(schema.location(), instance_path, shown))
}

/// One child more: what is shown at these places.
#[inline(always)]
pub(crate) fn add_child_at<'a>(
    schema_path: &'a str,
    instance_path: &InstancePath,
    shown: EvaluationResult<'a>,
    outcome: &mut EvaluationResult<'a>,
) -> Result<(), AllocError>
    ensures { OnOk result (shown_of outcome.new ≡ with_children
        (node_at schema_path.now instance_path.now (shown_of shown.entry) ∷ [])
        (shown_of outcome.old)) }
{
    let instance_path = PathText::from_str(outcome.allocator(), instance_path.as_str())?;
    outcome.add_child(EvaluationNode::at(schema_path, instance_path, shown))
}

/// A child more for each of them.
///
/// # Errors
///
/// Out of memory.
pub fn show_each<'a, N: Located<'a>>(
    schemas: &'a Vec<N>,
    node: Subject<'_, 'a>,
    ctx: &mut EvaluationContext,
    outcome: &mut EvaluationResult<'a>,
) -> Result<(), AllocError>
    ensures { Shows result ctx.old ctx.new (λ u _. ShowsMore
        (each_wanted N.tree N.means u
        schemas.now.items (subject_data node.entry) ctx.old.path)
        (shown_of outcome.old) (shown_of outcome.new)) }
{
    outcome.reserve_children(schemas.len())?;
    for schema in schemas {
        add_child(schema, node, ctx, outcome)?;
    }
    Ok(())
}

/// The one child of a result that has none yet.
pub(crate) fn show_one<'a, N: Located<'a>>(
    schema: &'a N,
    node: Subject<'_, 'a>,
    ctx: &mut EvaluationContext,
    outcome: &mut EvaluationResult<'a>,
) -> Result<(), AllocError>
    ensures { Shows result ctx.old ctx.new (λ u _. ShowsMore
        (wanted N.tree N.means u
        schema.now (subject_data node.entry) ctx.old.path ∷ [])
        (shown_of outcome.old) (shown_of outcome.new)) }
{
    outcome.reserve_children(1)?;
    add_child(schema, node, ctx, outcome)
}
