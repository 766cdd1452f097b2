//! `if`, `then` and `else`: what they show.
ghost use Rattle.std.specs.Prelude.{◌∷◌, []};
ghost use Rattle.olk_base.specs.Nodes.{subject_data};
ghost use Rattle.olk_reports.specs.Evaluations.{shown_of};
ghost use Rattle.olk_evaluate.specs.Shows.{Shows};
ghost use Rattle.olk_evaluate.specs.Wanted.{ShowsMore, each_wanted};

use crate::walk::{add_child, show_one};
use crate::{EvaluationContext, Located, Show};
use olk_base::Subject;
use olk_check::accepts;
use olk_reports::EvaluationResult;
use olk_tree::if_::{IfElse, IfThen, IfThenElse};
use std::alloc::AllocError;

/// Where `if` accepts, a child for it and one for `then` (JSON Schema 2020-12 Core, 10.2.2).
impl<'a, N: Located<'a>> Show<'a> for IfThen<N> {
    ghost use Rattle.olk_tree.specs.If.{if_then_answers};

    ghost place = { λ k. k.location };

    ghost tree = { λ k. (if_then_answers k).tree N.means N.tree };

    #[inline(never)]
    fn show(
        &'a self,
        node: Subject<'_, 'a>,
        ctx: &mut EvaluationContext,
        outcome: &mut EvaluationResult<'a>,
    ) -> Result<(), AllocError> {
        if !accepts(&self.schema, node, &mut ctx.validation) {
            return Ok(());
        }
        show_both(&self.schema, &self.then_schema, node, ctx, outcome)
    }
}

/// A child for `if` where it accepts, and else one for `else` (JSON Schema 2020-12 Core, 10.2.2).
impl<'a, N: Located<'a>> Show<'a> for IfElse<N> {
    ghost use Rattle.olk_tree.specs.If.{if_else_answers};

    ghost place = { λ k. k.location };

    ghost tree = { λ k. (if_else_answers k).tree N.means N.tree };

    #[inline(never)]
    fn show(
        &'a self,
        node: Subject<'_, 'a>,
        ctx: &mut EvaluationContext,
        outcome: &mut EvaluationResult<'a>,
    ) -> Result<(), AllocError> {
        if accepts(&self.schema, node, &mut ctx.validation) {
            show_one(&self.schema, node, ctx, outcome)
        } else {
            show_one(&self.else_schema, node, ctx, outcome)
        }
    }
}

/// Where `if` accepts, a child for it and one for `then`, and else one for `else` (JSON Schema
/// 2020-12 Core, 10.2.2).
impl<'a, N: Located<'a>> Show<'a> for IfThenElse<N> {
    ghost use Rattle.olk_tree.specs.If.{if_then_else_answers};

    ghost place = { λ k. k.location };

    ghost tree = { λ k. (if_then_else_answers k).tree N.means N.tree };

    #[inline(never)]
    fn show(
        &'a self,
        node: Subject<'_, 'a>,
        ctx: &mut EvaluationContext,
        outcome: &mut EvaluationResult<'a>,
    ) -> Result<(), AllocError> {
        if accepts(&self.schema, node, &mut ctx.validation) {
            show_both(&self.schema, &self.then_schema, node, ctx, outcome)
        } else {
            show_one(&self.else_schema, node, ctx, outcome)
        }
    }
}

/// What the two subschemas show.
fn show_both<'a, N: Located<'a>>(
    first: &'a N,
    second: &'a N,
    node: Subject<'_, 'a>,
    ctx: &mut EvaluationContext,
    outcome: &mut EvaluationResult<'a>,
) -> Result<(), AllocError>
    ensures { Shows result ctx.old ctx.new (λ u _. ShowsMore
        (each_wanted N.tree N.means u
        (first.now ∷ second.now ∷ []) (subject_data node.entry) ctx.old.path)
        (shown_of outcome.old) (shown_of outcome.new)) }
{
    outcome.reserve_children(2)?;
    add_child(first, node, ctx, outcome)?;
    add_child(second, node, ctx, outcome)
}
