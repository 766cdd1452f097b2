//! `anyOf`: what it shows.
ghost use Rattle.std.specs.Prelude.{◌≡◌};
ghost use Rattle.olk_base.specs.Nodes.{subject_data};
ghost use Rattle.olk_reports.specs.Evaluations.{nothing_shown, shown_of};
ghost use Rattle.olk_evaluate.specs.Shows.{Shows};
ghost use Rattle.olk_evaluate.specs.Wanted.{ShowsAccepting};

use crate::walk::{add_child, show_each, show_one};
use crate::{EvaluationContext, Located, Show};
use olk_base::Subject;
use olk_check::accepts;
use olk_reports::EvaluationResult;
use olk_tree::any_of::{AnyOf, SingleAnyOf};
use std::alloc::AllocError;

/// A child for each branch that accepts; where there is none, a child for each branch (JSON Schema
/// 2020-12 Core, 10.2.1.2).
impl<'a, N: Located<'a>> Show<'a> for AnyOf<N> {
    ghost use Rattle.olk_tree.specs.AnyOf.{any_of_answers};

    ghost place = { λ k. k.location };

    ghost tree = { λ k. (any_of_answers k).tree N.means N.tree };

    #[inline(never)]
    fn show(
        &'a self,
        node: Subject<'_, 'a>,
        ctx: &mut EvaluationContext,
        outcome: &mut EvaluationResult<'a>,
    ) -> Result<(), AllocError> {
        show_accepting(&self.schemas, node, ctx, outcome)?;
        Ok(())
    }
}

/// A child for the branch.
impl<'a, N: Located<'a>> Show<'a> for SingleAnyOf<N> {
    ghost use Rattle.olk_tree.specs.AnyOf.{single_any_of_answers};

    ghost place = { λ k. k.location };

    ghost tree = { λ k. (single_any_of_answers k).tree N.means N.tree };

    #[inline(never)]
    fn show(
        &'a self,
        node: Subject<'_, 'a>,
        ctx: &mut EvaluationContext,
        outcome: &mut EvaluationResult<'a>,
    ) -> Result<(), AllocError> {
        show_one(&self.node, node, ctx, outcome)
    }
}

/// What each branch shows that accepts, below a result that shows nothing yet, and how many these
/// are; where there is none, what each shows, and the result is invalid.
#[inline(always)]
pub(crate) fn show_accepting<'a, N: Located<'a>>(
    schemas: &'a Vec<N>,
    node: Subject<'_, 'a>,
    ctx: &mut EvaluationContext,
    outcome: &mut EvaluationResult<'a>,
) -> Result<usize, AllocError>
    requires { shown_of outcome.old ≡ nothing_shown }
    ensures { Shows result ctx.old ctx.new (λ u count. ShowsAccepting
        N.tree N.means u
        schemas.now.items (subject_data node.entry) ctx.old.path count (shown_of outcome.new)) }
{
    for schema in schemas {
        if !accepts(schema, node, &mut ctx.validation) {
            continue;
        }
        add_child(schema, node, ctx, outcome)?;
    }
    let count = outcome.children().len();
    if count == 0 {
        show_each(schemas, node, ctx, outcome)?;
        outcome.mark_invalid();
    }
    Ok(count)
}
