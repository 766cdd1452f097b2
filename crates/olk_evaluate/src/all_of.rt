//! `allOf`: what it shows.
use crate::walk::{show_each, show_one};
use crate::{EvaluationContext, Located, Show};
use olk_base::Subject;
use olk_reports::EvaluationResult;
use olk_tree::all_of::{AllOf, SingleValueAllOf};
use std::alloc::AllocError;

/// A child for each branch (JSON Schema 2020-12 Core, 10.2.1.1).
impl<'a, N: Located<'a>> Show<'a> for AllOf<N> {
    ghost use Rattle.olk_tree.specs.AllOf.{all_of_answers};

    ghost place = { λ k. k.location };

    ghost tree = { λ k. (all_of_answers k).tree N.means N.tree };

    #[inline(never)]
    fn show(
        &'a self,
        node: Subject<'_, 'a>,
        ctx: &mut EvaluationContext,
        outcome: &mut EvaluationResult<'a>,
    ) -> Result<(), AllocError> {
        show_each(&self.schemas, node, ctx, outcome)
    }
}

/// A child for the branch.
impl<'a, N: Located<'a>> Show<'a> for SingleValueAllOf<N> {
    ghost use Rattle.olk_tree.specs.AllOf.{single_all_of_answers};

    ghost place = { λ k. k.location };

    ghost tree = { λ k. (single_all_of_answers k).tree N.means N.tree };

    #[inline(never)]
    fn show(
        &'a self,
        node: Subject<'_, 'a>,
        ctx: &mut EvaluationContext,
        outcome: &mut EvaluationResult<'a>,
    ) -> Result<(), AllocError> {
        show_one(&self.node, node, ctx, outcome)
    }
}
