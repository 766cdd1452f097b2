//! `oneOf`: what it shows.
use crate::any_of::show_accepting;
use crate::walk::show_one;
use crate::{EvaluationContext, Located, Show};
use olk_base::Subject;
use olk_reports::{ErrorDescription, EvaluationResult};
use olk_tree::one_of::{OneOf, SingleOneOf};
use std::alloc::AllocError;

/// A child for each branch that accepts, and an error of its own where they are several; where
/// there is none, a child for each branch (JSON Schema 2020-12 Core, 10.2.1.3).
impl<'a, N: Located<'a>> Show<'a> for OneOf<N> {
    ghost use Rattle.olk_tree.specs.OneOf.{one_of_answers};

    ghost place = { λ k. k.location };

    ghost tree = { λ k. (one_of_answers k).tree N.means N.tree };

    #[inline(never)]
    fn show(
        &'a self,
        node: Subject<'_, 'a>,
        ctx: &mut EvaluationContext,
        outcome: &mut EvaluationResult<'a>,
    ) -> Result<(), AllocError> {
        let count = show_accepting(&self.schemas, node, ctx, outcome)?;
        if count < 2 {
            return Ok(());
        }
        let message = String::from_str(outcome.allocator(), "more than one subschema succeeded")?;
        outcome.mark_errored(ErrorDescription::new("oneOf", message))
    }
}

/// A child for the branch.
impl<'a, N: Located<'a>> Show<'a> for SingleOneOf<N> {
    ghost use Rattle.olk_tree.specs.OneOf.{single_one_of_answers};

    ghost place = { λ k. k.location };

    ghost tree = { λ k. (single_one_of_answers k).tree N.means N.tree };

    #[inline(never)]
    fn show(
        &'a self,
        node: Subject<'_, 'a>,
        ctx: &mut EvaluationContext,
        outcome: &mut EvaluationResult<'a>,
    ) -> Result<(), AllocError> {
        show_one(&self.node, node, ctx, outcome)
    }
}
