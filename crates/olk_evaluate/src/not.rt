//! `not`: what it shows.
use crate::{EvaluationContext, Located, Show};
use olk_base::Subject;
use olk_check::accepts;
use olk_reports::{EvaluationResult, ValidationErrorKind};
use olk_tree::not::Not;
use std::alloc::AllocError;

/// An error of its own where the subschema accepts; what the subschema shows is left out (JSON
/// Schema 2020-12 Core, 10.2.1.4).
impl<'a, N: Located<'a>> Show<'a> for Not<N> {
    ghost use Rattle.olk_tree.specs.Not.{not_answers};

    ghost place = { λ k. k.location };

    ghost tree = { λ k. (not_answers k).tree N.means N.tree };

    #[inline(never)]
    fn show(
        &'a self,
        node: Subject<'_, 'a>,
        ctx: &mut EvaluationContext,
        outcome: &mut EvaluationResult<'a>,
    ) -> Result<(), AllocError> {
        if !accepts(&self.node, node, &mut ctx.validation) {
            return Ok(());
        }
        let kind: ValidationErrorKind<'a> = ValidationErrorKind::Not {
            schema: &self.original,
        };
        outcome.mark_errored_by(kind, node.node())
    }
}
