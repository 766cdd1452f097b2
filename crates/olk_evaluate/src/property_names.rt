//! `propertyNames`: what it shows.
use crate::walk::add_child;
use crate::{EvaluationContext, Located, Show};
use olk_base::Subject;
use olk_reports::{EvaluationResult, ValidationErrorKind};
use olk_tree::property_names::{PropertyNames, PropertyNamesFalse};
use std::alloc::AllocError;

/// A child for each member's name, at the path of the object (JSON Schema 2020-12 Core, 10.3.2.4).
impl<'a, N: Located<'a>> Show<'a> for PropertyNames<N> {
    ghost use Rattle.olk_tree.specs.PropertyNames.{property_names_answers};

    ghost place = { λ k. k.location };

    ghost tree = { λ k. (property_names_answers k).tree N.means N.tree };

    #[inline(never)]
    fn show(
        &'a self,
        node: Subject<'_, 'a>,
        ctx: &mut EvaluationContext,
        outcome: &mut EvaluationResult<'a>,
    ) -> Result<(), AllocError> {
        let Some(members) = node.as_object() else {
            return Ok(());
        };
        outcome.reserve_children(members.len())?;
        for (name, _) in members {
            let name = name.as_str();
            add_child(&self.node, Subject::Name(&name), ctx, outcome)?;
        }
        Ok(())
    }
}

/// An error of its own where the object has members.
impl<'a> Show<'a> for PropertyNamesFalse {
    ghost use Rattle.olk_tree.specs.PropertyNames.{property_names_false_answers};

    ghost place = { λ k. k.location };

    ghost tree = { λ k. (property_names_false_answers k).tree };

    #[inline(never)]
    fn show(
        &'a self,
        node: Subject<'_, 'a>,
        _ctx: &mut EvaluationContext,
        outcome: &mut EvaluationResult<'a>,
    ) -> Result<(), AllocError> {
        match node.as_object() {
            Some(members) => {
                if members.is_empty() {
                    return Ok(());
                }
                let kind: ValidationErrorKind<'a> = ValidationErrorKind::FalseSchema;
                outcome.mark_errored_by(kind, node.node())
            }
            None => Ok(()),
        }
    }
}
