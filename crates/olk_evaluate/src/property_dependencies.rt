//! `propertyDependencies`: what it shows.
use crate::walk::add_child;
use crate::{EvaluationContext, Located, Show};
use olk_base::Subject;
use olk_reports::EvaluationResult;
use olk_tree::property_dependencies::PropertyDependencies;
use std::alloc::AllocError;

/// A child for each key at whose text there is a subschema. The keyword is in no published version
/// of JSON Schema.
impl<'a, N: Located<'a>> Show<'a> for PropertyDependencies<N> {
    ghost use Rattle.olk_tree.specs.PropertyDependencies.{property_dependencies_answers};

    ghost place = { λ k. k.location };

    ghost tree = { λ k. (property_dependencies_answers k).tree N.means N.tree };

    #[inline(never)]
    fn show(
        &'a self,
        node: Subject<'_, 'a>,
        ctx: &mut EvaluationContext,
        outcome: &mut EvaluationResult<'a>,
    ) -> Result<(), AllocError> {
        let Some(members) = node.as_object() else {
            return Ok(());
        };
        for (_, choices, value) in self.dependencies.declared_members(members) {
            let Some(dependency) = choices.chosen_by(value) else {
                continue;
            };
            add_child(dependency, node, ctx, outcome)?;
        }
        Ok(())
    }
}
