//! `dependentRequired`, `dependentSchemas` and `dependencies`: what they show.
ghost use Rattle.olk_base.specs.Nodes.{subject_data};
ghost use Rattle.olk_reports.specs.Evaluations.{shown_of};
ghost use Rattle.olk_tree.specs.Dependencies.{due_nodes};
ghost use Rattle.olk_tree.specs.Maps.{named};
ghost use Rattle.olk_evaluate.specs.Shows.{Shows};
ghost use Rattle.olk_evaluate.specs.Wanted.{ShowsMore, each_wanted};

use crate::walk::add_child;
use crate::{EvaluationContext, Located, Show};
use olk_base::Subject;
use olk_reports::EvaluationResult;
use olk_tree::dependencies::{Dependencies, DependentRequired, DependentSchemas};
use olk_tree::map::SmallMap;
use std::alloc::AllocError;

/// A child for each key that is a member of the object (JSON Schema draft 7 Validation, 6.5.7).
impl<'a, N: Located<'a>> Show<'a> for Dependencies<N> {
    ghost use Rattle.olk_tree.specs.Dependencies.{dependencies_answers};

    ghost place = { λ k. k.location };

    ghost tree = { λ k. (dependencies_answers k).tree N.means N.tree };

    fn show(
        &'a self,
        node: Subject<'_, 'a>,
        ctx: &mut EvaluationContext,
        outcome: &mut EvaluationResult<'a>,
    ) -> Result<(), AllocError> {
        show_due(&self.dependencies, node, ctx, outcome)
    }
}

/// A child for each key that is a member of the object (JSON Schema 2020-12 Validation, 6.5.4).
impl<'a, N: Located<'a>> Show<'a> for DependentRequired<N> {
    ghost use Rattle.olk_tree.specs.Dependencies.{dependent_required_answers};

    ghost place = { λ k. k.location };

    ghost tree = { λ k. (dependent_required_answers k).tree N.means N.tree };

    fn show(
        &'a self,
        node: Subject<'_, 'a>,
        ctx: &mut EvaluationContext,
        outcome: &mut EvaluationResult<'a>,
    ) -> Result<(), AllocError> {
        show_due(&self.dependencies, node, ctx, outcome)
    }
}

/// A child for each key that is a member of the object (JSON Schema 2020-12 Core, 10.2.2.4).
impl<'a, N: Located<'a>> Show<'a> for DependentSchemas<N> {
    ghost use Rattle.olk_tree.specs.Dependencies.{dependent_schemas_answers};

    ghost place = { λ k. k.location };

    ghost tree = { λ k. (dependent_schemas_answers k).tree N.means N.tree };

    fn show(
        &'a self,
        node: Subject<'_, 'a>,
        ctx: &mut EvaluationContext,
        outcome: &mut EvaluationResult<'a>,
    ) -> Result<(), AllocError> {
        show_due(&self.dependencies, node, ctx, outcome)
    }
}

/// A child more for each key that is a member, where the value is an object.
#[inline(never)]
fn show_due<'a, N: Located<'a>>(
    dependencies: &'a SmallMap<N>,
    node: Subject<'_, 'a>,
    ctx: &mut EvaluationContext,
    outcome: &mut EvaluationResult<'a>,
) -> Result<(), AllocError>
    ensures { Shows result ctx.old ctx.new (λ u _. ShowsMore
        (each_wanted N.tree N.means u
        (due_nodes (named dependencies.now) (subject_data node.entry))
        (subject_data node.entry) ctx.old.path)
        (shown_of outcome.old) (shown_of outcome.new)) }
{
    let Some(members) = node.as_object() else {
        return Ok(());
    };
    for (_, dependency, _) in dependencies.declared_members(members) {
        add_child(dependency, node, ctx, outcome)?;
    }
    Ok(())
}
