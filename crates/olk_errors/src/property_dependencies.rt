//! `propertyDependencies`: its errors.
ghost use Rattle.std.specs.Prelude.{◌≡◌};
ghost use Rattle.serde_json.specs.View.{view};
ghost use Rattle.olk_base.specs.Nodes.{subject_data};
ghost use Rattle.olk_reports.specs.Paths.{path_at};
ghost use Rattle.olk_tree.specs.Maps.{named};
ghost use Rattle.olk_tree.specs.PropertyDependencies.{chosen_at, chosen_nodes};
ghost use Rattle.olk_tree.specs.Visited.{object_of};
ghost use Rattle.olk_errors.specs.Outcomes.{of_branches};
ghost use Rattle.olk_errors.specs.Sinks.{Walks};

use crate::{ErrorSink, Stop, Walk};
use olk_base::{Subject, ValidationContext};
use olk_reports::Trail;
use olk_tree::map::SmallMap;
use olk_tree::property_dependencies::PropertyDependencies;
use serde_json::{Map, Value};

impl<'a, N: Walk<'a>> Walk<'a> for PropertyDependencies<N> {
    #[inline(never)]
    fn walk(
        &'a self,
        node: Subject<'_, 'a>,
        trail: &Trail<'_, 'a>,
        ctx: &mut ValidationContext,
        sink: &mut ErrorSink<'a>,
    ) -> Result<(), Stop> {
        match node.as_object() {
            Some(members) => walk_chosen(&self.dependencies, members, node, trail, ctx, sink),
            None => Ok(()),
        }
    }
}

/// Walks over the object with the nodes at the texts of its members.
fn walk_chosen<'a, N: Walk<'a>>(
    dependencies: &'a SmallMap<SmallMap<N>>,
    members: &'a Map<String, Value>,
    object: Subject<'_, 'a>,
    trail: &Trail<'_, 'a>,
    ctx: &mut ValidationContext,
    sink: &mut ErrorSink<'a>,
) -> Result<(), Stop>
    requires { subject_data object ≡ object_of members.now.entries }
    ensures { Walks result sink.old sink.new ctx.old ctx.new
        (λ u. of_branches N.means N.first N.report u
        (chosen_nodes (named dependencies.now) (subject_data object.entry))
        (subject_data object.entry) (path_at trail.now)) }
{
    for (_, choices, value) in dependencies.declared_members(members) {
        walk_choice(choices, value, object, trail, ctx, sink)?;
    }
    Ok(())
}

/// Walks over the object with the node at the text that the value is, if there is one.
fn walk_choice<'a, N: Walk<'a>>(
    choices: &'a SmallMap<N>,
    value: &Value,
    object: Subject<'_, 'a>,
    trail: &Trail<'_, 'a>,
    ctx: &mut ValidationContext,
    sink: &mut ErrorSink<'a>,
) -> Result<(), Stop>
    ensures { Walks result sink.old sink.new ctx.old ctx.new
        (λ u. of_branches N.means N.first N.report u
        (chosen_at choices.now (view value.now)) (subject_data object.entry) (path_at trail.now)) }
{
    match choices.chosen_by(value) {
        Some(dependency) => dependency.walk(object, trail, ctx, sink),
        None => Ok(()),
    }
}
