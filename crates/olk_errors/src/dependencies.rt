//! `dependentRequired`, `dependentSchemas` and `dependencies`: their errors.
ghost use Rattle.std.specs.Prelude.{◌≡◌};
ghost use Rattle.olk_base.specs.Nodes.{subject_data};
ghost use Rattle.olk_reports.specs.Paths.{path_at};
ghost use Rattle.olk_tree.specs.Maps.{named};
ghost use Rattle.olk_tree.specs.Dependencies.{due_nodes};
ghost use Rattle.olk_tree.specs.Visited.{object_of};
ghost use Rattle.olk_errors.specs.Outcomes.{of_branches};
ghost use Rattle.olk_errors.specs.Sinks.{Walks};

use crate::{ErrorSink, Stop, Walk};
use olk_base::{Subject, ValidationContext};
use olk_reports::Trail;
use olk_tree::dependencies::{Dependencies, DependentRequired, DependentSchemas};
use olk_tree::map::SmallMap;
use serde_json::{Map, Value};

impl<'a, N: Walk<'a>> Walk<'a> for Dependencies<N> {
    fn walk(
        &'a self,
        node: Subject<'_, 'a>,
        trail: &Trail<'_, 'a>,
        ctx: &mut ValidationContext,
        sink: &mut ErrorSink<'a>,
    ) -> Result<(), Stop> {
        walk_dependencies(&self.dependencies, node, trail, ctx, sink)
    }
}

impl<'a, N: Walk<'a>> Walk<'a> for DependentRequired<N> {
    fn walk(
        &'a self,
        node: Subject<'_, 'a>,
        trail: &Trail<'_, 'a>,
        ctx: &mut ValidationContext,
        sink: &mut ErrorSink<'a>,
    ) -> Result<(), Stop> {
        walk_dependencies(&self.dependencies, node, trail, ctx, sink)
    }
}

impl<'a, N: Walk<'a>> Walk<'a> for DependentSchemas<N> {
    fn walk(
        &'a self,
        node: Subject<'_, 'a>,
        trail: &Trail<'_, 'a>,
        ctx: &mut ValidationContext,
        sink: &mut ErrorSink<'a>,
    ) -> Result<(), Stop> {
        walk_dependencies(&self.dependencies, node, trail, ctx, sink)
    }
}

/// Walks over the value with the node of each key that is a member, where it is an object.
#[inline(never)]
fn walk_dependencies<'a, N: Walk<'a>>(
    dependencies: &'a SmallMap<N>,
    node: Subject<'_, 'a>,
    trail: &Trail<'_, 'a>,
    ctx: &mut ValidationContext,
    sink: &mut ErrorSink<'a>,
) -> Result<(), Stop>
    ensures { Walks result sink.old sink.new ctx.old ctx.new
        (λ u. of_branches N.means N.first N.report u
        (due_nodes (named dependencies.now) (subject_data node.entry)) (subject_data node.entry)
        (path_at trail.now)) }
{
    match node.as_object() {
        Some(members) => walk_due(dependencies, members, node, trail, ctx, sink),
        None => Ok(()),
    }
}

/// Walks over the object with the node of each key that is a member.
fn walk_due<'a, N: Walk<'a>>(
    dependencies: &'a SmallMap<N>,
    members: &'a Map<String, Value>,
    object: Subject<'_, 'a>,
    trail: &Trail<'_, 'a>,
    ctx: &mut ValidationContext,
    sink: &mut ErrorSink<'a>,
) -> Result<(), Stop>
    requires { subject_data object ≡ object_of members.now.entries }
    ensures { Walks result sink.old sink.new ctx.old ctx.new
        (λ u. of_branches N.means N.first N.report u
        (due_nodes (named dependencies.now) (subject_data object.entry)) (subject_data object.entry)
        (path_at trail.now)) }
{
    for (_, dependency, _) in dependencies.declared_members(members) {
        dependency.walk(object, trail, ctx, sink)?;
    }
    Ok(())
}
