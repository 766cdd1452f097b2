//! `properties`: its errors.
ghost use Rattle.std.specs.Prelude.{option_copied, option_to_list};
ghost use Rattle.serde_json.specs.View.{view, members_view};
ghost use Rattle.olk_base.specs.Nodes.{subject_data};
ghost use Rattle.olk_spec.specs.Schemas.{listed};
ghost use Rattle.olk_reports.specs.Paths.{one_below, path_at};
ghost use Rattle.olk_tree.specs.Visited.{members_declared, object_of};
ghost use Rattle.olk_errors.specs.Outcomes.{of_branches, of_declared, of_node, of_properties};
ghost use Rattle.olk_errors.specs.Sinks.{Walks};

use crate::required::report_if_missing;
use crate::{ErrorSink, Stop, Walk};
use olk_base::{Subject, ValidationContext};
use olk_reports::Trail;
use olk_tree::declared::DeclaredMembers;
use olk_tree::entries::Entries;
use olk_tree::properties::{BigProperties, SmallProperties, SmallPropertiesWithRequired2};
use serde_json::{Map, Value};

impl<'a, N: Walk<'a>> Walk<'a> for SmallProperties<N> {
    fn walk(
        &'a self,
        node: Subject<'_, 'a>,
        trail: &Trail<'_, 'a>,
        ctx: &mut ValidationContext,
        sink: &mut ErrorSink<'a>,
    ) -> Result<(), Stop> {
        walk_properties(self.properties.entries(), node, trail, ctx, sink)
    }
}

impl<'a, N: Walk<'a>> Walk<'a> for BigProperties<N> {
    fn walk(
        &'a self,
        node: Subject<'_, 'a>,
        trail: &Trail<'_, 'a>,
        ctx: &mut ValidationContext,
        sink: &mut ErrorSink<'a>,
    ) -> Result<(), Stop> {
        walk_properties(self.properties.entries(), node, trail, ctx, sink)
    }
}

impl<'a, N: Walk<'a>> Walk<'a> for SmallPropertiesWithRequired2<N> {
    #[inline(never)]
    fn walk(
        &'a self,
        node: Subject<'_, 'a>,
        trail: &Trail<'_, 'a>,
        ctx: &mut ValidationContext,
        sink: &mut ErrorSink<'a>,
    ) -> Result<(), Stop> {
        match node.as_object() {
            Some(members) => {
                let location = &self.required_location;
                report_if_missing(self.first.as_str(), location, members, node, trail, sink)?;
                report_if_missing(self.second.as_str(), location, members, node, trail, sink)?;
                walk_members(self.properties.entries(), members, trail, ctx, sink)
            }
            None => Ok(()),
        }
    }
}

/// Walks over the members whose names are declared, where the value is an object.
#[inline(never)]
fn walk_properties<'a, N: Walk<'a> + 'a>(
    properties: Entries<'a, N>,
    node: Subject<'_, 'a>,
    trail: &Trail<'_, 'a>,
    ctx: &mut ValidationContext,
    sink: &mut ErrorSink<'a>,
) -> Result<(), Stop>
    ensures { Walks result sink.old sink.new ctx.old ctx.new
        (λ u. of_properties N.means N.first N.report u properties.entry
        (subject_data node.entry) (path_at trail.now)) }
{
    match node.as_object() {
        Some(members) => walk_members(properties, members, trail, ctx, sink),
        None => Ok(()),
    }
}

/// Walks over the members whose names are declared. A declared name that is looked up takes as long
/// as two members that are walked.
#[inline(always)]
fn walk_members<'a, N: Walk<'a> + 'a>(
    properties: Entries<'a, N>,
    members: &'a Map<String, Value>,
    trail: &Trail<'_, 'a>,
    ctx: &mut ValidationContext,
    sink: &mut ErrorSink<'a>,
) -> Result<(), Stop>
    ensures { Walks result sink.old sink.new ctx.old ctx.new
        (λ u. of_properties N.means N.first N.report u properties.entry
        (object_of members.now.entries) (path_at trail.now)) }
{
    if members.len() / 2 < properties.len() {
        walk_each_member(properties, members, trail, ctx, sink)
    } else {
        walk_each_name(properties, members, trail, ctx, sink)
    }
}

/// Walks over the members whose names are declared, member by member.
#[inline(never)]
fn walk_each_member<'a, N: Walk<'a> + 'a>(
    properties: Entries<'a, N>,
    members: &'a Map<String, Value>,
    trail: &Trail<'_, 'a>,
    ctx: &mut ValidationContext,
    sink: &mut ErrorSink<'a>,
) -> Result<(), Stop>
    ensures { Walks result sink.old sink.new ctx.old ctx.new
        (λ u. of_declared N.means N.first N.report u (members_declared properties.entry
        (listed (members_view members.now.entries))) (path_at trail.now)) }
{
    let mut hint = 0;
    for (name, value) in members {
        let name = name.as_str();
        let (next, declared) = properties.node_from(hint, name);
        hint = next;
        walk_if_declared(declared, name, value, trail, ctx, sink)?;
    }
    Ok(())
}

/// Walks over a member with what is declared at its name, if anything is.
#[inline(always)]
fn walk_if_declared<'a, N: Walk<'a>>(
    declared: Option<&'a N>,
    name: &'a str,
    value: &'a Value,
    trail: &Trail<'_, 'a>,
    ctx: &mut ValidationContext,
    sink: &mut ErrorSink<'a>,
) -> Result<(), Stop>
    ensures { Walks result sink.old sink.new ctx.old ctx.new
        (λ u. of_branches N.means N.first N.report u
        (option_to_list (option_copied declared.entry)) (view value.now)
        (one_below (path_at trail.now) name.now)) }
{
    match declared {
        Some(subschema) => walk_below(subschema, name, value, trail, ctx, sink),
        None => Ok(()),
    }
}

/// Walks over the members whose names are declared, declared name by declared name.
#[inline(never)]
fn walk_each_name<'a, N: Walk<'a> + 'a>(
    properties: Entries<'a, N>,
    members: &'a Map<String, Value>,
    trail: &Trail<'_, 'a>,
    ctx: &mut ValidationContext,
    sink: &mut ErrorSink<'a>,
) -> Result<(), Stop>
    ensures { Walks result sink.old sink.new ctx.old ctx.new
        (λ u. of_properties N.means N.first N.report u properties.entry
        (object_of members.now.entries) (path_at trail.now)) }
{
    for (name, subschema, value) in DeclaredMembers::of(properties, members) {
        walk_below(subschema, name, value, trail, ctx, sink)?;
    }
    Ok(())
}

/// Walks over a value one segment below the trail.
#[inline(always)]
pub(crate) fn walk_below<'a, N: Walk<'a>>(
    subschema: &'a N,
    name: &'a str,
    value: &'a Value,
    trail: &Trail<'_, 'a>,
    ctx: &mut ValidationContext,
    sink: &mut ErrorSink<'a>,
) -> Result<(), Stop>
    ensures { Walks result sink.old sink.new ctx.old ctx.new
        (λ u. of_node N.means N.first N.report u subschema.now (view value.now)
        (one_below (path_at trail.now) name.now)) }
{
    let below = Trail::Below(&*trail, name);
    subschema.walk(Subject::Value(value), &below, ctx, sink)
}
