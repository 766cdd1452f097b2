//! `patternProperties`: its errors.
ghost use Rattle.std.specs.Prelude.{◌≡◌, true, false};
ghost use Rattle.serde_json.specs.View.{view};
ghost use Rattle.olk_reports.specs.Paths.{path_at};
ghost use Rattle.olk_tree.specs.Visited.{object_of};
ghost use Rattle.olk_errors.specs.Outcomes.{of_match, of_matched, of_matching, of_patterns};
ghost use Rattle.olk_errors.specs.Sinks.{wants_one, Walks};

use crate::properties::walk_below;
use crate::{ErrorSink, Stop, Walk};
use olk_base::{CompiledPattern, RegexEngine, Subject, ValidationContext};
use olk_check::matches;
use olk_reports::Trail;
use olk_tree::pattern_properties::{PatternProperties, SingleValuePatternProperties};
use serde_json::{Map, Value};

impl<'a, R: RegexEngine, N: Walk<'a>> Walk<'a> for PatternProperties<R, N> {
    #[inline(never)]
    fn walk(
        &'a self,
        node: Subject<'_, 'a>,
        trail: &Trail<'_, 'a>,
        ctx: &mut ValidationContext,
        sink: &mut ErrorSink<'a>,
    ) -> Result<(), Stop> {
        match node.as_object() {
            Some(members) => walk_patterns(&self.patterns, members, trail, ctx, sink),
            None => Ok(()),
        }
    }
}

impl<'a, R: RegexEngine, N: Walk<'a>> Walk<'a> for SingleValuePatternProperties<R, N> {
    #[inline(never)]
    fn walk(
        &'a self,
        node: Subject<'_, 'a>,
        trail: &Trail<'_, 'a>,
        ctx: &mut ValidationContext,
        sink: &mut ErrorSink<'a>,
    ) -> Result<(), Stop> {
        match node.as_object() {
            Some(members) => walk_matched(&self.regex, &self.node, members, trail, ctx, sink),
            None => Ok(()),
        }
    }
}

/// Walks over the members whose names patterns match: for the first error member by member, and
/// pattern by pattern at each; for all errors pattern by pattern.
fn walk_patterns<'a, R: RegexEngine, N: Walk<'a>>(
    patterns: &'a Vec<(CompiledPattern<R>, N)>,
    members: &'a Map<String, Value>,
    trail: &Trail<'_, 'a>,
    ctx: &mut ValidationContext,
    sink: &mut ErrorSink<'a>,
) -> Result<(), Stop>
    ensures { Walks result sink.old sink.new ctx.old ctx.new
        (λ u. of_patterns R.answers R.costs N.means N.first N.report u patterns.now.items
        (object_of members.now.entries) (path_at trail.now)) }
{
    if sink.wants_one() {
        walk_by_member(patterns, members, trail, ctx, sink)
    } else {
        walk_by_pattern(patterns, members, trail, ctx, sink)
    }
}

/// Walks over the members whose names patterns match, for the first error: member by member.
fn walk_by_member<'a, R: RegexEngine, N: Walk<'a>>(
    patterns: &'a Vec<(CompiledPattern<R>, N)>,
    members: &'a Map<String, Value>,
    trail: &Trail<'_, 'a>,
    ctx: &mut ValidationContext,
    sink: &mut ErrorSink<'a>,
) -> Result<(), Stop>
    requires { wants_one sink.now ≡ true }
    ensures { Walks result sink.old sink.new ctx.old ctx.new
        (λ u. of_patterns R.answers R.costs N.means N.first N.report u patterns.now.items
        (object_of members.now.entries) (path_at trail.now)) }
{
    for (name, value) in members {
        walk_matching(patterns, name.as_str(), value, trail, ctx, sink)?;
    }
    Ok(())
}

/// Walks over the members whose names patterns match, for all errors: pattern by pattern.
fn walk_by_pattern<'a, R: RegexEngine, N: Walk<'a>>(
    patterns: &'a Vec<(CompiledPattern<R>, N)>,
    members: &'a Map<String, Value>,
    trail: &Trail<'_, 'a>,
    ctx: &mut ValidationContext,
    sink: &mut ErrorSink<'a>,
) -> Result<(), Stop>
    requires { wants_one sink.now ≡ false }
    ensures { Walks result sink.old sink.new ctx.old ctx.new
        (λ u. of_patterns R.answers R.costs N.means N.first N.report u patterns.now.items
        (object_of members.now.entries) (path_at trail.now)) }
{
    for entry in patterns {
        walk_matched(&entry.0, &entry.1, members, trail, ctx, sink)?;
    }
    Ok(())
}

/// Walks over a member with each of the patterns that match its name.
fn walk_matching<'a, R: RegexEngine, N: Walk<'a>>(
    patterns: &'a Vec<(CompiledPattern<R>, N)>,
    name: &'a str,
    value: &'a Value,
    trail: &Trail<'_, 'a>,
    ctx: &mut ValidationContext,
    sink: &mut ErrorSink<'a>,
) -> Result<(), Stop>
    ensures { Walks result sink.old sink.new ctx.old ctx.new
        (λ u. of_matching R.answers R.costs N.means N.first N.report u patterns.now.items
        name.now (view value.now) (path_at trail.now)) }
{
    for entry in patterns {
        walk_if_matched(&entry.0, &entry.1, name, value, trail, ctx, sink)?;
    }
    Ok(())
}

/// Walks over the members whose names the pattern matches.
fn walk_matched<'a, R: RegexEngine, N: Walk<'a>>(
    pattern: &'a CompiledPattern<R>,
    subschema: &'a N,
    members: &'a Map<String, Value>,
    trail: &Trail<'_, 'a>,
    ctx: &mut ValidationContext,
    sink: &mut ErrorSink<'a>,
) -> Result<(), Stop>
    ensures { Walks result sink.old sink.new ctx.old ctx.new
        (λ u. of_matched R.answers R.costs N.means N.first N.report u pattern.now
        subschema.now (object_of members.now.entries) (path_at trail.now)) }
{
    for (name, value) in members {
        walk_if_matched(pattern, subschema, name.as_str(), value, trail, ctx, sink)?;
    }
    Ok(())
}

/// Walks over a member, if the pattern matches its name.
fn walk_if_matched<'a, R: RegexEngine, N: Walk<'a>>(
    pattern: &'a CompiledPattern<R>,
    subschema: &'a N,
    name: &'a str,
    value: &'a Value,
    trail: &Trail<'_, 'a>,
    ctx: &mut ValidationContext,
    sink: &mut ErrorSink<'a>,
) -> Result<(), Stop>
    ensures { Walks result sink.old sink.new ctx.old ctx.new
        (λ u. of_match R.answers R.costs N.means N.first N.report u pattern.now
        subschema.now name.now (view value.now) (path_at trail.now)) }
{
    if !matches(pattern, name, ctx) {
        return Ok(());
    }
    walk_below(subschema, name, value, trail, ctx, sink)
}
