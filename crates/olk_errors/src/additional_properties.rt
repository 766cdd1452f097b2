//! `additionalProperties`, and what it takes over: the errors.
ghost use Rattle.std.specs.Prelude.{◌≡◌, Bool, map, is_none, option_copied, option_map, option_to_list, IfOk};
ghost use Rattle.serde_json.specs.View.{view};
ghost use Rattle.olk_base.specs.Nodes.{subject_data};
ghost use Rattle.olk_base.specs.Compiled.{pattern_answers};
ghost use Rattle.olk_spec.specs.World.{reads_as};
ghost use Rattle.olk_tree.specs.Additional.{known_or, sides_seen};
ghost use Rattle.olk_tree.specs.Tables.{known_says};
ghost use Rattle.olk_tree.specs.Visited.{object_of};
ghost use Rattle.olk_reports.specs.Paths.{one_below, path_at};
ghost use Rattle.olk_check.specs.Asks.{IsAnswer};
ghost use Rattle.olk_errors.specs.Outcomes.{of_branches, of_values, of_no_members, declared_nodes, asked_at, unexpected_at, if_matched, of_unexpected, unexpected_fault, of_asked_members};
ghost use Rattle.olk_errors.specs.Sinks.{Walks, Ends, EndsAlone, Takes};

use crate::properties::walk_below;
use crate::required::report_if_missing;
use crate::{ErrorSink, Stop, Walk};
use olk_base::{CompiledPattern, NoRegex, RegexEngine, Subject, ValidationContext, append};
use olk_check::matches_unless_known;
use olk_meaning::law_of_names;
use olk_reports::{Location, Trail, ValidationErrorKind};
use olk_tree::additional_properties::{
    AdditionalProperties, AdditionalPropertiesFalse, AdditionalPropertiesNotEmpty,
    AdditionalPropertiesNotEmptyFalse, AdditionalPropertiesNotEmptyFalseWithRequired1,
    AdditionalPropertiesWithPatterns, AdditionalPropertiesWithPatternsFalse,
    AdditionalPropertiesWithPatternsNotEmpty, AdditionalPropertiesWithPatternsNotEmptyFalse,
    Restriction, SidesOf,
};
use serde_json::{Map, Value};

impl<'a, N: Walk<'a>> Walk<'a> for AdditionalProperties<N> {
    #[inline(never)]
    fn walk(
        &'a self,
        node: Subject<'_, 'a>,
        trail: &Trail<'_, 'a>,
        ctx: &mut ValidationContext,
        sink: &mut ErrorSink<'a>,
    ) -> Result<(), Stop> {
        walk_values(&self.node, node, trail, ctx, sink)
    }
}

impl<'a> Walk<'a> for AdditionalPropertiesFalse {
    #[inline(never)]
    fn walk(
        &'a self,
        node: Subject<'_, 'a>,
        trail: &Trail<'_, 'a>,
        _ctx: &mut ValidationContext,
        sink: &mut ErrorSink<'a>,
    ) -> Result<(), Stop> {
        report_first(&self.location, node, trail, sink)
    }
}

impl<'a, N: Walk<'a>> Walk<'a> for AdditionalPropertiesNotEmpty<N> {
    #[inline(never)]
    fn walk(
        &'a self,
        node: Subject<'_, 'a>,
        trail: &Trail<'_, 'a>,
        ctx: &mut ValidationContext,
        sink: &mut ErrorSink<'a>,
    ) -> Result<(), Stop> {
        let sides = self.sides::<NoRegex>();
        walk_sides(sides, &self.location, node, trail, ctx, sink)
    }
}

impl<'a, N: Walk<'a>> Walk<'a> for AdditionalPropertiesNotEmptyFalse<N> {
    #[inline(never)]
    fn walk(
        &'a self,
        node: Subject<'_, 'a>,
        trail: &Trail<'_, 'a>,
        ctx: &mut ValidationContext,
        sink: &mut ErrorSink<'a>,
    ) -> Result<(), Stop> {
        let sides = self.sides::<NoRegex>();
        walk_sides(sides, &self.location, node, trail, ctx, sink)
    }
}

/// The name that is wanted comes last.
impl<'a, N: Walk<'a>> Walk<'a> for AdditionalPropertiesNotEmptyFalseWithRequired1<N> {
    #[inline(never)]
    fn walk(
        &'a self,
        node: Subject<'_, 'a>,
        trail: &Trail<'_, 'a>,
        ctx: &mut ValidationContext,
        sink: &mut ErrorSink<'a>,
    ) -> Result<(), Stop> {
        let Some(members) = node.as_object() else {
            return Ok(());
        };
        let sides = self.sides::<NoRegex>();
        walk_members(sides, &self.location, members, node, trail, ctx, sink)?;
        let (name, place) = (self.required.as_str(), &self.required_location);
        report_if_missing(name, place, members, node, trail, sink)
    }
}

impl<'a, R: RegexEngine, N: Walk<'a>> Walk<'a> for AdditionalPropertiesWithPatterns<R, N> {
    #[inline(never)]
    fn walk(
        &'a self,
        node: Subject<'_, 'a>,
        trail: &Trail<'_, 'a>,
        ctx: &mut ValidationContext,
        sink: &mut ErrorSink<'a>,
    ) -> Result<(), Stop> {
        walk_sides(self.sides(), &self.location, node, trail, ctx, sink)
    }
}

impl<'a, R: RegexEngine, N: Walk<'a>> Walk<'a> for AdditionalPropertiesWithPatternsFalse<R, N> {
    #[inline(never)]
    fn walk(
        &'a self,
        node: Subject<'_, 'a>,
        trail: &Trail<'_, 'a>,
        ctx: &mut ValidationContext,
        sink: &mut ErrorSink<'a>,
    ) -> Result<(), Stop> {
        walk_sides(self.sides(), &self.location, node, trail, ctx, sink)
    }
}

impl<'a, R: RegexEngine, N: Walk<'a>> Walk<'a> for AdditionalPropertiesWithPatternsNotEmpty<R, N> {
    #[inline(never)]
    fn walk(
        &'a self,
        node: Subject<'_, 'a>,
        trail: &Trail<'_, 'a>,
        ctx: &mut ValidationContext,
        sink: &mut ErrorSink<'a>,
    ) -> Result<(), Stop> {
        walk_sides(self.sides(), &self.location, node, trail, ctx, sink)
    }
}

impl<'a, R: RegexEngine, N: Walk<'a>> Walk<'a>
    for AdditionalPropertiesWithPatternsNotEmptyFalse<R, N> {
    #[inline(never)]
    fn walk(
        &'a self,
        node: Subject<'_, 'a>,
        trail: &Trail<'_, 'a>,
        ctx: &mut ValidationContext,
        sink: &mut ErrorSink<'a>,
    ) -> Result<(), Stop> {
        walk_sides(self.sides(), &self.location, node, trail, ctx, sink)
    }
}

impl<'a, R: RegexEngine, N: Walk<'a>> Walk<'a> for Restriction<R, N> {
    #[inline(always)]
    fn walk(
        &'a self,
        node: Subject<'_, 'a>,
        trail: &Trail<'_, 'a>,
        ctx: &mut ValidationContext,
        sink: &mut ErrorSink<'a>,
    ) -> Result<(), Stop> {
        match self {
            Restriction::Schema(it) => it.walk(node, trail, ctx, sink),
            Restriction::False(it) => it.walk(node, trail, ctx, sink),
            Restriction::NotEmpty(it) => it.walk(node, trail, ctx, sink),
            Restriction::NotEmptyFalse(it) => it.walk(node, trail, ctx, sink),
            Restriction::NotEmptyFalseWithRequired1(it) => it.walk(node, trail, ctx, sink),
            Restriction::WithPatterns(it) => it.walk(node, trail, ctx, sink),
            Restriction::WithPatternsFalse(it) => it.walk(node, trail, ctx, sink),
            Restriction::WithPatternsNotEmpty(it) => it.walk(node, trail, ctx, sink),
            Restriction::WithPatternsNotEmptyFalse(it) => it.walk(node, trail, ctx, sink),
        }
    }
}

/// Walks over the value of each member with the same.
#[inline(always)]
fn walk_values<'a, N: Walk<'a>>(
    subschema: &'a N,
    node: Subject<'_, 'a>,
    trail: &Trail<'_, 'a>,
    ctx: &mut ValidationContext,
    sink: &mut ErrorSink<'a>,
) -> Result<(), Stop>
    ensures { Walks result sink.old sink.new ctx.old ctx.new
        (λ u. of_values N.means N.first N.report u subschema.now
        (subject_data node.entry) (path_at trail.now)) }
{
    let Some(members) = node.as_object() else {
        return Ok(());
    };
    for (name, value) in members {
        walk_below(subschema, name.as_str(), value, trail, ctx, sink)?;
    }
    Ok(())
}

/// The error of a false schema over the first member's value, if there is one.
#[inline(always)]
fn report_first<'a>(
    location: &'a Location,
    node: Subject<'_, 'a>,
    trail: &Trail<'_, 'a>,
    sink: &mut ErrorSink<'a>,
) -> Result<(), Stop>
    ensures { Ends result sink.old sink.new
        (of_no_members (subject_data node.entry) location.now (path_at trail.now)) }
{
    let Some(members) = node.as_object() else {
        return Ok(());
    };
    match members.iter().next() {
        Some((_, value)) => {
            let kind = ValidationErrorKind::FalseSchema;
            sink.report(kind, Subject::Value(value), trail, location.as_str())
        }
        None => Ok(()),
    }
}

/// Walks over the members, if there are some, with what speaks of each.
#[inline(always)]
fn walk_sides<'a, R: RegexEngine, N: Walk<'a>>(
    sides: SidesOf<'a, R, N>,
    location: &'a Location,
    node: Subject<'_, 'a>,
    trail: &Trail<'_, 'a>,
    ctx: &mut ValidationContext,
    sink: &mut ErrorSink<'a>,
) -> Result<(), Stop>
    ensures { Walks result sink.old sink.new ctx.old ctx.new
        (λ u. of_asked_members R.answers R.costs N.means N.first N.report u
        (sides_seen sides.entry) (subject_data node.entry) location.now (path_at trail.now)) }
{
    match node.as_object() {
        Some(members) => walk_members(sides, location, members, node, trail, ctx, sink),
        None => Ok(()),
    }
}

/// Goes member by member: what is declared at its name, the patterns that match it in their order,
/// and where there is neither the rest. Without a subschema for the rest one error tells of all
/// members that are left to it, after the errors of the members; where one error is enough, the
/// walk ends with the first of them.
#[inline(always)]
fn walk_members<'a, R: RegexEngine, N: Walk<'a>>(
    sides: SidesOf<'a, R, N>,
    location: &'a Location,
    members: &'a Map<String, Value>,
    object: Subject<'_, 'a>,
    trail: &Trail<'_, 'a>,
    ctx: &mut ValidationContext,
    sink: &mut ErrorSink<'a>,
) -> Result<(), Stop>
    requires { subject_data object ≡ object_of members.now.entries }
    ensures { Walks result sink.old sink.new ctx.old ctx.new
        (λ u. of_asked_members R.answers R.costs N.means N.first N.report u
        (sides_seen sides.entry) (subject_data object.entry) location.now (path_at trail.now)) }
{
    law_of_names(members);
    let mut unexpected: Vec<&'a str> = Vec::new(sink.alloc());
    let mut hint = 0;
    for (name, value) in members {
        let name = name.as_str();
        let (next, declared) = sides.declared_from(hint, name);
        hint = next;
        if !walk_asked(sides, declared, name, value, trail, ctx, sink)? {
            continue;
        }
        append(&mut unexpected, name)?;
        if sink.wants_one() {
            return report_unexpected(unexpected, location, object, trail, sink);
        }
    }
    report_unexpected(unexpected, location, object, trail, sink)
}

/// Walks over a member with all that is asked of it; and whether that is nothing, so that it is
/// not expected.
#[inline(always)]
fn walk_asked<'a, R: RegexEngine, N: Walk<'a>>(
    sides: SidesOf<'a, R, N>,
    declared: Option<(usize, &'a N)>,
    name: &'a str,
    value: &'a Value,
    trail: &Trail<'_, 'a>,
    ctx: &mut ValidationContext,
    sink: &mut ErrorSink<'a>,
) -> Result<bool, Stop>
    ensures unexpected { IfOk result (λ b. (u : Bool) → IsAnswer ctx.old ctx.new u
        → b ≡ unexpected_at R.answers u
        (sides_seen sides.entry) (option_map (λ f. (f.0, f.1.now)) declared.entry) name.now) }
    ensures walk { Walks result sink.old sink.new ctx.old ctx.new
        (λ u. of_branches N.means N.first N.report u (asked_at R.answers u
        (sides_seen sides.entry) (option_map (λ f. (f.0, f.1.now)) declared.entry) name.now)
        (view value.now) (one_below (path_at trail.now) name.now)) }
{
    walk_declared(declared, name, value, trail, ctx, sink)?;
    let mut spoken = declared.is_some();
    for (index, entry) in sides.patterns.iter().enumerate() {
        let known = sides.known(declared, index);
        let is_match = walk_if_matched(known, entry, name, value, trail, ctx, sink)?;
        spoken |= is_match;
    }
    if spoken {
        return Ok(false);
    }
    walk_rest(sides.rest, name, value, trail, ctx, sink)
}

/// Walks over a member with what is declared at its name.
#[inline(always)]
fn walk_declared<'a, N: Walk<'a>>(
    declared: Option<(usize, &'a N)>,
    name: &'a str,
    value: &'a Value,
    trail: &Trail<'_, 'a>,
    ctx: &mut ValidationContext,
    sink: &mut ErrorSink<'a>,
) -> Result<(), Stop>
    ensures { Walks result sink.old sink.new ctx.old ctx.new
        (λ u. of_branches N.means N.first N.report u
        (declared_nodes (option_map (λ f. (f.0, f.1.now)) declared.entry)) (view value.now)
        (one_below (path_at trail.now) name.now)) }
{
    match declared {
        Some((_, subschema)) => walk_below(subschema, name, value, trail, ctx, sink),
        None => Ok(()),
    }
}

/// Walks over a member with what stands at a pattern, if that matches its name; and whether it
/// does.
#[inline(always)]
fn walk_if_matched<'a, R: RegexEngine, N: Walk<'a>>(
    known: Option<bool>,
    entry: &'a (CompiledPattern<R>, N),
    name: &'a str,
    value: &'a Value,
    trail: &Trail<'_, 'a>,
    ctx: &mut ValidationContext,
    sink: &mut ErrorSink<'a>,
) -> Result<bool, Stop>
    ensures matches { IfOk result (λ b. (u : Bool) → IsAnswer ctx.old ctx.new u
        → b ≡ reads_as u
        (known_or (known_says known) (pattern_answers R.answers entry.now.0 name.now))) }
    ensures walk { Walks result sink.old sink.new ctx.old ctx.new
        (λ u. of_branches N.means N.first N.report u (if_matched R.answers u
        (known_says known) entry.now.0 entry.now.1 name.now) (view value.now)
        (one_below (path_at trail.now) name.now)) }
{
    if !matches_unless_known(known, &entry.0, name, ctx) {
        return Ok(false);
    }
    walk_below(&entry.1, name, value, trail, ctx, sink)?;
    Ok(true)
}

/// Walks over a member that nothing else speaks of; and whether it is not expected.
#[inline(always)]
fn walk_rest<'a, N: Walk<'a>>(
    rest: Option<&'a N>,
    name: &'a str,
    value: &'a Value,
    trail: &Trail<'_, 'a>,
    ctx: &mut ValidationContext,
    sink: &mut ErrorSink<'a>,
) -> Result<bool, Stop>
    ensures unexpected { IfOk result (λ b. b ≡ is_none (option_copied rest.entry)) }
    ensures walk { Walks result sink.old sink.new ctx.old ctx.new
        (λ u. of_branches N.means N.first N.report u
        (option_to_list (option_copied rest.entry)) (view value.now)
        (one_below (path_at trail.now) name.now)) }
{
    match rest {
        Some(subschema) => {
            walk_below(subschema, name, value, trail, ctx, sink)?;
            Ok(false)
        }
        None => Ok(true),
    }
}

/// One error of the names that are not expected, if there are some.
#[inline(always)]
fn report_unexpected<'a>(
    unexpected: Vec<&'a str>,
    location: &'a Location,
    object: Subject<'_, 'a>,
    trail: &Trail<'_, 'a>,
    sink: &mut ErrorSink<'a>,
) -> Result<(), Stop>
    ensures { EndsAlone result sink.old sink.new
        (of_unexpected (map (λ n. n.now) unexpected.entry.items) (subject_data object.entry)
        location.now (path_at trail.now)) }
{
    if unexpected.is_empty() {
        return Ok(());
    }
    report_names(unexpected, location, object, trail, sink)
}

/// The error of these names, out of line.
#[inline(never)]
fn report_names<'a>(
    unexpected: Vec<&'a str>,
    location: &'a Location,
    object: Subject<'_, 'a>,
    trail: &Trail<'_, 'a>,
    sink: &mut ErrorSink<'a>,
) -> Result<(), Stop>
    ensures { Takes result sink.old sink.new
        (unexpected_fault (map (λ n. n.now) unexpected.entry.items) (subject_data object.entry)
        location.now (path_at trail.now)) }
{
    let kind = ValidationErrorKind::AdditionalProperties { unexpected };
    sink.report(kind, object, trail, location.as_str())
}
