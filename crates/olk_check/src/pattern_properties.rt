//! `patternProperties`: its verdict.
ghost use Rattle.std.specs.Prelude.{◌≡◌, true, bytes_eq, nat_eq};
ghost use Rattle.std.specs.List.{ends_with};
ghost use Rattle.serde_json.specs.View.{view};
ghost use Rattle.olk_spec.specs.Schemas.{at};
ghost use Rattle.olk_tree.specs.Questions.{always, conditional, every};
ghost use Rattle.olk_tree.specs.Matched.{match_question};
ghost use Rattle.olk_tree.specs.PatternProperties.{matched_mean, patterns_mean};
ghost use Rattle.olk_tree.specs.Visited.{object_of};
ghost use Rattle.olk_check.specs.Asks.{Asks};

use crate::Check;
use olk_base::{Asked, CompiledPattern, PropertyPattern, RegexEngine, ValidationContext};
use olk_meaning::{law_of_names, member};
use olk_tree::pattern_properties::{PatternProperties, SingleValuePatternProperties};
use serde_json::{Map, Value};

impl<R: RegexEngine, N: Check> Check for PatternProperties<R, N> {
    #[inline(never)]
    fn check<A: Asked>(&self, asked: A, ctx: &mut ValidationContext) -> bool {
        match asked.as_object() {
            Some(members) => patterns_accept(&self.patterns, members, ctx),
            None => true,
        }
    }
}

impl<R: RegexEngine, N: Check> Check for SingleValuePatternProperties<R, N> {
    #[inline(never)]
    fn check<A: Asked>(&self, asked: A, ctx: &mut ValidationContext) -> bool {
        match asked.as_object() {
            Some(members) => matched_accepted(&self.regex, &self.node, members, ctx),
            None => true,
        }
    }
}

/// Whether the pattern matches the name, with the context's answer for a match that is left
/// unfinished (JSON Schema 2020-12 Core, 10.3.2.2).
///
/// Takes no memory. The context keeps its answer; of the counts only those of matchers that were
/// asked and of matches that were left unfinished rise, and none where the pattern stands for a
/// test.
#[inline(always)]
pub fn matches<R: RegexEngine>(
    pattern: &CompiledPattern<R>,
    name: &str,
    ctx: &mut ValidationContext,
) -> bool
    ensures { Asks ctx.old ctx.new
        (match_question R.answers R.costs pattern.now name.now) result }
{
    match pattern {
        CompiledPattern::Exact(exact) => is_exactly(exact.as_str(), name),
        CompiledPattern::Suffix(suffix) => is_end_of(suffix.as_str(), name),
        _ => pattern.is_match_in(name, ctx),
    }
}

/// Whether the text ends the name.
#[inline(never)]
fn is_end_of(suffix: &str, name: &str) -> bool
    ensures { result ≡ ends_with nat_eq name.now suffix.now }
{
    name.as_bytes().ends_with(suffix.as_bytes())
}

/// Most texts differ in their lengths, and only others are compared by a call.
#[inline(always)]
fn is_exactly(exact: &str, name: &str) -> bool
    ensures { result ≡ bytes_eq exact.now name.now }
{
    exact.len() == name.len() && bytes_are_equal(exact, name)
}

#[inline(never)]
fn bytes_are_equal(exact: &str, name: &str) -> bool
    ensures { result ≡ bytes_eq exact.now name.now }
{
    exact == name
}

/// Whether each node accepts the members whose names its pattern matches.
fn patterns_accept<R: RegexEngine, N: Check>(
    patterns: &Vec<(CompiledPattern<R>, N)>,
    members: &Map<String, Value>,
    ctx: &mut ValidationContext,
) -> bool
    ensures { Asks ctx.old ctx.new (patterns_mean R.answers R.costs N.means
        patterns.now.items (object_of members.now.entries)) result }
{
    for entry in patterns {
        if !matched_accepted(&entry.0, &entry.1, members, ctx) {
            return false;
        }
    }
    true
}

/// Whether the node accepts each member whose name the pattern matches. An exact text is looked up.
fn matched_accepted<R: RegexEngine, N: Check>(
    pattern: &CompiledPattern<R>,
    subschema: &N,
    members: &Map<String, Value>,
    ctx: &mut ValidationContext,
) -> bool
    ensures { Asks ctx.old ctx.new (matched_mean R.answers R.costs N.means
        pattern.now subschema.now (object_of members.now.entries)) result }
{
    match pattern {
        CompiledPattern::Exact(name) => {
            law_of_names(members);
            named_accepted(name.as_str(), subschema, members, ctx)
        }
        _ => each_accepted(pattern, subschema, members, ctx),
    }
}

/// Whether the node accepts the member at the name, if there is one.
fn named_accepted<N: Check>(
    name: &str,
    subschema: &N,
    members: &Map<String, Value>,
    ctx: &mut ValidationContext,
) -> bool
    ensures { Asks ctx.old ctx.new (every (N.means subschema.now)
        (at name.now (object_of members.now.entries))) result }
{
    match member(members, name) {
        Some(value) => subschema.check(value, ctx),
        None => true,
    }
}

/// The verdict of `matched_accepted`, found member by member.
fn each_accepted<R: RegexEngine, N: Check>(
    pattern: &CompiledPattern<R>,
    subschema: &N,
    members: &Map<String, Value>,
    ctx: &mut ValidationContext,
) -> bool
    ensures { Asks ctx.old ctx.new (matched_mean R.answers R.costs N.means
        pattern.now subschema.now (object_of members.now.entries)) result }
{
    for (name, value) in members {
        if !accepted_if_matched(pattern, subschema, name.as_str(), value, ctx) {
            return false;
        }
    }
    true
}

/// Whether the node accepts the value, if the pattern matches its name.
#[inline(always)]
#[tactic(auto, using(crate::proofs::Walks::conditional_answers))]
fn accepted_if_matched<R: RegexEngine, N: Check>(
    pattern: &CompiledPattern<R>,
    subschema: &N,
    name: &str,
    value: &Value,
    ctx: &mut ValidationContext,
) -> bool
    ensures { Asks ctx.old ctx.new (conditional
        (match_question R.answers R.costs pattern.now name.now)
        (N.means subschema.now (view value.now)) (always true)) result }
{
    !matches(pattern, name, ctx) || subschema.check(value, ctx)
}
