//! `additionalProperties`, and what it takes over: the verdict.
ghost use Rattle.std.specs.Prelude.{◌≡◌, true, [], ◌∷◌, None, option_map, option_copied, is_some, string_bytes};
ghost use Rattle.serde_json.specs.View.{view};
ghost use Rattle.olk_tree.specs.Matched.{match_question};
ghost use Rattle.olk_tree.specs.Additional.{known_or_asked, declared_means, patterns_mean_from, rest_means, member_means_at, means_in_turn, additional_means, sides_of, sides_seen};
ghost use Rattle.olk_tree.specs.Holdings.{held};
ghost use Rattle.olk_tree.specs.AdditionalProperties.{additional_properties_answers};
ghost use Rattle.olk_spec.specs.Names.{is_empty};
ghost use Rattle.olk_spec.specs.Accepts.{missing};
ghost use Rattle.olk_spec.specs.Schemas.{members};
ghost use Rattle.olk_tree.specs.Questions.{always, both, every};
ghost use Rattle.olk_tree.specs.Maps.{mapped};
ghost use Rattle.olk_tree.specs.Tables.{known_says, table_says};
ghost use Rattle.olk_tree.specs.Visited.{object_of};
ghost use Rattle.olk_check.specs.Asks.{Asks};
ghost use Rattle.olk_check.specs.Together.{AsksOne};
ghost use Rattle.olk_check.specs.Unpatterned.{names_mean, values_mean, alone_mean, declared_mean, declared_or_rest, held_means};

use crate::Check;
use crate::accepted::Accepted;
use crate::pattern_properties::matches;
use crate::required::is_met;
use arrayvec::ArrayVec;
use olk_base::{Asked, CompiledPattern, RegexEngine, ValidationContext};
use olk_meaning::law_of_names;
use olk_tree::additional_properties::{
    AdditionalProperties, AdditionalPropertiesFalse, AdditionalPropertiesNotEmpty,
    AdditionalPropertiesNotEmptyFalse, AdditionalPropertiesNotEmptyFalseWithRequired1,
    AdditionalPropertiesWithPatterns, AdditionalPropertiesWithPatternsFalse,
    AdditionalPropertiesWithPatternsNotEmpty, AdditionalPropertiesWithPatternsNotEmptyFalse,
    Restriction, SidesOf,
};
use olk_tree::entries::Entries;
use olk_tree::map_ref::MapRef;
use olk_tree::properties_map::PropertiesMap;
use serde_json::{Map, Value};

/// So many arrays and objects wait until the other members were asked.
pub const DEFERRED_MEMBERS: usize = 4;

/// Whether the pattern matches the name: what is known of it, and where nothing is, what it says
/// (JSON Schema 2020-12 Core, 10.3.2.2).
///
/// Takes no memory. The context keeps its answer; where something is known, no count rises.
#[inline(always)]
pub fn matches_unless_known<R: RegexEngine>(
    known: Option<bool>,
    pattern: &CompiledPattern<R>,
    name: &str,
    ctx: &mut ValidationContext,
) -> bool
    ensures { Asks ctx.old ctx.new (known_or_asked (known_says known)
        (match_question R.answers R.costs pattern.now name.now)) result }
{
    match known {
        Some(is_match) => is_match,
        None => matches(pattern, name, ctx),
    }
}

impl<N: Check> Check for AdditionalProperties<N> {
    #[inline(never)]
    fn check<A: Asked>(&self, asked: A, ctx: &mut ValidationContext) -> bool {
        values_accept(&self.node, asked, ctx)
    }
}

impl Check for AdditionalPropertiesFalse {
    #[inline(never)]
    fn check<A: Asked>(&self, asked: A, _ctx: &mut ValidationContext) -> bool {
        is_no_member(asked)
    }
}

impl<N: Check> Check for AdditionalPropertiesNotEmpty<N> {
    #[inline(never)]
    fn check<A: Asked>(&self, asked: A, ctx: &mut ValidationContext) -> bool {
        names_accept(&self.properties, Some(&self.node), asked, ctx).is_some()
    }
}

impl<N: Check> Check for AdditionalPropertiesNotEmptyFalse<N> {
    #[inline(always)]
    fn check<A: Asked>(&self, asked: A, ctx: &mut ValidationContext) -> bool {
        names_accept(&self.properties, None, asked, ctx).is_some()
    }
}

impl<N: Check> Check for AdditionalPropertiesNotEmptyFalseWithRequired1<N> {
    #[inline(always)]
    fn check<A: Asked>(&self, asked: A, ctx: &mut ValidationContext) -> bool {
        names_accept_with(&self.properties, &self.required, asked, ctx).is_some()
    }
}

impl<R: RegexEngine, N: Check> Check for AdditionalPropertiesWithPatterns<R, N> {
    #[inline(never)]
    fn check<A: Asked>(&self, asked: A, ctx: &mut ValidationContext) -> bool {
        sides_accept(self.sides(), asked, ctx)
    }
}

impl<R: RegexEngine, N: Check> Check for AdditionalPropertiesWithPatternsFalse<R, N> {
    #[inline(never)]
    fn check<A: Asked>(&self, asked: A, ctx: &mut ValidationContext) -> bool {
        sides_accept(self.sides(), asked, ctx)
    }
}

impl<R: RegexEngine, N: Check> Check for AdditionalPropertiesWithPatternsNotEmpty<R, N> {
    #[inline(never)]
    fn check<A: Asked>(&self, asked: A, ctx: &mut ValidationContext) -> bool {
        sides_accept(self.sides(), asked, ctx)
    }
}

impl<R: RegexEngine, N: Check> Check for AdditionalPropertiesWithPatternsNotEmptyFalse<R, N> {
    #[inline(never)]
    fn check<A: Asked>(&self, asked: A, ctx: &mut ValidationContext) -> bool {
        sides_accept(self.sides(), asked, ctx)
    }
}

impl<R: RegexEngine, N: Check> Check for Restriction<R, N> {
    #[inline(always)]
    fn check<A: Asked>(&self, asked: A, ctx: &mut ValidationContext) -> bool {
        match self {
            Restriction::Schema(it) => it.check(asked, ctx),
            Restriction::False(it) => it.check(asked, ctx),
            Restriction::NotEmpty(it) => it.check(asked, ctx),
            Restriction::NotEmptyFalse(it) => it.check(asked, ctx),
            Restriction::NotEmptyFalseWithRequired1(it) => it.check(asked, ctx),
            Restriction::WithPatterns(it) => it.check(asked, ctx),
            Restriction::WithPatternsFalse(it) => it.check(asked, ctx),
            Restriction::WithPatternsNotEmpty(it) => it.check(asked, ctx),
            Restriction::WithPatternsNotEmptyFalse(it) => it.check(asked, ctx),
        }
    }
}

/// Whether the value has no members.
fn is_no_member<A: Asked>(asked: A) -> bool
    ensures { result ≡ is_empty (members (A.stands_for asked)) }
{
    match asked.as_object() {
        Some(members) => members.len() == 0,
        None => true,
    }
}

/// Whether the value of each member is accepted by the same.
#[inline(never)]
fn values_accept<A: Asked, N: Check>(subschema: &N, asked: A, ctx: &mut ValidationContext) -> bool
    ensures { Asks ctx.old ctx.new (both (alone_mean N.means subschema.now (A.stands_for asked))
        (always true)) result }
{
    match asked.as_object() {
        Some(members) => {
            law_of_names(members);
            each_value_accepted(subschema, members, ctx)
        }
        None => true,
    }
}

/// Whether each member is accepted by what is declared at its name, and any other by the rest;
/// without that no other member is accepted.
#[inline(always)]
fn names_accept<'a, A: Asked, N: Check>(
    properties: &'a PropertiesMap<N>,
    rest: Option<&'a N>,
    asked: A,
    ctx: &mut ValidationContext,
) -> Accepted
    ensures { AsksOne ctx.old ctx.new (both (declared_mean N.means properties.now
        (option_copied rest.entry) (A.stands_for asked)) (always true)) result }
{
    match asked.as_object() {
        Some(members) => {
            law_of_names(members);
            declared_accept(properties.as_map(), members, rest, ctx)
        }
        None => Accepted::One,
    }
}

/// Whether each member is declared, and accepted by what is declared at its name, and there is a
/// member at the required name.
#[inline(always)]
fn names_accept_with<A: Asked, N: Check>(
    properties: &PropertiesMap<N>,
    required: &String,
    asked: A,
    ctx: &mut ValidationContext,
) -> Accepted
    ensures { AsksOne ctx.old ctx.new (both (declared_mean N.means properties.now None
        (A.stands_for asked)) (always (is_empty (missing (string_bytes required.now ∷ [])
        (A.stands_for asked))))) result }
{
    match asked.as_object() {
        Some(members) => {
            law_of_names(members);
            declared_accept_with(properties.as_map(), members, required.as_str(), ctx)
        }
        None => Accepted::One,
    }
}

/// Whether each member is accepted by what speaks of it.
#[inline(always)]
fn sides_accept<A: Asked, R: RegexEngine, N: Check>(
    sides: SidesOf<'_, R, N>,
    asked: A,
    ctx: &mut ValidationContext,
) -> bool
    ensures { Asks ctx.old ctx.new (both (additional_means R.answers R.costs N.means
        (sides_seen sides.entry) (A.stands_for asked)) (always true)) result }
{
    match asked.as_object() {
        Some(members) => {
            law_of_names(members);
            each_accepted(sides, members, ctx)
        }
        None => true,
    }
}

/// Whether the value of each member is accepted by the same.
#[inline(never)]
fn each_value_accepted<N: Check>(
    subschema: &N,
    members: &Map<String, Value>,
    ctx: &mut ValidationContext,
) -> bool
    ensures { Asks ctx.old ctx.new (values_mean N.means
        subschema.now (object_of members.now.entries)) result }
{
    for (_, value) in members {
        if !subschema.check(value, ctx) {
            return false;
        }
    }
    true
}

/// The verdict of `are_properties_valid`.
#[inline(always)]
fn declared_accept<'a, N: Check>(
    properties: MapRef<'a, N>,
    members: &Map<String, Value>,
    rest: Option<&'a N>,
    ctx: &mut ValidationContext,
) -> Accepted
    ensures { AsksOne ctx.old ctx.new (names_mean N.means properties.entry
        (option_copied rest.entry) (object_of members.now.entries)) result }
{
    match rest {
        None => declared_alone(properties, members, ctx),
        Some(_) => Accepted::one_if(each_declared_or_rest(
            properties.entries(),
            members,
            rest,
            ctx,
        )),
    }
}

/// The verdict of `declared_accept` without a rest. Where there are more members than declared
/// names, one of them is not declared.
#[inline(always)]
fn declared_alone<N: Check>(
    properties: MapRef<'_, N>,
    members: &Map<String, Value>,
    ctx: &mut ValidationContext,
) -> Accepted
    ensures { AsksOne ctx.old ctx.new (names_mean N.means properties.entry
        None (object_of members.now.entries)) result }
{
    if members.len() > properties.len() {
        return Accepted::None;
    }
    each_declared(properties, members, ctx)
}

/// The verdict of `declared_accept` without a rest, and whether there is a member at the required
/// name.
#[inline(always)]
fn declared_accept_with<N: Check>(
    properties: MapRef<'_, N>,
    members: &Map<String, Value>,
    required: &str,
    ctx: &mut ValidationContext,
) -> Accepted
    ensures { AsksOne ctx.old ctx.new (both (names_mean N.means properties.entry
        None (object_of members.now.entries)) (always (is_empty (missing
        (required.now ∷ []) (object_of members.now.entries))))) result }
{
    if members.len() > properties.len() {
        return Accepted::None;
    }
    all_declared(properties, members, required, ctx)
}

/// Whether each member is declared, and accepted by what is declared at its name.
#[inline(never)]
fn each_declared<N: Check>(
    properties: MapRef<'_, N>,
    members: &Map<String, Value>,
    ctx: &mut ValidationContext,
) -> Accepted
    ensures { AsksOne ctx.old ctx.new (names_mean N.means
        properties.entry
        None (object_of members.now.entries)) result }
{
    Accepted::one_if(each_declared_or_rest(properties.entries(), members, None, ctx))
}

/// Whether each member is declared, and accepted by what is declared at its name, and there is a
/// member at the required name.
#[inline(never)]
fn all_declared<N: Check>(
    properties: MapRef<'_, N>,
    members: &Map<String, Value>,
    required: &str,
    ctx: &mut ValidationContext,
) -> Accepted
    ensures { AsksOne ctx.old ctx.new (both (names_mean N.means
        properties.entry
        None (object_of members.now.entries)) (always (is_empty (missing
        (required.now ∷ []) (object_of members.now.entries))))) result }
{
    Accepted::one_if(each_declared_with(properties.entries(), members, required, ctx))
}

/// Whether each member is accepted by what is declared at its name, and any other by `additional`;
/// without that no other member is accepted (JSON Schema 2020-12 Core, 10.3.2.3).
///
/// Takes no memory. The context keeps its answer; of the counts only those of matchers that were
/// asked and of matches that were left unfinished rise.
pub fn are_properties_valid<N: Check>(
    properties: &PropertiesMap<N>,
    members: &Map<String, Value>,
    additional: Option<&N>,
    ctx: &mut ValidationContext,
) -> bool
    ensures { Asks ctx.old ctx.new (names_mean N.means
        (mapped properties.now)
        (option_copied additional.entry) (object_of members.now.entries)) result }
{
    each_declared_or_rest(properties.entries(), members, additional, ctx)
}

/// The verdict of `are_properties_valid`; inlined, so that a walk for which nothing else is
/// expected doesn't look for it.
#[inline(always)]
fn each_declared_or_rest<'a, N: Check>(
    properties: Entries<'a, N>,
    members: &Map<String, Value>,
    additional: Option<&'a N>,
    ctx: &mut ValidationContext,
) -> bool
    ensures { Asks ctx.old ctx.new (names_mean N.means
        properties.entry
        (option_copied additional.entry) (object_of members.now.entries)) result }
{
    let mut hint = 0;
    for (name, value) in members {
        let (next, declared) = properties.node_from(hint, name.as_str());
        hint = next;
        if !is_accepted(declared, additional, value, ctx) {
            return false;
        }
    }
    true
}

/// Whether a member is accepted by what is declared at its name, or else by the rest.
#[inline(always)]
fn is_accepted<N: Check>(
    declared: Option<&N>,
    additional: Option<&N>,
    value: &Value,
    ctx: &mut ValidationContext,
) -> bool
    ensures { Asks ctx.old ctx.new (declared_or_rest N.means
        (option_copied additional.entry) (view value.now) (option_copied declared.entry)) result }
{
    match declared.or(additional) {
        Some(subschema) => subschema.check(value, ctx),
        None => false,
    }
}

/// Whether each member is declared, and accepted by what is declared at its name, and there is a
/// member at the required name. Arrays and objects are asked last, as many as can be held back, and
/// only where that name was met.
#[inline(always)]
fn each_declared_with<N: Check>(
    properties: Entries<'_, N>,
    members: &Map<String, Value>,
    required: &str,
    ctx: &mut ValidationContext,
) -> bool
    ensures { Asks ctx.old ctx.new (both (names_mean N.means
        properties.entry
        None (object_of members.now.entries)) (always (is_empty (missing
        (required.now ∷ []) (object_of members.now.entries))))) result }
{
    let mut met = false;
    let mut held: ArrayVec<Option<(&N, &Value)>, DEFERRED_MEMBERS> = ArrayVec::new();
    let mut hint = 0;
    for (name, value) in members {
        let name = name.as_str();
        met = is_met(met, name, required);
        let (next, declared) = properties.node_from(hint, name);
        hint = next;
        let Some(subschema) = declared else {
            return false;
        };
        if is_container(value) && !held.is_full() {
            held.push(Some((subschema, value)));
        } else if !subschema.check(value, ctx) {
            return false;
        }
    }
    met && held_accept(&held, ctx)
}

fn is_container(value: &Value) -> bool {
    matches!(value, Value::Array(_) | Value::Object(_))
}

/// Whether what was held back is accepted.
fn held_accept<N: Check>(held: &[Option<(&N, &Value)>], ctx: &mut ValidationContext) -> bool
    ensures { Asks ctx.old ctx.new (every (held_means N.means) held.now) result }
{
    for entry in held {
        if !one_held_accepts(entry, ctx) {
            return false;
        }
    }
    true
}

#[inline(always)]
fn one_held_accepts<N: Check>(held: &Option<(&N, &Value)>, ctx: &mut ValidationContext) -> bool
    ensures { Asks ctx.old ctx.new (held_means N.means held.now) result }
{
    match held {
        Some((subschema, value)) => subschema.check(*value, ctx),
        None => true,
    }
}

/// Whether each member is accepted by what speaks of it, one after the other.
#[inline(always)]
fn each_accepted<R: RegexEngine, N: Check>(
    sides: SidesOf<'_, R, N>,
    members: &Map<String, Value>,
    ctx: &mut ValidationContext,
) -> bool
    ensures { Asks ctx.old ctx.new (means_in_turn R.answers R.costs N.means
        (sides_seen sides.entry) (object_of members.now.entries)) result }
{
    let mut hint = 0;
    for (name, value) in members {
        let name = name.as_str();
        let (next, declared) = sides.declared_from(hint, name);
        hint = next;
        if !member_accepted(sides, declared, name, value, ctx) {
            return false;
        }
    }
    true
}

/// Whether a member is accepted by what is declared at its name, by the patterns that match it, and
/// else by the rest.
#[inline(always)]
fn member_accepted<R: RegexEngine, N: Check>(
    sides: SidesOf<'_, R, N>,
    declared: Option<(usize, &N)>,
    name: &str,
    value: &Value,
    ctx: &mut ValidationContext,
) -> bool
    ensures { Asks ctx.old ctx.new (member_means_at R.answers R.costs N.means
        (sides_seen sides.entry) (option_map (λ f. (f.0, f.1.now)) declared.entry)
        name.now (view value.now)) result }
{
    match declared {
        Some(_) => {
            declared_accepts(declared, value, ctx)
                && patterns_of_declared_accept(sides, declared, name, value, ctx)
        }
        None => patterns_accept(sides, declared, name, value, ctx),
    }
}

#[inline(always)]
fn declared_accepts<N: Check>(
    declared: Option<(usize, &N)>,
    value: &Value,
    ctx: &mut ValidationContext,
) -> bool
    ensures { Asks ctx.old ctx.new (declared_means N.means (view value.now)
        (option_map (λ f. (f.0, f.1.now)) declared.entry)) result }
{
    match declared {
        Some((_, subschema)) => subschema.check(value, ctx),
        None => true,
    }
}

/// Whether the patterns that match a member accept it, and, where neither they nor a declared name
/// speak of it, the rest.
#[inline(always)]
fn patterns_accept<R: RegexEngine, N: Check>(
    sides: SidesOf<'_, R, N>,
    declared: Option<(usize, &N)>,
    name: &str,
    value: &Value,
    ctx: &mut ValidationContext,
) -> bool
    ensures { Asks ctx.old ctx.new (patterns_mean_from R.answers R.costs N.means
        (sides_seen sides.entry) (option_map (λ f. (f.0, f.1.now)) declared.entry)
        name.now (view value.now)
        (is_some declared.entry) 0 (sides_seen sides.entry).patterns) result }
{
    let mut spoken = declared.is_some();
    for (index, entry) in sides.patterns.iter().enumerate() {
        let known = sides.known(declared, index);
        if !matches_unless_known(known, &entry.0, name, ctx) {
            continue;
        }
        if !entry.1.check(value, ctx) {
            return false;
        }
        spoken = true;
    }
    spoken || rest_accepts(sides.rest, value, ctx)
}

/// The verdict of `patterns_accept` for a declared name: most are matched by no pattern, which the
/// table tells at once.
#[inline(always)]
fn patterns_of_declared_accept<R: RegexEngine, N: Check>(
    sides: SidesOf<'_, R, N>,
    declared: Option<(usize, &N)>,
    name: &str,
    value: &Value,
    ctx: &mut ValidationContext,
) -> bool
    ensures { Asks ctx.old ctx.new (patterns_mean_from R.answers R.costs N.means
        (sides_seen sides.entry) (option_map (λ f. (f.0, f.1.now)) declared.entry)
        name.now (view value.now)
        (is_some declared.entry) 0 (sides_seen sides.entry).patterns) result }
{
    if sides.matches_nothing(declared) {
        return true;
    }
    patterns_accept_apart(sides, declared, name, value, ctx)
}

#[inline(never)]
fn patterns_accept_apart<R: RegexEngine, N: Check>(
    sides: SidesOf<'_, R, N>,
    declared: Option<(usize, &N)>,
    name: &str,
    value: &Value,
    ctx: &mut ValidationContext,
) -> bool
    ensures { Asks ctx.old ctx.new (patterns_mean_from R.answers R.costs N.means
        (sides_seen sides.entry) (option_map (λ f. (f.0, f.1.now)) declared.entry)
        name.now (view value.now)
        (is_some declared.entry) 0 (sides_seen sides.entry).patterns) result }
{
    patterns_accept(sides, declared, name, value, ctx)
}

/// Whether a member is accepted that nothing else speaks of.
fn rest_accepts<N: Check>(rest: Option<&N>, value: &Value, ctx: &mut ValidationContext) -> bool
    ensures { Asks ctx.old ctx.new
        (rest_means N.means (view value.now) (option_copied rest.entry)) result }
{
    match rest {
        Some(subschema) => subschema.check(value, ctx),
        None => false,
    }
}
