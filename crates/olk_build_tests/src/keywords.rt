//! What the module of a keyword compiles of its member of an object.
use crate::lines::{push_all, push_node, push_nodes, push_pattern, push_patterns};
use crate::shown::{PlainNode, Shown};
use olk_base::{CompiledPattern, Meter};
use olk_base_tests::doubles::{EqualTo, Equality, NoText, NoTexts};
use olk_base_tests::tables::expect_rows;
use olk_build::{
    Context, additional_properties, all_of, any_of, dependencies, if_, not, pattern_properties,
    property_dependencies, property_names,
};
use olk_reports::{BuildError, Location};
use olk_tree::additional_properties::{
    AdditionalPropertiesNotEmptyFalseWithRequired1, Restriction, SidesOf,
};
use olk_tree::built_node::BuiltNode;
use olk_tree::properties_map::PropertiesMap;
use olk_tree::{KeywordOver, SmallMap};
use serde_json::{Map, Value};
use std::alloc::{AllocError, Global};
use std::test::Fail;

// ---- a keyword as text

fn push_small_map<N: Shown>(text: &mut String, map: &SmallMap<N>) -> Result<(), AllocError> {
    push_nodes(text, map.entries())
}

/// A name with the texts that choose, each with its node.
fn push_choice<N: Shown>(
    text: &mut String,
    name: &str,
    chosen: &SmallMap<N>,
) -> Result<(), AllocError> {
    push_all(text, &[" ", name, " {"])?;
    push_small_map(text, chosen)?;
    text.push_str(" }")
}

fn push_choices<N: Shown>(
    text: &mut String,
    map: &SmallMap<SmallMap<N>>,
) -> Result<(), AllocError> {
    for (name, chosen) in map.entries().iter() {
        push_choice(text, name, chosen)?;
    }
    Ok(())
}

fn push_map<N: Shown>(text: &mut String, map: &PropertiesMap<N>) -> Result<(), AllocError> {
    push_nodes(text, map.entries())
}

/// The declared names, the patterns, and the node for the rest.
fn push_sides<R, N: Shown>(
    text: &mut String,
    sides: SidesOf<'_, R, N>,
    place: Option<&Location>,
) -> Result<(), AllocError> {
    if let Some(properties) = sides.properties {
        push_map(text, properties)?;
    }
    if let Some(place) = place {
        push_all(text, &[" at ", place.as_str()])?;
    }
    push_patterns(text, sides.patterns)?;
    match sides.rest {
        Some(rest) => push_rest(text, rest),
        None => Ok(()),
    }
}

/// The node for the rest.
fn push_rest<N: Shown>(text: &mut String, rest: &N) -> Result<(), AllocError> {
    text.push_str(" rest:")?;
    push_node(text, rest)
}

/// The declared names, and the name that is required, with its place.
fn push_with_required<N: Shown>(
    text: &mut String,
    keyword: &AdditionalPropertiesNotEmptyFalseWithRequired1<N>,
) -> Result<(), AllocError> {
    push_map(text, &keyword.properties)?;
    let (name, place) = (
        keyword.required.as_str(),
        keyword.required_location.as_str(),
    );
    push_all(text, &[" requires ", name, " at ", place])
}

fn push_restriction<R, N: Shown>(
    text: &mut String,
    keyword: &Restriction<R, N>,
) -> Result<(), AllocError> {
    match keyword {
        Restriction::Schema(it) => push_rest(text, &it.node),
        Restriction::False(_) => Ok(()),
        Restriction::NotEmpty(it) => push_sides(text, it.sides::<R>(), None),
        Restriction::NotEmptyFalse(it) => push_map(text, &it.properties),
        Restriction::NotEmptyFalseWithRequired1(it) => push_with_required(text, it),
        Restriction::WithPatterns(it) => {
            push_sides(text, it.sides(), Some(&it.pattern_keyword_path))
        }
        Restriction::WithPatternsFalse(it) => {
            push_sides(text, it.sides(), Some(&it.pattern_keyword_path))
        }
        Restriction::WithPatternsNotEmpty(it) => push_sides(text, it.sides(), None),
        Restriction::WithPatternsNotEmptyFalse(it) => push_sides(text, it.sides(), None),
    }
}

/// The form of a keyword of branches, or of a condition.
fn form_of<K, R, N>(keyword: &KeywordOver<K, R, N>) -> &'static str {
    match keyword {
        KeywordOver::SingleValueAllOf(_) => "single allOf",
        KeywordOver::AllOf(_) => "allOf",
        KeywordOver::SingleAnyOf(_) => "single anyOf",
        KeywordOver::AnyOf(_) => "anyOf",
        KeywordOver::IfThen(_) => "then",
        KeywordOver::IfElse(_) => "else",
        KeywordOver::IfThenElse(_) => "both",
        _ => "another",
    }
}

/// Where a keyword stands, if its place is told.
fn place_of<K, R, N>(keyword: &KeywordOver<K, R, N>) -> &str {
    match keyword {
        KeywordOver::Not(keyword) => keyword.location.as_str(),
        KeywordOver::Dependencies(keyword) => keyword.location.as_str(),
        KeywordOver::DependentRequired(keyword) => keyword.location.as_str(),
        KeywordOver::DependentSchemas(keyword) => keyword.location.as_str(),
        KeywordOver::PropertyNames(keyword) => keyword.location.as_str(),
        KeywordOver::PropertyNamesFalse(keyword) => keyword.location.as_str(),
        KeywordOver::PropertyDependencies(keyword) => keyword.location.as_str(),
        KeywordOver::SingleValuePatternProperties(keyword) => keyword.location.as_str(),
        KeywordOver::PatternProperties(keyword) => keyword.location.as_str(),
        KeywordOver::AdditionalProperties(keyword) => keyword.location().as_str(),
        _ => "",
    }
}

fn push_named<N: Shown>(text: &mut String, node: &N) -> Result<(), AllocError> {
    text.push_str(" names:")?;
    push_node(text, node)
}

fn push_single<R, N: Shown>(
    text: &mut String,
    pattern: &CompiledPattern<R>,
    node: &N,
) -> Result<(), AllocError> {
    text.push_str(" single")?;
    push_pattern(text, pattern, node)
}

/// What a keyword holds.
fn push_held<K, R, N: Shown>(
    text: &mut String,
    keyword: &KeywordOver<K, R, N>,
) -> Result<(), AllocError> {
    match keyword {
        KeywordOver::Not(_) => Ok(()),
        KeywordOver::Dependencies(keyword) => push_small_map(text, &keyword.dependencies),
        KeywordOver::DependentRequired(keyword) => push_small_map(text, &keyword.dependencies),
        KeywordOver::DependentSchemas(keyword) => push_small_map(text, &keyword.dependencies),
        KeywordOver::PropertyNames(keyword) => push_named(text, &keyword.node),
        KeywordOver::PropertyNamesFalse(_) => text.push_str(" no name"),
        KeywordOver::PropertyDependencies(keyword) => push_choices(text, &keyword.dependencies),
        KeywordOver::SingleValuePatternProperties(keyword) => {
            push_single(text, &keyword.regex, &keyword.node)
        }
        KeywordOver::PatternProperties(keyword) => {
            push_patterns(text, keyword.patterns.as_slice())
        }
        KeywordOver::AdditionalProperties(keyword) => push_restriction(text, keyword),
        _ => text.push_str(form_of(keyword)),
    }
}

fn keyword_line<K, R, N: Shown>(
    alloc: Global,
    keyword: &KeywordOver<K, R, N>,
) -> Result<String, AllocError> {
    let mut text = String::from_str(alloc, place_of(keyword))?;
    push_held(&mut text, keyword)?;
    Ok(text)
}

// ---- what is compiled

/// What a module compiles. It is dropped by name: where it ends with its scope, the proof takes a
/// minute longer.
type Made<'a, N> = Option<Result<KeywordOver<NoText, EqualTo, N>, BuildError<'a>>>;

/// What the module of the keyword compiles.
fn compiled<'a, N: BuiltNode<NoText, EqualTo>>(
    alloc: Global,
    ctx: &mut Context<'_, NoTexts, Equality>,
    parent: &'a Map<String, Value>,
    name: &str,
    value: &'a Value,
) -> Made<'a, N> {
    match name {
        "allOf" => all_of::compile(alloc, ctx, parent, value),
        "anyOf" => any_of::compile(alloc, ctx, parent, value),
        "if" => if_::compile(alloc, ctx, parent, value),
        "not" => not::compile(alloc, ctx, parent, value),
        _ => compiled_of_members(alloc, ctx, parent, name, value),
    }
}

/// What the module of a keyword compiles that speaks of members.
fn compiled_of_members<'a, N: BuiltNode<NoText, EqualTo>>(
    alloc: Global,
    ctx: &mut Context<'_, NoTexts, Equality>,
    parent: &'a Map<String, Value>,
    name: &str,
    value: &'a Value,
) -> Made<'a, N> {
    match name {
        "additionalProperties" => additional_properties::compile(alloc, ctx, parent, value),
        "patternProperties" => pattern_properties::compile(alloc, ctx, parent, value),
        "propertyNames" => property_names::compile(alloc, ctx, parent, value),
        _ => compiled_of_dependencies(alloc, ctx, parent, name, value),
    }
}

/// What the module of a keyword compiles that speaks of what a member wants of the others.
fn compiled_of_dependencies<'a, N: BuiltNode<NoText, EqualTo>>(
    alloc: Global,
    ctx: &mut Context<'_, NoTexts, Equality>,
    parent: &'a Map<String, Value>,
    name: &str,
    value: &'a Value,
) -> Made<'a, N> {
    match name {
        "dependencies" => dependencies::compile(alloc, ctx, parent, value),
        "dependentRequired" => {
            dependencies::compile_dependent_required(alloc, ctx, parent, value)
        }
        "dependentSchemas" => dependencies::compile_dependent_schemas(alloc, ctx, parent, value),
        "propertyDependencies" => property_dependencies::compile(alloc, ctx, parent, value),
        _ => None,
    }
}

/// What is made, as a line.
fn line_of<N: Shown>(alloc: Global, made: &Made<'_, N>) -> Result<String, AllocError> {
    match made {
        None => String::from_str(alloc, "none"),
        Some(Ok(keyword)) => keyword_line(alloc, keyword),
        Some(Err(_)) => String::from_str(alloc, "not built"),
    }
}

/// What is compiled of the member of this name, as a line.
fn compiled_line<N: BuiltNode<NoText, EqualTo> + Shown>(
    alloc: Global,
    parent: &Map<String, Value>,
    name: &str,
    meter: &mut Meter,
) -> Result<String, AllocError> {
    let value = parent.get(name).unwrap_or(&Value::Null);
    let mut ctx = Context::new(alloc, &NoTexts, &Equality, meter);
    let made: Made<'_, N> = compiled(alloc, &mut ctx, parent, name, value);
    let line = line_of(alloc, &made);
    drop(made);
    drop(ctx);
    line
}

/// A line behind what is counted: how many places, leaves and engines, and how often these are
/// asked.
fn counted(alloc: Global, meter: &Meter, line: &str) -> Result<String, AllocError> {
    let (places, leaves) = (meter.compiled(), meter.leaves());
    let (engines, asks) = (meter.made(), meter.asked());
    format!(in alloc; "{places} {leaves} {engines} {asks} {line}")
}

fn counted_if_finished(alloc: Global, meter: &Meter, line: &str) -> Result<String, Fail> {
    if meter.unfinished() == 0 {
        Ok(counted(alloc, meter, line)?)
    } else {
        Err(Fail::new("left unfinished"))
    }
}

fn counted_line(alloc: Global, parent: &Map<String, Value>, name: &str) -> Result<String, Fail> {
    let mut meter = Meter::new();
    let line = compiled_line::<PlainNode>(alloc, parent, name, &mut meter)?;
    let counted = counted_if_finished(alloc, &meter, &line);
    drop(line);
    counted
}

fn line_of_value(alloc: Global, object: &Value, name: &str) -> Result<String, Fail> {
    match object.as_object() {
        Some(parent) => counted_line(alloc, parent, name),
        None => Err(Fail::new("no object")),
    }
}

fn line_of_json(alloc: Global, name: &str, json: &str) -> Result<String, Fail> {
    let object = Value::from_str(alloc, json)?;
    let line = line_of_value(alloc, &object, name);
    drop(object);
    line
}

/// What is compiled of the member of a name, in an object.
fn compiled_of(alloc: Global, row: &str) -> Result<String, Fail> {
    match row.split_once(" | ") {
        Some((name, json)) => line_of_json(alloc, name, json),
        None => Err(Fail::new(row)),
    }
}

// Tables: the keyword, the object that has it, and what is compiled of it: how many places, leaves
// and engines, how often these are asked, where the keyword stands, and what it holds; of branches
// and conditions the form alone.

const BRANCHES: &str = r#"allOf | {"allOf":[]} | 0 0 0 0 allOf
allOf | {"allOf":[true]} | 1 0 0 0 single allOf
allOf | {"allOf":[true,{}]} | 2 0 0 0 allOf
anyOf | {"anyOf":[]} | 0 0 0 0 anyOf
anyOf | {"anyOf":[true]} | 1 0 0 0 single anyOf
anyOf | {"anyOf":[true,{}]} | 2 0 0 0 anyOf"#;

#[test]
fn one_branch_has_a_form_of_its_own(rt: HostRuntime) -> Result<(), Fail> {
    expect_rows(rt.alloc(), BRANCHES, compiled_of)
}

#[test]
fn a_schema_that_is_turned(rt: HostRuntime) -> Result<(), Fail> {
    expect_rows(
        rt.alloc(),
        r#"not | {"not":true} | 1 0 0 0 /not"#,
        compiled_of,
    )
}

const CONDITIONS: &str = r#"if | {"if":true} | 0 0 0 0 none
if | {"if":true,"then":false} | 2 0 0 0 then
if | {"if":true,"else":false} | 2 0 0 0 else
if | {"if":true,"then":{"not":true},"else":false} | 4 0 0 0 both"#;

#[test]
fn a_condition_with_its_cases(rt: HostRuntime) -> Result<(), Fail> {
    expect_rows(rt.alloc(), CONDITIONS, compiled_of)
}

const DEPENDENCIES_AND_NAMES: &str =
    r#"dependencies | {"dependencies":{"b":["x","x"],"a/c":{"text":false},"c":true,"":[]}} | 2 1 0 0 /dependencies : /dependencies [] a/c: /dependencies/a~1c b: /dependencies [x,x,] c: /dependencies/c
dependentRequired | {"dependentRequired":{"b":["y","x"],"a":[]}} | 0 0 0 0 /dependentRequired a: /dependentRequired [] b: /dependentRequired [y,x,]
dependentSchemas | {"dependentSchemas":{"b":{},"a/~":{"not":true}}} | 3 0 0 0 /dependentSchemas a/~: /dependentSchemas/a~1~0 b: /dependentSchemas/b
propertyNames | {"propertyNames":{"text":false}} | 1 1 0 0 /propertyNames names: /propertyNames
propertyNames | {"propertyNames":false} | 0 0 0 0 /propertyNames no name
propertyNames | {"propertyNames":true} | 0 0 0 0 none
propertyNames | {"propertyNames":5} | 0 0 0 0 none
propertyDependencies | {"propertyDependencies":{"l":{},"k":{"u":true,"t/":{"not":true}}}} | 3 0 0 0 /propertyDependencies k { t/: /propertyDependencies/k/t~1 u: /propertyDependencies/k/u } l { }"#;

#[test]
fn keywords_of_dependencies_and_names(rt: HostRuntime) -> Result<(), Fail> {
    expect_rows(rt.alloc(), DEPENDENCIES_AND_NAMES, compiled_of)
}

const PATTERNS: &str =
    r#"patternProperties | {"patternProperties":{"a":{"text":false}}} | 1 1 1 0 /patternProperties single engine: /patternProperties/a
patternProperties | {"patternProperties":{"^a/~":{"not":true}}} | 2 0 0 0 /patternProperties single prefix: /patternProperties/^a~1~0
patternProperties | {"patternProperties":{"b":true,"a$":{"text":false}}} | 2 1 1 0 /patternProperties suffix: /patternProperties/a$ engine: /patternProperties/b
patternProperties | {"patternProperties":{"a|b":{},"^a$":{},"^(a|b)$":{},"^\\S*$":{}}} | 4 0 1 0 /patternProperties alternation: /patternProperties/^(a|b)$ no white space: /patternProperties/^\S*$ exact: /patternProperties/^a$ engine: /patternProperties/a|b
patternProperties | {"patternProperties":{}} | 0 0 0 0 /patternProperties
patternProperties | {"additionalProperties":true,"patternProperties":{"a":{}}} | 1 0 1 0 /patternProperties single engine: /patternProperties/a
patternProperties | {"additionalProperties":false,"patternProperties":{"a":{"text":false}}} | 0 0 0 0 none
patternProperties | {"additionalProperties":{},"patternProperties":{"a":{"text":false}}} | 0 0 0 0 none
patternProperties | {"additionalProperties":{"text":false},"patternProperties":{"(":5}} | 0 0 0 0 none"#;

#[test]
fn keywords_of_patterns(rt: HostRuntime) -> Result<(), Fail> {
    expect_rows(rt.alloc(), PATTERNS, compiled_of)
}

const RESTRICTIONS: &str =
    r#"additionalProperties | {"additionalProperties":false} | 0 0 0 0 /additionalProperties
additionalProperties | {"additionalProperties":{"not":true}} | 2 0 0 0 /additionalProperties rest: /additionalProperties
additionalProperties | {"additionalProperties":false,"properties":{"b":{"text":false},"a/~":true},"required":["b"]} | 2 1 0 0 /additionalProperties a/~: /properties/a~1~0 b: /properties/b requires b at /required
additionalProperties | {"additionalProperties":{},"patternProperties":{"b":true,"^a":{"text":false}},"properties":{"b":{}},"required":["b"]} | 4 1 1 1 /additionalProperties b: /properties/b prefix: /patternProperties/^a engine: /patternProperties/b rest: /additionalProperties
additionalProperties | {"additionalProperties":false,"patternProperties":{}} | 0 0 0 0 /additionalProperties at /patternProperties
additionalProperties | {"additionalProperties":true,"patternProperties":{"(":5},"properties":{"a":5}} | 0 0 0 0 none
additionalProperties | {"additionalProperties":5,"patternProperties":{"b":{}},"properties":{"a":{"text":false}}} | 0 0 0 0 not built"#;

#[test]
fn keywords_of_restrictions(rt: HostRuntime) -> Result<(), Fail> {
    expect_rows(rt.alloc(), RESTRICTIONS, compiled_of)
}
