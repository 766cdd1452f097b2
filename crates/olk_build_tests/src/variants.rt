//! Whole schemas: which variants are built of them.
use crate::lines::push_all;
use crate::shown::PlainNode;
use olk_base::{CompiledPattern, Meter};
use olk_base_tests::doubles::{EqualTo, Equality, NoText, NoTexts};
use olk_base_tests::tables::expect_rows;
use olk_build::{Context, compile};
use olk_reports::BuildError;
use olk_tree::additional_properties::Restriction;
use olk_tree::built_node::BuiltNode;
use olk_tree::properties_map::PropertiesMap;
use olk_tree::{Body, Entries, KeywordOver, SmallMap};
use serde_json::Value;
use std::alloc::{AllocError, Global};
use std::test::Fail;

// ---- the variant of a keyword

fn form_of_map<N>(map: &PropertiesMap<N>) -> &'static str {
    match map {
        PropertiesMap::Small(_) => " small",
        PropertiesMap::Big(_) => " big",
    }
}

/// The variant of `additionalProperties`, without what it holds.
fn variant_of_restriction<R, N>(keyword: &Restriction<R, N>) -> &'static str {
    match keyword {
        Restriction::Schema(_) => " AdditionalProperties",
        Restriction::False(_) => " AdditionalPropertiesFalse",
        Restriction::NotEmpty(_) => " AdditionalPropertiesNotEmpty",
        Restriction::NotEmptyFalse(_) => " AdditionalPropertiesNotEmptyFalse",
        Restriction::NotEmptyFalseWithRequired1(_) => {
            " AdditionalPropertiesNotEmptyFalseWithRequired1"
        }
        Restriction::WithPatterns(_) => " AdditionalPropertiesWithPatterns",
        Restriction::WithPatternsFalse(_) => " AdditionalPropertiesWithPatternsFalse",
        Restriction::WithPatternsNotEmpty(_) => " AdditionalPropertiesWithPatternsNotEmpty",
        Restriction::WithPatternsNotEmptyFalse(_) => {
            " AdditionalPropertiesWithPatternsNotEmptyFalse"
        }
    }
}

/// The form of the map of declared names, if `properties` is taken over.
fn form_of_declared<R, N>(keyword: &Restriction<R, N>) -> &'static str {
    match keyword {
        Restriction::NotEmpty(it) => form_of_map(&it.properties),
        Restriction::NotEmptyFalse(it) => form_of_map(&it.properties),
        Restriction::NotEmptyFalseWithRequired1(it) => form_of_map(&it.properties),
        Restriction::WithPatternsNotEmpty(it) => form_of_map(&it.properties),
        Restriction::WithPatternsNotEmptyFalse(it) => form_of_map(&it.properties),
        _ => "",
    }
}

/// The variant, the form of its map, and the name that it has from `required`.
fn push_restriction<R, N>(
    text: &mut String,
    keyword: &Restriction<R, N>,
) -> Result<(), AllocError> {
    push_all(
        text,
        &[variant_of_restriction(keyword), form_of_declared(keyword)],
    )?;
    match keyword {
        Restriction::NotEmptyFalseWithRequired1(it) => {
            push_all(text, &[" requires ", it.required.as_str()])
        }
        _ => Ok(()),
    }
}

/// The node for the rest.
fn rest_of<R, N>(keyword: &Restriction<R, N>) -> Option<&N> {
    match keyword {
        Restriction::Schema(it) => Some(&it.node),
        Restriction::NotEmpty(it) => Some(&it.node),
        Restriction::WithPatterns(it) => Some(&it.node),
        Restriction::WithPatternsNotEmpty(it) => Some(&it.node),
        _ => None,
    }
}

/// The variant alone.
fn variant_of<K, R, N>(keyword: &KeywordOver<K, R, N>) -> &'static str {
    match keyword {
        KeywordOver::AllOf(_) => " AllOf",
        KeywordOver::SingleValueAllOf(_) => " SingleValueAllOf",
        KeywordOver::AnyOf(_) => " AnyOf",
        KeywordOver::SingleAnyOf(_) => " SingleAnyOf",
        KeywordOver::OneOf(_) => " OneOf",
        KeywordOver::SingleOneOf(_) => " SingleOneOf",
        KeywordOver::Not(_) => " Not",
        _ => variant_of_condition(keyword),
    }
}

/// The variant alone, of a keyword that asks under a condition.
fn variant_of_condition<K, R, N>(keyword: &KeywordOver<K, R, N>) -> &'static str {
    match keyword {
        KeywordOver::IfThen(_) => " IfThen",
        KeywordOver::IfElse(_) => " IfElse",
        KeywordOver::IfThenElse(_) => " IfThenElse",
        KeywordOver::Dependencies(_) => " Dependencies",
        KeywordOver::DependentRequired(_) => " DependentRequired",
        KeywordOver::DependentSchemas(_) => " DependentSchemas",
        KeywordOver::PropertyDependencies(_) => " PropertyDependencies",
        _ => variant_of_members(keyword),
    }
}

/// The variant alone, of a keyword that speaks of members, and of a leaf.
fn variant_of_members<K, R, N>(keyword: &KeywordOver<K, R, N>) -> &'static str {
    match keyword {
        KeywordOver::SmallProperties(_) => " SmallProperties",
        KeywordOver::BigProperties(_) => " BigProperties",
        KeywordOver::Required(_) => " Required",
        KeywordOver::PropertyNames(_) => " PropertyNames",
        KeywordOver::PropertyNamesFalse(_) => " PropertyNamesFalse",
        KeywordOver::PatternProperties(_) => " PatternProperties",
        KeywordOver::SingleValuePatternProperties(_) => " SingleValuePatternProperties",
        KeywordOver::Leaf(_, _) => " Leaf",
        _ => " another",
    }
}

/// The variant, the form of its map, and the names that it has from `required`.
fn push_variant<K, R, N>(
    text: &mut String,
    keyword: &KeywordOver<K, R, N>,
) -> Result<(), AllocError> {
    match keyword {
        KeywordOver::PropertiesWithRequired2(keyword) => {
            let (first, second) = (keyword.first.as_str(), keyword.second.as_str());
            push_all(text, &[" PropertiesWithRequired2 ", first, " ", second])
        }
        KeywordOver::AdditionalProperties(keyword) => push_restriction(text, keyword),
        _ => text.push_str(variant_of(keyword)),
    }
}

// ---- the first node that a keyword holds; of `additionalProperties` that for the rest

fn first_of<'a, N>(entries: Entries<'a, N>) -> Option<&'a N> {
    match entries.iter().next() {
        Some((_, node)) => Some(node),
        None => None,
    }
}

fn first_matched<R, N>(patterns: &[(CompiledPattern<R>, N)]) -> Option<&N> {
    match patterns.first() {
        Some((_, node)) => Some(node),
        None => None,
    }
}

fn first_chosen<N>(map: &SmallMap<SmallMap<N>>) -> Option<&N> {
    match first_of(map.entries()) {
        Some(chosen) => first_of(chosen.entries()),
        None => None,
    }
}

fn first_node<K, R, N>(keyword: &KeywordOver<K, R, N>) -> Option<&N> {
    match keyword {
        KeywordOver::AllOf(keyword) => keyword.schemas.first(),
        KeywordOver::SingleValueAllOf(keyword) => Some(&keyword.node),
        KeywordOver::AnyOf(keyword) => keyword.schemas.first(),
        KeywordOver::SingleAnyOf(keyword) => Some(&keyword.node),
        KeywordOver::OneOf(keyword) => keyword.schemas.first(),
        KeywordOver::SingleOneOf(keyword) => Some(&keyword.node),
        KeywordOver::Not(keyword) => Some(&keyword.node),
        _ => first_node_of_condition(keyword),
    }
}

/// The first node of a keyword that asks under a condition.
fn first_node_of_condition<K, R, N>(keyword: &KeywordOver<K, R, N>) -> Option<&N> {
    match keyword {
        KeywordOver::IfThen(keyword) => Some(&keyword.schema),
        KeywordOver::IfElse(keyword) => Some(&keyword.schema),
        KeywordOver::IfThenElse(keyword) => Some(&keyword.schema),
        KeywordOver::Dependencies(keyword) => first_of(keyword.dependencies.entries()),
        KeywordOver::DependentRequired(keyword) => first_of(keyword.dependencies.entries()),
        KeywordOver::DependentSchemas(keyword) => first_of(keyword.dependencies.entries()),
        KeywordOver::PropertyDependencies(keyword) => first_chosen(&keyword.dependencies),
        _ => first_node_of_members(keyword),
    }
}

/// The first node of a keyword that speaks of members.
fn first_node_of_members<K, R, N>(keyword: &KeywordOver<K, R, N>) -> Option<&N> {
    match keyword {
        KeywordOver::SmallProperties(keyword) => first_of(keyword.properties.entries()),
        KeywordOver::BigProperties(keyword) => first_of(keyword.properties.entries()),
        KeywordOver::PropertiesWithRequired2(keyword) => first_of(keyword.properties.entries()),
        KeywordOver::PropertyNames(keyword) => Some(&keyword.node),
        KeywordOver::PatternProperties(keyword) => first_matched(keyword.patterns.as_slice()),
        KeywordOver::SingleValuePatternProperties(keyword) => Some(&keyword.node),
        KeywordOver::AdditionalProperties(keyword) => rest_of(keyword),
        _ => None,
    }
}

// ---- a node as text

/// A node, by the variants of its keywords.
trait Varied {
    /// The variants of its keywords, if it is an object.
    fn push_variants(&self, text: &mut String) -> Result<(), AllocError>;
}

impl Varied for PlainNode {
    fn push_variants(&self, text: &mut String) -> Result<(), AllocError> {
        match &self.body {
            Body::Keywords(keywords) => push_variants(text, keywords.as_slice()),
            _ => Ok(()),
        }
    }
}

/// A node, by the variants of its keywords and of the nodes that these hold.
trait VariedInside {
    /// The variants of its keywords, and behind each those of the first node that it holds.
    fn push_keywords(&self, text: &mut String) -> Result<(), AllocError>;
}

impl VariedInside for PlainNode {
    fn push_keywords(&self, text: &mut String) -> Result<(), AllocError> {
        match &self.body {
            Body::Keywords(keywords) => push_keywords(text, keywords.as_slice()),
            _ => text.push_str("no object"),
        }
    }
}

fn push_variants<K, R, N>(
    text: &mut String,
    keywords: &[KeywordOver<K, R, N>],
) -> Result<(), AllocError> {
    text.push_str(" {")?;
    for keyword in keywords {
        push_variant(text, keyword)?;
    }
    text.push_str(" }")
}

fn push_keyword<K, R, N: Varied>(
    text: &mut String,
    keyword: &KeywordOver<K, R, N>,
) -> Result<(), AllocError> {
    push_variant(text, keyword)?;
    match first_node(keyword) {
        Some(node) => node.push_variants(text),
        None => Ok(()),
    }
}

fn push_keywords<K, R, N: Varied>(
    text: &mut String,
    keywords: &[KeywordOver<K, R, N>],
) -> Result<(), AllocError> {
    text.push_str("{")?;
    for keyword in keywords {
        push_keyword(text, keyword)?;
    }
    text.push_str(" }")
}

// ---- what is built

fn push_built<N: VariedInside>(
    text: &mut String,
    built: &Result<N, BuildError<'_>>,
) -> Result<(), AllocError> {
    match built {
        Ok(node) => node.push_keywords(text),
        Err(_) => text.push_str("not built"),
    }
}

fn push_schema<N: BuiltNode<NoText, EqualTo> + VariedInside>(
    text: &mut String,
    alloc: Global,
    schema: &Value,
) -> Result<(), AllocError> {
    let mut meter = Meter::new();
    let mut ctx = Context::new(alloc, &NoTexts, &Equality, &mut meter);
    let built: Result<N, BuildError<'_>> = compile(alloc, &mut ctx, schema);
    let pushed = push_built(text, &built);
    drop(built);
    drop(ctx);
    pushed
}

fn variants_of(alloc: Global, schema: &Value) -> Result<String, AllocError> {
    let mut text = String::new(alloc);
    push_schema::<PlainNode>(&mut text, alloc, schema)?;
    Ok(text)
}

/// The variants that are built of a schema.
fn variants(alloc: Global, json: &str) -> Result<String, Fail> {
    let schema = Value::from_str(alloc, json)?;
    let told = variants_of(alloc, &schema);
    drop(schema);
    Ok(told?)
}

// A schema, and the variants of its keywords, in their order; behind each the variants of the first
// node that it holds, of `additionalProperties` those of the node for the rest. From `a` to `n` are
// 14 names, and from `a` to `o` 15.
const VARIANTS: &str = r#"{"properties":{}} | { SmallProperties }
{"properties":{"a":true,"b":true,"c":true,"d":true,"e":true,"f":true,"g":true,"h":true,"i":true,"j":true,"k":true,"l":true,"m":true,"n":true}} | { SmallProperties }
{"properties":{"a":true,"b":true,"c":true,"d":true,"e":true,"f":true,"g":true,"h":true,"i":true,"j":true,"k":true,"l":true,"m":true,"n":true,"o":true}} | { BigProperties }
{"properties":{},"required":["a","b"]} | { PropertiesWithRequired2 a b }
{"properties":{"a":true,"b":true,"c":true,"d":true,"e":true,"f":true,"g":true,"h":true,"i":true,"j":true,"k":true,"l":true,"m":true,"n":true},"required":["a","b"]} | { PropertiesWithRequired2 a b }
{"properties":{"a":true,"b":true,"c":true,"d":true,"e":true,"f":true,"g":true,"h":true,"i":true,"j":true,"k":true,"l":true,"m":true,"n":true,"o":true},"required":["a","b"]} | { BigProperties Required }
{"additionalProperties":true,"properties":{"a":true,"b":true,"c":true,"d":true,"e":true,"f":true,"g":true,"h":true,"i":true,"j":true,"k":true,"l":true,"m":true,"n":true},"required":["y","z"]} | { PropertiesWithRequired2 y z }
{"additionalProperties":true,"properties":{"a":true,"b":true,"c":true,"d":true,"e":true,"f":true,"g":true,"h":true,"i":true,"j":true,"k":true,"l":true,"m":true,"n":true,"o":true},"required":["y","z"]} | { BigProperties Required }
{"properties":{"a":true},"required":[]} | { SmallProperties Required }
{"properties":{"a":true},"required":["a"]} | { SmallProperties Required }
{"properties":{"a":true},"required":["a","a"]} | { SmallProperties Required }
{"properties":{"a":true},"required":["a","b","c"]} | { SmallProperties Required }
{"properties":{"a":true},"required":["a","b","b"]} | { SmallProperties Required }
{"required":["a","b"]} | { Required }
{"patternProperties":{}} | { PatternProperties }
{"patternProperties":{"a":true}} | { SingleValuePatternProperties }
{"patternProperties":{"a":true,"^b":true}} | { PatternProperties }
{"patternProperties":{},"properties":{"a":true},"required":["a","b"]} | { PatternProperties SmallProperties Required }
{"patternProperties":{"^a":true},"properties":{"a":true,"b":true,"c":true,"d":true,"e":true,"f":true,"g":true,"h":true,"i":true,"j":true,"k":true,"l":true,"m":true,"n":true}} | { SingleValuePatternProperties SmallProperties }
{"patternProperties":{"^a":true},"properties":{"a":true,"b":true,"c":true,"d":true,"e":true,"f":true,"g":true,"h":true,"i":true,"j":true,"k":true,"l":true,"m":true,"n":true,"o":true}} | { SingleValuePatternProperties BigProperties }
{"additionalProperties":true,"patternProperties":{"^a":true},"properties":{"a":true},"required":["a","b"]} | { SingleValuePatternProperties SmallProperties Required }
{"additionalProperties":true} | { }
{"additionalProperties":false} | { AdditionalPropertiesFalse }
{"additionalProperties":{}} | { AdditionalProperties { } }
{"additionalProperties":false,"properties":{}} | { AdditionalPropertiesNotEmptyFalse small }
{"additionalProperties":false,"properties":{"a":true,"b":true,"c":true,"d":true,"e":true,"f":true,"g":true,"h":true,"i":true,"j":true,"k":true,"l":true,"m":true,"n":true}} | { AdditionalPropertiesNotEmptyFalse small }
{"additionalProperties":false,"properties":{"a":true,"b":true,"c":true,"d":true,"e":true,"f":true,"g":true,"h":true,"i":true,"j":true,"k":true,"l":true,"m":true,"n":true,"o":true}} | { AdditionalPropertiesNotEmptyFalse big }
{"additionalProperties":{"text":false},"properties":{"a":true,"b":true,"c":true,"d":true,"e":true,"f":true,"g":true,"h":true,"i":true,"j":true,"k":true,"l":true,"m":true,"n":true}} | { AdditionalPropertiesNotEmpty small { Leaf } }
{"additionalProperties":{"text":false},"properties":{"a":true,"b":true,"c":true,"d":true,"e":true,"f":true,"g":true,"h":true,"i":true,"j":true,"k":true,"l":true,"m":true,"n":true,"o":true}} | { AdditionalPropertiesNotEmpty big { Leaf } }
{"additionalProperties":false,"patternProperties":{}} | { AdditionalPropertiesWithPatternsFalse }
{"additionalProperties":false,"patternProperties":{"^a":true},"properties":{"a":true,"b":true,"c":true,"d":true,"e":true,"f":true,"g":true,"h":true,"i":true,"j":true,"k":true,"l":true,"m":true,"n":true}} | { AdditionalPropertiesWithPatternsNotEmptyFalse small }
{"additionalProperties":false,"patternProperties":{"^a":true},"properties":{"a":true,"b":true,"c":true,"d":true,"e":true,"f":true,"g":true,"h":true,"i":true,"j":true,"k":true,"l":true,"m":true,"n":true,"o":true}} | { AdditionalPropertiesWithPatternsNotEmptyFalse big }
{"additionalProperties":{"not":true},"patternProperties":{"^a":true,"b":true},"properties":{"a":true}} | { AdditionalPropertiesWithPatternsNotEmpty small { Not } }
{"additionalProperties":false,"properties":{"a":true,"b":true,"c":true,"d":true,"e":true,"f":true,"g":true,"h":true,"i":true,"j":true,"k":true,"l":true,"m":true,"n":true},"required":["a"]} | { AdditionalPropertiesNotEmptyFalseWithRequired1 small requires a }
{"additionalProperties":false,"properties":{"a":true,"b":true,"c":true,"d":true,"e":true,"f":true,"g":true,"h":true,"i":true,"j":true,"k":true,"l":true,"m":true,"n":true,"o":true},"required":["z"]} | { AdditionalPropertiesNotEmptyFalseWithRequired1 big requires z }
{"additionalProperties":false,"properties":{"a":true},"required":[]} | { AdditionalPropertiesNotEmptyFalse small Required }
{"additionalProperties":false,"properties":{"a":true},"required":["a","a"]} | { AdditionalPropertiesNotEmptyFalse small Required }
{"additionalProperties":false,"properties":{"a":true},"required":["a","b"]} | { AdditionalPropertiesNotEmptyFalse small Required }
{"additionalProperties":false,"required":["a"]} | { AdditionalPropertiesFalse Required }
{"additionalProperties":false,"patternProperties":{"^a":true},"properties":{"a":true},"required":["a"]} | { AdditionalPropertiesWithPatternsNotEmptyFalse small Required }
{"additionalProperties":false,"patternProperties":{},"properties":{"a":true},"required":["a"]} | { AdditionalPropertiesWithPatternsNotEmptyFalse small Required }
{"additionalProperties":{},"properties":{"a":true},"required":["a"]} | { AdditionalPropertiesNotEmpty small { } Required }
{"additionalProperties":{},"properties":{"a":true},"required":["a","b"]} | { AdditionalPropertiesNotEmpty small { } Required }
{"allOf":[],"anyOf":[],"oneOf":[]} | { AllOf AnyOf OneOf }
{"allOf":[true],"anyOf":[true],"oneOf":[true]} | { SingleValueAllOf SingleAnyOf SingleOneOf }
{"allOf":[true,false],"anyOf":[true,false],"oneOf":[true,false]} | { AllOf AnyOf OneOf }
{"allOf":[true,true,true],"anyOf":[true,true,true],"oneOf":[true,true,true]} | { AllOf AnyOf OneOf }
{"if":true} | { }
{"else":true,"then":true} | { }
{"if":true,"then":true} | { IfThen }
{"else":true,"if":true} | { IfElse }
{"else":true,"if":true,"then":true} | { IfThenElse }
{"propertyNames":{}} | { PropertyNames { } }
{"propertyNames":false} | { PropertyNamesFalse }
{"dependentRequired":{"a":["b"]}} | { DependentRequired }
{"dependentSchemas":{"a":true}} | { DependentSchemas }
{"dependencies":{"a":["b"],"b":true}} | { Dependencies }
{"propertyDependencies":{"a":{"b":true}}} | { PropertyDependencies }
{"not":true} | { Not }
{"text":false} | { Leaf }
{} | { }
{"other":{"not":true}} | { }
{"allOf":[true],"anyOf":[],"dependencies":{},"dependentRequired":{},"dependentSchemas":{},"else":true,"if":true,"not":true,"oneOf":[true],"patternProperties":{"a":true},"properties":{},"propertyDependencies":{},"propertyNames":false,"required":["a","b"],"text":false,"then":true} | { SingleValueAllOf AnyOf Dependencies DependentRequired DependentSchemas IfThenElse Not SingleOneOf SingleValuePatternProperties SmallProperties PropertyDependencies PropertyNamesFalse Required Leaf }
{"additionalProperties":false,"allOf":[],"anyOf":[true],"not":true,"oneOf":[],"properties":{"a":true},"propertyNames":{},"required":["a"],"text":false} | { AdditionalPropertiesNotEmptyFalseWithRequired1 small requires a AllOf SingleAnyOf Not OneOf PropertyNames { } Leaf }
{"not":true,"properties":{},"propertyNames":false,"required":["a","b"],"text":false} | { Not PropertiesWithRequired2 a b PropertyNamesFalse Leaf }
{"not":{"properties":{"a":true,"b":true,"c":true,"d":true,"e":true,"f":true,"g":true,"h":true,"i":true,"j":true,"k":true,"l":true,"m":true,"n":true}}} | { Not { SmallProperties } }
{"not":{"properties":{"a":true,"b":true,"c":true,"d":true,"e":true,"f":true,"g":true,"h":true,"i":true,"j":true,"k":true,"l":true,"m":true,"n":true,"o":true}}} | { Not { BigProperties } }
{"allOf":[{"properties":{"a":true,"b":true,"c":true,"d":true,"e":true,"f":true,"g":true,"h":true,"i":true,"j":true,"k":true,"l":true,"m":true,"n":true},"required":["a","b"]}]} | { SingleValueAllOf { PropertiesWithRequired2 a b } }
{"allOf":[{"properties":{"a":true,"b":true,"c":true,"d":true,"e":true,"f":true,"g":true,"h":true,"i":true,"j":true,"k":true,"l":true,"m":true,"n":true,"o":true},"required":["a","b"]}]} | { SingleValueAllOf { BigProperties Required } }
{"allOf":[{"additionalProperties":false,"properties":{"a":true,"b":true,"c":true,"d":true,"e":true,"f":true,"g":true,"h":true,"i":true,"j":true,"k":true,"l":true,"m":true,"n":true}},true]} | { AllOf { AdditionalPropertiesNotEmptyFalse small } }
{"allOf":[{"additionalProperties":false,"properties":{"a":true,"b":true,"c":true,"d":true,"e":true,"f":true,"g":true,"h":true,"i":true,"j":true,"k":true,"l":true,"m":true,"n":true,"o":true}},true]} | { AllOf { AdditionalPropertiesNotEmptyFalse big } }
{"anyOf":[{"allOf":[],"anyOf":[true],"oneOf":[true,true]}]} | { SingleAnyOf { AllOf SingleAnyOf OneOf } }
{"anyOf":[{"allOf":[true],"anyOf":[true,true],"oneOf":[]},true]} | { AnyOf { SingleValueAllOf AnyOf OneOf } }
{"oneOf":[{"allOf":[true,true],"anyOf":[],"oneOf":[true]}]} | { SingleOneOf { AllOf AnyOf SingleOneOf } }
{"oneOf":[{"patternProperties":{"a":true}},true]} | { OneOf { SingleValuePatternProperties } }
{"if":{"if":true,"then":true},"then":true} | { IfThen { IfThen } }
{"else":true,"if":{"else":true,"if":true}} | { IfElse { IfElse } }
{"else":true,"if":{"else":true,"if":true,"then":true},"then":true} | { IfThenElse { IfThenElse } }
{"properties":{"a":{"patternProperties":{"a":true,"b":true}}}} | { SmallProperties { PatternProperties } }
{"properties":{"a":{"dependentRequired":{},"propertyNames":false},"b":true,"c":true,"d":true,"e":true,"f":true,"g":true,"h":true,"i":true,"j":true,"k":true,"l":true,"m":true,"n":true,"o":true}} | { BigProperties { DependentRequired PropertyNamesFalse } }
{"properties":{"a":{"dependencies":{"a":[]}}},"required":["a","b"]} | { PropertiesWithRequired2 a b { Dependencies } }
{"patternProperties":{"a":{"dependentSchemas":{}}}} | { SingleValuePatternProperties { DependentSchemas } }
{"patternProperties":{"a":{"text":false},"b":true}} | { PatternProperties { Leaf } }
{"additionalProperties":{"additionalProperties":false,"properties":{"a":true},"required":["a"]}} | { AdditionalProperties { AdditionalPropertiesNotEmptyFalseWithRequired1 small requires a } }
{"propertyNames":{"propertyNames":{}}} | { PropertyNames { PropertyNames } }
{"dependentSchemas":{"a":{"propertyDependencies":{}}}} | { DependentSchemas { PropertyDependencies } }
{"propertyDependencies":{"a":{"b":{"not":true}}}} | { PropertyDependencies { Not } }"#;

#[test]
fn variants_that_are_built(rt: HostRuntime) -> Result<(), Fail> {
    expect_rows(rt.alloc(), VARIANTS, variants)
}
