//! Whether `properties` fuses the names that `required` lists.
use crate::shown::{PlainNode, Shown};
use olk_base::Meter;
use olk_base_tests::doubles::{EqualTo, Equality, NoText, NoTexts};
use olk_base_tests::tables::expect_rows;
use olk_build::{Context, compile, properties, required};
use olk_reports::BuildError;
use olk_tree::KeywordOver;
use olk_tree::built_node::BuiltNode;
use serde_json::{Map, Value};
use std::alloc::{AllocError, Global};
use std::test::Fail;

fn declare(members: &mut Map<String, Value>, name: String) -> Result<(), AllocError> {
    members.insert(name, Value::Bool(true))?;
    Ok(())
}

fn add_declared(
    members: &mut Map<String, Value>,
    alloc: Global,
    count: usize,
) -> Result<(), AllocError> {
    for i in 0..count {
        declare(members, format!(in alloc; "m{i:02}")?)?;
    }
    Ok(())
}

/// So many declared names.
fn declared(alloc: Global, count: usize) -> Result<Value, AllocError> {
    let mut declared = Map::new(alloc);
    add_declared(&mut declared, alloc, count)?;
    Ok(Value::Object(declared))
}

fn add_properties(
    members: &mut Map<String, Value>,
    alloc: Global,
    count: usize,
) -> Result<(), AllocError> {
    let declared = declared(alloc, count)?;
    members.insert(String::from_str(alloc, "properties")?, declared)?;
    Ok(())
}

/// Adds so many declared names to a schema object.
fn close(schema: &mut Value, alloc: Global, count: usize) -> Result<(), Fail> {
    match schema.as_object_mut() {
        Some(members) => Ok(add_properties(members, alloc, count)?),
        None => Err(Fail::from("no object")),
    }
}

/// A schema object with so many declared names, beside these members.
fn closed(alloc: Global, count: usize, others: &str) -> Result<Value, Fail> {
    let mut schema = Value::from_str(alloc, others)?;
    close(&mut schema, alloc, count)?;
    Ok(schema)
}

/// What a keyword's module compiles. It is dropped by name: where it ends with its scope, the proof
/// takes a minute longer.
type Made<'a, N> = Option<Result<KeywordOver<NoText, EqualTo, N>, BuildError<'a>>>;

/// Whether it is a keyword of `properties` that fuses what `required` lists.
fn is_fused<N>(made: &Made<'_, N>) -> Result<bool, Fail> {
    match made {
        Some(Ok(KeywordOver::PropertiesWithRequired2(keyword))) => {
            Ok(
                keyword.location.as_str() == "/properties"
                    && keyword.required_location.as_str() == "/required",
            )
        }
        Some(Ok(KeywordOver::SmallProperties(_) | KeywordOver::BigProperties(_))) => Ok(false),
        _ => Err(Fail::from("not built")),
    }
}

/// Whether the keyword of `properties` fuses what `required` lists.
fn fuses<N: BuiltNode<NoText, EqualTo>>(
    alloc: Global,
    parent: &Map<String, Value>,
) -> Result<bool, Fail> {
    let mut meter = Meter::new();
    let mut ctx = Context::new(alloc, &NoTexts, &Equality, &mut meter);
    let declared = parent.get("properties").unwrap_or(&Value::Null);
    let made: Made<'_, N> = properties::compile(alloc, &mut ctx, parent, declared);
    let is_fused = is_fused(&made);
    drop(made);
    drop(ctx);
    is_fused
}

/// Whether `required` has a keyword of its own.
fn stands_alone<N: BuiltNode<NoText, EqualTo>>(alloc: Global, parent: &Map<String, Value>) -> bool {
    let mut meter = Meter::new();
    let mut ctx = Context::new(alloc, &NoTexts, &Equality, &mut meter);
    let listed = parent.get("required").unwrap_or(&Value::Null);
    let made: Made<'_, N> = required::compile(alloc, &mut ctx, parent, listed);
    let is_some = made.is_some();
    drop(made);
    drop(ctx);
    is_some
}

/// How many keywords the node has.
fn count_of<N: Shown>(built: &Result<N, BuildError<'_>>) -> Result<usize, Fail> {
    match built {
        Ok(node) => Ok(node.keyword_count().ok_or("no keywords")?),
        Err(_) => Err(Fail::from("not built")),
    }
}

/// How many keywords the schema has.
fn keyword_count<N: BuiltNode<NoText, EqualTo> + Shown>(
    alloc: Global,
    schema: &Value,
) -> Result<usize, Fail> {
    let mut meter = Meter::new();
    let mut ctx = Context::new(alloc, &NoTexts, &Equality, &mut meter);
    let built: Result<N, BuildError<'_>> = compile(alloc, &mut ctx, schema);
    let count = count_of(&built);
    drop(built);
    drop(ctx);
    count
}

fn line_of<N: BuiltNode<NoText, EqualTo> + Shown>(
    alloc: Global,
    schema: &Value,
    parent: &Map<String, Value>,
) -> Result<String, Fail> {
    let is_fused = fuses::<N>(alloc, parent)?;
    let is_alone = stands_alone::<N>(alloc, parent);
    let count = keyword_count::<N>(alloc, schema)?;
    Ok(format!(in alloc; "{is_fused} {is_alone} {count}")?)
}

fn line_of_value(alloc: Global, schema: &Value) -> Result<String, Fail> {
    match schema.as_object() {
        Some(parent) => line_of::<PlainNode>(alloc, schema, parent),
        None => Err(Fail::from("no object")),
    }
}

fn line_beside(alloc: Global, count: usize, others: &str) -> Result<String, Fail> {
    let schema = closed(alloc, count, others)?;
    let line = line_of_value(alloc, &schema);
    drop(schema);
    line
}

/// Of a number of declared names and the members beside them: whether `properties` fuses what
/// `required` lists, whether `required` stands alone, and how many keywords there are.
fn found(alloc: Global, row: &str) -> Result<String, Fail> {
    match row.split_once(" ") {
        Some((count, others)) => line_beside(alloc, count.parse()?, others),
        None => Err(Fail::new(row)),
    }
}

const FUSED: &str = r#"0 {"required":["a","b"]} | true false 1
14 {"required":["a","b"]} | true false 1
14 {"required":["b","a"]} | true false 1
15 {"required":["a","b"]} | false true 2
14 {"required":["a","a"]} | false true 2
14 {"required":[]} | false true 2
14 {"required":["a"]} | false true 2
14 {"required":["a","b","c"]} | false true 2"#;

#[test]
fn required_names_that_are_fused(rt: HostRuntime) -> Result<(), Fail> {
    expect_rows(rt.alloc(), FUSED, found)
}

// Beside a pattern that matches every declared name, `required` is never fused.
const BESIDE_PATTERNS: &str =
    r#"0 {"patternProperties":{"^m":true},"required":["a","b"]} | false true 3
14 {"patternProperties":{"^m":true},"required":["a","b"]} | false true 3
15 {"patternProperties":{"^m":true},"required":["a","b"]} | false true 3
16 {"patternProperties":{"^m":true},"required":["a","b"]} | false true 3"#;

#[test]
fn required_names_beside_patterns(rt: HostRuntime) -> Result<(), Fail> {
    expect_rows(rt.alloc(), BESIDE_PATTERNS, found)
}
