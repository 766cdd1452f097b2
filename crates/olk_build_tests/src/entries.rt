//! Maps and patterns that are compiled by themselves.
use crate::lines::{push_nodes, push_patterns};
use crate::shown::{PlainNode, Shown};
use olk_base::{CompiledPattern, Meter};
use olk_base_tests::doubles::{EqualTo, Equality, NoText, NoTexts};
use olk_base_tests::tables::expect_rows;
use olk_build::{Context, pattern_properties, properties};
use olk_reports::BuildError;
use olk_tree::built_node::BuiltNode;
use olk_tree::{BigMap, Entries, SmallMap};
use serde_json::{Map, Value};
use std::alloc::{AllocError, Global};
use std::test::Fail;

// ---- what is compiled, as a line

/// Where what is not built is refused.
fn refused_line(alloc: Global, error: &BuildError<'_>) -> Result<String, AllocError> {
    match error {
        BuildError::Refused(error) => format!(in alloc; " refused {}", error.schema_path()),
        BuildError::Memory(_) => Err(AllocError),
    }
}

/// Names, each with its node.
fn nodes_line<N: Shown>(alloc: Global, entries: Entries<'_, N>) -> Result<String, AllocError> {
    let mut text = String::new(alloc);
    push_nodes(&mut text, entries)?;
    Ok(text)
}

fn small_map_line<N: Shown>(
    alloc: Global,
    built: &Result<SmallMap<N>, BuildError<'_>>,
) -> Result<String, AllocError> {
    match built {
        Ok(map) => nodes_line(alloc, map.entries()),
        Err(error) => refused_line(alloc, error),
    }
}

fn big_map_line<N: Shown>(
    alloc: Global,
    built: &Result<BigMap<N>, BuildError<'_>>,
) -> Result<String, AllocError> {
    match built {
        Ok(map) => nodes_line(alloc, map.entries()),
        Err(error) => refused_line(alloc, error),
    }
}

/// Patterns, each with its node.
fn patterns_line<R, N: Shown>(
    alloc: Global,
    patterns: &[(CompiledPattern<R>, N)],
) -> Result<String, AllocError> {
    let mut text = String::new(alloc);
    push_patterns(&mut text, patterns)?;
    Ok(text)
}

fn pattern_line<R, N: Shown>(
    alloc: Global,
    built: &Result<Vec<(CompiledPattern<R>, N)>, BuildError<'_>>,
) -> Result<String, AllocError> {
    match built {
        Ok(patterns) => patterns_line(alloc, patterns.as_slice()),
        Err(error) => refused_line(alloc, error),
    }
}

fn line_of_small_map<N: BuiltNode<NoText, EqualTo> + Shown>(
    alloc: Global,
    declared: &Map<String, Value>,
    meter: &mut Meter,
) -> Result<String, AllocError> {
    let mut ctx = Context::new(alloc, &NoTexts, &Equality, meter);
    let built: Result<SmallMap<N>, BuildError<'_>> = properties::compile_small_map(
        alloc, &mut ctx, declared,
    );
    let line = small_map_line(alloc, &built);
    drop(built);
    drop(ctx);
    line
}

fn line_of_big_map<N: BuiltNode<NoText, EqualTo> + Shown>(
    alloc: Global,
    declared: &Map<String, Value>,
    meter: &mut Meter,
) -> Result<String, AllocError> {
    let mut ctx = Context::new(alloc, &NoTexts, &Equality, meter);
    let built: Result<BigMap<N>, BuildError<'_>> = properties::compile_big_map(
        alloc, &mut ctx, declared,
    );
    let line = big_map_line(alloc, &built);
    drop(built);
    drop(ctx);
    line
}

fn line_of_patterns<N: BuiltNode<NoText, EqualTo> + Shown>(
    alloc: Global,
    patterns: &Map<String, Value>,
    meter: &mut Meter,
) -> Result<String, AllocError> {
    let mut ctx = Context::new(alloc, &NoTexts, &Equality, meter);
    let built: Result<Vec<(CompiledPattern<EqualTo>, N)>, BuildError<'_>> =
        pattern_properties::compile_patterns(alloc, &mut ctx, patterns);
    let line = pattern_line(alloc, &built);
    drop(built);
    drop(ctx);
    line
}

fn line_of<N: BuiltNode<NoText, EqualTo> + Shown>(
    alloc: Global,
    kind: &str,
    entries: &Map<String, Value>,
    meter: &mut Meter,
) -> Result<String, AllocError> {
    match kind {
        "small" => line_of_small_map::<N>(alloc, entries, meter),
        "big" => line_of_big_map::<N>(alloc, entries, meter),
        _ => line_of_patterns::<N>(alloc, entries, meter),
    }
}

/// A line behind what is counted, or the place of what is refused.
fn counted(alloc: Global, meter: &Meter, line: &str) -> Result<String, AllocError> {
    if let Some(place) = line.strip_prefix(" refused ") {
        return String::from_str(alloc, place);
    }
    let (places, leaves, engines) = (meter.compiled(), meter.leaves(), meter.made());
    format!(in alloc; "{places} {leaves} {engines}{line}")
}

fn told_of(alloc: Global, kind: &str, entries: &Map<String, Value>) -> Result<String, AllocError> {
    let mut meter = Meter::new();
    let line = line_of::<PlainNode>(alloc, kind, entries, &mut meter)?;
    let told = counted(alloc, &meter, &line);
    drop(line);
    told
}

fn told_of_value(alloc: Global, kind: &str, object: &Value) -> Result<String, Fail> {
    match object.as_object() {
        Some(entries) => Ok(told_of(alloc, kind, entries)?),
        None => Err(Fail::new("no object")),
    }
}

fn told_of_json(alloc: Global, kind: &str, json: &str) -> Result<String, Fail> {
    let object = Value::from_str(alloc, json)?;
    let told = told_of_value(alloc, kind, &object);
    drop(object);
    told
}

/// What is compiled of an object, as a map of few names, a map of many, or patterns.
fn compiled(alloc: Global, row: &str) -> Result<String, Fail> {
    match row.split_once(" | ") {
        Some((kind, json)) => told_of_json(alloc, kind, json),
        None => Err(Fail::new(row)),
    }
}

// ---- the tables

// An object, and what is compiled of it: how many places, leaves and engines, and each name with
// its node.
const ENTRIES: &str =
    r#"small | {"b":{"text":false},"":{},"a/~":{"not":true}} | 4 1 0 : /properties/ a/~: /properties/a~1~0 b: /properties/b
big | {"b":{"text":false},"":{},"a/~":{"not":true}} | 4 1 0 : /properties/ a/~: /properties/a~1~0 b: /properties/b
patterns | {"b":{"text":false},"^a/~":{"not":true},"a$":true} | 4 1 1 prefix: /patternProperties/^a~1~0 suffix: /patternProperties/a$ engine: /patternProperties/b
small | {} | 0 0 0
big | {} | 0 0 0
patterns | {} | 0 0 0"#;

#[test]
fn entries_that_are_compiled_by_themselves(rt: HostRuntime) -> Result<(), Fail> {
    expect_rows(rt.alloc(), ENTRIES, compiled)
}

// An object, and the place of what is refused.
const REFUSED: &str = r#"small | {"a/":5,"b":{}} | /properties/a~1
big | {"a/":{},"b":{"text":true}} | /properties/b/text
patterns | {"(":{},"a":5} | /patternProperties/(
patterns | {"^a/":5} | /patternProperties/^a~1"#;

#[test]
fn entries_that_are_refused(rt: HostRuntime) -> Result<(), Fail> {
    expect_rows(rt.alloc(), REFUSED, compiled)
}
