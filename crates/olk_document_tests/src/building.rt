//! Documents, built and asked: without references, and with one target.
use olk_base::{Meter, Node, ValidationContext};
use olk_base_tests::tables::{expect_rows, three};
use olk_bench::{BenchLeaf, BenchLeaves, BenchRegex, BenchRegexes};
use olk_build::Context;
use olk_check::IsValid;
use olk_document_build::{Targets, compile_under};
use olk_documents::DocumentNode;
use olk_reports::BuildError;
use serde_json::Value;
use std::alloc::Global;
use std::rc::Rc;
use std::test::Fail;

type BenchTargets = Targets<BenchLeaf, BenchRegex>;

type Built<'a> = Result<DocumentNode<BenchLeaf, BenchRegex>, BuildError<'a>>;

fn word_of(built: &Built<'_>, value: &Value) -> &'static str {
    match built {
        Ok(node) => {
            let mut ctx = ValidationContext::new(false);
            if node.is_valid(Node::Value(value), &mut ctx) {
                "true"
            } else {
                "false"
            }
        }
        Err(BuildError::Refused(_)) => "refused",
        Err(BuildError::Memory(_)) => "no memory",
    }
}

fn built_under<'a>(alloc: Global, targets: &BenchTargets, schema: &'a Value) -> Built<'a> {
    let mut meter = Meter::new();
    let mut ctx = Context::new(alloc, &BenchLeaves, &BenchRegexes, &mut meter);
    compile_under(alloc, &mut ctx, targets, schema)
}

/// `SCHEMA | VALUE`.
fn verdict(alloc: Global, row: &str) -> Result<String, Fail> {
    let (schema, value) = row.split_once(" | ").ok_or("two cells")?;
    let schema = Value::from_str(alloc, schema)?;
    let value = Value::from_str(alloc, value)?;
    let built = built_under(alloc, &Targets::new(alloc), &schema);
    Ok(String::from_str(alloc, word_of(&built, &value))?)
}

/// `PLACE | SCHEMA | VALUE`: references of the schema name the place by `#/a`.
fn verdict_by_target(alloc: Global, row: &str) -> Result<String, Fail> {
    let (place, schema, value) = three(row).ok_or("three cells")?;
    let place = Value::from_str(alloc, place)?;
    let schema = Value::from_str(alloc, schema)?;
    let value = Value::from_str(alloc, value)?;
    let mut targets = Targets::new(alloc);
    let target = built_under(alloc, &Targets::new(alloc), &place)
        .ok()
        .ok_or("a place")?;
    let target = Rc::new(alloc, target)?;
    targets
        .nodes
        .insert(String::from_str(alloc, "#/a")?, target)?;
    let built = built_under(alloc, &targets, &schema);
    Ok(String::from_str(alloc, word_of(&built, &value))?)
}

const ROWS: &str = r##"{"prefixItems":[{"type":"integer"},{"type":"string"}]} | [1,"foo"] | true
{"prefixItems":[{"type":"integer"},{"type":"string"}]} | ["foo",1] | false
{"prefixItems":[{"type":"string"}],"items":{"type":"integer"}} | ["x",2,3] | true
{"prefixItems":[{"type":"string"}],"items":{"type":"integer"}} | ["x","y"] | false
{"items":{"type":"integer"}} | [1,2,3] | true
{"items":{"type":"integer"}} | [1,"x"] | false
{"items":false} | [1,"foo",true] | false
{"items":false} | [] | true
{"properties":{"tags":{"items":{"type":"string"}}},"required":["tags"]} | {"tags":["a"]} | true
{"properties":{"tags":{"items":{"type":"string"}}},"required":["tags"]} | {"tags":["a",5]} | false
{"properties":{"tags":{"items":{"type":"string"}}},"required":["tags"]} | {} | false
{"additionalProperties":{"items":{"additionalProperties":false}}} | {"a":[{}]} | true
{"additionalProperties":{"items":{"additionalProperties":false}}} | {"a":[{"b":1}]} | false
{"contains":{"minimum":5}} | [3,4,5] | true
{"contains":{"minimum":5}} | [2,3,4] | false
{"contains":{"minimum":5}} | [] | false
{"contains":{"minimum":5}} | {} | true
{"contains":{"const":1},"minContains":0} | [] | true
{"contains":{"const":1},"minContains":2} | [1,2] | false
{"contains":{"const":1},"minContains":2,"maxContains":2} | [1,1,2] | true
{"contains":{"const":1},"maxContains":1} | [1,1] | false
{"maxContains":1} | [1,2] | true
{"if":{"items":{"type":"string"}},"then":{"contains":{"const":"a"}},"else":{"minContains":1}} | ["b"] | false
{"contains":{"const":1},"minContains":2.0} | [1,2] | false
{"contains":{"const":1},"maxContains":1.0} | [1,2] | true
{"minContains":-1} | 1 | refused
{"minContains":1.5} | 1 | refused
{"prefixItems":{}} | 1 | refused
{"items":[true]} | 1 | refused
{"contains":5} | 1 | refused
{"items":{"required":5}} | 1 | refused
{"$ref":"#/a"} | 1 | refused
{"properties":{"$ref":{"type":"string"}}} | {"$ref":2} | false"##;

#[test]
fn documents(rt: HostRuntime) -> Result<(), Fail> {
    expect_rows(rt.alloc(), ROWS, verdict)
}

const ROWS_BY_TARGET: &str = r##"{"type":"string"} | {"$ref":"#/a"} | "x" | true
{"type":"string"} | {"$ref":"#/a"} | 1 | false
{"type":"string"} | {"$ref":"#/a","maxLength":2} | "abc" | false
{"type":"string"} | {"items":{"$ref":"#/a"}} | ["x",1] | false
{"type":"string"} | {"properties":{"b":{"$ref":"#/a"}},"additionalProperties":{"$ref":"#/a"}} | {"b":"x","c":1} | false
false | {"not":{"$ref":"#/a"}} | 1 | true
true | {"$ref":"#/b"} | 1 | refused
true | {"$ref":1} | 1 | refused"##;

#[test]
fn references(rt: HostRuntime) -> Result<(), Fail> {
    expect_rows(rt.alloc(), ROWS_BY_TARGET, verdict_by_target)
}
