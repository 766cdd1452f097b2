//! Schemas of older drafts.
use olk_base_tests::tables::{expect_rows, two};
use olk_drafts::{Draft, Source, translate};
use serde_json::Value;
use std::alloc::Global;
use std::collections::BTreeSet;
use std::test::Fail;

fn draft_of(word: &str) -> Draft {
    match word {
        "4" => Draft::Draft4,
        "6" => Draft::Draft6,
        "7" => Draft::Draft7,
        "2019-09" => Draft::Draft201909,
        _ => Draft::Draft202012,
    }
}

fn translated(alloc: Global, cells: &str) -> Result<String, Fail> {
    let (draft, schema) = two(cells);
    let schema = Value::from_str(alloc, schema)?;
    let files = BTreeSet::new(alloc);
    let source = Source {
        draft: draft_of(draft),
        file: "",
        main: "schema.json",
        files: &files,
    };
    let translation = translate(alloc, &source, &schema)?;
    Ok(translation.to_string(alloc)?)
}

/// Each row is a draft, a schema of it, and what it is as a schema of 2020-12, by the texts of the
/// drafts: 2019-09 Core, 9.3.1; draft 7 Core, 8.3, and Validation, 6.4; draft 4 Core, 3.5, and
/// Validation, 5.1.2, 5.1.3 and 5.5.2.
const ROWS: &str =
    r##"7 | {"additionalItems":false,"items":[{"type":"integer"},true]} | {"items":false,"prefixItems":[{"type":"integer"},true]}
2019-09 | {"properties":{"a":{"items":[{"items":[]}]}}} | {"properties":{"a":{"prefixItems":[{"prefixItems":[]}]}}}
6 | {"additionalItems":false,"items":{}} | {"items":{}}
2020-12 | {"additionalItems":false,"items":[true]} | {"additionalItems":false,"items":[true]}
7 | {"$ref":"#/definitions/a","definitions":{"a":{"items":[true]}},"maxItems":2,"x":1} | {"$ref":"#/definitions/a","definitions":{"a":{"prefixItems":[true]}},"x":1}
2019-09 | {"$ref":"#/$defs/a","maxItems":2} | {"$ref":"#/$defs/a","maxItems":2}
4 | {"maxProperties":2,"properties":{"$ref":{"type":"string"}}} | {"maxProperties":2,"properties":{"$ref":{"type":"string"}}}
4 | {"exclusiveMinimum":true,"minimum":3} | {"exclusiveMinimum":3}
4 | {"exclusiveMaximum":false,"maximum":3} | {"maximum":3}
4 | {"exclusiveMaximum":true} | {}
6 | {"exclusiveMinimum":2,"minimum":3} | {"exclusiveMinimum":2,"minimum":3}
4 | {"id":"http://a.example/s"} | {"$id":"http://a.example/s"}
4 | {"const":1,"contains":{},"if":true,"propertyNames":{},"type":"integer"} | {"type":"integer of draft 4"}
6 | {"const":1,"if":true,"then":false} | {"const":1}
7 | {"dependentSchemas":{"a":false},"else":false,"minContains":1} | {"else":false}
2019-09 | {"dependentSchemas":{"a":false},"prefixItems":[false]} | {"dependentSchemas":{"a":false}}
7 | {"const":{"items":[1]},"default":{"items":[1]},"dependencies":{"a":["items"]},"enum":[{"items":[1]}],"examples":[{"items":[1]}]} | {"const":{"items":[1]},"default":{"items":[1]},"dependencies":{"a":["items"]},"enum":[{"items":[1]}],"examples":[{"items":[1]}]}
2019-09 | {"dependentRequired":{"items":["a"]},"x":{"y":{"items":[1]}}} | {"dependentRequired":{"items":["a"]},"x":{"y":{"prefixItems":[1]}}}
7 | {"propertyDependencies":{"a":{"b":{"items":[]}}}} | {"propertyDependencies":{"a":{"b":{"prefixItems":[]}}}}
4 | {"allOf":[{"items":[]}],"not":{"items":[]}} | {"allOf":[{"prefixItems":[]}],"not":{"prefixItems":[]}}
4 | {"items":{"type":["integer","null","number"]}} | {"items":{"type":["integer of draft 4","null","number"]}}
4 | {"default":{"type":"integer"},"dependencies":{"type":["integer"]}} | {"default":{"type":"integer"},"dependencies":{"type":["integer"]}}
4 | {"properties":{"type":{"type":"integer"}}} | {"properties":{"type":{"type":"integer of draft 4"}}}
6 | {"type":["integer"]} | {"type":["integer"]}"##;

#[test]
fn translations(rt: HostRuntime) -> Result<(), Fail> {
    expect_rows(rt.alloc(), ROWS, translated)
}

fn word_of(draft: Draft) -> &'static str {
    match draft {
        Draft::Draft4 => "4",
        Draft::Draft6 => "6",
        Draft::Draft7 => "7",
        Draft::Draft201909 => "2019-09",
        Draft::Draft202012 => "2020-12",
    }
}

fn draft_found(alloc: Global, schema: &str) -> Result<String, Fail> {
    let schema = Value::from_str(alloc, schema)?;
    let word = match Draft::of(&schema) {
        Some(draft) => word_of(draft),
        None => "none",
    };
    Ok(String::from_str(alloc, word)?)
}

/// Each row is a schema and its draft.
const DRAFTS: &str = r##"{"$schema":"http://json-schema.org/draft-04/schema#"} | 4
{"$schema":"http://json-schema.org/draft-06/schema#"} | 6
{"$schema":"http://json-schema.org/draft-07/schema"} | 7
{"$schema":"https://json-schema.org/draft-07/schema#"} | 7
{"$schema":"https://json-schema.org/draft/2019-09/schema"} | 2019-09
{"$schema":"https://json-schema.org/draft/2020-12/schema"} | 2020-12
{"$schema":"http://json-schema.org/draft-03/schema#"} | none
{"$schema":"http://json-schema.org/schema#"} | 2020-12
{"$schema":"https://json-schema.org/schema"} | 2020-12
{"$schema":"http://json-schema.org/schema##"} | none
{"$schema":"https://json-schema.org/draft-07/schema#/definitions"} | none
{"$schema":7} | 2020-12
{"$schema":""} | none
{} | 2020-12
true | 2020-12"##;

#[test]
fn drafts(rt: HostRuntime) -> Result<(), Fail> {
    expect_rows(rt.alloc(), DRAFTS, draft_found)
}
