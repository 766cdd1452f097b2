//! What `additionalProperties` shows with all that it takes over, and what its errors speak of.
//! What it finds is in the program's lines (tools/program_lines).
use crate::found::Found;
use crate::rows::{Form, Table, constant, expect, refusal};
use object_logic::{BuildError, SchemaNode, ValidationContext};
use olk_base::Meter;
use olk_bench::{BenchLeaf, BenchLeaves, BenchRegex, BenchRegexes};
use olk_build::properties::compile_small_map;
use olk_build::{Context, compile};
use olk_check::{Check, are_properties_valid};
use olk_tree::{BuiltNode, PropertiesMap};
use serde_json::{Map, Value};
use std::alloc::{AllocError, Global};
use std::test::Fail;

// A name, a schema, an instance, and what an evaluation shows below its root.
const TREES: &str =
    r##"no member is allowed, and there is none | {"additionalProperties":false} | {} | /additionalProperties@;
no member is allowed | {"additionalProperties":false} | {"a":1,"b":2} | /additionalProperties@! falseSchema: False schema does not allow 1;
a declared member and two others | {"additionalProperties":false,"properties":{"a":{"type":"integer"}}} | {"a":"x","b":1,"c":2} | /additionalProperties@! additionalProperties: Additional properties are not allowed ('b', 'c' were unexpected) (/properties/a@/a! (/properties/a/type@/a! type: "x" is not of type "integer"));
matches are a child of their own | {"additionalProperties":false,"patternProperties":{"^x":{"type":"integer"}}} | {"x1":1} | /additionalProperties@ (/patternProperties/^x@/x1 (/patternProperties/^x/type@/x1)) (/patternProperties@ [x1,]);
no match is no child | {"additionalProperties":false,"patternProperties":{"^x":true}} | {"q":1} | /additionalProperties@! additionalProperties: Additional properties are not allowed ('q' was unexpected);
two patterns, member by member | {"additionalProperties":{},"patternProperties":{"^a":{},"^ab":{}}} | {"ab":1,"ac":2} | /additionalProperties@ (/patternProperties/^a@/ab) (/patternProperties/^ab@/ab) (/patternProperties/^a@/ac) (/patternProperties@ [ab,ab,ac,]);
a schema for every member | {"additionalProperties":{"type":"integer"}} | {"a":1,"b":"x"} | /additionalProperties@! (/additionalProperties@/a (/additionalProperties/type@/a)) (/additionalProperties@/b! (/additionalProperties/type@/b! type: "x" is not of type "integer"));
a schema for every member, and there is none | {"additionalProperties":{}} | {} | /additionalProperties@ [];
a schema for the rest, and there is none | {"additionalProperties":{},"properties":{"a":{}}} | {"a":1} | /additionalProperties@ (/properties/a@/a);
a schema for the rest | {"additionalProperties":{},"properties":{"a":{}}} | {"a":1,"b":2} | /additionalProperties@ [b,] (/properties/a@/a) (/additionalProperties@/b);
what is declared and what matches, in this order | {"additionalProperties":false,"patternProperties":{"^a":{}},"properties":{"a":{}}} | {"a":1} | /additionalProperties@ (/properties/a@/a) (/patternProperties/^a@/a);
matches beside declared names are no child | {"additionalProperties":false,"patternProperties":{"^a":{}},"properties":{}} | {"a":1} | /additionalProperties@ (/patternProperties/^a@/a);
what is declared, what matches and the rest | {"additionalProperties":{},"patternProperties":{"x":{},"^x":{}},"properties":{"ax":{}}} | {"ax":1,"q":2,"x":3} | /additionalProperties@ [q,] (/properties/ax@/ax) (/patternProperties/x@/ax) (/additionalProperties@/q) (/patternProperties/^x@/x) (/patternProperties/x@/x);
declared names and patterns, and no member | {"additionalProperties":{},"patternProperties":{"x":false},"properties":{"ax":{}}} | {} | /additionalProperties@ [];
the one required name is missing | {"additionalProperties":false,"properties":{"a":{},"id":{}},"required":["id"]} | {"a":1,"q":1} | /additionalProperties@! additionalProperties: Additional properties are not allowed ('q' was unexpected) (/properties/a@/a) (/required@! required: "id" is a required property);
the one required name is there, and so are five containers | {"additionalProperties":false,"properties":{"a":{},"b":{},"c":{},"d":{},"e":{"type":"object"},"id":{}},"required":["id"]} | {"a":[],"b":{},"c":[],"d":{},"e":[],"id":1} | /additionalProperties@! (/properties/a@/a) (/properties/b@/b) (/properties/c@/c) (/properties/d@/d) (/properties/e@/e! (/properties/e/type@/e! type: [] is not of type "object")) (/properties/id@/id);
one required name beside patterns | {"additionalProperties":false,"patternProperties":{},"properties":{},"required":["a"]} | {} | /additionalProperties@;/required@! required: "a" is a required property;
one required name beside a schema for the rest | {"additionalProperties":{},"properties":{},"required":["a"]} | {} | /additionalProperties@;/required@! required: "a" is a required property;
two required names | {"additionalProperties":false,"properties":{},"required":["a","b"]} | {} | /additionalProperties@;/required@! required: "a" is a required property required: "b" is a required property;
true | {"additionalProperties":true,"properties":{"a":{}}} | {"b":1} | /properties@ [];
no object | {"additionalProperties":{},"patternProperties":{},"properties":{"a":{}},"required":["a"]} | [1] | /additionalProperties@;/required@;"##;

#[test]
fn trees_of_restrictions(rt: HostRuntime) -> Result<(), Fail> {
    expect(&Found::Trees, rt.alloc(), Table::Named(TREES))
}

// A schema, an instance, and what its errors speak of.
const INSTANCES: &str = r#"{"additionalProperties":false} | {"b":2,"a":[1]} |  of [1]
{"additionalProperties":false,"properties":{}} | {"b":2,"a":[1]} |  of {"a":[1],"b":2}"#;

#[test]
fn an_error_speaks_of_the_object_or_of_its_first_member(rt: HostRuntime) -> Result<(), Fail> {
    expect(&Found::Instances, rt.alloc(), Table::Asked(INSTANCES))
}

// ---- without patterns

type BenchNode = SchemaNode<BenchLeaf, BenchRegex>;

fn declared<N: BuiltNode<BenchLeaf, BenchRegex>>(
    alloc: Global,
    names: &Map<String, Value>,
) -> Option<PropertiesMap<N>> {
    let mut meter = Meter::new();
    let mut ctx = Context::new(alloc, &BenchLeaves, &BenchRegexes, &mut meter);
    match compile_small_map(alloc, &mut ctx, names) {
        Ok(map) => Some(PropertiesMap::Small(map)),
        Err(_) => None,
    }
}

fn are_accepted<N: Check>(
    map: &PropertiesMap<N>,
    members: &Map<String, Value>,
    rest: Option<&N>,
) -> bool {
    are_properties_valid(map, members, rest, &mut ValidationContext::new(false))
}

/// Whether the members are accepted with a schema for the rest, and without one.
fn verdicts<N: Check>(
    alloc: Global,
    map: &PropertiesMap<N>,
    rest: &N,
    members: &Map<String, Value>,
) -> Result<String, AllocError> {
    let with_rest = are_accepted(map, members, Some(rest));
    let without = are_accepted(map, members, None);
    format!(in alloc; "{with_rest}, {without}")
}

fn beside<N: BuiltNode<BenchLeaf, BenchRegex> + Check>(
    alloc: Global,
    names: &Map<String, Value>,
    rest: &N,
    members: &Map<String, Value>,
) -> Result<String, AllocError> {
    let declared: Option<PropertiesMap<N>> = declared(alloc, names);
    let told = match &declared {
        Some(map) => verdicts(alloc, map, rest, members),
        None => String::from_str(alloc, "not built"),
    };
    drop(declared);
    told
}

/// The verdicts of `beside`, over values.
fn zip_names<N: BuiltNode<BenchLeaf, BenchRegex> + Check>(
    alloc: Global,
    names: &Value,
    rest: &N,
    members: &Value,
) -> Result<String, AllocError> {
    match (names.as_object(), members.as_object()) {
        (Some(names), Some(members)) => beside(alloc, names, rest, members),
        _ => String::from_str(alloc, "no object"),
    }
}

/// The verdicts of `beside_names`, where the node for the rest is built of this schema.
fn with_rest<N: BuiltNode<BenchLeaf, BenchRegex> + Check>(
    alloc: Global,
    names: &Value,
    rest: &Value,
    members: &Value,
) -> Result<String, AllocError> {
    let mut meter = Meter::new();
    let mut ctx = Context::new(alloc, &BenchLeaves, &BenchRegexes, &mut meter);
    let rest: Result<N, BuildError<'_>> = compile(alloc, &mut ctx, rest);
    let told = match &rest {
        Ok(rest) => zip_names(alloc, names, rest, members),
        Err(error) => refusal(alloc, error),
    };
    drop(rest);
    told
}

fn with_names(alloc: Global, names: &Value, members: &Value) -> Result<String, AllocError> {
    let rest = constant(alloc, r#"{"type":"string"}"#)?;
    let told = with_rest::<BenchNode>(alloc, names, &rest, members);
    drop(rest);
    told
}

#[derive(Drop)]
struct DeclaredAndRest;

impl Form for DeclaredAndRest {
    fn answer(
        &self,
        alloc: Global,
        members: &Value,
        _instance: &Value,
    ) -> Result<String, AllocError> {
        let names = constant(alloc, r#"{"a":{"type":"integer"}}"#)?;
        let told = with_names(alloc, &names, members);
        drop(names);
        told
    }
}

// An instance, and whether it is accepted with a schema for the rest, and without one.
const DECLARED_AND_REST: &str = r#"{"a":1} | true, true
{"a":"x"} | false, false
{"a":1,"b":"x"} | true, false
{"a":1,"b":2} | false, false"#;

#[test]
fn declared_members_and_others(rt: HostRuntime) -> Result<(), Fail> {
    expect(
        &DeclaredAndRest,
        rt.alloc(),
        Table::Schemas(DECLARED_AND_REST),
    )
}
