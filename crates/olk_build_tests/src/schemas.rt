//! Whole schemas: what is counted of those that are built, and what is told of those that are
//! refused.
use crate::shown::{PlainNode, Shown};
use olk_base::Meter;
use olk_base_tests::doubles::{EqualTo, Equality, NoText, NoTexts};
use olk_base_tests::tables::expect_rows;
use olk_build::{Context, compile};
use olk_reports::{BuildError, ValidationError};
use olk_tree::built_node::BuiltNode;
use serde_json::Value;
use std::alloc::{AllocError, Global};
use std::test::Fail;

// ---- schemas that are built

/// The place of the node, where the context's place stayed as it was.
fn place_of<N: Shown>(
    alloc: Global,
    context: &str,
    built: &Result<N, BuildError<'_>>,
) -> Result<String, Fail> {
    if context != "/definitions" {
        return Err(Fail::from("the context's place moved"));
    }
    match built {
        Ok(node) => Ok(String::from_str(alloc, node.place())?),
        Err(_) => Err(Fail::from("not built")),
    }
}

/// A context whose place is below `definitions`.
fn below_definitions<'c>(
    alloc: Global,
    meter: &'c mut Meter,
) -> Result<Context<'c, NoTexts, Equality>, AllocError> {
    let mut ctx = Context::new(alloc, &NoTexts, &Equality, meter);
    ctx.place = ctx.place.join(alloc, "definitions")?;
    Ok(ctx)
}

/// The place of the node that is built there.
fn built_place<N: BuiltNode<NoText, EqualTo> + Shown>(
    alloc: Global,
    schema: &Value,
    meter: &mut Meter,
) -> Result<String, Fail> {
    let mut ctx = below_definitions(alloc, meter)?;
    let built: Result<N, BuildError<'_>> = compile(alloc, &mut ctx, schema);
    let place = place_of(alloc, ctx.location(), &built);
    drop(built);
    drop(ctx);
    place
}

/// A place behind what is counted: how many places, leaves and engines, and how often these are
/// asked.
fn counted(alloc: Global, meter: &Meter, place: &str) -> Result<String, AllocError> {
    let (places, leaves) = (meter.compiled(), meter.leaves());
    let (engines, asks) = (meter.made(), meter.asked());
    format!(in alloc; "{places} {leaves} {engines} {asks} {place}")
}

fn counted_place(alloc: Global, schema: &Value) -> Result<String, Fail> {
    let mut meter = Meter::new();
    let place = built_place::<PlainNode>(alloc, schema, &mut meter)?;
    let counted = counted(alloc, &meter, &place);
    drop(place);
    Ok(counted?)
}

/// What is counted of a schema that is built, and where.
fn built(alloc: Global, text: &str) -> Result<String, Fail> {
    let schema = Value::from_str(alloc, text)?;
    let counted = counted_place(alloc, &schema);
    drop(schema);
    counted
}

// A schema, what is counted of it, and where it is built.
const BUILT: &str = r#"true | 1 0 0 0 /definitions
{} | 1 0 0 0 /definitions
{"other":{"properties":5}} | 1 0 0 0 /definitions
{"properties":{"a":true,"b":{"text":false}},"required":["a"]} | 3 1 0 0 /definitions
{"allOf":[{},{"anyOf":[true,false]}],"not":{"text":false}} | 6 1 0 0 /definitions
{"dependencies":{"a":["b"],"c":{"text":false}},"propertyDependencies":{"k":{"t":{"propertyNames":{}}}}} | 4 1 0 0 /definitions
{"patternProperties":{"^a":{"text":false},"b$":true}} | 3 1 0 0 /definitions
{"additionalProperties":{"text":false},"patternProperties":{"^a":{}},"properties":{"b":true},"required":["b"]} | 4 1 0 0 /definitions"#;

#[test]
fn schemas_that_are_built(rt: HostRuntime) -> Result<(), Fail> {
    expect_rows(rt.alloc(), BUILT, built)
}

// What is read of a condition is counted once, and nothing else of it.
const CONDITIONS: &str = r#"{"if":5} | 1 0 0 0 /definitions
{"else":{"text":false},"then":5} | 1 0 0 0 /definitions
{"if":{"text":false},"then":{}} | 3 1 0 0 /definitions
{"else":{"text":false},"if":{"if":7},"then":{"text":false}} | 4 2 0 0 /definitions
{"allOf":[{"if":{},"then":{"text":false}},true]} | 5 1 0 0 /definitions"#;

#[test]
fn conditions_that_are_built(rt: HostRuntime) -> Result<(), Fail> {
    expect_rows(rt.alloc(), CONDITIONS, built)
}

// ---- schemas that are refused

// A schema, and what is told: the place of what is refused, and the text; the root is `.` here.
const REFUSED: &str = r##"7 | . 7 is not of types "boolean", "object"
{"allOf":[5]} | ./allOf/0 5 is not of types "boolean", "object"
{"anyOf":{}} | ./anyOf {} is not of type "array"
{"not":[]} | ./not [] is not of types "boolean", "object"
{"properties":5} | ./properties 5 is not of type "object"
{"required":["a",5]} | ./required 5 is not of type "string"
{"required":true} | ./required true is not of type "array"
{"properties":{"a":{"$ref":"#"}}} | ./properties/a/$ref "$ref" is not supported here
{"oneOf":{}} | ./oneOf {} is not of type "array"
{"additionalProperties":5,"properties":{"a":5}} | ./additionalProperties 5 is not of types "boolean", "object"
{"additionalProperties":{"text":true},"properties":{}} | ./additionalProperties/text true is not a value for "text"
{"additionalProperties":false,"properties":5} | ./properties 5 is not of type "object"
{"additionalProperties":{},"patternProperties":{"(":{}},"properties":{"a":{}}} | ./patternProperties/( "(" is not a "regex"
{"additionalProperties":false,"properties":{"a":{}},"required":[5]} | ./required 5 is not of type "string"
{"patternProperties":5} | ./patternProperties 5 is not of type "object"
{"patternProperties":{"(":{}}} | ./patternProperties/( "(" is not a "regex"
{"patternProperties":{"^a/~":5}} | ./patternProperties/^a~1~0 5 is not of types "boolean", "object"
{"if":5,"then":{}} | ./if 5 is not of types "boolean", "object"
{"if":{},"then":[]} | ./then [] is not of types "boolean", "object"
{"else":{"text":true},"if":{}} | ./else/text true is not a value for "text"
{"not":{"text":true}} | ./not/text true is not a value for "text"
{"propertyNames":{"text":true}} | ./propertyNames/text true is not a value for "text"
{"dependentRequired":[]} | ./dependentRequired [] is not of type "object"
{"dependentRequired":{"a/b":{}}} | ./dependentRequired/a~1b {} is not of type "array"
{"dependentRequired":{"a":["b","b"]}} | ./dependentRequired/a ["b","b"] has non-unique elements
{"dependentRequired":{"a":["b","c","b"]}} | ./dependentRequired/a ["b","c","b"] has non-unique elements
{"dependentRequired":{"a":["b","b",1]}} | ./dependentRequired/a ["b","b",1] has non-unique elements
{"dependentRequired":{"a":[1,1]}} | ./dependentRequired 1 is not of type "string"
{"dependentSchemas":5} | ./dependentSchemas 5 is not of type "object"
{"dependentSchemas":{"a~":["b"]}} | ./dependentSchemas/a~0 ["b"] is not of types "boolean", "object"
{"dependencies":true} | ./dependencies true is not of type "object"
{"dependencies":{"a":[1]}} | ./dependencies 1 is not of type "string"
{"dependencies":{"a":["b"],"c":"d"}} | ./dependencies/c "d" is not of types "boolean", "object"
{"propertyDependencies":5} | ./propertyDependencies 5 is not of type "object"
{"propertyDependencies":{"k":[]}} | ./propertyDependencies/k [] is not of type "object"
{"propertyDependencies":{"k":{"t/u":5}}} | ./propertyDependencies/k/t~1u 5 is not of types "boolean", "object""##;

fn told_of(alloc: Global, error: &ValidationError<'_>) -> Result<String, AllocError> {
    let message = error.message(alloc)?;
    let told = format!(in alloc; ".{} {message}", error.schema_path());
    drop(message);
    told
}

/// What is told, where the context's place stayed as it was.
fn told<N>(
    alloc: Global,
    context: &str,
    built: &Result<N, BuildError<'_>>,
) -> Result<String, Fail> {
    if !context.is_empty() {
        return Err(Fail::from("the context's place moved"));
    }
    let Err(BuildError::Refused(error)) = built else {
        return Err(Fail::from("not refused"));
    };
    if !error.instance_path().is_empty() {
        return Err(Fail::from("a place in an instance"));
    }
    Ok(told_of(alloc, error)?)
}

fn told_of_value<N: BuiltNode<NoText, EqualTo>>(
    alloc: Global,
    schema: &Value,
) -> Result<String, Fail> {
    let mut meter = Meter::new();
    let mut ctx = Context::new(alloc, &NoTexts, &Equality, &mut meter);
    let built: Result<N, BuildError<'_>> = compile(alloc, &mut ctx, schema);
    let told = told(alloc, ctx.location(), &built);
    drop(built);
    drop(ctx);
    told
}

/// What is told of a schema that is refused.
fn refused(alloc: Global, text: &str) -> Result<String, Fail> {
    let schema = Value::from_str(alloc, text)?;
    let told = told_of_value::<PlainNode>(alloc, &schema);
    drop(schema);
    told
}

#[test]
fn schemas_that_are_refused(rt: HostRuntime) -> Result<(), Fail> {
    expect_rows(rt.alloc(), REFUSED, refused)
}
