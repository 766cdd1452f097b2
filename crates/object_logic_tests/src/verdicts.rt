//! One verdict, however it is asked for.
use crate::rows::{Form, Table, expect, refusal};
use object_logic::{
    BuildError, Context, Meter, Node, SchemaNode, Validate, ValidationContext, compile, verdicts_of,
};
use olk_base_tests::doubles::{EqualTo, Equality, NoText, NoTexts};
use serde_json::Value;
use std::alloc::{AllocError, Global};
use std::test::Fail;

/// What each way says, in the order of the fields.
fn told_of<'a, V: Validate<'a>>(
    alloc: Global,
    asked: &'a V,
    instance: &'a Value,
) -> Result<String, AllocError> {
    let mut ctx = ValidationContext::new(false);
    let told = verdicts_of(alloc, asked, Node::Value(instance), &mut ctx)?;
    let (first, second) = (told.is_valid, told.validate);
    let (third, fourth) = (told.collect_errors, told.evaluate);
    format!(in alloc; "{first} {second} {third} {fourth}")
}

/// The verdicts of the schema's place.
struct AllWays;

impl Form for AllWays {
    fn answer(
        &self,
        alloc: Global,
        schema: &Value,
        instance: &Value,
    ) -> Result<String, AllocError> {
        let mut meter = Meter::new();
        let mut ctx = Context::new(alloc, &NoTexts, &Equality, &mut meter);
        let built: Result<SchemaNode<NoText, EqualTo>, BuildError<'_>> = compile(
            alloc, &mut ctx, schema,
        );
        let told = match &built {
            Ok(node) => told_of(alloc, node, instance),
            Err(error) => refusal(alloc, error),
        };
        drop(built);
        drop(ctx);
        told
    }
}

const VERDICTS: &str = r#"{"properties":{"a":false}} | {"b":1} | true true true true
{"properties":{"a":false}} | {"a":1} | false false false false
{"anyOf":[]} | 1 | false false false false
{"not":{"required":["a"]}} | {} | true true true true
{"additionalProperties":false} | {"a":1} | false false false false"#;

#[test]
fn one_verdict_in_all_ways(rt: HostRuntime) -> Result<(), Fail> {
    expect(&AllWays, rt.alloc(), Table::Asked(VERDICTS))
}
