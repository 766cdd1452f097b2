//! Whole documents with their references, asked in each of the four ways.
use olk_base::{Meter, ValidationContext};
use olk_base_tests::tables::two;
use olk_bench::{BenchLeaf, BenchLeaves, BenchRegex, BenchRegexes};
use olk_document::DocumentValidator;
use olk_reports::{BuildError, ErrorEntry, Evaluation, ValidateError, ValidationError};
use serde_json::Value;
use std::alloc::{AllocError, Global};
use std::test::Fail;

type BenchValidator = DocumentValidator<BenchLeaf, BenchRegex>;

// ---- the four ways

#[derive(Clone, Copy)]
enum Way {
    IsValid,
    Validate,
    CollectErrors,
    Evaluate,
}

/// An error behind those before it: where the value and the keyword stand, and the message.
fn push_error(text: &mut String, at: &str, by: &str, message: &str) -> Result<(), AllocError> {
    let before = if text.is_empty() { "" } else { " & " };
    text.write(format_args!("{before}#{at} by #{by}: {message}"))
}

fn push_found(
    alloc: Global,
    text: &mut String,
    error: &ValidationError<'_>,
) -> Result<(), AllocError> {
    let message = error.message(alloc)?;
    let pushed = push_error(text, error.instance_path(), error.schema_path(), &message);
    drop(message);
    pushed
}

fn verdict(
    alloc: Global,
    validator: &BenchValidator,
    instance: &Value,
) -> Result<String, AllocError> {
    let mut ctx = ValidationContext::new(false);
    let valid = validator.is_valid(instance, &mut ctx);
    String::from_str(alloc, if valid { "" } else { "refused" })
}

fn first_error(
    alloc: Global,
    validator: &BenchValidator,
    instance: &Value,
) -> Result<String, AllocError> {
    let mut ctx = ValidationContext::new(false);
    let mut text = String::new(alloc);
    match validator.validate(alloc, instance, &mut ctx) {
        Ok(()) => Ok(text),
        Err(ValidateError::Invalid(error)) => {
            push_found(alloc, &mut text, &error)?;
            Ok(text)
        }
        Err(ValidateError::Memory(error)) => Err(error),
    }
}

fn push_all(
    alloc: Global,
    text: &mut String,
    errors: &[ValidationError<'_>],
) -> Result<(), AllocError> {
    for error in errors {
        push_found(alloc, text, error)?;
    }
    Ok(())
}

fn all_errors(
    alloc: Global,
    validator: &BenchValidator,
    instance: &Value,
) -> Result<String, AllocError> {
    let mut ctx = ValidationContext::new(false);
    let mut text = String::new(alloc);
    let mut errors = Vec::new(alloc);
    validator.collect_errors(alloc, instance, &mut ctx, &mut errors)?;
    push_all(alloc, &mut text, &errors)?;
    Ok(text)
}

fn push_entries(text: &mut String, entries: &[ErrorEntry<'_>]) -> Result<(), AllocError> {
    for entry in entries {
        let message = entry.error.message();
        push_error(
            text,
            entry.instance_location,
            entry.schema_location,
            message,
        )?;
    }
    Ok(())
}

fn push_shown(
    alloc: Global,
    text: &mut String,
    evaluation: &Evaluation<'_>,
) -> Result<(), AllocError> {
    let entries = evaluation.iter_errors(alloc)?;
    push_entries(text, &entries)
}

fn shown_errors(
    alloc: Global,
    validator: &BenchValidator,
    instance: &Value,
) -> Result<String, AllocError> {
    let mut ctx = ValidationContext::new(false);
    let mut text = String::new(alloc);
    let evaluation = validator.evaluate(alloc, instance, &mut ctx)?;
    push_shown(alloc, &mut text, &evaluation)?;
    Ok(text)
}

fn told(
    alloc: Global,
    way: Way,
    validator: &BenchValidator,
    instance: &Value,
) -> Result<String, AllocError> {
    match way {
        Way::IsValid => verdict(alloc, validator, instance),
        Way::Validate => first_error(alloc, validator, instance),
        Way::CollectErrors => all_errors(alloc, validator, instance),
        Way::Evaluate => shown_errors(alloc, validator, instance),
    }
}

/// What is told by this way where these are all errors.
fn wanted(way: Way, errors: &str) -> &str {
    match way {
        Way::IsValid => if errors.is_empty() { "" } else { "refused" },
        Way::Validate => match errors.split_once(" & ") {
            Some((first, _)) => first,
            None => errors,
        },
        Way::CollectErrors => errors,
        Way::Evaluate => errors,
    }
}

// ---- rows

fn told_of(alloc: Global, way: Way, document: &str, instance: &str) -> Result<String, Fail> {
    let document = Value::from_str(alloc, document)?;
    let instance = Value::from_str(alloc, instance)?;
    let mut meter = Meter::new();
    let built: Result<BenchValidator, BuildError<'_>> = DocumentValidator::build(
        alloc,
        &BenchLeaves,
        &BenchRegexes,
        &document,
        &mut meter,
    );
    match built {
        Ok(validator) => Ok(told(alloc, way, &validator, &instance)?),
        Err(BuildError::Refused(error)) => Err(Fail::new(error.schema_path())),
        Err(BuildError::Memory(_)) => Err(Fail::new("no memory")),
    }
}

fn expect_told(alloc: Global, way: Way, row: &str) -> Result<(), Fail> {
    let (document, others) = two(row);
    let (instance, errors) = two(others);
    let found = told_of(alloc, way, document, instance)?;
    if found.as_str() == wanted(way, errors) {
        Ok(())
    } else {
        Err(Fail::new(format_args!("{row} | {found}")))
    }
}

fn expect_each(alloc: Global, way: Way) -> Result<(), Fail> {
    for row in ERRORS.lines() {
        expect_told(alloc, way, row)?;
    }
    Ok(())
}

// A document, an instance, and each error: where it is in the instance, where what refuses it
// stands, and the message. Documents and instances are mostly those of JSON Schema's own test
// suite. Which errors there are, and where, is what Python's `jsonschema` 4.26 tells, with
// `{"not":{}}` for false. What a reference leads to refuses at its own place (JSON Schema 2020-12
// Core, 12.3.2).
const ERRORS: &str =
    r##"{"properties":{"foo":{"type":"integer"},"bar":{"$ref":"#/properties/foo"}}} | {"bar":3} | 
{"properties":{"foo":{"type":"integer"},"bar":{"$ref":"#/properties/foo"}}} | {"bar":true} | #/bar by #/properties/foo/type: true is not of type "integer"
{"prefixItems":[{"type":"integer"},{"$ref":"#/prefixItems/0"}]} | [1,2] | 
{"prefixItems":[{"type":"integer"},{"$ref":"#/prefixItems/0"}]} | [1,"foo"] | #/1 by #/prefixItems/0/type: "foo" is not of type "integer"
{"$defs":{"tilde~field":{"type":"integer"},"slash/field":{"type":"integer"}},"properties":{"tilde":{"$ref":"#/$defs/tilde~0field"},"slash":{"$ref":"#/$defs/slash~1field"}}} | {"slash":123,"tilde":123} | 
{"$defs":{"tilde~field":{"type":"integer"},"slash/field":{"type":"integer"}},"properties":{"tilde":{"$ref":"#/$defs/tilde~0field"},"slash":{"$ref":"#/$defs/slash~1field"}}} | {"slash":"aoeu","tilde":"aoeu"} | #/slash by #/$defs/slash~1field/type: "aoeu" is not of type "integer" & #/tilde by #/$defs/tilde~0field/type: "aoeu" is not of type "integer"
{"$defs":{"a":{"type":"integer"},"b":{"$ref":"#/$defs/a"},"c":{"$ref":"#/$defs/b"}},"$ref":"#/$defs/c"} | 5 | 
{"$defs":{"a":{"type":"integer"},"b":{"$ref":"#/$defs/a"},"c":{"$ref":"#/$defs/b"}},"$ref":"#/$defs/c"} | "a" | # by #/$defs/a/type: "a" is not of type "integer"
{"$defs":{"":{"$defs":{"":{"type":"number"}}}},"allOf":[{"$ref":"#/$defs//$defs/"}]} | "a" | # by #/$defs//$defs//type: "a" is not of type "number"
{"properties":{"$ref":{"$ref":"#/$defs/is-string"}},"$defs":{"is-string":{"type":"string"}}} | {"$ref":"a"} | 
{"properties":{"$ref":{"$ref":"#/$defs/is-string"}},"$defs":{"is-string":{"type":"string"}}} | {"$ref":2} | #/$ref by #/$defs/is-string/type: 2 is not of type "string"
{"$defs":{"text":{"type":"string"}},"items":{"$ref":"#/$defs/text","minLength":2,"const":"foo"}} | ["foo","b",2] | #/1 by #/items/const: "foo" was expected & #/1 by #/items/minLength: "b" is shorter than 2 characters & #/2 by #/items/const: "foo" was expected & #/2 by #/$defs/text/type: 2 is not of type "string"
{"$ref":"#/$defs/bool","$defs":{"bool":true}} | "foo" | 
{"$ref":"#/$defs/bool","$defs":{"bool":false}} | "foo" | # by #/$defs/bool: False schema does not allow "foo"
{"$defs":{"item":{"type":"array","items":false,"prefixItems":[{"$ref":"#/$defs/sub-item"},{"$ref":"#/$defs/sub-item"}]},"sub-item":{"type":"object","required":["foo"]}},"type":"array","items":false,"prefixItems":[{"$ref":"#/$defs/item"},{"$ref":"#/$defs/item"},{"$ref":"#/$defs/item"}]} | [[{"foo":null}],[{"foo":null}]] | 
{"$defs":{"item":{"type":"array","items":false,"prefixItems":[{"$ref":"#/$defs/sub-item"},{"$ref":"#/$defs/sub-item"}]},"sub-item":{"type":"object","required":["foo"]}},"type":"array","items":false,"prefixItems":[{"$ref":"#/$defs/item"},{"$ref":"#/$defs/item"},{"$ref":"#/$defs/item"}]} | [{"foo":null},[{"foo":null},{}],[{},{"foo":null},5]] | #/0 by #/$defs/item/type: {"foo":null} is not of type "array" & #/1/1 by #/$defs/sub-item/required: "foo" is a required property & #/2/2 by #/$defs/item/items: False schema does not allow 5 & #/2/0 by #/$defs/sub-item/required: "foo" is a required property
{"items":{"multipleOf":2},"contains":{"multipleOf":3}} | [6,12] | 
{"items":{"multipleOf":2},"contains":{"multipleOf":3}} | [3,6,9] | #/0 by #/items/multipleOf: 3 is not a multiple of 2 & #/2 by #/items/multipleOf: 9 is not a multiple of 2
{"items":{"multipleOf":2},"contains":{"multipleOf":3}} | [2,4,8] | # by #/contains: None of [2,4,8] are valid under the given schema
{"items":{"multipleOf":2},"contains":{"multipleOf":3}} | [1,5] | # by #/contains: None of [1,5] are valid under the given schema & #/0 by #/items/multipleOf: 1 is not a multiple of 2 & #/1 by #/items/multipleOf: 5 is not a multiple of 2
{"contains":{"const":1},"minContains":2,"maxContains":3} | [1,1,2] | 
{"contains":{"const":1},"minContains":2,"maxContains":3} | [1,2] | # by #/contains: None of [1,2] are valid under the given schema
{"contains":{"const":1},"minContains":2,"maxContains":3} | [1,1,1,1] | # by #/contains: None of [1,1,1,1] are valid under the given schema
{"properties":{"tags":{"items":{"type":"string"}}},"required":["tags"],"additionalProperties":false} | {"tags":["a",5]} | #/tags/1 by #/properties/tags/items/type: 5 is not of type "string"
{"properties":{"tags":{"items":{"type":"string"}}},"required":["tags"],"additionalProperties":false} | {"tags":[],"b":1} | # by #/additionalProperties: Additional properties are not allowed ('b' was unexpected)
{"properties":{"tags":{"items":{"type":"string"}}},"required":["tags"],"additionalProperties":false} | {} | # by #/required: "tags" is a required property
{"prefixItems":[{"minimum":5},{"type":"string"}],"items":{"properties":{"n":{"maximum":3}}}} | [4,"x",{"n":3},{"n":4}] | #/3/n by #/items/properties/n/maximum: 4 is greater than the maximum of 3 & #/0 by #/prefixItems/0/minimum: 4 is less than the minimum of 5"##;

#[test]
fn verdicts(rt: HostRuntime) -> Result<(), Fail> {
    expect_each(rt.alloc(), Way::IsValid)
}

#[test]
fn first_errors(rt: HostRuntime) -> Result<(), Fail> {
    expect_each(rt.alloc(), Way::Validate)
}

#[test]
fn lists_of_errors(rt: HostRuntime) -> Result<(), Fail> {
    expect_each(rt.alloc(), Way::CollectErrors)
}

#[test]
fn evaluations(rt: HostRuntime) -> Result<(), Fail> {
    expect_each(rt.alloc(), Way::Evaluate)
}
