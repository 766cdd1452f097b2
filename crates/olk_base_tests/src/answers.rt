//! The texts of answers, each whole.
use crate::tables::expect_rows;
use olk_answers::{
    errors_text, evaluation_text, first_text, malformation_text, refusal_text, schema_refusal_text,
    verdict_text,
};
use olk_base::{JsonType, Node};
use olk_reports::{
    Evaluation, EvaluationNode, EvaluationResult, Location, ValidateError, ValidationError,
    ValidationErrorKind,
};
use serde_json::{Map, Value};
use std::alloc::{AllocError, Global};
use std::str::from_utf8;
use std::test::Fail;

/// The value is to be an object.
fn malformation_at(alloc: Global, value: &Value, place: Location) -> Result<Vec<u8>, AllocError> {
    let expected = JsonType::Object;
    let kind = ValidationErrorKind::SingleType { expected };
    let error = ValidationError::refusing(kind, Node::Value(value), String::new(alloc), place);
    let text = malformation_text(alloc, &error);
    drop(error);
    text
}

fn malformation(alloc: Global) -> Result<Vec<u8>, AllocError> {
    let place = Location::new(alloc).join(alloc, "properties")?;
    malformation_at(alloc, &Value::from(5), place)
}

fn evaluation(alloc: Global) -> Result<Vec<u8>, AllocError> {
    let root = EvaluationResult::valid_empty(alloc);
    let shown = Evaluation::new(EvaluationNode::new("", String::new(alloc), root));
    let text = evaluation_text(alloc, &shown);
    drop(shown);
    text
}

fn plain(alloc: Global, word: &str) -> Result<Vec<u8>, AllocError> {
    match word {
        "refusal" => refusal_text(alloc, "not JSON"),
        "schema refusal" => schema_refusal_text(alloc, "5 is not a value", "/type"),
        "malformation" => malformation(alloc),
        "true" => verdict_text(alloc, true),
        "false" => verdict_text(alloc, false),
        _ => evaluation(alloc),
    }
}

/// A name that the value lacks.
fn missing<'a>(alloc: Global, property: &'a str, value: &'a Value) -> ValidationError<'a> {
    let kind = ValidationErrorKind::Required { property };
    ValidationError::new(kind, Node::Value(value), String::new(alloc), "/required")
}

fn two_errors(alloc: Global, value: &Value) -> Result<Vec<u8>, AllocError> {
    let errors = [missing(alloc, "b", value), missing(alloc, "a", value)];
    let text = errors_text(alloc, &errors);
    drop(errors);
    text
}

/// An answer that may tell errors of a value.
fn of_errors(alloc: Global, word: &str, value: &Value) -> Result<Vec<u8>, AllocError> {
    match word {
        "no first error" => first_text(alloc, Ok(())),
        "first error" => first_text(
            alloc,
            Err(ValidateError::Invalid(missing(alloc, "b", value))),
        ),
        "no errors" => errors_text(alloc, &[]),
        "two errors" => two_errors(alloc, value),
        _ => plain(alloc, word),
    }
}

/// The answer that a word names.
fn answer(alloc: Global, word: &str) -> Result<String, Fail> {
    let bytes = of_errors(alloc, word, &Value::Object(Map::new(alloc)))?;
    let text = String::from_str(alloc, from_utf8(&bytes).unwrap_or("no text"));
    drop(bytes);
    Ok(text?)
}

// What is answered, and its text.
const ANSWERS: &str = r#"refusal | {"refused":"not JSON"}
schema refusal | {"refused":"5 is not a value","schemaPath":"/type"}
malformation | {"refused":"5 is not of type \"object\"","schemaPath":"/properties"}
true | {"valid":true}
false | {"valid":false}
no first error | {"valid":true}
first error | {"error":{"instancePath":"","message":"\"b\" is a required property","schemaPath":"/required"},"valid":false}
no errors | {"errors":[],"valid":true}
two errors | {"errors":[{"instancePath":"","message":"\"a\" is a required property","schemaPath":"/required"},{"instancePath":"","message":"\"b\" is a required property","schemaPath":"/required"}],"valid":false}
evaluation | {"annotations":[],"errors":[],"valid":true}"#;

#[test]
fn texts_of_answers(rt: HostRuntime) -> Result<(), Fail> {
    expect_rows(rt.alloc(), ANSWERS, answer)
}
