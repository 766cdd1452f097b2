//! Answers as lines of JSON.
ghost use Rattle.std.specs.Prelude.{◌≡◌, ◌++◌, IfOk, drop, map, string_bytes};
ghost use Rattle.serde_json.specs.View.{view};
ghost use Rattle.olk_places.specs.Told.{shown, located_data, head};

use crate::located::{DEEPEST, Located};
use crate::place::Place;
use crate::positions::Position;
use crate::told::{Told, branches_of, told_errors};
use olk_base::quoted_text;
use olk_reports::ValidationError;
use serde_json::{Value, json};
use std::alloc::{AllocError, Global};

/// An answer, an object, with the version of its form and the place of its value ahead of its
/// members.
///
/// # Errors
///
/// Out of memory.
pub fn placed(alloc: Global, place: Place<'_>, answer: &[u8]) -> Result<Vec<u8>, AllocError>
    ensures { IfOk result (λ text. text.items
        ≡ head place.entry.name.now place.entry.line ++ drop 1 answer.now) }
{
    let head = head_text(alloc, place)?;
    let mut text = Vec::from_slice(alloc, head.as_bytes())?;
    text.extend_from_slice(answer.get(1..).unwrap_or(&[]))?;
    Ok(text)
}

/// What an answer about a value of this place begins with.
fn head_text(alloc: Global, place: Place<'_>) -> Result<String, AllocError>
    ensures { IfOk result (λ text. string_bytes text
        ≡ head place.entry.name.now place.entry.line) }
{
    let name = quoted_text(alloc, place.name)?;
    match place.line {
        Some(line) => format!(in alloc; "{{\"version\":1,\"file\":{name},\"line\":{line},"),
        None => format!(in alloc; "{{\"version\":1,\"file\":{name},"),
    }
}

/// The answer that tells an error, if there is one, and where it stands.
///
/// # Errors
///
/// Out of memory.
pub fn first_text(
    alloc: Global,
    located: &Located<'_>,
    errors: &[ValidationError<'_>],
) -> Result<Vec<u8>, AllocError> {
    let mut errors = error_values(alloc, located, errors, DEEPEST)?;
    match errors.pop() {
        Some(error) => json!(in alloc; {"error": (error), "valid": false})?.to_vec(alloc),
        None => json!(in alloc; {"valid": true})?.to_vec(alloc),
    }
}

/// The answer that tells errors, and where they stand.
///
/// # Errors
///
/// Out of memory.
pub fn errors_text(
    alloc: Global,
    located: &Located<'_>,
    errors: &[ValidationError<'_>],
) -> Result<Vec<u8>, AllocError> {
    let is_valid = errors.is_empty();
    let errors = error_values(alloc, located, errors, DEEPEST)?;
    json!(in alloc; {"errors": (Value::Array(errors)), "valid": is_valid})?.to_vec(alloc)
}

/// The errors, sorted, with `left` more levels of contexts.
#[cycle(values)]
fn error_values(
    alloc: Global,
    located: &Located<'_>,
    errors: &[ValidationError<'_>],
    left: u8,
) -> Result<Vec<Value>, AllocError> {
    let mut values = Vec::new(alloc);
    for told in &told_errors(alloc, errors)? {
        if let Some(error) = errors.get(told.index) {
            let context = if left > 0 {
                branch_values(alloc, located, branches_of(error), left - 1)?
            } else {
                Vec::new(alloc)
            };
            let position = located.position_of(error)?;
            values.push(error_value(alloc, position, told, context)?)?;
        }
    }
    Ok(values)
}

/// What each branch finds.
#[cycle(values)]
fn branch_values(
    alloc: Global,
    located: &Located<'_>,
    branches: &[Vec<ValidationError<'_>>],
    left: u8,
) -> Result<Vec<Value>, AllocError> {
    let mut values = Vec::new(alloc);
    for errors in branches {
        values.push(Value::Array(error_values(alloc, located, errors, left)?))?;
    }
    Ok(values)
}

/// What is told of an error that stands at a position.
fn error_value(
    alloc: Global,
    position: Position,
    told: &Told<'_>,
    context: Vec<Value>,
) -> Result<Value, AllocError>
    ensures { IfOk result (λ v. view v ≡ located_data position.line position.column
        (shown told.now) (map view context.items)) }
{
    json!(in alloc; {
        "column": (position.column),
        "context": (Value::Array(context)),
        "instancePath": (told.instance_path),
        "line": (position.line),
        "message": (told.message.as_str()),
        "schemaPath": (told.schema_path)
    })
}
