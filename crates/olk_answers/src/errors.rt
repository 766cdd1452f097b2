//! Errors as compact JSON: the first, all of them, and that of a malformed schema.
ghost use Rattle.std.specs.Prelude.{◌≡◌, IfOk, map, false};
ghost use Rattle.serde_json.specs.View.{view};
ghost use Rattle.olk_reports.specs.Errors.{fault_of};
ghost use Rattle.olk_spec.specs.Names.{is_empty};
ghost use Rattle.olk_spec.specs.Texts.{prints_fraction};
ghost use Rattle.olk_answers.specs.Refusals.{fault_refusal};
ghost use Rattle.olk_answers.specs.Texts.{json_text};
ghost use Rattle.olk_answers.specs.Told.{told, shown, error_data, first_data, errors_data, TellsFound, TellsSorted, PrintNoFraction};

use crate::texts::{compact_text, schema_refusal_text, verdict_text};
use olk_reports::{ValidateError, ValidationError};
use serde_json::{Value, json};
use std::alloc::{AllocError, Global};

/// What is told of an error. Errors are sorted by these texts, in this order.
#[derive(PartialEq, Eq, PartialOrd, Ord, Drop)]
pub struct ToldError<'e> {
    pub instance_path: &'e str,
    pub schema_path: &'e str,
    pub message: String,
}

fn told_error<'e>(
    alloc: Global,
    error: &'e ValidationError<'_>,
) -> Result<ToldError<'e>, AllocError>
    ensures { IfOk result (λ t. prints_fraction (fault_of error.now) ≡ false
        → shown t ≡ told (fault_of error.now)) }
{
    let message = error.message(alloc)?;
    Ok(ToldError {
        instance_path: error.instance_path(),
        schema_path: error.schema_path(),
        message,
    })
}

fn told_errors<'e>(
    alloc: Global,
    errors: &'e [ValidationError<'_>],
) -> Result<Vec<ToldError<'e>>, AllocError>
    ensures { IfOk result (λ ts. PrintNoFraction (map fault_of errors.now)
        → map shown ts.items ≡ map told (map fault_of errors.now)) }
{
    let mut told = Vec::new(alloc);
    for error in errors {
        told.push(told_error(alloc, error)?)?;
    }
    Ok(told)
}

fn error_value(alloc: Global, told: &ToldError<'_>) -> Result<Value, AllocError>
    ensures { IfOk result (λ v. view v ≡ error_data (shown told.now)) }
{
    json!(in alloc; {
        "instancePath": (told.instance_path),
        "message": (told.message.as_str()),
        "schemaPath": (told.schema_path)
    })
}

fn error_values(alloc: Global, told: &[ToldError<'_>]) -> Result<Vec<Value>, AllocError>
    ensures { IfOk result (λ vs. map view vs.items ≡ map error_data (map shown told.now)) }
{
    let mut values = Vec::new(alloc);
    for error in told {
        values.push(error_value(alloc, error)?)?;
    }
    Ok(values)
}

fn first_value(alloc: Global, told: &ToldError<'_>) -> Result<Value, AllocError>
    ensures { IfOk result (λ v. view v ≡ first_data (shown told.now)) }
{
    let error = error_value(alloc, told)?;
    json!(in alloc; {"error": (error), "valid": false})
}

fn errors_value(alloc: Global, valid: bool, told: &[ToldError<'_>]) -> Result<Value, AllocError>
    ensures { IfOk result (λ v. view v ≡ errors_data valid (map shown told.now)) }
{
    let errors = error_values(alloc, told)?;
    json!(in alloc; {"errors": (Value::Array(errors)), "valid": valid})
}

/// The answer that tells one error.
fn first_error_text(alloc: Global, error: &ValidationError<'_>) -> Result<Vec<u8>, AllocError>
    ensures { IfOk result (λ answer. prints_fraction (fault_of error.now) ≡ false
        → answer.items ≡ json_text (first_data (told (fault_of error.now)))) }
{
    let told = told_error(alloc, error)?;
    let value = first_value(alloc, &told)?;
    compact_text(alloc, &value)
}

/// The answer that tells the error that `validate` gives, or that there is none.
///
/// The only error is out of memory, also where it is what `validate` gives.
pub fn first_text(
    alloc: Global,
    found: Result<(), ValidateError<'_>>,
) -> Result<Vec<u8>, AllocError>
    ensures { IfOk result (λ answer. TellsFound found.entry answer.items) }
{
    match found {
        Ok(()) => verdict_text(alloc, true),
        Err(ValidateError::Invalid(error)) => first_error_text(alloc, &error),
        Err(ValidateError::Memory(error)) => Err(error),
    }
}

/// The answer that tells errors, sorted by instance path, schema path and message in byte order.
/// Where there is none, the instance is valid.
///
/// The only error is out of memory.
pub fn errors_text(alloc: Global, errors: &[ValidationError<'_>]) -> Result<Vec<u8>, AllocError>
    ensures { IfOk result (λ answer. PrintNoFraction (map fault_of errors.now)
        → TellsSorted (is_empty errors.now) (map told (map fault_of errors.now)) answer.items) }
{
    let mut told = told_errors(alloc, errors)?;
    told.sort_unstable();
    let value = errors_value(alloc, errors.is_empty(), &told)?;
    compact_text(alloc, &value)
}

/// The refusal of a malformed schema: the error in words, and its place in the schema (JSON
/// Pointer, RFC 6901).
///
/// The only error is out of memory.
pub fn malformation_text(alloc: Global, error: &ValidationError<'_>) -> Result<Vec<u8>, AllocError>
    ensures { IfOk result (λ answer. prints_fraction (fault_of error.now) ≡ false
        → answer.items ≡ json_text (fault_refusal (fault_of error.now))) }
{
    let message = error.message(alloc)?;
    schema_refusal_text(alloc, message.as_str(), error.schema_path())
}
