//! Makes each call of the library that takes memory, and makes it again where it was out of memory.
//!
//! A line names a call, with what it has to leave as it was, and the lines behind it say what was
//! answered. `tools/refused_growths` refuses each growth in turn and compares the lines.
//!
//! Stands on `object_logic`, `olk_document`, `olk_vocabulary` and the matcher of `olk_bench`. Tested
//! by its files `stdin` and `stdout`.
#![tactic(auto)]

mod asking;
mod at_path;

use asking::Asking;
use at_path::ask_at_path;
use object_logic::{
    AnnotationEntry, BuildError, Context, ErrorEntry, Evaluation, Meter, ValidateError,
    ValidationContext, ValidationError, Validator, compile,
};
use olk_bench::BenchRegexes;
use olk_document::DocumentValidator;
use olk_vocabulary::Vocabulary;
use serde_json::Value;
use std::alloc::Global;
use std::io;
use std::io::{ErrorKind, Read};

// How often a call is made at most.
const TRIES: u32 = 2;

fn main(rt: HostRuntime) -> io::Result<()> {
    let mut bytes = Vec::new(rt.alloc());
    rt.reader().read_to_end(&mut bytes)?;
    let request = parse(rt.alloc(), &bytes)?;
    match (request.get("schema"), request.get("instance")) {
        (Some(schema), Some(instance)) => ask(&rt, schema, instance),
        _ => Err(io::Error::from(ErrorKind::InvalidData)),
    }
}

/// The JSON value of a text.
fn parse(alloc: Global, bytes: &[u8]) -> io::Result<Value> {
    Value::from_slice(alloc, bytes).map_err(|_| io::Error::from(ErrorKind::InvalidData))
}

fn ask(rt: &HostRuntime, schema: &Value, instance: &Value) -> io::Result<()> {
    let mut meter = Meter::new();
    let mut ctx = Context::new(rt.alloc(), &Vocabulary, &BenchRegexes, &mut meter);
    if let Ok(node) = compile(rt.alloc(), &mut ctx, schema) {
        ask_at_path(rt, &node, instance)?;
    }
    build(rt, schema, instance)?;
    build_document(rt, schema, instance)
}

fn build(rt: &HostRuntime, schema: &Value, instance: &Value) -> io::Result<()> {
    for _ in 0..TRIES {
        println!(rt; "build")?;
        let mut meter = Meter::new();
        match Validator::build(rt.alloc(), &Vocabulary, &BenchRegexes, schema, &mut meter) {
            Ok(validator) => return ask_validator(rt, &validator, instance),
            Err(BuildError::Refused(error)) => return print_error(rt, &error),
            Err(BuildError::Memory(_)) => println!(rt; "out of memory")?,
        }
    }
    Ok(())
}

fn build_document(rt: &HostRuntime, document: &Value, instance: &Value) -> io::Result<()> {
    for _ in 0..TRIES {
        println!(rt; "build a document")?;
        let mut meter = Meter::new();
        match DocumentValidator::build(
            rt.alloc(),
            &Vocabulary,
            &BenchRegexes,
            document,
            &mut meter,
        ) {
            Ok(validator) => return ask_validator(rt, &validator, instance),
            Err(BuildError::Refused(error)) => return print_error(rt, &error),
            Err(BuildError::Memory(_)) => println!(rt; "out of memory")?,
        }
    }
    Ok(())
}

fn ask_validator<'a, V: Asking>(
    rt: &HostRuntime,
    validator: &'a V,
    instance: &'a Value,
) -> io::Result<()> {
    is_valid(rt, validator, instance)?;
    validate(rt, validator, instance)?;
    let mut errors = Vec::new(rt.alloc());
    collect_errors(rt, validator, instance, &mut errors)?;
    collect_errors(rt, validator, instance, &mut errors)?;
    for error in &errors {
        print_error(rt, error)?;
    }
    evaluate(rt, validator, instance)
}

fn is_valid<V: Asking>(rt: &HostRuntime, validator: &V, instance: &Value) -> io::Result<()> {
    println!(rt; "is_valid")?;
    let valid = validator.accepts(instance, &mut ValidationContext::new(true));
    println!(rt; "{valid}")
}

fn validate<V: Asking>(rt: &HostRuntime, validator: &V, instance: &Value) -> io::Result<()> {
    let mut ctx = ValidationContext::new(true);
    for _ in 0..TRIES {
        println!(rt; "validate")?;
        match validator.first_error(rt.alloc(), instance, &mut ctx) {
            Ok(()) => return println!(rt; "valid"),
            Err(ValidateError::Invalid(error)) => return print_error(rt, &error),
            Err(ValidateError::Memory(_)) => println!(rt; "out of memory")?,
        }
    }
    Ok(())
}

fn collect_errors<'a, V: Asking>(
    rt: &HostRuntime,
    validator: &'a V,
    instance: &'a Value,
    errors: &mut Vec<ValidationError<'a>>,
) -> io::Result<()> {
    let mut ctx = ValidationContext::new(true);
    for _ in 0..TRIES {
        println!(rt; "collect_errors, behind {} errors", errors.len())?;
        match validator.append_errors(rt.alloc(), instance, &mut ctx, errors) {
            Ok(()) => return Ok(()),
            Err(_) => println!(rt; "out of memory")?,
        }
    }
    Ok(())
}

fn print_error(rt: &HostRuntime, error: &ValidationError<'_>) -> io::Result<()> {
    for _ in 0..TRIES {
        println!(rt; "message")?;
        match error.message(rt.alloc()) {
            Ok(message) => return print_message(rt, error, &message),
            Err(_) => println!(rt; "out of memory")?,
        }
    }
    Ok(())
}

fn print_message(rt: &HostRuntime, error: &ValidationError<'_>, message: &str) -> io::Result<()> {
    let (instance, schema) = (error.instance_path(), error.schema_path());
    println!(rt; "{instance:?}: {message} ({schema})")
}

fn evaluate<V: Asking>(rt: &HostRuntime, validator: &V, instance: &Value) -> io::Result<()> {
    let mut ctx = ValidationContext::new(true);
    for _ in 0..TRIES {
        println!(rt; "evaluate")?;
        match validator.shown(rt.alloc(), instance, &mut ctx) {
            Ok(evaluation) => return print_entries(rt, &evaluation),
            Err(_) => println!(rt; "out of memory")?,
        }
    }
    Ok(())
}

fn print_entries(rt: &HostRuntime, evaluation: &Evaluation<'_>) -> io::Result<()> {
    println!(rt; "{}", evaluation.flag().valid)?;
    print_errors(rt, evaluation)?;
    print_annotations(rt, evaluation)
}

fn print_errors(rt: &HostRuntime, evaluation: &Evaluation<'_>) -> io::Result<()> {
    for _ in 0..TRIES {
        println!(rt; "iter_errors")?;
        match evaluation.iter_errors(rt.alloc()) {
            Ok(entries) => return print_error_entries(rt, &entries),
            Err(_) => println!(rt; "out of memory")?,
        }
    }
    Ok(())
}

fn print_error_entries(rt: &HostRuntime, entries: &[ErrorEntry<'_>]) -> io::Result<()> {
    for entry in entries {
        println!(rt; "{}: {}", entry.schema_location, entry.error.message())?;
    }
    Ok(())
}

fn print_annotations(rt: &HostRuntime, evaluation: &Evaluation<'_>) -> io::Result<()> {
    for _ in 0..TRIES {
        println!(rt; "iter_annotations")?;
        match evaluation.iter_annotations(rt.alloc()) {
            Ok(entries) => return print_annotation_entries(rt, &entries),
            Err(_) => println!(rt; "out of memory")?,
        }
    }
    Ok(())
}

fn print_annotation_entries(rt: &HostRuntime, entries: &[AnnotationEntry<'_>]) -> io::Result<()> {
    for entry in entries {
        println!(rt; "{} shows {:?}", entry.schema_location, entry.annotations)?;
    }
    Ok(())
}
