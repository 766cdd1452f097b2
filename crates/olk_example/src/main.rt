//! Callers of the library: the common case; with the bench's leaves and matcher; and with a leaf and
//! a matcher of their own.
//!
//! Stands on `object_logic`, `olk_vocabulary`, `olk_regexes` and `olk_bench`. Tested by its file
//! `stdout`.
#![tactic(auto)]

mod common;
mod own;

use common::is_accepted;
use object_logic::{
    AnnotationEntry, BuildError, Leaf, MakeLeaf, MakeRegex, Meter, RegexEngine, ValidationContext,
    ValidationError, Validator,
};
use olk_bench::{BenchLeaves, BenchRegexes};
use own::{EqualNames, Words};
use serde_json::Value;
use std::alloc::Global;
use std::io::{self, ErrorKind};

const PATTERN: &str = r#"{"properties":{"tag":{"pattern":"^[a-z]+$"}}}"#;

const SCHEMA: &str = r#"{"properties":{"age":{"minimum":18}},"required":["name"]}"#;

const OWN: &str = r#"{"properties":{"kind":{"word":"cat"}}}"#;

fn main(rt: HostRuntime) -> io::Result<()> {
    print_accepted(&rt, PATTERN, r#"{"tag":"spam"}"#)?;
    print_accepted(&rt, PATTERN, r#"{"tag":"Spam"}"#)?;
    ask(&rt, &BenchLeaves, &BenchRegexes, SCHEMA, r#"{"age":7}"#)?;
    ask(
        &rt,
        &BenchLeaves,
        &BenchRegexes,
        SCHEMA,
        r#"{"age":70,"name":"Ada"}"#,
    )?;
    ask(&rt, &Words, &EqualNames, OWN, r#"{"kind":"dog"}"#)
}

/// The JSON value of a text.
fn parse(alloc: Global, text: &str) -> io::Result<Value> {
    Value::from_str(alloc, text).map_err(|_| io::Error::from(ErrorKind::InvalidData))
}

/// Prints whether a schema accepts a value.
fn print_accepted(rt: &HostRuntime, schema: &str, value: &str) -> io::Result<()> {
    let schema = parse(rt.alloc(), schema)?;
    let value = parse(rt.alloc(), value)?;
    print_verdict(rt, &schema, &value)
}

fn print_verdict(rt: &HostRuntime, schema: &Value, value: &Value) -> io::Result<()> {
    match is_accepted(rt.alloc(), schema, value) {
        Ok(accepted) => println!(rt; "accepted: {accepted}"),
        Err(BuildError::Refused(error)) => print_error(rt, &error),
        Err(BuildError::Memory(error)) => Err(error.into()),
    }
}

/// Builds the validator of a schema, and asks it of an instance.
fn ask<L: MakeLeaf, M: MakeRegex>(
    rt: &HostRuntime,
    leaves: &L,
    regexes: &M,
    schema: &str,
    instance: &str,
) -> io::Result<()> {
    let schema = parse(rt.alloc(), schema)?;
    let instance = parse(rt.alloc(), instance)?;
    build_and_print(rt, leaves, regexes, &schema, &instance)
}

fn build_and_print<L: MakeLeaf, M: MakeRegex>(
    rt: &HostRuntime,
    leaves: &L,
    regexes: &M,
    schema: &Value,
    instance: &Value,
) -> io::Result<()> {
    match Validator::build(rt.alloc(), leaves, regexes, schema, &mut Meter::new()) {
        Ok(validator) => print(rt, &validator, instance),
        Err(BuildError::Refused(error)) => print_error(rt, &error),
        Err(BuildError::Memory(error)) => Err(error.into()),
    }
}

/// Prints the verdict, each error with its places, and the annotations.
fn print<K: Leaf, R: RegexEngine>(
    rt: &HostRuntime,
    validator: &Validator<K, R>,
    instance: &Value,
) -> io::Result<()> {
    let valid = validator.is_valid(instance, &mut ValidationContext::new(false));
    println!(rt; "valid: {valid}")?;
    print_errors(rt, validator, instance)?;
    print_annotations(rt, validator, instance)
}

fn print_errors<'a, K: Leaf, R: RegexEngine>(
    rt: &HostRuntime,
    validator: &'a Validator<K, R>,
    instance: &'a Value,
) -> io::Result<()> {
    let mut ctx = ValidationContext::new(false);
    let mut errors = Vec::new(rt.alloc());
    validator.collect_errors(rt.alloc(), instance, &mut ctx, &mut errors)?;
    print_each_error(rt, &errors)
}

fn print_each_error(rt: &HostRuntime, errors: &[ValidationError<'_>]) -> io::Result<()> {
    for error in errors {
        print_error(rt, error)?;
    }
    Ok(())
}

fn print_error(rt: &HostRuntime, error: &ValidationError<'_>) -> io::Result<()> {
    let message = error.message(rt.alloc())?;
    print_message(rt, error, &message)
}

fn print_message(rt: &HostRuntime, error: &ValidationError<'_>, message: &str) -> io::Result<()> {
    let (instance, schema) = (error.instance_path(), error.schema_path());
    println!(rt; "{instance:?}: {message} ({schema})")
}

fn print_annotations<K: Leaf, R: RegexEngine>(
    rt: &HostRuntime,
    validator: &Validator<K, R>,
    instance: &Value,
) -> io::Result<()> {
    let mut ctx = ValidationContext::new(false);
    let evaluation = validator.evaluate(rt.alloc(), instance, &mut ctx)?;
    print_entries(rt, &evaluation.iter_annotations(rt.alloc())?)
}

fn print_entries(rt: &HostRuntime, entries: &[AnnotationEntry<'_>]) -> io::Result<()> {
    for entry in entries {
        println!(rt; "{} shows {:?}", entry.schema_location, entry.annotations)?;
    }
    Ok(())
}
