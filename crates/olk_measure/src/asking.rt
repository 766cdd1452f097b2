//! One question, asked often.
ghost use Rattle.std.specs.Prelude.{◌≡◌, false, IfOk, IfSome};
ghost use Rattle.serde_json.specs.View.{view};
ghost use Rattle.olk_spec.specs.Bench.{bench};
ghost use Rattle.olk_spec.specs.Meaning.{accepts};
ghost use Rattle.olk_base.specs.Kit.{kit, world};
ghost use Rattle.olk_measure.specs.Verdicts.{IsVerdictOf};

use crate::request::{Ask, Request};
use object_logic::{Leaf, Meter, RegexEngine, ValidateError, ValidationContext, Validator};
use olk_bench::{BenchLeaves, BenchRegexes};
use serde_json::Value;
use std::alloc::{AllocError, Global};

/// Asks what is asked so often, or builds so often and asks once, and gives the verdict of the last
/// time; none where the schema is refused, and where there was no memory.
pub fn ask_often(alloc: Global, request: &Request<'_>) -> Option<bool>
    ensures { IfSome result (λ valid. valid
        ≡ accepts bench false (view request.now.schema.now) (view request.now.instance.now)) }
{
    let (builds, asks) = match request.ask {
        Ask::Build => (request.times, 1),
        _ => (1, request.times),
    };
    build_often(alloc, request.schema, builds)?;
    build_and_ask(alloc, request, asks)
}

/// Builds once, and asks so often.
fn build_and_ask(alloc: Global, request: &Request<'_>, times: u64) -> Option<bool>
    ensures { IfSome result (λ valid. valid
        ≡ accepts bench false (view request.now.schema.now) (view request.now.instance.now)) }
{
    let mut meter = Meter::new();
    let built = Validator::build(
        alloc,
        &BenchLeaves,
        &BenchRegexes,
        request.schema,
        &mut meter,
    );
    let validator = built.ok()?;
    ask_times(alloc, request, &validator, times).ok()
}

/// All but the last of so many builds.
fn build_often(alloc: Global, schema: &Value, times: u64) -> Option<()> {
    for _ in 1..times {
        let mut meter = Meter::new();
        Validator::build(alloc, &BenchLeaves, &BenchRegexes, schema, &mut meter).ok()?;
    }
    Some(())
}

/// Asks so often, and gives the verdict of the last time.
fn ask_times<K: Leaf, R: RegexEngine>(
    alloc: Global,
    request: &Request<'_>,
    validator: &Validator<K, R>,
    times: u64,
) -> Result<bool, AllocError>
    ensures { IfOk result (IsVerdictOf (kit K.Leaf R.RegexEngine) (world K.Leaf R.RegexEngine)
        validator.now (view request.now.instance.now)) }
{
    if let Ask::Valid = request.ask {
        return Ok(is_valid_often(validator, request.instance, times));
    }
    for _ in 1..times {
        ask(alloc, request.ask, validator, request.instance)?;
    }
    ask(alloc, request.ask, validator, request.instance)
}

/// One question; of what is built it is whether it accepts.
fn ask<K: Leaf, R: RegexEngine>(
    alloc: Global,
    ask: Ask,
    validator: &Validator<K, R>,
    instance: &Value,
) -> Result<bool, AllocError>
    ensures { IfOk result (IsVerdictOf (kit K.Leaf R.RegexEngine) (world K.Leaf R.RegexEngine)
        validator.now (view instance.now)) }
{
    match ask {
        Ask::Valid | Ask::Build => Ok(is_valid(validator, instance)),
        Ask::First => has_no_first(alloc, validator, instance),
        Ask::Errors => has_no_errors(alloc, validator, instance),
        Ask::Evaluate => shows_valid(alloc, validator, instance),
    }
}

/// Asks for the verdict so often; it costs so little that choosing the way of asking each time
/// would show.
fn is_valid_often<K: Leaf, R: RegexEngine>(
    validator: &Validator<K, R>,
    instance: &Value,
    times: u64,
) -> bool
    ensures { IsVerdictOf (kit K.Leaf R.RegexEngine) (world K.Leaf R.RegexEngine)
        validator.now (view instance.now) result }
{
    for _ in 1..times {
        is_valid(validator, instance);
    }
    is_valid(validator, instance)
}

#[inline(never)]
fn is_valid<K: Leaf, R: RegexEngine>(validator: &Validator<K, R>, instance: &Value) -> bool
    ensures { IsVerdictOf (kit K.Leaf R.RegexEngine) (world K.Leaf R.RegexEngine)
        validator.now (view instance.now) result }
{
    let mut ctx = ValidationContext::new(false);
    validator.is_valid(instance, &mut ctx)
}

fn has_no_first<K: Leaf, R: RegexEngine>(
    alloc: Global,
    validator: &Validator<K, R>,
    instance: &Value,
) -> Result<bool, AllocError>
    ensures { IfOk result (IsVerdictOf (kit K.Leaf R.RegexEngine) (world K.Leaf R.RegexEngine)
        validator.now (view instance.now)) }
{
    let mut ctx = ValidationContext::new(false);
    match validator.validate(alloc, instance, &mut ctx) {
        Ok(()) => Ok(true),
        Err(ValidateError::Invalid(_)) => Ok(false),
        Err(ValidateError::Memory(error)) => Err(error),
    }
}

fn has_no_errors<K: Leaf, R: RegexEngine>(
    alloc: Global,
    validator: &Validator<K, R>,
    instance: &Value,
) -> Result<bool, AllocError>
    ensures { IfOk result (IsVerdictOf (kit K.Leaf R.RegexEngine) (world K.Leaf R.RegexEngine)
        validator.now (view instance.now)) }
{
    let mut ctx = ValidationContext::new(false);
    let mut errors = Vec::new(alloc);
    validator.collect_errors(alloc, instance, &mut ctx, &mut errors)?;
    Ok(errors.is_empty())
}

fn shows_valid<K: Leaf, R: RegexEngine>(
    alloc: Global,
    validator: &Validator<K, R>,
    instance: &Value,
) -> Result<bool, AllocError>
    ensures { IfOk result (IsVerdictOf (kit K.Leaf R.RegexEngine) (world K.Leaf R.RegexEngine)
        validator.now (view instance.now)) }
{
    let mut ctx = ValidationContext::new(false);
    let evaluation = validator.evaluate(alloc, instance, &mut ctx)?;
    Ok(evaluation.flag().valid)
}
