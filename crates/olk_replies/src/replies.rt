//! What a validator answers about an instance, as compact JSON.
ghost use Rattle.std.specs.Prelude.{◌≡◌, false, IfOk};
ghost use Rattle.serde_json.specs.View.{view};
ghost use Rattle.olk_base.specs.Kit.{kit, world};
ghost use Rattle.object_logic.specs.Validators.{IsValidatorOf, first_faults};
ghost use Rattle.olk_answers.specs.Texts.{json_text};
ghost use Rattle.olk_answers.specs.Told.{verdict};
ghost use Rattle.olk_replies.specs.Replies.{has_fraction, accepted, TellsFirst, TellsErrors, TellsEvaluation};
ghost use Rattle.olk_replies.specs.Seen.{seen};

use object_logic::{Leaf, RegexEngine, ValidationContext, Validator};
use olk_answers::{errors_text, evaluation_text, first_text, verdict_text};
use serde_json::Value;
use std::alloc::{AllocError, Global};

/// What is asked about: an instance of a schema.
#[derive(Clone, Copy)]
pub struct Question<'q> {
    /// The schema that the validator stands for.
    pub schema: &'q Value,
    /// The value that is asked about.
    pub instance: &'q Value,
    /// The answer for matches that are left unfinished.
    pub unfinished: bool,
}

/// Tells whether the schema accepts the instance (JSON Schema 2020-12 Core, 4.3.2).
///
/// # Errors
///
/// Out of memory.
pub fn tell_verdict<K: Leaf, R: RegexEngine>(
    alloc: Global,
    question: &Question<'_>,
    validator: &Validator<K, R>,
) -> Result<Vec<u8>, AllocError>
    requires stands { IsValidatorOf (kit K.Leaf R.RegexEngine) validator.now
        (view question.now.schema.now) }
    ensures { IfOk result (λ answer. answer.items ≡ json_text (verdict
        (accepted (world K.Leaf R.RegexEngine) (seen question.now)))) }
{
    let mut ctx = ValidationContext::new(question.unfinished);
    verdict_text(alloc, validator.is_valid(question.instance, &mut ctx))
}

/// Tells the error of the first step that refuses the instance, or that there is none.
///
/// # Errors
///
/// Out of memory.
pub fn tell_first<K: Leaf, R: RegexEngine>(
    alloc: Global,
    question: &Question<'_>,
    validator: &Validator<K, R>,
) -> Result<Vec<u8>, AllocError>
    requires stands { IsValidatorOf (kit K.Leaf R.RegexEngine) validator.now
        (view question.now.schema.now) }
    ensures { IfOk result (λ answer. has_fraction (seen question.now) ≡ false
        → TellsFirst (world K.Leaf R.RegexEngine) (seen question.now) (first_faults
        (kit K.Leaf R.RegexEngine) validator.now question.now.unfinished
        (view question.now.instance.now)) answer.items) }
{
    let mut ctx = ValidationContext::new(question.unfinished);
    let found = validator.validate(alloc, question.instance, &mut ctx);
    first_text(alloc, found)
}

/// Tells the verdict and every error of the instance, sorted by instance path, schema path and
/// message in byte order.
///
/// # Errors
///
/// Out of memory.
pub fn tell_errors<K: Leaf, R: RegexEngine>(
    alloc: Global,
    question: &Question<'_>,
    validator: &Validator<K, R>,
) -> Result<Vec<u8>, AllocError>
    requires stands { IsValidatorOf (kit K.Leaf R.RegexEngine) validator.now
        (view question.now.schema.now) }
    ensures { IfOk result (λ answer. has_fraction (seen question.now) ≡ false
        → TellsErrors (world K.Leaf R.RegexEngine) (seen question.now) answer.items) }
{
    let mut ctx = ValidationContext::new(question.unfinished);
    let mut errors = Vec::new(alloc);
    validator.collect_errors(alloc, question.instance, &mut ctx, &mut errors)?;
    errors_text(alloc, &errors)
}

/// Tells what the schema shows of the instance (JSON Schema 2020-12 Core, 7.7 and 12).
///
/// # Errors
///
/// Out of memory.
pub fn tell_evaluation<K: Leaf, R: RegexEngine>(
    alloc: Global,
    question: &Question<'_>,
    validator: &Validator<K, R>,
) -> Result<Vec<u8>, AllocError>
    requires stands { IsValidatorOf (kit K.Leaf R.RegexEngine) validator.now
        (view question.now.schema.now) }
    ensures { IfOk result (λ answer. has_fraction (seen question.now) ≡ false
        → TellsEvaluation (world K.Leaf R.RegexEngine) (seen question.now) answer.items) }
{
    let mut ctx = ValidationContext::new(question.unfinished);
    let evaluation = validator.evaluate(alloc, question.instance, &mut ctx)?;
    evaluation_text(alloc, &evaluation)
}
