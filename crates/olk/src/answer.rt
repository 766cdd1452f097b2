//! What a validator answers about one instance.
ghost use Rattle.std.specs.Prelude.{◌≡◌, true, [], IfOk, MatchOption};
ghost use Rattle.serde_json.specs.Data.{Data};
ghost use Rattle.serde_json.specs.View.{view};
ghost use Rattle.olk_base.specs.Kit.{kit, world};
ghost use Rattle.olk_reports.specs.Errors.{fault_of};
ghost use Rattle.olk_errors.specs.Found.{Appends};
ghost use Rattle.olk_document_spec.specs.Documents.{document_meaning};
ghost use Rattle.olk_document.specs.Validators.{IsDocumentValidatorOf, IsRefusalBy};
ghost use Rattle.olk.specs.Documents.{accepts, report, TellsEvaluation};
ghost use Rattle.olk.specs.Asked.{AreAsked};

use crate::options::Ask;
use olk_answers::evaluation_text;
use olk_base::{Leaf, RegexEngine, ValidationContext, one};
use olk_document::DocumentValidator;
use olk_reports::{ValidateError, ValidationError};
use serde_json::Value;
use std::alloc::{AllocError, Global};

/// What is asked about: an instance of a schema.
#[derive(Clone, Copy)]
pub struct Question<'q> {
    /// The schema that the validator stands for.
    pub schema: &'q Value,
    /// The value that is asked about.
    pub instance: &'q Value,
    /// The answer for matches that are left unfinished.
    pub unfinished: bool,
}

/// Whether the schema accepts the instance (JSON Schema 2020-12 Core, 4.3.2).
pub fn accepts<K: Leaf, R: RegexEngine>(
    question: &Question<'_>,
    validator: &DocumentValidator<K, R>,
) -> bool
    requires stands { IsDocumentValidatorOf (kit K.Leaf R.RegexEngine) validator.now
        (view question.now.schema.now) }
    ensures { result ≡ accepts (world K.Leaf R.RegexEngine) question.now.unfinished
        (view question.now.schema.now) (view question.now.instance.now) }
{
    let mut ctx = ValidationContext::new(question.unfinished);
    validator.is_valid(question.instance, &mut ctx)
}

/// The errors of what is asked of the instance: the first, or all of them in the order of the walk.
///
/// # Errors
///
/// Out of memory.
pub fn asked_errors<'a, K: Leaf, R: RegexEngine>(
    alloc: Global,
    question: &Question<'a>,
    validator: &'a DocumentValidator<K, R>,
    ask: Ask,
) -> Result<Vec<ValidationError<'a>>, AllocError>
    requires stands { IsDocumentValidatorOf (kit K.Leaf R.RegexEngine) validator.now
        (view question.now.schema.now) }
    ensures { IfOk result (λ errors. AreAsked ask (world K.Leaf R.RegexEngine)
        question.now.unfinished (view question.now.schema.now) (view question.now.instance.now)
        errors.items) }
{
    match ask {
        Ask::First => match first_error(alloc, question, validator)? {
            Some(error) => one(alloc, error),
            None => Ok(Vec::new(alloc)),
        },
        Ask::Errors | Ask::Evaluate => all_errors(alloc, question, validator),
    }
}

/// The first error of the instance; none where the schema accepts it.
///
/// # Errors
///
/// Out of memory.
fn first_error<'a, K: Leaf, R: RegexEngine>(
    alloc: Global,
    question: &Question<'a>,
    validator: &'a DocumentValidator<K, R>,
) -> Result<Option<ValidationError<'a>>, AllocError>
    requires stands { IsDocumentValidatorOf (kit K.Leaf R.RegexEngine) validator.now
        (view question.now.schema.now) }
    ensures { IfOk result (λ found. MatchOption found
        (accepts (world K.Leaf R.RegexEngine) question.now.unfinished
        (view question.now.schema.now) (view question.now.instance.now) ≡ true)
        (λ e. IsRefusalBy (document_meaning (world K.Leaf R.RegexEngine)
        question.now.unfinished (view question.now.schema.now))
        (view question.now.instance.now) (fault_of e))) }
{
    let mut ctx = ValidationContext::new(question.unfinished);
    match validator.validate(alloc, question.instance, &mut ctx) {
        Ok(()) => Ok(None),
        Err(ValidateError::Invalid(error)) => Ok(Some(error)),
        Err(ValidateError::Memory(error)) => Err(error),
    }
}

/// Every error of the instance, in the order of the walk; none where the schema accepts it.
///
/// # Errors
///
/// Out of memory.
fn all_errors<'a, K: Leaf, R: RegexEngine>(
    alloc: Global,
    question: &Question<'a>,
    validator: &'a DocumentValidator<K, R>,
) -> Result<Vec<ValidationError<'a>>, AllocError>
    requires stands { IsDocumentValidatorOf (kit K.Leaf R.RegexEngine) validator.now
        (view question.now.schema.now) }
    ensures { IfOk result (λ errors. Appends [] errors.items
        (report (world K.Leaf R.RegexEngine) question.now.unfinished
        (view question.now.schema.now) (view question.now.instance.now))) }
{
    let mut ctx = ValidationContext::new(question.unfinished);
    let mut errors = Vec::new(alloc);
    validator.collect_errors(alloc, question.instance, &mut ctx, &mut errors)?;
    Ok(errors)
}

/// Tells what the schema shows of the instance (JSON Schema 2020-12 Core, 7.7 and 12).
///
/// # Errors
///
/// Out of memory.
pub fn tell_evaluation<K: Leaf, R: RegexEngine>(
    alloc: Global,
    question: &Question<'_>,
    validator: &DocumentValidator<K, R>,
) -> Result<Vec<u8>, AllocError>
    requires stands { IsDocumentValidatorOf (kit K.Leaf R.RegexEngine) validator.now
        (view question.now.schema.now) }
    ensures { IfOk result (λ answer. TellsEvaluation (world K.Leaf R.RegexEngine)
        question.now.unfinished (view question.now.schema.now) (view question.now.instance.now)
        answer.items) }
{
    let mut ctx = ValidationContext::new(question.unfinished);
    let evaluation = validator.evaluate(alloc, question.instance, &mut ctx)?;
    evaluation_text(alloc, &evaluation)
}
