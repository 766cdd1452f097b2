//! Errors in the order in which they are told.
ghost use Rattle.std.specs.Prelude.{◌≡◌, false, IfOk};
ghost use Rattle.olk_spec.specs.Texts.{prints_fraction};
ghost use Rattle.olk_reports.specs.Errors.{fault_of};
ghost use Rattle.olk_answers.specs.Told.{told};
ghost use Rattle.olk_places.specs.Told.{shown, AreTold, AreToldInTurn};

use olk_reports::{ValidationError, ValidationErrorKind};
use std::alloc::{AllocError, Global};

/// What is told of an error, by which errors are sorted, in this order.
#[derive(PartialEq, Eq, PartialOrd, Ord, Drop)]
pub struct Told<'e> {
    /// Where the value stands in the instance.
    pub instance_path: &'e str,
    /// Where the keyword stands in the schema.
    pub schema_path: &'e str,
    /// The error in words.
    pub message: String,
    /// Which of the errors it is.
    pub index: usize,
}

/// What is told of each error, sorted by instance path, schema path and message in byte order.
///
/// # Errors
///
/// Out of memory.
pub fn told_errors<'e>(
    alloc: Global,
    errors: &'e [ValidationError<'_>],
) -> Result<Vec<Told<'e>>, AllocError>
    ensures { IfOk result (λ ts. AreTold errors.now ts.items) }
{
    let mut told = told_each(alloc, errors)?;
    told.sort_unstable();
    Ok(told)
}

/// What is told of each error, in the order of the errors.
fn told_each<'e>(
    alloc: Global,
    errors: &'e [ValidationError<'_>],
) -> Result<Vec<Told<'e>>, AllocError>
    ensures { IfOk result (λ ts. AreToldInTurn errors.now ts.items) }
{
    let mut told = Vec::new(alloc);
    for error in errors {
        let index = told.len();
        told.push(told_error(alloc, index, error)?)?;
    }
    Ok(told)
}

fn told_error<'e>(
    alloc: Global,
    index: usize,
    error: &'e ValidationError<'_>,
) -> Result<Told<'e>, AllocError>
    ensures { IfOk result (λ t. (t.index ≡ index)
        × (prints_fraction (fault_of error.now) ≡ false
        → shown t ≡ told (fault_of error.now))) }
{
    let message = error.message(alloc)?;
    Ok(Told {
        instance_path: error.instance_path(),
        schema_path: error.schema_path(),
        message,
        index,
    })
}

/// What each branch of `anyOf` or `oneOf` finds; of other errors nothing. Of a name that is
/// refused, what the error inside has.
pub fn branches_of<'e, 'a>(error: &'e ValidationError<'a>) -> &'e [Vec<ValidationError<'a>>] {
    match error.kind() {
        ValidationErrorKind::PropertyNames { error } => contexts_of(error.kind()),
        kind => contexts_of(kind),
    }
}

fn contexts_of<'e, 'a>(kind: &'e ValidationErrorKind<'a>) -> &'e [Vec<ValidationError<'a>>] {
    match kind {
        ValidationErrorKind::AnyOf { context }
        | ValidationErrorKind::OneOfNotValid { context }
        | ValidationErrorKind::OneOfMultipleValid { context } => context.as_slice(),
        _ => &[],
    }
}
