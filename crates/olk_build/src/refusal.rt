//! What is told where a schema is refused.
ghost use Rattle.std.specs.Prelude.{◌∷◌, []};
ghost use Rattle.serde_json.specs.View.{view};
ghost use Rattle.olk_spec.specs.Faults.{fault, SingleType};
ghost use Rattle.olk_reports.specs.Errors.{kind_of, type_name_of, fault_of};
ghost use Rattle.olk_build.specs.Refusing.{TellsOneOf};

use olk_base::{JsonType, Node};
use olk_reports::{BuildError, Location, ValidationError, ValidationErrorKind};
use serde_json::Value;
use std::alloc::{AllocError, Global};
use std::marker::Model;

/// The refusal of what stands at a place; out of memory where there is none for the place.
#[inline(never)]
pub fn refuse<'a>(
    alloc: Global,
    kind: ValidationErrorKind<'a>,
    instance: &'a Value,
    place: &Location,
) -> Stop<'a>
    ensures { TellsOneOf
        (fault (kind_of kind.entry) (view instance.now) [] place.now ∷ []) result }
{
    match place.try_clone(alloc) {
        Ok(place) => {
            let error = ValidationError::refusing(
                kind,
                Node::Value(instance),
                String::new(alloc),
                place,
            );
            Stop::refusing(alloc, error)
        }
        Err(error) => Stop::from(error),
    }
}

/// The refusal of a value that is not of the type.
pub fn refuse_type<'a>(
    alloc: Global,
    expected: JsonType,
    value: &'a Value,
    place: &Location,
) -> Stop<'a>
    ensures { TellsOneOf
        (fault (SingleType (type_name_of expected)) (view value.now) [] place.now ∷ []) result }
{
    refuse(
        alloc,
        ValidationErrorKind::SingleType { expected },
        value,
        place,
    )
}

#[derive(Drop)]
enum Reason<'a> {
    Refused(Box<ValidationError<'a>>),
    Memory(AllocError),
}

/// Why reading and building stop: the schema is refused, or there was no memory. It is two words
/// long, since each call hands on room for it.
#[derive(Drop)]
pub struct Stop<'a> {
    reason: Reason<'a>,
}

impl<'a> Model for Stop<'a> {
    ghost use denote.Signature.{static_lft};
    ghost use Rattle.olk_reports.specs.contracts.error.BuildError.{the_row};
    ghost use Rattle.olk_reports.specs.declared.error.BuildError.{BuildError};

    ghost Value = { BuildError };

    ghost coded = { (the_row static_lft).coded };

    ghost use Rattle.olk_build.specs.Refusing.{error_of};

    ghost view = { λ s. error_of s.reason };
}

impl<'a> Stop<'a> {
    /// The schema is refused with this error; there was no memory where there is none for it.
    #[inline(never)]
    pub fn refusing(alloc: Global, error: ValidationError<'a>) -> Stop<'a>
        ensures { TellsOneOf (fault_of error.entry ∷ []) result }
    {
        let reason = match Box::new(alloc, error) {
            Ok(error) => Reason::Refused(error),
            Err(_) => Reason::Memory(AllocError),
        };
        Stop { reason }
    }
}

impl<'a> From<AllocError> for Stop<'a> {
    ghost use Rattle.std.specs.Prelude.{◌≡◌};
    ghost use Rattle.olk_reports.specs.declared.error.BuildError.TheVariants.{Memory};

    ghost from_gives = { λ a s. s ≡ Memory a };

    /// There was no memory.
    fn from(error: AllocError) -> Stop<'a> {
        Stop {
            reason: Reason::Memory(error),
        }
    }
}

impl<'a> From<Stop<'a>> for BuildError<'a> {
    ghost use Rattle.std.specs.Prelude.{◌≡◌};

    ghost from_gives = { λ s e. e ≡ s };

    /// The same, with the error itself.
    fn from(stop: Stop<'a>) -> BuildError<'a> {
        match stop.reason {
            Reason::Refused(error) => BuildError::Refused(Box::into_inner(error)),
            Reason::Memory(error) => BuildError::Memory(error),
        }
    }
}
