//! What takes the errors of a walk.
ghost use Rattle.std.specs.Prelude.{◌≡◌, [], true, false, option_to_list};
ghost use Rattle.olk_base.specs.Nodes.{subject_data};
ghost use Rattle.olk_reports.specs.Paths.{path_at};
ghost use Rattle.olk_reports.specs.Errors.{kind_of, fault_of};
ghost use Rattle.olk_spec.specs.Faults.{fault};
ghost use Rattle.olk_errors.specs.Sinks.{wants_one, held, Takes};

use olk_base::{Subject, append};
use olk_reports::{Trail, ValidationError, ValidationErrorKind};
use std::alloc::{AllocError, Global};

/// Takes the errors of a walk: the first, with which the walk ends, or all.
#[derive(Drop)]
pub struct ErrorSink<'a> {
    alloc: Global,
    held: Held<'a>,
}

/// The errors that a sink has taken.
#[derive(Drop)]
enum Held<'a> {
    /// The first, if there is one.
    First(Option<ValidationError<'a>>),
    /// All.
    All(Vec<ValidationError<'a>>),
}

/// A walk ended early: the sink has the one error that it wants, or else there was no memory.
#[derive(Drop)]
pub struct Stop;

impl From<AllocError> for Stop {
    ghost use Rattle.std.specs.Prelude.{⊤};

    ghost from_gives = { λ a e. ⊤ };

    /// Gives the one stop there is.
    fn from(_error: AllocError) -> Stop {
        Stop
    }
}

impl<'a> ErrorSink<'a> {
    /// A sink that wants the first error.
    pub fn first(alloc: Global) -> Self
        ensures one { wants_one result ≡ true }
        ensures held { held result ≡ [] }
    {
        ErrorSink {
            alloc,
            held: Held::First(None),
        }
    }

    /// A sink that wants all errors, and appends them to the list.
    pub fn all(alloc: Global, errors: Vec<ValidationError<'a>>) -> Self
        ensures all { wants_one result ≡ false }
        ensures held { held result ≡ errors.entry.items }
    {
        ErrorSink {
            alloc,
            held: Held::All(errors),
        }
    }

    /// Where memory comes from.
    #[inline(always)]
    pub fn alloc(&self) -> Global {
        self.alloc
    }

    /// Whether the sink wants the first error alone.
    #[inline(always)]
    pub fn wants_one(&self) -> bool
        ensures { result ≡ wants_one self.now }
    {
        matches!(&self.held, Held::First(_))
    }

    /// Takes an error of the node, which stands where the trail leads.
    ///
    /// # Errors
    ///
    /// That this error is enough; or out of memory, and then a list that takes all errors is as
    /// before.
    #[inline(never)]
    pub fn report(
        &mut self,
        kind: ValidationErrorKind<'a>,
        node: Subject<'_, 'a>,
        trail: &Trail<'_, 'a>,
        schema_path: &'a str,
    ) -> Result<(), Stop>
        ensures { Takes result self.old self.new
            (fault (kind_of kind.entry) (subject_data node.entry)
            (path_at trail.now) schema_path.now) }
    {
        let instance_path = trail.text(self.alloc)?;
        self.take(ValidationError::at(kind, node.node(), instance_path, schema_path))
    }

    /// Takes the error.
    ///
    /// # Errors
    ///
    /// That this error is enough; or out of memory, and then a list that takes all errors is as
    /// before.
    pub fn take(&mut self, error: ValidationError<'a>) -> Result<(), Stop>
        ensures { Takes result self.old self.new (fault_of error.entry) }
    {
        match &mut self.held {
            Held::First(slot) => {
                *slot = Some(error);
                Err(Stop)
            }
            Held::All(errors) => {
                append(errors, error)?;
                Ok(())
            }
        }
    }

    /// The first error, if there is one, of a sink that wants it.
    pub fn into_first(self) -> Option<ValidationError<'a>>
        ensures { wants_one self.entry ≡ true → option_to_list result ≡ held self.entry }
    {
        let ErrorSink { alloc: _, held } = self;
        match held {
            Held::First(error) => error,
            Held::All(_errors) => None,
        }
    }

    /// All errors, of a sink that wants all.
    pub fn into_errors(self) -> Vec<ValidationError<'a>>
        ensures { wants_one self.entry ≡ false → result.items ≡ held self.entry }
    {
        let ErrorSink { alloc, held } = self;
        match held {
            Held::First(_error) => Vec::new(alloc),
            Held::All(errors) => errors,
        }
    }
}
