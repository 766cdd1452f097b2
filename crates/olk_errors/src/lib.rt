//! What is wrong with a value, in one walk: the first error, or all, of each validator over its
//! nodes.
//!
//! Stands on `olk_check`. Tested by `object_logic_tests`.
#![tactic(auto)]

use olk_base::{Node, Subject, ValidationContext};
use olk_check::{Check, IsValid};
use olk_reports::{InstancePath, Trail, ValidateError, ValidationError};
use olk_tree::Reports;
use std::alloc::{AllocError, Global};
use std::mem;

/// On the other side stands a validator, which walks over a value and hands its errors to a sink.
///
/// Who writes a validator implements it; callers ask by `Errors`.
pub trait Walk<'a>: Check + Reports {
    ghost use Rattle.std.specs.Prelude.{OnOk, IfErr};
    ghost use Rattle.olk_base.specs.Nodes.{subject_data};
    ghost use Rattle.olk_check.specs.Asks.{OnlyAsks};
    ghost use Rattle.olk_errors.specs.Found.{IsErrorOf};
    ghost use Rattle.olk_errors.specs.Outcomes.{of_node};
    ghost use Rattle.olk_errors.specs.Sinks.{Walks};
    ghost use Rattle.olk_reports.specs.Paths.{path_at};

    /// Hands the errors of the node, which stands where the trail leads, to the sink: one by one,
    /// as long as the sink takes more.
    ///
    /// The context's answer is as before; of the counts only those of matchers that were asked and
    /// of matches that were left unfinished rise.
    ///
    /// # Errors
    ///
    /// That the sink has the one error that it wants; or out of memory, and then a list that takes
    /// all errors has what it had, and may have more.
    fn walk(
        &'a self,
        node: Subject<'_, 'a>,
        trail: &Trail<'_, 'a>,
        ctx: &mut ValidationContext,
        sink: &mut ErrorSink<'a>,
    ) -> Result<(), Stop>
        ensures { Walks result sink.old sink.new ctx.old ctx.new
            (λ u. of_node Self.means Self.first Self.report u self.now
            (subject_data node.entry) (path_at trail.now)) };
}

/// On the other side stands what says what is wrong with a value: its first error, or all of them.
///
/// No caller implements it: all that is `Walk` has it by one implementation.
pub trait Errors<'a>: IsValid + Reports {
    ghost use Rattle.std.specs.Prelude.{◌≡◌, OnOk, OnErr, IfErr};
    ghost use Rattle.olk_base.specs.Nodes.{data_of};
    ghost use Rattle.olk_check.specs.Asks.{OnlyAsks, IsCertain};
    ghost use Rattle.olk_errors.specs.Found.{Appends, IfInvalid, IfTold, Passes, IsErrorOf};
    ghost use Rattle.olk_errors.specs.Outcomes.{of_node};

    /// The first error of its walk over the node, which stands at the path; none where the node is
    /// accepted.
    ///
    /// An error about members that nothing allows names the first of them alone. The path and the
    /// context's answer are as before; of the counts only those of matchers that were asked and of
    /// matches that were left unfinished rise.
    ///
    /// # Errors
    ///
    /// That error, or out of memory.
    fn validate(
        &'a self,
        alloc: Global,
        node: Node<'a>,
        path: &mut InstancePath,
        ctx: &mut ValidationContext,
    ) -> Result<(), ValidateError<'a>>
        ensures ok { OnOk result (Passes
            (of_node Self.means Self.first Self.report ctx.old.answer
            self.now (data_of node.entry) path.old)) }
        ensures invalid { IfErr result (λ e. IfInvalid e (IsErrorOf
            (of_node Self.means Self.first Self.report ctx.old.answer
            self.now (data_of node.entry) path.old))) }
        ensures path { path.new ≡ path.old }
        ensures context { OnlyAsks ctx.old ctx.new }
        ensures certain { IfTold result (IsCertain ctx.old ctx.new
            (Self.means self.now (data_of node.entry)).accepts) };

    /// Appends all errors that the node, which stands at the path, has; none exactly where it is
    /// accepted.
    ///
    /// The path and the context's answer are as before; of the counts only those of matchers that
    /// were asked and of matches that were left unfinished rise.
    ///
    /// # Errors
    ///
    /// Out of memory, and then the list is as before.
    fn collect_errors(
        &'a self,
        alloc: Global,
        node: Node<'a>,
        path: &mut InstancePath,
        ctx: &mut ValidationContext,
        errors: &mut Vec<ValidationError<'a>>,
    ) -> Result<(), AllocError>
        ensures report { OnOk result (Appends errors.old.items errors.new.items
            (Self.report self.now ctx.old.answer (data_of node.entry) path.old)) }
        ensures memory { OnErr result (errors.new.items ≡ errors.old.items) }
        ensures path { path.new ≡ path.old }
        ensures context { OnlyAsks ctx.old ctx.new }
        ensures certain { OnOk result (IsCertain ctx.old ctx.new
            (Self.means self.now (data_of node.entry)).accepts) };
}

impl<'a, W: Walk<'a>> Errors<'a> for W {
    fn validate(
        &'a self,
        alloc: Global,
        node: Node<'a>,
        path: &mut InstancePath,
        ctx: &mut ValidationContext,
    ) -> Result<(), ValidateError<'a>> {
        let mut sink: ErrorSink<'a> = ErrorSink::first(alloc);
        let trail = Trail::At(path.as_str());
        match self.walk(Subject::of(&node), &trail, ctx, &mut sink) {
            Ok(()) => Ok(()),
            Err(Stop) => match sink.into_first() {
                Some(error) => Err(ValidateError::Invalid(error)),
                None => Err(ValidateError::Memory(AllocError)),
            },
        }
    }

    fn collect_errors(
        &'a self,
        alloc: Global,
        node: Node<'a>,
        path: &mut InstancePath,
        ctx: &mut ValidationContext,
        errors: &mut Vec<ValidationError<'a>>,
    ) -> Result<(), AllocError> {
        let len = errors.len();
        let none: Vec<ValidationError<'a>> = Vec::new(alloc);
        let so_far: Vec<ValidationError<'a>> = mem::replace(errors, none);
        let mut sink: ErrorSink<'a> = ErrorSink::all(alloc, so_far);
        let trail = Trail::At(path.as_str());
        let walked = self.walk(Subject::of(&node), &trail, ctx, &mut sink);
        *errors = sink.into_errors();
        match walked {
            Ok(()) => Ok(()),
            Err(Stop) => {
                errors.truncate(len);
                Err(AllocError)
            }
        }
    }
}

mod additional_properties;
mod all_of;
mod any_of;
mod branches;
mod dependencies;
mod if_;
mod keyword;
mod node;
mod not;
mod one_of;
mod pattern_properties;
mod properties;
mod property_dependencies;
mod property_names;
mod required;
mod sink;

pub use node::walk_body;
pub use sink::{ErrorSink, Stop};
