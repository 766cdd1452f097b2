//! `propertyNames`: its errors.
ghost use Rattle.std.specs.Prelude.{◌≡◌, true, false, IfOk, string_bytes};
ghost use Rattle.olk_base.specs.Nodes.{subject_data};
ghost use Rattle.olk_reports.specs.Paths.{path_at};
ghost use Rattle.olk_spec.specs.Reports.{wrapped};
ghost use Rattle.olk_reports.specs.Errors.{fault_of};
ghost use Rattle.olk_tree.specs.Visited.{object_of};
ghost use Rattle.olk_errors.specs.Outcomes.{of_asked_name, of_asked_names};
ghost use Rattle.olk_errors.specs.Sinks.{wants_one, Walks, Takes};

use crate::branches::{errors_of, first_error_of};
use crate::{ErrorSink, Stop, Walk};
use olk_base::{Subject, ValidationContext};
use olk_check::accepts;
use olk_reports::{PathText, Trail, ValidationError, ValidationErrorKind};
use olk_tree::property_names::{PropertyNames, PropertyNamesFalse};
use serde_json::{Map, Value};
use std::alloc::{AllocError, Global};

impl<'a, N: Walk<'a>> Walk<'a> for PropertyNames<N> {
    #[inline(never)]
    fn walk(
        &'a self,
        node: Subject<'_, 'a>,
        trail: &Trail<'_, 'a>,
        ctx: &mut ValidationContext,
        sink: &mut ErrorSink<'a>,
    ) -> Result<(), Stop> {
        match node.as_object() {
            Some(members) => walk_names(&self.node, members, node, trail, ctx, sink),
            None => Ok(()),
        }
    }
}

impl<'a> Walk<'a> for PropertyNamesFalse {
    #[inline(never)]
    fn walk(
        &'a self,
        node: Subject<'_, 'a>,
        trail: &Trail<'_, 'a>,
        ctx: &mut ValidationContext,
        sink: &mut ErrorSink<'a>,
    ) -> Result<(), Stop> {
        if accepts(self, node, ctx) {
            return Ok(());
        }
        let kind = ValidationErrorKind::FalseSchema;
        sink.report(kind, node, trail, self.location.as_str())
    }
}

/// Walks over the members' names.
fn walk_names<'a, N: Walk<'a>>(
    subschema: &'a N,
    members: &'a Map<String, Value>,
    object: Subject<'_, 'a>,
    trail: &Trail<'_, 'a>,
    ctx: &mut ValidationContext,
    sink: &mut ErrorSink<'a>,
) -> Result<(), Stop>
    requires { subject_data object ≡ object_of members.now.entries }
    ensures { Walks result sink.old sink.new ctx.old ctx.new
        (λ u. of_asked_names N.means N.first N.report u subschema.now
        (subject_data object.entry) (path_at trail.now)) }
{
    for (name, _) in members {
        walk_name(subschema, name, object, trail, ctx, sink)?;
    }
    Ok(())
}

/// Walks over a member's name, and takes its errors, told of the object.
fn walk_name<'a, N: Walk<'a>>(
    subschema: &'a N,
    name: &'a String,
    object: Subject<'_, 'a>,
    trail: &Trail<'_, 'a>,
    ctx: &mut ValidationContext,
    sink: &mut ErrorSink<'a>,
) -> Result<(), Stop>
    ensures { Walks result sink.old sink.new ctx.old ctx.new
        (λ u. of_asked_name N.means N.first N.report u subschema.now
        (subject_data object.entry) (string_bytes name.now) (path_at trail.now)) }
{
    if sink.wants_one() {
        take_first_of_name(subschema, name, object, trail, ctx, sink)
    } else {
        take_all_of_name(subschema, name, object, trail, ctx, sink)
    }
}

/// Takes the first error of a member's name, told of the object.
fn take_first_of_name<'a, N: Walk<'a>>(
    subschema: &'a N,
    name: &'a String,
    object: Subject<'_, 'a>,
    trail: &Trail<'_, 'a>,
    ctx: &mut ValidationContext,
    sink: &mut ErrorSink<'a>,
) -> Result<(), Stop>
    requires { wants_one sink.now ≡ true }
    ensures { Walks result sink.old sink.new ctx.old ctx.new
        (λ u. of_asked_name N.means N.first N.report u subschema.now
        (subject_data object.entry) (string_bytes name.now) (path_at trail.now)) }
{
    let name = name.as_str();
    match first_error_of(sink.alloc(), subschema, Subject::Name(&name), trail, ctx)? {
        Some(error) => take_wrapped(error, object, trail, sink),
        None => Ok(()),
    }
}

/// Takes all errors of a member's name, told of the object.
fn take_all_of_name<'a, N: Walk<'a>>(
    subschema: &'a N,
    name: &'a String,
    object: Subject<'_, 'a>,
    trail: &Trail<'_, 'a>,
    ctx: &mut ValidationContext,
    sink: &mut ErrorSink<'a>,
) -> Result<(), Stop>
    requires { wants_one sink.now ≡ false }
    ensures { Walks result sink.old sink.new ctx.old ctx.new
        (λ u. of_asked_name N.means N.first N.report u subschema.now
        (subject_data object.entry) (string_bytes name.now) (path_at trail.now)) }
{
    let name = name.as_str();
    let errors = errors_of(sink.alloc(), subschema, Subject::Name(&name), trail, ctx)?;
    for error in errors {
        take_wrapped(error, object, trail, sink)?;
    }
    Ok(())
}

/// Takes the error of a member's name, told of the object.
fn take_wrapped<'a>(
    error: ValidationError<'a>,
    object: Subject<'_, 'a>,
    trail: &Trail<'_, 'a>,
    sink: &mut ErrorSink<'a>,
) -> Result<(), Stop>
    ensures { Takes result sink.old sink.new
        (wrapped (subject_data object.entry) (path_at trail.now) (fault_of error.entry)) }
{
    let (error, instance_path) = boxed_at(sink.alloc(), error, trail)?;
    sink.take(ValidationError::wrapping_at(error, object.node(), instance_path))
}

/// The value in a box, and the text of the path to which the trail leads.
fn boxed_at<T: Drop>(
    alloc: Global,
    value: T,
    trail: &Trail<'_, '_>,
) -> Result<(Box<T>, PathText), AllocError>
    ensures value { IfOk result (λ b. b.0.value ≡ value) }
    ensures text { IfOk result (λ b. b.1 ≡ path_at trail.now) }
{
    let text = trail.text(alloc)?;
    let value = Box::new(alloc, value)?;
    Ok((value, text))
}
