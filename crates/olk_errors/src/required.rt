//! `required`: its errors.
ghost use Rattle.std.specs.Prelude.{◌≡◌, ◌∷◌, []};
ghost use Rattle.olk_base.specs.Nodes.{subject_data};
ghost use Rattle.olk_spec.specs.Faults.{Required, fault};
ghost use Rattle.olk_reports.specs.Paths.{path_at};
ghost use Rattle.olk_tree.specs.Maps.{texts_of};
ghost use Rattle.olk_tree.specs.Visited.{object_of};
ghost use Rattle.olk_errors.specs.Outcomes.{of_names};
ghost use Rattle.olk_errors.specs.Sinks.{Ends, Takes};

use crate::{ErrorSink, Stop, Walk};
use olk_base::{Subject, ValidationContext};
use olk_check::is_present;
use olk_reports::{Location, Trail, ValidationErrorKind};
use olk_tree::required::RequiredValidator;
use serde_json::{Map, Value};

impl<'a> Walk<'a> for RequiredValidator {
    #[inline(never)]
    fn walk(
        &'a self,
        node: Subject<'_, 'a>,
        trail: &Trail<'_, 'a>,
        _ctx: &mut ValidationContext,
        sink: &mut ErrorSink<'a>,
    ) -> Result<(), Stop> {
        match node.as_object() {
            Some(members) => {
                walk_missing(&self.required, &self.location, members, node, trail, sink)
            }
            None => Ok(()),
        }
    }
}

/// An error for each name that is absent.
fn walk_missing<'a>(
    names: &'a Vec<String>,
    location: &'a Location,
    members: &Map<String, Value>,
    node: Subject<'_, 'a>,
    trail: &Trail<'_, 'a>,
    sink: &mut ErrorSink<'a>,
) -> Result<(), Stop>
    requires { subject_data node ≡ object_of members.now.entries }
    ensures { Ends result sink.old sink.new
        (of_names (texts_of names.now.items) (subject_data node.entry) location.now
        (path_at trail.now)) }
{
    for name in names {
        report_if_missing(name.as_str(), location, members, node, trail, sink)?;
    }
    Ok(())
}

/// An error, if the name is absent.
#[inline(always)]
pub(crate) fn report_if_missing<'a>(
    name: &'a str,
    location: &'a Location,
    members: &Map<String, Value>,
    node: Subject<'_, 'a>,
    trail: &Trail<'_, 'a>,
    sink: &mut ErrorSink<'a>,
) -> Result<(), Stop>
    requires { subject_data node ≡ object_of members.now.entries }
    ensures { Ends result sink.old sink.new
        (of_names (name.now ∷ []) (subject_data node.entry) location.now (path_at trail.now)) }
{
    if is_present(members, name) {
        return Ok(());
    }
    report_absent(name, location, node, trail, sink)
}

/// The error of an absent name. Apart, so that room for an error is made only where there is one.
#[inline(never)]
fn report_absent<'a>(
    name: &'a str,
    location: &'a Location,
    node: Subject<'_, 'a>,
    trail: &Trail<'_, 'a>,
    sink: &mut ErrorSink<'a>,
) -> Result<(), Stop>
    ensures { Takes result sink.old sink.new
        (fault (Required name.now) (subject_data node.entry) (path_at trail.now) location.now) }
{
    let kind = ValidationErrorKind::Required { property: name };
    sink.report(kind, node, trail, location.as_str())
}
