//! `required`: what it shows.
ghost use Rattle.std.specs.Prelude.{◌≡◌, ◌∷◌, [], not, map, OnOk, string_bytes};
ghost use Rattle.olk_base.specs.Nodes.{subject_data};
ghost use Rattle.olk_spec.specs.Names.{Path};
ghost use Rattle.olk_spec.specs.Faults.{fault, Required};
ghost use Rattle.olk_spec.specs.Schemas.{has};
ghost use Rattle.olk_spec.specs.Reports.{fault_if, required_faults};
ghost use Rattle.olk_reports.specs.Evaluations.{AddsErrors, shown_of};
ghost use Rattle.olk_tree.specs.Maps.{texts_of, two_texts};
ghost use Rattle.olk_tree.specs.Visited.{object_of};
ghost use Rattle.olk_evaluate.specs.Wanted.{ShowsMore, refused, lacking_trees};

use crate::walk::add_child_at;
use crate::{EvaluationContext, Show};
use olk_base::Subject;
use olk_meaning::has_member;
use olk_reports::{EvaluationResult, InstancePath, Location, ValidationErrorKind};
use olk_tree::properties::SmallPropertiesWithRequired2;
use olk_tree::required::RequiredValidator;
use serde_json::{Map, Value};
use std::alloc::AllocError;

/// An error of its own for each listed name that an object lacks (JSON Schema 2020-12 Validation,
/// 6.5.3).
impl<'a> Show<'a> for RequiredValidator {
    ghost use Rattle.olk_tree.specs.Required.{required_answers};

    ghost place = { λ k. k.location };

    ghost tree = { λ k. (required_answers k).tree };

    #[inline(never)]
    fn show(
        &'a self,
        node: Subject<'_, 'a>,
        _ctx: &mut EvaluationContext,
        outcome: &mut EvaluationResult<'a>,
    ) -> Result<(), AllocError> {
        add_missing(outcome, self, node)
    }
}

/// Adds an error for each of the names that the value lacks.
pub(crate) fn add_missing<'a>(
    outcome: &mut EvaluationResult<'a>,
    required: &'a RequiredValidator,
    node: Subject<'_, 'a>,
) -> Result<(), AllocError>
    ensures { OnOk result ((P Q : Path) → AddsErrors
        (required_faults (texts_of required.now.required.items) (subject_data node.entry) P Q)
        (shown_of outcome.old) (shown_of outcome.new)) }
{
    match node.as_object() {
        Some(members) => {
            for name in &required.required {
                add_error_if_missing(outcome, name.as_str(), members, node)?;
            }
            Ok(())
        }
        None => Ok(()),
    }
}

/// Adds an error where the name is no member.
fn add_error_if_missing<'a>(
    outcome: &mut EvaluationResult<'a>,
    name: &'a str,
    members: &Map<String, Value>,
    node: Subject<'_, 'a>,
) -> Result<(), AllocError>
    ensures { OnOk result ((P Q : Path) → AddsErrors
        (fault_if (not (has name.now (object_of members.now.entries)))
        (Required name.now) (subject_data node.entry) P Q)
        (shown_of outcome.old) (shown_of outcome.new)) }
{
    if has_member(members, name) {
        return Ok(());
    }
    let kind: ValidationErrorKind<'a> = ValidationErrorKind::Required { property: name };
    outcome.mark_errored_by(kind, node.node())
}

/// A child more at the place of `required`, where one of two names is no member.
pub(crate) fn add_missing_child<'a, N>(
    keyword: &'a SmallPropertiesWithRequired2<N>,
    members: &Map<String, Value>,
    node: Subject<'_, 'a>,
    path: &InstancePath,
    outcome: &mut EvaluationResult<'a>,
) -> Result<(), AllocError>
    ensures { OnOk result (ShowsMore
        (refused (lacking_trees (two_texts keyword.now.first keyword.now.second)
        (subject_data node.entry) (object_of members.now.entries)
        keyword.now.required_location path.now))
        (shown_of outcome.old) (shown_of outcome.new)) }
{
    let first = keyword.first.as_str();
    let second = keyword.second.as_str();
    if has_member(members, first) & has_member(members, second) {
        return Ok(());
    }
    let mut shown: EvaluationResult<'a> = EvaluationResult::valid_empty(outcome.allocator());
    add_error_if_missing(&mut shown, first, members, node)?;
    add_error_if_missing(&mut shown, second, members, node)?;
    add_child_at(keyword.required_location.as_str(), path, shown, outcome)
}

/// A child more at the place of `required`, where the name is no member.
pub(crate) fn add_missing_name<'a>(
    name: &'a String,
    location: &'a Location,
    members: &Map<String, Value>,
    node: Subject<'_, 'a>,
    path: &InstancePath,
    outcome: &mut EvaluationResult<'a>,
) -> Result<(), AllocError>
    ensures { OnOk result (ShowsMore
        (refused (lacking_trees (string_bytes name.now ∷ [])
        (subject_data node.entry) (object_of members.now.entries) location.now path.now))
        (shown_of outcome.old) (shown_of outcome.new)) }
{
    let name = name.as_str();
    if has_member(members, name) {
        return Ok(());
    }
    let mut shown: EvaluationResult<'a> = EvaluationResult::valid_empty(outcome.allocator());
    let kind: ValidationErrorKind<'a> = ValidationErrorKind::Required { property: name };
    shown.mark_errored_by(kind, node.node())?;
    add_child_at(location.as_str(), path, shown, outcome)
}
