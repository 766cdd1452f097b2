//! What a validator of `additionalProperties` shows, by what it lends and what stands beside it.
ghost use Rattle.std.specs.Prelude.{◌≡◌, ◌||◌, true, is_some, option_copied, OnOk};
ghost use Rattle.olk_base.specs.Nodes.{subject_data};
ghost use Rattle.olk_spec.specs.Names.{Path};
ghost use Rattle.olk_reports.specs.Evaluations.{AddsErrors, node_at, nothing_shown, shown_of};
ghost use Rattle.olk_tree.specs.Additional.{sides_seen};
ghost use Rattle.olk_tree.specs.Visited.{object_of};
ghost use Rattle.olk_evaluate.specs.Additional.{has_neighbours, has_one, shows_matches, matches_shown, names_of, named_faults, places_wanted, wanted_beside, annotated_if, rest_annotation, Completes};
ghost use Rattle.olk_evaluate.specs.Shows.{Shows};
ghost use Rattle.olk_evaluate.specs.Wanted.{IsShown, ShowsMore, accepted};

use crate::additional_members::collect;
use crate::required::add_missing_name;
use crate::walk::add_child_at;
use crate::{EvaluationContext, Located};
use olk_base::{RegexEngine, Subject};
use olk_meaning::law_of_names;
use olk_reports::{EvaluationResult, InstancePath, Location, ValidationErrorKind};
use olk_tree::additional_properties::SidesOf;
use serde_json::{Map, Value};
use std::alloc::AllocError;

/// What stands beside `additionalProperties`, with the places that show something besides.
#[derive(Clone, Copy)]
pub(crate) enum Beside<'a> {
    /// Nothing.
    Nothing,
    /// `properties`.
    Properties,
    /// `properties`, and `required` of this name, at this place.
    PropertiesWithRequired1(&'a String, &'a Location),
    /// `patternProperties`, at this place.
    Patterns(&'a Location),
    /// `properties` and `patternProperties`.
    PropertiesAndPatterns,
}

impl Beside<'_> {
    /// Whether a name is shown for each match.
    #[inline(always)]
    fn shows_matches(self) -> bool
        ensures { result ≡ shows_matches self.entry }
    {
        matches!(self, Beside::Patterns(_))
    }

    /// Whether just one of `properties` and `patternProperties` stands there.
    #[inline(always)]
    fn has_one(self) -> bool
        ensures { result ≡ has_one self.entry }
    {
        !matches!(self, Beside::Nothing | Beside::PropertiesAndPatterns)
    }
}

/// A child for each node that is asked of a member: what is declared at its name, the patterns that
/// match it, or else the rest, whose names are annotated (JSON Schema 2020-12 Core, 10.3.2.3);
/// where just one neighbour stands there, only if there are some. Without a subschema for the rest,
/// the members that are left to it are an error of its own.
///
/// Behind these, where patterns stand there and `properties` does not, a child at their place with
/// a name for each match, if there is one; and one at the place of `required` where its name is no
/// member.
#[inline(always)]
pub(crate) fn show_sides<'a, R: RegexEngine, N: Located<'a>>(
    sides: SidesOf<'a, R, N>,
    beside: Beside<'a>,
    node: Subject<'_, 'a>,
    ctx: &mut EvaluationContext,
    outcome: &mut EvaluationResult<'a>,
) -> Result<(), AllocError>
    requires nothing { shown_of outcome.old ≡ nothing_shown }
    requires expects { (has_neighbours beside || is_some (sides_seen sides).rest) ≡ true }
    ensures { Shows result ctx.old ctx.new (λ u _. (P : Path) → IsShown
        (wanted_beside R.answers R.costs N.tree N.means (sides_seen sides.entry) beside.entry
        u (subject_data node.entry) P ctx.old.path)
        (node_at P ctx.old.path (shown_of outcome.new))) }
{
    let Some(members) = node.as_object() else {
        return Ok(());
    };
    law_of_names(members);
    let collected = collect(sides, beside.shows_matches(), members, ctx, outcome)?;
    let matched = collected.matched;
    add_places(beside, matched, members, node, &ctx.path, outcome)?;
    complete(beside, sides.rest, outcome, collected.additional, node)
}

/// Behind the children one at the place of `patternProperties`, or one at that of `required`, if
/// it is there.
#[inline(always)]
fn add_places<'a>(
    beside: Beside<'a>,
    matched: Vec<&'a str>,
    members: &Map<String, Value>,
    node: Subject<'_, 'a>,
    path: &InstancePath,
    outcome: &mut EvaluationResult<'a>,
) -> Result<(), AllocError>
    ensures { OnOk result (ShowsMore (places_wanted beside.entry (names_of matched.entry.items)
        (subject_data node.entry) (object_of members.now.entries) path.now)
        (shown_of outcome.old) (shown_of outcome.new)) }
{
    match beside {
        Beside::Patterns(location) => add_matches(matched, location.as_str(), path, outcome),
        Beside::PropertiesWithRequired1(name, location) => {
            add_missing_name(name, location, members, node, path, outcome)
        }
        Beside::Nothing | Beside::Properties | Beside::PropertiesAndPatterns => Ok(()),
    }
}

/// A child more at the place of `patternProperties` with these names, if there are some.
fn add_matches<'a>(
    matched: Vec<&'a str>,
    location: &'a str,
    path: &InstancePath,
    outcome: &mut EvaluationResult<'a>,
) -> Result<(), AllocError>
    ensures { OnOk result (ShowsMore
        (accepted (matches_shown (names_of matched.entry.items) location.now path.now))
        (shown_of outcome.old) (shown_of outcome.new)) }
{
    if matched.is_empty() {
        return Ok(());
    }
    let mut shown: EvaluationResult<'a> = EvaluationResult::valid_empty(outcome.allocator());
    shown.annotate(matched);
    add_child_at(location, path, shown, outcome)
}

/// Annotates the names that the rest is asked of; where just one neighbour stands there, only if
/// there are some. Where there is no rest, adds an error that has these names, if there are some.
#[inline(always)]
fn complete<'a, N>(
    beside: Beside<'a>,
    rest: Option<&'a N>,
    outcome: &mut EvaluationResult<'a>,
    additional: Vec<&'a str>,
    node: Subject<'_, 'a>,
) -> Result<(), AllocError>
    ensures { OnOk result (Completes beside.entry (is_some (option_copied rest.entry))
        (names_of additional.entry.items) (subject_data node.entry)
        (shown_of outcome.old) (shown_of outcome.new)) }
{
    match rest {
        Some(_) => {
            annotate_rest(beside, outcome, additional);
            Ok(())
        }
        None => add_named(outcome, additional, node),
    }
}

/// Annotates the names that the rest is asked of; where just one neighbour stands there, only if
/// there are some.
#[inline(always)]
fn annotate_rest<'a>(
    beside: Beside<'a>,
    outcome: &mut EvaluationResult<'a>,
    additional: Vec<&'a str>,
)
    ensures { shown_of outcome.new ≡ annotated_if
        (rest_annotation beside.entry (names_of additional.entry.items)) (shown_of outcome.old) }
{
    if beside.has_one() && additional.is_empty() {
        return;
    }
    outcome.annotate(additional);
}

/// Adds an error that has these names, if there are some.
fn add_named<'a>(
    outcome: &mut EvaluationResult<'a>,
    unexpected: Vec<&'a str>,
    node: Subject<'_, 'a>,
) -> Result<(), AllocError>
    ensures { OnOk result ((P Q : Path) → AddsErrors
        (named_faults (names_of unexpected.entry.items) (subject_data node.entry) P Q)
        (shown_of outcome.old) (shown_of outcome.new)) }
{
    if unexpected.is_empty() {
        return Ok(());
    }
    let kind: ValidationErrorKind<'a> = ValidationErrorKind::AdditionalProperties { unexpected };
    outcome.mark_errored_by(kind, node.node())
}
