//! `additionalProperties`, and what it takes over: what they show.
ghost use Rattle.std.specs.Prelude.{false, OnOk};
ghost use Rattle.serde_json.specs.Data.{Data};
ghost use Rattle.serde_json.specs.View.{members_view};
ghost use Rattle.olk_spec.specs.Names.{Path};
ghost use Rattle.olk_spec.specs.Reports.{unexpected_faults};
ghost use Rattle.olk_spec.specs.Schemas.{listed};
ghost use Rattle.olk_reports.specs.Evaluations.{AddsErrors, shown_of};

use crate::sides::{Beside, show_sides};
use crate::{EvaluationContext, Located, Show};
use olk_base::{NoRegex, Node, RegexEngine, Subject};
use olk_meaning::law_of_names;
use olk_reports::{EvaluationResult, ValidationErrorKind};
use olk_tree::additional_properties::{
    AdditionalProperties, AdditionalPropertiesFalse, AdditionalPropertiesNotEmpty,
    AdditionalPropertiesNotEmptyFalse, AdditionalPropertiesNotEmptyFalseWithRequired1,
    AdditionalPropertiesWithPatterns, AdditionalPropertiesWithPatternsFalse,
    AdditionalPropertiesWithPatternsNotEmpty, AdditionalPropertiesWithPatternsNotEmptyFalse,
    Restriction, SidesOf,
};
use serde_json::{Map, Value};
use std::alloc::AllocError;

/// A child for each member, whose names are annotated (JSON Schema 2020-12 Core, 10.3.2.3).
impl<'a, N: Located<'a>> Show<'a> for AdditionalProperties<N> {
    ghost use Rattle.olk_tree.specs.AdditionalProperties.{unpatterned_answers};
    ghost use Rattle.olk_tree.specs.Holdings.{schema_holds};

    ghost place = { λ k. k.location };

    ghost tree = { λ k. (unpatterned_answers (schema_holds k)).tree N.means N.tree };

    #[inline(never)]
    fn show(
        &'a self,
        node: Subject<'_, 'a>,
        ctx: &mut EvaluationContext,
        outcome: &mut EvaluationResult<'a>,
    ) -> Result<(), AllocError> {
        let sides: SidesOf<'a, NoRegex, N> = SidesOf {
            properties: None,
            patterns: &[],
            table: None,
            rest: Some(&self.node),
        };
        show_sides(sides, Beside::Nothing, node, ctx, outcome)
    }
}

/// An error of its own about the first member, if there is one.
impl<'a> Show<'a> for AdditionalPropertiesFalse {
    ghost use Rattle.olk_tree.specs.AdditionalProperties.{false_answers};
    ghost use Rattle.olk_tree.specs.Holdings.{false_holds};

    ghost place = { λ k. k.location };

    ghost tree = { λ k. (false_answers (false_holds k)).tree };

    #[inline(never)]
    fn show(
        &'a self,
        node: Subject<'_, 'a>,
        _ctx: &mut EvaluationContext,
        outcome: &mut EvaluationResult<'a>,
    ) -> Result<(), AllocError> {
        match node.as_object() {
            Some(members) => {
                law_of_names(members);
                add_first(outcome, members)
            }
            None => Ok(()),
        }
    }
}

/// A child for each member: what is declared at its name, or else the rest, whose names are
/// annotated if there are some.
impl<'a, N: Located<'a>> Show<'a> for AdditionalPropertiesNotEmpty<N> {
    ghost use Rattle.olk_tree.specs.AdditionalProperties.{unpatterned_answers};
    ghost use Rattle.olk_tree.specs.Holdings.{not_empty_holds};

    ghost place = { λ k. k.location };

    ghost tree = { λ k. (unpatterned_answers (not_empty_holds k)).tree N.means N.tree };

    #[inline(never)]
    fn show(
        &'a self,
        node: Subject<'_, 'a>,
        ctx: &mut EvaluationContext,
        outcome: &mut EvaluationResult<'a>,
    ) -> Result<(), AllocError> {
        show_sides(
            self.sides::<NoRegex>(),
            Beside::Properties,
            node,
            ctx,
            outcome,
        )
    }
}

/// A child for each declared member, and an error of its own that names the others.
impl<'a, N: Located<'a>> Show<'a> for AdditionalPropertiesNotEmptyFalse<N> {
    ghost use Rattle.olk_tree.specs.AdditionalProperties.{unpatterned_answers};
    ghost use Rattle.olk_tree.specs.Holdings.{not_empty_false_holds};

    ghost place = { λ k. k.location };

    ghost tree = { λ k. (unpatterned_answers (not_empty_false_holds k)).tree N.means N.tree };

    #[inline(never)]
    fn show(
        &'a self,
        node: Subject<'_, 'a>,
        ctx: &mut EvaluationContext,
        outcome: &mut EvaluationResult<'a>,
    ) -> Result<(), AllocError> {
        show_sides(
            self.sides::<NoRegex>(),
            Beside::Properties,
            node,
            ctx,
            outcome,
        )
    }
}

/// The same, and a child at the place of `required` where its name is no member.
impl<'a, N: Located<'a>> Show<'a> for AdditionalPropertiesNotEmptyFalseWithRequired1<N> {
    ghost use Rattle.olk_tree.specs.AdditionalProperties.{unpatterned_answers};
    ghost use Rattle.olk_tree.specs.Holdings.{with_required1_holds};

    ghost place = { λ k. k.location };

    ghost tree = { λ k. (unpatterned_answers (with_required1_holds k)).tree N.means N.tree };

    #[inline(never)]
    fn show(
        &'a self,
        node: Subject<'_, 'a>,
        ctx: &mut EvaluationContext,
        outcome: &mut EvaluationResult<'a>,
    ) -> Result<(), AllocError> {
        let beside = Beside::PropertiesWithRequired1(&self.required, &self.required_location);
        show_sides(self.sides::<NoRegex>(), beside, node, ctx, outcome)
    }
}

/// A child for each match of a member's name, or else for the rest, whose names are annotated if
/// there are some; behind these a child at the place of the patterns with a name for each match, if
/// there is one.
impl<'a, R: RegexEngine, N: Located<'a>> Show<'a> for AdditionalPropertiesWithPatterns<R, N> {
    ghost use Rattle.olk_tree.specs.AdditionalProperties.{additional_properties_answers};
    ghost use Rattle.olk_tree.specs.Holdings.{with_patterns_holds};

    ghost place = { λ k. k.location };

    ghost tree = { λ k.
        (additional_properties_answers R.answers R.costs (with_patterns_holds k)).tree
        N.means N.tree };

    #[inline(never)]
    fn show(
        &'a self,
        node: Subject<'_, 'a>,
        ctx: &mut EvaluationContext,
        outcome: &mut EvaluationResult<'a>,
    ) -> Result<(), AllocError> {
        let beside = Beside::Patterns(&self.pattern_keyword_path);
        show_sides(self.sides(), beside, node, ctx, outcome)
    }
}

/// The same, with an error of its own that names the members that match nothing.
impl<'a, R: RegexEngine, N: Located<'a>> Show<'a> for AdditionalPropertiesWithPatternsFalse<R, N> {
    ghost use Rattle.olk_tree.specs.AdditionalProperties.{additional_properties_answers};
    ghost use Rattle.olk_tree.specs.Holdings.{with_patterns_false_holds};

    ghost place = { λ k. k.location };

    ghost tree = { λ k.
        (additional_properties_answers R.answers R.costs (with_patterns_false_holds k)).tree
        N.means N.tree };

    #[inline(never)]
    fn show(
        &'a self,
        node: Subject<'_, 'a>,
        ctx: &mut EvaluationContext,
        outcome: &mut EvaluationResult<'a>,
    ) -> Result<(), AllocError> {
        let beside = Beside::Patterns(&self.pattern_keyword_path);
        show_sides(self.sides(), beside, node, ctx, outcome)
    }
}

/// A child for what is declared at a member's name, one for each match, or else one for the rest,
/// whose names are annotated.
impl<'a, R: RegexEngine, N: Located<'a>> Show<'a>
    for AdditionalPropertiesWithPatternsNotEmpty<R, N> {
    ghost use Rattle.olk_tree.specs.AdditionalProperties.{additional_properties_answers};
    ghost use Rattle.olk_tree.specs.Holdings.{with_both_holds};

    ghost place = { λ k. k.location };

    ghost tree = { λ k.
        (additional_properties_answers R.answers R.costs (with_both_holds k)).tree
        N.means N.tree };

    #[inline(never)]
    fn show(
        &'a self,
        node: Subject<'_, 'a>,
        ctx: &mut EvaluationContext,
        outcome: &mut EvaluationResult<'a>,
    ) -> Result<(), AllocError> {
        show_sides(
            self.sides(),
            Beside::PropertiesAndPatterns,
            node,
            ctx,
            outcome,
        )
    }
}

/// A child for what is declared at a member's name and one for each match, and an error of its own
/// that names the members that have neither.
impl<'a, R: RegexEngine, N: Located<'a>> Show<'a>
    for AdditionalPropertiesWithPatternsNotEmptyFalse<R, N> {
    ghost use Rattle.olk_tree.specs.AdditionalProperties.{additional_properties_answers};
    ghost use Rattle.olk_tree.specs.Holdings.{with_both_false_holds};

    ghost place = { λ k. k.location };

    ghost tree = { λ k.
        (additional_properties_answers R.answers R.costs (with_both_false_holds k)).tree
        N.means N.tree };

    #[inline(never)]
    fn show(
        &'a self,
        node: Subject<'_, 'a>,
        ctx: &mut EvaluationContext,
        outcome: &mut EvaluationResult<'a>,
    ) -> Result<(), AllocError> {
        show_sides(
            self.sides(),
            Beside::PropertiesAndPatterns,
            node,
            ctx,
            outcome,
        )
    }
}

/// What the validator shows.
impl<'a, R: RegexEngine, N: Located<'a>> Show<'a> for Restriction<R, N> {
    ghost use Rattle.olk_tree.specs.AdditionalProperties.{additional_properties_answers};
    ghost use Rattle.olk_tree.specs.Holdings.{held};

    ghost place = { λ k. (held k).location };

    ghost tree = { λ k.
        (additional_properties_answers R.answers R.costs (held k)).tree N.means N.tree };

    #[inline(always)]
    fn show(
        &'a self,
        node: Subject<'_, 'a>,
        ctx: &mut EvaluationContext,
        outcome: &mut EvaluationResult<'a>,
    ) -> Result<(), AllocError> {
        match self {
            Restriction::Schema(it) => it.show(node, ctx, outcome),
            Restriction::False(it) => it.show(node, ctx, outcome),
            Restriction::NotEmpty(it) => it.show(node, ctx, outcome),
            Restriction::NotEmptyFalse(it) => it.show(node, ctx, outcome),
            Restriction::NotEmptyFalseWithRequired1(it) => it.show(node, ctx, outcome),
            Restriction::WithPatterns(it) => it.show(node, ctx, outcome),
            Restriction::WithPatternsFalse(it) => it.show(node, ctx, outcome),
            Restriction::WithPatternsNotEmpty(it) => it.show(node, ctx, outcome),
            Restriction::WithPatternsNotEmptyFalse(it) => it.show(node, ctx, outcome),
        }
    }
}

/// Adds the error of a false schema over the first member's value, if there is one.
fn add_first<'a>(
    outcome: &mut EvaluationResult<'a>,
    members: &'a Map<String, Value>,
) -> Result<(), AllocError>
    ensures { OnOk result ((v : Data) (P Q : Path) → AddsErrors
        (unexpected_faults false (listed (members_view members.now.entries)) v P Q)
        (shown_of outcome.old) (shown_of outcome.new)) }
{
    match members.iter().next() {
        Some((_, value)) => {
            let kind: ValidationErrorKind<'a> = ValidationErrorKind::FalseSchema;
            outcome.mark_errored_by(kind, Node::Value(value))
        }
        None => Ok(()),
    }
}
