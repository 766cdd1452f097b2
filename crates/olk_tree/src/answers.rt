//! What each validator means and reports, over what its nodes mean and report: by the words of its
//! keyword in `specs`.
ghost use Rattle.olk_base.specs.Kit.{kit};
ghost use Rattle.olk_tree.specs.AdditionalProperties.{additional_properties_answers, unpatterned_answers, false_answers};
ghost use Rattle.olk_tree.specs.AllOf.{all_of_answers, single_all_of_answers};
ghost use Rattle.olk_tree.specs.AnyOf.{any_of_answers, single_any_of_answers};
ghost use Rattle.olk_tree.specs.Bodies.{body_means};
ghost use Rattle.olk_tree.specs.Dependencies.{dependencies_answers, dependent_required_answers, dependent_schemas_answers};
ghost use Rattle.olk_tree.specs.Holdings.{held, false_holds, schema_holds, not_empty_holds, not_empty_false_holds, with_required1_holds, with_patterns_holds, with_patterns_false_holds, with_both_holds, with_both_false_holds};
ghost use Rattle.olk_tree.specs.If.{if_then_answers, if_else_answers, if_then_else_answers};
ghost use Rattle.olk_tree.specs.Not.{not_answers, not_report, not_agrees};
ghost use Rattle.olk_tree.specs.OneOf.{one_of_answers, single_one_of_answers};
ghost use Rattle.olk_tree.specs.PatternProperties.{pattern_properties_answers, single_pattern_properties_answers};
ghost use Rattle.olk_tree.specs.Properties.{small_properties_answers, big_properties_answers, properties_with_required2_answers};
ghost use Rattle.olk_tree.specs.PropertyDependencies.{property_dependencies_answers};
ghost use Rattle.olk_tree.specs.PropertyNames.{property_names_answers, property_names_false_answers};
ghost use Rattle.olk_tree.specs.Required.{required_answers};
ghost use Rattle.olk_tree.specs.Validators.{answers_of};

use crate::additional_properties::{
    AdditionalProperties, AdditionalPropertiesFalse, AdditionalPropertiesNotEmpty,
    AdditionalPropertiesNotEmptyFalse, AdditionalPropertiesNotEmptyFalseWithRequired1,
    AdditionalPropertiesWithPatterns, AdditionalPropertiesWithPatternsFalse,
    AdditionalPropertiesWithPatternsNotEmpty, AdditionalPropertiesWithPatternsNotEmptyFalse,
    Restriction,
};
use crate::all_of::{AllOf, SingleValueAllOf};
use crate::any_of::{AnyOf, SingleAnyOf};
use crate::dependencies::{Dependencies, DependentRequired, DependentSchemas};
use crate::if_::{IfElse, IfThen, IfThenElse};
use crate::means::{Means, Reports};
use crate::node::{Body, KeywordOver};
use crate::not::Not;
use crate::one_of::{OneOf, SingleOneOf};
use crate::pattern_properties::{PatternProperties, SingleValuePatternProperties};
use crate::properties::{BigProperties, SmallProperties, SmallPropertiesWithRequired2};
use crate::property_dependencies::PropertyDependencies;
use crate::property_names::{PropertyNames, PropertyNamesFalse};
use crate::required::RequiredValidator;
use olk_base::{Leaf, RegexEngine};

impl<N: Means> Means for SmallProperties<N> {
    ghost means = { λ k. (small_properties_answers k).means N.means };
}

impl<N: Reports> Reports for SmallProperties<N> {
    ghost report = { λ k. (small_properties_answers k).report N.means N.report };

    ghost first = { λ k. (small_properties_answers k).first N.means N.report N.first };

    ghost agrees = { λ k u. (small_properties_answers k).agrees N.means N.report u
        (λ n. N.agrees n u) };

    ghost first_agrees = { λ k u. (small_properties_answers k).first_agrees N.means N.report N.first u
        (λ n. N.first_agrees n u) };
}

impl<N: Means> Means for BigProperties<N> {
    ghost means = { λ k. (big_properties_answers k).means N.means };
}

impl<N: Reports> Reports for BigProperties<N> {
    ghost report = { λ k. (big_properties_answers k).report N.means N.report };

    ghost first = { λ k. (big_properties_answers k).first N.means N.report N.first };

    ghost agrees = { λ k u. (big_properties_answers k).agrees N.means N.report u
        (λ n. N.agrees n u) };

    ghost first_agrees = { λ k u. (big_properties_answers k).first_agrees N.means N.report N.first u
        (λ n. N.first_agrees n u) };
}

impl<N: Means> Means for SmallPropertiesWithRequired2<N> {
    ghost means = { λ k. (properties_with_required2_answers k).means N.means };
}

impl<N: Reports> Reports for SmallPropertiesWithRequired2<N> {
    ghost report = { λ k. (properties_with_required2_answers k).report N.means N.report };

    ghost first = { λ k. (properties_with_required2_answers k).first N.means N.report N.first };

    ghost agrees = { λ k u. (properties_with_required2_answers k).agrees N.means N.report u
        (λ n. N.agrees n u) };

    ghost first_agrees = { λ k u. (properties_with_required2_answers k).first_agrees
        N.means N.report N.first u (λ n. N.first_agrees n u) };
}

impl Means for RequiredValidator {
    ghost means = { λ k. (required_answers k).means };
}

impl Reports for RequiredValidator {
    ghost report = { λ k. (required_answers k).report };

    ghost first = { λ k. (required_answers k).first };

    ghost agrees = { λ k. (required_answers k).agrees };

    ghost first_agrees = { λ k. (required_answers k).first_agrees };
}

impl<N: Means> Means for AllOf<N> {
    ghost means = { λ k. (all_of_answers k).means N.means };
}

impl<N: Reports> Reports for AllOf<N> {
    ghost report = { λ k. (all_of_answers k).report N.means N.report };

    ghost first = { λ k. (all_of_answers k).first N.means N.report N.first };

    ghost agrees = { λ k u. (all_of_answers k).agrees N.means N.report u
        (λ n. N.agrees n u) };

    ghost first_agrees = { λ k u. (all_of_answers k).first_agrees N.means N.report N.first u
        (λ n. N.first_agrees n u) };
}

impl<N: Means> Means for SingleValueAllOf<N> {
    ghost means = { λ k. (single_all_of_answers k).means N.means };
}

impl<N: Reports> Reports for SingleValueAllOf<N> {
    ghost report = { λ k. (single_all_of_answers k).report N.means N.report };

    ghost first = { λ k. (single_all_of_answers k).first N.means N.report N.first };

    ghost agrees = { λ k u. (single_all_of_answers k).agrees N.means N.report u
        (λ n. N.agrees n u) };

    ghost first_agrees = { λ k u. (single_all_of_answers k).first_agrees N.means N.report N.first u
        (λ n. N.first_agrees n u) };
}

impl<N: Means> Means for AnyOf<N> {
    ghost means = { λ k. (any_of_answers k).means N.means };
}

impl<N: Reports> Reports for AnyOf<N> {
    ghost report = { λ k. (any_of_answers k).report N.means N.report };

    ghost first = { λ k. (any_of_answers k).first N.means N.report N.first };

    ghost agrees = { λ k u. (any_of_answers k).agrees N.means N.report u
        (λ n. N.agrees n u) };

    ghost first_agrees = { λ k u. (any_of_answers k).first_agrees N.means N.report N.first u
        (λ n. N.first_agrees n u) };
}

impl<N: Means> Means for SingleAnyOf<N> {
    ghost means = { λ k. (single_any_of_answers k).means N.means };
}

impl<N: Reports> Reports for SingleAnyOf<N> {
    ghost report = { λ k. (single_any_of_answers k).report N.means N.report };

    ghost first = { λ k. (single_any_of_answers k).first N.means N.report N.first };

    ghost agrees = { λ k u. (single_any_of_answers k).agrees N.means N.report u
        (λ n. N.agrees n u) };

    ghost first_agrees = { λ k u. (single_any_of_answers k).first_agrees N.means N.report N.first u
        (λ n. N.first_agrees n u) };
}

impl<N: Means> Means for OneOf<N> {
    ghost means = { λ k. (one_of_answers k).means N.means };
}

impl<N: Reports> Reports for OneOf<N> {
    ghost report = { λ k. (one_of_answers k).report N.means N.report };

    ghost first = { λ k. (one_of_answers k).first N.means N.report N.first };

    ghost agrees = { λ k u. (one_of_answers k).agrees N.means N.report u
        (λ n. N.agrees n u) };

    ghost first_agrees = { λ k u. (one_of_answers k).first_agrees N.means N.report N.first u
        (λ n. N.first_agrees n u) };
}

impl<N: Means> Means for SingleOneOf<N> {
    ghost means = { λ k. (single_one_of_answers k).means N.means };
}

impl<N: Reports> Reports for SingleOneOf<N> {
    ghost report = { λ k. (single_one_of_answers k).report N.means N.report };

    ghost first = { λ k. (single_one_of_answers k).first N.means N.report N.first };

    ghost agrees = { λ k u. (single_one_of_answers k).agrees N.means N.report u
        (λ n. N.agrees n u) };

    ghost first_agrees = { λ k u. (single_one_of_answers k).first_agrees N.means N.report N.first u
        (λ n. N.first_agrees n u) };
}

impl<N: Means> Means for Not<N> {
    ghost means = { λ k. (not_answers k).means N.means };
}

impl<N: Means> Reports for Not<N> {
    ghost report = { λ k. not_report k N.means };

    ghost first = { λ k. not_report k N.means };

    ghost agrees = { λ k. not_agrees k N.means };

    ghost first_agrees = { λ k. not_agrees k N.means };
}

impl<N: Means> Means for IfThen<N> {
    ghost means = { λ k. (if_then_answers k).means N.means };
}

impl<N: Reports> Reports for IfThen<N> {
    ghost report = { λ k. (if_then_answers k).report N.means N.report };

    ghost first = { λ k. (if_then_answers k).first N.means N.report N.first };

    ghost agrees = { λ k u. (if_then_answers k).agrees N.means N.report u
        (λ n. N.agrees n u) };

    ghost first_agrees = { λ k u. (if_then_answers k).first_agrees N.means N.report N.first u
        (λ n. N.first_agrees n u) };
}

impl<N: Means> Means for IfElse<N> {
    ghost means = { λ k. (if_else_answers k).means N.means };
}

impl<N: Reports> Reports for IfElse<N> {
    ghost report = { λ k. (if_else_answers k).report N.means N.report };

    ghost first = { λ k. (if_else_answers k).first N.means N.report N.first };

    ghost agrees = { λ k u. (if_else_answers k).agrees N.means N.report u
        (λ n. N.agrees n u) };

    ghost first_agrees = { λ k u. (if_else_answers k).first_agrees N.means N.report N.first u
        (λ n. N.first_agrees n u) };
}

impl<N: Means> Means for IfThenElse<N> {
    ghost means = { λ k. (if_then_else_answers k).means N.means };
}

impl<N: Reports> Reports for IfThenElse<N> {
    ghost report = { λ k. (if_then_else_answers k).report N.means N.report };

    ghost first = { λ k. (if_then_else_answers k).first N.means N.report N.first };

    ghost agrees = { λ k u. (if_then_else_answers k).agrees N.means N.report u
        (λ n. N.agrees n u) };

    ghost first_agrees = { λ k u. (if_then_else_answers k).first_agrees N.means N.report N.first u
        (λ n. N.first_agrees n u) };
}

impl<N: Means> Means for Dependencies<N> {
    ghost means = { λ k. (dependencies_answers k).means N.means };
}

impl<N: Reports> Reports for Dependencies<N> {
    ghost report = { λ k. (dependencies_answers k).report N.means N.report };

    ghost first = { λ k. (dependencies_answers k).first N.means N.report N.first };

    ghost agrees = { λ k u. (dependencies_answers k).agrees N.means N.report u
        (λ n. N.agrees n u) };

    ghost first_agrees = { λ k u. (dependencies_answers k).first_agrees N.means N.report N.first u
        (λ n. N.first_agrees n u) };
}

impl<N: Means> Means for DependentRequired<N> {
    ghost means = { λ k. (dependent_required_answers k).means N.means };
}

impl<N: Reports> Reports for DependentRequired<N> {
    ghost report = { λ k. (dependent_required_answers k).report N.means N.report };

    ghost first = { λ k. (dependent_required_answers k).first N.means N.report N.first };

    ghost agrees = { λ k u. (dependent_required_answers k).agrees N.means N.report u
        (λ n. N.agrees n u) };

    ghost first_agrees = { λ k u. (dependent_required_answers k).first_agrees N.means N.report N.first u
        (λ n. N.first_agrees n u) };
}

impl<N: Means> Means for DependentSchemas<N> {
    ghost means = { λ k. (dependent_schemas_answers k).means N.means };
}

impl<N: Reports> Reports for DependentSchemas<N> {
    ghost report = { λ k. (dependent_schemas_answers k).report N.means N.report };

    ghost first = { λ k. (dependent_schemas_answers k).first N.means N.report N.first };

    ghost agrees = { λ k u. (dependent_schemas_answers k).agrees N.means N.report u
        (λ n. N.agrees n u) };

    ghost first_agrees = { λ k u. (dependent_schemas_answers k).first_agrees N.means N.report N.first u
        (λ n. N.first_agrees n u) };
}

impl<N: Means> Means for PropertyNames<N> {
    ghost means = { λ k. (property_names_answers k).means N.means };
}

impl<N: Reports> Reports for PropertyNames<N> {
    ghost report = { λ k. (property_names_answers k).report N.means N.report };

    ghost first = { λ k. (property_names_answers k).first N.means N.report N.first };

    ghost agrees = { λ k u. (property_names_answers k).agrees N.means N.report u
        (λ n. N.agrees n u) };

    ghost first_agrees = { λ k u. (property_names_answers k).first_agrees N.means N.report N.first u
        (λ n. N.first_agrees n u) };
}

impl Means for PropertyNamesFalse {
    ghost means = { λ k. (property_names_false_answers k).means };
}

impl Reports for PropertyNamesFalse {
    ghost report = { λ k. (property_names_false_answers k).report };

    ghost first = { λ k. (property_names_false_answers k).first };

    ghost agrees = { λ k. (property_names_false_answers k).agrees };

    ghost first_agrees = { λ k. (property_names_false_answers k).first_agrees };
}

impl<N: Means> Means for PropertyDependencies<N> {
    ghost means = { λ k. (property_dependencies_answers k).means N.means };
}

impl<N: Reports> Reports for PropertyDependencies<N> {
    ghost report = { λ k. (property_dependencies_answers k).report N.means N.report };

    ghost first = { λ k. (property_dependencies_answers k).first N.means N.report N.first };

    ghost agrees = { λ k u. (property_dependencies_answers k).agrees N.means N.report u
        (λ n. N.agrees n u) };

    ghost first_agrees = { λ k u. (property_dependencies_answers k).first_agrees
        N.means N.report N.first u (λ n. N.first_agrees n u) };
}

impl<R: RegexEngine, N: Means> Means for PatternProperties<R, N> {
    ghost means = { λ k. (pattern_properties_answers R.answers R.costs k).means N.means };
}

impl<R: RegexEngine, N: Reports> Reports for PatternProperties<R, N> {
    ghost report = { λ k. (pattern_properties_answers R.answers R.costs k).report
        N.means N.report };

    ghost first = { λ k. (pattern_properties_answers R.answers R.costs k).first
        N.means N.report N.first };

    ghost agrees = { λ k u. (pattern_properties_answers R.answers R.costs k).agrees
        N.means N.report u
        (λ n. N.agrees n u) };

    ghost first_agrees = { λ k u. (pattern_properties_answers R.answers R.costs k).first_agrees
        N.means N.report N.first u
        (λ n. N.first_agrees n u) };
}

impl<R: RegexEngine, N: Means> Means for SingleValuePatternProperties<R, N> {
    ghost means = { λ k. (single_pattern_properties_answers R.answers R.costs k).means N.means };
}

impl<R: RegexEngine, N: Reports> Reports for SingleValuePatternProperties<R, N> {
    ghost report = { λ k. (single_pattern_properties_answers R.answers R.costs k).report
        N.means N.report };

    ghost first = { λ k. (single_pattern_properties_answers R.answers R.costs k).first
        N.means N.report N.first };

    ghost agrees = { λ k u. (single_pattern_properties_answers R.answers R.costs k).agrees
        N.means N.report u (λ n. N.agrees n u) };

    ghost first_agrees = { λ k u.
        (single_pattern_properties_answers R.answers R.costs k).first_agrees
        N.means N.report N.first u (λ n. N.first_agrees n u) };
}

impl<N: Means> Means for AdditionalProperties<N> {
    ghost means = { λ k. (unpatterned_answers (schema_holds k)).means N.means };
}

impl<N: Reports> Reports for AdditionalProperties<N> {
    ghost report = { λ k. (unpatterned_answers (schema_holds k)).report N.means N.report };

    ghost first = { λ k. (unpatterned_answers (schema_holds k)).first N.means N.report N.first };

    ghost agrees = { λ k u. (unpatterned_answers (schema_holds k)).agrees N.means N.report u
        (λ n. N.agrees n u) };

    ghost first_agrees = { λ k u. (unpatterned_answers (schema_holds k)).first_agrees
        N.means N.report N.first u (λ n. N.first_agrees n u) };
}

impl Means for AdditionalPropertiesFalse {
    ghost means = { λ k. (false_answers (false_holds k)).means };
}

impl Reports for AdditionalPropertiesFalse {
    ghost report = { λ k. (false_answers (false_holds k)).report };

    ghost first = { λ k. (false_answers (false_holds k)).first };

    ghost agrees = { λ k. (false_answers (false_holds k)).agrees };

    ghost first_agrees = { λ k. (false_answers (false_holds k)).first_agrees };
}

impl<N: Means> Means for AdditionalPropertiesNotEmpty<N> {
    ghost means = { λ k. (unpatterned_answers (not_empty_holds k)).means N.means };
}

impl<N: Reports> Reports for AdditionalPropertiesNotEmpty<N> {
    ghost report = { λ k. (unpatterned_answers (not_empty_holds k)).report N.means N.report };

    ghost first = { λ k. (unpatterned_answers (not_empty_holds k)).first N.means N.report N.first };

    ghost agrees = { λ k u. (unpatterned_answers (not_empty_holds k)).agrees N.means N.report u
        (λ n. N.agrees n u) };

    ghost first_agrees = { λ k u. (unpatterned_answers (not_empty_holds k)).first_agrees
        N.means N.report N.first u (λ n. N.first_agrees n u) };
}

impl<N: Means> Means for AdditionalPropertiesNotEmptyFalse<N> {
    ghost means = { λ k. (unpatterned_answers (not_empty_false_holds k)).means N.means };
}

impl<N: Reports> Reports for AdditionalPropertiesNotEmptyFalse<N> {
    ghost report = { λ k. (unpatterned_answers (not_empty_false_holds k)).report N.means N.report };

    ghost first = { λ k. (unpatterned_answers
        (not_empty_false_holds k)).first N.means N.report N.first };

    ghost agrees = { λ k u. (unpatterned_answers
        (not_empty_false_holds k)).agrees N.means N.report u
        (λ n. N.agrees n u) };

    ghost first_agrees = { λ k u. (unpatterned_answers (not_empty_false_holds k)).first_agrees
        N.means N.report N.first u (λ n. N.first_agrees n u) };
}

impl<N: Means> Means for AdditionalPropertiesNotEmptyFalseWithRequired1<N> {
    ghost means = { λ k. (unpatterned_answers (with_required1_holds k)).means N.means };
}

impl<N: Reports> Reports for AdditionalPropertiesNotEmptyFalseWithRequired1<N> {
    ghost report = { λ k. (unpatterned_answers (with_required1_holds k)).report N.means N.report };

    ghost first = { λ k. (unpatterned_answers
        (with_required1_holds k)).first N.means N.report N.first };

    ghost agrees = { λ k u. (unpatterned_answers (with_required1_holds k)).agrees N.means N.report u
        (λ n. N.agrees n u) };

    ghost first_agrees = { λ k u. (unpatterned_answers (with_required1_holds k)).first_agrees
        N.means N.report N.first u (λ n. N.first_agrees n u) };
}

impl<R: RegexEngine, N: Means> Means for AdditionalPropertiesWithPatterns<R, N> {
    ghost means = { λ k. (additional_properties_answers R.answers R.costs
        (with_patterns_holds k)).means N.means };
}

impl<R: RegexEngine, N: Reports> Reports for AdditionalPropertiesWithPatterns<R, N> {
    ghost report = { λ k. (additional_properties_answers R.answers R.costs
        (with_patterns_holds k)).report N.means N.report };

    ghost first = { λ k. (additional_properties_answers R.answers R.costs
        (with_patterns_holds k)).first N.means N.report N.first };

    ghost agrees = { λ k u. (additional_properties_answers R.answers R.costs
        (with_patterns_holds k)).agrees N.means N.report u
        (λ n. N.agrees n u) };

    ghost first_agrees = { λ k u. (additional_properties_answers R.answers R.costs
        (with_patterns_holds k)).first_agrees
        N.means N.report N.first u (λ n. N.first_agrees n u) };
}

impl<R: RegexEngine, N: Means> Means for AdditionalPropertiesWithPatternsFalse<R, N> {
    ghost means = { λ k. (additional_properties_answers R.answers R.costs
        (with_patterns_false_holds k)).means N.means };
}

impl<R: RegexEngine, N: Reports> Reports for AdditionalPropertiesWithPatternsFalse<R, N> {
    ghost report = { λ k. (additional_properties_answers R.answers R.costs
        (with_patterns_false_holds k)).report N.means N.report };

    ghost first = { λ k. (additional_properties_answers R.answers R.costs
        (with_patterns_false_holds k)).first N.means N.report N.first };

    ghost agrees = { λ k u. (additional_properties_answers R.answers R.costs
        (with_patterns_false_holds k)).agrees N.means N.report u
        (λ n. N.agrees n u) };

    ghost first_agrees = { λ k u. (additional_properties_answers R.answers R.costs
        (with_patterns_false_holds k)).first_agrees
        N.means N.report N.first u (λ n. N.first_agrees n u) };
}

impl<R: RegexEngine, N: Means> Means for AdditionalPropertiesWithPatternsNotEmpty<R, N> {
    ghost means = { λ k. (additional_properties_answers R.answers R.costs
        (with_both_holds k)).means N.means };
}

impl<R: RegexEngine, N: Reports> Reports for AdditionalPropertiesWithPatternsNotEmpty<R, N> {
    ghost report = { λ k. (additional_properties_answers R.answers R.costs
        (with_both_holds k)).report N.means N.report };

    ghost first = { λ k. (additional_properties_answers R.answers R.costs
        (with_both_holds k)).first N.means N.report N.first };

    ghost agrees = { λ k u. (additional_properties_answers R.answers R.costs
        (with_both_holds k)).agrees N.means N.report u
        (λ n. N.agrees n u) };

    ghost first_agrees = { λ k u. (additional_properties_answers R.answers R.costs
        (with_both_holds k)).first_agrees
        N.means N.report N.first u (λ n. N.first_agrees n u) };
}

impl<R: RegexEngine, N: Means> Means for AdditionalPropertiesWithPatternsNotEmptyFalse<R, N> {
    ghost means = { λ k. (additional_properties_answers R.answers R.costs
        (with_both_false_holds k)).means N.means };
}

impl<R: RegexEngine, N: Reports> Reports for AdditionalPropertiesWithPatternsNotEmptyFalse<R, N> {
    ghost report = { λ k. (additional_properties_answers R.answers R.costs
        (with_both_false_holds k)).report N.means N.report };

    ghost first = { λ k. (additional_properties_answers R.answers R.costs
        (with_both_false_holds k)).first N.means N.report N.first };

    ghost agrees = { λ k u. (additional_properties_answers R.answers R.costs
        (with_both_false_holds k)).agrees N.means N.report u
        (λ n. N.agrees n u) };

    ghost first_agrees = { λ k u. (additional_properties_answers R.answers R.costs
        (with_both_false_holds k)).first_agrees
        N.means N.report N.first u (λ n. N.first_agrees n u) };
}

impl<R: RegexEngine, N: Means> Means for Restriction<R, N> {
    ghost means = { λ k. (additional_properties_answers R.answers R.costs (held k)).means N.means };
}

impl<R: RegexEngine, N: Reports> Reports for Restriction<R, N> {
    ghost report = { λ k. (additional_properties_answers R.answers R.costs
        (held k)).report N.means N.report };

    ghost first = { λ k. (additional_properties_answers R.answers R.costs
        (held k)).first N.means N.report N.first };

    ghost agrees = { λ k u. (additional_properties_answers R.answers R.costs
        (held k)).agrees N.means N.report u
        (λ n. N.agrees n u) };

    ghost first_agrees = { λ k u. (additional_properties_answers R.answers R.costs
        (held k)).first_agrees
        N.means N.report N.first u (λ n. N.first_agrees n u) };
}

impl<K: Leaf, R: RegexEngine, N: Means> Means for KeywordOver<K, R, N> {
    ghost means = { λ k. (answers_of (kit K.Leaf R.RegexEngine) k).means N.means };
}

impl<K: Leaf, R: RegexEngine, N: Reports> Reports for KeywordOver<K, R, N> {
    ghost report = { λ k. (answers_of (kit K.Leaf R.RegexEngine) k).report N.means N.report };

    ghost first = { λ k. (answers_of (kit K.Leaf R.RegexEngine) k).first N.means N.report N.first };

    ghost agrees = { λ k u. (answers_of (kit K.Leaf R.RegexEngine) k).agrees
        N.means N.report u (λ n. N.agrees n u) };

    ghost first_agrees = { λ k u. (answers_of (kit K.Leaf R.RegexEngine) k).first_agrees
        N.means N.report N.first u (λ n. N.first_agrees n u) };
}

impl<W: Means> Means for Body<W> {
    ghost means = { body_means W.means };
}
