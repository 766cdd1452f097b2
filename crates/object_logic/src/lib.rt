//! Validation by the object and logic keywords of JSON Schema: what a user of the library calls.
//!
//! `Validator` builds a schema and is asked in four ways; `SchemaNode` is a place of a schema, the
//! one recursive type. Stands on `olk_build`, `olk_errors` and `olk_evaluate`, and gives out what
//! callers name of the crates below. Tested by `object_logic_tests`; `olk_example` is a caller.
//!
//! `AllOfValidator` and its like hold nodes of the type `SchemaNode`; `AllOf` and its like are the
//! same over nodes of any type. `PropertiesMap` holds `SchemaNode`s too, and the one over nodes of
//! any type is in `properties_map`.
#![tactic(auto)]

mod node;
mod numbers;
mod validate;
mod validator;
mod validators;

pub use node::AllOfValidator;
pub use node::AnyOfValidator;
pub use node::BigPropertiesValidator;
pub use node::BigValidatorsMap;
pub use node::DependenciesValidator;
pub use node::DependentRequiredValidator;
pub use node::DependentSchemasValidator;
pub use node::IfElseValidator;
pub use node::IfThenElseValidator;
pub use node::IfThenValidator;
pub use node::Keyword;
pub use node::NotValidator;
pub use node::OneOfValidator;
pub use node::PatternPropertiesValidator;
pub use node::PropertiesMap;
pub use node::PropertyDependenciesValidator;
pub use node::PropertyNamesObjectValidator;
pub use node::SchemaNode;
pub use node::SingleAnyOfValidator;
pub use node::SingleOneOfValidator;
pub use node::SingleValueAllOfValidator;
pub use node::SingleValuePatternPropertiesValidator;
pub use node::SmallPropertiesValidator;
pub use node::SmallPropertiesWithRequired2Validator;
pub use node::SmallValidatorsMap;
pub use numbers::holds_whole_numbers;
pub use olk_base::Asked;
pub use olk_base::CompiledPattern;
pub use olk_base::JsonType;
pub use olk_base::KeyHead;
pub use olk_base::Leaf;
pub use olk_base::MakeError;
pub use olk_base::MakeLeaf;
pub use olk_base::MakeRegex;
pub use olk_base::Meter;
pub use olk_base::NoRegex;
pub use olk_base::NoRegexes;
pub use olk_base::Node;
pub use olk_base::PatternOptimization;
pub use olk_base::PropertyName;
pub use olk_base::PropertyPattern;
pub use olk_base::RegexEngine;
pub use olk_base::Subject;
pub use olk_base::Unfinished;
pub use olk_base::ValidationContext;
pub use olk_base::analyze_pattern;
pub use olk_base::compile_pattern;
pub use olk_base::contains_ecma_whitespace;
pub use olk_build::Context;
pub use olk_build::Makers;
pub use olk_build::additional_properties;
pub use olk_build::all_of;
pub use olk_build::any_of;
pub use olk_build::compile;
pub use olk_build::dependencies;
pub use olk_build::if_;
pub use olk_build::not;
pub use olk_build::one_of;
pub use olk_build::pattern_properties;
pub use olk_build::pattern_properties::compile_patterns;
pub use olk_build::properties;
pub use olk_build::properties::compile_big_map;
pub use olk_build::properties::compile_small_map;
pub use olk_build::property_dependencies;
pub use olk_build::property_names;
pub use olk_build::required;
pub use olk_check::Check;
pub use olk_check::DEFERRED_MEMBERS;
pub use olk_check::IsValid;
pub use olk_check::are_properties_valid;
pub use olk_errors::ErrorSink;
pub use olk_errors::Errors;
pub use olk_errors::Stop;
pub use olk_errors::Walk;
pub use olk_evaluate::Evaluate;
pub use olk_evaluate::EvaluationContext;
pub use olk_evaluate::Located;
pub use olk_evaluate::Show;
pub use olk_reports::AnnotationEntry;
pub use olk_reports::BuildError;
pub use olk_reports::ErrorDescription;
pub use olk_reports::ErrorEntry;
pub use olk_reports::Evaluation;
pub use olk_reports::EvaluationFlag;
pub use olk_reports::EvaluationNode;
pub use olk_reports::EvaluationResult;
pub use olk_reports::InstancePath;
pub use olk_reports::Location;
pub use olk_reports::Mark;
pub use olk_reports::PathText;
pub use olk_reports::Trail;
pub use olk_reports::ValidateError;
pub use olk_reports::ValidationError;
pub use olk_reports::ValidationErrorKind;
pub use olk_spec::HASHMAP_THRESHOLD;
pub use validate::Validate;
pub use validate::Verdicts;
pub use validate::verdicts_of;
pub use validator::Validator;
pub use validators::AdditionalPropertiesFalseValidator;
pub use validators::AdditionalPropertiesNotEmptyFalseValidator;
pub use validators::AdditionalPropertiesNotEmptyFalseWithRequired1Validator;
pub use validators::AdditionalPropertiesNotEmptyValidator;
pub use validators::AdditionalPropertiesValidator;
pub use validators::AdditionalPropertiesWithPatternsFalseValidator;
pub use validators::AdditionalPropertiesWithPatternsNotEmptyFalseValidator;
pub use validators::AdditionalPropertiesWithPatternsNotEmptyValidator;
pub use validators::AdditionalPropertiesWithPatternsValidator;

// Validators over nodes of any type, and what they hold.
pub use olk_tree::additional_properties::{
    AdditionalProperties, AdditionalPropertiesFalse, AdditionalPropertiesNotEmpty,
    AdditionalPropertiesNotEmptyFalse, AdditionalPropertiesNotEmptyFalseWithRequired1,
    AdditionalPropertiesWithPatterns, AdditionalPropertiesWithPatternsFalse,
    AdditionalPropertiesWithPatternsNotEmpty, AdditionalPropertiesWithPatternsNotEmptyFalse,
    Restriction,
};
pub use olk_tree::all_of::{AllOf, SingleValueAllOf};
pub use olk_tree::any_of::{AnyOf, SingleAnyOf};
pub use olk_tree::declared::DeclaredMembers;
pub use olk_tree::dependencies::{Dependencies, DependentRequired, DependentSchemas};
pub use olk_tree::if_::{IfElse, IfThen, IfThenElse};
pub use olk_tree::not::Not;
pub use olk_tree::one_of::{OneOf, SingleOneOf};
pub use olk_tree::pattern_properties::{PatternProperties, SingleValuePatternProperties};
pub use olk_tree::pattern_table::{
    PatternIndex, PatternTable, precompute_property_pattern_indices,
};
pub use olk_tree::properties::{BigProperties, SmallProperties, SmallPropertiesWithRequired2};
pub use olk_tree::property_dependencies::PropertyDependencies;
pub use olk_tree::property_names::{
    PropertyNames, PropertyNamesFalse as PropertyNamesBooleanValidator,
};
pub use olk_tree::{
    BigMap, Body, BuiltNode, Entries, KeywordOver, MapRef, Means, PropertiesValidatorsMap, Reports,
    RequiredValidator, SmallMap, SortedName, SortedNames, pattern_table, properties_map,
};
