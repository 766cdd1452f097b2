//! What schemas show of values, with a leaf set and a matcher.
use crate::asked::{Asked, Question, told_by};
use crate::rows::{Form, Table, expect};
use olk_base::ValidationContext;
use olk_base_tests::doubles::{Equality, NoTexts};
use olk_reports::{AnnotationEntry, ErrorEntry, Evaluation};
use serde_json::Value;
use std::alloc::{AllocError, Global};
use std::test::Fail;

/// A line of its own, with its two places.
fn push_place(text: &mut String, schema: &str, instance: &str) -> Result<(), AllocError> {
    let before = if text.is_empty() { "" } else { " & " };
    text.write(format_args!("{before}{schema}@{instance} "))
}

fn push_error(text: &mut String, entry: &ErrorEntry<'_>) -> Result<(), AllocError> {
    push_place(text, entry.schema_location, entry.instance_location)?;
    let error = entry.error;
    text.write(format_args!("{}: {}", error.keyword(), error.message()))
}

fn push_names(text: &mut String, names: &[&str]) -> Result<(), AllocError> {
    for name in names {
        text.write(format_args!("{name},"))?;
    }
    Ok(())
}

/// Each error with its two places.
fn push_errors(text: &mut String, entries: &[ErrorEntry<'_>]) -> Result<(), AllocError> {
    for entry in entries {
        push_error(text, entry)?;
    }
    Ok(())
}

/// Each annotation with its two places.
fn push_annotations(text: &mut String, entries: &[AnnotationEntry<'_>]) -> Result<(), AllocError> {
    for entry in entries {
        push_place(text, entry.schema_location, entry.instance_location)?;
        push_names(text, entry.annotations)?;
    }
    Ok(())
}

fn push_shown_errors(
    alloc: Global,
    text: &mut String,
    evaluation: &Evaluation<'_>,
) -> Result<(), AllocError> {
    let entries = evaluation.iter_errors(alloc)?;
    let pushed = push_errors(text, &entries);
    drop(entries);
    pushed
}

fn push_shown_annotations(
    alloc: Global,
    text: &mut String,
    evaluation: &Evaluation<'_>,
) -> Result<(), AllocError> {
    let entries = evaluation.iter_annotations(alloc)?;
    let pushed = push_annotations(text, &entries);
    drop(entries);
    pushed
}

/// Each error and each annotation.
fn shown_text(alloc: Global, evaluation: &Evaluation<'_>) -> Result<String, AllocError> {
    let mut text = String::new(alloc);
    push_shown_errors(alloc, &mut text, evaluation)?;
    push_shown_annotations(alloc, &mut text, evaluation)?;
    Ok(text)
}

/// What is shown, where an evaluation gives the same verdict as `is_valid`.
fn shown_with(
    alloc: Global,
    evaluation: &Evaluation<'_>,
    valid: bool,
) -> Result<String, AllocError> {
    if evaluation.flag().valid == valid {
        shown_text(alloc, evaluation)
    } else {
        String::from_str(alloc, "another verdict")
    }
}

fn evaluated<V: Asked>(
    validator: &V,
    alloc: Global,
    instance: &Value,
) -> Result<String, AllocError> {
    let mut ctx = ValidationContext::new(false);
    let valid = validator.is_valid(instance, &mut ctx);
    let evaluated = validator.evaluate(alloc, instance, &mut ctx);
    let shown = match &evaluated {
        Ok(evaluation) => shown_with(alloc, evaluation, valid),
        Err(_) => Err(AllocError),
    };
    drop(evaluated);
    shown
}

#[derive(Drop)]
struct Shown;

impl Question for Shown {
    fn told<V: Asked>(
        &self,
        validator: &V,
        alloc: Global,
        instance: &Value,
    ) -> Result<String, AllocError> {
        evaluated(validator, alloc, instance)
    }
}

impl Form for Shown {
    fn answer(
        &self,
        alloc: Global,
        schema: &Value,
        instance: &Value,
    ) -> Result<String, AllocError> {
        told_by(self, &NoTexts, &Equality, alloc, schema, instance)
    }
}

// A schema, an instance, and each error and each annotation of the evaluation with its two places.
const EVALUATIONS: &str = r#"true | 5 | 
false | 5 | @ falseSchema: False schema does not allow 5
{"properties":{"b":{"text":false},"a":false},"required":["c","a","d"]} | {"z":2,"b":"x","a":1} | /properties/a@/a falseSchema: False schema does not allow 1 & /properties/b/text@/b text: is a text & /required@ required: "c" is a required property & /required@ required: "d" is a required property
{"properties":{"b":{"text":false}}} | {"z":2,"b":1} | /properties@ b,
{"properties":{"b":true,"a":true,"c":true}} | {"b":1,"a":2} | /properties@ a,b,
{"properties":{"a":true}} | {} | /properties@ 
{"properties":{"a":true}} | [] | 
{"properties":{"a":true},"required":["b","a"]} | {"c":1} | /required@ required: "b" is a required property & /required@ required: "a" is a required property
{"properties":{"a":true},"required":["b","a"]} | {"a":1,"b":2} | /properties@ a,
{"anyOf":[{"text":false},{"properties":{"a":true}},{"properties":{"a":false}}]} | {"a":1} | /anyOf/1/properties@ a,
{"anyOf":[false,{"text":false}]} | "x" | /anyOf/0@ falseSchema: False schema does not allow "x" & /anyOf/1/text@ text: is a text
{"not":{"properties":{}}} | 5 | /not@ not: {"properties":{}} is not allowed for 5
{"not":{"text":false}} | "x" | 
{"properties":{"a/b":{"allOf":[true,{"required":["c"]}]}}} | {"a/b":{}} | /properties/a~1b/allOf/1/required@/a~1b required: "c" is a required property"#;

#[test]
fn evaluations(rt: HostRuntime) -> Result<(), Fail> {
    expect(&Shown, rt.alloc(), Table::Asked(EVALUATIONS))
}

// Rows as in `EVALUATIONS`, for conditions, and then for dependencies and names.
const OF_CONDITIONS: &str =
    r#"{"if":{"properties":{"a":true}},"then":{"properties":{"b":{"text":false}}}} | {"a":1,"b":"x"} | /then/properties/b/text@/b text: is a text & /if/properties@ a,
{"else":{"properties":{"a":true}},"if":{"text":false}} | {"a":1} | 
{"else":{"properties":{"a":true}},"if":{"required":["b"]},"then":false} | {"a":1} | /else/properties@ a,
{"if":{"properties":{}}} | {} | "#;

#[test]
fn evaluations_of_conditions(rt: HostRuntime) -> Result<(), Fail> {
    expect(&Shown, rt.alloc(), Table::Asked(OF_CONDITIONS))
}

const OF_DEPENDENCIES: &str =
    r#"{"dependencies":{"b":["y","x"],"a":{"properties":{"a":{"text":false}}},"c":false}} | {"a":"t","b":1} | /dependencies/a/properties/a/text@/a text: is a text & /dependencies@ required: "y" is a required property & /dependencies@ required: "x" is a required property
{"dependentRequired":{"a":["b"]},"dependentSchemas":{"a":{"properties":{"b":true}}}} | {"a":1,"b":2} | /dependentSchemas/a/properties@ b,
{"properties":{"o":{"propertyNames":{"text":false}}}} | {"o":{"a":1,"b":2}} | /properties/o/propertyNames/text@/o text: is a text & /properties/o/propertyNames/text@/o text: is a text
{"propertyNames":{"not":{"text":false}}} | {"a":1} | 
{"propertyDependencies":{"k":{"t":{"properties":{"k":true}},"u":false}}} | {"k":"t"} | /propertyDependencies/k/t/properties@ k,
{"properties":{"a":true},"propertyDependencies":{"k":{"t":false}},"propertyNames":false} | {"k":"t"} | /propertyDependencies/k/t@ falseSchema: False schema does not allow {"k":"t"} & /propertyNames@ falseSchema: False schema does not allow {"k":"t"} & /properties@ "#;

#[test]
fn evaluations_of_dependencies_and_names(rt: HostRuntime) -> Result<(), Fail> {
    expect(&Shown, rt.alloc(), Table::Asked(OF_DEPENDENCIES))
}
