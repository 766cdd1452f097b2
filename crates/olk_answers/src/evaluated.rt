//! Evaluations as compact JSON.
ghost use Rattle.std.specs.Prelude.{◌≡◌, IfOk, map};
ghost use Rattle.serde_json.specs.Data.{string};
ghost use Rattle.serde_json.specs.View.{view};
ghost use Rattle.olk_reports.specs.Entries.{evaluated, error_of, annotation_of};
ghost use Rattle.olk_spec.specs.Answers.{tree_data};
ghost use Rattle.olk_answers.specs.Evaluated.{annotation_data, description_data, evaluation_data};
ghost use Rattle.olk_answers.specs.Texts.{json_text};

use crate::texts::compact_text;
use olk_reports::{AnnotationEntry, ErrorEntry, Evaluation};
use serde_json::{Value, json};
use std::alloc::{AllocError, Global};

fn description_value(alloc: Global, entry: &ErrorEntry<'_>) -> Result<Value, AllocError>
    ensures { IfOk result (λ v. view v ≡ description_data (error_of entry.now)) }
{
    json!(in alloc; {
        "instancePath": (entry.instance_location),
        "keyword": (entry.error.keyword()),
        "message": (entry.error.message()),
        "schemaPath": (entry.schema_location)
    })
}

fn description_values(alloc: Global, entries: &[ErrorEntry<'_>]) -> Result<Vec<Value>, AllocError>
    ensures { IfOk result (λ vs. map view vs.items
        ≡ map description_data (map error_of entries.now)) }
{
    let mut values = Vec::new(alloc);
    for entry in entries {
        values.push(description_value(alloc, entry)?)?;
    }
    Ok(values)
}

fn name_values(alloc: Global, names: &[&str]) -> Result<Vec<Value>, AllocError>
    ensures { IfOk result (λ vs. map view vs.items ≡ map string (map (λ n. n.now) names.now)) }
{
    let mut values = Vec::new(alloc);
    for name in names {
        values.push(Value::try_from_str(alloc, name)?)?;
    }
    Ok(values)
}

fn annotation_value(alloc: Global, entry: &AnnotationEntry<'_>) -> Result<Value, AllocError>
    ensures { IfOk result (λ v. view v ≡ annotation_data (annotation_of entry.now)) }
{
    let names = name_values(alloc, entry.annotations)?;
    json!(in alloc; {
        "instancePath": (entry.instance_location),
        "names": (Value::Array(names)),
        "schemaPath": (entry.schema_location)
    })
}

fn annotation_values(
    alloc: Global,
    entries: &[AnnotationEntry<'_>],
) -> Result<Vec<Value>, AllocError>
    ensures { IfOk result (λ vs. map view vs.items
        ≡ map annotation_data (map annotation_of entries.now)) }
{
    let mut values = Vec::new(alloc);
    for entry in entries {
        values.push(annotation_value(alloc, entry)?)?;
    }
    Ok(values)
}

fn evaluation_value(
    alloc: Global,
    valid: bool,
    annotations: &[AnnotationEntry<'_>],
    errors: &[ErrorEntry<'_>],
) -> Result<Value, AllocError>
    ensures { IfOk result (λ v. view v
        ≡ evaluation_data valid (map annotation_of annotations.now) (map error_of errors.now)) }
{
    let annotations = annotation_values(alloc, annotations)?;
    let errors = description_values(alloc, errors)?;
    json!(in alloc; {
        "annotations": (Value::Array(annotations)),
        "errors": (Value::Array(errors)),
        "valid": valid
    })
}

/// The answer that tells an evaluation: its annotations and its errors, each in the order of the
/// tree, and the verdict.
///
/// # Errors
///
/// Out of memory.
#[tactic(auto, using(crate::proofs::ToldLemmas::evaluation_is_tree))]
pub fn evaluation_text(alloc: Global, evaluation: &Evaluation<'_>) -> Result<Vec<u8>, AllocError>
    ensures { IfOk result (λ answer. answer.items
        ≡ json_text (tree_data (evaluated evaluation.now))) }
{
    let annotations = evaluation.iter_annotations(alloc)?;
    let errors = evaluation.iter_errors(alloc)?;
    let valid = evaluation.flag().valid;
    let value = evaluation_value(alloc, valid, &annotations, &errors)?;
    compact_text(alloc, &value)
}
