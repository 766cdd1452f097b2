//! Refusals and verdicts as compact JSON.
ghost use Rattle.std.specs.Prelude.{◌≡◌, IfOk, false};
ghost use Rattle.serde_json.specs.View.{view};
ghost use Rattle.serde_json.specs.Written.{has_float};
ghost use Rattle.olk_answers.specs.Refusals.{refusal, schema_refusal};
ghost use Rattle.olk_answers.specs.Texts.{json_text};
ghost use Rattle.olk_answers.specs.Told.{verdict};

use serde_json::{Value, json};
use std::alloc::{AllocError, Global};

fn refusal_value(alloc: Global, why: &str) -> Result<Value, AllocError>
    ensures { IfOk result (λ v. view v ≡ refusal why.now) }
{
    json!(in alloc; {"refused": why})
}

/// The refusal of a line, as compact JSON (RFC 8259).
///
/// The only error is out of memory.
pub fn refusal_text(alloc: Global, why: &str) -> Result<Vec<u8>, AllocError>
    ensures { IfOk result (λ text. text.items ≡ json_text (refusal why.now)) }
{
    let value = refusal_value(alloc, why)?;
    compact_text(alloc, &value)
}

fn schema_refusal_value(alloc: Global, message: &str, path: &str) -> Result<Value, AllocError>
    ensures { IfOk result (λ v. view v ≡ schema_refusal message.now path.now) }
{
    json!(in alloc; {"refused": message, "schemaPath": path})
}

/// The refusal of a schema with this message and this place, as compact JSON (RFC 8259).
///
/// The only error is out of memory.
pub fn schema_refusal_text(alloc: Global, message: &str, path: &str) -> Result<Vec<u8>, AllocError>
    ensures { IfOk result (λ text. text.items
        ≡ json_text (schema_refusal message.now path.now)) }
{
    let value = schema_refusal_value(alloc, message, path)?;
    compact_text(alloc, &value)
}

fn verdict_value(alloc: Global, valid: bool) -> Result<Value, AllocError>
    ensures { IfOk result (λ v. view v ≡ verdict valid) }
{
    json!(in alloc; {"valid": valid})
}

/// The verdict on an instance, as compact JSON (RFC 8259).
///
/// The only error is out of memory.
pub fn verdict_text(alloc: Global, valid: bool) -> Result<Vec<u8>, AllocError>
    ensures { IfOk result (λ text. text.items ≡ json_text (verdict valid)) }
{
    let value = verdict_value(alloc, valid)?;
    compact_text(alloc, &value)
}

/// The compact text of a value that has no fraction.
#[tactic(auto, unfolding(crate::specs::Texts::json_text))]
pub(crate) fn compact_text(alloc: Global, value: &Value) -> Result<Vec<u8>, AllocError>
    requires { has_float (view value.now) ≡ false }
    ensures { IfOk result (λ text. text.items ≡ json_text (view value.now)) }
{
    value.to_vec(alloc)
}
