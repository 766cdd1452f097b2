//! The common case: a schema is built, and one value is asked about.
use object_logic::{BuildError, Meter, ValidationContext, Validator};
use olk_regexes::Regexes;
use olk_vocabulary::Vocabulary;
use serde_json::Value;
use std::alloc::Global;

/// Whether the schema accepts the value, or why no validator can be built of the schema.
pub fn is_accepted<'s>(
    alloc: Global,
    schema: &'s Value,
    value: &Value,
) -> Result<bool, BuildError<'s>> {
    let validator = Validator::build(alloc, &Vocabulary, &Regexes, schema, &mut Meter::new())?;
    Ok(validator.is_valid(value, &mut ValidationContext::new(false)))
}
