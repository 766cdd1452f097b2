//! `required`: what its validator holds.
use olk_reports::Location;

/// `required`: each name is to be a member, where the value is an object (JSON Schema 2020-12
/// Validation, 6.5.3).
#[derive(Drop)]
pub struct RequiredValidator {
    pub required: Vec<String>,
    pub location: Location,
}
