//! `not`: what its validator holds.
use olk_reports::Location;
use serde_json::Value;

/// `not`: the subschema is to refuse (JSON Schema 2020-12 Core, 10.2.1.4).
#[derive(Drop)]
pub struct Not<N> {
    pub original: Value,
    pub node: N,
    pub location: Location,
}
