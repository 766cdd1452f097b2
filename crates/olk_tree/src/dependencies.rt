//! `dependentRequired`, `dependentSchemas` and `dependencies`: what their validators hold, which is
//! a node for each key that is asked of the whole object where the key is a member.
use crate::map::SmallMap;
use olk_reports::Location;

/// `dependencies`: where a key is a member, its subschema is to accept the object, or its names are
/// to be members too (JSON Schema draft 7 Validation, 6.5.7).
#[derive(Drop)]
pub struct Dependencies<N> {
    pub dependencies: SmallMap<N>,
    pub location: Location,
}

/// `dependentRequired`: where a key is a member, its names are to be members too (JSON Schema
/// 2020-12 Validation, 6.5.4).
#[derive(Drop)]
pub struct DependentRequired<N> {
    pub dependencies: SmallMap<N>,
    pub location: Location,
}

/// `dependentSchemas`: where a key is a member, its subschema is to accept the object (JSON Schema
/// 2020-12 Core, 10.2.2.4).
#[derive(Drop)]
pub struct DependentSchemas<N> {
    pub dependencies: SmallMap<N>,
    pub location: Location,
}
