//! `anyOf`: what its validators hold.
use olk_reports::Location;

/// `anyOf` of several branches, or of none: one is to accept (JSON Schema 2020-12 Core, 10.2.1.2).
#[derive(Drop)]
pub struct AnyOf<N> {
    pub schemas: Vec<N>,
    pub location: Location,
}

/// `anyOf` of one branch.
#[derive(Drop)]
pub struct SingleAnyOf<N> {
    pub node: N,
    pub location: Location,
}
