//! `allOf`: what its validators hold.
use olk_reports::Location;

/// `allOf` of several branches, or of none: each is to accept (JSON Schema 2020-12 Core, 10.2.1.1).
#[derive(Drop)]
pub struct AllOf<N> {
    pub schemas: Vec<N>,
    pub location: Location,
}

/// `allOf` of one branch.
#[derive(Drop)]
pub struct SingleValueAllOf<N> {
    pub node: N,
    pub location: Location,
}
