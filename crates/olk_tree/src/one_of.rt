//! `oneOf`: what its validators hold.
use olk_reports::Location;

/// `oneOf` of several branches, or of none: exactly one is to accept (JSON Schema 2020-12 Core,
/// 10.2.1.3).
#[derive(Drop)]
pub struct OneOf<N> {
    pub schemas: Vec<N>,
    pub location: Location,
}

/// `oneOf` of one branch.
#[derive(Drop)]
pub struct SingleOneOf<N> {
    pub node: N,
    pub location: Location,
}
