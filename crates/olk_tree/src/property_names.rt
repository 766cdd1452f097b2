//! `propertyNames`: what its validators hold.
use olk_reports::Location;

/// `propertyNames`: the subschema is to accept each member's name, as the text that it spells (JSON
/// Schema 2020-12 Core, 10.3.2.4).
#[derive(Drop)]
pub struct PropertyNames<N> {
    pub node: N,
    pub location: Location,
}

/// `propertyNames` with `false`: an object is to have no members.
#[derive(Drop)]
pub struct PropertyNamesFalse {
    pub location: Location,
}
