//! `properties`: what its validators hold.
use crate::big_map::BigMap;
use crate::map::SmallMap;
use olk_reports::Location;

/// `properties` of few names: a member whose name is declared is to be accepted by that name's
/// subschema (JSON Schema 2020-12 Core, 10.3.2.1).
#[derive(Drop)]
pub struct SmallProperties<N> {
    pub properties: SmallMap<N>,
    pub location: Location,
}

/// `properties` of many names: a member whose name is declared is to be accepted by that name's
/// subschema (JSON Schema 2020-12 Core, 10.3.2.1).
#[derive(Drop)]
pub struct BigProperties<N> {
    pub properties: BigMap<N>,
    pub location: Location,
}

/// `properties` together with `required` of two different names: both are to be members, where the
/// value is an object (JSON Schema 2020-12 Validation, 6.5.3).
#[derive(Drop)]
pub struct SmallPropertiesWithRequired2<N> {
    pub properties: SmallMap<N>,
    pub first: String,
    pub second: String,
    pub location: Location,
    pub required_location: Location,
}
