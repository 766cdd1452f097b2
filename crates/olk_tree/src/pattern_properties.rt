//! `patternProperties`: what its validators hold.
use olk_base::{CompiledPattern, RegexEngine};
use olk_reports::Location;

/// `patternProperties` of several patterns, or of none: a member whose name a pattern matches is to
/// be accepted by that pattern's subschema (JSON Schema 2020-12 Core, 10.3.2.2).
#[derive(Drop)]
pub struct PatternProperties<R, N> {
    pub patterns: Vec<(CompiledPattern<R>, N)>,
    pub location: Location,
}

/// `patternProperties` of one pattern.
#[derive(Drop)]
pub struct SingleValuePatternProperties<R, N> {
    pub regex: CompiledPattern<R>,
    pub node: N,
    pub location: Location,
}
