//! `$ref`: the node of the place that it names, which other references may share.
use olk_base::{Asked, ValidationContext};
use olk_check::Check;
use olk_reports::Location;
use std::rc::Rc;

/// `$ref`: the place that it names is to accept the value (JSON Schema 2020-12 Core, 8.2.3.1).
#[derive(Drop)]
pub struct Reference<N> {
    pub target: Rc<N>,
    pub location: Location,
}

impl<N: Check> Check for Reference<N> {
    fn check<A: Asked>(&self, asked: A, ctx: &mut ValidationContext) -> bool {
        self.target.check(asked, ctx)
    }
}
