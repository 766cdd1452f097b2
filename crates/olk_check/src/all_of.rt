//! `allOf`: its verdict.
use crate::Check;
use crate::walk::all_accept;
use olk_base::{Asked, ValidationContext};
use olk_tree::all_of::{AllOf, SingleValueAllOf};

impl<N: Check> Check for AllOf<N> {
    #[inline(never)]
    fn check<A: Asked>(&self, asked: A, ctx: &mut ValidationContext) -> bool {
        all_accept(&self.schemas, asked, ctx)
    }
}

impl<N: Check> Check for SingleValueAllOf<N> {
    #[inline(never)]
    fn check<A: Asked>(&self, asked: A, ctx: &mut ValidationContext) -> bool {
        self.node.check(asked, ctx)
    }
}
