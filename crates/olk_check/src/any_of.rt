//! `anyOf`: its verdict.
use crate::Check;
use crate::walk::any_accepts;
use olk_base::{Asked, ValidationContext};
use olk_tree::any_of::{AnyOf, SingleAnyOf};

impl<N: Check> Check for AnyOf<N> {
    #[inline(never)]
    fn check<A: Asked>(&self, asked: A, ctx: &mut ValidationContext) -> bool {
        any_accepts(&self.schemas, asked, ctx)
    }
}

impl<N: Check> Check for SingleAnyOf<N> {
    #[inline(never)]
    fn check<A: Asked>(&self, asked: A, ctx: &mut ValidationContext) -> bool {
        self.node.check(asked, ctx)
    }
}
