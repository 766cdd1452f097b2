//! `not`: its verdict.
use crate::Check;
use olk_base::{Asked, ValidationContext};
use olk_tree::not::Not;

impl<N: Check> Check for Not<N> {
    #[inline(never)]
    #[tactic(auto, using(crate::proofs::Walks::opposite_answers))]
    fn check<A: Asked>(&self, asked: A, ctx: &mut ValidationContext) -> bool {
        !self.node.check(asked, ctx)
    }
}
