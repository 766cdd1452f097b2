//! `if`, `then` and `else`: their verdicts.
use crate::Check;
use olk_base::{Asked, ValidationContext};
use olk_tree::if_::{IfElse, IfThen, IfThenElse};

impl<N: Check> Check for IfThen<N> {
    #[inline(never)]
    #[tactic(auto, using(crate::proofs::Walks::conditional_answers))]
    fn check<A: Asked>(&self, asked: A, ctx: &mut ValidationContext) -> bool {
        !self.schema.check(asked, ctx) || self.then_schema.check(asked, ctx)
    }
}

impl<N: Check> Check for IfElse<N> {
    #[inline(never)]
    #[tactic(auto, using(crate::proofs::Walks::conditional_answers))]
    fn check<A: Asked>(&self, asked: A, ctx: &mut ValidationContext) -> bool {
        self.schema.check(asked, ctx) || self.else_schema.check(asked, ctx)
    }
}

impl<N: Check> Check for IfThenElse<N> {
    #[inline(never)]
    #[tactic(auto, using(crate::proofs::Walks::conditional_answers))]
    fn check<A: Asked>(&self, asked: A, ctx: &mut ValidationContext) -> bool {
        if self.schema.check(asked, ctx) {
            self.then_schema.check(asked, ctx)
        } else {
            self.else_schema.check(asked, ctx)
        }
    }
}
