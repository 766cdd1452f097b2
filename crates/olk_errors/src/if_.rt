//! `if`, `then` and `else`: their errors.
use crate::{ErrorSink, Stop, Walk};
use olk_base::{Subject, ValidationContext};
use olk_check::accepts;
use olk_reports::Trail;
use olk_tree::if_::{IfElse, IfThen, IfThenElse};

impl<'a, N: Walk<'a>> Walk<'a> for IfThen<N> {
    #[inline(never)]
    fn walk(
        &'a self,
        node: Subject<'_, 'a>,
        trail: &Trail<'_, 'a>,
        ctx: &mut ValidationContext,
        sink: &mut ErrorSink<'a>,
    ) -> Result<(), Stop> {
        if !accepts(&self.schema, node, ctx) {
            return Ok(());
        }
        self.then_schema.walk(node, trail, ctx, sink)
    }
}

impl<'a, N: Walk<'a>> Walk<'a> for IfElse<N> {
    #[inline(never)]
    fn walk(
        &'a self,
        node: Subject<'_, 'a>,
        trail: &Trail<'_, 'a>,
        ctx: &mut ValidationContext,
        sink: &mut ErrorSink<'a>,
    ) -> Result<(), Stop> {
        if accepts(&self.schema, node, ctx) {
            return Ok(());
        }
        self.else_schema.walk(node, trail, ctx, sink)
    }
}

impl<'a, N: Walk<'a>> Walk<'a> for IfThenElse<N> {
    #[inline(never)]
    fn walk(
        &'a self,
        node: Subject<'_, 'a>,
        trail: &Trail<'_, 'a>,
        ctx: &mut ValidationContext,
        sink: &mut ErrorSink<'a>,
    ) -> Result<(), Stop> {
        if accepts(&self.schema, node, ctx) {
            self.then_schema.walk(node, trail, ctx, sink)
        } else {
            self.else_schema.walk(node, trail, ctx, sink)
        }
    }
}
