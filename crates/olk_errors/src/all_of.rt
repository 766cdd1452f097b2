//! `allOf`: its errors.
use crate::branches::walk_each;
use crate::{ErrorSink, Stop, Walk};
use olk_base::{Subject, ValidationContext};
use olk_reports::Trail;
use olk_tree::all_of::{AllOf, SingleValueAllOf};

impl<'a, N: Walk<'a>> Walk<'a> for AllOf<N> {
    #[inline(never)]
    fn walk(
        &'a self,
        node: Subject<'_, 'a>,
        trail: &Trail<'_, 'a>,
        ctx: &mut ValidationContext,
        sink: &mut ErrorSink<'a>,
    ) -> Result<(), Stop> {
        walk_each(&self.schemas, node, trail, ctx, sink)
    }
}

impl<'a, N: Walk<'a>> Walk<'a> for SingleValueAllOf<N> {
    #[inline(never)]
    fn walk(
        &'a self,
        node: Subject<'_, 'a>,
        trail: &Trail<'_, 'a>,
        ctx: &mut ValidationContext,
        sink: &mut ErrorSink<'a>,
    ) -> Result<(), Stop> {
        self.node.walk(node, trail, ctx, sink)
    }
}
