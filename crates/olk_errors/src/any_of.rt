//! `anyOf`: its errors.
use crate::branches::{contexts, one_context};
use crate::{ErrorSink, Stop, Walk};
use olk_base::{Subject, ValidationContext};
use olk_check::accepts;
use olk_reports::{Trail, ValidationErrorKind};
use olk_tree::any_of::{AnyOf, SingleAnyOf};

impl<'a, N: Walk<'a>> Walk<'a> for AnyOf<N> {
    #[inline(never)]
    fn walk(
        &'a self,
        node: Subject<'_, 'a>,
        trail: &Trail<'_, 'a>,
        ctx: &mut ValidationContext,
        sink: &mut ErrorSink<'a>,
    ) -> Result<(), Stop> {
        if accepts(self, node, ctx) {
            return Ok(());
        }
        let context = contexts(sink.alloc(), &self.schemas, node, trail, ctx)?;
        let kind = ValidationErrorKind::AnyOf { context };
        sink.report(kind, node, trail, self.location.as_str())
    }
}

impl<'a, N: Walk<'a>> Walk<'a> for SingleAnyOf<N> {
    #[inline(never)]
    fn walk(
        &'a self,
        node: Subject<'_, 'a>,
        trail: &Trail<'_, 'a>,
        ctx: &mut ValidationContext,
        sink: &mut ErrorSink<'a>,
    ) -> Result<(), Stop> {
        if accepts(&self.node, node, ctx) {
            return Ok(());
        }
        let context = one_context(sink.alloc(), &self.node, node, trail, ctx)?;
        let kind = ValidationErrorKind::AnyOf { context };
        sink.report(kind, node, trail, self.location.as_str())
    }
}
