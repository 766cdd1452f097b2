//! `not`: its errors.
use crate::{ErrorSink, Stop, Walk};
use olk_base::{Subject, ValidationContext};
use olk_check::{Check, accepts};
use olk_reports::{Trail, ValidationErrorKind};
use olk_tree::not::Not;

impl<'a, N: Check> Walk<'a> for Not<N> {
    #[inline(never)]
    fn walk(
        &'a self,
        node: Subject<'_, 'a>,
        trail: &Trail<'_, 'a>,
        ctx: &mut ValidationContext,
        sink: &mut ErrorSink<'a>,
    ) -> Result<(), Stop> {
        if !accepts(&self.node, node, ctx) {
            return Ok(());
        }
        let kind = ValidationErrorKind::Not {
            schema: &self.original,
        };
        sink.report(kind, node, trail, self.location.as_str())
    }
}
