//! `oneOf`: its errors.
ghost use Rattle.std.specs.Prelude.{Bool, map, IfOk};
ghost use Rattle.olk_base.specs.Nodes.{subject_data};
ghost use Rattle.olk_reports.specs.Paths.{path_at};
ghost use Rattle.olk_tree.specs.Questions.{how_many, exactly_one};
ghost use Rattle.olk_check.specs.Asks.{Asks, OnlyAsks, IsAnswer};
ghost use Rattle.olk_check.specs.Accepting.{IsHowMany, is_one};
ghost use Rattle.olk_errors.specs.Outcomes.{IsKindOfOneOf};

use crate::branches::{contexts, one_context};
use crate::{ErrorSink, Stop, Walk};
use olk_base::{Subject, ValidationContext};
use olk_check::{Accepting, Check, accepts, how_many_accept};
use olk_reports::{Trail, ValidationErrorKind};
use olk_tree::one_of::{OneOf, SingleOneOf};
use std::alloc::{AllocError, Global};

impl<'a, N: Walk<'a>> Walk<'a> for OneOf<N> {
    #[inline(never)]
    fn walk(
        &'a self,
        node: Subject<'_, 'a>,
        trail: &Trail<'_, 'a>,
        ctx: &mut ValidationContext,
        sink: &mut ErrorSink<'a>,
    ) -> Result<(), Stop> {
        match one_of_kind(sink.alloc(), &self.schemas, node, trail, ctx)? {
            Some(kind) => sink.report(kind, node, trail, self.location.as_str()),
            None => Ok(()),
        }
    }
}

/// How many of the branches accept the subject; one choice is made, and none below it.
#[inline(always)]
fn accepting<N: Check>(
    schemas: &Vec<N>,
    node: Subject<'_, '_>,
    ctx: &mut ValidationContext,
) -> Accepting
    ensures asks { Asks ctx.old ctx.new
        (exactly_one (λ n. N.means n (subject_data node.entry)) schemas.now.items)
        (is_one result) }
    ensures count { (u : Bool) → IsAnswer ctx.old ctx.new u → IsHowMany result
        (how_many (λ n. N.means n (subject_data node.entry)) u schemas.now.items) }
{
    match node {
        Subject::Value(value) => how_many_accept(schemas, value, ctx),
        Subject::Name(name) => how_many_accept(schemas, *name, ctx),
    }
}

/// What is wrong where not exactly one of the branches accepts; they are all asked before any error
/// is looked for.
fn one_of_kind<'a, N: Walk<'a>>(
    alloc: Global,
    schemas: &'a Vec<N>,
    node: Subject<'_, 'a>,
    trail: &Trail<'_, 'a>,
    ctx: &mut ValidationContext,
) -> Result<Option<ValidationErrorKind<'a>>, AllocError>
    ensures kind { IfOk result (λ k. (u : Bool) → IsAnswer ctx.old ctx.new u → IsKindOfOneOf
        (how_many (λ n. N.means n (subject_data node.entry)) u schemas.now.items)
        (map (λ n. N.report n u (subject_data node.entry) (path_at trail.now))
        schemas.now.items) k) }
    ensures context { OnlyAsks ctx.old ctx.new }
{
    match accepting(schemas, node, ctx) {
        Accepting::Zero => {
            let context = contexts(alloc, schemas, node, trail, ctx)?;
            Ok(Some(ValidationErrorKind::OneOfNotValid { context }))
        }
        Accepting::One => Ok(None),
        Accepting::Several => {
            let context = contexts(alloc, schemas, node, trail, ctx)?;
            Ok(Some(ValidationErrorKind::OneOfMultipleValid { context }))
        }
    }
}

impl<'a, N: Walk<'a>> Walk<'a> for SingleOneOf<N> {
    #[inline(never)]
    fn walk(
        &'a self,
        node: Subject<'_, 'a>,
        trail: &Trail<'_, 'a>,
        ctx: &mut ValidationContext,
        sink: &mut ErrorSink<'a>,
    ) -> Result<(), Stop> {
        if accepts(&self.node, node, ctx) {
            return Ok(());
        }
        let context = one_context(sink.alloc(), &self.node, node, trail, ctx)?;
        let kind = ValidationErrorKind::OneOfNotValid { context };
        sink.report(kind, node, trail, self.location.as_str())
    }
}
