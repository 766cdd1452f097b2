//! Walks over nodes: the errors that they find.
ghost use Rattle.std.specs.Prelude.{◌∷◌, [], Bool, map, IfOk};
ghost use Rattle.olk_reports.proofs.Errors.{context_faults};
ghost use Rattle.olk_base.specs.Nodes.{subject_data};
ghost use Rattle.olk_reports.specs.Paths.{path_at};
ghost use Rattle.olk_check.specs.Asks.{OnlyAsks, IsAnswer};
ghost use Rattle.olk_errors.specs.Found.{Appends, AreLike, IsFirstOf};
ghost use Rattle.olk_errors.specs.Outcomes.{of_branches, of_node};
ghost use Rattle.olk_errors.specs.Sinks.{Walks};

use crate::{ErrorSink, Stop, Walk};
use olk_base::{Subject, ValidationContext, one};
use olk_reports::{Trail, ValidationError};
use std::alloc::{AllocError, Global};

/// Walks over the node with each of them.
#[inline(never)]
pub(crate) fn walk_each<'a, N: Walk<'a>>(
    nodes: &'a Vec<N>,
    node: Subject<'_, 'a>,
    trail: &Trail<'_, 'a>,
    ctx: &mut ValidationContext,
    sink: &mut ErrorSink<'a>,
) -> Result<(), Stop>
    ensures { Walks result sink.old sink.new ctx.old ctx.new
        (λ u. of_branches N.means N.first N.report u nodes.now.items
        (subject_data node.entry) (path_at trail.now)) }
{
    for n in nodes {
        n.walk(node, trail, ctx, sink)?;
    }
    Ok(())
}

/// For each of them its errors, in a list of its own.
pub(crate) fn contexts<'a, N: Walk<'a>>(
    alloc: Global,
    nodes: &'a Vec<N>,
    node: Subject<'_, 'a>,
    trail: &Trail<'_, 'a>,
    ctx: &mut ValidationContext,
) -> Result<Vec<Vec<ValidationError<'a>>>, AllocError>
    ensures contexts { IfOk result (λ c. (u : Bool) → IsAnswer ctx.old ctx.new u
        → AreLike (context_faults c)
        (map (λ n. N.report n u (subject_data node.entry) (path_at trail.now))
        nodes.now.items)) }
    ensures context { OnlyAsks ctx.old ctx.new }
{
    let mut contexts: Vec<Vec<ValidationError<'a>>> = Vec::new(alloc);
    for n in nodes {
        let errors = errors_of(alloc, n, node, trail, ctx)?;
        contexts.push(errors)?;
    }
    Ok(contexts)
}

/// The errors of the one node, as the one list of a context.
pub(crate) fn one_context<'a, N: Walk<'a>>(
    alloc: Global,
    branch: &'a N,
    node: Subject<'_, 'a>,
    trail: &Trail<'_, 'a>,
    ctx: &mut ValidationContext,
) -> Result<Vec<Vec<ValidationError<'a>>>, AllocError>
    ensures contexts { IfOk result (λ c. (u : Bool) → IsAnswer ctx.old ctx.new u
        → AreLike (context_faults c)
        (N.report branch.now u (subject_data node.entry) (path_at trail.now) ∷ [])) }
    ensures context { OnlyAsks ctx.old ctx.new }
{
    let errors = errors_of(alloc, branch, node, trail, ctx)?;
    one(alloc, errors)
}

/// The errors of a node, in a list of their own.
pub(crate) fn errors_of<'a, N: Walk<'a>>(
    alloc: Global,
    asked: &'a N,
    node: Subject<'_, 'a>,
    trail: &Trail<'_, 'a>,
    ctx: &mut ValidationContext,
) -> Result<Vec<ValidationError<'a>>, AllocError>
    ensures errors { IfOk result (λ es. (u : Bool) → IsAnswer ctx.old ctx.new u
        → Appends [] es.items
        (N.report asked.now u (subject_data node.entry) (path_at trail.now))) }
    ensures context { OnlyAsks ctx.old ctx.new }
{
    let mut sink: ErrorSink<'a> = ErrorSink::all(alloc, Vec::new(alloc));
    match asked.walk(node, trail, ctx, &mut sink) {
        Ok(()) => Ok(sink.into_errors()),
        Err(Stop) => Err(AllocError),
    }
}

/// The first error of a node, if there is one.
pub(crate) fn first_error_of<'a, N: Walk<'a>>(
    alloc: Global,
    asked: &'a N,
    node: Subject<'_, 'a>,
    trail: &Trail<'_, 'a>,
    ctx: &mut ValidationContext,
) -> Result<Option<ValidationError<'a>>, AllocError>
    ensures error { IfOk result (λ e. (u : Bool) → IsAnswer ctx.old ctx.new u
        → IsFirstOf (of_node N.means N.first N.report u
        asked.now (subject_data node.entry) (path_at trail.now)) e) }
    ensures context { OnlyAsks ctx.old ctx.new }
{
    let mut sink: ErrorSink<'a> = ErrorSink::first(alloc);
    match asked.walk(node, trail, ctx, &mut sink) {
        Ok(()) => Ok(None),
        Err(Stop) => match sink.into_first() {
            Some(error) => Ok(Some(error)),
            None => Err(AllocError),
        },
    }
}
