//! Leaves and bodies: their errors.
ghost use Rattle.std.specs.Prelude.{◌≡◌, true, false};
ghost use Rattle.olk_base.specs.Nodes.{subject_data};
ghost use Rattle.olk_reports.specs.Paths.{path_at};
ghost use Rattle.olk_errors.specs.Outcomes.{of_leaf, of_body, of_branches};
ghost use Rattle.olk_errors.specs.Sinks.{wants_one, Walks, Ends};

use crate::branches::walk_each;
use crate::{ErrorSink, Stop, Walk};
use olk_base::{Leaf, Subject, ValidationContext, leaf_accepts};
use olk_reports::{Location, Trail, ValidationErrorKind};
use olk_tree::node::Body;

/// Walks over a body at its place: a false schema has one error, a true one none, and otherwise
/// its keywords are walked over, or its names.
///
/// # Errors
///
/// That the sink has the one error that it wants; or out of memory, and then a list that takes
/// all errors has what it had, and may have more.
#[inline(always)]
pub fn walk_body<'a, W: Walk<'a>>(
    body: &'a Body<W>,
    location: &'a str,
    node: Subject<'_, 'a>,
    trail: &Trail<'_, 'a>,
    ctx: &mut ValidationContext,
    sink: &mut ErrorSink<'a>,
) -> Result<(), Stop>
    ensures { Walks result sink.old sink.new ctx.old ctx.new
        (λ u. of_body W.means W.first W.report u location.now body.now
        (subject_data node.entry) (path_at trail.now)) }
{
    match body {
        Body::Keywords(keywords) => walk_keywords(keywords, node, trail, ctx, sink),
        other => walk_other(other, location, node, trail, ctx, sink),
    }
}

/// Walks over a body, out of line, so that a walk over keywords stays small.
#[inline(never)]
fn walk_other<'a, W: Walk<'a>>(
    body: &'a Body<W>,
    location: &'a str,
    node: Subject<'_, 'a>,
    trail: &Trail<'_, 'a>,
    ctx: &mut ValidationContext,
    sink: &mut ErrorSink<'a>,
) -> Result<(), Stop>
    ensures { Walks result sink.old sink.new ctx.old ctx.new
        (λ u. of_body W.means W.first W.report u location.now body.now
        (subject_data node.entry) (path_at trail.now)) }
{
    match body {
        Body::True => Ok(()),
        Body::False => {
            let kind: ValidationErrorKind<'a> = ValidationErrorKind::FalseSchema;
            sink.report(kind, node, trail, location)
        }
        Body::Keywords(keywords) => walk_each(keywords, node, trail, ctx, sink),
        Body::RequiredNames(names) => names.walk(node, trail, ctx, sink),
    }
}

/// Walks over the node with each keyword; a single one, which most often is a leaf, is walked in
/// line.
#[inline(always)]
fn walk_keywords<'a, W: Walk<'a>>(
    keywords: &'a Vec<W>,
    node: Subject<'_, 'a>,
    trail: &Trail<'_, 'a>,
    ctx: &mut ValidationContext,
    sink: &mut ErrorSink<'a>,
) -> Result<(), Stop>
    ensures { Walks result sink.old sink.new ctx.old ctx.new
        (λ u. of_branches W.means W.first W.report u keywords.now.items
        (subject_data node.entry) (path_at trail.now)) }
{
    match keywords.as_slice() {
        [keyword] => keyword.walk(node, trail, ctx, sink),
        _ => walk_each(keywords, node, trail, ctx, sink),
    }
}

/// The errors of a leaf.
#[inline(always)]
pub(crate) fn walk_leaf<'a, K: Leaf>(
    leaf: &'a K,
    location: &'a Location,
    node: Subject<'_, 'a>,
    trail: &Trail<'_, 'a>,
    sink: &mut ErrorSink<'a>,
) -> Result<(), Stop>
    ensures { Ends result sink.old sink.new
        (of_leaf K.Leaf leaf.now (subject_data node.entry) location.now (path_at trail.now)) }
{
    if leaf_accepts(leaf, node) {
        return Ok(());
    }
    report_texts(leaf, location, node, trail, sink)
}

/// An error for each text that a leaf finds, or for one of them where one is enough.
#[inline(never)]
pub(crate) fn report_texts<'a, K: Leaf>(
    leaf: &'a K,
    location: &'a Location,
    node: Subject<'_, 'a>,
    trail: &Trail<'_, 'a>,
    sink: &mut ErrorSink<'a>,
) -> Result<(), Stop>
    ensures { Ends result sink.old sink.new
        (of_leaf K.Leaf leaf.now (subject_data node.entry) location.now (path_at trail.now)) }
{
    if sink.wants_one() {
        report_one_text(leaf, location, node, trail, sink)
    } else {
        report_each_text(leaf, location, node, trail, sink)
    }
}

/// An error for one of the texts that a leaf finds, if it finds any.
fn report_one_text<'a, K: Leaf>(
    leaf: &'a K,
    location: &'a Location,
    node: Subject<'_, 'a>,
    trail: &Trail<'_, 'a>,
    sink: &mut ErrorSink<'a>,
) -> Result<(), Stop>
    requires { wants_one sink.now ≡ true }
    ensures { Ends result sink.old sink.new
        (of_leaf K.Leaf leaf.now (subject_data node.entry) location.now (path_at trail.now)) }
{
    match leaf.validate(sink.alloc(), node.node())? {
        Some(text) => {
            let keyword = leaf.keyword();
            let kind = ValidationErrorKind::Leaf { keyword, text };
            sink.report(kind, node, trail, location.as_str())
        }
        None => Ok(()),
    }
}

/// An error for each text that a leaf finds.
fn report_each_text<'a, K: Leaf>(
    leaf: &'a K,
    location: &'a Location,
    node: Subject<'_, 'a>,
    trail: &Trail<'_, 'a>,
    sink: &mut ErrorSink<'a>,
) -> Result<(), Stop>
    requires { wants_one sink.now ≡ false }
    ensures { Ends result sink.old sink.new
        (of_leaf K.Leaf leaf.now (subject_data node.entry) location.now (path_at trail.now)) }
{
    let mut texts = Vec::new(sink.alloc());
    leaf.collect_errors(sink.alloc(), node.node(), &mut texts)?;
    let keyword = leaf.keyword();
    for text in texts {
        let kind = ValidationErrorKind::Leaf { keyword, text };
        sink.report(kind, node, trail, location.as_str())?;
    }
    Ok(())
}
