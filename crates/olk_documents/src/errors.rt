//! What is wrong with a value, told by the keywords and places of a document. The path of an item
//! is written where the item is refused.
ghost use Rattle.std.specs.Prelude.{◌≡◌, drop, map, decimal, IfOk, option_map, string_bytes};
ghost use Rattle.std.specs.List.{zip};
ghost use Rattle.serde_json.specs.Find.{as_array};
ghost use Rattle.serde_json.specs.View.{view, items_view};
ghost use Rattle.olk_base.specs.Nodes.{subject_data, data_of};
ghost use Rattle.olk_spec.specs.Schemas.{numbered};
ghost use Rattle.olk_document_spec.specs.Applied.{contains_text};
ghost use Rattle.olk_reports.specs.Paths.{one_below, path_at};
ghost use Rattle.olk_errors.specs.Outcomes.{of_node, of_each, of_branches, of_body};
ghost use Rattle.olk_errors.specs.Sinks.{Walks};
ghost use Rattle.olk_documents.specs.Outcomes.{of_place};

use crate::arrays::{Items, PrefixItems, items_of};
use crate::contains::Contains;
use crate::node::{DocumentKeyword, DocumentNode};
use crate::reference::Reference;
use olk_base::{Leaf, Node, RegexEngine, Subject, ValidationContext};
use olk_bench::shown_text;
use olk_check::accepts;
use olk_errors::{ErrorSink, Stop, Walk, walk_body};
use olk_reports::{Trail, ValidationErrorKind};
use olk_tree::node::Body;
use serde_json::Value;
use std::alloc::{AllocError, Global};

/// The text of the path of an item, one segment below the trail.
fn path_of_item(alloc: Global, trail: &Trail<'_, '_>, index: usize) -> Result<String, AllocError>
    ensures { IfOk result (λ t. string_bytes t ≡ one_below (path_at trail.now) (decimal index)) }
{
    let text = trail.text(alloc)?;
    let place = text.as_str();
    format!(in alloc; "{place}/{index}")
}

/// Walks over the item at the position, if the node refuses it.
fn walk_item<'a, N: Walk<'a>>(
    n: &'a N,
    item: &'a Value,
    index: usize,
    trail: &Trail<'_, 'a>,
    ctx: &mut ValidationContext,
    sink: &mut ErrorSink<'a>,
) -> Result<(), Stop>
    ensures { Walks result sink.old sink.new ctx.old ctx.new
        (λ u. of_node N.means N.first N.report u n.now (view item.now)
        (one_below (path_at trail.now) (decimal index))) }
{
    if n.check(item, ctx) {
        return Ok(());
    }
    let path = path_of_item(sink.alloc(), trail, index)?;
    let below = Trail::At(path.as_str());
    n.walk(Subject::Value(item), &below, ctx, sink)
}

/// Walks over each of the items from the position on.
fn walk_items<'a, N: Walk<'a>>(
    n: &'a N,
    items: &'a Vec<Value>,
    skip: usize,
    trail: &Trail<'_, 'a>,
    ctx: &mut ValidationContext,
    sink: &mut ErrorSink<'a>,
) -> Result<(), Stop>
    ensures { Walks result sink.old sink.new ctx.old ctx.new
        (λ u. of_each u (λ e. N.means n.now e.1)
        (λ e. N.first n.now u e.1 (one_below (path_at trail.now) e.0))
        (λ e. N.report n.now u e.1 (one_below (path_at trail.now) e.0))
        (drop skip (numbered (map view items.now.items)))) }
{
    let mut i = skip;
    while i < items.len() {
        walk_item(n, &items[i], i, trail, ctx, sink)?;
        i += 1;
    }
    Ok(())
}

/// Walks over each item with the schema at its position, as far as both go.
fn walk_pairs<'a, N: Walk<'a>>(
    schemas: &'a Vec<N>,
    items: &'a Vec<Value>,
    trail: &Trail<'_, 'a>,
    ctx: &mut ValidationContext,
    sink: &mut ErrorSink<'a>,
) -> Result<(), Stop>
    ensures { Walks result sink.old sink.new ctx.old ctx.new
        (λ u. of_each u (λ e. N.means e.0 e.1.1)
        (λ e. N.first e.0 u e.1.1 (one_below (path_at trail.now) e.1.0))
        (λ e. N.report e.0 u e.1.1 (one_below (path_at trail.now) e.1.0))
        (zip schemas.now.items (drop 0 (numbered (map view items.now.items))))) }
{
    let mut i = 0;
    while i < schemas.len() {
        if i >= items.len() {
            return Ok(());
        }
        walk_item(&schemas[i], &items[i], i, trail, ctx, sink)?;
        i += 1;
    }
    Ok(())
}

impl<'a, N: Walk<'a>> Walk<'a> for PrefixItems<N> {
    fn walk(
        &'a self,
        node: Subject<'_, 'a>,
        trail: &Trail<'_, 'a>,
        ctx: &mut ValidationContext,
        sink: &mut ErrorSink<'a>,
    ) -> Result<(), Stop> {
        match items_of(node.node()) {
            Some(items) => walk_pairs(&self.schemas, items, trail, ctx, sink),
            None => Ok(()),
        }
    }
}

impl<'a, N: Walk<'a>> Walk<'a> for Items<N> {
    fn walk(
        &'a self,
        node: Subject<'_, 'a>,
        trail: &Trail<'_, 'a>,
        ctx: &mut ValidationContext,
        sink: &mut ErrorSink<'a>,
    ) -> Result<(), Stop> {
        match items_of(node.node()) {
            Some(items) => walk_items(&self.node, items, self.skip, trail, ctx, sink),
            None => Ok(()),
        }
    }
}

/// What is told where too few items are contained, or too many.
pub(crate) fn text_of_contains(alloc: Global, node: Node<'_>) -> Result<String, AllocError>
    ensures { IfOk result (λ t. string_bytes t ≡ contains_text (data_of node.entry)) }
{
    let shown = shown_text(alloc, node)?;
    let value = shown.as_str();
    format!(in alloc; "None of {value} are valid under the given schema")
}

impl<'a, N: Walk<'a>> Walk<'a> for Contains<N> {
    fn walk(
        &'a self,
        node: Subject<'_, 'a>,
        trail: &Trail<'_, 'a>,
        ctx: &mut ValidationContext,
        sink: &mut ErrorSink<'a>,
    ) -> Result<(), Stop> {
        if accepts(self, node, ctx) {
            return Ok(());
        }
        let text = text_of_contains(sink.alloc(), node.node())?;
        let kind = ValidationErrorKind::Leaf {
            keyword: "contains",
            text,
        };
        sink.report(kind, node, trail, self.location.as_str())
    }
}

impl<'a, N: Walk<'a>> Walk<'a> for Reference<N> {
    fn walk(
        &'a self,
        node: Subject<'_, 'a>,
        trail: &Trail<'_, 'a>,
        ctx: &mut ValidationContext,
        sink: &mut ErrorSink<'a>,
    ) -> Result<(), Stop> {
        self.target.walk(node, trail, ctx, sink)
    }
}

impl<'a, N: Walk<'a>> Walk<'a> for DocumentKeyword<N> {
    #[inline(never)]
    #[tactic(auto, unfolding(crate::specs::Nodes::more_of))]
    fn walk(
        &'a self,
        node: Subject<'_, 'a>,
        trail: &Trail<'_, 'a>,
        ctx: &mut ValidationContext,
        sink: &mut ErrorSink<'a>,
    ) -> Result<(), Stop> {
        match self {
            DocumentKeyword::PrefixItems(keyword) => keyword.walk(node, trail, ctx, sink),
            DocumentKeyword::Items(keyword) => keyword.walk(node, trail, ctx, sink),
            DocumentKeyword::Contains(keyword) => keyword.walk(node, trail, ctx, sink),
            DocumentKeyword::Reference(keyword) => keyword.walk(node, trail, ctx, sink),
        }
    }
}

/// Walks over the node with each of them.
fn walk_each<'a, N: Walk<'a>>(
    keywords: &'a Vec<N>,
    node: Subject<'_, 'a>,
    trail: &Trail<'_, 'a>,
    ctx: &mut ValidationContext,
    sink: &mut ErrorSink<'a>,
) -> Result<(), Stop>
    ensures { Walks result sink.old sink.new ctx.old ctx.new
        (λ u. of_branches N.means N.first N.report u keywords.now.items
        (subject_data node.entry) (path_at trail.now)) }
{
    for n in keywords {
        n.walk(node, trail, ctx, sink)?;
    }
    Ok(())
}

/// Walks over a body at its place, and then with each of the keywords that the layer doesn't read.
#[inline(never)]
fn walk_both<'a, W: Walk<'a>, M: Walk<'a>>(
    body: &'a Body<W>,
    more: &'a Vec<M>,
    location: &'a str,
    node: Subject<'_, 'a>,
    trail: &Trail<'_, 'a>,
    ctx: &mut ValidationContext,
    sink: &mut ErrorSink<'a>,
) -> Result<(), Stop>
    ensures { Walks result sink.old sink.new ctx.old ctx.new (λ u. of_place
        (of_body W.means W.first W.report u location.now body.now
        (subject_data node.entry) (path_at trail.now))
        (of_branches M.means M.first M.report u more.now.items
        (subject_data node.entry) (path_at trail.now))) }
{
    walk_body(body, location, node, trail, ctx, sink)?;
    walk_each(more, node, trail, ctx, sink)
}

/// The walk of `walk_both`. Most places have no other keyword, so they are walked over in line.
#[inline(always)]
fn walk_place<'a, W: Walk<'a>, M: Walk<'a>>(
    body: &'a Body<W>,
    more: &'a Vec<M>,
    location: &'a str,
    node: Subject<'_, 'a>,
    trail: &Trail<'_, 'a>,
    ctx: &mut ValidationContext,
    sink: &mut ErrorSink<'a>,
) -> Result<(), Stop>
    ensures { Walks result sink.old sink.new ctx.old ctx.new (λ u. of_place
        (of_body W.means W.first W.report u location.now body.now
        (subject_data node.entry) (path_at trail.now))
        (of_branches M.means M.first M.report u more.now.items
        (subject_data node.entry) (path_at trail.now))) }
{
    match more.as_slice() {
        [] => walk_body(body, location, node, trail, ctx, sink),
        _ => walk_both(body, more, location, node, trail, ctx, sink),
    }
}

impl<'a, K: Leaf, R: RegexEngine> Walk<'a> for DocumentNode<K, R> {
    #[inline(always)]
    #[cycle(errors)]
    fn walk(
        &'a self,
        node: Subject<'_, 'a>,
        trail: &Trail<'_, 'a>,
        ctx: &mut ValidationContext,
        sink: &mut ErrorSink<'a>,
    ) -> Result<(), Stop> {
        walk_place(
            &self.body,
            &self.more,
            self.location.as_str(),
            node,
            trail,
            ctx,
            sink,
        )
    }
}
