//! What the keywords and places of a document show of a value.
ghost use Rattle.std.specs.Prelude.{◌≡◌, ◌∷◌, [], drop, map, decimal};
ghost use Rattle.std.specs.List.{zip};
ghost use Rattle.serde_json.specs.View.{view};
ghost use Rattle.olk_base.specs.Nodes.{subject_data};
ghost use Rattle.olk_spec.specs.Names.{Path};
ghost use Rattle.olk_spec.specs.Schemas.{numbered};
ghost use Rattle.olk_reports.specs.Paths.{one_below};
ghost use Rattle.olk_reports.specs.Evaluations.{node_at, nothing_shown, shown_of};
ghost use Rattle.olk_evaluate.specs.Shows.{Shows};
ghost use Rattle.olk_evaluate.specs.Wanted.{IsShown, ShowsMore, wanted};
ghost use Rattle.olk_documents.specs.Wanted.{items_wanted, pairs_wanted, place_wanted};

use crate::arrays::{Items, PrefixItems, items_of};
use crate::contains::Contains;
use crate::errors::text_of_contains;
use crate::node::{DocumentKeyword, DocumentNode};
use crate::reference::Reference;
use olk_base::{Leaf, RegexEngine, Subject};
use olk_check::accepts;
use olk_evaluate::{EvaluationContext, Located, Show, add_child, show_body, show_each};
use olk_reports::{EvaluationResult, ValidationErrorKind};
use olk_tree::node::Body;
use serde_json::Value;
use std::alloc::AllocError;

/// One child more: what the node shows of the item at the position.
fn show_item<'a, N: Located<'a>>(
    n: &'a N,
    item: &'a Value,
    index: usize,
    ctx: &mut EvaluationContext,
    outcome: &mut EvaluationResult<'a>,
) -> Result<(), AllocError>
    ensures { Shows result ctx.old ctx.new (λ u _. ShowsMore
        (wanted N.tree N.means u
        n.now (view item.now) (one_below ctx.old.path (decimal index)) ∷ [])
        (shown_of outcome.old) (shown_of outcome.new)) }
{
    let alloc = outcome.allocator();
    let position = format!(in alloc; "{index}")?;
    let mark = ctx.path.push(position.as_str())?;
    let added = add_child(n, Subject::Value(item), ctx, outcome);
    ctx.path.pop(mark);
    added
}

/// A child more for each of the items from the position on.
fn show_items<'a, N: Located<'a>>(
    n: &'a N,
    items: &'a Vec<Value>,
    skip: usize,
    ctx: &mut EvaluationContext,
    outcome: &mut EvaluationResult<'a>,
) -> Result<(), AllocError>
    ensures { Shows result ctx.old ctx.new (λ u _. ShowsMore
        (items_wanted N.tree N.means u
        n.now (drop skip (numbered (map view items.now.items))) ctx.old.path)
        (shown_of outcome.old) (shown_of outcome.new)) }
{
    let mut i = skip;
    while i < items.len() {
        show_item(n, &items[i], i, ctx, outcome)?;
        i += 1;
    }
    Ok(())
}

/// A child more for each item that has a schema at its position.
fn show_pairs<'a, N: Located<'a>>(
    schemas: &'a Vec<N>,
    items: &'a Vec<Value>,
    ctx: &mut EvaluationContext,
    outcome: &mut EvaluationResult<'a>,
) -> Result<(), AllocError>
    ensures { Shows result ctx.old ctx.new (λ u _. ShowsMore
        (pairs_wanted N.tree N.means u
        (zip schemas.now.items (drop 0 (numbered (map view items.now.items)))) ctx.old.path)
        (shown_of outcome.old) (shown_of outcome.new)) }
{
    let mut i = 0;
    while i < schemas.len() {
        if i >= items.len() {
            return Ok(());
        }
        show_item(&schemas[i], &items[i], i, ctx, outcome)?;
        i += 1;
    }
    Ok(())
}

/// A child for each item that has a schema at its position.
impl<'a, N: Located<'a>> Show<'a> for PrefixItems<N> {
    ghost use Rattle.olk_documents.specs.Arrays.{prefix_items_answers};

    ghost place = { λ k. k.location };

    ghost tree = { λ k. (prefix_items_answers k).tree N.means N.tree };

    fn show(
        &'a self,
        node: Subject<'_, 'a>,
        ctx: &mut EvaluationContext,
        outcome: &mut EvaluationResult<'a>,
    ) -> Result<(), AllocError> {
        match items_of(node.node()) {
            Some(items) => show_pairs(&self.schemas, items, ctx, outcome),
            None => Ok(()),
        }
    }
}

/// A child for each item that the schema is asked about.
impl<'a, N: Located<'a>> Show<'a> for Items<N> {
    ghost use Rattle.olk_documents.specs.Arrays.{items_answers};

    ghost place = { λ k. k.location };

    ghost tree = { λ k. (items_answers k).tree N.means N.tree };

    fn show(
        &'a self,
        node: Subject<'_, 'a>,
        ctx: &mut EvaluationContext,
        outcome: &mut EvaluationResult<'a>,
    ) -> Result<(), AllocError> {
        match items_of(node.node()) {
            Some(items) => show_items(&self.node, items, self.skip, ctx, outcome),
            None => Ok(()),
        }
    }
}

/// An error of its own where too few items are contained, or too many; what the schema shows of
/// them is left out.
impl<'a, N: Located<'a>> Show<'a> for Contains<N> {
    ghost use Rattle.olk_documents.specs.Contains.{contains_answers};

    ghost place = { λ k. k.location };

    ghost tree = { λ k. (contains_answers k).tree N.means N.tree };

    fn show(
        &'a self,
        node: Subject<'_, 'a>,
        ctx: &mut EvaluationContext,
        outcome: &mut EvaluationResult<'a>,
    ) -> Result<(), AllocError> {
        if accepts(self, node, &mut ctx.validation) {
            return Ok(());
        }
        let text = text_of_contains(outcome.allocator(), node.node())?;
        let kind: ValidationErrorKind<'a> = ValidationErrorKind::Leaf {
            keyword: "contains",
            text,
        };
        outcome.mark_errored_by(kind, node.node())
    }
}

/// A child at the place that it names.
impl<'a, N: Located<'a>> Show<'a> for Reference<N> {
    ghost use Rattle.olk_documents.specs.References.{reference_answers};

    ghost place = { λ k. k.location };

    ghost tree = { λ k. (reference_answers k).tree N.means N.tree };

    fn show(
        &'a self,
        node: Subject<'_, 'a>,
        ctx: &mut EvaluationContext,
        outcome: &mut EvaluationResult<'a>,
    ) -> Result<(), AllocError> {
        add_child(&*self.target, node, ctx, outcome)
    }
}

impl<'a, N: Located<'a>> Show<'a> for DocumentKeyword<N> {
    ghost use Rattle.olk_documents.specs.Nodes.{more_of};

    ghost place = { λ k. (more_of k).location };

    ghost tree = { λ k. (more_of k).tree N.means N.tree };

    #[tactic(auto, unfolding(crate::specs::Nodes::more_of))]
    fn show(
        &'a self,
        node: Subject<'_, 'a>,
        ctx: &mut EvaluationContext,
        outcome: &mut EvaluationResult<'a>,
    ) -> Result<(), AllocError> {
        match self {
            DocumentKeyword::PrefixItems(keyword) => keyword.show(node, ctx, outcome),
            DocumentKeyword::Items(keyword) => keyword.show(node, ctx, outcome),
            DocumentKeyword::Contains(keyword) => keyword.show(node, ctx, outcome),
            DocumentKeyword::Reference(keyword) => keyword.show(node, ctx, outcome),
        }
    }
}

impl<'a, N: Located<'a>> Located<'a> for DocumentKeyword<N> {
    #[tactic(auto, unfolding(crate::specs::Nodes::more_of))]
    fn location(&self) -> &str {
        match self {
            DocumentKeyword::PrefixItems(keyword) => keyword.location.as_str(),
            DocumentKeyword::Items(keyword) => keyword.location.as_str(),
            DocumentKeyword::Contains(keyword) => keyword.location.as_str(),
            DocumentKeyword::Reference(keyword) => keyword.location.as_str(),
        }
    }
}

/// What a body shows at its place and, behind it, a child for each of the keywords that the layer
/// doesn't read.
fn show_place<'a, W: Located<'a>, M: Located<'a>>(
    body: &'a Body<W>,
    more: &'a Vec<M>,
    node: Subject<'_, 'a>,
    ctx: &mut EvaluationContext,
    outcome: &mut EvaluationResult<'a>,
) -> Result<(), AllocError>
    requires { shown_of outcome.old ≡ nothing_shown }
    ensures { Shows result ctx.old ctx.new (λ u _. (P : Path) → IsShown
        (place_wanted W.tree W.means M.tree M.means u
        body.now more.now.items P (subject_data node.entry) ctx.old.path)
        (node_at P ctx.old.path (shown_of outcome.new))) }
{
    show_body(body, node, ctx, outcome)?;
    show_each(more, node, ctx, outcome)
}

impl<'a, K: Leaf, R: RegexEngine> Show<'a> for DocumentNode<K, R> {
    ghost use Rattle.olk_base.specs.Kit.{kit};
    ghost use Rattle.olk_documents.specs.declared.node.DocumentNode.{out-DocumentNode};
    ghost use Rattle.olk_documents.specs.Nodes.{answers};

    ghost place = { λ n. (out-DocumentNode K R n).location };

    ghost tree = { λ n. (answers (kit K.Leaf R.RegexEngine) n).tree };

    fn show(
        &'a self,
        node: Subject<'_, 'a>,
        ctx: &mut EvaluationContext,
        outcome: &mut EvaluationResult<'a>,
    ) -> Result<(), AllocError> {
        show_place(&self.body, &self.more, node, ctx, outcome)
    }
}

impl<'a, K: Leaf, R: RegexEngine> Located<'a> for DocumentNode<K, R> {
    fn location(&self) -> &str {
        self.location.as_str()
    }
}
