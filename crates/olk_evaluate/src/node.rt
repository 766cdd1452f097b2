//! Keywords and bodies: what they show.
ghost use Rattle.std.specs.Prelude.{◌≡◌, OnOk};
ghost use Rattle.olk_base.specs.Nodes.{subject_data};
ghost use Rattle.olk_reports.specs.Evaluations.{nothing_shown, shown_of};
ghost use Rattle.olk_evaluate.specs.Shows.{Shows};
ghost use Rattle.olk_evaluate.specs.Wanted.{HasTexts, ShowsBody};

use crate::required::add_missing;
use crate::walk::show_each;
use crate::{EvaluationContext, Located, Show};
use olk_base::{Leaf, RegexEngine, Subject, leaf_accepts};
use olk_reports::{ErrorDescription, EvaluationResult, ValidationErrorKind};
use olk_tree::node::{Body, KeywordOver};
use std::alloc::AllocError;

// `show` of a validator is never inlined here, so that a leaf doesn't pay for its frame.
impl<'a, K: Leaf, R: RegexEngine, N: Located<'a>> Show<'a> for KeywordOver<K, R, N> {
    ghost use Rattle.olk_base.specs.Kit.{kit};
    ghost use Rattle.olk_tree.specs.Validators.{answers_of};

    ghost place = { λ k. (answers_of (kit K.Leaf R.RegexEngine) k).location };

    ghost tree = { λ k. (answers_of (kit K.Leaf R.RegexEngine) k).tree N.means N.tree };

    fn show(
        &'a self,
        node: Subject<'_, 'a>,
        ctx: &mut EvaluationContext,
        outcome: &mut EvaluationResult<'a>,
    ) -> Result<(), AllocError> {
        match self {
            KeywordOver::SmallProperties(keyword) => keyword.show(node, ctx, outcome),
            KeywordOver::BigProperties(keyword) => keyword.show(node, ctx, outcome),
            KeywordOver::PropertiesWithRequired2(keyword) => { keyword.show(node, ctx, outcome) }
            KeywordOver::Required(keyword) => keyword.show(node, ctx, outcome),
            KeywordOver::AllOf(keyword) => keyword.show(node, ctx, outcome),
            KeywordOver::SingleValueAllOf(keyword) => keyword.show(node, ctx, outcome),
            KeywordOver::AnyOf(keyword) => keyword.show(node, ctx, outcome),
            KeywordOver::SingleAnyOf(keyword) => keyword.show(node, ctx, outcome),
            KeywordOver::OneOf(keyword) => keyword.show(node, ctx, outcome),
            KeywordOver::SingleOneOf(keyword) => keyword.show(node, ctx, outcome),
            KeywordOver::Not(keyword) => keyword.show(node, ctx, outcome),
            KeywordOver::IfThen(keyword) => keyword.show(node, ctx, outcome),
            KeywordOver::IfElse(keyword) => keyword.show(node, ctx, outcome),
            KeywordOver::IfThenElse(keyword) => keyword.show(node, ctx, outcome),
            KeywordOver::Dependencies(keyword) => keyword.show(node, ctx, outcome),
            KeywordOver::DependentRequired(keyword) => keyword.show(node, ctx, outcome),
            KeywordOver::DependentSchemas(keyword) => keyword.show(node, ctx, outcome),
            KeywordOver::PropertyNames(keyword) => keyword.show(node, ctx, outcome),
            KeywordOver::PropertyNamesFalse(keyword) => keyword.show(node, ctx, outcome),
            KeywordOver::PropertyDependencies(keyword) => keyword.show(node, ctx, outcome),
            KeywordOver::PatternProperties(keyword) => keyword.show(node, ctx, outcome),
            KeywordOver::SingleValuePatternProperties(keyword) => {
                keyword.show(node, ctx, outcome)
            }
            KeywordOver::AdditionalProperties(keyword) => keyword.show(node, ctx, outcome),
            KeywordOver::Leaf(_, leaf) => show_leaf(leaf, node, outcome),
        }
    }
}

impl<'a, K: Leaf, R: RegexEngine, N: Located<'a>> Located<'a> for KeywordOver<K, R, N> {
    fn location(&self) -> &str {
        KeywordOver::location(self)
    }
}

/// The texts of a leaf as errors.
fn show_leaf<'a, K: Leaf>(
    leaf: &'a K,
    node: Subject<'_, 'a>,
    outcome: &mut EvaluationResult<'a>,
) -> Result<(), AllocError>
    requires { shown_of outcome.old ≡ nothing_shown }
    ensures { OnOk result (HasTexts
        (K.keyword_of leaf.now) (K.finds leaf.now (subject_data node.entry))
        (shown_of outcome.new)) }
{
    if leaf_accepts(leaf, node) {
        return Ok(());
    }
    add_texts(leaf, node, outcome)
}

/// The texts of a leaf that refuses, as errors.
#[inline(never)]
fn add_texts<'a, K: Leaf>(
    leaf: &'a K,
    node: Subject<'_, 'a>,
    outcome: &mut EvaluationResult<'a>,
) -> Result<(), AllocError>
    requires { shown_of outcome.old ≡ nothing_shown }
    ensures { OnOk result (HasTexts
        (K.keyword_of leaf.now) (K.finds leaf.now (subject_data node.entry))
        (shown_of outcome.new)) }
{
    for text in leaf.evaluate(outcome.allocator(), node.node())? {
        outcome.mark_errored(ErrorDescription::new(leaf.keyword(), text))?;
    }
    Ok(())
}

/// What a body shows at its place, in a result that shows nothing yet: nothing where the schema is
/// true, an error where it is false, an error for each listed name that an object lacks, and
/// otherwise a child for each keyword.
///
/// # Errors
///
/// Out of memory.
pub fn show_body<'a, W: Located<'a>>(
    body: &'a Body<W>,
    node: Subject<'_, 'a>,
    ctx: &mut EvaluationContext,
    outcome: &mut EvaluationResult<'a>,
) -> Result<(), AllocError>
    requires { shown_of outcome.old ≡ nothing_shown }
    ensures { Shows result ctx.old ctx.new (λ u _. ShowsBody
        W.tree W.means u
        body.now (subject_data node.entry) ctx.old.path (shown_of outcome.new)) }
{
    match body {
        Body::True => Ok(()),
        Body::False => {
            let kind: ValidationErrorKind<'a> = ValidationErrorKind::FalseSchema;
            outcome.mark_errored_by(kind, node.node())
        }
        Body::Keywords(keywords) => show_each(keywords, node, ctx, outcome),
        Body::RequiredNames(required) => add_missing(outcome, required, node),
    }
}
