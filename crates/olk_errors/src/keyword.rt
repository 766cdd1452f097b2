//! Keywords: their errors.
ghost use Rattle.olk_base.specs.Kit.{kit};
ghost use Rattle.olk_base.specs.Nodes.{subject_data};
ghost use Rattle.olk_reports.specs.Paths.{path_at};
ghost use Rattle.olk_tree.specs.Validators.{answers_of};
ghost use Rattle.olk_errors.specs.Outcomes.{of_node};
ghost use Rattle.olk_errors.specs.Sinks.{Walks};

use crate::node::{report_texts, walk_leaf};
use crate::{ErrorSink, Stop, Walk};
use olk_base::{Leaf, RegexEngine, Subject, ValidationContext};
use olk_reports::Trail;
use olk_tree::node::KeywordOver;

impl<'a, K: Leaf, R: RegexEngine, N: Walk<'a>> Walk<'a> for KeywordOver<K, R, N> {
    #[inline(always)]
    #[tactic(auto, unfolding(olk_tree::specs::Validators::answers_of))]
    fn walk(
        &'a self,
        node: Subject<'_, 'a>,
        trail: &Trail<'_, 'a>,
        ctx: &mut ValidationContext,
        sink: &mut ErrorSink<'a>,
    ) -> Result<(), Stop> {
        match self {
            KeywordOver::Leaf(location, leaf) => walk_leaf(leaf, location, node, trail, sink),
            keyword => walk_validator(keyword, node, trail, ctx, sink),
        }
    }
}

/// The walk of a keyword, out of line, so that a walk over leaves stays small.
#[inline(never)]
#[tactic(auto, unfolding(olk_tree::specs::Validators::answers_of))]
fn walk_validator<'a, K: Leaf, R: RegexEngine, N: Walk<'a>>(
    keyword: &'a KeywordOver<K, R, N>,
    node: Subject<'_, 'a>,
    trail: &Trail<'_, 'a>,
    ctx: &mut ValidationContext,
    sink: &mut ErrorSink<'a>,
) -> Result<(), Stop>
    ensures { Walks result sink.old sink.new ctx.old ctx.new
        (λ u. of_node (λ k. (answers_of (kit K.Leaf R.RegexEngine) k).means N.means) (λ k.
        (answers_of (kit K.Leaf R.RegexEngine) k).first N.means N.report N.first) (λ k.
        (answers_of (kit K.Leaf R.RegexEngine) k).report N.means N.report) u
        keyword.now (subject_data node.entry) (path_at trail.now)) }
{
    match keyword {
        KeywordOver::SmallProperties(keyword) => keyword.walk(node, trail, ctx, sink),
        KeywordOver::BigProperties(keyword) => keyword.walk(node, trail, ctx, sink),
        KeywordOver::PropertiesWithRequired2(keyword) => keyword.walk(node, trail, ctx, sink),
        KeywordOver::Required(keyword) => keyword.walk(node, trail, ctx, sink),
        KeywordOver::AllOf(keyword) => keyword.walk(node, trail, ctx, sink),
        KeywordOver::SingleValueAllOf(keyword) => keyword.walk(node, trail, ctx, sink),
        KeywordOver::AnyOf(keyword) => keyword.walk(node, trail, ctx, sink),
        KeywordOver::SingleAnyOf(keyword) => keyword.walk(node, trail, ctx, sink),
        KeywordOver::OneOf(keyword) => keyword.walk(node, trail, ctx, sink),
        KeywordOver::SingleOneOf(keyword) => keyword.walk(node, trail, ctx, sink),
        KeywordOver::Not(keyword) => keyword.walk(node, trail, ctx, sink),
        KeywordOver::IfThen(keyword) => keyword.walk(node, trail, ctx, sink),
        KeywordOver::IfElse(keyword) => keyword.walk(node, trail, ctx, sink),
        KeywordOver::IfThenElse(keyword) => keyword.walk(node, trail, ctx, sink),
        KeywordOver::Dependencies(keyword) => keyword.walk(node, trail, ctx, sink),
        KeywordOver::DependentRequired(keyword) => keyword.walk(node, trail, ctx, sink),
        KeywordOver::DependentSchemas(keyword) => keyword.walk(node, trail, ctx, sink),
        KeywordOver::PropertyNames(keyword) => keyword.walk(node, trail, ctx, sink),
        KeywordOver::PropertyNamesFalse(keyword) => keyword.walk(node, trail, ctx, sink),
        KeywordOver::PropertyDependencies(keyword) => keyword.walk(node, trail, ctx, sink),
        KeywordOver::PatternProperties(keyword) => keyword.walk(node, trail, ctx, sink),
        KeywordOver::SingleValuePatternProperties(keyword) => {
            keyword.walk(node, trail, ctx, sink)
        }
        KeywordOver::AdditionalProperties(keyword) => keyword.walk(node, trail, ctx, sink),
        KeywordOver::Leaf(location, leaf) => report_texts(leaf, location, node, trail, sink),
    }
}
