//! `patternProperties`: what it shows.
ghost use Rattle.olk_reports.specs.Evaluations.{shown_of};
ghost use Rattle.olk_tree.specs.Visited.{object_of};
ghost use Rattle.olk_evaluate.specs.Members.{MeetsMore, wanted_at};
ghost use Rattle.olk_evaluate.specs.Patterns.{matches_of};
ghost use Rattle.olk_evaluate.specs.Shows.{Shows};

use crate::properties::{make_room, show_member};
use crate::{EvaluationContext, Located, Show};
use olk_base::{CompiledPattern, RegexEngine, Subject};
use olk_check::matches;
use olk_reports::EvaluationResult;
use olk_tree::pattern_properties::{PatternProperties, SingleValuePatternProperties};
use serde_json::{Map, Value};
use std::alloc::AllocError;

/// A child for each match, pattern by pattern; where the value is an object, a name for each match
/// is annotated (JSON Schema 2020-12 Core, 10.3.2.2).
impl<'a, R: RegexEngine, N: Located<'a>> Show<'a> for PatternProperties<R, N> {
    ghost use Rattle.olk_tree.specs.PatternProperties.{pattern_properties_answers};

    ghost place = { λ k. k.location };

    ghost tree = { λ k. (pattern_properties_answers R.answers R.costs k).tree N.means N.tree };

    #[inline(never)]
    fn show(
        &'a self,
        node: Subject<'_, 'a>,
        ctx: &mut EvaluationContext,
        outcome: &mut EvaluationResult<'a>,
    ) -> Result<(), AllocError> {
        let Some(members) = node.as_object() else {
            return Ok(());
        };
        make_room(members.len(), outcome)?;
        for entry in &self.patterns {
            show_matched(&entry.0, &entry.1, members, ctx, outcome)?;
        }
        Ok(())
    }
}

/// A child for each match; where the value is an object, the names that match are annotated (JSON
/// Schema 2020-12 Core, 10.3.2.2).
impl<'a, R: RegexEngine, N: Located<'a>> Show<'a> for SingleValuePatternProperties<R, N> {
    ghost use Rattle.olk_tree.specs.PatternProperties.{single_pattern_properties_answers};

    ghost place = { λ k. k.location };

    ghost tree = { λ k.
        (single_pattern_properties_answers R.answers R.costs k).tree N.means N.tree };

    #[inline(never)]
    fn show(
        &'a self,
        node: Subject<'_, 'a>,
        ctx: &mut EvaluationContext,
        outcome: &mut EvaluationResult<'a>,
    ) -> Result<(), AllocError> {
        let Some(members) = node.as_object() else {
            return Ok(());
        };
        make_room(members.len(), outcome)?;
        show_matched(&self.regex, &self.node, members, ctx, outcome)
    }
}

/// The members whose names the pattern matches.
fn show_matched<'a, R: RegexEngine, N: Located<'a>>(
    pattern: &'a CompiledPattern<R>,
    subschema: &'a N,
    members: &'a Map<String, Value>,
    ctx: &mut EvaluationContext,
    outcome: &mut EvaluationResult<'a>,
) -> Result<(), AllocError>
    ensures { Shows result ctx.old ctx.new (λ u _. MeetsMore
        (wanted_at N.tree N.means u ctx.old.path)
        (matches_of R.answers u
        pattern.now subschema.now (object_of members.now.entries))
        (shown_of outcome.old) (shown_of outcome.new)) }
{
    for (name, value) in members {
        let name = name.as_str();
        if !matches(pattern, name, &mut ctx.validation) {
            continue;
        }
        show_member(subschema, (name, value), ctx, outcome)?;
    }
    Ok(())
}
