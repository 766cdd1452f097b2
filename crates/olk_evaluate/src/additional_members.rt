//! What `additionalProperties` and its neighbours meet of the members of an object.
ghost use Rattle.std.specs.Prelude.{◌≡◌, ◌++◌, ◌∷◌, [], cond, option_copied, option_map, option_to_list, OnOk};
ghost use Rattle.serde_json.specs.View.{view, members_view};
ghost use Rattle.olk_base.specs.Compiled.{pattern_answers};
ghost use Rattle.olk_spec.specs.Names.{put_if};
ghost use Rattle.olk_spec.specs.Schemas.{listed};
ghost use Rattle.olk_spec.specs.World.{reads_as};
ghost use Rattle.olk_reports.specs.Evaluations.{shown_of};
ghost use Rattle.olk_tree.specs.Additional.{known_or, sides_seen};
ghost use Rattle.olk_tree.specs.Tables.{known_says};
ghost use Rattle.olk_evaluate.specs.Additional.{Collects, CollectsMore, member_found, members_found, names_of, nodes_wanted};
ghost use Rattle.olk_evaluate.specs.Shows.{Shows};
ghost use Rattle.olk_evaluate.specs.Wanted.{ShowsMore};

use crate::properties::add_child_below;
use crate::{EvaluationContext, Located};
use olk_base::{CompiledPattern, RegexEngine};
use olk_check::matches_unless_known;
use olk_reports::EvaluationResult;
use olk_tree::additional_properties::SidesOf;
use serde_json::{Map, Value};
use std::alloc::AllocError;

/// Names that are collected of the members of an object.
#[derive(Drop)]
pub(crate) struct Collected<'a> {
    /// Those that nothing else speaks of.
    pub(crate) additional: Vec<&'a str>,
    /// One for each match that is shown.
    pub(crate) matched: Vec<&'a str>,
}

/// The name behind these, where it is shown.
#[inline(always)]
fn push_if<'a>(names: &mut Vec<&'a str>, name: &'a str, is_shown: bool) -> Result<(), AllocError>
    ensures { OnOk result (names_of names.new.items
        ≡ names_of names.old.items ++ cond is_shown (name.entry.now ∷ []) []) }
{
    if is_shown {
        names.push(name)?;
    }
    Ok(())
}

/// What is met of the members, in their order; with a name for each match, if these are shown.
#[inline(always)]
pub(crate) fn collect<'a, R: RegexEngine, N: Located<'a>>(
    sides: SidesOf<'a, R, N>,
    shows_matches: bool,
    members: &'a Map<String, Value>,
    ctx: &mut EvaluationContext,
    outcome: &mut EvaluationResult<'a>,
) -> Result<Collected<'a>, AllocError>
    ensures { Shows result ctx.old ctx.new (λ u c. Collects
        (members_found R.answers N.tree N.means u ctx.old.path
        (sides_seen sides.entry) shows_matches
        (listed (members_view members.now.entries))) c
        (shown_of outcome.old) (shown_of outcome.new)) }
{
    outcome.reserve_children(members.len())?;
    let alloc = outcome.allocator();
    let mut collected: Collected<'a> = Collected {
        additional: Vec::new(alloc),
        matched: Vec::new(alloc),
    };
    let mut hint = 0;
    for (name, value) in members {
        let name = name.as_str();
        let (next, declared) = sides.declared_from(hint, name);
        hint = next;
        collect_member(
            sides,
            shows_matches,
            declared,
            (name, value),
            ctx,
            outcome,
            &mut collected,
        )?;
    }
    Ok(collected)
}

/// A member: what is declared at its name, the patterns that match it, and, where neither speaks of
/// it, the rest.
#[inline(always)]
fn collect_member<'a, R: RegexEngine, N: Located<'a>>(
    sides: SidesOf<'a, R, N>,
    shows_matches: bool,
    declared: Option<(usize, &'a N)>,
    member: (&'a str, &'a Value),
    ctx: &mut EvaluationContext,
    outcome: &mut EvaluationResult<'a>,
    collected: &mut Collected<'a>,
) -> Result<(), AllocError>
    ensures { Shows result ctx.old ctx.new (λ u _. CollectsMore
        (member_found R.answers N.tree N.means u ctx.old.path
        (sides_seen sides.entry) shows_matches
        (option_map (λ f. (f.0, f.1.now)) declared.entry)
        member.entry.0.now (view member.entry.1.now))
        collected.old collected.new (shown_of outcome.old) (shown_of outcome.new)) }
{
    show_declared(declared, member, ctx, outcome)?;
    let mut spoken = declared.is_some();
    for (index, entry) in sides.patterns.iter().enumerate() {
        let known = sides.known(declared, index);
        let is_match = show_if_matched(entry, known, member, ctx, outcome)?;
        push_if(&mut collected.matched, member.0, is_match & shows_matches)?;
        spoken |= is_match;
    }
    if spoken {
        return Ok(());
    }
    collected.additional.push(member.0)?;
    show_rest(sides.rest, member, ctx, outcome)
}

/// What is declared at a member's name, if anything is.
#[inline(always)]
fn show_declared<'a, N: Located<'a>>(
    declared: Option<(usize, &'a N)>,
    member: (&'a str, &'a Value),
    ctx: &mut EvaluationContext,
    outcome: &mut EvaluationResult<'a>,
) -> Result<(), AllocError>
    ensures { Shows result ctx.old ctx.new (λ u _. ShowsMore
        (nodes_wanted N.tree N.means u ctx.old.path
        member.entry.0.now (view member.entry.1.now)
        (option_to_list (option_map (λ f. f.1.now) declared.entry)))
        (shown_of outcome.old) (shown_of outcome.new)) }
{
    match declared {
        Some((_, subschema)) => add_child_below(subschema, member, ctx, outcome),
        None => Ok(()),
    }
}

/// A pattern's node, if the pattern matches the member's name, and whether it does.
#[inline(always)]
fn show_if_matched<'a, R: RegexEngine, N: Located<'a>>(
    entry: &'a (CompiledPattern<R>, N),
    known: Option<bool>,
    member: (&'a str, &'a Value),
    ctx: &mut EvaluationContext,
    outcome: &mut EvaluationResult<'a>,
) -> Result<bool, AllocError>
    ensures { Shows result ctx.old ctx.new (λ u b.
        b ≡ reads_as u
        (known_or (known_says known) (pattern_answers R.answers entry.now.0 member.entry.0.now))
        × ShowsMore (nodes_wanted N.tree N.means u ctx.old.path
        member.entry.0.now (view member.entry.1.now) (put_if b entry.now.1 []))
        (shown_of outcome.old) (shown_of outcome.new)) }
{
    if !matches_unless_known(known, &entry.0, member.0, &mut ctx.validation) {
        return Ok(false);
    }
    add_child_below(&entry.1, member, ctx, outcome)?;
    Ok(true)
}

/// What the rest shows of a member, if there is a rest.
#[inline(always)]
fn show_rest<'a, N: Located<'a>>(
    rest: Option<&'a N>,
    member: (&'a str, &'a Value),
    ctx: &mut EvaluationContext,
    outcome: &mut EvaluationResult<'a>,
) -> Result<(), AllocError>
    ensures { Shows result ctx.old ctx.new (λ u _. ShowsMore
        (nodes_wanted N.tree N.means u ctx.old.path
        member.entry.0.now (view member.entry.1.now) (option_to_list (option_copied rest.entry)))
        (shown_of outcome.old) (shown_of outcome.new)) }
{
    match rest {
        Some(subschema) => add_child_below(subschema, member, ctx, outcome),
        None => Ok(()),
    }
}
