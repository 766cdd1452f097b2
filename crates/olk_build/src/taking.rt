//! What a keyword takes from its neighbours' parts, and the keyword that is made with it.
ghost use Rattle.std.specs.Prelude.{◌≡◌, ◌*◌, IfOk, OnOk, OnErr, is_some, length, map, option_map};
ghost use Rattle.olk_base.specs.Kit.{kit};
ghost use Rattle.olk_meaning.specs.Conditions.{known};
ghost use Rattle.olk_meaning.specs.Plans.{planned};
ghost use Rattle.olk_tree.specs.Tables.{patterns_of, IsTableOf, how_many_cost, count_asks, AsksAtMost};
ghost use Rattle.olk_tree.specs.Steps.{StepsOf};
ghost use Rattle.olk_build.specs.Standing.{is_taken};
ghost use Rattle.olk_build.specs.Taking.{takes_of, IsNode, IsDeclared, IsPatterns, asks_of, asks_taken, TakenBy, MakesTaking, AppendsTaking, AppendsAlone};

use crate::making::make_keyword;
use crate::part::{Beside, Cases, DeclaredNodes, Part, Patterns, TakenNeighbours};
use crate::pattern_properties::with_nodes;
use crate::shape::Shape;
use olk_base::{CompiledPattern, Leaf, Meter, RegexEngine, append};
use olk_meaning::{Neighbours, Plan};
use olk_reports::Location;
use olk_tree::built_node::BuiltNode;
use olk_tree::node::KeywordOver;
use olk_tree::pattern_table::{PatternTable, precompute_property_pattern_indices};
use std::alloc::{AllocError, Global};

/// Whether another keyword takes what the keyword of this name holds.
pub fn is_taken(plan: Plan<'_>, name: &str) -> bool
    ensures { result ≡ is_taken (planned plan.entry) name.now }
{
    (plan.is_restricted() && matches!(name, "properties" | "patternProperties"))
        || (plan.is_condition() && matches!(name, "then" | "else"))
}

/// The two neighbours that the keyword of a part of this shape takes: `if` takes `then` and `else`,
/// and `additionalProperties` that restricts other members `properties` and `patternProperties`.
pub fn takes<K, R>(shape: &Shape<K, R>) -> Option<(&'static str, &'static str)>
    ensures { option_map (λ t. (t.0.now, t.1.now)) result ≡ takes_of shape.now }
{
    match shape {
        Shape::If => Some(("then", "else")),
        Shape::AdditionalProperties | Shape::NoOthers => Some(("properties", "patternProperties")),
        _ => None,
    }
}

/// Whether the keyword of a part of this shape takes neighbours.
#[inline]
pub fn takes_any<K, R>(shape: &Shape<K, R>) -> bool
    ensures { result ≡ is_some (takes_of shape.now) }
{
    matches!(
        shape,
        Shape::If | Shape::AdditionalProperties | Shape::NoOthers
    )
}

/// The last node of a part.
fn node_of<K: Drop, R: Drop, N: Drop>(part: Option<Part<K, R, N>>) -> Option<N>
    ensures { IsNode part result }
{
    match part {
        Some(part) => {
            let mut nodes = part.nodes;
            nodes.pop()
        }
        None => None,
    }
}

/// What a part of `properties` holds.
fn declared_of<K: Drop, R: Drop, N: Drop>(part: Option<Part<K, R, N>>) -> Option<DeclaredNodes<N>>
    ensures { IsDeclared part result }
{
    let Part {
        location: _,
        shape,
        nodes,
    } = part?;
    match shape {
        Shape::Properties(names) => Some(DeclaredNodes { names, nodes }),
        _ => None,
    }
}

/// What patterns say of the names that are declared beside them where other members are restricted;
/// each is asked once of each name. A table of no names elsewhere.
///
/// # Errors
///
/// Out of memory. No more is counted then.
fn table_of_declared<R: RegexEngine, N>(
    alloc: Global,
    meter: &mut Meter,
    neighbours: Neighbours<'_>,
    patterns: &[(CompiledPattern<R>, N)],
) -> Result<PatternTable, AllocError>
    ensures names { IfOk result (λ t. t.names
        ≡ map (λ e. e.0) (known neighbours.entry).declared) }
    ensures answers { IfOk result (IsTableOf R.answers (patterns_of patterns.now)) }
    ensures asked { OnOk result (meter.new ≡ count_asks
        (length (known neighbours.entry).declared
        * how_many_cost R.costs (patterns_of patterns.now))
        meter.old) }
    ensures asked_at_most { OnErr result (AsksAtMost
        (length (known neighbours.entry).declared
        * how_many_cost R.costs (patterns_of patterns.now))
        meter.old meter.new) }
{
    match neighbours.declared() {
        Some(properties) => precompute_property_pattern_indices(alloc, properties, patterns, meter),
        None => Ok(PatternTable::none(alloc)),
    }
}

/// What a part of `patternProperties` holds, and what its patterns say of the names that are
/// declared beside it.
///
/// # Errors
///
/// Out of memory. No more is counted then.
fn patterns_of<K: Drop, R: RegexEngine, N: Drop>(
    alloc: Global,
    meter: &mut Meter,
    neighbours: Neighbours<'_>,
    part: Option<Part<K, R, N>>,
) -> Result<Option<Patterns<R, N>>, AllocError>
    ensures patterns { IfOk result (IsPatterns R.answers (known neighbours.entry) part) }
    ensures asked { OnOk result (meter.new ≡ count_asks
        (asks_of R.costs (known neighbours.entry) part) meter.old) }
    ensures asked_at_most { OnErr result (AsksAtMost
        (asks_of R.costs (known neighbours.entry) part) meter.old meter.new) }
{
    let Some(part) = part else {
        return Ok(None);
    };
    let Part {
        location,
        shape,
        nodes,
    } = part;
    match shape {
        Shape::PatternProperties(patterns) => {
            let patterns = with_nodes(alloc, patterns, nodes)?;
            let table = table_of_declared(alloc, meter, neighbours, patterns.as_slice())?;
            Ok(Some(Patterns {
                location,
                patterns,
                table,
            }))
        }
        _ => Ok(None),
    }
}

/// What a keyword of this shape takes from its neighbours' parts, as far as they are there. Where
/// it takes patterns, each is asked once of each name that is declared beside them.
///
/// # Errors
///
/// Out of memory. No more is counted then.
pub fn take<K: Drop, R: RegexEngine, N: Drop>(
    alloc: Global,
    meter: &mut Meter,
    neighbours: Neighbours<'_>,
    shape: &Shape<K, R>,
    first: Option<Part<K, R, N>>,
    second: Option<Part<K, R, N>>,
) -> Result<TakenNeighbours<R, N>, AllocError>
    ensures taken { IfOk result (TakenBy R.answers (known neighbours.entry)
        shape.now first second) }
    ensures asked { OnOk result (meter.new ≡ count_asks
        (asks_taken R.costs (known neighbours.entry) shape.now second) meter.old) }
    ensures asked_at_most { OnErr result (AsksAtMost
        (asks_taken R.costs (known neighbours.entry) shape.now second) meter.old meter.new) }
{
    match shape {
        Shape::If => Ok(TakenNeighbours {
            cases: Cases {
                then_schema: node_of(first),
                else_schema: node_of(second),
            },
            beside: Beside::none(),
        }),
        _ => Ok(TakenNeighbours {
            cases: Cases::none(),
            beside: Beside {
                properties: declared_of(first),
                patterns: patterns_of(alloc, meter, neighbours, second)?,
            },
        }),
    }
}

/// The keyword of a part, with what was taken for it, if it is read and the plan names no other for
/// it.
pub fn make_taking<K: Leaf, R: RegexEngine, N: BuiltNode<K, R>>(
    alloc: Global,
    plan: Plan<'_>,
    place: &Location,
    part: Part<K, R, N>,
    mut taken: TakenNeighbours<R, N>,
) -> Result<Option<KeywordOver<K, R, N>>, AllocError>
    ensures { IfOk result (λ r. (I : StepsOf (kit K.Leaf R.RegexEngine))
        → MakesTaking I N.answers part.shape
        part.location part.nodes.items taken place.now (planned plan.entry) r) }
{
    let keyword = make_keyword(alloc, plan, place, &mut taken, part)?;
    Ok(keyword)
}

/// Appends the keyword of a part, with what was taken for it, if it is read and the plan names no
/// other for it.
#[inline(never)]
pub fn append_taking<K: Leaf, R: RegexEngine, N: BuiltNode<K, R>>(
    alloc: Global,
    plan: Plan<'_>,
    place: &Location,
    part: Part<K, R, N>,
    taken: TakenNeighbours<R, N>,
    keywords: &mut Vec<KeywordOver<K, R, N>>,
) -> Result<(), AllocError>
    ensures { OnOk result ((I : StepsOf (kit K.Leaf R.RegexEngine))
        → AppendsTaking I N.answers part.shape
        part.location part.nodes.items taken place.now (planned plan.entry)
        keywords.old.items keywords.new.items) }
{
    match make_taking(alloc, plan, place, part, taken)? {
        Some(keyword) => append(keywords, keyword),
        None => Ok(()),
    }
}

/// What is taken where nothing is.
pub fn take_nothing<R, N>() -> TakenNeighbours<R, N> {
    TakenNeighbours {
        cases: Cases::none(),
        beside: Beside::none(),
    }
}

/// Appends the keyword of a part that may be no leaf, as `append_alone` does.
#[inline(never)]
fn append_other<K: Leaf, R: RegexEngine, N: BuiltNode<K, R>>(
    alloc: Global,
    plan: Plan<'_>,
    place: &Location,
    part: Part<K, R, N>,
    keywords: &mut Vec<KeywordOver<K, R, N>>,
) -> Result<(), AllocError>
    ensures { OnOk result ((I : StepsOf (kit K.Leaf R.RegexEngine))
        → AppendsAlone I N.answers part.shape
        part.location part.nodes.items place.now (planned plan.entry)
        keywords.old.items keywords.new.items) }
{
    let mut nothing = take_nothing();
    match make_keyword(alloc, plan, place, &mut nothing, part)? {
        Some(keyword) => append(keywords, keyword),
        None => Ok(()),
    }
}

/// Appends the keyword of a part that takes nothing, if it is read and the plan names no other for
/// it. Most parts are leaves, so these are made here.
#[inline(always)]
pub fn append_alone<K: Leaf, R: RegexEngine, N: BuiltNode<K, R>>(
    alloc: Global,
    plan: Plan<'_>,
    place: &Location,
    part: Part<K, R, N>,
    keywords: &mut Vec<KeywordOver<K, R, N>>,
) -> Result<(), AllocError>
    ensures { OnOk result ((I : StepsOf (kit K.Leaf R.RegexEngine))
        → AppendsAlone I N.answers part.shape
        part.location part.nodes.items place.now (planned plan.entry)
        keywords.old.items keywords.new.items) }
{
    let Part {
        location,
        shape,
        nodes,
    } = part;
    match shape {
        Shape::Leaf(leaf) => append(keywords, KeywordOver::Leaf(location, leaf)),
        shape => {
            let part = Part {
                location,
                shape,
                nodes,
            };
            append_other(alloc, plan, place, part, keywords)
        }
    }
}
