//! `patternProperties`: how it is read, compiled and made.
ghost use Rattle.std.specs.Prelude.{◌≡◌, ◌∷◌, [], IfOk, IfErr, OnOk, string_bytes, codes, is_none, length, zip};
ghost use Rattle.serde_json.specs.Data.{string};
ghost use Rattle.serde_json.specs.View.{members_view, view};
ghost use Rattle.olk_spec.specs.Faults.{fault, Regex};
ghost use Rattle.olk_spec.specs.Schemas.{listed, members};
ghost use Rattle.olk_reports.specs.Paths.{one_below};
ghost use Rattle.olk_base.specs.Kit.{kit, world};
ghost use Rattle.olk_tree.specs.Steps.{StepsOf, layer};
ghost use Rattle.olk_meaning.specs.PatternProperties.{pattern_faults, matcher_made};
ghost use Rattle.olk_build.specs.Refusing.{TellsOneOf, Spends, Refuses};
ghost use Rattle.olk_build.specs.Reading.{IsPattern, PatternsAreRead, RefusesPatterns, IsRead, RefusesKeyword};
ghost use Rattle.olk_meaning.specs.Conditions.{Known, is_restricted};
ghost use Rattle.std.specs.Option.{IfNone};
ghost use Rattle.olk_build.specs.Forms.{IsPatternProperties, IsFormOfPatternProperties};
ghost use Rattle.olk_build.specs.Building.{IsMember, PatternsAreBuilt, RefusesPatternEntries};
ghost use Rattle.olk_build.specs.Taking.{GivesMember, Gives};
ghost use Rattle.olk_build.specs.Making.{MakesMember};
ghost use Rattle.olk_build.specs.declared.shape.Shape.TheVariants as shape;

use crate::context::Makers;
use crate::reading::members_of_object;
use crate::refusal::Stop;
use crate::shape::Shape;
use crate::{Context, compile_declared, compile_keyword};
use olk_base::{
    CompiledPattern, Leaf, MakeError, MakeLeaf, MakeRegex, Meter, Node, RegexEngine, append,
    compile_pattern,
};
use olk_meaning::is_restricted;
use olk_reports::{BuildError, Location, ValidationError, ValidationErrorKind};
use olk_tree::built_node::BuiltNode;
use olk_tree::node::KeywordOver;
use olk_tree::pattern_properties::{PatternProperties, SingleValuePatternProperties};
use serde_json::{Map, Value};
use std::alloc::{AllocError, Global};

/// The refusal of a pattern, as a bare name below the keyword; out of memory where there is none
/// for the place.
fn refuse_pattern<'a>(alloc: Global, location: &Location, pattern: &'a String) -> Stop<'a>
    ensures { TellsOneOf
        (fault Regex (string (string_bytes pattern.now)) []
        (one_below location.now (string_bytes pattern.now)) ∷ []) result }
{
    match location.join(alloc, pattern.as_str()) {
        Ok(place) => {
            let error = ValidationError::refusing(
                ValidationErrorKind::Regex,
                Node::Name(pattern.as_str()),
                String::new(alloc),
                place,
            );
            Stop::refusing(alloc, error)
        }
        Err(error) => Stop::from(error),
    }
}

/// A pattern, ready to be asked; one that stands for a test costs nothing.
fn read_pattern<'a, L: MakeLeaf, M: MakeRegex>(
    alloc: Global,
    makers: &Makers<'_, L, M>,
    meter: &mut Meter,
    location: &Location,
    pattern: &'a String,
) -> Result<CompiledPattern<M::Engine>, Stop<'a>>
    ensures pattern { IfOk result (λ p. IsPattern (kit L.Leaf.Leaf M.Engine.RegexEngine)
        p (string_bytes pattern.now)) }
    ensures right { OnOk result (pattern_faults (world L.Leaf.Leaf M.Engine.RegexEngine)
        location.now (string_bytes pattern.now) ≡ []) }
    ensures spends { OnOk result (Spends meter.old meter.new
        (matcher_made (world L.Leaf.Leaf M.Engine.RegexEngine) (string_bytes pattern.now))) }
    ensures refused { IfErr result (Refuses (pattern_faults
        (world L.Leaf.Leaf M.Engine.RegexEngine) location.now (string_bytes pattern.now))
        (matcher_made (world L.Leaf.Leaf M.Engine.RegexEngine) (string_bytes pattern.now))
        meter.old meter.new) }
{
    match compile_pattern(alloc, makers.regexes, pattern.as_str(), meter) {
        Ok(compiled) => Ok(compiled),
        Err(MakeError::Refused) => Err(refuse_pattern(alloc, location, pattern)),
        Err(MakeError::Memory(error)) => Err(Stop::from(error)),
    }
}

/// The patterns of an object's entries, in the order of their bytes; each that stands for a test
/// costs nothing.
///
/// # Errors
///
/// The first pattern that does not build is refused, as a bare name below the keyword at the place;
/// else out of memory.
pub(crate) fn patterns_of_entries<'a, L: MakeLeaf, M: MakeRegex>(
    alloc: Global,
    makers: &Makers<'_, L, M>,
    meter: &mut Meter,
    location: &Location,
    entries: &'a Map<String, Value>,
) -> Result<Vec<CompiledPattern<M::Engine>>, Stop<'a>>
    ensures read { IfOk result (λ v. PatternsAreRead (kit L.Leaf.Leaf M.Engine.RegexEngine)
        v.items (listed (members_view entries.now.entries)) location.now meter.old meter.new) }
    ensures refused { IfErr result (RefusesPatterns (kit L.Leaf.Leaf M.Engine.RegexEngine)
        (listed (members_view entries.now.entries)) location.now meter.old meter.new) }
{
    let mut patterns = Vec::with_capacity(alloc, entries.len())?;
    for (pattern, _) in entries {
        let compiled = read_pattern(alloc, makers, meter, location, pattern)?;
        append(&mut patterns, compiled)?;
    }
    Ok(patterns)
}

/// The shape of `patternProperties`: its patterns, in the order of its entries.
pub(crate) fn shape_of_patterns<'a, L: MakeLeaf, M: MakeRegex>(
    alloc: Global,
    makers: &Makers<'_, L, M>,
    meter: &mut Meter,
    location: &Location,
    value: &'a Value,
) -> Result<Shape<L::Leaf, M::Engine>, Stop<'a>>
    ensures built { IfOk result (λ x. (c : Known)
        → IsRead (kit L.Leaf.Leaf M.Engine.RegexEngine) x c (codes "patternProperties")
        (view value.now) location.now meter.old meter.new) }
    ensures refused { IfErr result (RefusesKeyword (kit L.Leaf.Leaf M.Engine.RegexEngine)
        (codes "patternProperties") (view value.now) location.now meter.old meter.new) }
{
    let entries = members_of_object(alloc, location, value)?;
    let patterns = patterns_of_entries(alloc, makers, meter, location, entries)?;
    Ok(Shape::PatternProperties(patterns))
}

/// The keyword of `patternProperties` in the object at the context's place (JSON Schema 2020-12
/// Core, 10.3.2.2); none where `additionalProperties` of the parent is `false` or an object, since
/// that keyword then stands for the patterns too.
///
/// The meter rises by the cost of the keyword, or by a part of it where nothing is built; the
/// context's place is left as it was.
///
/// # Errors
///
/// One of the malformations of the keyword; else out of memory.
pub fn compile<'a, L: MakeLeaf, M: MakeRegex, N: BuiltNode<L::Leaf, M::Engine>>(
    alloc: Global,
    ctx: &mut Context<'_, L, M>,
    parent: &'a Map<String, Value>,
    schema: &'a Value,
) -> Option<Result<KeywordOver<L::Leaf, M::Engine, N>, BuildError<'a>>>
    ensures gives { GivesMember (layer L.Leaf.Leaf M.Engine.RegexEngine)
        (members_view parent.now.entries) (codes "patternProperties", view schema.now)
        ctx.old.place ctx.old.meter.now ctx.new.meter.now N.answers result }
    ensures form { Gives (members_view parent.now.entries)
        (codes "patternProperties", view schema.now) result
        (IsPatternProperties (one_below ctx.old.place (codes "patternProperties"))
        (length (members (view schema.now)))) }
    ensures unread { IsMember (members_view parent.now.entries)
        (codes "patternProperties", view schema.now)
        → is_none result ≡ is_restricted (members_view parent.now.entries) }
    ensures unread_at_no_cost { IsMember (members_view parent.now.entries)
        (codes "patternProperties", view schema.now)
        → IfNone result (ctx.new.meter.now ≡ ctx.old.meter.now) }
    ensures place { ctx.new.place ≡ ctx.old.place }
    ensures same_meter { ctx.new.meter.ghost_name ≡ ctx.old.meter.ghost_name }
{
    if is_restricted(parent) {
        return None;
    }
    compile_keyword(alloc, ctx, parent, "patternProperties", schema)
}

/// The patterns, in the order of their bytes, and beside each the node of its subschema, below
/// `patternProperties` at the context's place (JSON Schema 2020-12 Core, 10.3.2.2).
///
/// The meter rises by the cost of the patterns and subschemas, or by a part of it where nothing is
/// built; the context's place is left as it was.
///
/// # Errors
///
/// A pattern that does not build, or one of the subschemas' malformations; else out of memory.
pub fn compile_patterns<'a, L: MakeLeaf, M: MakeRegex, N: BuiltNode<L::Leaf, M::Engine>>(
    alloc: Global,
    ctx: &mut Context<'_, L, M>,
    patterns: &'a Map<String, Value>,
) -> Result<Vec<(CompiledPattern<M::Engine>, N)>, BuildError<'a>>
    ensures built { IfOk result (λ v. PatternsAreBuilt (layer L.Leaf.Leaf M.Engine.RegexEngine)
        N.answers v.items (listed (members_view patterns.now.entries))
        (one_below ctx.old.place (codes "patternProperties"))
        ctx.old.meter.now ctx.new.meter.now) }
    ensures refused { IfErr result (RefusesPatternEntries
        (layer L.Leaf.Leaf M.Engine.RegexEngine) (listed (members_view patterns.now.entries))
        (one_below ctx.old.place (codes "patternProperties"))
        ctx.old.meter.now ctx.new.meter.now) }
    ensures place { ctx.new.place ≡ ctx.old.place }
    ensures same_meter { ctx.new.meter.ghost_name ≡ ctx.old.meter.ghost_name }
{
    let location = ctx.place.join(alloc, "patternProperties")?;
    let compiled = patterns_of_entries(alloc, &ctx.makers, ctx.meter, &location, patterns)?;
    let nodes = compile_declared(alloc, ctx, "patternProperties", patterns)?;
    Ok(with_nodes(alloc, compiled, nodes)?)
}

/// Each pattern with its node, as far as there are both.
///
/// # Errors
///
/// Out of memory.
pub(crate) fn with_nodes<R: Drop, N: Drop>(
    alloc: Global,
    patterns: Vec<CompiledPattern<R>>,
    nodes: Vec<N>,
) -> Result<Vec<(CompiledPattern<R>, N)>, AllocError>
    ensures { IfOk result (λ es. es.items ≡ zip patterns.items nodes.items) }
{
    let mut entries = Vec::with_capacity(alloc, patterns.len())?;
    for entry in patterns.into_iter().zip(nodes) {
        append(&mut entries, entry)?;
    }
    Ok(entries)
}

/// The form over the patterns and their nodes: that of one pattern, or that of none or several.
fn form<K, R: Drop, N: Drop>(
    alloc: Global,
    location: Location,
    mut patterns: Vec<(CompiledPattern<R>, N)>,
) -> Result<KeywordOver<K, R, N>, AllocError>
    ensures { IfOk result (IsFormOfPatternProperties location patterns.items) }
{
    if patterns.len() == 1
        && let Some((regex, node)) = patterns.pop()
    {
        let keyword = SingleValuePatternProperties {
            regex,
            node,
            location,
        };
        Ok(KeywordOver::SingleValuePatternProperties(Box::new(alloc, keyword)?))
    } else {
        Ok(KeywordOver::PatternProperties(PatternProperties { patterns, location }))
    }
}

/// The validator of the patterns and their nodes.
///
/// # Errors
///
/// Out of memory.
pub(crate) fn make<K: Leaf, R: RegexEngine, N: BuiltNode<K, R>>(
    alloc: Global,
    location: Location,
    patterns: Vec<CompiledPattern<R>>,
    nodes: Vec<N>,
) -> Result<KeywordOver<K, R, N>, AllocError>
    ensures form { IfOk result (IsPatternProperties location
        (length (zip patterns.items nodes.items))) }
    ensures makes { IfOk result (λ k. (I : StepsOf (kit K.Leaf R.RegexEngine))
        → MakesMember I N.answers (shape.PatternProperties patterns) location nodes.items (k ∷
        [])) }
{
    let entries = with_nodes(alloc, patterns, nodes)?;
    form(alloc, location, entries)
}
