//! Whole documents: what references name is built before what refers to it.
ghost use Rattle.std.specs.Prelude.{◌≡◌, ◌∷◌, IfOk, IfErr, OnOk};
ghost use Rattle.serde_json.specs.View.{view};
ghost use Rattle.olk_spec.specs.Names.{Text};
ghost use Rattle.olk_spec.specs.World.{World};
ghost use Rattle.olk_base.specs.Kit.{kit, world};
ghost use Rattle.olk_build.specs.Refusing.{TellsOneOf};
ghost use Rattle.olk_document_spec.specs.Malformed.{document_malformations};
ghost use Rattle.olk_document_build.specs.Documents.{HaveTheSame, references_behind, faults_behind, with_texts, AreTargets, IsMadeUnder, RefusesText, AreMadeUnder, RefusesTexts, OneMoreIsMade, IsDocument};
ghost use Rattle.olk_document_build.specs.References.{as_texts};

use crate::build::compile_at;
use crate::references::references_read;
use crate::targets::Targets;
use olk_base::{MakeLeaf, MakeRegex, append};
use olk_build::Context;
use olk_document_meaning::pointers::place_named;
use olk_documents::DocumentNode;
use olk_reports::{BuildError, Location};
use serde_json::Value;
use std::alloc::{AllocError, Global};

/// How many references are followed, one behind another. One that leads back to itself leads on
/// without end.
pub const REFERENCE_LIMIT: usize = 16;

/// The node of a document, with those of the places that its references name.
///
/// Each place that is named is compiled once, those behind it first. A reference that names no
/// place is refused, and so is one behind `REFERENCE_LIMIT` others.
///
/// # Errors
///
/// The document is refused with one of its malformations, or there was no memory.
pub fn compile_document<'a, L: MakeLeaf, M: MakeRegex>(
    alloc: Global,
    ctx: &mut Context<'_, L, M>,
    document: &'a Value,
) -> Result<DocumentNode<L::Leaf, M::Engine>, BuildError<'a>>
    ensures built { IfOk result (IsDocument (kit L.Leaf.Leaf M.Engine.RegexEngine)
        (view document.now)) }
    ensures refused { IfErr result (TellsOneOf (document_malformations
        (world L.Leaf.Leaf M.Engine.RegexEngine) (view document.now))) }
    ensures place { ctx.new.place ≡ ctx.old.place }
    ensures same_meter { ctx.new.meter.ghost_name ≡ ctx.old.meter.ghost_name }
{
    let mut texts = Vec::new(alloc);
    references_read(document, &mut texts)?;
    let targets = compile_targets(alloc, ctx, document, texts, REFERENCE_LIMIT)?;
    compile_at(alloc, ctx, &targets, Location::new(alloc), document)
}

/// The nodes of the places that these texts name, and of those behind them, where references are
/// followed `limit` times.
fn compile_targets<'a, L: MakeLeaf, M: MakeRegex>(
    alloc: Global,
    ctx: &mut Context<'_, L, M>,
    document: &'a Value,
    texts: Vec<&'a str>,
    limit: usize,
) -> Result<Targets<L::Leaf, M::Engine>, BuildError<'a>>
    ensures built { IfOk result (AreTargets (kit L.Leaf.Leaf M.Engine.RegexEngine)
        (view document.now) limit (as_texts texts.entry.items)) }
    ensures refused { IfErr result (TellsOneOf (faults_behind
        (world L.Leaf.Leaf M.Engine.RegexEngine) (view document.now) limit
        (as_texts texts.entry.items))) }
    ensures place { ctx.new.place ≡ ctx.old.place }
    ensures same_meter { ctx.new.meter.ghost_name ≡ ctx.old.meter.ghost_name }
{
    if limit == 0 {
        return Ok(Targets::new(alloc));
    }
    if texts.is_empty() {
        return Ok(Targets::new(alloc));
    }
    let round = without_repeats(texts);
    let behind = references_behind(alloc, document, &round)?;
    let mut targets = compile_targets(alloc, ctx, document, behind, limit - 1)?;
    let nodes = compile_round(alloc, ctx, &targets, document, &round)?;
    targets.append(alloc, nodes)?;
    Ok(targets)
}

/// The same texts, in byte order.
fn without_repeats(mut texts: Vec<&str>) -> Vec<&str>
    ensures { HaveTheSame (as_texts texts.entry.items) (as_texts result.items) }
{
    texts.sort_unstable();
    texts.dedup();
    texts
}

/// The texts of the references that are read at the places that these texts name.
fn references_behind<'a>(
    alloc: Global,
    document: &'a Value,
    texts: &Vec<&'a str>,
) -> Result<Vec<&'a str>, AllocError>
    ensures { IfOk result (λ behind. (W : World) → as_texts behind.items
        ≡ references_behind W (view document.now) (as_texts texts.now.items)) }
{
    let mut behind = Vec::new(alloc);
    for text in texts {
        if let Some(schema) = place_named(alloc, document, text)? {
            references_read(schema, &mut behind)?;
        }
    }
    Ok(behind)
}

/// The nodes of the places that these texts name, but for those that there are already.
fn compile_round<'a, L: MakeLeaf, M: MakeRegex>(
    alloc: Global,
    ctx: &mut Context<'_, L, M>,
    targets: &Targets<L::Leaf, M::Engine>,
    document: &'a Value,
    texts: &Vec<&'a str>,
) -> Result<Vec<(&'a str, DocumentNode<L::Leaf, M::Engine>)>, BuildError<'a>>
    ensures built { IfOk result (λ nodes. AreMadeUnder (kit L.Leaf.Leaf M.Engine.RegexEngine)
        (view document.now) targets.now (as_texts texts.now.items) (with_texts nodes.items)) }
    ensures refused { IfErr result (RefusesTexts (kit L.Leaf.Leaf M.Engine.RegexEngine)
        (view document.now) targets.now (as_texts texts.now.items)) }
    ensures place { ctx.new.place ≡ ctx.old.place }
    ensures same_meter { ctx.new.meter.ghost_name ≡ ctx.old.meter.ghost_name }
{
    let mut nodes = Vec::new(alloc);
    for text in texts {
        compile_text(alloc, ctx, targets, document, text, &mut nodes)?;
    }
    Ok(nodes)
}

/// Appends the node of the place that a text names, if it names one and there is none already.
fn compile_text<'a, L: MakeLeaf, M: MakeRegex>(
    alloc: Global,
    ctx: &mut Context<'_, L, M>,
    targets: &Targets<L::Leaf, M::Engine>,
    document: &'a Value,
    text: &'a str,
    nodes: &mut Vec<(&'a str, DocumentNode<L::Leaf, M::Engine>)>,
) -> Result<(), BuildError<'a>>
    ensures built { OnOk result (OneMoreIsMade (kit L.Leaf.Leaf M.Engine.RegexEngine)
        (view document.now) targets.now text.now (with_texts nodes.old.items)
        (with_texts nodes.new.items)) }
    ensures refused { IfErr result (RefusesText (kit L.Leaf.Leaf M.Engine.RegexEngine)
        (view document.now) targets.now text.now) }
    ensures place { ctx.new.place ≡ ctx.old.place }
    ensures same_meter { ctx.new.meter.ghost_name ≡ ctx.old.meter.ghost_name }
{
    if targets.find(text).is_some() {
        return Ok(());
    }
    match compile_target(alloc, ctx, targets, document, text)? {
        Some(node) => Ok(append(nodes, (text, node))?),
        None => Ok(()),
    }
}

/// The node of the place that a text names, if it names one.
fn compile_target<'a, L: MakeLeaf, M: MakeRegex>(
    alloc: Global,
    ctx: &mut Context<'_, L, M>,
    targets: &Targets<L::Leaf, M::Engine>,
    document: &'a Value,
    text: &str,
) -> Result<Option<DocumentNode<L::Leaf, M::Engine>>, BuildError<'a>>
    ensures built { IfOk result (IsMadeUnder (kit L.Leaf.Leaf M.Engine.RegexEngine)
        (view document.now) targets.now text.now) }
    ensures refused { IfErr result (RefusesText (kit L.Leaf.Leaf M.Engine.RegexEngine)
        (view document.now) targets.now text.now) }
    ensures place { ctx.new.place ≡ ctx.old.place }
    ensures same_meter { ctx.new.meter.ghost_name ≡ ctx.old.meter.ghost_name }
{
    match place_named(alloc, document, text)? {
        Some(schema) => {
            let location = location_of(alloc, text)?;
            let node = compile_at(alloc, ctx, targets, location, schema)?;
            Ok(Some(node))
        }
        None => Ok(None),
    }
}

/// The place that a text names: the pointer behind `#`.
fn location_of(alloc: Global, text: &str) -> Result<Location, AllocError>
    ensures { IfOk result (λ l. (rest : Text) → text.now ≡ 35 ∷ rest → l ≡ rest) }
{
    let pointer = text.strip_prefix('#').unwrap_or("");
    Location::of_pointer(alloc, pointer)
}
