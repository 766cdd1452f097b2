//! Patterns, as an engine of texts.
ghost use Rattle.std.specs.Prelude.{◌≡◌, true, Some, IfOk};
ghost use Rattle.std.specs.Bool.{Decides};
ghost use Rattle.std.specs.Str.{chars};
ghost use Rattle.olk_regexes.specs.Built.{rule_of_engine, seen_engine, seen_part};
ghost use Rattle.olk_regexes.specs.Edges.{is_placed};
ghost use Rattle.olk_regexes.specs.Language.{Text, Expr, Finds, framed, seq};
ghost use Rattle.olk_regexes.specs.Places.{BeginsAt, IsChar, FindsAt};
ghost use Rattle.olk_spec.specs.Names.{Name};
ghost use Rattle.std.specs.List.{All};
ghost use Rattle.olk_regexes.specs.Marks.{expr, matches};
ghost use Rattle.olk_regexes.specs.Search.{finds};
ghost use Rattle.olk_regexes.specs.Limits.{fitting};
ghost use Rattle.olk_regexes.specs.Rules as rules;
ghost use Rattle.olk_regexes.specs.Says.{IsPlaced, beside, beside_built, placed, rule_of_pattern};
ghost use Rattle.olk_regexes.specs.Syntax.{start};
ghost use Rattle.olk_regexes.specs.Trees.{expr_of, rule_of};

use crate::build::build;
use crate::part::Part;
use crate::rule::{Rule, read_rule};
use crate::size::measure;
use crate::tree::Tree;
use olk_base::{MakeError, MakeRegex, Meter, RegexEngine, Unfinished};
use std::alloc::{AllocError, Global};

/// A pattern that was built. Asking it is counted.
#[derive(Drop)]
pub struct Pattern {
    wanted: Part,
    refused: Option<Part>,
}

impl Pattern {
    /// The pattern, to be asked without counting; none where it is refused.
    ///
    /// # Errors
    ///
    /// There is no memory.
    pub fn new(alloc: Global, pattern: &str) -> Result<Option<Pattern>, AllocError>
        ensures { IfOk result (λ o. seen_engine o ≡ rule_of_pattern pattern.now) }
    {
        let pattern = characters(alloc, pattern)?;
        match read_rule(alloc, &pattern)? {
            Some(rule) => Ok(built(alloc, &rule)?),
            None => Ok(None),
        }
    }

    /// Whether the pattern is found in the text. Takes no memory.
    pub fn finds(&self, text: &str) -> bool
        ensures { result ≡ rules.meets (rule_of_engine self.now) (framed (chars text.now)) }
    {
        match &self.refused {
            Some(refused) => self.wanted.is_match(text) && !refused.is_match(text),
            None => self.wanted.is_match(text),
        }
    }
}

impl RegexEngine for Pattern {
    ghost use Rattle.std.specs.Prelude.{true};
    ghost use Rattle.olk_regexes.specs.Built.{rule_of_engine};
    ghost use Rattle.olk_regexes.specs.Says.{builds, says, says_rule};

    ghost builds = { builds };

    ghost says = { says };

    ghost answers = { λ e n. says_rule (rule_of_engine e) n };

    ghost costs = { λ e. true };

    fn is_match(&self, text: &str, meter: &mut Meter) -> Result<bool, Unfinished> {
        meter.tick_asked();
        Ok(self.finds(text))
    }
}

/// Makes engines of regular expressions: the regular part of the patterns of ECMA-262, with its
/// flag u.
///
/// Read are characters, `.`, classes, escapes of characters and of `\d \D \w \W \s \S`, groups,
/// alternatives, quantifiers and their lazy forms, `^` where nothing can stand before it, `$` where
/// nothing can stand behind it, and a negative look-ahead behind a `^` at the pattern's start.
/// Refused are other patterns, and those with an expression that has more than 1,024 sequences and
/// stars, is deeper than 1,024, or has more than 65,536 parts and ranges. Asking takes no memory,
/// and steps of the expressions' parts times the text. No match is left unfinished.
#[derive(Drop)]
pub struct Regexes;

impl MakeRegex for Regexes {
    type Engine = Pattern;

    fn make(&self, alloc: Global, pattern: &str, meter: &mut Meter) -> Result<Pattern, MakeError> {
        meter.tick_made();
        match Pattern::new(alloc, pattern)? {
            Some(engine) => Ok(engine),
            None => Err(MakeError::Refused),
        }
    }
}

/// The law of finding: the test that an engine answers by is true where a part of the text is of
/// the expression's language, and only there; and so for what is wanted and what is refused.
pub fn law_of_finding()
    ensures one { (p : Expr) → (w : Text) → Decides (finds (matches p) w) (Finds p w) }
    ensures both { (r : rules.Rule) → (w : Text) → Decides (rules.meets r w) (rules.Meets r w) }
{}

/// The law of edges: where `^` and `$` stand where they may, an expression is found in a framed
/// text exactly if it is found in the text with `^` true at its start, and `$` true at its end.
pub fn law_of_edges()
    ensures found { (p : Expr) → (w : Text) → is_placed p ≡ true → All IsChar w
        → Finds p (framed w) → FindsAt p w }
    ensures only { (p : Expr) → (w : Text) → is_placed p ≡ true
        → FindsAt p w → Finds p (framed w) }
{}

/// The law of look-ahead: a framed text has what a pattern with a look-ahead asks for exactly if
/// the wanted expression matches at the text's start, and the refused one doesn't.
pub fn law_of_look_ahead()
    ensures found { (p q : Expr) → (w : Text) → is_placed (seq start p) ≡ true
        → is_placed (seq start q) ≡ true → All IsChar w
        → rules.Meets (seq start p, Some (seq start q)) (framed w)
        → BeginsAt p w × (BeginsAt q w → ⊥) }
    ensures only { (p q : Expr) → (w : Text) → is_placed (seq start p) ≡ true
        → is_placed (seq start q) ≡ true → All IsChar w
        → BeginsAt p w → (BeginsAt q w → ⊥)
        → rules.Meets (seq start p, Some (seq start q)) (framed w) }
{}

/// The law of what is built: in the expressions of a pattern that is built `^` and `$` stand where
/// they may.
pub fn law_of_built()
    ensures { (w : Name) → (r : rules.Rule) → rule_of_pattern w ≡ Some r → IsPlaced r }
{}

/// The characters of the pattern.
///
/// # Errors
///
/// There is no memory.
pub fn characters(alloc: Global, pattern: &str) -> Result<Vec<char>, AllocError>
    ensures { IfOk result (λ v. v.items ≡ chars pattern.now) }
{
    let mut all = Vec::new(alloc);
    for c in pattern.chars() {
        all.push(c)?;
    }
    Ok(all)
}

/// The expression of the tree; none where it is refused. Nothing is built of one that is too large.
///
/// # Errors
///
/// There is no memory.
pub fn built_of(alloc: Global, tree: &Tree) -> Result<Option<Part>, AllocError>
    ensures { IfOk result (λ o. seen_part o ≡ placed (fitting (expr_of tree.now))) }
{
    if measure(tree).is_none() {
        return Ok(None);
    }
    Ok(build(alloc, tree)?.placed())
}

// What is wanted, with what is refused beside it.
fn beside(alloc: Global, wanted: Part, rule: &Rule) -> Result<Option<Pattern>, AllocError>
    ensures { IfOk result
        (λ o. seen_engine o ≡ beside (expr wanted.regex) (rule_of rule.now).1) }
{
    match &rule.refused {
        Some(tree) => match built_of(alloc, tree)? {
            Some(part) => Ok(Some(Pattern {
                wanted,
                refused: Some(part),
            })),
            None => Ok(None),
        },
        None => Ok(Some(Pattern {
            wanted,
            refused: None,
        })),
    }
}

// The expressions of what a pattern asks for; none where one is refused.
fn built(alloc: Global, rule: &Rule) -> Result<Option<Pattern>, AllocError>
    ensures { IfOk result (λ o. seen_engine o
        ≡ beside_built (placed (fitting (rule_of rule.now).0)) (rule_of rule.now).1) }
{
    match built_of(alloc, &rule.wanted)? {
        Some(wanted) => Ok(beside(alloc, wanted, rule)?),
        None => Ok(None),
    }
}
