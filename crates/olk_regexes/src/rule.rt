//! Reading what a pattern asks for.
ghost use Rattle.std.specs.Prelude.{◌≡◌, IfOk, option_map};
ghost use Rattle.olk_regexes.specs.Language.{seq};
ghost use Rattle.olk_regexes.specs.Escapes.{next};
ghost use Rattle.olk_regexes.specs.Seen.{seen};
ghost use Rattle.olk_regexes.specs.Syntax.{start, closed, choice, look_ahead, parse, rule, steps, unless, wanted};
ghost use Rattle.olk_regexes.specs.Trees.{expr_of, rule_of, seen_rule, seen_tree};

use crate::reader::{closed, one, read_choice, read_sequence, then};
use crate::search::START;
use crate::tree::Tree;
use std::alloc::{AllocError, Global};

/// A pattern as it was read: what is to be found in a text, and what is not to be found.
#[derive(Drop)]
pub struct Rule {
    pub wanted: Tree,
    pub refused: Option<Tree>,
}

// How deep and how far a pattern is read.
fn steps() -> u32
    ensures { result ≡ steps }
{
    2048
}

/// The pattern without look-ahead as it was read; none where it is not of the syntax.
///
/// # Errors
///
/// There is no memory.
pub fn read_tree(alloc: Global, pattern: &[char]) -> Result<Option<Tree>, AllocError>
    ensures { IfOk result (λ o. option_map expr_of o ≡ parse pattern.now) }
{
    match read_choice(alloc, steps(), pattern)? {
        Some((tree, [])) => Ok(Some(tree)),
        _ => Ok(None),
    }
}

/// What is behind `^(?!`, if the text begins so.
pub fn behind_look_ahead(text: &[char]) -> Option<&[char]>
    ensures { seen result ≡ look_ahead text.now }
{
    match text {
        ['^', '(', '?', '!', rest @ ..] => Some(rest),
        _ => None,
    }
}

fn from_start(alloc: Global, tree: Tree) -> Result<Tree, AllocError>
    ensures { IfOk result (λ t. expr_of t ≡ seq start (expr_of tree)) }
{
    let start = one(alloc, START)?;
    Ok(then(alloc, start, tree)?)
}

// The alternatives of a look-ahead, and what is behind it.
fn read_refused(alloc: Global, text: &[char]) -> Result<Option<(Tree, &[char])>, AllocError>
    ensures { IfOk result (λ r. seen_tree r ≡ next (choice steps text.now) closed) }
{
    match read_choice(alloc, steps(), text)? {
        Some((tree, rest)) => Ok(closed(tree, rest)),
        None => Ok(None),
    }
}

// The sequence behind a look-ahead for what is refused.
fn read_wanted(
    alloc: Global,
    refused: Tree,
    text: &[char],
) -> Result<Option<(Rule, &[char])>, AllocError>
    ensures { IfOk result (λ r. seen_rule r ≡ wanted (expr_of refused) text.now) }
{
    match read_sequence(alloc, steps(), text)? {
        Some((tree, rest)) => {
            let refused = from_start(alloc, refused)?;
            let wanted = from_start(alloc, tree)?;
            Ok(Some((
                Rule {
                    wanted,
                    refused: Some(refused),
                },
                rest,
            )))
        }
        None => Ok(None),
    }
}

fn read_unless(alloc: Global, text: &[char]) -> Result<Option<(Rule, &[char])>, AllocError>
    ensures { IfOk result (λ r. seen_rule r ≡ unless text.now) }
{
    match read_refused(alloc, text)? {
        Some((refused, rest)) => Ok(read_wanted(alloc, refused, rest)?),
        None => Ok(None),
    }
}

/// What the pattern asks for; none where it is not of the syntax.
///
/// # Errors
///
/// There is no memory.
pub fn read_rule(alloc: Global, pattern: &[char]) -> Result<Option<Rule>, AllocError>
    ensures { IfOk result (λ o. option_map rule_of o ≡ rule pattern.now) }
{
    match behind_look_ahead(pattern) {
        Some(rest) => match read_unless(alloc, rest)? {
            Some((rule, [])) => Ok(Some(rule)),
            _ => Ok(None),
        },
        None => match read_tree(alloc, pattern)? {
            Some(wanted) => Ok(Some(Rule {
                wanted,
                refused: None,
            })),
            None => Ok(None),
        },
    }
}
