//! Reading a pattern.
ghost use Rattle.std.specs.Prelude.{◌≡◌, IfOk};
ghost use Rattle.olk_regexes.specs.Syntax.{group, ends_sequence, of_item, closed, is_plain, repeated_by, simple, choice, alternatives, sequence, item, atom};
ghost use Rattle.olk_regexes.specs.Language.{one, seq, alt};
ghost use Rattle.olk_regexes.specs.Escapes.{char};
ghost use Rattle.olk_regexes.specs.Seen.{seen, item_of};
ghost use Rattle.olk_regexes.specs.Trees.{expr_of, seen_tree};

use crate::class::{Characters, Class};
use crate::classes::read_class;
use crate::counts::read_counts;
use crate::escapes::{Item, read_escape};
use crate::search::{END, START};
use crate::sets::LINE_ENDS;
use crate::tree::Tree;
use std::alloc::{AllocError, Global};

// Whether no further part of a sequence stands here.
fn is_sequence_end(text: &[char]) -> bool
    ensures { result ≡ ends_sequence text.now }
{
    match text {
        [] => true,
        [c, ..] => *c == '|' || *c == ')',
    }
}

// What stands in a group, behind `?:` if that is there.
fn group_body(text: &[char]) -> Option<&[char]>
    ensures { seen result ≡ group text.now }
{
    match text {
        ['?', ':', rest @ ..] => Some(rest),
        ['?', ..] => None,
        [] => None,
        _ => Some(text),
    }
}

// A character of one of the members, or, negated, of none.
fn one_of(alloc: Global, negated: bool, members: &[Characters]) -> Result<Tree, AllocError>
    ensures { IfOk result (λ t. expr_of t ≡ one negated members.now) }
{
    let members = Vec::from_slice(alloc, members)?;
    Ok(Tree::One(Class { negated, members }))
}

/// The character, or what stands for `^` or `$`.
///
/// # Errors
///
/// There is no memory.
pub fn one(alloc: Global, c: u32) -> Result<Tree, AllocError>
    ensures { IfOk result (λ t. expr_of t ≡ of_item (char c)) }
{
    one_of(alloc, false, &[Characters::Range { low: c, high: c }])
}

fn of_item(alloc: Global, item: Item) -> Result<Tree, AllocError>
    ensures { IfOk result (λ t. expr_of t ≡ of_item (item_of item)) }
{
    match item {
        Item::Char(c) => one(alloc, c),
        Item::Set(set) => one_of(alloc, false, set),
        Item::Property(property) => one_of(alloc, false, &[property]),
    }
}

// Whether the character stands for itself.
fn is_plain(c: char) -> bool
    ensures { result ≡ is_plain c }
{
    !matches!(c, '^' | '$' | '*' | '+' | '?' | '{' | '}' | ']' | ')' | '|')
}

// A character, or a set of them, that begins with `c`.
fn read_simple(alloc: Global, c: char, text: &[char]) -> Result<Option<(Tree, &[char])>, AllocError>
    ensures { IfOk result (λ r. seen_tree r ≡ simple c text.now) }
{
    match c {
        '.' => Ok(Some((one_of(alloc, true, &LINE_ENDS)?, text))),
        '[' => match read_class(alloc, text)? {
            Some((class, rest)) => Ok(Some((Tree::One(class), rest))),
            None => Ok(None),
        },
        '\\' => match read_escape(text) {
            Some((item, rest)) => Ok(Some((of_item(alloc, item)?, rest))),
            None => Ok(None),
        },
        _ => if is_plain(c) {
            Ok(Some((one(alloc, c as u32)?, text)))
        } else {
            Ok(None)
        },
    }
}

/// A part that a group's end follows, and what is behind that.
pub fn closed(part: Tree, text: &[char]) -> Option<(Tree, &[char])>
    ensures { seen_tree result ≡ closed (expr_of part) text.now }
{
    match text {
        [')', rest @ ..] => Some((part, rest)),
        _ => None,
    }
}

/// The first part, and then the second.
///
/// # Errors
///
/// There is no memory.
pub fn then(alloc: Global, first: Tree, second: Tree) -> Result<Tree, AllocError>
    ensures { IfOk result (λ t. expr_of t ≡ seq (expr_of first) (expr_of second)) }
{
    Ok(Tree::Then {
        first: Box::new(alloc, first)?,
        second: Box::new(alloc, second)?,
    })
}

fn or(alloc: Global, first: Tree, second: Tree) -> Result<Tree, AllocError>
    ensures { IfOk result (λ t. expr_of t ≡ alt (expr_of first) (expr_of second)) }
{
    Ok(Tree::Or {
        first: Box::new(alloc, first)?,
        second: Box::new(alloc, second)?,
    })
}

// The part as often as a quantifier behind it says.
fn read_repeated(
    alloc: Global,
    part: Tree,
    text: &[char],
) -> Result<Option<(Tree, &[char])>, AllocError>
    ensures { IfOk result (λ r. seen_tree r ≡ repeated_by (expr_of part) text.now) }
{
    match read_counts(text) {
        Some((counts, rest)) => Ok(Some((
            Tree::Repeat {
                part: Box::new(alloc, part)?,
                counts,
            },
            rest,
        ))),
        None => Ok(None),
    }
}

/// The alternatives at the start of the text, and what is behind them; none where they are not of
/// the syntax, or would take more steps.
///
/// # Errors
///
/// There is no memory.
#[cycle(reader)]
pub fn read_choice(
    alloc: Global,
    steps: u32,
    text: &[char],
) -> Result<Option<(Tree, &[char])>, AllocError>
    ensures { IfOk result (λ r. seen_tree r ≡ choice steps text.now) }
{
    if steps == 0 {
        return Ok(None);
    }
    match read_sequence(alloc, steps - 1, text)? {
        Some((first, rest)) => Ok(read_alternatives(alloc, steps - 1, first, rest)?),
        None => Ok(None),
    }
}

// The alternatives behind `first`, and it.
#[cycle(reader)]
fn read_alternatives(
    alloc: Global,
    steps: u32,
    first: Tree,
    text: &[char],
) -> Result<Option<(Tree, &[char])>, AllocError>
    ensures { IfOk result (λ r. seen_tree r ≡ alternatives steps (expr_of first) text.now) }
{
    if steps == 0 {
        return Ok(None);
    }
    match text {
        ['|', rest @ ..] => match read_sequence(alloc, steps - 1, rest)? {
            Some((second, rest)) => {
                let both = or(alloc, first, second)?;
                Ok(read_alternatives(alloc, steps - 1, both, rest)?)
            }
            None => Ok(None),
        },
        _ => Ok(Some((first, text))),
    }
}

/// The sequence at the start of the text, and what is behind it; none where it is not of the
/// syntax, or would take more steps.
///
/// # Errors
///
/// There is no memory.
#[cycle(reader)]
pub fn read_sequence(
    alloc: Global,
    steps: u32,
    text: &[char],
) -> Result<Option<(Tree, &[char])>, AllocError>
    ensures { IfOk result (λ r. seen_tree r ≡ sequence steps text.now) }
{
    if steps == 0 {
        return Ok(None);
    }
    if is_sequence_end(text) {
        return Ok(Some((Tree::Blank, text)));
    }
    match read_item(alloc, steps - 1, text)? {
        Some((first, rest)) => if is_sequence_end(rest) {
            Ok(Some((first, rest)))
        } else {
            match read_sequence(alloc, steps - 1, rest)? {
                Some((second, rest)) => Ok(Some((then(alloc, first, second)?, rest))),
                None => Ok(None),
            }
        },
        None => Ok(None),
    }
}

#[cycle(reader)]
fn read_item(
    alloc: Global,
    steps: u32,
    text: &[char],
) -> Result<Option<(Tree, &[char])>, AllocError>
    ensures { IfOk result (λ r. seen_tree r ≡ item steps text.now) }
{
    if steps == 0 {
        return Ok(None);
    }
    match text {
        ['^', rest @ ..] => Ok(Some((one(alloc, START)?, rest))),
        ['$', rest @ ..] => Ok(Some((one(alloc, END)?, rest))),
        [c, rest @ ..] => match read_atom(alloc, steps - 1, *c, rest)? {
            Some((part, rest)) => Ok(read_repeated(alloc, part, rest)?),
            None => Ok(None),
        },
        [] => Ok(None),
    }
}

#[cycle(reader)]
fn read_atom(
    alloc: Global,
    steps: u32,
    c: char,
    text: &[char],
) -> Result<Option<(Tree, &[char])>, AllocError>
    ensures { IfOk result (λ r. seen_tree r ≡ atom steps c text.now) }
{
    if steps == 0 {
        return Ok(None);
    }
    match c {
        '(' => match group_body(text) {
            Some(body) => match read_choice(alloc, steps - 1, body)? {
                Some((part, rest)) => Ok(closed(part, rest)),
                None => Ok(None),
            },
            None => Ok(None),
        },
        _ => Ok(read_simple(alloc, c, text)?),
    }
}
