//! Patterns that stand for a plain test of a text.
ghost use Rattle.std.specs.Prelude.{◌≡◌, ◌≢◌, ℕ, List, ◌<◌, ◌≤◌, [], ◌∷◌, MatchOption, IfSome, IfOk, IsTrue, length, map, chars, string_bytes, encode_utf8_all, bytes_eq, nat_lt, option_map};
ghost use Rattle.std.specs.List.{list_all};
ghost use Rattle.olk_spec.specs.Literals.{anchored, suffix, body_of, bodies_of, alternation, literal, Literal, IsPatternOf, is_one_of, put_front, is_special, is_escapable, is_ecma_whitespace, has_ecma_whitespace};
ghost use Rattle.olk_base.specs.Optimization.{test_of};

use std::alloc::{AllocError, Global};

const FEWEST_ALTERNATIVES: usize = 2;

/// The test that a pattern stands for.
#[derive(Debug, PartialEq, Eq, Drop)]
pub enum PatternOptimization {
    /// `^` and a body: the name starts with the text.
    Prefix(String),
    /// A body and `$`: the name ends with the text.
    Suffix(String),
    /// `^`, a body and `$`: the name is the text.
    Exact(String),
    /// `^(`, two bodies or more with `|` between them, and `)$`: the name is one of the texts.
    Alternation(Vec<String>),
    /// `^\S*$`: the name has no white space.
    NoWhitespace,
}

/// The test that the pattern stands for, if it stands for one (the grammar is this project's own).
/// The only error is out of memory.
///
/// A body is one item or more. An item is a character other than `\ ^ $ . * + ? ( ) [ ] { } |`, or
/// a backslash followed by one of these or by `/`, for the character behind it.
pub fn analyze_pattern(
    alloc: Global,
    pattern: &str,
) -> Result<Option<PatternOptimization>, AllocError>
    ensures grammar { IfOk result
        (λ o. MatchOption o ((l : Literal) → ¬ IsPatternOf l (chars pattern.now))
        (λ t. IsPatternOf (test_of t) (chars pattern.now))) }
    ensures value { IfOk result (λ o. option_map test_of o ≡ literal pattern.now) }
{
    scan_pattern(alloc, pattern)
}

/// Whether one of the 25 white space characters and line terminators of ECMA-262 (12.2 and 12.3)
/// stands in the text.
pub fn contains_ecma_whitespace(text: &str) -> bool
    ensures { result ≡ has_ecma_whitespace text.now }
{
    text.chars().any(is_ecma_whitespace)
}

fn is_ecma_whitespace(c: char) -> bool
    ensures { result ≡ is_ecma_whitespace c }
{
    matches!(
        c,
        '\u{9}'..='\u{d}'
            | '\u{20}'
            | '\u{a0}'
            | '\u{1680}'
            | '\u{2000}'..='\u{200a}'
            | '\u{2028}'
            | '\u{2029}'
            | '\u{202f}'
            | '\u{205f}'
            | '\u{3000}'
            | '\u{feff}'
    )
}

fn scan_pattern(alloc: Global, pattern: &str) -> Result<Option<PatternOptimization>, AllocError>
    ensures { IfOk result (λ o. option_map test_of o ≡ literal pattern.now) }
{
    if is_ascii_text(pattern, "^\\S*$") {
        Ok(Some(PatternOptimization::NoWhitespace))
    } else if let Some(rest) = strip_char(pattern, '^') {
        scan_anchored(alloc, rest)
    } else {
        scan_suffix(alloc, pattern)
    }
}

/// What stands behind `^`.
fn scan_anchored(alloc: Global, pattern: &str) -> Result<Option<PatternOptimization>, AllocError>
    ensures { IfOk result (λ o. option_map test_of o ≡ anchored (chars pattern.now)) }
{
    if let Some(bodies) = strip_char(pattern, '(') {
        let texts = scan_alternation(alloc, bodies)?;
        return Ok(texts.map(PatternOptimization::Alternation));
    }
    let (text, rest) = scan_body(alloc, pattern)?;
    if text.is_empty() {
        Ok(None)
    } else if is_ascii_text(rest, "") {
        Ok(Some(PatternOptimization::Prefix(text)))
    } else if is_ascii_text(rest, "$") {
        Ok(Some(PatternOptimization::Exact(text)))
    } else {
        Ok(None)
    }
}

fn scan_suffix(alloc: Global, pattern: &str) -> Result<Option<PatternOptimization>, AllocError>
    ensures { IfOk result (λ o. option_map test_of o ≡ suffix (body_of (chars pattern.now))) }
{
    let (text, end) = scan_body(alloc, pattern)?;
    if text.is_empty() {
        Ok(None)
    } else if is_ascii_text(end, "$") {
        Ok(Some(PatternOptimization::Suffix(text)))
    } else {
        Ok(None)
    }
}

/// The bodies behind `^(`, with `|` between them and `)$` behind them.
fn scan_alternation(alloc: Global, pattern: &str) -> Result<Option<Vec<String>>, AllocError>
    ensures { IfOk result (λ o. option_map (λ v. is_one_of (map string_bytes v.items)) o
        ≡ alternation (bodies_of (chars pattern.now))) }
{
    let mut texts = Vec::new(alloc);
    let mut rest = pattern;
    loop {
        let (text, after) = scan_body(alloc, rest)?;
        if text.is_empty() {
            return Ok(None);
        }
        texts.push(text)?;
        if let Some(next) = strip_char(after, '|') {
            rest = next;
        } else if texts.len() < FEWEST_ALTERNATIVES {
            return Ok(None);
        } else if is_ascii_text(after, ")$") {
            return Ok(Some(texts));
        } else {
            return Ok(None);
        }
    }
}

/// The text of the items at the start of a pattern, as many as there are, and what is left behind
/// them. The only error is out of memory.
///
/// Items are those of [`analyze_pattern`]. Where the pattern does not begin with one, the text is
/// empty and the whole pattern is left.
pub fn scan_body<'a>(alloc: Global, pattern: &'a str) -> Result<(String, &'a str), AllocError>
    ensures text { IfOk result
        (λ r. string_bytes r.0 ≡ encode_utf8_all (body_of (chars pattern.now)).0) }
    ensures rest { IfOk result (λ r. chars r.1.now ≡ (body_of (chars pattern.now)).1) }
    ensures shorter { IfOk result (λ r. length r.1.now ≤ length pattern.now) }
{
    let mut text = String::new(alloc);
    let mut rest = pattern;
    while let Some((c, after)) = split_item(rest) {
        text.push(c)?;
        rest = after;
    }
    Ok((text, rest))
}

/// The item at the start, as the character that it stands for.
fn split_item(pattern: &str) -> Option<(char, &str)>
    ensures body { MatchOption result (body_of (chars pattern.now) ≡ ([], chars pattern.now))
        (λ x. body_of (chars pattern.now) ≡ put_front x.0 (body_of (chars x.1.now))) }
    ensures shorter { IfSome result (λ x. length x.1.now < length pattern.now) }
{
    let (first, rest) = split_char(pattern)?;
    if first == '\\' {
        let (escaped, after) = split_char(rest)?;
        if is_escapable(escaped) {
            Some((escaped, after))
        } else {
            None
        }
    } else if is_special(first) {
        None
    } else {
        Some((first, rest))
    }
}

fn is_escapable(c: char) -> bool
    ensures { result ≡ is_escapable c }
{
    c == '/' || is_special(c)
}

fn is_special(c: char) -> bool
    ensures { result ≡ is_special c }
{
    matches!(
        c,
        '\\' | '^' | '$' | '.' | '*' | '+' | '?' | '(' | ')' | '[' | ']' | '{' | '}' | '|'
    )
}

fn strip_char(text: &str, c: char) -> Option<&str>
    ensures cases { MatchOption result ((rest : List ℕ) → chars text.now ≢ c ∷ rest)
        (λ x. chars text.now ≡ c ∷ chars x.now) }
    ensures shorter { IfSome result (λ x. length x.now < length text.now) }
{
    let (first, rest) = split_char(text)?;
    if first == c { Some(rest) } else { None }
}

fn split_char(text: &str) -> Option<(char, &str)>
    ensures cases { MatchOption result (chars text.now ≡ [])
        (λ x. chars text.now ≡ x.0 ∷ chars x.1.now) }
    ensures shorter { IfSome result (λ x. length x.1.now < length text.now) }
{
    let mut chars = text.chars();
    let first = chars.next()?;
    Some((first, chars.as_str()))
}

/// Whether the text has these characters.
fn is_ascii_text(text: &str, ascii: &str) -> bool
    requires { IsTrue (list_all (λ b. nat_lt b 128) ascii.now) }
    ensures { result ≡ bytes_eq (chars text.now) ascii.now }
{
    text == ascii
}
