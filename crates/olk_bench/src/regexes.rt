//! A plain matcher of texts.
ghost use Rattle.std.specs.Prelude.{◌≡◌, IfOk, MatchOption, true, false, string_bytes, bytes_eq, nat_eq, option_map, length, drop, chars, IsTrue, nat_lt};
ghost use Rattle.std.specs.List.{starts_with, ends_with, list_all};
ghost use Rattle.olk_spec.specs.Names.{is_empty};
ghost use Rattle.olk_spec.specs.Literals.{body_of};
ghost use Rattle.olk_spec.specs.Bench.{bench_pattern, text_pattern, slow_pattern, has_text_at, is_in};
ghost use Rattle.olk_bench.specs.Regexes.{pattern_of, IsBodyRead};

use olk_base::{MakeError, MakeRegex, Meter, RegexEngine, Unfinished, scan_body};
use std::alloc::{AllocError, Global};

/// A text that a name is searched for. Asking it is counted.
#[derive(Drop)]
pub enum BenchRegex {
    /// The text is in the name: at its start, at its end, both, or anywhere.
    Text {
        at_start: bool,
        at_end: bool,
        text: String,
    },
    /// The match is left unfinished where the text is in the name, and is none elsewhere.
    Slow(String),
}

impl RegexEngine for BenchRegex {
    ghost use Rattle.std.specs.Prelude.{true};
    ghost use Rattle.olk_spec.specs.Bench.{bench, bench_pattern_says};
    ghost use Rattle.olk_bench.specs.Regexes.{pattern_of};

    ghost builds = { bench.builds };

    ghost says = { bench.says };

    ghost answers = { λ e n. bench_pattern_says (pattern_of e) n };

    ghost costs = { λ e. true };

    fn is_match(&self, text: &str, meter: &mut Meter) -> Result<bool, Unfinished> {
        meter.tick_asked();
        match self {
            BenchRegex::Text {
                at_start,
                at_end,
                text: part,
            } => Ok(has_text_at(*at_start, *at_end, part.as_str(), text)),
            BenchRegex::Slow(part) => if contains(text, part.as_str()) {
                Err(Unfinished)
            } else {
                Ok(false)
            },
        }
    }
}

/// Makes matchers of plain texts.
///
/// A pattern is a body, with `^` before it or not and `$` behind it or not, or `(slow)` and a body.
/// A body is one item or more, of which each is a character other than
/// `\ ^ $ . * + ? ( ) [ ] { } |`, or a backslash followed by one of these or by `/`. Every other
/// pattern is refused.
#[derive(Drop)]
pub struct BenchRegexes;

impl MakeRegex for BenchRegexes {
    type Engine = BenchRegex;

    fn make(
        &self,
        alloc: Global,
        pattern: &str,
        meter: &mut Meter,
    ) -> Result<BenchRegex, MakeError> {
        meter.tick_made();
        match read_pattern(alloc, pattern)? {
            Some(regex) => Ok(regex),
            None => Err(MakeError::Refused),
        }
    }
}

fn has_text_at(at_start: bool, at_end: bool, part: &str, name: &str) -> bool
    ensures { result ≡ has_text_at at_start at_end part.now name.now }
{
    match (at_start, at_end) {
        (true, true) => name == part,
        (true, false) => begins_with(name, part),
        (false, true) => finishes_with(name, part),
        (false, false) => contains(name, part),
    }
}

fn begins_with(name: &str, part: &str) -> bool
    ensures { result ≡ starts_with nat_eq name.now part.now }
{
    name.starts_with(part)
}

fn finishes_with(name: &str, part: &str) -> bool
    ensures { result ≡ ends_with nat_eq name.now part.now }
{
    name.ends_with(part)
}

fn contains(name: &str, part: &str) -> bool
    ensures { result ≡ is_in part.now name.now }
{
    name.contains(part)
}

fn read_pattern(alloc: Global, pattern: &str) -> Result<Option<BenchRegex>, AllocError>
    ensures { IfOk result (λ o. option_map pattern_of o ≡ bench_pattern pattern.now) }
{
    if let Some(rest) = strip_text(pattern, "(slow)") {
        read_slow(alloc, rest)
    } else if let Some(rest) = strip_text(pattern, "^") {
        read_text(alloc, true, rest)
    } else {
        read_text(alloc, false, pattern)
    }
}

/// What is left behind the prefix.
fn strip_text<'a>(text: &'a str, prefix: &str) -> Option<&'a str>
    ensures { MatchOption result (starts_with nat_eq text.now prefix.now ≡ false)
        (λ rest. (starts_with nat_eq text.now prefix.now ≡ true)
        × (rest.now ≡ drop (length prefix.now) text.now)) }
{
    text.strip_prefix(prefix)
}

/// A body behind `(slow)`.
fn read_slow(alloc: Global, pattern: &str) -> Result<Option<BenchRegex>, AllocError>
    ensures { IfOk result (λ o. option_map pattern_of o
        ≡ slow_pattern (body_of (chars pattern.now))) }
{
    match read_body(alloc, pattern)? {
        Some((text, rest)) => if is_ascii_text(rest, "") {
            Ok(Some(BenchRegex::Slow(text)))
        } else {
            Ok(None)
        },
        None => Ok(None),
    }
}

/// A body, with `$` behind it or not.
fn read_text(alloc: Global, at_start: bool, pattern: &str) -> Result<Option<BenchRegex>, AllocError>
    ensures { IfOk result (λ o. option_map pattern_of o
        ≡ text_pattern at_start (body_of (chars pattern.now))) }
{
    match read_body(alloc, pattern)? {
        Some((text, rest)) => if is_ascii_text(rest, "") {
            Ok(Some(BenchRegex::Text {
                at_start,
                at_end: false,
                text,
            }))
        } else if is_ascii_text(rest, "$") {
            Ok(Some(BenchRegex::Text {
                at_start,
                at_end: true,
                text,
            }))
        } else {
            Ok(None)
        },
        None => Ok(None),
    }
}

/// The body at the start, and what is left behind it.
fn read_body<'a>(alloc: Global, pattern: &'a str) -> Result<Option<(String, &'a str)>, AllocError>
    ensures { IfOk result (λ o. MatchOption o (is_empty (body_of (chars pattern.now)).0 ≡ true)
        (λ r. IsBodyRead (body_of (chars pattern.now)) (string_bytes r.0) (chars r.1.now))) }
{
    let (text, rest) = scan_body(alloc, pattern)?;
    if text.is_empty() {
        Ok(None)
    } else {
        Ok(Some((text, rest)))
    }
}

/// Whether the text has these characters.
fn is_ascii_text(text: &str, ascii: &str) -> bool
    requires { IsTrue (list_all (λ b. nat_lt b 128) ascii.now) }
    ensures { result ≡ bytes_eq (chars text.now) ascii.now }
{
    text == ascii
}
