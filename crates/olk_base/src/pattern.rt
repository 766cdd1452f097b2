//! Patterns, ready to be asked.
ghost use Rattle.std.specs.Prelude.{◌≡◌, ◌⊎◌, true, false, IfOk, IfErr, OnOk, OnErr, string_bytes, bytes_eq, nat_eq};
ghost use Rattle.std.specs.List.{list_any, starts_with, ends_with};
ghost use Rattle.olk_spec.specs.Names.{Name};
ghost use Rattle.olk_spec.specs.Meanings.{pattern_says, is_open};
ghost use Rattle.olk_base.specs.Compiled.{pattern_answers, pattern_builds, pattern_costs, count_open};
ghost use Rattle.olk_base.specs.Lawful.{matcher, IsRefused};

use crate::analysis::{PatternOptimization, analyze_pattern, contains_ecma_whitespace};
use crate::context::ValidationContext;
use crate::equality::is_same_text;
use crate::meter::Meter;
use crate::traits::{MakeError, MakeRegex, RegexEngine, Unfinished};
use std::alloc::Global;

/// A pattern as the test that it stands for, or else as an engine.
///
/// A test costs nothing and is never left unfinished; an engine has its own costs and answers.
#[derive(Drop)]
pub enum CompiledPattern<R> {
    /// The name starts with the text.
    Prefix(String),
    /// The name ends with the text.
    Suffix(String),
    /// The name is the text.
    Exact(String),
    /// The name is one of the texts.
    Alternation(Vec<String>),
    /// The name has no white space.
    NoWhitespace,
    /// An engine, which is asked.
    Regex(R),
}

impl<R> From<PatternOptimization> for CompiledPattern<R> {
    ghost use Rattle.std.specs.Prelude.{◌≡◌};
    ghost use Rattle.olk_base.specs.Compiled.{compiled_test};

    ghost from_gives = { λ test p. p ≡ compiled_test test };

    /// The test, which needs no engine.
    fn from(test: PatternOptimization) -> CompiledPattern<R> {
        match test {
            PatternOptimization::Prefix(text) => CompiledPattern::Prefix(text),
            PatternOptimization::Suffix(text) => CompiledPattern::Suffix(text),
            PatternOptimization::Exact(text) => CompiledPattern::Exact(text),
            PatternOptimization::Alternation(texts) => CompiledPattern::Alternation(texts),
            PatternOptimization::NoWhitespace => CompiledPattern::NoWhitespace,
        }
    }
}

/// A pattern, ready to be asked: as the test that it stands for, which never reaches the maker, or
/// else as an engine.
///
/// # Errors
///
/// `Refused` where the pattern stands for no test and does not build, and only there; else
/// `Memory`.
pub fn compile_pattern<M: MakeRegex>(
    alloc: Global,
    regexes: &M,
    pattern: &str,
    meter: &mut Meter,
) -> Result<CompiledPattern<M::Engine>, MakeError>
    ensures answers { IfOk result (λ p. (n : Name)
        → pattern_answers M.Engine.RegexEngine.answers p n
        ≡ pattern_says (matcher M.Engine.RegexEngine.builds M.Engine.RegexEngine.says)
        pattern.now n) }
    ensures costs { IfOk result (λ p. pattern_costs M.Engine.RegexEngine.costs p
        ≡ is_open (matcher M.Engine.RegexEngine.builds M.Engine.RegexEngine.says)
        pattern.now) }
    ensures builds { IfOk result (λ p. pattern_builds
        (matcher M.Engine.RegexEngine.builds M.Engine.RegexEngine.says) pattern.now ≡ true) }
    ensures refused { IfErr result (λ e. IsRefused e → pattern_builds
        (matcher M.Engine.RegexEngine.builds M.Engine.RegexEngine.says) pattern.now ≡ false) }
    ensures made { OnOk result (meter.new ≡ count_open pattern.now meter.old) }
    ensures made_at_most { OnErr result
        ((meter.new ≡ meter.old) ⊎ (meter.new ≡ count_open pattern.now meter.old)) }
{
    match analyze_pattern(alloc, pattern)? {
        Some(test) => Ok(CompiledPattern::from(test)),
        None => Ok(CompiledPattern::Regex(regexes.make(alloc, pattern, meter)?)),
    }
}

impl<R: RegexEngine> RegexEngine for CompiledPattern<R> {
    ghost use Rattle.olk_spec.specs.Meanings.{pattern_says};
    ghost use Rattle.olk_base.specs.Compiled.{pattern_answers, pattern_builds, pattern_costs};
    ghost use Rattle.olk_base.specs.Lawful.{matcher};

    ghost builds = { pattern_builds (matcher R.builds R.says) };

    ghost says = { pattern_says (matcher R.builds R.says) };

    ghost answers = { pattern_answers R.answers };

    ghost costs = { pattern_costs R.costs };

    fn is_match(&self, text: &str, meter: &mut Meter) -> Result<bool, Unfinished> {
        match self {
            CompiledPattern::Prefix(prefix) => Ok(begins_with(text, prefix.as_str())),
            CompiledPattern::Suffix(suffix) => Ok(finishes_with(text, suffix.as_str())),
            CompiledPattern::Exact(exact) => Ok(exact.as_str() == text),
            CompiledPattern::Alternation(texts) => Ok(is_among(texts, text)),
            CompiledPattern::NoWhitespace => Ok(!contains_ecma_whitespace(text)),
            CompiledPattern::Regex(engine) => engine.is_match(text, meter),
        }
    }
}

#[inline(always)]
fn begins_with(text: &str, prefix: &str) -> bool
    ensures { result ≡ starts_with nat_eq text.now prefix.now }
{
    let (text, prefix) = (text.as_bytes(), prefix.as_bytes());
    prefix.len() <= text.len() && prefix == &text[..prefix.len()]
}

#[inline(never)]
fn finishes_with(text: &str, suffix: &str) -> bool
    ensures { result ≡ ends_with nat_eq text.now suffix.now }
{
    let (text, suffix) = (text.as_bytes(), suffix.as_bytes());
    suffix.len() <= text.len() && suffix == &text[text.len() - suffix.len()..]
}

#[inline(never)]
fn is_among(texts: &[String], text: &str) -> bool
    ensures { result ≡ list_any (λ s. bytes_eq (string_bytes s) text.now) texts.now }
{
    texts.iter().any(|t| is_same_text(t.as_str(), text))
}

/// A pattern that is asked of the names of members within a call of a validator (JSON Schema
/// 2020-12 Core, 10.3.2.2).
pub trait PropertyPattern: RegexEngine {
    ghost use Rattle.std.specs.Prelude.{◌≡◌};
    ghost use Rattle.olk_spec.specs.World.{reads_as};
    ghost use Rattle.olk_base.specs.Lawful.{asked_of};

    /// Whether the pattern matches the text. Where the match is left unfinished, one more such
    /// match is counted, and the context's answer is given.
    fn is_match_in(&self, text: &str, ctx: &mut ValidationContext) -> bool
        ensures answer { result ≡ reads_as ctx.old.answer (Self.answers self.now text.now) }
        ensures counts { ctx.new ≡ asked_of (Self.costs self.now)
            (Self.answers self.now text.now) ctx.old };
}

impl<R: RegexEngine> PropertyPattern for CompiledPattern<R> {
    /// The commonest test is small enough to stand in walks.
    #[inline(always)]
    fn is_match_in(&self, text: &str, ctx: &mut ValidationContext) -> bool {
        match self {
            CompiledPattern::Prefix(prefix) => begins_with(text, prefix.as_str()),
            _ => ctx.is_match(self, text),
        }
    }
}
