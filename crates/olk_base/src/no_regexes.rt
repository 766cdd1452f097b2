//! A matcher for schemas whose patterns are all literal.
use crate::meter::Meter;
use crate::traits::{MakeError, MakeRegex, RegexEngine, Unfinished};
use std::alloc::Global;

/// The engine of `NoRegexes`, which makes none: it matches no text.
#[derive(Drop)]
pub struct NoRegex;

impl RegexEngine for NoRegex {
    ghost use Rattle.std.specs.Prelude.{true, false};
    ghost use Rattle.olk_spec.specs.World.{unmatched};

    ghost builds = { λ p. false };

    ghost says = { λ p n. unmatched };

    ghost answers = { λ e n. unmatched };

    ghost costs = { λ e. true };

    fn is_match(&self, _text: &str, meter: &mut Meter) -> Result<bool, Unfinished> {
        meter.tick_asked();
        Ok(false)
    }
}

/// Refuses every pattern, for schemas that have none, or literal ones alone: of those no engine is
/// made.
#[derive(Drop)]
pub struct NoRegexes;

impl MakeRegex for NoRegexes {
    type Engine = NoRegex;

    fn make(
        &self,
        _alloc: Global,
        _pattern: &str,
        meter: &mut Meter,
    ) -> Result<NoRegex, MakeError> {
        meter.tick_made();
        Err(MakeError::Refused)
    }
}
