//! The answer to a line.
use olk_answers::AnswerLine;
use olk_base::{MakeError, MakeRegex, Meter, RegexEngine};
use olk_regexes::{Regexes, why_refused};
use serde_json::Value;
use std::alloc::{AllocError, Global};

/// Tells whether a pattern is found in a text.
#[derive(Clone, Copy, Drop)]
pub struct Matching;

impl AnswerLine for Matching {
    ghost use Rattle.std.specs.Prelude.{ℕ, List};

    ghost gives = { λ line answer. Unit };

    fn answer(&self, alloc: Global, line: &[u8]) -> Result<Vec<u8>, AllocError> {
        match Value::from_slice(alloc, line) {
            Ok(value) => answer_pair(alloc, &value),
            Err(error) => {
                if error.is_memory() {
                    return Err(AllocError);
                }
                text(alloc, "not a pair of texts")
            }
        }
    }
}

fn text(alloc: Global, text: &str) -> Result<Vec<u8>, AllocError> {
    Vec::from_slice(alloc, text.as_bytes())
}

fn answer_pair(alloc: Global, pair: &Value) -> Result<Vec<u8>, AllocError> {
    match pair.as_array().map(Vec::as_slice) {
        Some([Value::String(pattern), Value::String(found)]) => {
            tell(alloc, pattern.as_str(), found.as_str())
        }
        _ => text(alloc, "not a pair of texts"),
    }
}

fn tell(alloc: Global, pattern: &str, found: &str) -> Result<Vec<u8>, AllocError> {
    let mut meter = Meter::new();
    match Regexes.make(alloc, pattern, &mut meter) {
        Ok(engine) => match engine.is_match(found, &mut meter) {
            Ok(true) => text(alloc, "found"),
            Ok(false) => text(alloc, "not found"),
            Err(_) => text(alloc, "unfinished"),
        },
        Err(MakeError::Refused) => tell_refusal(alloc, pattern),
        Err(MakeError::Memory(error)) => Err(error),
    }
}

fn tell_refusal(alloc: Global, pattern: &str) -> Result<Vec<u8>, AllocError> {
    match why_refused(alloc, pattern)? {
        Some(refusal) => Ok(format!(in alloc; "refused: {refusal}")?.into_bytes()),
        None => text(alloc, "refused"),
    }
}
