//! Messages of errors as they are shown: their values up to a length.
use crate::limited::{Limited, SHOWN_LEN};
use crate::nesting::Nesting;
use olk_reports::{ValidationError, ValidationErrorKind};
use std::alloc::{AllocError, Global};

/// What stands in a message before names as they are, and what behind them.
const BEFORE_NAMES: &str = "Additional properties are not allowed (";

const BEHIND_NAMES: [&str; 2] = [" was unexpected)", " were unexpected)"];

/// The message of an error, in which of each value, or of a list of names, are shown so many bytes
/// at most, and then `..`.
///
/// # Errors
///
/// Out of memory.
pub fn shown_message(
    alloc: Global,
    error: &ValidationError<'_>,
    most: usize,
) -> Result<String, AllocError> {
    let message = error.message(alloc)?;
    match error.kind() {
        ValidationErrorKind::AdditionalProperties { .. } => {
            with_short_names(alloc, message.as_str(), most)
        }
        _ => with_short_values(alloc, message.as_str(), most),
    }
}

/// The message of an error, in which of each value, or of a list of names, are shown 200 bytes at
/// most, and then `..`.
///
/// # Errors
///
/// Out of memory.
pub fn short_message(alloc: Global, error: &ValidationError<'_>) -> Result<String, AllocError> {
    shown_message(alloc, error, SHOWN_LEN)
}

/// A message of which the names between its words are shown up to a length.
fn with_short_names(alloc: Global, message: &str, most: usize) -> Result<String, AllocError> {
    let mut shown = Limited::new(alloc);
    let names = message.strip_prefix(BEFORE_NAMES).unwrap_or(message);
    for end in BEHIND_NAMES {
        if let Some(names) = names.strip_suffix(end) {
            push_whole(&mut shown, BEFORE_NAMES)?;
            shown.begin(most);
            shown.push_str(names)?;
            push_whole(&mut shown, end)?;
            return Ok(shown.into_text());
        }
    }
    push_whole(&mut shown, message)?;
    Ok(shown.into_text())
}

fn push_whole(shown: &mut Limited, words: &str) -> Result<(), AllocError> {
    for c in words.chars() {
        shown.push_between(c)?;
    }
    Ok(())
}

/// A message of which each JSON text is shown up to a length. Its other words have no quotation
/// mark, bracket or brace.
fn with_short_values(alloc: Global, message: &str, most: usize) -> Result<String, AllocError> {
    let mut shown = Limited::new(alloc);
    let mut nesting = Nesting::new();
    for c in message.chars() {
        let was_inside = nesting.is_inside();
        nesting.read(byte_of(c));
        if was_inside {
            shown.push(c)?;
        } else if nesting.is_inside() {
            shown.begin(most);
            shown.push(c)?;
        } else {
            shown.push_between(c)?;
        }
    }
    Ok(shown.into_text())
}

/// The byte of an ASCII character, and 0 of others.
fn byte_of(c: char) -> u8 {
    u8::try_from(u32::from(c)).unwrap_or(0)
}
