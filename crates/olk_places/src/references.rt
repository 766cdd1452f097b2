//! Which references are followed: by their texts, and by where they stand.
use olk_document_meaning::pointers::place_named;
use serde_json::Value;
use std::alloc::{AllocError, Global};

/// Whether the text of a reference is `#` and a JSON pointer (RFC 6901, 6) without a percent sign.
pub fn is_pointer(text: &str) -> bool {
    text == "#" || text.starts_with("#/") && !text.contains('%') && !has_open_tilde(text)
}

/// Whether a `~` stands before neither `0` nor `1` (RFC 6901, 3).
fn has_open_tilde(text: &str) -> bool {
    text.split('~').skip(1).any(leaves_open)
}

/// Whether a `~` before this text stands for nothing.
fn leaves_open(behind: &str) -> bool {
    !(behind.starts_with('0') || behind.starts_with('1'))
}

/// Whether a schema has a name of its own, to which references in it would be relative: `$id` that
/// is a text, and more than a fragment (JSON Schema 2020-12 Core, 8.2.1).
pub fn has_id(schema: &Value) -> bool {
    match schema.get("$id") {
        Some(Value::String(name)) => !name.starts_with('#'),
        _ => false,
    }
}

/// Whether the place to which a pointer leads is inside of a schema that has a name of its own,
/// other than the whole.
///
/// # Errors
///
/// Out of memory.
pub fn is_below_id(alloc: Global, schema: &Value, pointer: &str) -> Result<bool, AllocError> {
    let mut place = schema;
    for (depth, segment) in pointer.split('/').skip(1).enumerate() {
        if depth > 0 && has_id(place) {
            return Ok(true);
        }
        let step = format!(in alloc; "#/{segment}")?;
        match place_named(alloc, place, step.as_str())? {
            Some(below) => place = below,
            None => return Ok(false),
        }
    }
    Ok(false)
}
