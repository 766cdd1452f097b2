//! The places of a document that the texts of references name.
ghost use Rattle.std.specs.Prelude.{◌≡◌, ◌≢◌, ◌<◌, ◌≤◌, ◌∷◌, EachIndex, IfOk, length, option_map, slice_index, string_bytes};
ghost use Rattle.serde_json.specs.Find.{pointer as points_to, step as one_step, unescape};
ghost use Rattle.serde_json.specs.View.{view};
ghost use Rattle.olk_document_spec.specs.Documents as definitions;

use serde_json::Value;
use std::alloc::{AllocError, Global};

/// The place of a document that a text names: `#` and the place's JSON pointer (RFC 6901, 6).
///
/// # Errors
///
/// Out of memory.
pub fn place_named<'a>(
    alloc: Global,
    document: &'a Value,
    text: &str,
) -> Result<Option<&'a Value>, AllocError>
    ensures { IfOk result (λ found. option_map (λ v. view v.now) found
        ≡ definitions.place_named (view document.now) text.now) }
{
    let Some(pointer) = text.strip_prefix('#') else {
        return Ok(None);
    };
    let bytes = pointer.as_bytes();
    if bytes.contains(&b'%') || has_open_tilde(bytes) {
        return Ok(None);
    }
    if bytes.contains(&b'~') {
        place_escaped(alloc, document, pointer)
    } else {
        Ok(document.pointer(pointer))
    }
}

/// Whether a `~` stands before neither `0` nor `1`.
fn has_open_tilde(pointer: &[u8]) -> bool
    ensures { result ≡ definitions.has_open_tilde pointer.now }
{
    let mut rest = pointer;
    while let [byte, behind @ ..] = rest {
        if *byte == b'~' && !matches!(behind, [b'0' | b'1', ..]) {
            return true;
        }
        rest = behind;
    }
    false
}

/// The place to which a pointer leads. A name with an escape is looked up by what it stands for;
/// `Value::pointer` would compare it with each name.
fn place_escaped<'a>(
    alloc: Global,
    document: &'a Value,
    pointer: &str,
) -> Result<Option<&'a Value>, AllocError>
    ensures { IfOk result (λ found. option_map (λ v. view v.now) found
        ≡ points_to pointer.now (view document.now)) }
{
    if pointer.is_empty() {
        return Ok(Some(document));
    }
    let Some(segments) = pointer.strip_prefix('/') else {
        return Ok(None);
    };
    let mut rest = segments;
    let mut place = document;
    while let Some((segment, more)) = rest.split_once('/') {
        match step(alloc, place, segment)? {
            Some(below) => place = below,
            None => return Ok(None),
        }
        rest = more;
    }
    step(alloc, place, rest)
}

/// What stands under a segment of a pointer.
fn step<'a>(alloc: Global, place: &'a Value, segment: &str) -> Result<Option<&'a Value>, AllocError>
    requires { EachIndex segment.now (λ i. slice_index segment.now i ≢ 47) }
    ensures { IfOk result (λ found. option_map (λ v. view v.now) found
        ≡ one_step segment.now (view place.now)) }
{
    match place {
        Value::Object(members) => {
            let name = unescaped(alloc, segment)?;
            Ok(members.get(name.as_str()))
        }
        Value::Array(_) => item(alloc, place, segment),
        _ => Ok(None),
    }
}

/// What stands under a segment that `Value::pointer` reads.
fn item<'a>(alloc: Global, place: &'a Value, segment: &str) -> Result<Option<&'a Value>, AllocError>
    requires { EachIndex segment.now (λ i. slice_index segment.now i ≢ 47) }
    ensures { IfOk result (λ found. option_map (λ v. view v.now) found
        ≡ one_step segment.now (view place.now)) }
{
    let mut pointer = String::new(alloc);
    pointer.push('/')?;
    pointer.push_str(segment)?;
    Ok(place.pointer(pointer.as_str()))
}

/// The name that a segment stands for (RFC 6901, 4).
fn unescaped(alloc: Global, segment: &str) -> Result<String, AllocError>
    ensures { IfOk result (λ name. string_bytes name ≡ unescape segment.now) }
{
    let mut name = String::with_capacity(alloc, segment.len())?;
    let mut rest = segment;
    while let Some((plain, behind)) = rest.split_once('~') {
        name.push_str(plain)?;
        let (character, more) = escaped(behind);
        name.push(character)?;
        rest = more;
    }
    name.push_str(rest)?;
    Ok(name)
}

/// What a `~` before a text stands for, and what of the text is left.
fn escaped(behind: &str) -> (char, &str)
    ensures value { unescape (126 ∷ behind.now) ≡ result.0 ∷ unescape result.1.now }
    ensures ascii { result.0 < 128 }
    ensures rest { length result.1.now ≤ length behind.now }
{
    if let Some(more) = behind.strip_prefix('0') {
        ('~', more)
    } else if let Some(more) = behind.strip_prefix('1') {
        ('/', more)
    } else {
        ('~', behind)
    }
}
