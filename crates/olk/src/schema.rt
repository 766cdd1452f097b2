//! The schema: read, and what is said of one that is not used as it stands.
ghost use Rattle.std.specs.Prelude.{◌≡◌, IfOk, OnOk, MatchOption, if◌then◌else◌};
ghost use Rattle.serde_json.specs.View.{view};
ghost use Rattle.olk.specs.Drafts.{draft_read};
ghost use Rattle.olk.specs.Statuses.{worse};

use crate::console::{Console, Status};
use crate::reading::{read_file, read_value, shown_name};
use olk_document_build::REFERENCE_LIMIT;
use olk_drafts::Draft;
use olk_places::{Limited, Place, SHOWN_LEN, Visible, shown_message, unsupported_lines};
use olk_reports::ValidationError;
use serde_json::Value;
use std::alloc::{AllocError, Global};
use std::io;
use std::rt::Files;

/// How many bytes are shown of the path to what is malformed.
const PATH_LEN: usize = 150;

/// How many bytes are shown of a malformed value and of the path to it.
const VALUE_AND_PATH_LEN: usize = 230;

/// The value that the schema's file holds. Where it holds none, that is said.
///
/// # Errors
///
/// Out of memory, or standard error can't be written.
pub fn read_schema<T: Files + Input + Print + Eprint + AllocGlobal>(
    rt: &T,
    console: &mut Console<'_, T>,
    path: &str,
) -> io::Result<Option<Value>>
    ensures { IfOk result (λ found. MatchOption found
        (console.new.status ≡ worse console.old.status Status.Failed)
        (λ _. console.new.status ≡ console.old.status)) }
{
    let name = shown_name(path);
    match read_file(rt, path) {
        Ok(text) => read_value(console, Place { name, line: None }, &text),
        Err(error) => {
            console.fail_to_read(name, error)?;
            Ok(None)
        }
    }
}

/// By which draft schemas are read.
#[derive(Clone, Copy)]
pub struct Drafts {
    /// The one that was asked for, whatever `$schema` names.
    pub asked: Option<Draft>,
    /// That of a schema without `$schema`.
    pub default: Draft,
}

impl Drafts {
    /// That of a schema. None where its `$schema` names none that is known.
    fn of(self, schema: &Value) -> Option<Draft>
        ensures { result ≡ draft_read self (view schema.now) }
    {
        match (self.asked, schema.get("$schema")) {
            (Some(asked), _) => Some(asked),
            (None, Some(_)) => Draft::of(schema),
            (None, None) => Some(self.default),
        }
    }
}

/// The draft by which a file's schema is read. Where `$schema` names none that is known, that is
/// said (JSON Schema 2020-12 Core, 8.1.2.1: what is done then is up to the program).
///
/// # Errors
///
/// Out of memory, or standard error can't be written.
pub fn find_draft<T: Print + Eprint + AllocGlobal>(
    console: &mut Console<'_, T>,
    path: &str,
    schema: &Value,
    drafts: Drafts,
) -> io::Result<Option<Draft>>
    ensures draft { IfOk result (λ found. found ≡ draft_read drafts (view schema.now)) }
    ensures status { IfOk result (λ found. MatchOption found
        (console.new.status ≡ worse console.old.status Status.Failed)
        (λ _. console.new.status ≡ console.old.status)) }
{
    if let Some(draft) = drafts.of(schema) {
        return Ok(Some(draft));
    }
    let named = schema.get("$schema").and_then(Value::as_str).unwrap_or("");
    let named = cut(console.alloc(), named, SHOWN_LEN)?;
    let name = Visible(shown_name(path));
    console.fail(format_args!(
        "{name}: /$schema: \"{named}\" is not supported (--draft names a draft to read by)"
    ))?;
    Ok(None)
}

fn cut(alloc: Global, text: &str, most: usize) -> Result<String, AllocError> {
    let mut shown = Limited::new(alloc);
    shown.begin(most);
    shown.push_str(text)?;
    Ok(shown.into_text())
}

/// Says of each place of the schema what is not supported there; whether something is.
///
/// # Errors
///
/// Out of memory, or standard error can't be written.
pub fn refuse_unsupported<T: Print + Eprint + AllocGlobal>(
    console: &mut Console<'_, T>,
    path: &str,
    schema: &Value,
) -> io::Result<bool>
    ensures { IfOk result (λ is_refused. console.new.status
        ≡ (if is_refused then worse console.old.status Status.Failed else console.old.status)) }
{
    let lines = unsupported_lines(console.alloc(), schema, REFERENCE_LIMIT)?;
    if lines.is_empty() {
        return Ok(false);
    }
    let name = Visible(shown_name(path));
    for line in &lines {
        console.fail(format_args!("{name}: {line}"))?;
    }
    console.fail(format_args!("{name}: docs/VOCABULARY.md says what is supported"))?;
    Ok(true)
}

/// Says what is malformed, and where it stands in the schema.
///
/// # Errors
///
/// Out of memory, or standard error can't be written.
pub fn refuse_malformed<T: Print + Eprint + AllocGlobal>(
    console: &mut Console<'_, T>,
    path: &str,
    error: &ValidationError<'_>,
) -> io::Result<()>
    ensures { OnOk result (console.new.status ≡ worse console.old.status Status.Failed) }
{
    let name = Visible(shown_name(path));
    let place = cut(console.alloc(), error.schema_path(), PATH_LEN)?;
    let most = VALUE_AND_PATH_LEN
        .saturating_sub(place.len())
        .min(SHOWN_LEN);
    let message = shown_message(console.alloc(), error, most)?;
    if place.is_empty() {
        console.fail(format_args!("{name}: malformed schema: {message}"))
    } else {
        console.fail(format_args!("{name}: malformed schema: {message} ({place})"))
    }
}
