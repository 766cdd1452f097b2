//! The bytes of files, and the values that texts are.
ghost use Rattle.std.specs.Prelude.{◌≡◌, IfOk, MatchOption};
ghost use Rattle.serde_json.specs.View.{view};
ghost use Rattle.olk.specs.Statuses.{worse, IsReadAs, IsUnread};

use crate::console::{Console, Status};
use crate::options::STANDARD_INPUT;
use olk_places::{Nesting, Place};
use serde_json::{Error, Value};
use std::alloc::{AllocError, Global};
use std::fs;
use std::io::{self, Read};
use std::rt::Files;

/// How many bytes of lines are read at once.
pub const INPUT_LEN: usize = 65536;

/// What some programs write before a text (RFC 8259, 8.1).
const BYTE_ORDER_MARK: &[u8] = b"\xef\xbb\xbf";

/// How deep the values that are read are nested at most.
const DEEPEST: usize = 127;

/// How a file is called where something is told of it.
pub fn shown_name(path: &str) -> &str {
    if path == STANDARD_INPUT {
        "<stdin>"
    } else {
        path
    }
}

/// The bytes of a file, or of the standard input.
///
/// # Errors
///
/// It can't be read, or out of memory.
pub fn read_file<T: Files + Input + AllocGlobal>(rt: &T, path: &str) -> io::Result<Vec<u8>> {
    if path != STANDARD_INPUT {
        return fs::read(rt, path);
    }
    let mut bytes = Vec::new(rt.alloc());
    rt.reader().read_to_end(&mut bytes)?;
    Ok(bytes)
}

/// The value that a text is. Where it is none, that is said, with the place of what is wrong.
///
/// # Errors
///
/// Out of memory, or standard error can't be written.
pub fn read_value<T: Print + Eprint + AllocGlobal>(
    console: &mut Console<'_, T>,
    place: Place<'_>,
    text: &[u8],
) -> io::Result<Option<Value>>
    ensures { IfOk result (λ found. MatchOption found
        (IsUnread text.now × (console.new.status ≡ worse console.old.status Status.Failed))
        (λ v. IsReadAs text.now (view v) × (console.new.status ≡ console.old.status))) }
{
    match Value::from_slice(console.alloc(), text) {
        Ok(value) => Ok(Some(value)),
        Err(error) => {
            if error.is_memory() {
                return Err(AllocError.into());
            }
            let why = not_json_text(console.alloc(), place, text, &error)?;
            console.fail(why)?;
            Ok(None)
        }
    }
}

/// `FILE:LINE:COLUMN: ` and what is wrong.
fn not_json_text(
    alloc: Global,
    place: Place<'_>,
    text: &[u8],
    error: &Error,
) -> Result<String, AllocError> {
    let at = Position {
        line: error.line(),
        column: error.column(),
    };
    if text.starts_with(BYTE_ORDER_MARK) {
        return placed(
            alloc,
            place,
            at,
            "begins with a byte order mark, which JSON doesn't have",
        );
    }
    match first_too_deep(text) {
        Some(deep) if deep <= at => placed(alloc, place, deep, "nested over 127 deep"),
        _ => placed(alloc, place, at, reason(alloc, error)?.as_str()),
    }
}

/// A line and a column of a text, from 1.
#[derive(Clone, Copy, PartialEq, Eq, PartialOrd, Ord, Drop)]
struct Position {
    line: usize,
    column: usize,
}

/// What is said, behind its place: of a line its number, and else the position's.
fn placed(
    alloc: Global,
    place: Place<'_>,
    position: Position,
    what: &str,
) -> Result<String, AllocError> {
    let (line, column) = (position.line, position.column);
    match place.line {
        Some(_) => format!(in alloc; "{place}:{column}: {what}"),
        None => format!(in alloc; "{place}:{line}:{column}: {what}"),
    }
}

/// What an error says, without where.
fn reason(alloc: Global, error: &Error) -> Result<String, AllocError> {
    let (line, column) = (error.line(), error.column());
    let said = format!(in alloc; "{error}")?;
    let end = format!(in alloc; " at line {line} column {column}")?;
    let said = said.as_str();
    String::from_str(alloc, said.strip_suffix(end.as_str()).unwrap_or(said))
}

/// Where the first array or object is that is nested too deep, if the text is JSON up to there.
fn first_too_deep(text: &[u8]) -> Option<Position> {
    let mut nesting = Nesting::new();
    let mut here = Position { line: 1, column: 1 };
    for byte in text {
        nesting.read(*byte);
        if nesting.depth() > DEEPEST {
            return Some(here);
        }
        if *byte == b'\n' {
            here.line = here.line.saturating_add(1);
            here.column = 1;
        } else {
            here.column = here.column.saturating_add(1);
        }
    }
    None
}

/// Whether a text is empty but for white space (RFC 8259, 2).
pub fn is_blank(text: &[u8]) -> bool {
    text.iter()
        .all(|byte| matches!(byte, b' ' | b'\t' | b'\n' | b'\r'))
}
