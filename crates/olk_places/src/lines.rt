//! Errors as lines for people.
use crate::located::{DEEPEST, Located};
use crate::place::Place;
use crate::shown::short_message;
use crate::told::{branches_of, told_errors};
use crate::visible::Visible;
use olk_reports::ValidationError;
use std::alloc::{AllocError, Global};
use std::fmt::Write;

/// A line for each error, `FILE:LINE:COLUMN: /instance/path: message (/schema/path)`, and below it,
/// indented, what each branch of `anyOf` or `oneOf` finds. A path is left out where it is empty.
///
/// They are sorted by instance path, schema path and message in byte order.
///
/// # Errors
///
/// Out of memory.
pub fn error_lines(
    alloc: Global,
    place: Place<'_>,
    text: &[u8],
    errors: &[ValidationError<'_>],
) -> Result<String, AllocError> {
    let located = Located::new(alloc, text, place.first_line(), errors)?;
    let name = Visible(place.name);
    let mut lines = String::new(alloc);
    for told in &told_errors(alloc, errors)? {
        if let Some(error) = errors.get(told.index) {
            let position = located.position_of(error)?;
            let (line, column) = (position.line, position.column);
            write!(lines, "{name}:{line}:{column}: ")?;
            push_error(alloc, &mut lines, &located, error, DEEPEST)?;
        }
    }
    Ok(lines)
}

/// Appends the line of an error, and those of `left` more levels of contexts.
#[cycle(contexts)]
fn push_error(
    alloc: Global,
    lines: &mut String,
    located: &Located<'_>,
    error: &ValidationError<'_>,
    left: u8,
) -> Result<(), AllocError> {
    let line = error_line(alloc, located, error)?;
    lines.push_str(line.as_str())?;
    if left > 0 {
        push_branches(alloc, lines, located, branches_of(error), left - 1)?;
    }
    Ok(())
}

#[cycle(contexts)]
fn push_branches(
    alloc: Global,
    lines: &mut String,
    located: &Located<'_>,
    branches: &[Vec<ValidationError<'_>>],
    left: u8,
) -> Result<(), AllocError> {
    for errors in branches {
        for told in &told_errors(alloc, errors)? {
            if let Some(error) = errors.get(told.index) {
                push_indent(lines, DEEPEST - left)?;
                push_error(alloc, lines, located, error, left)?;
            }
        }
    }
    Ok(())
}

/// The line of an error, with its line feed.
fn error_line(
    alloc: Global,
    located: &Located<'_>,
    error: &ValidationError<'_>,
) -> Result<String, AllocError> {
    let mut text = short_message(alloc, error)?;
    if let Some(number) = located.number_of(error, text.as_str())? {
        write!(text, " [value is {number}]")?;
    }
    let path = error.schema_path();
    if !path.is_empty() {
        write!(text, " ({path})")?;
    }
    let (path, text) = (error.instance_path(), Visible(text.as_str()));
    if path.is_empty() {
        format!(in alloc; "{text}\n")
    } else {
        let path = Visible(path);
        format!(in alloc; "{path}: {text}\n")
    }
}

fn push_indent(lines: &mut String, depth: u8) -> Result<(), AllocError> {
    for _ in 0..depth {
        lines.push_str("    ")?;
    }
    Ok(())
}
