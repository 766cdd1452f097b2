//! Tables, what is asked of each of their rows, and the first row that is answered otherwise.
use object_logic::BuildError;
use serde_json::Value;
use std::alloc::{AllocError, Global};
use std::test::Fail;

/// A table, whose rows have cells between ` | `: what is asked, and behind it the answer that is
/// expected, which may have further cells in it.
#[derive(Clone, Copy, Drop)]
pub(crate) enum Table<'t> {
    /// Rows of a schema.
    Schemas(&'t str),
    /// Rows of a schema and an instance.
    Asked(&'t str),
    /// Rows of a name, a schema and an instance.
    Named(&'t str),
}

/// A form of rows: what is answered where a row is asked.
pub(crate) trait Form {
    fn answer(&self, alloc: Global, schema: &Value, instance: &Value) -> Result<String, AllocError>;
}

/// A cell, and those behind it.
fn first_cell(row: &str) -> (&str, &str) {
    row.split_once(" | ").unwrap_or((row, ""))
}

/// A schema, an instance, and what is expected.
fn three_cells(row: &str) -> (&str, &str, &str) {
    let (schema, others) = first_cell(row);
    let (instance, told) = first_cell(others);
    (schema, instance, told)
}

/// A schema, no instance, and what is expected.
fn two_cells(row: &str) -> (&str, &str, &str) {
    let (schema, told) = first_cell(row);
    (schema, "null", told)
}

fn cells<'r>(table: Table<'_>, row: &'r str) -> (&'r str, &'r str, &'r str) {
    match table {
        Table::Schemas(_) => two_cells(row),
        Table::Asked(_) => three_cells(row),
        Table::Named(_) => three_cells(first_cell(row).1),
    }
}

fn text<'t>(table: Table<'t>) -> &'t str {
    match table {
        Table::Schemas(text) => text,
        Table::Asked(text) => text,
        Table::Named(text) => text,
    }
}

fn value(alloc: Global, text: &str) -> Result<Value, Fail> {
    Ok(Value::from_str(alloc, text)?)
}

/// The value of a text that is JSON, which only out of memory refuses.
pub(crate) fn constant(alloc: Global, text: &str) -> Result<Value, AllocError> {
    match Value::from_str(alloc, text) {
        Ok(value) => Ok(value),
        Err(_) => Err(AllocError),
    }
}

fn answered_of<F: Form>(
    form: &F,
    alloc: Global,
    schema: &Value,
    instance: &str,
) -> Result<String, Fail> {
    let instance = value(alloc, instance)?;
    let found = form.answer(alloc, schema, &instance);
    drop(instance);
    Ok(found?)
}

fn answered<F: Form>(
    form: &F,
    alloc: Global,
    schema: &str,
    instance: &str,
) -> Result<String, Fail> {
    let schema = value(alloc, schema)?;
    let found = answered_of(form, alloc, &schema, instance);
    drop(schema);
    found
}

fn expect_text(found: &str, told: &str, row: &str) -> Result<(), Fail> {
    if found == told {
        Ok(())
    } else {
        Err(Fail::new(format_args!("found `{found}` in the row `{row}`")))
    }
}

fn expect_row<F: Form>(form: &F, alloc: Global, table: Table<'_>, row: &str) -> Result<(), Fail> {
    let (schema, instance, told) = cells(table, row);
    let found = answered(form, alloc, schema, instance)?;
    let expected = expect_text(found.as_str(), told, row);
    drop(found);
    expected
}

/// Fails at the first row that is answered otherwise than it expects, with that answer.
pub(crate) fn expect<F: Form>(form: &F, alloc: Global, table: Table<'_>) -> Result<(), Fail> {
    for row in text(table).lines() {
        expect_row(form, alloc, table, row)?;
    }
    Ok(())
}

/// What is told of a schema that isn't built.
pub(crate) fn refusal(alloc: Global, error: &BuildError<'_>) -> Result<String, AllocError> {
    match error {
        BuildError::Refused(error) => format!(in alloc; "refused at {}", error.schema_path()),
        BuildError::Memory(_) => Err(AllocError),
    }
}
