//! Tables: a row is a line, and its cells stand between ` | `, the last of which is the answer that
//! is wanted.
use std::alloc::Global;
use std::test::Fail;

/// Holds what is answered of each row against the row's last cell.
///
/// # Errors
///
/// The first row of which another text is answered, with that text; or why none is answered.
pub fn expect_rows(
    alloc: Global,
    rows: &str,
    answer: fn(Global, &str) -> Result<String, Fail>,
) -> Result<(), Fail>
    requires { IsAlwaysCallable answer }
{
    for row in rows.lines() {
        expect_row(alloc, row, answer)?;
    }
    Ok(())
}

fn expect_row(
    alloc: Global,
    row: &str,
    answer: fn(Global, &str) -> Result<String, Fail>,
) -> Result<(), Fail>
    requires { IsAlwaysCallable answer }
{
    match row.rsplit_once(" | ") {
        Some((cells, wanted)) => expect_told(row, answer(alloc, cells)?, wanted),
        None => Err(Fail::new(row)),
    }
}

fn expect_told(row: &str, found: String, wanted: &str) -> Result<(), Fail> {
    if found.as_str() == wanted {
        Ok(())
    } else {
        Err(Fail::new(format_args!("{row} | {found}")))
    }
}

/// The first cell, and the others, of which there may be none.
pub fn two(cells: &str) -> (&str, &str) {
    cells.split_once(" | ").unwrap_or((cells, ""))
}

/// The three cells of a row.
pub fn three(row: &str) -> Option<(&str, &str, &str)> {
    let (first, others) = row.split_once(" | ")?;
    let (second, third) = others.split_once(" | ")?;
    Some((first, second, third))
}
