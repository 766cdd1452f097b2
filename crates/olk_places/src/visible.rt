//! Text whose control characters can be seen.
use std::alloc::AllocError;
use std::fmt::{self, Display, Formatter, Write};

/// Shows a text with its control characters as JSON escapes them (RFC 8259, 7), so that no name or
/// value breaks a line or changes what a terminal shows.
#[derive(Clone, Copy)]
pub struct Visible<'t>(pub &'t str);

impl Display for Visible<'_> {
    fn fmt<W: fmt::Write>(&self, f: &mut Formatter<W>) -> fmt::Result {
        for c in self.0.chars() {
            if c.is_control() {
                write!(f, "\\u{:04x}", u32::from(c))?;
            } else {
                f.write_char(c)?;
            }
        }
        Ok(())
    }
}

/// Appends a character as `Visible` shows it.
///
/// # Errors
///
/// Out of memory.
pub fn push_visible(text: &mut String, c: char) -> Result<(), AllocError> {
    if c.is_control() {
        write!(text, "\\u{:04x}", u32::from(c))
    } else {
        text.push(c)
    }
}
