//! Places of values.
use crate::visible::Visible;
use std::fmt::{self, Display, Formatter};

/// The place of a value: a file, and a line of it where each line is a value.
#[derive(Clone, Copy)]
pub struct Place<'n> {
    /// The file's path.
    pub name: &'n str,
    /// The line's number, from 1.
    pub line: Option<u64>,
}

impl Place<'_> {
    /// The number of the first line of the value's text.
    pub fn first_line(&self) -> u64 {
        self.line.unwrap_or(1)
    }
}

impl Display for Place<'_> {
    fn fmt<W: fmt::Write>(&self, f: &mut Formatter<W>) -> fmt::Result {
        write!(f, "{}", Visible(self.name))?;
        match self.line {
            Some(line) => write!(f, ":{line}"),
            None => Ok(()),
        }
    }
}
