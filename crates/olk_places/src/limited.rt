//! Texts that are shown up to a length.
use crate::visible::push_visible;
use std::alloc::{AllocError, Global};

/// What stands for the rest of a text.
const REST: &str = "..";

/// How many bytes of a value, or of a path, are shown at most.
pub const SHOWN_LEN: usize = 200;

/// A text of pieces, each of which is shown up to a length, with its control characters seen.
#[derive(Drop)]
pub struct Limited {
    text: String,
    /// How long the text may be until the next piece begins.
    end: usize,
    /// The piece went on behind that, which is shown as `..`.
    is_cut: bool,
}

impl Limited {
    /// An empty text, whose first piece has no room.
    pub fn new(alloc: Global) -> Limited {
        Limited {
            text: String::new(alloc),
            end: 0,
            is_cut: false,
        }
    }

    /// Begins a piece of so many bytes at most.
    pub fn begin(&mut self, most: usize) {
        self.end = self.text.len().saturating_add(most);
        self.is_cut = false;
    }

    /// Whether the piece went on behind what is shown of it.
    pub fn is_cut(&self) -> bool {
        self.is_cut
    }

    /// Goes on with the piece, if it has room.
    ///
    /// # Errors
    ///
    /// Out of memory.
    pub fn push(&mut self, c: char) -> Result<(), AllocError> {
        if self.is_cut {
            return Ok(());
        }
        let len = self.text.len().saturating_add(shown_len(c));
        if len <= self.end {
            return push_visible(&mut self.text, c);
        }
        self.is_cut = true;
        self.text.push_str(REST)
    }

    /// Goes on with the piece as far as it has room.
    ///
    /// # Errors
    ///
    /// Out of memory.
    pub fn push_str(&mut self, text: &str) -> Result<(), AllocError> {
        for c in text.chars() {
            if self.is_cut {
                return Ok(());
            }
            self.push(c)?;
        }
        Ok(())
    }

    /// A character that stands between pieces, and is shown whole.
    ///
    /// # Errors
    ///
    /// Out of memory.
    pub fn push_between(&mut self, c: char) -> Result<(), AllocError> {
        push_visible(&mut self.text, c)
    }

    /// The text.
    pub fn into_text(self) -> String {
        self.text
    }
}

/// How many bytes a character takes where it is seen.
fn shown_len(c: char) -> usize {
    if c.is_control() {
        "\\u0000".len()
    } else {
        c.len_utf8()
    }
}
