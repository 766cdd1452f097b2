//! Where subschemas stand.
use crate::limited::{Limited, SHOWN_LEN};
use std::alloc::{AllocError, Global};

/// Where a subschema stands in a schema, by the segments that lead there, on the stack of a walk.
#[derive(Clone, Copy)]
pub enum Pointer<'p, 'n> {
    /// Where the text of a pointer leads: the whole schema, or a place that a reference names.
    Named(&'n str),
    /// A member of what stands there.
    Member(&'p Pointer<'p, 'n>, &'n str),
    /// An item of what stands there.
    Item(&'p Pointer<'p, 'n>, usize),
}

impl Pointer<'_, '_> {
    /// The text of the JSON pointer (RFC 6901, section 3), of which 200 bytes are shown at most, and
    /// then `..`.
    ///
    /// # Errors
    ///
    /// Out of memory.
    pub fn shown(&self, alloc: Global) -> Result<String, AllocError> {
        let mut text = Limited::new(alloc);
        text.begin(SHOWN_LEN);
        self.push_to(alloc, &mut text)?;
        Ok(text.into_text())
    }

    /// Whether it leads to the whole schema.
    pub fn is_root(&self) -> bool {
        match self {
            Pointer::Named(pointer) => pointer.is_empty(),
            Pointer::Member(_, _) | Pointer::Item(_, _) => false,
        }
    }

    fn push_to(&self, alloc: Global, text: &mut Limited) -> Result<(), AllocError> {
        match self {
            Pointer::Named(pointer) => text.push_str(pointer),
            Pointer::Member(up, name) => {
                up.push_to(alloc, text)?;
                push_segment(text, name)
            }
            Pointer::Item(up, index) => {
                up.push_to(alloc, text)?;
                push_segment(text, format!(in alloc; "{index}")?.as_str())
            }
        }
    }
}

/// Goes on with `/` and the segment.
fn push_segment(text: &mut Limited, segment: &str) -> Result<(), AllocError> {
    text.push('/')?;
    for c in segment.chars() {
        if text.is_cut() {
            return Ok(());
        }
        match c {
            '~' => text.push_str("~0")?,
            '/' => text.push_str("~1")?,
            c => text.push(c)?,
        }
    }
    Ok(())
}
