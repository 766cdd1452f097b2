//! Where errors stand in the text of a value.
use crate::numbers::{NumberText, leaves_number_out};
use crate::positions::{Position, Positions};
use crate::targets::Target;
use crate::told::branches_of;
use olk_reports::ValidationError;
use std::alloc::{AllocError, Global};

/// How deep contexts are told: deeper than they are in any schema that `serde_json` reads.
pub const DEEPEST: u8 = u8::MAX;

/// A text that is JSON, and where errors stand in it.
#[derive(Drop)]
pub struct Located<'t> {
    alloc: Global,
    text: &'t [u8],
    positions: Positions,
}

impl<'t> Located<'t> {
    /// Finds errors and those of their contexts in a text whose first line has this number.
    ///
    /// # Errors
    ///
    /// Out of memory.
    pub fn new(
        alloc: Global,
        text: &'t [u8],
        line: u64,
        errors: &[ValidationError<'_>],
    ) -> Result<Located<'t>, AllocError> {
        let mut positions = Positions::new(alloc, line)?;
        if !errors.is_empty() {
            seek_errors(alloc, &mut positions, errors, DEEPEST)?;
            positions.find(text)?;
        }
        Ok(Located {
            alloc,
            text,
            positions,
        })
    }

    /// Where an error of those stands.
    ///
    /// # Errors
    ///
    /// Out of memory.
    pub fn position_of(&self, error: &ValidationError<'_>) -> Result<Position, AllocError> {
        let target = Target::of(self.alloc, error)?;
        Ok(if target.is_name {
            self.positions.of_name(target.pointer.as_str())
        } else {
            self.positions.of_value(target.pointer.as_str())
        })
    }

    /// The number that an error is about, where its message has the word `value` in its place.
    ///
    /// # Errors
    ///
    /// Out of memory.
    pub fn number_of(
        &self,
        error: &ValidationError<'_>,
        message: &str,
    ) -> Result<Option<NumberText<'t>>, AllocError> {
        if !leaves_number_out(error.kind(), message) {
            return Ok(None);
        }
        let position = self.position_of(error)?;
        Ok(NumberText::at(self.text, position.offset))
    }
}

/// Seeks the errors, and `left` more levels of contexts.
#[cycle(seeking)]
fn seek_errors(
    alloc: Global,
    positions: &mut Positions,
    errors: &[ValidationError<'_>],
    left: u8,
) -> Result<(), AllocError> {
    for error in errors {
        let target = Target::of(alloc, error)?;
        positions.seek(target.pointer.as_str())?;
        if left > 0 {
            seek_branches(alloc, positions, branches_of(error), left - 1)?;
        }
    }
    Ok(())
}

#[cycle(seeking)]
fn seek_branches(
    alloc: Global,
    positions: &mut Positions,
    branches: &[Vec<ValidationError<'_>>],
    left: u8,
) -> Result<(), AllocError> {
    for errors in branches {
        seek_errors(alloc, positions, errors, left)?;
    }
    Ok(())
}
