//! One pass over a JSON text, byte by byte, that finds where what is sought stands.
use crate::positions::{Position, Positions, ROOT};
use crate::targets::segment_text;
use serde_json::Value;
use std::alloc::{AllocError, Global};

/// What the next byte is part of.
#[derive(Clone, Copy, PartialEq, Eq, Drop)]
enum Inside {
    /// No text.
    Nothing,
    /// A text or a name.
    Text,
    /// A text or a name, right behind a backslash.
    Escape,
}

/// An object or a list that isn't at its end.
#[derive(Clone, Copy, Drop)]
struct Open {
    /// Its spot, if something in it is sought.
    spot: Option<usize>,
    /// Of a list, the index of the item.
    index: Option<u64>,
}

/// How far a pass over a text came.
#[derive(Drop)]
pub struct Scanner {
    alloc: Global,
    here: Position,
    inside: Inside,
    /// What is open, the innermost last.
    open: Vec<Open>,
    /// The spot of the value that comes next, if it is sought.
    next: Option<usize>,
    /// A name comes next, or is being read.
    is_name: bool,
    /// Where the last name stands.
    name_start: Position,
    /// The name as it stands in the text, if it is in an object in which something is sought.
    name: Vec<u8>,
}

impl Scanner {
    /// At the start of a text.
    pub fn new(alloc: Global, start: Position) -> Scanner {
        Scanner {
            alloc,
            here: start,
            inside: Inside::Nothing,
            open: Vec::new(alloc),
            next: Some(ROOT),
            is_name: false,
            name_start: start,
            name: Vec::new(alloc),
        }
    }

    /// Reads the next byte.
    ///
    /// # Errors
    ///
    /// Out of memory.
    pub fn read(&mut self, positions: &mut Positions, byte: u8) -> Result<(), AllocError> {
        match self.inside {
            Inside::Nothing => self.read_sign(positions, byte)?,
            Inside::Text => self.read_text(positions, byte)?,
            Inside::Escape => {
                self.inside = Inside::Text;
                self.keep(byte)?;
            }
        }
        self.here.step(byte);
        Ok(())
    }

    /// Reads a byte that stands in no text.
    fn read_sign(&mut self, positions: &mut Positions, byte: u8) -> Result<(), AllocError> {
        match byte {
            b'"' => self.start_text(positions)?,
            b'{' => {
                self.open_value(positions, None)?;
                self.is_name = true;
            }
            b'[' => {
                self.open_value(positions, Some(0))?;
                self.next = self.item(positions)?;
            }
            b'}' | b']' => {
                self.open.pop();
                self.is_name = false;
                self.next = None;
            }
            b',' => self.pass_comma(positions)?,
            b':' | b' ' | b'\t' | b'\n' | b'\r' => {}
            _ => self.start_value(positions),
        }
        Ok(())
    }

    /// Reads a byte of a text or a name.
    fn read_text(&mut self, positions: &mut Positions, byte: u8) -> Result<(), AllocError> {
        self.keep(byte)?;
        match byte {
            b'\\' => self.inside = Inside::Escape,
            b'"' => {
                self.inside = Inside::Nothing;
                if self.is_name {
                    self.end_name(positions)?;
                }
            }
            _ => {}
        }
        Ok(())
    }

    /// Notes where a value starts, if it is sought.
    fn start_value(&mut self, positions: &mut Positions) {
        if let Some(spot) = self.next.take() {
            positions.set_value(spot, self.here);
        }
    }

    fn start_text(&mut self, positions: &mut Positions) -> Result<(), AllocError> {
        self.inside = Inside::Text;
        if self.is_name {
            self.name_start = self.here;
            self.name.clear();
            self.keep(b'"')
        } else {
            self.start_value(positions);
            Ok(())
        }
    }

    fn open_value(
        &mut self,
        positions: &mut Positions,
        index: Option<u64>,
    ) -> Result<(), AllocError> {
        let spot = self.next;
        self.start_value(positions);
        self.open.push(Open { spot, index })?;
        Ok(())
    }

    /// Goes on to the next name or item.
    fn pass_comma(&mut self, positions: &Positions) -> Result<(), AllocError> {
        let Some(open) = self.open.last_mut() else {
            return Ok(());
        };
        match open.index {
            Some(index) => {
                open.index = Some(index.saturating_add(1));
                self.next = self.item(positions)?;
            }
            None => self.is_name = true,
        }
        Ok(())
    }

    /// The spot of the item that comes next, if it is sought.
    fn item(&self, positions: &Positions) -> Result<Option<usize>, AllocError> {
        let Some(
            Open {
                spot: Some(spot),
                index: Some(index),
            },
        ) = self.open.last().copied()
        else {
            return Ok(None);
        };
        let segment = format!(in self.alloc; "{index}")?;
        Ok(positions.below(spot, segment.as_str()))
    }

    /// The spot of the object that is read, if something in it is sought.
    fn object(&self) -> Option<usize> {
        self.open.last()?.spot
    }

    /// Keeps a byte of a name that may be sought.
    fn keep(&mut self, byte: u8) -> Result<(), AllocError> {
        if self.is_name && self.object().is_some() {
            self.name.push(byte)?;
        }
        Ok(())
    }

    /// Goes on to the value of a member.
    fn end_name(&mut self, positions: &mut Positions) -> Result<(), AllocError> {
        self.is_name = false;
        let Some(object) = self.object() else {
            return Ok(());
        };
        let segment = self.segment()?;
        self.next = positions.below(object, segment.as_str());
        if let Some(member) = self.next {
            positions.set_name(member, self.name_start);
        }
        Ok(())
    }
    /// The name that was read, as it stands in a pointer.
    fn segment(&self) -> Result<String, AllocError> {
        match Value::from_slice(self.alloc, &self.name) {
            Ok(name) => segment_text(self.alloc, name.as_str().unwrap_or("")),
            Err(error) if error.is_memory() => Err(AllocError),
            Err(_) => Ok(String::new(self.alloc)),
        }
    }
}
