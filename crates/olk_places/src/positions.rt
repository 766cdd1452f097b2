//! Where the values of a JSON text stand in it.
use crate::scanner::Scanner;
use std::alloc::{AllocError, Global};
use std::collections::BTreeMap;

/// A place of a text.
#[derive(Clone, Copy, Drop)]
pub struct Position {
    /// Its line, from 1.
    pub line: u64,
    /// Its column, from 1, where each character counts as one.
    pub column: u64,
    /// How many bytes stand before it.
    pub offset: usize,
}

impl Position {
    /// The start of a text whose first line has this number.
    pub fn start(line: u64) -> Position {
        Position {
            line,
            column: 1,
            offset: 0,
        }
    }

    /// The position behind a byte that stands here. A character counts where its first byte stands.
    pub fn step(&mut self, byte: u8) {
        self.offset = self.offset.saturating_add(1);
        if byte == b'\n' {
            self.line = self.line.saturating_add(1);
            self.column = 1;
        } else if byte & 0xc0 != 0x80 {
            self.column = self.column.saturating_add(1);
        }
    }
}

/// A value that is sought, and what is sought in it.
#[derive(Drop)]
struct Spot {
    /// The spots of members and items, by what leads to them in a pointer.
    below: BTreeMap<String, usize>,
    /// Where the value stands.
    value: Position,
    /// Where its name stands, if it is a member.
    name: Position,
}

/// The values that pointers (JSON Pointer, RFC 6901) lead to, and where they stand in a text.
#[derive(Drop)]
pub struct Positions {
    alloc: Global,
    start: Position,
    spots: Vec<Spot>,
}

/// The spot of the whole value.
pub const ROOT: usize = 0;

impl Positions {
    /// Of a text whose first line has this number, with nothing sought but the whole.
    ///
    /// # Errors
    ///
    /// Out of memory.
    pub fn new(alloc: Global, line: u64) -> Result<Positions, AllocError> {
        let mut positions = Positions {
            alloc,
            start: Position::start(line),
            spots: Vec::new(alloc),
        };
        positions.add_spot()?;
        Ok(positions)
    }

    /// Seeks what a pointer leads to as well.
    ///
    /// # Errors
    ///
    /// Out of memory.
    pub fn seek(&mut self, pointer: &str) -> Result<(), AllocError> {
        let mut spot = ROOT;
        for segment in pointer.split('/').skip(1) {
            spot = match self.below(spot, segment) {
                Some(below) => below,
                None => self.add_below(spot, segment)?,
            };
        }
        Ok(())
    }

    /// Finds all that is sought, by one pass over a text that is JSON. Of members of one name the
    /// last is found.
    ///
    /// # Errors
    ///
    /// Out of memory.
    pub fn find(&mut self, text: &[u8]) -> Result<(), AllocError> {
        let mut scanner = Scanner::new(self.alloc, self.start);
        for byte in text {
            scanner.read(self, *byte)?;
        }
        Ok(())
    }

    /// Where the value stands that a pointer leads to; the start where it wasn't found.
    pub fn of_value(&self, pointer: &str) -> Position {
        match self.spot_of(pointer) {
            Some(spot) => spot.value,
            None => self.start,
        }
    }

    /// Where the name of the member stands that a pointer leads to; the start where it wasn't found.
    pub fn of_name(&self, pointer: &str) -> Position {
        match self.spot_of(pointer) {
            Some(spot) => spot.name,
            None => self.start,
        }
    }

    /// The spot of a member or an item, if it is sought.
    pub fn below(&self, spot: usize, segment: &str) -> Option<usize> {
        self.spots.get(spot)?.below.get(segment).copied()
    }

    /// Keeps where the value of a spot stands.
    pub fn set_value(&mut self, spot: usize, value: Position) {
        if let Some(found) = self.spots.get_mut(spot) {
            found.value = value;
        }
    }

    /// Keeps where the name of a spot stands.
    pub fn set_name(&mut self, spot: usize, name: Position) {
        if let Some(found) = self.spots.get_mut(spot) {
            found.name = name;
        }
    }

    fn spot_of(&self, pointer: &str) -> Option<&Spot> {
        let mut spot = ROOT;
        for segment in pointer.split('/').skip(1) {
            spot = self.below(spot, segment)?;
        }
        self.spots.get(spot)
    }

    fn add_below(&mut self, spot: usize, segment: &str) -> Result<usize, AllocError> {
        let added = self.add_spot()?;
        if let Some(above) = self.spots.get_mut(spot) {
            let segment = String::from_str(self.alloc, segment)?;
            above.below.insert(segment, added)?;
        }
        Ok(added)
    }

    fn add_spot(&mut self) -> Result<usize, AllocError> {
        let added = self.spots.len();
        self.spots.push(Spot {
            below: BTreeMap::new(self.alloc),
            value: self.start,
            name: self.start,
        })?;
        Ok(added)
    }
}
