//! How deep a place in a JSON text is.

/// Where a text is read, byte by byte: in how many arrays and objects, and whether in a text.
#[derive(Drop)]
pub struct Nesting {
    depth: usize,
    is_in_text: bool,
    /// The next byte stands for itself.
    is_escaped: bool,
}

impl Nesting {
    /// At the beginning.
    pub fn new() -> Nesting {
        Nesting {
            depth: 0,
            is_in_text: false,
            is_escaped: false,
        }
    }

    /// How many arrays and objects are open.
    pub fn depth(&self) -> usize {
        self.depth
    }

    /// Whether an array, an object or a text is open.
    pub fn is_inside(&self) -> bool {
        self.is_in_text || self.depth > 0
    }

    /// Goes on by a byte.
    pub fn read(&mut self, byte: u8) {
        if self.is_escaped {
            self.is_escaped = false;
        } else if self.is_in_text {
            self.is_escaped = byte == b'\\';
            self.is_in_text = byte != b'"';
        } else {
            match byte {
                b'"' => self.is_in_text = true,
                b'[' | b'{' => self.depth = self.depth.saturating_add(1),
                b']' | b'}' => self.depth = self.depth.saturating_sub(1),
                _ => {}
            }
        }
    }
}
