//! Names of members, compared by their two ends before their middle.
ghost use Rattle.std.specs.Prelude.{◌≡◌, ◌≤◌, ◌↔◌, IsTrue, IfOk, length};
ghost use Rattle.olk_base.specs.Heads.{head_of, low_first};

use std::alloc::{AllocError, Global};
use std::marker::Model;

// Up to this length the head of a name has all of its bytes.
const LONGEST_WHOLE: usize = 16;

/// The length of a name, and its first and last bytes as numbers, the lowest byte first: up to
/// three bytes stand whole in the first number, beside zero; from four bytes on, four at either
/// end, and from eight on, eight.
#[derive(Debug, Clone, Copy, PartialEq, Eq)]
pub struct KeyHead {
    len: usize,
    first: u64,
    last: u64,
}

impl KeyHead {
    /// The head of the name.
    pub fn of(name: &str) -> KeyHead
        ensures { result ≡ head_of name.now }
    {
        let bytes = name.as_bytes();
        let len = bytes.len();
        if len < 4 {
            KeyHead {
                len,
                first: little_endian(bytes),
                last: 0,
            }
        } else if len < 8 {
            KeyHead {
                len,
                first: little_endian(&bytes[..4]),
                last: little_endian(&bytes[len - 4..]),
            }
        } else {
            KeyHead {
                len,
                first: little_endian(&bytes[..8]),
                last: little_endian(&bytes[len - 8..]),
            }
        }
    }
}

/// Up to eight bytes as a number, the lowest byte first.
fn little_endian(bytes: &[u8]) -> u64
    requires { length bytes.now ≤ 8 }
    ensures { result ≡ low_first bytes.now }
{
    let mut word = [0; 8];
    word[..bytes.len()].copy_from_slice(bytes);
    u64::from_le_bytes(word)
}

/// A name with its head beside it.
#[derive(Drop)]
pub struct PropertyName {
    head: KeyHead,
    text: String,
}

impl Model for PropertyName {
    ghost use Rattle.std.specs.Prelude.{◌≡◌, string_bytes};
    ghost use Rattle.olk_spec.specs.Names.{Name};
    ghost use Rattle.olk_base.specs.Heads.{head_of};

    ghost Value = { Name };

    ghost view = { λ p. string_bytes p.text };

    ghost invariant = { λ p. p.head ≡ head_of (string_bytes p.text) };
}

impl PropertyName {
    /// A copy of the text, as a name. The only error is out of memory.
    pub fn new(alloc: Global, text: &str) -> Result<PropertyName, AllocError>
        ensures { IfOk result (λ p. p ≡ text.now) }
    {
        Ok(PropertyName {
            head: KeyHead::of(text),
            text: String::from_str(alloc, text)?,
        })
    }

    /// The text of the name.
    pub fn as_str(&self) -> &str
        ensures { result.now ≡ self.now }
    {
        self.text.as_str()
    }

    /// Whether the key is the name. The caller gives the key's own head.
    ///
    /// Heads decide up to 16 bytes; past that the bytes between the two ends are compared too.
    pub fn matches(&self, head: KeyHead, key: &str) -> bool
        requires { head ≡ head_of key.now }
        ensures { IsTrue result ↔ (self.now ≡ key.now) }
    {
        self.head == head && same_middle(self.text.as_bytes(), key.as_bytes())
    }
}

/// Whether two names with one head are the same.
fn same_middle(name: &[u8], key: &[u8]) -> bool
    requires { head_of name.now ≡ head_of key.now }
    ensures { IsTrue result ↔ (name.now ≡ key.now) }
{
    let len = key.len();
    len <= LONGEST_WHOLE || name[8..len - 8] == key[8..len - 8]
}
