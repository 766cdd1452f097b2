//! The text of a path, kept in place where it is short.
ghost use Rattle.std.specs.Prelude.{◌≡◌, IfOk, string_bytes};

use arrayvec::ArrayString;
use std::alloc::{AllocError, Global};
use std::marker::Model;

/// A text of at most so many bytes takes no memory of its own.
pub(crate) const INLINE: usize = 40;

#[derive(Drop)]
enum Storage {
    Inline(ArrayString<INLINE>),
    Heap(String),
}

/// The text of a path: a short one is kept in place, a longer one on the heap.
#[derive(Drop)]
pub struct PathText {
    storage: Storage,
}

impl Model for PathText {
    ghost use Rattle.std.specs.Prelude.{ℕ, List};
    ghost use Rattle.olk_reports.specs.Paths.{stored};

    ghost Value = { List ℕ };

    ghost view = { λ t. stored t.storage };
}

impl PathText {
    /// The same text.
    ///
    /// Without memory there is none; a short one needs none.
    #[inline(always)]
    pub fn from_str(alloc: Global, text: &str) -> Result<PathText, AllocError>
        ensures { IfOk result (λ t. t ≡ text.now) }
    {
        let storage = match ArrayString::from(text) {
            Ok(short) => Storage::Inline(short),
            Err(_) => Storage::Heap(String::from_str(alloc, text)?),
        };
        Ok(PathText { storage })
    }

    /// A text that is kept in place.
    pub(crate) fn inline(text: ArrayString<INLINE>) -> PathText
        ensures { result ≡ text.bytes }
    {
        PathText {
            storage: Storage::Inline(text),
        }
    }

    /// The text.
    pub fn as_str(&self) -> &str
        ensures { result.now ≡ self.now }
    {
        match &self.storage {
            Storage::Inline(text) => text.as_str(),
            Storage::Heap(text) => text.as_str(),
        }
    }
}

impl From<String> for PathText {
    ghost use Rattle.std.specs.Prelude.{◌≡◌, string_bytes};

    ghost from_gives = { λ s t. t ≡ string_bytes s };

    /// Takes the text as it is.
    fn from(text: String) -> PathText {
        PathText {
            storage: Storage::Heap(text),
        }
    }
}
