//! Where a value stands in an instance, by the names that lead there.
ghost use Rattle.std.specs.Prelude.{◌≡◌, ◌++◌, string_bytes, true, IfOk, OnOk};
ghost use Rattle.olk_reports.specs.Paths.{one_below, path_at};

use crate::path::{is_plain, push_segment};
use crate::text::{INLINE, PathText};
use arrayvec::ArrayString;
use std::alloc::{AllocError, Global};

/// Where a value stands: a path, and the names that lead from there, on the stack of a walk. The
/// text is written where it is wanted.
#[derive(Clone, Copy)]
pub enum Trail<'t, 'n> {
    /// At the path that has this text.
    At(&'t str),
    /// One segment further down.
    Below(&'t Trail<'t, 'n>, &'n str),
}

impl Trail<'_, '_> {
    /// The text of the pointer (RFC 6901, section 3).
    ///
    /// Without memory there is none; a short one needs none.
    #[inline(never)]
    pub fn text(&self, alloc: Global) -> Result<PathText, AllocError>
        ensures { IfOk result (λ t. t ≡ path_at self.now) }
    {
        let mut short = ArrayString::new();
        if self.fits(&mut short, INLINE) {
            return Ok(PathText::inline(short));
        }
        let mut text = String::with_capacity(alloc, self.room())?;
        self.write_to(&mut text)?;
        Ok(PathText::from(text))
    }

    /// Appends the text, if it takes no more than the room, which the text has, and each segment is
    /// written as it is.
    fn fits(&self, text: &mut ArrayString<INLINE>, room: usize) -> bool
        ensures { result ≡ true → text.new.bytes ≡ text.old.bytes ++ path_at self.now }
    {
        match self {
            Trail::At(path) => text.try_push_str(path).is_ok(),
            Trail::Below(up, name) => {
                let len = name.len();
                len < room && up.fits(text, room - len - 1) && push_plain(text, name)
            }
        }
    }

    /// How long the text is, if each segment is written as it is.
    fn room(&self) -> usize {
        match self {
            Trail::At(path) => path.len(),
            Trail::Below(up, name) => up.room().saturating_add(1).saturating_add(name.len()),
        }
    }

    /// Appends the text.
    fn write_to(&self, text: &mut String) -> Result<(), AllocError>
        ensures { OnOk result (string_bytes text.new
            ≡ string_bytes text.old ++ path_at self.now) }
    {
        match self {
            Trail::At(path) => text.push_str(path),
            Trail::Below(up, name) => {
                up.write_to(text)?;
                push_segment(text, name)
            }
        }
    }
}

/// Appends a segment, if it has room and is written as it is.
fn push_plain(text: &mut ArrayString<INLINE>, segment: &str) -> bool
    ensures { result ≡ true → text.new.bytes ≡ one_below text.old.bytes segment.now }
{
    if !is_plain(segment) || text.try_push_str("/").is_err() {
        return false;
    }
    text.try_push_str(segment).is_ok()
}
