//! The places of values and of subschemas, as the texts of JSON pointers.
ghost use Rattle.std.specs.Prelude.{◌≡◌, ◌++◌, [], List, ℕ, take, length, string_bytes, IfOk, OnOk, OnErr, is_ok, if◌then◌else◌};
ghost use Rattle.std.specs.List.{flat_map, list_all};
ghost use Rattle.olk_spec.specs.Names.{escaped};
ghost use Rattle.olk_reports.specs.Paths.{HasLastSlash, IsEmptyOrSlash, escaped_char, is_plain_byte, one_below};

use std::alloc::{AllocError, Global};
use std::marker::Model;

/// Where a value stands in an instance: the text of a JSON pointer (RFC 6901, section 3).
#[derive(Drop)]
pub struct InstancePath {
    text: String,
}

impl Model for InstancePath {
    ghost Value = { List ℕ };

    ghost view = { λ p. string_bytes p.text };
}

/// How long a path was before a push.
#[derive(Drop)]
pub struct Mark {
    len: usize,
}

impl InstancePath {
    /// The path of the whole instance, the empty text (RFC 6901, section 5).
    pub fn new(alloc: Global) -> InstancePath
        ensures { result ≡ [] }
    {
        InstancePath {
            text: String::new(alloc),
        }
    }

    /// Goes one segment further down: adds `/` and the segment, with `~` written `~0` and `/`
    /// written `~1` (RFC 6901, section 3).
    ///
    /// The mark leads back by `pop`. Without memory the path is left as it was.
    pub fn push(&mut self, segment: &str) -> Result<Mark, AllocError>
        ensures path { OnOk result (self.new ≡ one_below self.old segment.now) }
        ensures mark { IfOk result (λ m. m.len ≡ length self.old) }
        ensures last_slash { IfOk result (λ m. HasLastSlash self.new m.len) }
        ensures back { IfOk result (λ m. take m.len self.new ≡ self.old) }
        ensures refused { OnErr result (self.new ≡ self.old) }
    {
        descend(&mut self.text, segment)
    }

    /// Cuts the text at the mark, where the last `/` of the text has to stand: after a push it is
    /// the path before it.
    pub fn pop(&mut self, mark: Mark)
        requires { HasLastSlash self.old mark.len }
        ensures { self.new ≡ take mark.len self.old }
    {
        self.text.truncate(mark.len);
    }

    /// The text of the pointer.
    pub fn as_str(&self) -> &str
        ensures { result.now ≡ self.now }
    {
        self.text.as_str()
    }
}

/// Where a subschema stands in a schema: the text of a JSON pointer (RFC 6901, section 3).
#[derive(Drop)]
pub struct Location {
    pointer: String,
}

impl Model for Location {
    ghost Value = { List ℕ };

    ghost view = { λ l. string_bytes l.pointer };
}

impl Location {
    /// The place of the whole schema, the empty text (RFC 6901, section 5).
    pub fn new(alloc: Global) -> Location
        ensures { result ≡ [] }
    {
        Location {
            pointer: String::new(alloc),
        }
    }

    /// The place to which the text of a pointer leads.
    ///
    /// Without memory there is none.
    pub fn of_pointer(alloc: Global, pointer: &str) -> Result<Location, AllocError>
        ensures { IfOk result (λ l. l ≡ pointer.now) }
    {
        Ok(Location {
            pointer: String::from_str(alloc, pointer)?,
        })
    }

    /// The place one segment further down, as a text of its own.
    ///
    /// Without memory there is none.
    pub fn join(&self, alloc: Global, segment: &str) -> Result<Location, AllocError>
        ensures { IfOk result (λ l. l ≡ one_below self.now segment.now) }
    {
        let place = self.pointer.as_str();
        let room = place.len().saturating_add(1).saturating_add(segment.len());
        let mut pointer = String::with_capacity(alloc, room)?;
        pointer.push_str(place)?;
        push_segment(&mut pointer, segment)?;
        Ok(Location { pointer })
    }

    /// A copy of the place, as a text of its own.
    ///
    /// Without memory there is none.
    pub fn try_clone(&self, alloc: Global) -> Result<Location, AllocError>
        ensures { IfOk result (λ l. l ≡ self.now) }
    {
        Ok(Location {
            pointer: String::from_str(alloc, self.pointer.as_str())?,
        })
    }

    /// The text of the pointer.
    pub fn as_str(&self) -> &str
        ensures { result.now ≡ self.now }
    {
        self.pointer.as_str()
    }
}

fn push_char(text: &mut String, c: char) -> Result<(), AllocError>
    ensures { string_bytes text.new
        ≡ (if is_ok result then string_bytes text.old ++ escaped_char c
        else string_bytes text.old) }
{
    match c {
        '~' => text.push_str("~0"),
        '/' => text.push_str("~1"),
        other => text.push(other),
    }
}

fn push_escaped(text: &mut String, segment: &str) -> Result<(), AllocError>
    ensures ok { OnOk result (string_bytes text.new
        ≡ string_bytes text.old ++ flat_map escaped segment.now) }
    ensures err { OnErr result
        ((rest : List ℕ) × (string_bytes text.new ≡ string_bytes text.old ++ rest)) }
{
    if is_plain(segment) {
        return text.push_str(segment);
    }
    for c in segment.chars() {
        push_char(text, c)?;
    }
    Ok(())
}

/// Whether the segment is written as it is.
pub(crate) fn is_plain(segment: &str) -> bool
    ensures { result ≡ list_all is_plain_byte segment.now }
{
    segment.as_bytes().iter().all(|b| *b != b'~' && *b != b'/')
}

/// Where memory fails, what was there stays, with nothing or a slash and more behind it.
pub(crate) fn push_segment(text: &mut String, segment: &str) -> Result<(), AllocError>
    ensures ok { OnOk result (string_bytes text.new
        ≡ one_below (string_bytes text.old) segment.now) }
    ensures err { OnErr result
        ((rest : List ℕ) × (string_bytes text.new ≡ string_bytes text.old ++ rest)
        × IsEmptyOrSlash rest) }
{
    text.push_str("/")?;
    push_escaped(text, segment)?;
    Ok(())
}

/// One segment further down; without memory the text is left as it was.
#[tactic(auto, using(crate::proofs::Paths::pushed_paths))]
fn descend(text: &mut String, segment: &str) -> Result<Mark, AllocError>
    ensures path { OnOk result
        (string_bytes text.new ≡ one_below (string_bytes text.old) segment.now) }
    ensures mark { IfOk result (λ m. m.len ≡ length (string_bytes text.old)) }
    ensures last_slash { IfOk result (λ m. HasLastSlash (string_bytes text.new) m.len) }
    ensures back { IfOk result (λ m. take m.len (string_bytes text.new)
        ≡ string_bytes text.old) }
    ensures refused { OnErr result (string_bytes text.new ≡ string_bytes text.old) }
{
    let len = text.len();
    match push_segment(text, segment) {
        Ok(()) => Ok(Mark { len }),
        Err(error) => {
            text.truncate(len);
            Err(error)
        }
    }
}
