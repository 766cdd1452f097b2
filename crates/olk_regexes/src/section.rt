//! Where a pattern is refused.
use crate::pattern::built_of;
use crate::place::{Kind, Place, Stop};
use crate::reason::{Reason, Refusal};
use crate::rule::{behind_look_ahead, read_tree};
use crate::size::measure;
use std::alloc::{AllocError, Global};

// A part of a pattern that is read by itself: all of it, what is in a look-ahead at its start, or
// what is behind that.
#[derive(Clone, Copy)]
struct Section<'a> {
    kind: Kind,
    text: &'a [char],
    // How many bytes of the pattern stand before it.
    before: usize,
}

// How many bytes the characters have.
fn bytes(text: &[char]) -> usize {
    let mut bytes = 0usize;
    for c in text {
        bytes = bytes.saturating_add(c.len_utf8());
    }
    bytes
}

impl<'a> Section<'a> {
    fn start(self) -> Place<'a> {
        Place::before(self.kind, self.text)
    }

    // The refusal of what begins with this rest of the section.
    fn refusal(self, reason: Reason, rest: &[char]) -> Refusal {
        let read = bytes(self.text).saturating_sub(bytes(rest));
        Refusal::at(reason, self.before.saturating_add(read))
    }

    // Why the section is not of the syntax, and what is left to be read there.
    fn fault(self, alloc: Global) -> Result<Option<(Reason, &'a [char])>, AllocError> {
        let mut place = self.start();
        for _ in 0..self.text.len() {
            match place.next(alloc) {
                Ok(next) => place = next,
                Err(Stop::Refused(reason)) => return Ok(Some((reason, place.rest))),
                Err(Stop::Memory(error)) => return Err(error),
            }
        }
        if place.open == 0 {
            Ok(None)
        } else {
            Ok(Some((Reason::NotClosed, place.rest)))
        }
    }

    // The place behind so many parts of a section without fault.
    fn behind_parts(self, alloc: Global, parts: usize) -> Result<Place<'a>, AllocError> {
        let mut place = self.start();
        for _ in 0..parts {
            match place.next(alloc) {
                Ok(next) => place = next,
                Err(Stop::Refused(_)) => break,
                Err(Stop::Memory(error)) => return Err(error),
            }
        }
        Ok(place)
    }

    // What is before the place, with its groups closed, as a pattern.
    fn pattern_before(self, alloc: Global, place: Place<'a>) -> Result<Vec<char>, AllocError> {
        let mut pattern = Vec::new(alloc);
        let mut open = place.open;
        if self.kind != Kind::Whole {
            pattern.extend_from_slice(&['^', '(', '?', ':'])?;
            open = open.saturating_add(1);
        }
        let length = self.text.len().saturating_sub(place.rest.len());
        if let Some(read) = self.text.get(..length) {
            pattern.extend_from_slice(read)?;
        }
        for _ in 0..open {
            pattern.push(')')?;
        }
        Ok(pattern)
    }

    // Why what is before the place is not built.
    fn limit(self, alloc: Global, place: Place<'a>) -> Result<Option<Reason>, AllocError> {
        match read_tree(alloc, &self.pattern_before(alloc, place)?)? {
            Some(tree) => {
                if measure(&tree).is_none() {
                    return Ok(Some(Reason::TooLarge));
                }
                match built_of(alloc, &tree)? {
                    Some(_) => Ok(None),
                    None => Ok(Some(Reason::Edge)),
                }
            }
            None => Ok(Some(Reason::TooLarge)),
        }
    }

    // Of how many parts what is before the last is built, and what is behind it is not.
    fn parts_to_limit(self, alloc: Global) -> Result<usize, AllocError> {
        let mut built = 0usize;
        let mut refused = self.text.len();
        for _ in 0..usize::BITS {
            let between = refused.saturating_sub(built);
            if between <= 1 {
                break;
            }
            let parts = built.saturating_add(between / 2);
            match self.limit(alloc, self.behind_parts(alloc, parts)?)? {
                Some(_) => refused = parts,
                None => built = parts,
            }
        }
        Ok(refused)
    }

    // The `^` or `$` that stands wrong with the last of so many parts: one in what the part
    // repeats, the part itself, or a `$` before it.
    fn edge(self, alloc: Global, parts: usize) -> Result<&'a [char], AllocError> {
        let last = self.behind_parts(alloc, parts.saturating_sub(1))?;
        let is_start = matches!(last.rest, ['^' | '*' | '+' | '?' | '{', ..]);
        let mut edge = last.rest;
        let mut place = self.start();
        for _ in 0..parts {
            match place.rest {
                ['$', ..] => edge = place.rest,
                ['^', ..] if is_start => edge = place.rest,
                _ => {}
            }
            match place.next(alloc) {
                Ok(next) => place = next,
                Err(Stop::Refused(_)) => break,
                Err(Stop::Memory(error)) => return Err(error),
            }
        }
        Ok(edge)
    }

    // Why the section is refused, if it is.
    fn refused(self, alloc: Global) -> Result<Option<Refusal>, AllocError> {
        if let Some((reason, rest)) = self.fault(alloc)? {
            return Ok(Some(self.refusal(reason, rest)));
        }
        let end = self.behind_parts(alloc, self.text.len())?;
        if self.limit(alloc, end)?.is_none() {
            return Ok(None);
        }
        let parts = self.parts_to_limit(alloc)?;
        let before = self.behind_parts(alloc, parts.saturating_sub(1))?;
        match self.limit(alloc, self.behind_parts(alloc, parts)?)? {
            Some(Reason::Edge) => { Ok(Some(self.refusal(Reason::Edge, self.edge(alloc, parts)?))) }
            _ => Ok(Some(self.refusal(Reason::TooLarge, before.rest))),
        }
    }
}

// Why a pattern is refused that begins with a look-ahead, behind the opening of that.
fn explain_ahead(alloc: Global, text: &[char]) -> Result<Option<Refusal>, AllocError> {
    let ahead = Section {
        kind: Kind::Ahead,
        text,
        before: 4,
    };
    match ahead.fault(alloc)? {
        Some((Reason::NotOpened, [')', rest @ ..])) => {
            let length = text.len().saturating_sub(rest.len()).saturating_sub(1);
            let inside = Section {
                text: text.get(..length).unwrap_or(text),
                ..ahead
            };
            if let Some(refusal) = inside.refused(alloc)? {
                return Ok(Some(refusal));
            }
            let read = bytes(text).saturating_sub(bytes(rest));
            let behind = Section {
                kind: Kind::Behind,
                text: rest,
                before: ahead.before.saturating_add(read),
            };
            Ok(behind.refused(alloc)?)
        }
        Some((reason, rest)) => Ok(Some(ahead.refusal(reason, rest))),
        None => Ok(Some(ahead.refusal(Reason::NotClosed, &[]))),
    }
}

/// Why the pattern is refused, which it is.
///
/// # Errors
///
/// There is no memory.
pub fn explain(alloc: Global, pattern: &[char]) -> Result<Refusal, AllocError> {
    let whole = Section {
        kind: Kind::Whole,
        text: pattern,
        before: 0,
    };
    let refusal = match behind_look_ahead(pattern) {
        Some(text) => explain_ahead(alloc, text)?,
        None => whole.refused(alloc)?,
    };
    Ok(refusal.unwrap_or(whole.refusal(Reason::TooLarge, &[])))
}
