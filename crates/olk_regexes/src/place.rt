//! A place in a pattern, on the way to where it is refused.
use crate::classes::{read_class, read_class_escape, read_class_item, read_member};
use crate::counts::read_counts;
use crate::escapes::read_escape;
use crate::reason::Reason;
use std::alloc::{AllocError, Global};

/// What ends the reading of a part.
pub enum Stop {
    Refused(Reason),
    Memory(AllocError),
}

impl From<AllocError> for Stop {
    fn from(error: AllocError) -> Stop {
        Stop::Memory(error)
    }
}

/// What is read: a whole pattern, what is in a look-ahead at its start, or what is behind that.
#[derive(Clone, Copy, PartialEq)]
pub enum Kind {
    Whole,
    Ahead,
    Behind,
}

/// How many groups are open, whether a quantifier may stand here, and what is left to be read.
#[derive(Clone, Copy)]
pub struct Place<'a> {
    pub open: u32,
    repeats: bool,
    kind: Kind,
    pub rest: &'a [char],
}

fn group_reason(text: &[char]) -> Reason {
    match text {
        ['=' | '!', ..] => Reason::LookAhead,
        ['<', '=' | '!', ..] => Reason::LookBehind,
        ['<', ..] => Reason::NamedGroup,
        _ => Reason::Group,
    }
}

fn escape_reason(text: &[char]) -> Reason {
    match text {
        ['1'..='9' | 'k', ..] => Reason::Reference,
        ['b' | 'B', ..] => Reason::Boundary,
        ['p' | 'P', ..] => Reason::Property,
        _ => Reason::Escape,
    }
}

// Why an escape of a class is refused, behind its backslash.
fn class_escape_reason(text: &[char]) -> Reason {
    if read_class_escape(text).is_some() {
        return Reason::Class;
    }
    match text {
        ['p' | 'P', ..] => Reason::Property,
        _ => Reason::Escape,
    }
}

// Why what begins here is no member of a class.
fn member_reason(text: &[char]) -> Reason {
    match read_class_item(text) {
        Some((_, ['-', '\\', rest @ ..])) => class_escape_reason(rest),
        Some(_) => Reason::Class,
        None => match text {
            ['\\', rest @ ..] => class_escape_reason(rest),
            _ => Reason::Class,
        },
    }
}

// Why the class is refused, behind its opening bracket.
fn class_reason(text: &[char]) -> Reason {
    let mut rest = match text {
        ['^', members @ ..] => members,
        _ => text,
    };
    for _ in 0..text.len() {
        match read_member(rest) {
            Some((_, behind)) => rest = behind,
            None => return member_reason(rest),
        }
    }
    Reason::Class
}

impl<'a> Place<'a> {
    /// The place before the text.
    pub fn before(kind: Kind, text: &'a [char]) -> Place<'a> {
        Place {
            open: 0,
            repeats: false,
            kind,
            rest: text,
        }
    }

    fn behind(self, repeats: bool, rest: &'a [char]) -> Place<'a> {
        Place {
            repeats,
            rest,
            ..self
        }
    }

    fn behind_opened(self, rest: &'a [char]) -> Place<'a> {
        Place {
            open: self.open.saturating_add(1),
            repeats: false,
            rest,
            ..self
        }
    }

    fn behind_closed(self, rest: &'a [char]) -> Result<Place<'a>, Stop> {
        if self.open == 0 {
            return Err(Stop::Refused(Reason::NotOpened));
        }
        Ok(Place {
            open: self.open - 1,
            repeats: true,
            rest,
            ..self
        })
    }

    fn behind_bar(self, rest: &'a [char]) -> Result<Place<'a>, Stop> {
        if self.open == 0 && self.kind == Kind::Behind {
            return Err(Stop::Refused(Reason::LookAhead));
        }
        Ok(self.behind(false, rest))
    }

    fn behind_escape(self, text: &'a [char]) -> Result<Place<'a>, Stop> {
        match read_escape(text) {
            Some((_, rest)) => Ok(self.behind(true, rest)),
            None => Err(Stop::Refused(escape_reason(text))),
        }
    }

    fn behind_class(self, alloc: Global, text: &'a [char]) -> Result<Place<'a>, Stop> {
        match read_class(alloc, text)? {
            Some((_, rest)) => Ok(self.behind(true, rest)),
            None => Err(Stop::Refused(class_reason(text))),
        }
    }

    fn behind_counts(self) -> Result<Place<'a>, Stop> {
        if !self.repeats {
            return Err(Stop::Refused(Reason::NothingToRepeat));
        }
        match read_counts(self.rest) {
            Some((_, rest)) => Ok(self.behind(false, rest)),
            None => Err(Stop::Refused(Reason::Quantifier)),
        }
    }

    /// The place behind the next part.
    pub fn next(self, alloc: Global) -> Result<Place<'a>, Stop> {
        match self.rest {
            ['(', '?', ':', rest @ ..] => Ok(self.behind_opened(rest)),
            ['(', '?', rest @ ..] => Err(Stop::Refused(group_reason(rest))),
            ['(', rest @ ..] => Ok(self.behind_opened(rest)),
            [')', rest @ ..] => self.behind_closed(rest),
            ['|', rest @ ..] => self.behind_bar(rest),
            ['^' | '$', rest @ ..] => Ok(self.behind(false, rest)),
            ['\\', rest @ ..] => self.behind_escape(rest),
            ['[', rest @ ..] => self.behind_class(alloc, rest),
            ['*' | '+' | '?' | '{', ..] => self.behind_counts(),
            ['}' | ']', ..] => Err(Stop::Refused(Reason::Bracket)),
            [_, rest @ ..] => Ok(self.behind(true, rest)),
            [] => Ok(self),
        }
    }
}
