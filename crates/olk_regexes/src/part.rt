//! Building an expression from its parts.
ghost use Rattle.std.specs.Prelude.{◌≡◌, ◌≤◌, true, [], IfOk};
ghost use Rattle.std.specs.Bool.{Decides};
ghost use Rattle.std.specs.Str.{chars};
ghost use Rattle.olk_regexes.specs.Language.{blank, one, seq, alt, star, framed, Finds};
ghost use Rattle.olk_regexes.specs.Limits.{marks_of, depth_of, parts_of, fits};
ghost use Rattle.olk_regexes.specs.Search.{finds};
ghost use Rattle.olk_regexes.specs.Marks.{size, expr, matches, IsBuilt, IsBuilt-prop};

use crate::class::Class;
use crate::edges::is_placed;
use crate::regex::Regex;
use crate::search::search;
use crate::size::larger;
use std::alloc::{AllocError, Global};

/// An expression that is not too large, how large it is, and whether it matches the empty text.
#[derive(Drop)]
pub struct Part {
    regex: Regex,
    marks: usize,
    depth: usize,
    parts: usize,
    empty: bool,
    ghost built: { IsBuilt regex } by { IsBuilt-prop regex },
    ghost sized: { marks ≡ size regex },
    ghost marked: { marks ≡ marks_of (expr regex) },
    ghost deep: { depth ≡ depth_of (expr regex) },
    ghost large: { parts ≡ parts_of (expr regex) },
    ghost few: { marks ≤ 1024 },
    ghost shallow: { depth ≤ 1024 },
    ghost small: { parts ≤ 65536 },
    ghost empties: { empty ≡ matches (expr regex) [] },
}

impl Part {
    ghost use Rattle.olk_regexes.specs.Built.{seen_part};
    ghost use Rattle.olk_regexes.specs.Says.{placed};

    /// Matches the empty text alone.
    pub fn nothing() -> Part
        ensures { expr result.regex ≡ blank }
    {
        Part {
            regex: Regex::Empty,
            marks: 0,
            depth: 0,
            parts: 1,
            empty: true,
        }
    }

    /// Matches a character of the class.
    pub fn one(class: Class) -> Part
        requires { fits (one class.negated class.members.items) ≡ true }
        ensures { expr result.regex ≡ one class.negated class.members.items }
    {
        let members = class.members.len();
        Part {
            regex: Regex::One(class),
            marks: 0,
            depth: 0,
            parts: 1 + members,
            empty: false,
        }
    }

    /// Matches a text of `self` and then one of `next`.
    ///
    /// # Errors
    ///
    /// There is no memory.
    pub fn then(self, alloc: Global, next: Part) -> Result<Part, AllocError>
        requires { fits (seq (expr self.regex) (expr next.regex)) ≡ true }
        ensures { IfOk result (λ p. expr p.regex ≡ seq (expr self.regex) (expr next.regex)) }
    {
        let marks = 1 + self.marks + next.marks;
        let depth = 1 + larger(self.depth, next.depth);
        let parts = 1 + self.parts + next.parts;
        let empty = self.empty && next.empty;
        let regex = Regex::Then {
            first: Box::new(alloc, self.regex)?,
            marks: self.marks,
            first_empty: self.empty,
            second: Box::new(alloc, next.regex)?,
            second_empty: next.empty,
        };
        Ok(Part {
            regex,
            marks,
            depth,
            parts,
            empty,
        })
    }

    /// Matches the texts of both.
    ///
    /// # Errors
    ///
    /// There is no memory.
    pub fn or(self, alloc: Global, other: Part) -> Result<Part, AllocError>
        requires { fits (alt (expr self.regex) (expr other.regex)) ≡ true }
        ensures { IfOk result (λ p. expr p.regex ≡ alt (expr self.regex) (expr other.regex)) }
    {
        let marks = self.marks + other.marks;
        let depth = 1 + larger(self.depth, other.depth);
        let parts = 1 + self.parts + other.parts;
        let empty = self.empty || other.empty;
        let regex = Regex::Or {
            first: Box::new(alloc, self.regex)?,
            marks: self.marks,
            second: Box::new(alloc, other.regex)?,
        };
        Ok(Part {
            regex,
            marks,
            depth,
            parts,
            empty,
        })
    }

    /// Matches any number of texts of `self`, joined.
    ///
    /// # Errors
    ///
    /// There is no memory.
    pub fn star(self, alloc: Global) -> Result<Part, AllocError>
        requires { fits (star (expr self.regex)) ≡ true }
        ensures { IfOk result (λ p. expr p.regex ≡ star (expr self.regex)) }
    {
        let marks = 1 + self.marks;
        let depth = 1 + self.depth;
        let parts = 1 + self.parts;
        let regex = Regex::Star(Box::new(alloc, self.regex)?);
        Ok(Part {
            regex,
            marks,
            depth,
            parts,
            empty: true,
        })
    }

    /// The part, if `^` and `$` stand in it where they may.
    pub fn placed(self) -> Option<Part>
        ensures { seen_part result ≡ placed (Some (expr self.regex)) }
    {
        if is_placed(&self.regex) {
            Some(self)
        } else {
            None
        }
    }

    /// Whether the expression matches a part of the text.
    pub fn is_match(&self, text: &str) -> bool
        ensures found { Decides result (Finds (expr self.now.regex) (framed (chars text.now))) }
        ensures test { result ≡ finds (matches (expr self.now.regex)) (framed (chars text.now)) }
    {
        search(&self.regex, self.empty, self.marks, text)
    }
}
