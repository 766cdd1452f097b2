//! Why a pattern is refused, and where.
ghost use Rattle.std.specs.Prelude.{◌≡◌};

use std::fmt::{self, Display, Formatter, Write};

/// Why a pattern is refused.
#[derive(Clone, Copy, Debug, Drop, PartialEq)]
pub enum Reason {
    /// `(?=A)`, and `(?!A)` but where it is read.
    LookAhead,
    /// `(?<=A)` and `(?<!A)`.
    LookBehind,
    /// `(?<name>A)`.
    NamedGroup,
    /// Another group that begins with `(?`.
    Group,
    /// `\1` and `\k<name>`.
    Reference,
    /// `\b` and `\B` outside a class.
    Boundary,
    /// `\p{..}` and `\P{..}`.
    Property,
    /// Another escape that is not of the syntax.
    Escape,
    /// A class that is not closed, or has a range or an escape that is not of the syntax.
    Class,
    /// A quantifier with nothing to repeat before it.
    NothingToRepeat,
    /// A quantifier in braces that is not of the syntax.
    Quantifier,
    /// A `]` or `}` that stands for itself.
    Bracket,
    /// A group that is not closed.
    NotClosed,
    /// A `)` without its `(`.
    NotOpened,
    /// More sequences and stars, parts or levels than are built.
    TooLarge,
    /// A `^` where something can be before it, or a `$` where something can be behind it.
    Edge,
}

/// Why a pattern is refused, and where.
#[derive(Clone, Copy, Debug, Drop, PartialEq)]
pub struct Refusal {
    reason: Reason,
    byte: usize,
}

impl Refusal {
    /// What is refused for the reason behind so many bytes.
    pub(crate) fn at(reason: Reason, byte: usize) -> Refusal {
        Refusal { reason, byte }
    }

    /// Why it is refused.
    pub fn reason(&self) -> Reason
        ensures { result ≡ self.now.reason }
    {
        self.reason
    }

    /// How many bytes of the pattern stand before what is refused. Where that is its size, it is
    /// the part with which it is too large.
    pub fn byte(&self) -> usize
        ensures { result ≡ self.now.byte }
    {
        self.byte
    }
}

impl Reason {
    /// Whether what is refused for this may be a pattern of ECMA-262 with its flag u, which only
    /// isn't read. What is refused for another reason is none.
    pub fn is_unsupported(self) -> bool {
        match self {
            Reason::LookAhead | Reason::LookBehind => true,
            Reason::NamedGroup | Reason::Group => true,
            Reason::Reference | Reason::Boundary => true,
            Reason::Property => true,
            Reason::TooLarge | Reason::Edge => true,
            Reason::Escape | Reason::Class => false,
            Reason::NothingToRepeat | Reason::Quantifier => false,
            Reason::Bracket | Reason::NotClosed | Reason::NotOpened => false,
        }
    }
}

impl Display for Reason {
    fn fmt<W: Write>(&self, f: &mut Formatter<W>) -> fmt::Result {
        f.write_str(match self {
            Reason::LookAhead => "look-ahead is not supported",
            Reason::LookBehind => "look-behind is not supported",
            Reason::NamedGroup => "a named group is not supported",
            Reason::Group => "this group is not supported",
            Reason::Reference => "a reference to a group is not supported",
            Reason::Boundary => "a word boundary is not supported",
            Reason::Property => "a property of characters is not supported",
            Reason::Escape => "not an escape",
            Reason::Class => "not a class of characters",
            Reason::NothingToRepeat => "nothing to repeat",
            Reason::Quantifier => "not a quantifier",
            Reason::Bracket => "a bracket without a backslash",
            Reason::NotClosed => "a group is not closed",
            Reason::NotOpened => "no group to close",
            Reason::TooLarge => "a pattern of this size is not supported",
            Reason::Edge => "^ or $ inside a pattern is not supported",
        })
    }
}

impl Display for Refusal {
    fn fmt<W: Write>(&self, f: &mut Formatter<W>) -> fmt::Result {
        write!(f, "{} (byte {})", self.reason, self.byte)
    }
}
