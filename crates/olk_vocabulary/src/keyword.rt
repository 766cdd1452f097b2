//! The keywords that are read, by their names.
ghost use Rattle.std.specs.Prelude.{◌≡◌};
ghost use Rattle.olk_vocabulary.specs.Keywords.{keyword_named, keyword_name};

/// A keyword that bounds numbers.
#[derive(Clone, Copy)]
pub enum Bound {
    /// `minimum`: a number isn't below it.
    Minimum,
    /// `maximum`: a number isn't above it.
    Maximum,
    /// `exclusiveMinimum`: a number is above it.
    ExclusiveMinimum,
    /// `exclusiveMaximum`: a number is below it.
    ExclusiveMaximum,
}

/// A keyword that limits how long a text, an array or an object is.
#[derive(Clone, Copy)]
pub enum Limit {
    /// `minLength`: a text has at least so many characters.
    MinLength,
    /// `maxLength`: a text has at most so many characters.
    MaxLength,
    /// `minItems`: an array has at least so many items.
    MinItems,
    /// `maxItems`: an array has at most so many items.
    MaxItems,
    /// `minProperties`: an object has at least so many members.
    MinProperties,
    /// `maxProperties`: an object has at most so many members.
    MaxProperties,
}

/// A keyword that the vocabulary reads (JSON Schema 2020-12 Validation, 6.1 to 6.5).
#[derive(Clone, Copy)]
pub enum Keyword {
    /// `type`: of which kind a value is.
    Type,
    /// `enum`: a value is one of these.
    Enum,
    /// `const`: a value is this one.
    Const,
    /// `multipleOf`: a number is a multiple of this one.
    MultipleOf,
    /// A bound of numbers.
    Bound(Bound),
    /// A limit of lengths.
    Limit(Limit),
    /// `pattern`: what a text is to match.
    Pattern,
    /// `uniqueItems`: whether no two items of a list may be the same.
    UniqueItems,
}

impl Keyword {
    /// The keyword of this name, if it is read.
    pub fn named(name: &str) -> Option<Keyword>
        ensures { result ≡ keyword_named name.now }
    {
        match name {
            "type" => Some(Keyword::Type),
            "enum" => Some(Keyword::Enum),
            "const" => Some(Keyword::Const),
            "multipleOf" => Some(Keyword::MultipleOf),
            "minimum" => Some(Keyword::Bound(Bound::Minimum)),
            "maximum" => Some(Keyword::Bound(Bound::Maximum)),
            "exclusiveMinimum" => Some(Keyword::Bound(Bound::ExclusiveMinimum)),
            "exclusiveMaximum" => Some(Keyword::Bound(Bound::ExclusiveMaximum)),
            "minLength" => Some(Keyword::Limit(Limit::MinLength)),
            "maxLength" => Some(Keyword::Limit(Limit::MaxLength)),
            "minItems" => Some(Keyword::Limit(Limit::MinItems)),
            "maxItems" => Some(Keyword::Limit(Limit::MaxItems)),
            "minProperties" => Some(Keyword::Limit(Limit::MinProperties)),
            "maxProperties" => Some(Keyword::Limit(Limit::MaxProperties)),
            "pattern" => Some(Keyword::Pattern),
            "uniqueItems" => Some(Keyword::UniqueItems),
            _ => None,
        }
    }

    /// Its name.
    pub fn name(self) -> &'static str
        ensures { result.now ≡ keyword_name self }
    {
        match self {
            Keyword::Type => "type",
            Keyword::Enum => "enum",
            Keyword::Const => "const",
            Keyword::MultipleOf => "multipleOf",
            Keyword::Bound(Bound::Minimum) => "minimum",
            Keyword::Bound(Bound::Maximum) => "maximum",
            Keyword::Bound(Bound::ExclusiveMinimum) => "exclusiveMinimum",
            Keyword::Bound(Bound::ExclusiveMaximum) => "exclusiveMaximum",
            Keyword::Limit(Limit::MinLength) => "minLength",
            Keyword::Limit(Limit::MaxLength) => "maxLength",
            Keyword::Limit(Limit::MinItems) => "minItems",
            Keyword::Limit(Limit::MaxItems) => "maxItems",
            Keyword::Limit(Limit::MinProperties) => "minProperties",
            Keyword::Limit(Limit::MaxProperties) => "maxProperties",
            Keyword::Pattern => "pattern",
            Keyword::UniqueItems => "uniqueItems",
        }
    }
}
