//! What is supported of a keyword of JSON Schema, of 2020-12 and of older drafts.
use olk_base::analyze_pattern;
use olk_numbers::{Divisor, JsonNumber};
use olk_regexes::{Refusal, why_refused};
use olk_vocabulary::Keyword;
use serde_json::{Map, Number, Value};
use std::alloc::{AllocError, Global};
use std::fmt::{self, Display, Formatter};

/// A member of a schema object.
#[derive(Clone, Copy)]
pub struct Member<'s> {
    /// All members.
    pub members: &'s Map<String, Value>,
    /// Its name.
    pub name: &'s str,
    /// Its value.
    pub value: &'s Value,
}

/// What is not supported at a place of a schema, or is a malformed pattern.
#[derive(Clone, Copy)]
pub enum Unsupported<'s> {
    /// A keyword.
    Keyword(&'s str),
    /// The value that a keyword has here.
    Value(&'s str),
    /// A pattern, and why it is refused.
    Pattern(Refusal),
    /// A reference to what the schema has not.
    NoPlace,
    /// A reference behind as many as are followed, which are so many.
    TooFar(usize),
    /// A reference in a schema that `$id` names.
    BelowId,
}

impl Display for Unsupported<'_> {
    fn fmt<W: fmt::Write>(&self, f: &mut Formatter<W>) -> fmt::Result {
        match self {
            Unsupported::Keyword(name) => write!(f, "\"{name}\" is not supported"),
            Unsupported::Value(name) => write!(f, "this value of \"{name}\" is not supported"),
            Unsupported::Pattern(refusal) if refusal.reason().is_unsupported() => {
                write!(f, "{refusal}")
            }
            Unsupported::Pattern(refusal) => write!(f, "malformed pattern: {refusal}"),
            Unsupported::NoPlace => write!(f, "\"$ref\" names no place of the schema"),
            Unsupported::TooFar(limit) => {
                f.write_str("recursive references are not supported ")?;
                write!(
                    f,
                    "(\"$ref\" leads back to itself, or on more than {limit} times)"
                )
            }
            Unsupported::BelowId => write!(f, "\"$ref\" below \"$id\" is not supported"),
        }
    }
}

/// Which schemas a keyword holds that are read.
#[derive(Clone, Copy)]
pub enum Held {
    /// None.
    Nothing,
    /// Its value.
    Itself,
    /// The items of its value.
    Items,
    /// The entries of its value.
    Entries,
    /// The entries of its value's entries.
    EntriesOfEntries,
}

impl<'s> Member<'s> {
    /// What of the keyword is not supported, but for what is at its entries.
    ///
    /// # Errors
    ///
    /// Out of memory.
    pub fn unsupported(self, alloc: Global) -> Result<Option<Unsupported<'s>>, AllocError> {
        if self.is_unsupported() {
            return Ok(Some(Unsupported::Keyword(self.name)));
        }
        if self.has_unsupported_value() {
            return Ok(Some(Unsupported::Value(self.name)));
        }
        match (self.name, self.value) {
            ("pattern", Value::String(pattern)) => unsupported_pattern(alloc, pattern.as_str()),
            _ => Ok(None),
        }
    }

    /// What at an entry of the keyword's value is not supported.
    ///
    /// # Errors
    ///
    /// Out of memory.
    pub fn unsupported_entry(
        self,
        alloc: Global,
        key: &str,
        entry: &Value,
    ) -> Result<Option<Unsupported<'s>>, AllocError> {
        match self.name {
            "patternProperties" => match analyze_pattern(alloc, key)? {
                Some(_) => Ok(None),
                None => unsupported_pattern(alloc, key),
            },
            // draft 3: the name of a property that has to be there
            "dependencies" if entry.is_string() => Ok(Some(Unsupported::Value(self.name))),
            _ => Ok(None),
        }
    }

    /// The text of a reference, if it is one.
    pub fn reference(self) -> Option<&'s str> {
        match self.name {
            "$ref" => self.value.as_str(),
            _ => None,
        }
    }

    /// Which schemas the keyword holds that are read.
    pub fn held(self) -> Held {
        match self.name {
            "properties" | "patternProperties" | "dependentSchemas" | "dependencies" => {
                Held::Entries
            }
            "propertyDependencies" => Held::EntriesOfEntries,
            "allOf" | "anyOf" | "oneOf" | "prefixItems" => Held::Items,
            "additionalProperties" | "propertyNames" | "not" | "items" | "contains" => Held::Itself,
            "if" if self.is_beside("then") || self.is_beside("else") => Held::Itself,
            "then" | "else" if self.is_beside("if") => Held::Itself,
            _ => Held::Nothing,
        }
    }

    fn is_beside(self, name: &str) -> bool {
        self.members.contains_key(name)
    }

    /// Whether the keyword is supported with no value.
    fn is_unsupported(self) -> bool {
        match self.name {
            "$dynamicRef" | "$recursiveRef" => true,
            "unevaluatedProperties" | "unevaluatedItems" => true,
            // draft 3
            "disallow" | "divisibleBy" | "extends" => true,
            // up to 2019-09, where it asserted something beside a list alone
            "additionalItems" => self
                .members
                .get("items")
                .is_some_and(|items| items.is_array()),
            _ => false,
        }
    }

    /// Whether a supported keyword has a value that meant something in an older draft, or that the
    /// standard allows, and that is not supported.
    fn has_unsupported_value(self) -> bool {
        match self.value {
            // drafts 3 and 4
            Value::Bool(_) => {
                matches!(
                    self.name,
                    "exclusiveMinimum" | "exclusiveMaximum" | "required"
                )
            }
            Value::String(_) => self.name == "type" && is_kind_of_draft_3(self.value),
            // up to 2019-09
            Value::Array(_) if self.name == "items" => true,
            Value::Array(kinds) => self.name == "type" && kinds.iter().any(is_kind_of_draft_3),
            Value::Number(number) => has_unsupported_number(self.name, number),
            Value::Null | Value::Object(_) => false,
        }
    }
}

/// Why a pattern is refused, if it is.
fn unsupported_pattern<'s>(
    alloc: Global,
    pattern: &str,
) -> Result<Option<Unsupported<'s>>, AllocError> {
    match why_refused(alloc, pattern)? {
        Some(refusal) => Ok(Some(Unsupported::Pattern(refusal))),
        None => Ok(None),
    }
}

/// Whether this is a kind in draft 3 alone: any, or a schema.
fn is_kind_of_draft_3(kind: &Value) -> bool {
    kind.is_object() || kind.as_str() == Some("any")
}

/// Whether the standard allows a keyword this number, which is not read.
fn has_unsupported_number(name: &str, number: &Number) -> bool {
    let value = JsonNumber::of(number);
    let is_positive = number.as_f64().is_some_and(|x| 0.0 < x);
    let is_read = if is_limit(name) {
        value.natural().is_some() || !value.is_integral()
    } else {
        name != "multipleOf" || Divisor::of(number).is_some()
    };
    is_positive && !is_read
}

/// Whether a keyword wants a whole number that is not negative.
fn is_limit(name: &str) -> bool {
    match Keyword::named(name) {
        Some(Keyword::Limit(_)) => true,
        _ => matches!(name, "minContains" | "maxContains"),
    }
}
