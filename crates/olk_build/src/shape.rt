//! What a member of a schema object is as a keyword, apart from the schemas inside.
ghost use Rattle.std.specs.Prelude.{◌≡◌};
ghost use Rattle.olk_build.specs.Reading.{reads_of};

use olk_base::CompiledPattern;
use olk_tree::names::SortedNames;
use serde_json::Value;

/// A keyword that is read, with what its value holds apart from the schemas inside.
#[derive(Drop)]
pub enum Shape<K, R> {
    /// `properties`: the names that it declares.
    Properties(SortedNames),
    /// `patternProperties`: its patterns, in the order of its entries.
    PatternProperties(Vec<CompiledPattern<R>>),
    /// `additionalProperties` that is an object.
    AdditionalProperties,
    /// `additionalProperties` that is `false`.
    NoOthers,
    /// `additionalProperties` that is `true`.
    AnyOthers,
    /// `propertyNames` that is an object.
    PropertyNames,
    /// `propertyNames` that is `false`.
    NoNames,
    /// `propertyNames` that is neither `false` nor an object.
    AnyNames,
    /// `required`: the names that it lists.
    Required(Vec<String>),
    /// `dependentRequired`: its keys, and beside them the names that each entry lists.
    DependentRequired(SortedNames, Vec<Vec<String>>),
    /// `dependentSchemas`: its keys.
    DependentSchemas(SortedNames),
    /// `dependencies`: its keys, and beside them the names that each entry lists, none where it is
    /// a schema.
    Dependencies(SortedNames, Vec<Option<Vec<String>>>),
    /// `propertyDependencies`: its keys, and beside them the texts of each entry.
    PropertyDependencies(SortedNames, Vec<SortedNames>),
    /// `allOf`.
    AllOf,
    /// `anyOf`.
    AnyOf,
    /// `oneOf`.
    OneOf,
    /// `not`, and its value.
    Not(Value),
    /// `if`, where it is read.
    If,
    /// `then`, where `if` is read.
    Then,
    /// `else`, where `if` is read.
    Else,
    /// `if`, `then` or `else`, where `if` is not read.
    Unpaired,
    /// A leaf.
    Leaf(K),
    /// A name that nothing reads.
    Unread,
}

/// Which places a keyword reads in its value.
#[derive(Clone, Copy)]
pub enum ReadPlaces {
    /// None.
    Nothing,
    /// The value itself.
    Itself,
    /// Each entry of an object.
    Entries,
    /// Each entry of an object, but for those that are arrays.
    SchemaEntries,
    /// Each entry of an object's entries.
    InnerEntries,
    /// Each branch of an array.
    Branches,
}

impl<K, R> Shape<K, R> {
    /// The places that are read.
    pub fn reads(&self) -> ReadPlaces
        ensures { result ≡ reads_of self.now }
    {
        match self {
            Shape::Properties(_) | Shape::PatternProperties(_) | Shape::DependentSchemas(_) => {
                ReadPlaces::Entries
            }
            Shape::Dependencies(_, _) => ReadPlaces::SchemaEntries,
            Shape::PropertyDependencies(_, _) => ReadPlaces::InnerEntries,
            Shape::AllOf | Shape::AnyOf | Shape::OneOf => ReadPlaces::Branches,
            Shape::AdditionalProperties
            | Shape::PropertyNames
            | Shape::Not(_)
            | Shape::If
            | Shape::Then
            | Shape::Else => ReadPlaces::Itself,
            Shape::NoOthers
            | Shape::AnyOthers
            | Shape::NoNames
            | Shape::AnyNames
            | Shape::Required(_)
            | Shape::DependentRequired(_, _)
            | Shape::Unpaired
            | Shape::Leaf(_)
            | Shape::Unread => ReadPlaces::Nothing,
        }
    }
}
