//! Keywords, over the nodes that they hold.
use crate::additional_properties::Restriction;
use crate::all_of::{AllOf, SingleValueAllOf};
use crate::any_of::{AnyOf, SingleAnyOf};
use crate::dependencies::{Dependencies, DependentRequired, DependentSchemas};
use crate::if_::{IfElse, IfThen, IfThenElse};
use crate::not::Not;
use crate::one_of::{OneOf, SingleOneOf};
use crate::pattern_properties::{PatternProperties, SingleValuePatternProperties};
use crate::properties::{BigProperties, SmallProperties, SmallPropertiesWithRequired2};
use crate::property_dependencies::PropertyDependencies;
use crate::property_names::{PropertyNames, PropertyNamesFalse};
use crate::required::RequiredValidator;
use olk_base::{Leaf, RegexEngine};
use olk_reports::Location;

/// A keyword of a schema object, over the nodes that it holds.
#[derive(Drop)]
pub enum KeywordOver<K, R, N> {
    /// `properties` of few names.
    SmallProperties(SmallProperties<N>),
    /// `properties` of many names.
    BigProperties(BigProperties<N>),
    /// `properties` together with `required` of two names.
    PropertiesWithRequired2(Box<SmallPropertiesWithRequired2<N>>),
    /// `required`.
    Required(RequiredValidator),
    /// `allOf` of several branches, or of none.
    AllOf(AllOf<N>),
    /// `allOf` of one branch.
    SingleValueAllOf(SingleValueAllOf<N>),
    /// `anyOf` of several branches, or of none.
    AnyOf(AnyOf<N>),
    /// `anyOf` of one branch.
    SingleAnyOf(SingleAnyOf<N>),
    /// `oneOf` of several branches, or of none.
    OneOf(OneOf<N>),
    /// `oneOf` of one branch.
    SingleOneOf(SingleOneOf<N>),
    /// `not`.
    Not(Not<N>),
    /// `if` with `then`.
    IfThen(Box<IfThen<N>>),
    /// `if` with `else`.
    IfElse(Box<IfElse<N>>),
    /// `if` with `then` and `else`.
    IfThenElse(Box<IfThenElse<N>>),
    /// `dependencies`.
    Dependencies(Dependencies<N>),
    /// `dependentRequired`.
    DependentRequired(DependentRequired<N>),
    /// `dependentSchemas`.
    DependentSchemas(DependentSchemas<N>),
    /// `propertyNames` with a subschema.
    PropertyNames(PropertyNames<N>),
    /// `propertyNames` with `false`.
    PropertyNamesFalse(PropertyNamesFalse),
    /// `propertyDependencies`.
    PropertyDependencies(PropertyDependencies<N>),
    /// `patternProperties` of several patterns, or of none.
    PatternProperties(PatternProperties<R, N>),
    /// `patternProperties` of one pattern.
    SingleValuePatternProperties(Box<SingleValuePatternProperties<R, N>>),
    /// `additionalProperties` that is `false` or a schema, with what it takes over.
    AdditionalProperties(Restriction<R, N>),
    /// A leaf, and its place.
    Leaf(Location, K),
}

impl<K: Leaf, R: RegexEngine, N> KeywordOver<K, R, N> {
    ghost use Rattle.std.specs.Prelude.{◌≡◌};
    ghost use Rattle.olk_base.specs.Kit.{kit};
    ghost use Rattle.olk_tree.specs.Validators.{answers_of};

    /// Where it stands in its schema, a JSON pointer (RFC 6901).
    #[tactic(auto, unfolding(crate::specs::Validators::answers_of))]
    pub fn location(&self) -> &str
        ensures { result.now ≡ (answers_of (kit K.Leaf R.RegexEngine) self.now).location }
    {
        match self {
            KeywordOver::SmallProperties(keyword) => keyword.location.as_str(),
            KeywordOver::BigProperties(keyword) => keyword.location.as_str(),
            KeywordOver::PropertiesWithRequired2(keyword) => keyword.location.as_str(),
            KeywordOver::Required(keyword) => keyword.location.as_str(),
            KeywordOver::AllOf(keyword) => keyword.location.as_str(),
            KeywordOver::SingleValueAllOf(keyword) => keyword.location.as_str(),
            KeywordOver::AnyOf(keyword) => keyword.location.as_str(),
            KeywordOver::SingleAnyOf(keyword) => keyword.location.as_str(),
            KeywordOver::OneOf(keyword) => keyword.location.as_str(),
            KeywordOver::SingleOneOf(keyword) => keyword.location.as_str(),
            KeywordOver::Not(keyword) => keyword.location.as_str(),
            KeywordOver::IfThen(keyword) => keyword.location.as_str(),
            KeywordOver::IfElse(keyword) => keyword.location.as_str(),
            KeywordOver::IfThenElse(keyword) => keyword.location.as_str(),
            KeywordOver::Dependencies(keyword) => keyword.location.as_str(),
            KeywordOver::DependentRequired(keyword) => keyword.location.as_str(),
            KeywordOver::DependentSchemas(keyword) => keyword.location.as_str(),
            KeywordOver::PropertyNames(keyword) => keyword.location.as_str(),
            KeywordOver::PropertyNamesFalse(keyword) => keyword.location.as_str(),
            KeywordOver::PropertyDependencies(keyword) => keyword.location.as_str(),
            KeywordOver::PatternProperties(keyword) => keyword.location.as_str(),
            KeywordOver::SingleValuePatternProperties(keyword) => keyword.location.as_str(),
            KeywordOver::AdditionalProperties(keyword) => keyword.location().as_str(),
            KeywordOver::Leaf(location, _) => location.as_str(),
        }
    }
}

/// What stands at a place: true, false, keywords, or a list of names that an object is to have.
#[derive(Drop)]
pub enum Body<W> {
    /// `true`.
    True,
    /// `false`.
    False,
    /// Keywords.
    Keywords(Vec<W>),
    /// A list of names that an object is to have.
    RequiredNames(Box<RequiredValidator>),
}
