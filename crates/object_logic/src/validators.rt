//! The validators of `additionalProperties`, over nodes of the type `SchemaNode`.

use crate::SchemaNode;
use olk_tree::additional_properties::{
    AdditionalProperties, AdditionalPropertiesFalse, AdditionalPropertiesNotEmpty,
    AdditionalPropertiesNotEmptyFalse, AdditionalPropertiesNotEmptyFalseWithRequired1,
    AdditionalPropertiesWithPatterns, AdditionalPropertiesWithPatternsFalse,
    AdditionalPropertiesWithPatternsNotEmpty, AdditionalPropertiesWithPatternsNotEmptyFalse,
};

/// What stands in validators over a type of nodes, though it holds none.
pub trait Nodeless {
    /// `additionalProperties` that is `false`, alone.
    type AdditionalPropertiesFalse;
}

impl<K, R> Nodeless for SchemaNode<K, R> {
    type AdditionalPropertiesFalse = AdditionalPropertiesFalse;
}

/// `additionalProperties` that is `false`, alone. It holds no node, and takes `K` and `R` as its
/// neighbours do.
pub type AdditionalPropertiesFalseValidator<K, R> = <SchemaNode<
    K,
    R,
> as Nodeless>::AdditionalPropertiesFalse;

/// `additionalProperties` that is `false`, with `properties`, over nodes.
pub type AdditionalPropertiesNotEmptyFalseValidator<K, R> = AdditionalPropertiesNotEmptyFalse<
    SchemaNode<K, R>,
>;

/// `additionalProperties` that is `false`, with `properties` and `required` of one name, over
/// nodes.
pub type AdditionalPropertiesNotEmptyFalseWithRequired1Validator<K, R> =
    AdditionalPropertiesNotEmptyFalseWithRequired1<SchemaNode<K, R>>;

/// `additionalProperties` that is `false`, with `patternProperties`, over nodes.
pub type AdditionalPropertiesWithPatternsFalseValidator<K, R> =
    AdditionalPropertiesWithPatternsFalse<R, SchemaNode<K, R>>;

/// `additionalProperties` that is `false`, with `properties` and `patternProperties`, over nodes.
pub type AdditionalPropertiesWithPatternsNotEmptyFalseValidator<K, R> =
    AdditionalPropertiesWithPatternsNotEmptyFalse<R, SchemaNode<K, R>>;

/// `additionalProperties` that is a schema, alone, over nodes.
pub type AdditionalPropertiesValidator<K, R> = AdditionalProperties<SchemaNode<K, R>>;

/// `additionalProperties` that is a schema, with `properties`, over nodes.
pub type AdditionalPropertiesNotEmptyValidator<K, R> = AdditionalPropertiesNotEmpty<
    SchemaNode<K, R>,
>;

/// `additionalProperties` that is a schema, with `patternProperties`, over nodes.
pub type AdditionalPropertiesWithPatternsValidator<K, R> = AdditionalPropertiesWithPatterns<
    R,
    SchemaNode<K, R>,
>;

/// `additionalProperties` that is a schema, with `properties` and `patternProperties`, over nodes.
pub type AdditionalPropertiesWithPatternsNotEmptyValidator<K, R> =
    AdditionalPropertiesWithPatternsNotEmpty<R, SchemaNode<K, R>>;
