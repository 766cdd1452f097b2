//! Places of a schema, as nodes that hold each other.
ghost use Rattle.std.specs.Prelude.{◌≡◌};

use olk_base::{Asked, Leaf, RegexEngine, Subject, ValidationContext};
use olk_check::Check;
use olk_errors::{ErrorSink, Stop, Walk, walk_body};
use olk_evaluate::{EvaluationContext, Located, Show, show_body};
use olk_reports::{EvaluationResult, Location, Trail};
use olk_tree::all_of::{AllOf, SingleValueAllOf};
use olk_tree::any_of::{AnyOf, SingleAnyOf};
use olk_tree::big_map::BigMap;
use olk_tree::built_node::BuiltNode;
use olk_tree::dependencies::{Dependencies, DependentRequired, DependentSchemas};
use olk_tree::if_::{IfElse, IfThen, IfThenElse};
use olk_tree::map::SmallMap;
use olk_tree::node::{Body, KeywordOver};
use olk_tree::not::Not;
use olk_tree::one_of::{OneOf, SingleOneOf};
use olk_tree::pattern_properties::{PatternProperties, SingleValuePatternProperties};
use olk_tree::properties::{BigProperties, SmallProperties, SmallPropertiesWithRequired2};
use olk_tree::property_dependencies::PropertyDependencies;
use olk_tree::property_names::PropertyNames;
use olk_tree::{Means, Reports};
use std::alloc::{AllocError, Global};

/// A place of a schema.
pub struct SchemaNode<K, R> {
    pub location: Location,
    pub body: Body<Keyword<K, R>>,
}

// By hand, so that the crates above drop a node by one call, and what is below it is dropped here
// alone.
impl<K: Drop, R: Drop> Drop for SchemaNode<K, R> {
    fn drop(self) {
        let SchemaNode {
            location: _location,
            body: _body,
        } = self;
    }
}

impl<K, R> SchemaNode<K, R> {
    ghost use Rattle.object_logic.specs.declared.node.SchemaNode.{out-SchemaNode};

    /// A node at its place.
    pub fn new(location: Location, body: Body<Keyword<K, R>>) -> Self
        ensures place { (out-SchemaNode K R result).location ≡ location }
        ensures body { (out-SchemaNode K R result).body ≡ body }
    {
        SchemaNode { location, body }
    }

    /// The place of the node in its schema, a JSON pointer (RFC 6901).
    pub fn location(&self) -> &Location
        ensures { result.now ≡ (out-SchemaNode K R self.now).location }
    {
        &self.location
    }
}

impl<K: Leaf, R: RegexEngine> BuiltNode<K, R> for SchemaNode<K, R> {
    ghost use Rattle.olk_base.specs.Kit.{kit};
    ghost use Rattle.olk_tree.specs.Places.{AnswersBy};
    ghost use Rattle.object_logic.specs.Nodes.{answers};

    ghost answers = { answers (kit K.Leaf R.RegexEngine) };

    fn new(_alloc: Global, location: Location, body: Body<Keyword<K, R>>) -> Self
        ensures { AnswersBy (kit K.Leaf R.RegexEngine) (answers (kit K.Leaf R.RegexEngine))
            location body result }
    {
        SchemaNode::new(location, body)
    }
}

/// A keyword of a schema object.
pub type Keyword<K, R> = KeywordOver<K, R, SchemaNode<K, R>>;

/// `allOf` of several branches, or of none, over nodes.
pub type AllOfValidator<K, R> = AllOf<SchemaNode<K, R>>;

/// `allOf` of one branch, over a node.
pub type SingleValueAllOfValidator<K, R> = SingleValueAllOf<SchemaNode<K, R>>;

/// `anyOf` of several branches, or of none, over nodes.
pub type AnyOfValidator<K, R> = AnyOf<SchemaNode<K, R>>;

/// `anyOf` of one branch, over a node.
pub type SingleAnyOfValidator<K, R> = SingleAnyOf<SchemaNode<K, R>>;

/// `oneOf` of several branches, or of none, over nodes.
pub type OneOfValidator<K, R> = OneOf<SchemaNode<K, R>>;

/// `oneOf` of one branch, over a node.
pub type SingleOneOfValidator<K, R> = SingleOneOf<SchemaNode<K, R>>;

/// `not`, over a node.
pub type NotValidator<K, R> = Not<SchemaNode<K, R>>;

/// `if` with `then`, over nodes.
pub type IfThenValidator<K, R> = IfThen<SchemaNode<K, R>>;

/// `if` with `else`, over nodes.
pub type IfElseValidator<K, R> = IfElse<SchemaNode<K, R>>;

/// `if` with `then` and `else`, over nodes.
pub type IfThenElseValidator<K, R> = IfThenElse<SchemaNode<K, R>>;

/// `properties`, over nodes: of few names, where its map is small.
pub type SmallPropertiesValidator<K, R> = SmallProperties<SchemaNode<K, R>>;

/// `properties`, over nodes: of many names, where its map is big.
pub type BigPropertiesValidator<K, R> = BigProperties<SchemaNode<K, R>>;

/// `properties` together with `required` of two different names, over nodes.
pub type SmallPropertiesWithRequired2Validator<K, R> = SmallPropertiesWithRequired2<
    SchemaNode<K, R>,
>;

/// Names in order, and beside each its node.
pub type SmallValidatorsMap<K, R> = SmallMap<SchemaNode<K, R>>;

/// Many names, and beside each its node.
pub type BigValidatorsMap<K, R> = BigMap<SchemaNode<K, R>>;

/// Few names or many, and beside each its node.
pub type PropertiesMap<K, R> = olk_tree::PropertiesMap<SchemaNode<K, R>>;

/// `patternProperties` of several patterns, or of none, over nodes.
pub type PatternPropertiesValidator<K, R> = PatternProperties<R, SchemaNode<K, R>>;

/// `patternProperties` of one pattern, over a node.
pub type SingleValuePatternPropertiesValidator<K, R> = SingleValuePatternProperties<
    R,
    SchemaNode<K, R>,
>;

/// `dependencies`, over nodes.
pub type DependenciesValidator<K, R> = Dependencies<SchemaNode<K, R>>;

/// `dependentRequired`, over nodes that are lists of names.
pub type DependentRequiredValidator<K, R> = DependentRequired<SchemaNode<K, R>>;

/// `dependentSchemas`, over nodes.
pub type DependentSchemasValidator<K, R> = DependentSchemas<SchemaNode<K, R>>;

/// `propertyNames` of an object, over a node.
pub type PropertyNamesObjectValidator<K, R> = PropertyNames<SchemaNode<K, R>>;

/// `propertyDependencies`, over nodes.
pub type PropertyDependenciesValidator<K, R> = PropertyDependencies<SchemaNode<K, R>>;

impl<'a, K: Leaf, R: RegexEngine> Walk<'a> for SchemaNode<K, R> {
    #[inline(always)]
    #[cycle(errors)]
    #[tactic(auto, using(crate::proofs::Layers::layers))]
    fn walk(
        &'a self,
        node: Subject<'_, 'a>,
        trail: &Trail<'_, 'a>,
        ctx: &mut ValidationContext,
        sink: &mut ErrorSink<'a>,
    ) -> Result<(), Stop> {
        walk_body(&self.body, self.location.as_str(), node, trail, ctx, sink)
    }
}

impl<'a, K: Leaf, R: RegexEngine> Show<'a> for SchemaNode<K, R> {
    ghost use Rattle.olk_base.specs.Kit.{kit};
    ghost use Rattle.object_logic.specs.declared.node.SchemaNode.{out-SchemaNode};
    ghost use Rattle.object_logic.specs.Nodes.{answers};

    ghost place = { λ n. (out-SchemaNode K R n).location };

    ghost tree = { λ n. (answers (kit K.Leaf R.RegexEngine) n).tree };

    #[tactic(auto, using(crate::proofs::Layers::layers))]
    fn show(
        &'a self,
        node: Subject<'_, 'a>,
        ctx: &mut EvaluationContext,
        outcome: &mut EvaluationResult<'a>,
    ) -> Result<(), AllocError> {
        show_body(&self.body, node, ctx, outcome)
    }
}

impl<'a, K: Leaf, R: RegexEngine> Located<'a> for SchemaNode<K, R> {
    fn location(&self) -> &str {
        self.location.as_str()
    }
}

impl<K: Leaf, R: RegexEngine> Means for SchemaNode<K, R> {
    ghost use Rattle.olk_base.specs.Kit.{kit};
    ghost use Rattle.object_logic.specs.Nodes.{answers};

    ghost means = { λ n. (answers (kit K.Leaf R.RegexEngine) n).means };
}

impl<K: Leaf, R: RegexEngine> Reports for SchemaNode<K, R> {
    ghost use Rattle.olk_base.specs.Kit.{kit};
    ghost use Rattle.object_logic.specs.Nodes.{answers};

    ghost report = { λ n. (answers (kit K.Leaf R.RegexEngine) n).report };

    ghost first = { λ n. (answers (kit K.Leaf R.RegexEngine) n).first };

    ghost agrees = { λ n. (answers (kit K.Leaf R.RegexEngine) n).agrees };

    ghost first_agrees = { λ n. (answers (kit K.Leaf R.RegexEngine) n).first_agrees };
}

impl<K: Leaf, R: RegexEngine> Check for SchemaNode<K, R> {
    #[inline(always)]
    #[tactic(auto, using(crate::proofs::Layers::layers))]
    fn check<A: Asked>(&self, asked: A, ctx: &mut ValidationContext) -> bool {
        self.body.check(asked, ctx)
    }
}
