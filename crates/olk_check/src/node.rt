//! Keywords and bodies: their verdicts.
ghost use Rattle.olk_base.specs.Kit.{kit};
ghost use Rattle.std.specs.Prelude.{◌≡◌, ◌<◌, [], ◌∷◌, drop, length, IfSome};
ghost use Rattle.serde_json.specs.Data.{Data};
ghost use Rattle.olk_tree.specs.Validators.{validator_means};
ghost use Rattle.olk_tree.specs.Bodies.{body_means};
ghost use Rattle.olk_tree.specs.Properties.{properties_mean};
ghost use Rattle.olk_tree.specs.Questions.{always, every};
ghost use Rattle.olk_spec.specs.Names.{is_empty};
ghost use Rattle.olk_spec.specs.Accepts.{missing};
ghost use Rattle.olk_check.specs.Asks.{Asks};
ghost use Rattle.olk_check.specs.Together.{AsksFirst};

use crate::Check;
use crate::accepted::Accepted;
use crate::properties::{
    properties_accept, properties_with_required_accept, properties_with_required2_accept,
};
use olk_base::{Asked, Leaf, RegexEngine, ValidationContext};
use olk_tree::map_ref::MapRef;
use olk_tree::node::{Body, KeywordOver};

/// What the keyword asks of the value.
impl<K: Leaf, R: RegexEngine, N: Check> Check for KeywordOver<K, R, N> {
    #[inline(always)]
    #[tactic(auto, unfolding(olk_tree::specs::Validators::answers_of))]
    fn check<A: Asked>(&self, asked: A, ctx: &mut ValidationContext) -> bool {
        if let KeywordOver::Leaf(_, leaf) = self {
            return leaf.is_valid(asked.node());
        }
        keyword_accepts(self, asked, ctx)
    }
}

/// Whether the keyword accepts the value; inlined where a keyword is asked that is no leaf, so that
/// one choice is made there.
#[inline(always)]
#[tactic(auto, unfolding(olk_tree::specs::Validators::answers_of))]
fn keyword_accepts<A: Asked, K: Leaf, R: RegexEngine, N: Check>(
    keyword: &KeywordOver<K, R, N>,
    asked: A,
    ctx: &mut ValidationContext,
) -> bool
    ensures { Asks ctx.old ctx.new
        (validator_means (kit K.Leaf R.RegexEngine) N.means keyword.now (A.stands_for asked))
        result }
{
    match keyword {
        KeywordOver::SmallProperties(validator) => validator.check(asked, ctx),
        KeywordOver::BigProperties(validator) => validator.check(asked, ctx),
        KeywordOver::PropertiesWithRequired2(validator) => validator.check(asked, ctx),
        KeywordOver::Required(validator) => validator.check(asked, ctx),
        KeywordOver::AllOf(validator) => validator.check(asked, ctx),
        KeywordOver::SingleValueAllOf(validator) => validator.check(asked, ctx),
        KeywordOver::AnyOf(validator) => validator.check(asked, ctx),
        KeywordOver::SingleAnyOf(validator) => validator.check(asked, ctx),
        KeywordOver::OneOf(validator) => validator.check(asked, ctx),
        KeywordOver::SingleOneOf(validator) => validator.check(asked, ctx),
        KeywordOver::Not(validator) => validator.check(asked, ctx),
        KeywordOver::IfThen(validator) => validator.check(asked, ctx),
        KeywordOver::IfElse(validator) => validator.check(asked, ctx),
        KeywordOver::IfThenElse(validator) => validator.check(asked, ctx),
        KeywordOver::Dependencies(validator) => validator.check(asked, ctx),
        KeywordOver::DependentRequired(validator) => validator.check(asked, ctx),
        KeywordOver::DependentSchemas(validator) => validator.check(asked, ctx),
        KeywordOver::PropertyNames(validator) => validator.check(asked, ctx),
        KeywordOver::PropertyNamesFalse(validator) => validator.check(asked, ctx),
        KeywordOver::PropertyDependencies(validator) => validator.check(asked, ctx),
        KeywordOver::PatternProperties(validator) => validator.check(asked, ctx),
        KeywordOver::SingleValuePatternProperties(validator) => validator.check(asked, ctx),
        KeywordOver::AdditionalProperties(validator) => validator.check(asked, ctx),
        KeywordOver::Leaf(_, leaf) => leaf.is_valid(asked.node()),
    }
}

/// What each of the keywords asks, whether the required names are there, or the verdict of a
/// boolean schema.
impl<K: Leaf, R: RegexEngine, N: Check> Check for Body<KeywordOver<K, R, N>> {
    /// Inlined with all of its walk over keywords: a leaf is asked within the walk that asks its
    /// node.
    #[inline(always)]
    fn check<A: Asked>(&self, asked: A, ctx: &mut ValidationContext) -> bool {
        if let Body::Keywords(keywords) = self {
            return keywords_accept(keywords, asked, ctx);
        }
        body_accepts(self, asked, ctx)
    }
}

/// Whether the body accepts the value; apart, so that a walk over keywords stays small.
#[inline(never)]
fn body_accepts<A: Asked, K: Leaf, R: RegexEngine, N: Check>(
    body: &Body<KeywordOver<K, R, N>>,
    asked: A,
    ctx: &mut ValidationContext,
) -> bool
    ensures { Asks ctx.old ctx.new (body_means
        (validator_means (kit K.Leaf R.RegexEngine) N.means)
        body.now (A.stands_for asked)) result }
{
    match body {
        Body::True => true,
        Body::False => false,
        Body::Keywords(keywords) => keywords_accept(keywords, asked, ctx),
        Body::RequiredNames(required) => required.check(asked, ctx),
    }
}

/// Whether each keyword accepts the value; the first that refuses it is the last that is asked.
#[inline(always)]
#[tactic(auto, using(crate::proofs::Walks::list_walks))]
fn keywords_accept<A: Asked, K: Leaf, R: RegexEngine, N: Check>(
    keywords: &[KeywordOver<K, R, N>],
    asked: A,
    ctx: &mut ValidationContext,
) -> bool
    ensures { Asks ctx.old ctx.new (every (λ k.
        validator_means (kit K.Leaf R.RegexEngine) N.means k (A.stands_for asked))
        keywords.now) result }
{
    let mut left = keywords;
    while left.len() > 0 {
        match first_accept(left, asked, ctx) {
            Accepted::None => return false,
            Accepted::One => {}
            Accepted::Two => left = behind_first(left),
        }
        left = behind_first(left);
    }
    true
}

/// What stands behind the first.
#[inline(always)]
fn behind_first<T>(items: &[T]) -> &[T]
    requires { 0 < length items.now }
    ensures { result.now ≡ drop 1 items.now }
{
    &items[1..]
}

/// Whether the first keyword accepts the value, and perhaps the second too.
#[inline(always)]
#[tactic(auto, unfolding(olk_tree::specs::Validators::answers_of))]
fn first_accept<A: Asked, K: Leaf, R: RegexEngine, N: Check>(
    keywords: &[KeywordOver<K, R, N>],
    asked: A,
    ctx: &mut ValidationContext,
) -> Accepted
    requires { 0 < length keywords.now }
    ensures { AsksFirst ctx.old ctx.new (λ k.
        validator_means (kit K.Leaf R.RegexEngine) N.means k (A.stands_for asked))
        keywords.now result }
{
    if let KeywordOver::Leaf(_, leaf) = &keywords[0] {
        return Accepted::one_if(leaf.is_valid(asked.node()));
    }
    first_accept_apart(keywords, asked, ctx)
}

/// The verdict of `first_accept`, apart, so that a walk over leaves stays small. `properties` and a
/// `required` of one name behind it are asked in one walk over the members.
#[inline(never)]
fn first_accept_apart<A: Asked, K: Leaf, R: RegexEngine, N: Check>(
    keywords: &[KeywordOver<K, R, N>],
    asked: A,
    ctx: &mut ValidationContext,
) -> Accepted
    requires { 0 < length keywords.now }
    ensures { AsksFirst ctx.old ctx.new (λ k.
        validator_means (kit K.Leaf R.RegexEngine) N.means k (A.stands_for asked))
        keywords.now result }
{
    let keyword = &keywords[0];
    if let Some(properties) = declared_names(keyword) {
        if keywords.len() > 1
            && let Some(name) = only_required_name(&keywords[1])
        {
            return properties_with_required_accept(properties, name, asked, ctx);
        }
        return properties_accept(properties, asked, ctx);
    }
    match keyword {
        KeywordOver::PropertiesWithRequired2(properties) => {
            properties_with_required2_accept(properties, asked, ctx)
        }
        KeywordOver::AdditionalProperties(additional) => {
            Accepted::one_if(additional.check(asked, ctx))
        }
        KeywordOver::Required(required) => Accepted::one_if(required.check(asked, ctx)),
        KeywordOver::AnyOf(any_of) => Accepted::one_if(any_of.check(asked, ctx)),
        _ => Accepted::one_if(keyword_accepts(keyword, asked, ctx)),
    }
}

/// The names that the keyword declares, with what stands at each, if it is `properties`.
#[inline(always)]
fn declared_names<K: Leaf, R: RegexEngine, N: Check>(
    keyword: &KeywordOver<K, R, N>,
) -> Option<MapRef<'_, N>>
    ensures { IfSome result (λ map. (v : Data)
        → validator_means (kit K.Leaf R.RegexEngine) N.means keyword.now v
        ≡ properties_mean N.means map v) }
{
    match keyword {
        KeywordOver::SmallProperties(keyword) => Some(keyword.properties.as_map()),
        KeywordOver::BigProperties(keyword) => Some(keyword.properties.as_map()),
        _ => None,
    }
}

/// The name that the keyword asks for, if it is `required`, and asks for no other.
#[inline(always)]
fn only_required_name<K: Leaf, R: RegexEngine, N: Check>(
    keyword: &KeywordOver<K, R, N>,
) -> Option<&str>
    ensures { IfSome result (λ name. (v : Data)
        → validator_means (kit K.Leaf R.RegexEngine) N.means keyword.now v
        ≡ always (is_empty (missing (name.now ∷ []) v))) }
{
    match keyword {
        KeywordOver::Required(required) => match required.required.as_slice() {
            [name] => Some(name.as_str()),
            _ => None,
        },
        _ => None,
    }
}
