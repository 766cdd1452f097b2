//! `additionalProperties`, and what it takes over: what its validators hold.
ghost use Rattle.std.specs.Prelude.{◌≡◌, ℕ, IsTrue, true, is_some, option_copied, option_map};
ghost use Rattle.olk_spec.specs.World.{unmatched};
ghost use Rattle.olk_tree.specs.Additional.{at_name, known_at, sides_of, sides_seen};
ghost use Rattle.olk_tree.specs.Holdings.{held, not_empty_holds, not_empty_false_holds, with_required1_holds, with_patterns_holds, with_patterns_false_holds, with_both_holds, with_both_false_holds};
ghost use Rattle.olk_tree.specs.Tables.{known_says};

use crate::pattern_table::PatternTable;
use crate::properties_map::PropertiesMap;
use crate::validators_map::PropertiesValidatorsMap;
use olk_base::CompiledPattern;
use olk_reports::Location;

/// `additionalProperties` that is a schema, alone: it is to accept each member (JSON Schema 2020-12
/// Core, 10.3.2.3).
#[derive(Drop)]
pub struct AdditionalProperties<N> {
    pub node: N,
    pub location: Location,
}

/// `additionalProperties` that is `false`, alone: an object is to have no members (JSON Schema
/// 2020-12 Core, 10.3.2.3).
#[derive(Drop)]
pub struct AdditionalPropertiesFalse {
    pub location: Location,
}

/// `additionalProperties` that is a schema, with `properties`: it is to accept each member that is
/// not declared (JSON Schema 2020-12 Core, 10.3.2.3).
#[derive(Drop)]
pub struct AdditionalPropertiesNotEmpty<N> {
    pub properties: PropertiesMap<N>,
    pub node: N,
    pub location: Location,
}

/// `additionalProperties` that is `false`, with `properties`: no other member is expected (JSON
/// Schema 2020-12 Core, 10.3.2.3).
#[derive(Drop)]
pub struct AdditionalPropertiesNotEmptyFalse<N> {
    pub properties: PropertiesMap<N>,
    pub location: Location,
}

/// `additionalProperties` that is `false`, with `properties`, and `required` of one name, which is to
/// be a member (JSON Schema 2020-12 Core, 10.3.2.3, and Validation, 6.5.3).
#[derive(Drop)]
pub struct AdditionalPropertiesNotEmptyFalseWithRequired1<N> {
    pub properties: PropertiesMap<N>,
    pub required: String,
    pub location: Location,
    pub required_location: Location,
}

/// `additionalProperties` that is a schema, with `patternProperties`: it is to accept each member that
/// no pattern matches (JSON Schema 2020-12 Core, 10.3.2.3).
#[derive(Drop)]
pub struct AdditionalPropertiesWithPatterns<R, N> {
    pub patterns: Vec<(CompiledPattern<R>, N)>,
    pub node: N,
    pub location: Location,
    pub pattern_keyword_path: Location,
}

/// `additionalProperties` that is `false`, with `patternProperties`: a pattern is to match each member
/// (JSON Schema 2020-12 Core, 10.3.2.3).
#[derive(Drop)]
pub struct AdditionalPropertiesWithPatternsFalse<R, N> {
    pub patterns: Vec<(CompiledPattern<R>, N)>,
    pub location: Location,
    pub pattern_keyword_path: Location,
}

/// `additionalProperties` that is a schema, with `properties` and `patternProperties`: it is to accept
/// each member that is neither declared nor matched (JSON Schema 2020-12 Core, 10.3.2.3).
#[derive(Drop)]
pub struct AdditionalPropertiesWithPatternsNotEmpty<R, N> {
    pub properties: PropertiesMap<N>,
    pub patterns: Vec<(CompiledPattern<R>, N)>,
    pub property_pattern_indices: PatternTable,
    pub node: N,
    pub location: Location,
}

/// `additionalProperties` that is `false`, with `properties` and `patternProperties`: each member is to
/// be declared or matched (JSON Schema 2020-12 Core, 10.3.2.3).
#[derive(Drop)]
pub struct AdditionalPropertiesWithPatternsNotEmptyFalse<R, N> {
    pub properties: PropertiesMap<N>,
    pub patterns: Vec<(CompiledPattern<R>, N)>,
    pub property_pattern_indices: PatternTable,
    pub location: Location,
}

/// The validators of `additionalProperties`, by what stands beside it.
#[derive(Drop)]
pub enum Restriction<R, N> {
    /// A schema, alone.
    Schema(Box<AdditionalProperties<N>>),
    /// `false`, alone.
    False(AdditionalPropertiesFalse),
    /// A schema, with `properties`.
    NotEmpty(Box<AdditionalPropertiesNotEmpty<N>>),
    /// `false`, with `properties`.
    NotEmptyFalse(Box<AdditionalPropertiesNotEmptyFalse<N>>),
    /// `false`, with `properties` and one required name.
    NotEmptyFalseWithRequired1(Box<AdditionalPropertiesNotEmptyFalseWithRequired1<N>>),
    /// A schema, with `patternProperties`.
    WithPatterns(Box<AdditionalPropertiesWithPatterns<R, N>>),
    /// `false`, with `patternProperties`.
    WithPatternsFalse(Box<AdditionalPropertiesWithPatternsFalse<R, N>>),
    /// A schema, with both.
    WithPatternsNotEmpty(Box<AdditionalPropertiesWithPatternsNotEmpty<R, N>>),
    /// `false`, with both.
    WithPatternsNotEmptyFalse(Box<AdditionalPropertiesWithPatternsNotEmptyFalse<R, N>>),
}

impl<R, N> Restriction<R, N> {
    /// Where it stands in its schema.
    pub fn location(&self) -> &Location
        ensures { result.now ≡ (held self.now).location }
    {
        match self {
            Restriction::Schema(k) => &k.location,
            Restriction::False(k) => &k.location,
            Restriction::NotEmpty(k) => &k.location,
            Restriction::NotEmptyFalse(k) => &k.location,
            Restriction::NotEmptyFalseWithRequired1(k) => &k.location,
            Restriction::WithPatterns(k) => &k.location,
            Restriction::WithPatternsFalse(k) => &k.location,
            Restriction::WithPatternsNotEmpty(k) => &k.location,
            Restriction::WithPatternsNotEmptyFalse(k) => &k.location,
        }
    }
}

/// What one of these validators asks of a member: what is declared at its name, then the patterns
/// that match it, and where there is neither the rest.
#[derive_where(Clone, Copy)]
pub struct SidesOf<'a, R, N> {
    pub properties: Option<&'a PropertiesMap<N>>,
    pub patterns: &'a [(CompiledPattern<R>, N)],
    /// What is known of the patterns at the declared names.
    pub table: Option<&'a PatternTable>,
    /// The subschema for the rest; without one no other member is expected.
    pub rest: Option<&'a N>,
}

impl<N> AdditionalPropertiesNotEmpty<N> {
    /// What it asks of a member.
    #[inline(always)]
    pub fn sides<R>(&self) -> SidesOf<'_, R, N>
        ensures { sides_seen result ≡ sides_of (not_empty_holds self.now) }
    {
        SidesOf {
            properties: Some(&self.properties),
            patterns: &[],
            table: None,
            rest: Some(&self.node),
        }
    }
}

impl<N> AdditionalPropertiesNotEmptyFalse<N> {
    /// What it asks of a member.
    #[inline(always)]
    pub fn sides<R>(&self) -> SidesOf<'_, R, N>
        ensures { sides_seen result ≡ sides_of (not_empty_false_holds self.now) }
    {
        SidesOf {
            properties: Some(&self.properties),
            patterns: &[],
            table: None,
            rest: None,
        }
    }
}

impl<N> AdditionalPropertiesNotEmptyFalseWithRequired1<N> {
    /// What it asks of a member.
    #[inline(always)]
    pub fn sides<R>(&self) -> SidesOf<'_, R, N>
        ensures { sides_seen result ≡ sides_of (with_required1_holds self.now) }
    {
        SidesOf {
            properties: Some(&self.properties),
            patterns: &[],
            table: None,
            rest: None,
        }
    }
}

impl<R, N> AdditionalPropertiesWithPatterns<R, N> {
    /// What it asks of a member.
    #[inline(always)]
    pub fn sides(&self) -> SidesOf<'_, R, N>
        ensures { sides_seen result ≡ sides_of (with_patterns_holds self.now) }
    {
        SidesOf {
            properties: None,
            patterns: &self.patterns,
            table: None,
            rest: Some(&self.node),
        }
    }
}

impl<R, N> AdditionalPropertiesWithPatternsFalse<R, N> {
    /// What it asks of a member.
    #[inline(always)]
    pub fn sides(&self) -> SidesOf<'_, R, N>
        ensures { sides_seen result ≡ sides_of (with_patterns_false_holds self.now) }
    {
        SidesOf {
            properties: None,
            patterns: &self.patterns,
            table: None,
            rest: None,
        }
    }
}

impl<R, N> AdditionalPropertiesWithPatternsNotEmpty<R, N> {
    /// What it asks of a member.
    #[inline(always)]
    pub fn sides(&self) -> SidesOf<'_, R, N>
        ensures { sides_seen result ≡ sides_of (with_both_holds self.now) }
    {
        SidesOf {
            properties: Some(&self.properties),
            patterns: &self.patterns,
            table: Some(&self.property_pattern_indices),
            rest: Some(&self.node),
        }
    }
}

impl<R, N> AdditionalPropertiesWithPatternsNotEmptyFalse<R, N> {
    /// What it asks of a member.
    #[inline(always)]
    pub fn sides(&self) -> SidesOf<'_, R, N>
        ensures { sides_seen result ≡ sides_of (with_both_false_holds self.now) }
    {
        SidesOf {
            properties: Some(&self.properties),
            patterns: &self.patterns,
            table: Some(&self.property_pattern_indices),
            rest: None,
        }
    }
}

impl<'a, R, N> SidesOf<'a, R, N> {
    /// What is declared at the name, with its place, looked for at `hint` first, and where to look
    /// first for a later name.
    #[inline(always)]
    pub fn declared_from(self, hint: usize, name: &str) -> (usize, Option<(usize, &'a N)>)
        ensures { option_map (λ f. (f.0, f.1.now)) result.1
            ≡ at_name (sides_seen self.entry) name.now }
    {
        match self.properties {
            Some(map) => map.entries().placed_from(hint, name),
            None => (hint, None),
        }
    }

    /// Whether the pattern of the index matches a name, where that is known since it is declared.
    #[inline(always)]
    pub fn known(self, declared: Option<(usize, &N)>, index: usize) -> Option<bool>
        ensures { known_says result ≡ known_at (sides_seen self.entry)
            (option_map (λ f. (f.0, f.1.now)) declared.entry) index }
    {
        match (self.table, declared) {
            (Some(table), Some((place, _))) => table.known(place, index),
            _ => None,
        }
    }

    /// Whether the name is declared, and it is known of each pattern that it does not match it.
    #[inline(always)]
    pub fn matches_nothing(self, declared: Option<(usize, &N)>) -> bool
        ensures declared { IsTrue result → is_some declared.entry ≡ true }
        ensures unmatched { IsTrue result → (i : ℕ) → known_at (sides_seen self.entry)
            (option_map (λ f. (f.0, f.1.now)) declared.entry) i ≡ unmatched }
    {
        match (self.table, declared) {
            (Some(table), Some((place, _))) => table.matches_nothing(place),
            _ => false,
        }
    }
}
