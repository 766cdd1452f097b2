//! The leaves of the vocabulary.
ghost use Rattle.std.specs.Prelude.{◌≡◌, IfOk, string_bytes, option_map, true};
ghost use Rattle.std.specs.Option.{option_map_or};
ghost use Rattle.serde_json.specs.Find.{as_number};
ghost use Rattle.olk_base.specs.Nodes.{data_of};
ghost use Rattle.olk_spec.specs.Names.{is_empty};
ghost use Rattle.olk_numbers.specs.Multiples.{is_multiple_of};
ghost use Rattle.olk_numbers.specs.Numbers.{num_of};
ghost use Rattle.olk_vocabulary.specs.Keywords.{is_within};
ghost use Rattle.olk_vocabulary.specs.Leaves.{leaf_keyword, leaf_name, leaf_finds, leaf_text};

use crate::candidates::Candidates;
use crate::equality::is_value;
use crate::keyword::{Bound, Keyword, Limit};
use crate::kinds::{Kind, is_of_kind, is_of_some_kind};
use crate::lengths::is_allowed;
use crate::text_pattern::TextPattern;
use crate::texts::{
    bound_text, candidates_text, constant_text, kind_text, kinds_text, limit_text, multiple_text,
    pattern_text, unique_text,
};
use crate::unique::has_unique_items;
use olk_base::{Leaf, Node};
use olk_numbers::{Divisor, JsonNumber};
use serde_json::Value;
use std::alloc::{AllocError, Global};

/// A keyword with its value (JSON Schema 2020-12 Validation, 6.1 to 6.5).
#[derive(Drop)]
pub enum VocabularyLeaf {
    /// `type`: the kind that a value is to be of.
    Type(Kind),
    /// `type`: the kinds of which a value is to be of one.
    Types(Vec<Kind>),
    /// `enum`: what a value is to be one of.
    Enum(Candidates),
    /// `const`: what a value is to be.
    Const(Value),
    /// `multipleOf`: what is to divide a number.
    MultipleOf(Divisor),
    /// A bound of numbers.
    Bound(Bound, JsonNumber),
    /// A limit of lengths.
    Limit(Limit, u64),
    /// `pattern`: what a text is to match.
    Pattern(TextPattern),
    /// `uniqueItems`: whether no two items of a list may be the same.
    UniqueItems(bool),
}

impl Leaf for VocabularyLeaf {
    ghost use Rattle.olk_vocabulary.specs.Vocabulary.{vocabulary_reads, vocabulary_fits, vocabulary_faults};

    ghost reads = { vocabulary_reads };

    ghost fits = { vocabulary_fits };

    ghost faults = { vocabulary_faults };

    ghost keyword_of = { leaf_name };

    ghost finds = { leaf_finds };

    fn keyword(&self) -> &str {
        self.kept_keyword().name()
    }

    fn is_valid(&self, node: Node<'_>) -> bool {
        if let VocabularyLeaf::Type(kind) = self {
            return is_of_kind(*kind, node);
        }
        self.accepts(node)
    }

    fn collect_errors(
        &self,
        alloc: Global,
        node: Node<'_>,
        texts: &mut Vec<String>,
    ) -> Result<(), AllocError> {
        if self.is_valid(node) {
            return Ok(());
        }
        let text = self.text(alloc, node)?;
        texts.push(text)?;
        Ok(())
    }
}

impl VocabularyLeaf {
    fn kept_keyword(&self) -> Keyword
        ensures { result ≡ leaf_keyword self.now }
    {
        match self {
            VocabularyLeaf::Type(_) | VocabularyLeaf::Types(_) => Keyword::Type,
            VocabularyLeaf::Enum(_) => Keyword::Enum,
            VocabularyLeaf::Const(_) => Keyword::Const,
            VocabularyLeaf::MultipleOf(_) => Keyword::MultipleOf,
            VocabularyLeaf::Bound(bound, _) => Keyword::Bound(*bound),
            VocabularyLeaf::Limit(limit, _) => Keyword::Limit(*limit),
            VocabularyLeaf::Pattern(_) => Keyword::Pattern,
            VocabularyLeaf::UniqueItems(_) => Keyword::UniqueItems,
        }
    }

    /// Whether the value is accepted; apart, so that asking for a type is inlined into walks.
    #[inline(never)]
    fn accepts(&self, node: Node<'_>) -> bool
        ensures { result ≡ is_empty (leaf_finds self.now (data_of node.entry)) }
    {
        match self {
            VocabularyLeaf::Type(kind) => is_of_kind(*kind, node),
            VocabularyLeaf::Types(kinds) => is_of_some_kind(kinds, node),
            VocabularyLeaf::Enum(candidates) => candidates.has(node),
            VocabularyLeaf::Const(value) => is_value(value, node),
            VocabularyLeaf::MultipleOf(divisor) => is_multiple(*divisor, node),
            VocabularyLeaf::Bound(bound, number) => is_within(*bound, *number, node),
            VocabularyLeaf::Limit(limit, number) => is_allowed(*limit, *number, node),
            VocabularyLeaf::Pattern(pattern) => pattern.has_found(node),
            VocabularyLeaf::UniqueItems(wanted) => !*wanted || has_unique_items(node),
        }
    }

    /// What is said of a value that is not accepted.
    fn text(&self, alloc: Global, node: Node<'_>) -> Result<String, AllocError>
        ensures { IfOk result (λ s. string_bytes s ≡ leaf_text self.now (data_of node.entry)) }
    {
        match self {
            VocabularyLeaf::Type(kind) => kind_text(alloc, node, *kind),
            VocabularyLeaf::Types(kinds) => kinds_text(alloc, node, kinds),
            VocabularyLeaf::Enum(candidates) => candidates_text(alloc, node, candidates.values()),
            VocabularyLeaf::Const(value) => constant_text(alloc, value),
            VocabularyLeaf::MultipleOf(divisor) => multiple_text(alloc, node, *divisor),
            VocabularyLeaf::Bound(bound, number) => bound_text(alloc, node, *bound, *number),
            VocabularyLeaf::Limit(limit, number) => limit_text(alloc, node, *limit, *number),
            VocabularyLeaf::Pattern(pattern) => pattern_text(alloc, node, pattern.text()),
            VocabularyLeaf::UniqueItems(_) => unique_text(alloc, node),
        }
    }
}

/// The number that the node is, if it is one.
fn number_of(node: Node<'_>) -> Option<JsonNumber>
    ensures { option_map num_of result ≡ as_number (data_of node.entry) }
{
    match node {
        Node::Value(Value::Number(number)) => Some(JsonNumber::of(number)),
        _ => None,
    }
}

fn is_multiple(divisor: Divisor, node: Node<'_>) -> bool
    ensures { result ≡ option_map_or (λ n. is_multiple_of n (num_of divisor.number))
        (as_number (data_of node.entry)) true }
{
    match number_of(node) {
        Some(number) => number.is_multiple_of(divisor),
        None => true,
    }
}

fn is_within(bound: Bound, limit: JsonNumber, node: Node<'_>) -> bool
    ensures { result ≡ option_map_or (λ n. is_within bound (num_of limit) n)
        (as_number (data_of node.entry)) true }
{
    let Some(number) = number_of(node) else {
        return true;
    };
    match bound {
        Bound::Minimum => limit.is_at_most(number),
        Bound::Maximum => number.is_at_most(limit),
        Bound::ExclusiveMinimum => limit.is_below(number),
        Bound::ExclusiveMaximum => number.is_below(limit),
    }
}
