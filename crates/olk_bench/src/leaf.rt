//! Leaves of seven keywords.
ghost use Rattle.std.specs.Prelude.{◌≡◌, ◌++◌, true, false, IfOk, MatchOption, string_bytes, codes, option_map, nat_lt, length, chars};
ghost use Rattle.serde_json.specs.Find.{as_str};
ghost use Rattle.serde_json.specs.Data.{number, string, unsigned};
ghost use Rattle.serde_json.specs.Written.{compact_text, number_text};
ghost use Rattle.olk_base.specs.Nodes.{data_of};
ghost use Rattle.olk_spec.specs.Names.{is_among, is_empty};
ghost use Rattle.olk_spec.specs.Bench.{kind_names, is_of_kind, is_same, shown, minimum_faults, maximum_faults, multiple_faults, shorter_faults, longer_faults};
ghost use Rattle.olk_bench.specs.Numbers.{num_of, whole_in};
ghost use Rattle.olk_bench.specs.Leaves.{kind_name, constant_value, leaf_name, leaf_finds, leaf_text};

use crate::numbers::{Divisor, WholeNumber};
use crate::texts::{compared_text, digits, shown_text};
use olk_base::{JsonType, Leaf, Node, quoted_text};
use serde_json::Value;
use std::alloc::{AllocError, Global};

/// The kinds of values that `type` names (JSON Schema 2020-12 Validation, 6.1.1): whole numbers,
/// and those of each type.
#[derive(Clone, Copy)]
pub enum ValueKind {
    /// Whole numbers.
    Integer,
    /// The values of a type.
    Of(JsonType),
}

/// What `const` compares with (JSON Schema 2020-12 Validation, 6.1.3): a whole number or a text.
#[derive(Drop)]
pub enum Constant {
    /// A whole number.
    Number(WholeNumber),
    /// A text.
    Text(String),
}

/// A keyword with its value (JSON Schema 2020-12 Validation, 6.1 to 6.3).
///
/// `type` and `const` look at every value. `minimum`, `maximum` and `multipleOf` look at whole
/// numbers alone, `minLength` and `maxLength` at texts alone, and accept everything else.
#[derive(Drop)]
pub enum BenchLeaf {
    /// `type`: the kind that a value is to be of.
    Type(ValueKind),
    /// `const`: what a value is to equal.
    Const(Constant),
    /// `minimum`: what a whole number is not to be below.
    Minimum(WholeNumber),
    /// `maximum`: what a whole number is not to be above.
    Maximum(WholeNumber),
    /// `multipleOf`: what is to divide a whole number.
    MultipleOf(Divisor),
    /// `minLength`: how many characters a text is to have at least.
    MinLength(u64),
    /// `maxLength`: how many characters a text is to have at most.
    MaxLength(u64),
}

impl Leaf for BenchLeaf {
    ghost use Rattle.olk_spec.specs.Bench.{bench};

    ghost reads = { bench.reads };

    ghost fits = { bench.fits };

    ghost faults = { bench.faults };

    ghost keyword_of = { leaf_name };

    ghost finds = { leaf_finds };

    fn keyword(&self) -> &str {
        match self {
            BenchLeaf::Type(_) => "type",
            BenchLeaf::Const(_) => "const",
            BenchLeaf::Minimum(_) => "minimum",
            BenchLeaf::Maximum(_) => "maximum",
            BenchLeaf::MultipleOf(_) => "multipleOf",
            BenchLeaf::MinLength(_) => "minLength",
            BenchLeaf::MaxLength(_) => "maxLength",
        }
    }

    fn is_valid(&self, node: Node<'_>) -> bool {
        if let BenchLeaf::Type(kind) = self {
            return is_of_kind(*kind, node);
        }
        self.accepts(node)
    }

    fn validate(&self, alloc: Global, node: Node<'_>) -> Result<Option<String>, AllocError> {
        if self.is_valid(node) {
            return Ok(None);
        }
        Ok(Some(self.text(alloc, node)?))
    }

    fn collect_errors(
        &self,
        alloc: Global,
        node: Node<'_>,
        texts: &mut Vec<String>,
    ) -> Result<(), AllocError> {
        if self.is_valid(node) {
            return Ok(());
        }
        let text = self.text(alloc, node)?;
        texts.push(text)?;
        Ok(())
    }
}

impl BenchLeaf {
    /// Whether the value is accepted; apart, so that asking for a type is inlined into walks.
    #[inline(never)]
    fn accepts(&self, node: Node<'_>) -> bool
        ensures { result ≡ is_empty (leaf_finds self.now (data_of node.entry)) }
    {
        match self {
            BenchLeaf::Type(kind) => is_of_kind(*kind, node),
            BenchLeaf::Const(constant) => is_constant(constant, node),
            BenchLeaf::Minimum(minimum) => is_at_least(*minimum, node),
            BenchLeaf::Maximum(maximum) => is_at_most(*maximum, node),
            BenchLeaf::MultipleOf(divisor) => is_multiple_of(*divisor, node),
            BenchLeaf::MinLength(least) => is_no_shorter(*least, node),
            BenchLeaf::MaxLength(most) => is_no_longer(*most, node),
        }
    }

    /// What is said of a value that is not accepted.
    fn text(&self, alloc: Global, node: Node<'_>) -> Result<String, AllocError>
        ensures { IfOk result (λ s. string_bytes s ≡ leaf_text self.now (data_of node.entry)) }
    {
        match self {
            BenchLeaf::Type(kind) => kind_text(alloc, *kind, node),
            BenchLeaf::Const(constant) => constant_text(alloc, constant),
            BenchLeaf::Minimum(minimum) => {
                compared_text(alloc, node, " is less than the minimum of ", *minimum)
            }
            BenchLeaf::Maximum(maximum) => {
                compared_text(alloc, node, " is greater than the maximum of ", *maximum)
            }
            BenchLeaf::MultipleOf(divisor) => {
                let divisor = WholeNumber::Unsigned(divisor.value);
                compared_text(alloc, node, " is not a multiple of ", divisor)
            }
            BenchLeaf::MinLength(least) => length_text(alloc, node, " is shorter than ", *least),
            BenchLeaf::MaxLength(most) => length_text(alloc, node, " is longer than ", *most),
        }
    }
}

impl ValueKind {
    /// The kind of this name (JSON Schema 2020-12 Validation, 6.1.1), if there is one.
    pub fn named(name: &str) -> Option<ValueKind>
        ensures { MatchOption result (is_among name.now kind_names ≡ false)
            (λ k. (is_among name.now kind_names ≡ true) × (kind_name k ≡ name.now)) }
    {
        match name {
            "null" => Some(ValueKind::Of(JsonType::Null)),
            "boolean" => Some(ValueKind::Of(JsonType::Boolean)),
            "integer" => Some(ValueKind::Integer),
            "number" => Some(ValueKind::Of(JsonType::Number)),
            "string" => Some(ValueKind::Of(JsonType::String)),
            "array" => Some(ValueKind::Of(JsonType::Array)),
            "object" => Some(ValueKind::Of(JsonType::Object)),
            _ => None,
        }
    }

    /// The name as JSON.
    pub fn quoted(self) -> &'static str
        ensures { result.now ≡ compact_text (string (kind_name self)) }
    {
        quoted_name(self)
    }
}

fn quoted_name(kind: ValueKind) -> &'static str
    ensures { result.now ≡ codes "\"" ++ (kind_name kind ++ codes "\"") }
{
    match kind {
        ValueKind::Integer => "\"integer\"",
        ValueKind::Of(JsonType::Null) => "\"null\"",
        ValueKind::Of(JsonType::Boolean) => "\"boolean\"",
        ValueKind::Of(JsonType::Number) => "\"number\"",
        ValueKind::Of(JsonType::String) => "\"string\"",
        ValueKind::Of(JsonType::Array) => "\"array\"",
        ValueKind::Of(JsonType::Object) => "\"object\"",
    }
}

fn is_of_kind(kind: ValueKind, node: Node<'_>) -> bool
    ensures { result ≡ is_of_kind (kind_name kind) (data_of node.entry) }
{
    match kind {
        ValueKind::Integer => whole_number(node).is_some(),
        ValueKind::Of(json_type) => json_type == node.json_type(),
    }
}

fn whole_number(node: Node<'_>) -> Option<WholeNumber>
    ensures { option_map num_of result ≡ whole_in (data_of node.entry) }
{
    match node {
        Node::Value(Value::Number(number)) => WholeNumber::of(number),
        _ => None,
    }
}

fn text_of(node: Node<'_>) -> Option<&str>
    ensures { option_map (λ s. s.now) result ≡ as_str (data_of node.entry) }
{
    match node {
        Node::Value(value) => value.as_str(),
        Node::Name(name) => Some(name),
    }
}

fn is_constant(constant: &Constant, node: Node<'_>) -> bool
    ensures { result ≡ is_same (constant_value constant.now) (data_of node.entry) }
{
    match constant {
        Constant::Number(number) => match whole_number(node) {
            Some(n) => number.equals(n),
            None => false,
        },
        Constant::Text(text) => match text_of(node) {
            Some(s) => s == text.as_str(),
            None => false,
        },
    }
}

fn is_at_least(minimum: WholeNumber, node: Node<'_>) -> bool
    ensures { result ≡ is_empty (minimum_faults (number (num_of minimum)) (data_of node.entry)) }
{
    match whole_number(node) {
        Some(n) => minimum.value() <= n.value(),
        None => true,
    }
}

fn is_at_most(maximum: WholeNumber, node: Node<'_>) -> bool
    ensures { result ≡ is_empty (maximum_faults (number (num_of maximum)) (data_of node.entry)) }
{
    match whole_number(node) {
        Some(n) => n.value() <= maximum.value(),
        None => true,
    }
}

fn is_multiple_of(divisor: Divisor, node: Node<'_>) -> bool
    ensures { result ≡ is_empty
        (multiple_faults (number (unsigned divisor.value)) (data_of node.entry)) }
{
    match whole_number(node) {
        Some(n) => divisor.divides(n.magnitude()),
        None => true,
    }
}

/// Whether the text has more characters than this; each of them is a byte or more.
pub fn has_more_chars(text: &str, count: u64) -> bool
    ensures { result ≡ nat_lt count (length (chars text.now)) }
{
    count < text.len() as u64 && text.chars().nth(count as usize).is_some()
}

fn is_no_shorter(least: u64, node: Node<'_>) -> bool
    ensures { result ≡ is_empty (shorter_faults (number (unsigned least)) (data_of node.entry)) }
{
    match text_of(node) {
        Some(text) => least == 0 || has_more_chars(text, least - 1),
        None => true,
    }
}

fn is_no_longer(most: u64, node: Node<'_>) -> bool
    ensures { result ≡ is_empty (longer_faults (number (unsigned most)) (data_of node.entry)) }
{
    match text_of(node) {
        Some(text) => !has_more_chars(text, most),
        None => true,
    }
}

fn kind_text(alloc: Global, kind: ValueKind, node: Node<'_>) -> Result<String, AllocError>
    ensures { IfOk result (λ s. string_bytes s
        ≡ leaf_text (BenchLeaf.Type kind) (data_of node.entry)) }
{
    let mut text = shown_text(alloc, node)?;
    text.push_str(" is not of type ")?;
    text.push_str(kind.quoted())?;
    Ok(text)
}

fn constant_text(alloc: Global, constant: &Constant) -> Result<String, AllocError>
    ensures { IfOk result (λ s. string_bytes s
        ≡ compact_text (constant_value constant.now) ++ codes " was expected") }
{
    let mut text = match constant {
        Constant::Number(number) => digits(alloc, *number)?,
        Constant::Text(text) => quoted_text(alloc, text.as_str())?,
    };
    text.push_str(" was expected")?;
    Ok(text)
}

fn length_text(
    alloc: Global,
    node: Node<'_>,
    middle: &str,
    length: u64,
) -> Result<String, AllocError>
    ensures { IfOk result (λ s. string_bytes s
        ≡ shown (data_of node.entry) ++ middle.now ++ number_text (unsigned length)
        ++ codes " characters") }
{
    let mut text = compared_text(alloc, node, middle, WholeNumber::Unsigned(length))?;
    text.push_str(" characters")?;
    Ok(text)
}
