//! What is said of a value that is not accepted.
ghost use Rattle.std.specs.Prelude.{◌≡◌, ◌++◌, IfOk, OnOk, string_bytes, codes, map, decimal};
ghost use Rattle.serde_json.specs.Data.{number};
ghost use Rattle.serde_json.specs.View.{view};
ghost use Rattle.olk_base.specs.Nodes.{data_of};
ghost use Rattle.olk_spec.specs.Bench.{shown};
ghost use Rattle.olk_numbers.specs.Numbers.{num_of};
ghost use Rattle.olk_vocabulary.specs.Keywords.{bound_words, limit_words, one_thing, many_things, bound_text, limit_text, multiple_text, told_kind, led, separated, candidates};
ghost use Rattle.olk_vocabulary.specs.Leaves.{kind_value};
ghost use Rattle.olk_vocabulary.specs.Patterns.{pattern_text};
ghost use Rattle.olk_vocabulary.specs.Unique.{unique_text};

use crate::keyword::{Bound, Limit};
use crate::kinds::Kind;
use olk_base::Node;
use olk_bench::shown_text;
use olk_numbers::{Divisor, JsonNumber};
use serde_json::Value;
use std::alloc::{AllocError, Global};
use std::fmt::Write;

/// The node as `shown_text` has it, and the words.
fn text_of(alloc: Global, node: Node<'_>, words: &str) -> Result<String, AllocError>
    ensures { IfOk result (λ s. string_bytes s ≡ shown (data_of node.entry) ++ words.now) }
{
    let mut text = shown_text(alloc, node)?;
    text.push_str(words)?;
    Ok(text)
}

fn push_decimal(text: &mut String, number: u64) -> Result<(), AllocError>
    ensures { OnOk result (string_bytes text.new ≡ string_bytes text.old ++ decimal number) }
{
    write!(text, "{number}")
}

/// Appends the number, as `shown_text` has it.
fn push_number(text: &mut String, appended: JsonNumber) -> Result<(), AllocError>
    ensures { OnOk result (string_bytes text.new
        ≡ string_bytes text.old ++ shown (number (num_of appended))) }
{
    match appended {
        JsonNumber::Unsigned(n) => write!(text, "{n}"),
        JsonNumber::Negative(n) => write!(text, "{n}"),
        JsonNumber::Float(_) => text.push_str("value"),
    }
}

fn bound_words(bound: Bound) -> &'static str
    ensures { result.now ≡ bound_words bound }
{
    match bound {
        Bound::Minimum => " is less than the minimum of ",
        Bound::Maximum => " is greater than the maximum of ",
        Bound::ExclusiveMinimum => " is less than or equal to the minimum of ",
        Bound::ExclusiveMaximum => " is greater than or equal to the maximum of ",
    }
}

pub(crate) fn bound_text(
    alloc: Global,
    node: Node<'_>,
    bound: Bound,
    limit: JsonNumber,
) -> Result<String, AllocError>
    ensures { IfOk result (λ s. string_bytes s
        ≡ bound_text bound (num_of limit) (data_of node.entry)) }
{
    let mut text = text_of(alloc, node, bound_words(bound))?;
    push_number(&mut text, limit)?;
    Ok(text)
}

pub(crate) fn multiple_text(
    alloc: Global,
    node: Node<'_>,
    divisor: Divisor,
) -> Result<String, AllocError>
    ensures { IfOk result (λ s. string_bytes s
        ≡ multiple_text (num_of divisor.number) (data_of node.entry)) }
{
    let mut text = text_of(alloc, node, " is not a multiple of ")?;
    push_number(&mut text, divisor.number)?;
    Ok(text)
}

fn limit_words(limit: Limit) -> &'static str
    ensures { result.now ≡ limit_words limit }
{
    match limit {
        Limit::MinLength => " is shorter than ",
        Limit::MaxLength => " is longer than ",
        Limit::MinItems | Limit::MinProperties => " has less than ",
        Limit::MaxItems | Limit::MaxProperties => " has more than ",
    }
}

fn one_thing(limit: Limit) -> &'static str
    ensures { result.now ≡ one_thing limit }
{
    match limit {
        Limit::MinLength | Limit::MaxLength => " character",
        Limit::MinItems | Limit::MaxItems => " item",
        Limit::MinProperties | Limit::MaxProperties => " property",
    }
}

fn many_things(limit: Limit) -> &'static str
    ensures { result.now ≡ many_things limit }
{
    match limit {
        Limit::MinLength | Limit::MaxLength => " characters",
        Limit::MinItems | Limit::MaxItems => " items",
        Limit::MinProperties | Limit::MaxProperties => " properties",
    }
}

pub(crate) fn limit_text(
    alloc: Global,
    node: Node<'_>,
    limit: Limit,
    number: u64,
) -> Result<String, AllocError>
    ensures { IfOk result (λ s. string_bytes s ≡ limit_text limit number (data_of node.entry)) }
{
    let mut text = text_of(alloc, node, limit_words(limit))?;
    push_decimal(&mut text, number)?;
    let things = if number == 1 {
        one_thing(limit)
    } else {
        many_things(limit)
    };
    text.push_str(things)?;
    Ok(text)
}

pub(crate) fn kind_text(alloc: Global, node: Node<'_>, kind: Kind) -> Result<String, AllocError>
    ensures { IfOk result (λ s. string_bytes s
        ≡ (shown (data_of node.entry) ++ codes " is not of type ")
        ++ told_kind (kind_value kind)) }
{
    let mut text = text_of(alloc, node, " is not of type ")?;
    text.push_str(kind.quoted())?;
    Ok(text)
}

pub(crate) fn kinds_text(
    alloc: Global,
    node: Node<'_>,
    kinds: &Vec<Kind>,
) -> Result<String, AllocError>
    ensures { IfOk result (λ s. string_bytes s
        ≡ (shown (data_of node.entry) ++ codes " is not of types ")
        ++ separated (map (λ k. told_kind (kind_value k)) kinds.now.items)) }
{
    let mut text = text_of(alloc, node, " is not of types ")?;
    push_kinds(&mut text, kinds)?;
    Ok(text)
}

fn push_kinds(text: &mut String, kinds: &[Kind]) -> Result<(), AllocError>
    ensures { OnOk result (string_bytes text.new
        ≡ string_bytes text.old
        ++ separated (map (λ k. told_kind (kind_value k)) kinds.now)) }
{
    match kinds.split_first() {
        Some((first, rest)) => {
            text.push_str(first.quoted())?;
            push_further_kinds(text, rest)
        }
        None => Ok(()),
    }
}

fn push_further_kinds(text: &mut String, kinds: &[Kind]) -> Result<(), AllocError>
    ensures { OnOk result (string_bytes text.new
        ≡ string_bytes text.old ++ led (map (λ k. told_kind (kind_value k)) kinds.now)) }
{
    for kind in kinds {
        text.push_str(", ")?;
        text.push_str(kind.quoted())?;
    }
    Ok(())
}

pub(crate) fn constant_text(alloc: Global, value: &Value) -> Result<String, AllocError>
    ensures { IfOk result (λ s. string_bytes s
        ≡ shown (view value.now) ++ codes " was expected") }
{
    text_of(alloc, Node::Value(value), " was expected")
}

pub(crate) fn pattern_text(
    alloc: Global,
    node: Node<'_>,
    pattern: &str,
) -> Result<String, AllocError>
    ensures { IfOk result (λ s. string_bytes s ≡ pattern_text pattern.now (data_of node.entry)) }
{
    let mut text = text_of(alloc, node, " does not match ")?;
    let shown = shown_text(alloc, Node::Name(pattern))?;
    text.push_str(shown.as_str())?;
    Ok(text)
}

pub(crate) fn unique_text(alloc: Global, node: Node<'_>) -> Result<String, AllocError>
    ensures { IfOk result (λ s. string_bytes s ≡ unique_text (data_of node.entry)) }
{
    text_of(alloc, node, " has non-unique elements")
}

pub(crate) fn candidates_text(
    alloc: Global,
    node: Node<'_>,
    values: &Vec<Value>,
) -> Result<String, AllocError>
    ensures { IfOk result (λ s. string_bytes s
        ≡ (shown (data_of node.entry) ++ codes " is not one of ")
        ++ candidates (map view values.now.items)) }
{
    let mut text = text_of(alloc, node, " is not one of ")?;
    push_candidates(alloc, &mut text, values)?;
    Ok(text)
}

fn push_candidates(alloc: Global, text: &mut String, values: &[Value]) -> Result<(), AllocError>
    ensures { OnOk result (string_bytes text.new
        ≡ string_bytes text.old ++ candidates (map view values.now)) }
{
    match values {
        [] => Ok(()),
        [one] => push_value(alloc, text, one),
        [one, two] => {
            push_value(alloc, text, one)?;
            push_further(alloc, text, " or ", two)
        }
        [one, two, three] => {
            push_value(alloc, text, one)?;
            push_further(alloc, text, ", ", two)?;
            push_further(alloc, text, " or ", three)
        }
        [one, two, rest @ ..] => {
            push_value(alloc, text, one)?;
            push_further(alloc, text, ", ", two)?;
            push_others(text, rest.len())
        }
    }
}

fn push_value(alloc: Global, text: &mut String, value: &Value) -> Result<(), AllocError>
    ensures { OnOk result (string_bytes text.new
        ≡ string_bytes text.old ++ shown (view value.now)) }
{
    let shown = shown_text(alloc, Node::Value(value))?;
    text.push_str(shown.as_str())?;
    Ok(())
}

/// The word and the value.
fn push_further(
    alloc: Global,
    text: &mut String,
    word: &str,
    value: &Value,
) -> Result<(), AllocError>
    ensures { OnOk result (string_bytes text.new
        ≡ string_bytes text.old ++ (word.now ++ shown (view value.now))) }
{
    text.push_str(word)?;
    push_value(alloc, text, value)
}

/// How many values are not shown.
fn push_others(text: &mut String, count: usize) -> Result<(), AllocError>
    ensures { OnOk result (string_bytes text.new
        ≡ string_bytes text.old
        ++ (codes " or " ++ (decimal count ++ codes " other candidates"))) }
{
    text.push_str(" or ")?;
    push_decimal(text, count as u64)?;
    text.push_str(" other candidates")?;
    Ok(())
}
