//! The candidates of `enum` (JSON Schema 2020-12 Validation, 6.1.2).
ghost use Rattle.std.specs.Prelude.{◌≡◌, ◌||◌, false, IfOk, OnOk, string_bytes};
ghost use Rattle.serde_json.specs.Data.{Data};
ghost use Rattle.serde_json.specs.View.{view, number_view};
ghost use Rattle.olk_base.specs.Nodes.{data_of};
ghost use Rattle.olk_vocabulary.specs.Same.{same_value, is_number, is_text};
ghost use Rattle.olk_vocabulary.specs.Candidates.{is_among, is_kept};

use crate::equality::is_candidate;
use crate::ranked::RankedNumber;
use olk_base::Node;
use serde_json::{Number, Value};
use std::alloc::{AllocError, Global};
use std::collections::BTreeSet;

/// Candidates by their kinds. A number and a text are found by bisection, the others one by one.
#[derive(Drop)]
struct Kept {
    numbers: BTreeSet<RankedNumber>,
    texts: BTreeSet<String>,
    others: Vec<Value>,
}

impl Kept {
    fn new(alloc: Global) -> Kept
        ensures { (v : Data) → is_kept result v ≡ false }
    {
        Kept {
            numbers: BTreeSet::new(alloc),
            texts: BTreeSet::new(alloc),
            others: Vec::new(alloc),
        }
    }

    fn keep(&mut self, value: &Value) -> Result<(), AllocError>
        ensures { OnOk result ((v : Data) → is_kept self.new v
            ≡ (is_kept self.old v || same_value (view value.now) v)) }
    {
        match value {
            Value::Number(number) => self.keep_number(number),
            Value::String(text) => self.keep_text(text),
            Value::Null | Value::Bool(_) | Value::Array(_) | Value::Object(_) => {
                self.others.push(value.clone()?)?;
                Ok(())
            }
        }
    }

    fn keep_number(&mut self, number: &Number) -> Result<(), AllocError>
        ensures { OnOk result ((v : Data) → is_kept self.new v
            ≡ (is_kept self.old v || is_number (number_view number.now) v)) }
    {
        self.numbers.insert(RankedNumber::of(number))?;
        Ok(())
    }

    fn keep_text(&mut self, text: &String) -> Result<(), AllocError>
        ensures { OnOk result ((v : Data) → is_kept self.new v
            ≡ (is_kept self.old v || is_text (string_bytes text.now) v)) }
    {
        self.texts.insert(text.clone()?)?;
        Ok(())
    }

    fn has(&self, node: Node<'_>) -> bool
        ensures { result ≡ is_kept self.now (data_of node.entry) }
    {
        match node {
            Node::Value(Value::Number(number)) => self.numbers.contains(&RankedNumber::of(number)),
            Node::Value(Value::String(text)) => self.texts.contains(text.as_str()),
            Node::Name(name) => self.texts.contains(name),
            Node::Value(_) => is_candidate(&self.others, node),
        }
    }
}

/// What a value is to be one of.
#[derive(Drop)]
pub struct Candidates {
    values: Vec<Value>,
    kept: Kept,
    ghost all: { (v : Data) → is_among values.items v ≡ is_kept kept v },
}

impl Candidates {
    pub(crate) fn new(alloc: Global, values: Vec<Value>) -> Result<Candidates, AllocError>
        ensures { IfOk result (λ c. c.values ≡ values) }
    {
        let mut kept = Kept::new(alloc);
        for value in &values {
            kept.keep(value)?;
        }
        Ok(Candidates { values, kept })
    }

    /// The candidates in their order.
    pub(crate) fn values(&self) -> &Vec<Value>
        ensures { result.now ≡ self.now.values }
    {
        &self.values
    }

    /// Whether the node is one of them.
    pub(crate) fn has(&self, node: Node<'_>) -> bool
        ensures { result ≡ is_among self.now.values.items (data_of node.entry) }
    {
        self.kept.has(node)
    }
}
