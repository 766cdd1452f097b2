//! A leaf set and a matcher of few words.
use olk_base::{Leaf, MakeError, MakeLeaf, MakeRegex, Meter, Node, RegexEngine, Unfinished};
use serde_json::Value;
use std::alloc::{AllocError, Global};

// ---- a leaf set: the keyword `text`, with the value false, refuses texts

/// The leaf `text`, which refuses texts.
#[derive(Drop)]
pub struct NoText;

impl Leaf for NoText {
    ghost use Rattle.std.specs.Prelude.{codes};
    ghost use Rattle.olk_base_tests.specs.Plain.{is_keyword, fits_text, text_faults};

    ghost reads = { is_keyword };

    ghost fits = { fits_text };

    ghost faults = { λ k x v. text_faults v };

    ghost keyword_of = { λ l. codes "text" };

    ghost finds = { λ l v. text_faults v };

    fn keyword(&self) -> &str {
        "text"
    }

    fn is_valid(&self, node: Node<'_>) -> bool {
        match node {
            Node::Value(Value::String(_)) => false,
            Node::Value(_) => true,
            Node::Name(_) => false,
        }
    }

    fn collect_errors(
        &self,
        alloc: Global,
        node: Node<'_>,
        texts: &mut Vec<String>,
    ) -> Result<(), AllocError> {
        if !self.is_valid(node) {
            texts.push(String::from_str(alloc, "is a text")?)?;
        }
        Ok(())
    }
}

/// Makes the leaf `text` of the value false, and of no other.
#[derive(Drop)]
pub struct NoTexts;

impl MakeLeaf for NoTexts {
    type Leaf = NoText;

    fn reads(&self, keyword: &str) -> bool {
        keyword == "text"
    }

    fn make(
        &self,
        _alloc: Global,
        keyword: &str,
        value: &Value,
        meter: &mut Meter,
    ) -> Result<NoText, MakeError> {
        meter.tick_leaves();
        match value {
            Value::Bool(false) if keyword == "text" => Ok(NoText),
            _ => Err(MakeError::Refused),
        }
    }
}

// ---- a matcher: a pattern matches the names that equal it, `?` is unfinished, `(` does not build

/// Matches the name that equals the text; where that is `?`, it leaves every name unfinished.
#[derive(Drop)]
pub struct EqualTo {
    text: String,
}

impl RegexEngine for EqualTo {
    ghost use Rattle.std.specs.Prelude.{true, string_bytes};
    ghost use Rattle.olk_base_tests.specs.Plain.{is_pattern, equals};

    ghost builds = { is_pattern };

    ghost says = { equals };

    ghost answers = { λ e n. equals (string_bytes e.text) n };

    ghost costs = { λ e. true };

    fn is_match(&self, text: &str, meter: &mut Meter) -> Result<bool, Unfinished> {
        meter.tick_asked();
        if self.text.as_str() == "?" {
            Err(Unfinished)
        } else {
            Ok(self.text.as_str() == text)
        }
    }
}

/// Builds the matcher of each pattern but `(`.
#[derive(Drop)]
pub struct Equality;

impl MakeRegex for Equality {
    type Engine = EqualTo;

    fn make(&self, alloc: Global, pattern: &str, meter: &mut Meter) -> Result<EqualTo, MakeError> {
        meter.tick_made();
        if pattern == "(" {
            Err(MakeError::Refused)
        } else {
            let text = String::from_str(alloc, pattern)?;
            Ok(EqualTo { text })
        }
    }
}
