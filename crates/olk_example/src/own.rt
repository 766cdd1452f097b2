//! A leaf and a matcher of one's own.
use object_logic::{Leaf, MakeError, MakeLeaf, MakeRegex, Meter, Node, RegexEngine, Unfinished};
use serde_json::Value;
use std::alloc::{AllocError, Global};

/// The leaf `word`, which refuses every other text.
#[derive(Drop)]
pub struct Word {
    text: String,
}

impl Leaf for Word {
    ghost use Rattle.std.specs.Prelude.{codes, string_bytes};
    ghost use Rattle.olk_example.specs.Words.{is_word, fits_word, word_faults, other_words};

    ghost reads = { is_word };

    ghost fits = { fits_word };

    ghost faults = { λ k x v. word_faults x v };

    ghost keyword_of = { λ l. codes "word" };

    ghost finds = { λ l v. other_words (string_bytes l.text) v };

    fn keyword(&self) -> &str {
        "word"
    }

    fn is_valid(&self, node: Node<'_>) -> bool {
        match node {
            Node::Value(Value::String(text)) => text.as_str() == self.text.as_str(),
            Node::Value(_) => true,
            Node::Name(name) => name == self.text.as_str(),
        }
    }

    fn collect_errors(
        &self,
        alloc: Global,
        node: Node<'_>,
        texts: &mut Vec<String>,
    ) -> Result<(), AllocError> {
        if !self.is_valid(node) {
            texts.push(String::from_str(alloc, "is another word")?)?;
        }
        Ok(())
    }
}

/// Makes the leaf `word` of a text.
#[derive(Drop)]
pub struct Words;

impl MakeLeaf for Words {
    type Leaf = Word;

    fn reads(&self, keyword: &str) -> bool {
        keyword == "word"
    }

    fn make(
        &self,
        alloc: Global,
        keyword: &str,
        value: &Value,
        meter: &mut Meter,
    ) -> Result<Word, MakeError> {
        meter.tick_leaves();
        match value.as_str() {
            Some(text) if keyword == "word" => Ok(Word {
                text: String::from_str(alloc, text)?,
            }),
            _ => Err(MakeError::Refused),
        }
    }
}

/// Matches the one name that the pattern is.
#[derive(Drop)]
pub struct EqualName {
    name: String,
}

impl RegexEngine for EqualName {
    ghost use Rattle.std.specs.Prelude.{true, string_bytes};
    ghost use Rattle.olk_example.specs.Words.{equals};

    ghost builds = { λ p. true };

    ghost says = { equals };

    ghost answers = { λ e n. equals (string_bytes e.name) n };

    ghost costs = { λ e. true };

    fn is_match(&self, text: &str, meter: &mut Meter) -> Result<bool, Unfinished> {
        meter.tick_asked();
        Ok(self.name.as_str() == text)
    }
}

/// Builds every pattern.
#[derive(Drop)]
pub struct EqualNames;

impl MakeRegex for EqualNames {
    type Engine = EqualName;

    fn make(
        &self,
        alloc: Global,
        pattern: &str,
        meter: &mut Meter,
    ) -> Result<EqualName, MakeError> {
        meter.tick_made();
        let name = String::from_str(alloc, pattern)?;
        Ok(EqualName { name })
    }
}
