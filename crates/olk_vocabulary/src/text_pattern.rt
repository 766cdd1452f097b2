//! `pattern` (JSON Schema 2020-12 Validation, 6.3.3).
ghost use Rattle.std.specs.Prelude.{◌≡◌, true, false, Some, IfOk, MatchOption, string_bytes};
ghost use Rattle.olk_base.specs.Nodes.{data_of};
ghost use Rattle.olk_spec.specs.Names.{Text};
ghost use Rattle.olk_regexes.specs.Built.{rule_of_engine};
ghost use Rattle.olk_regexes.specs.Says.{builds, rule_of_pattern};
ghost use Rattle.olk_vocabulary.specs.Patterns.{is_found, has_found};

use crate::lengths::text_of;
use olk_base::Node;
use olk_regexes::Pattern;
use std::alloc::{AllocError, Global};

/// What a text is to match, with its own text.
#[derive(Drop)]
pub struct TextPattern {
    text: String,
    engine: Pattern,
    ghost answers: { (s : Text) → is_found (rule_of_pattern (string_bytes text)) s
        ≡ is_found (Some (rule_of_engine engine)) s },
}

impl TextPattern {
    pub(crate) fn new(alloc: Global, text: &str) -> Result<Option<TextPattern>, AllocError>
        ensures { IfOk result (λ o. MatchOption o (builds text.now ≡ false)
            (λ p. (builds text.now ≡ true) × (string_bytes p.text ≡ text.now))) }
    {
        match Pattern::new(alloc, text)? {
            Some(engine) => {
                let text = String::from_str(alloc, text)?;
                Ok(Some(TextPattern { text, engine }))
            }
            None => Ok(None),
        }
    }

    /// Its text.
    pub(crate) fn text(&self) -> &str
        ensures { result.now ≡ string_bytes self.now.text }
    {
        self.text.as_str()
    }

    /// Whether it is found in the node. It is in what is no text.
    pub(crate) fn has_found(&self, node: Node<'_>) -> bool
        ensures { result ≡ has_found (string_bytes self.now.text) (data_of node.entry) }
    {
        match text_of(node) {
            Some(text) => self.engine.finds(text),
            None => true,
        }
    }
}
