//! The nodes of the places that references name.
ghost use Rattle.std.specs.Prelude.{◌≡◌, None, Some, cond, option_map, OnOk};
ghost use Rattle.std.specs.Str.{bytes_eq};
ghost use Rattle.olk_spec.specs.Names.{Text};
ghost use Rattle.olk_document_build.specs.Targets.{target_of};
ghost use Rattle.olk_document_build.specs.Documents.{with_texts, HasMore};

use olk_documents::DocumentNode;
use std::alloc::{AllocError, Global};
use std::collections::BTreeMap;
use std::rc::Rc;

/// The nodes of the places that references name, each under the text of the reference.
#[derive(Drop)]
pub struct Targets<K, R> {
    pub nodes: BTreeMap<String, Rc<DocumentNode<K, R>>>,
}

impl<K, R> Targets<K, R> {
    /// No targets: each reference is refused.
    pub fn new(alloc: Global) -> Self
        ensures { (t : Text) → target_of result t ≡ None }
    {
        Targets {
            nodes: BTreeMap::new(alloc),
        }
    }

    /// The node under a text, if there is one.
    pub fn find(&self, text: &str) -> Option<&Rc<DocumentNode<K, R>>>
        ensures { option_map (λ n. n.now.value) result ≡ target_of self.now text.now }
    {
        self.nodes.get(text)
    }

    /// Puts a node under a text, in the place of the one that was there.
    ///
    /// # Errors
    ///
    /// Out of memory.
    fn add(&mut self, alloc: Global, text: &str, node: DocumentNode<K, R>) -> Result<(), AllocError>
    where
        K: Drop,
        R: Drop,
        ensures { OnOk result ((t : Text) → target_of self.new t
            ≡ cond (bytes_eq text.now t) (Some node) (target_of self.old t)) }
    {
        let text = String::from_str(alloc, text)?;
        self.nodes.insert(text, Rc::new(alloc, node)?)?;
        Ok(())
    }

    /// Puts each node under its text, in the place of the one that was there.
    ///
    /// # Errors
    ///
    /// Out of memory.
    pub fn append(
        &mut self,
        alloc: Global,
        mut nodes: Vec<(&str, DocumentNode<K, R>)>,
    ) -> Result<(), AllocError>
    where
        K: Drop,
        R: Drop,
        ensures { OnOk result (HasMore self.old (with_texts nodes.entry.items) self.new) }
    {
        while let Some((text, node)) = nodes.pop() {
            self.add(alloc, text, node)?;
        }
        Ok(())
    }
}
