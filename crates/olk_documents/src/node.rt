//! Places of a document's schema, as nodes that hold each other.
ghost use Rattle.std.specs.Prelude.{◌≡◌};

use crate::arrays::{Items, PrefixItems};
use crate::contains::Contains;
use crate::reference::Reference;
use olk_base::{Leaf, RegexEngine};
use olk_reports::Location;
use olk_tree::built_node::BuiltNode;
use olk_tree::node::{Body, KeywordOver};
use std::alloc::Global;

/// A keyword that the layer doesn't read, over the nodes that it holds.
#[derive(Drop)]
pub enum DocumentKeyword<N> {
    /// `prefixItems`.
    PrefixItems(PrefixItems<N>),
    /// `items`.
    Items(Items<N>),
    /// `contains`.
    Contains(Contains<N>),
    /// `$ref`.
    Reference(Reference<N>),
}

/// A place of a document's schema: what the layer reads there, and what it doesn't.
pub struct DocumentNode<K, R> {
    pub location: Location,
    pub body: Body<KeywordOver<K, R, DocumentNode<K, R>>>,
    pub more: Vec<DocumentKeyword<DocumentNode<K, R>>>,
}

// By hand, so that the crates above drop a node by one call.
impl<K: Drop, R: Drop> Drop for DocumentNode<K, R> {
    fn drop(self) {
        let DocumentNode {
            location: _location,
            body: _body,
            more: _more,
        } = self;
    }
}

impl<K: Leaf, R: RegexEngine> BuiltNode<K, R> for DocumentNode<K, R> {
    ghost use Rattle.olk_base.specs.Kit.{kit};
    ghost use Rattle.olk_tree.specs.Places.{AnswersBy};
    ghost use Rattle.olk_documents.specs.Nodes.{answers};

    ghost answers = { answers (kit K.Leaf R.RegexEngine) };

    fn new(
        alloc: Global,
        location: Location,
        body: Body<KeywordOver<K, R, DocumentNode<K, R>>>,
    ) -> Self
        ensures { AnswersBy (kit K.Leaf R.RegexEngine) (answers (kit K.Leaf R.RegexEngine))
            location body result }
    {
        DocumentNode {
            location,
            body,
            more: Vec::new(alloc),
        }
    }
}
