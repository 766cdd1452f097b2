//! Places of a document's schema: the keywords of the layer over nodes, and beside them those of
//! arrays and references.
//!
//! Stands on `olk_errors`, `olk_evaluate` and `olk_document_spec`. Tested by `olk_document_tests`.
#![tactic(auto)]

pub mod arrays;
pub mod contains;
pub mod errors;
pub mod evaluate;
pub mod means;
pub mod node;
pub mod reference;
pub mod valid;

pub use arrays::{Items, PrefixItems};
pub use contains::{Bounds, Contains};
pub use node::{DocumentKeyword, DocumentNode};
pub use reference::Reference;
