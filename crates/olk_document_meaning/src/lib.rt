//! The members of a schema object as keywords of a document: those that the layer reads, over the
//! object without the others, and the document's own; and the places that references name.
//!
//! Stands on `olk_meaning` and `olk_document_spec`. Tested by `olk_document_tests`.
#![tactic(auto)]

pub mod pointers;
