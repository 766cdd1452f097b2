//! Building the places of a document's schema: what the layer reads is built as it builds it, and
//! behind it the keywords of the document.
//!
//! Stands on `olk_build` and `olk_documents`. Tested by `olk_document_tests`.
#![tactic(auto)]

mod build;
pub mod document;
mod own;
pub mod reading;
pub mod references;
pub mod targets;

pub use build::compile_under;
pub use document::{REFERENCE_LIMIT, compile_document};
pub use own::{OwnShape, read_own};
pub use references::references_read;
pub use targets::Targets;
