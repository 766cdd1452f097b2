//! Validation by whole documents: the object and logic keywords, `prefixItems`, `items`, `contains`
//! and `$ref`.
//!
//! Stands on `olk_document_build`. Tested by `olk_document_tests`.
#![tactic(auto)]

mod validator;

pub use validator::DocumentValidator;
