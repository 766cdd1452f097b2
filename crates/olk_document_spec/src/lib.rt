//! Definitions of what a document means: a schema with `prefixItems`, `items`, `contains` and
//! `$ref` beside the keywords of the layer. And the laws that they keep.
//!
//! Stands on `olk_spec`. Its tests are the worked rows of `rows`, as computed facts.
#![tactic(auto)]

pub mod laws;
pub mod rows;
