//! Definitions of what a schema means, and the laws that they keep.
//!
//! Stands on `serde_json` alone. Its tests are the worked rows and vectors of `rows`, as computed
//! facts.
#![tactic(auto)]

/// From so many declared names on, `properties` is not fused with `required` of two names.
pub const HASHMAP_THRESHOLD: usize = 15;

pub mod laws;
pub mod literals;
pub mod rows;
