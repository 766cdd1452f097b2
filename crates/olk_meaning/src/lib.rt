//! The members of a schema object as keywords: what each means, shows, refuses and costs over the
//! raw data of its value, and whose validator stands for it.
//!
//! Stands on the definitions alone. Tested by `olk_build_tests` through building.
#![tactic(auto)]

mod members;
mod neighbours;
mod plan;

pub use members::{has_member, law_of_names, member};
pub use neighbours::Neighbours;
pub use plan::{Plan, is_condition, is_restricted};
