//! Building nodes from a schema: a keyword's value is read, what is inside is compiled, and its
//! validator is made.
//!
//! The module of each keyword that holds schemas or names says how it is read, compiled and made.
//! Its `compile` speaks of a parent in which the value stands at the module's name: of a value that
//! is no such member it promises nothing but that the context's place is as before. Compiling alone
//! recurs. The nodes are of any type that is a `BuiltNode`. Stands on `olk_tree` and `olk_reports`.
//! Tested by `olk_build_tests`.
#![tactic(auto)]

pub mod additional_properties;
pub mod all_of;
pub mod any_of;
pub mod build;
pub mod context;
pub mod dependencies;
pub mod if_;
mod making;
pub mod not;
pub mod one_of;
pub mod part;
pub mod pattern_properties;
pub mod properties;
pub mod property_dependencies;
pub mod property_names;
pub mod reading;
pub mod refusal;
pub mod required;
pub mod shape;
pub mod taking;

pub use build::{compile, compile_declared, compile_keyword};
pub use context::{Context, Makers};
