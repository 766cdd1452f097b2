//! Regular expressions, as a matcher of texts that takes no memory.
//!
//! Stands on the traits of `olk_base`, and on the table of General_Category in `ucd_category`.
#![tactic(auto)]

mod build;
mod category;
mod class;
mod classes;
mod counts;
mod edges;
mod escapes;
mod names;
mod part;
mod pattern;
mod place;
mod reader;
mod reason;
mod refusing;
mod regex;
mod rows;
mod rule;
mod search;
mod section;
mod sets;
mod size;
mod step;
mod tree;

pub use pattern::{
    Pattern, Regexes, law_of_built, law_of_edges, law_of_finding, law_of_look_ahead,
};
pub use reason::{Reason, Refusal};
pub use refusing::why_refused;
pub use rows::{rows_read, rows_refused};
