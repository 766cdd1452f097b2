//! Names, patterns, the traits of leaves and matchers, the meter and the context.
//!
//! Stands on the definitions alone. Tested by `olk_base_tests`.
#![tactic(auto)]

pub mod analysis;
pub mod context;
pub mod equality;
pub mod lists;
pub mod meter;
pub mod names;
pub mod no_regexes;
pub mod node;
pub mod pattern;
pub mod traits;

pub use analysis::{PatternOptimization, analyze_pattern, contains_ecma_whitespace, scan_body};
pub use context::ValidationContext;
pub use equality::is_same_text;
pub use lists::{append, one};
pub use meter::Meter;
pub use names::{KeyHead, PropertyName};
pub use no_regexes::{NoRegex, NoRegexes};
pub use node::{Asked, JsonType, Node, SAID_ROOM, Subject, leaf_accepts, quoted_text};
pub use pattern::{CompiledPattern, PropertyPattern, compile_pattern};
pub use traits::{Leaf, MakeError, MakeLeaf, MakeRegex, RegexEngine, Unfinished};
