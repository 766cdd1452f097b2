//! A small set of leaves and a plain matcher, for the programs, tests and measurements.
//!
//! They can be used as they are: docs/CALLING.md says what they lack. Stands on `olk_base`. Tested
//! by `olk_base_tests`.
#![tactic(auto)]

mod leaf;
mod leaves;
mod numbers;
mod regexes;
mod texts;

pub use leaf::{BenchLeaf, Constant, ValueKind, has_more_chars};
pub use leaves::BenchLeaves;
pub use numbers::{Divisor, WholeNumber};
pub use regexes::{BenchRegex, BenchRegexes};
pub use texts::shown_text;
