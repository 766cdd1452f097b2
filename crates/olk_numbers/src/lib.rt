//! Numbers of JSON by their values.
//!
//! Tested by `olk_vocabulary_tests`.
#![tactic(auto)]

mod decimals;
mod divisors;
mod numbers;

pub use divisors::Divisor;
pub use numbers::{JsonNumber, natural};
