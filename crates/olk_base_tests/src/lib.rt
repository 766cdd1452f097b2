//! A leaf set and a matcher of few words, makers that count, and the tests of the lines, names,
//! patterns, reports, answers and the bench.
//!
//! Stands on `olk_bench` and `olk_answers`, and on no validator. The tests are in its
//! modules.
#![tactic(auto)]

#[cfg(test)]
mod answers;
#[cfg(test)]
mod base;
#[cfg(test)]
mod bench;
pub mod counting;
pub mod doubles;
pub mod leaves;
#[cfg(test)]
mod lines;
#[cfg(test)]
mod reports;
#[cfg(test)]
mod streams;
pub mod tables;
