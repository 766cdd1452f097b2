//! What is told of one instance: the verdict, the first error, all errors, or the evaluation.
//!
//! For any leaf set and matcher. Stands on `object_logic` and `olk_answers`. Tested by the files
//! `stdin` and `stdout` of `olk_cli`.
#![tactic(auto)]

mod replies;

pub use replies::{Question, tell_errors, tell_evaluation, tell_first, tell_verdict};
