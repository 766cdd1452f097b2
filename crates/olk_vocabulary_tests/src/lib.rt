//! Tests of the vocabulary: what its leaves accept and tell, and which names it reads.
//!
//! Stands on `olk_vocabulary`, and on the tables of `olk_base_tests`. The tests are in its modules.
#![tactic(auto)]

#[cfg(test)]
mod rows;
