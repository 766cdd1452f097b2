//! Tests of schemas of older drafts, and of several files, as one document of 2020-12.
//!
//! Stands on `olk_drafts`, whose public calls alone it asks, and on the tables of `olk_base_tests`.
//! The tests are in its modules.
#![tactic(auto)]

#[cfg(test)]
mod drafts;
#[cfg(test)]
mod files;
