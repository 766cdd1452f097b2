//! Tests of the whole: of what is found and shown, and of what building and asking count.
//!
//! Stands on all libraries, whose public calls alone it asks. The tests are in its modules; those
//! that need no `Validator` are in the crates `olk_node_tests` and `olk_build_tests`. Each is a
//! table, whose rows have one form (`rows`): what is found is a text, and a test fails at the first
//! row that expects another.
#![tactic(auto)]

#[cfg(test)]
mod additional;
#[cfg(test)]
mod asked;
#[cfg(test)]
mod counts;
#[cfg(test)]
mod found;
#[cfg(test)]
mod nesting;
#[cfg(test)]
mod rows;
#[cfg(test)]
mod validator;
#[cfg(test)]
mod verdicts;
