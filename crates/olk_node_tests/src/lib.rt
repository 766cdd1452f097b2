//! Tests of the validators as they are made by hand, of looking up names, and of the tables of
//! patterns.
//!
//! Stands on `object_logic` and what is below, and asks their public calls alone, none of building.
//! The tests are in its modules.
#![tactic(auto)]

#[cfg(test)]
mod check;
#[cfg(test)]
mod names;
#[cfg(test)]
mod objects;
#[cfg(test)]
mod pattern_tables;
