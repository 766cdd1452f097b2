//! Tests of building: what the module of each keyword compiles, and of whole schemas what is
//! counted, what is refused, what is fused and which variants are built.
//!
//! Stands on `object_logic` and what is below, whose public calls alone it asks. The tests are in
//! its modules.
#![tactic(auto)]

#[cfg(test)]
mod entries;
#[cfg(test)]
mod fused;
#[cfg(test)]
mod keywords;
#[cfg(test)]
mod lines;
#[cfg(test)]
mod schemas;
#[cfg(test)]
mod shown;
#[cfg(test)]
mod variants;
