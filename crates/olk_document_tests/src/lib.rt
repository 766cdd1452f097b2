//! Tests of the places of a document's schema: as nodes that are made by hand, and as they are
//! built.
//!
//! Stands on `olk_document_build` and what is below, whose public calls alone it asks. The tests
//! are in its modules.
#![tactic(auto)]

#[cfg(test)]
mod building;
#[cfg(test)]
mod compiling;
#[cfg(test)]
mod documents;
#[cfg(test)]
mod places;
#[cfg(test)]
mod references;
#[cfg(test)]
mod validators;
