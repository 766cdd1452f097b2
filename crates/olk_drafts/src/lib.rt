//! Schemas of older drafts, and of several files, as one document of JSON Schema 2020-12.
//!
//! Stands on `olk_reports`. Tested by `olk_drafts_tests`, and by the worked rows of `rows`, as
//! computed facts.
#![tactic(auto)]

mod drafts;
mod files;
mod keywords;
mod references;
pub mod rows;
mod sources;
mod translation;

pub use drafts::Draft;
pub use files::add_file;
pub use sources::Source;
pub use translation::translate;
