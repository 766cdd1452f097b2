//! Places of errors in a text, and of what is not supported in a schema, and how they are told.
//!
//! Stands on `olk_reports`, `olk_answers`, `olk_regexes`, `olk_vocabulary` and
//! `olk_document_meaning`. Tested by the files of `olk`, and by `tools/checked_files` and
//! `tools/positions`.
#![tactic(auto)]

mod json;
mod limited;
mod lines;
mod located;
mod nesting;
mod numbers;
mod place;
mod pointer;
mod positions;
mod references;
mod scanner;
mod shown;
mod support;
mod targets;
mod told;
mod unsupported;
mod visible;

pub use json::{errors_text, first_text, placed};
pub use limited::{Limited, SHOWN_LEN};
pub use lines::error_lines;
pub use located::Located;
pub use nesting::Nesting;
pub use place::Place;
pub use shown::shown_message;
pub use unsupported::unsupported_lines;
pub use visible::Visible;
