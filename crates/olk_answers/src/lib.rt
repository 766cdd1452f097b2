//! What programs answer: an input line by line, and refusals, verdicts, errors and evaluations as
//! compact JSON.
//!
//! A status says how far a program came. Stands on `olk_reports`. Tested by `olk_base_tests`.
#![tactic(auto)]

mod errors;
mod evaluated;
pub mod lines;
mod reading;
mod texts;
mod writing;

pub use errors::{errors_text, first_text, malformation_text};
pub use evaluated::evaluation_text;
pub use lines::AnswerLine;
pub use texts::{refusal_text, schema_refusal_text, verdict_text};
