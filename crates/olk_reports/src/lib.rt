//! Where a value stands in an instance and a keyword in a schema, what is wrong with a value, and
//! what an evaluation shows of it.
//!
//! Stands on `olk_base`. Tested by `olk_base_tests`, and by the files of `olk_cli`.
#![tactic(auto)]

mod entry;
mod error;
mod evaluation;
mod message;
mod path;
mod text;
mod trail;

pub use entry::{AnnotationEntry, ErrorEntry, Evaluation, EvaluationFlag};
pub use error::{BuildError, ValidateError, ValidationError, ValidationErrorKind};
pub use evaluation::{ErrorDescription, EvaluationNode, EvaluationResult};
pub use path::{InstancePath, Location, Mark};
pub use text::PathText;
pub use trail::Trail;
