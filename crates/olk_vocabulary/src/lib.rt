//! The assertion keywords of JSON Schema 2020-12 Validation that hold no schema, as a leaf set.
//!
//! Stands on `olk_base`, on the kinds of values and the texts of `olk_bench`, on the numbers of
//! `olk_numbers`, and on the patterns of `olk_regexes`. Tested by `olk_vocabulary_tests`.
#![tactic(auto)]

mod candidates;
mod equality;
mod keyword;
mod kinds;
mod leaf;
mod lengths;
mod maker;
mod order;
mod ranked;
mod text_pattern;
mod texts;
mod unique;

pub use candidates::Candidates;
pub use keyword::{Bound, Keyword, Limit};
pub use kinds::Kind;
pub use leaf::VocabularyLeaf;
pub use maker::{Vocabulary, is_unread};
pub use text_pattern::TextPattern;
