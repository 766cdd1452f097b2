//! Worked rows: small schemas with what they are as schemas of 2020-12, texts with the drafts that
//! they name, and references with the files to which they lead, compared with the definitions.
//!
//! Each function has no body to speak of. Its contract is the rows of one file of `specs`, and the
//! check computes them.

ghost use Rattle.olk_drafts.specs.Rows_drafts.{Rows_drafts};
ghost use Rattle.olk_drafts.specs.Rows_names.{Rows_names};
ghost use Rattle.olk_drafts.specs.Rows_paths.{Rows_paths};

/// Schemas of older drafts are these schemas of 2020-12.
pub fn rows_of_drafts()
    ensures { Rows_drafts }
{}

/// Texts name these drafts.
pub fn rows_of_names()
    ensures { Rows_names }
{}

/// Paths lead to these files.
pub fn rows_of_paths()
    ensures { Rows_paths }
{}
