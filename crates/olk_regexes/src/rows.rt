//! Worked rows: patterns with the expressions that are read of them.
ghost use Rattle.olk_regexes.specs.Rows.{Rows_read, Rows_refused};

/// Each production of the syntax is read as expected.
pub fn rows_read()
    ensures { Rows_read }
{}

/// What is not of the syntax, and what of it is not supported, is not read.
pub fn rows_refused()
    ensures { Rows_refused }
{}
