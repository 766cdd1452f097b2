//! Worked rows: small documents and values with what is expected of them, compared with the
//! definitions over the bench's leaves and matcher.
//!
//! Each function has no body to speak of. Its contract is the rows of one file of `specs`, and the
//! check computes them.

ghost use Rattle.olk_document_spec.specs.Rows_arrays.{Rows_arrays};
ghost use Rattle.olk_document_spec.specs.Rows_bounds.{Rows_bounds};
ghost use Rattle.olk_document_spec.specs.Rows_contains.{Rows_contains};
ghost use Rattle.olk_document_spec.specs.Rows_references.{Rows_references};
ghost use Rattle.olk_document_spec.specs.Rows_refusals.{Rows_refusals};

/// Items accept and tell what is expected.
pub fn rows_of_arrays()
    ensures { Rows_arrays }
{}

/// `contains` accepts and tells what is expected.
pub fn rows_of_contains()
    ensures { Rows_contains }
{}

/// As many items are contained as is expected.
pub fn rows_of_bounds()
    ensures { Rows_bounds }
{}

/// References accept and tell what is expected.
pub fn rows_of_references()
    ensures { Rows_references }
{}

/// Malformed documents are malformed as expected, and in no other way.
pub fn rows_of_refusals()
    ensures { Rows_refusals }
{}
