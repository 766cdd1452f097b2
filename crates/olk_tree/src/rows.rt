//! Which step of a validator's walk that refuses is the first.
//!
//! The function has no body to speak of. Its contract is the rows of `First_rows` in `specs`, and the
//! check computes them.

ghost use Rattle.olk_tree.specs.First_rows.{First_rows};

/// Each validator tells first of the step that is expected.
pub fn rows_of_first()
    ensures { First_rows }
{}
