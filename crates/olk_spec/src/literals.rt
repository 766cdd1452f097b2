//! The law of literal patterns.
ghost use Rattle.olk_spec.specs.Literals.{Literal_is_grammar};

/// The literal patterns are those of their grammar: reading a pattern from left to right gives a
/// test of texts exactly where the grammar has one, and gives that one.
///
/// The grammar is this project's own.
pub fn law_of_literal_patterns()
    ensures { Literal_is_grammar }
{}
