//! Worked rows: small schemas and values with what is expected of them, compared with the
//! definitions over the bench's leaves and matcher.
//!
//! Each function has no body to speak of. Its contract is the rows of one file of `specs`, and the
//! check computes them.

ghost use Rattle.olk_spec.specs.Rows_properties.{Rows_properties};
ghost use Rattle.olk_spec.specs.Rows_patterns.{Rows_patterns};
ghost use Rattle.olk_spec.specs.Rows_branches.{Rows_branches};
ghost use Rattle.olk_spec.specs.Rows_dependencies.{Rows_dependencies};
ghost use Rattle.olk_spec.specs.Rows_refusals.{Rows_refusals};
ghost use Rattle.olk_spec.specs.Rows_costs.{Rows_costs};
ghost use Rattle.olk_spec.specs.Rows_evaluation.{Rows_evaluation};
ghost use Rattle.olk_spec.specs.Rows_trees.{Rows_trees};
ghost use Rattle.olk_spec.specs.Rows_inside.{Rows_inside};
ghost use Rattle.olk_spec.specs.Rows_faults.{Rows_faults};
ghost use Rattle.olk_spec.specs.Rows_bench.{Rows_bench};
ghost use Rattle.olk_spec.specs.Vectors_names.{Vectors_names};
ghost use Rattle.olk_spec.specs.Vectors_members.{Vectors_members};
ghost use Rattle.olk_spec.specs.Vectors_patterns.{Vectors_patterns};

/// Declared, required and additional members are told as expected.
pub fn rows_of_properties()
    ensures { Rows_properties }
{}

/// Patterns match as expected, by a test of their own, by the matcher, and where it leaves a match
/// unfinished.
pub fn rows_of_patterns()
    ensures { Rows_patterns }
{}

/// Branches, negation and conditions accept and tell what is expected.
pub fn rows_of_branches()
    ensures { Rows_branches }
{}

/// Dependencies between members, and schemas of member names, accept and tell what is expected.
pub fn rows_of_dependencies()
    ensures { Rows_dependencies }
{}

/// Malformed schemas are malformed as expected, and in no other way.
pub fn rows_of_refusals()
    ensures { Rows_refusals }
{}

/// Builds count, and verdicts may ask, as expected.
pub fn rows_of_costs()
    ensures { Rows_costs }
{}

/// Evaluation trees show the annotations and errors that are expected.
pub fn rows_of_evaluation()
    ensures { Rows_evaluation }
{}

/// Evaluation trees are, whole, those that are expected.
pub fn rows_of_trees()
    ensures { Rows_trees }
{}

/// All keywords find and show what is expected where their schema is a branch of a member's.
pub fn rows_of_inside()
    ensures { Rows_inside }
{}

/// Faults and malformations have the kinds and instances that are expected, and each branch of
/// `oneOf` tells what it finds.
pub fn rows_of_faults()
    ensures { Rows_faults }
{}

/// The bench's leaves and matcher take and say what is expected.
pub fn rows_of_bench()
    ensures { Rows_bench }
{}

/// Names are told apart at each length and place.
pub fn vectors_of_names()
    ensures { Vectors_names }
{}

/// Declared names, patterns and additional members go together as expected.
pub fn vectors_of_members()
    ensures { Vectors_members }
{}

/// Patterns that the matcher refuses are refused beside each neighbour.
pub fn vectors_of_patterns()
    ensures { Vectors_patterns }
{}
