//! The laws of the meaning, each the contract of a function that does nothing.

ghost use Rattle.std.specs.Prelude.{codes};
ghost use Rattle.olk_spec.specs.Laws.{Verdict_of_reports, Empty_report, Only_report, Not_not, One_branch, Passes, Verdict_of_trees};
ghost use Rattle.olk_spec.specs.Refused.{One_length, One_list_of_places, One_list_of_lines, One_list_of_kinds, One_list_of_fault_keywords, All_names_are_told, First_name_alone_is_no_report, Order_in_a_branch_is_free, First_faults_alone_are_no_report, Exchanged_branches_are_no_report, No_branches_are_no_report};
ghost use Rattle.olk_spec.specs.Refused_trees.{One_validity, One_list_of_annotations, One_frame, One_list_of_keywords, One_list_of_texts, Names_are_shown, Without_its_names_it_is_no_tree, At_another_member_it_is_no_tree, Errors_are_told, With_another_text_it_is_no_tree, Without_its_error_it_is_no_tree, Any_text_stands_for_a_fraction, Texts_of_a_leaf_stand_in_any_order, Without_one_of_its_texts_it_is_no_leaf};

/// A schema accepts a value exactly where it finds no fault in it: exactly if the empty list is a
/// report, and then it is the only one.
pub fn one_verdict()
    ensures verdict { Verdict_of_reports }
    ensures empty { Empty_report }
    ensures only { Only_report }
{}

/// The tree of a schema over a value is valid exactly where the schema accepts the value, for every
/// schema and value in which no object has a name twice (RFC 8259, 4), malformed schemas among
/// them.
pub fn tree_verdict()
    ensures { Verdict_of_trees }
{}

/// `not` of `not` of a schema accepts what the schema accepts, and so do `allOf`, `anyOf` and
/// `oneOf` with that schema as their one branch (JSON Schema 2020-12 Core, 10.2.1).
pub fn logic()
    ensures not_not { Not_not }
    ensures all_of { One_branch (codes "allOf") }
    ensures any_of { One_branch (codes "anyOf") }
    ensures one_of { One_branch (codes "oneOf") }
{}

/// A value that is no object passes each keyword that speaks of objects, whatever that keyword's
/// value is (JSON Schema 2020-12 Core, 10.3.2, and Validation, 6.5).
pub fn other_values()
    ensures properties { Passes (codes "properties") }
    ensures pattern_properties { Passes (codes "patternProperties") }
    ensures additional_properties { Passes (codes "additionalProperties") }
    ensures property_names { Passes (codes "propertyNames") }
    ensures required { Passes (codes "required") }
    ensures dependent_required { Passes (codes "dependentRequired") }
    ensures dependent_schemas { Passes (codes "dependentSchemas") }
    ensures dependencies { Passes (codes "dependencies") }
    ensures property_dependencies { Passes (codes "propertyDependencies") }
{}

/// The order in a report is free, also inside a context. Apart from it every report of a schema
/// over a value tells the same: as many faults, about the same instances, at the same paths, of the
/// same kinds and keywords and with the same texts, and in a context the same of each branch. So a list in which
/// a fault or a name is left out is no report, and nor is one whose branches are exchanged.
pub fn order()
    ensures one_length { One_length }
    ensures one_list_of_places { One_list_of_places }
    ensures one_list_of_lines { One_list_of_lines }
    ensures one_list_of_kinds { One_list_of_kinds }
    ensures one_list_of_keywords { One_list_of_fault_keywords }
    ensures all_names { All_names_are_told }
    ensures first_name { First_name_alone_is_no_report }
    ensures any_order { Order_in_a_branch_is_free }
    ensures first_faults { First_faults_alone_are_no_report }
    ensures exchanged { Exchanged_branches_are_no_report }
    ensures no_branches { No_branches_are_no_report }
{}

/// Every tree of a schema over a value has the nodes of the definition, each with its paths, its
/// validity, its annotation and its number of own errors, and the errors of the definition, with
/// their keywords and paths and, where none prints a fraction, their texts. So a tree in which
/// names, an error or a text are left out, or a member's path is another, is none; a leaf's texts
/// stand in any order, and a text that prints a fraction may be any text.
pub fn trees()
    ensures one_validity { One_validity }
    ensures one_list { One_list_of_annotations }
    ensures one_frame { One_frame }
    ensures one_list_of_keywords { One_list_of_keywords }
    ensures one_list_of_texts { One_list_of_texts }
    ensures names { Names_are_shown }
    ensures no_names { Without_its_names_it_is_no_tree }
    ensures another_member { At_another_member_it_is_no_tree }
    ensures errors { Errors_are_told }
    ensures another_text { With_another_text_it_is_no_tree }
    ensures no_error { Without_its_error_it_is_no_tree }
    ensures any_text { Any_text_stands_for_a_fraction }
    ensures any_order { Texts_of_a_leaf_stand_in_any_order }
    ensures one_of_two { Without_one_of_its_texts_it_is_no_leaf }
{}
