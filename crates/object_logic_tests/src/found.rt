//! Contexts of errors, lists that are handed in, and children of evaluations. What is found without
//! contexts is in the program's lines (tools/program_lines).
use crate::asked::{Asked, Question, told_by};
use crate::rows::{Form, Table, expect};
use object_logic::{
    ErrorDescription, Evaluation, EvaluationNode, Node, ValidateError, ValidationContext,
    ValidationError, ValidationErrorKind,
};
use olk_bench::{BenchLeaves, BenchRegexes};
use serde_json::Value;
use std::alloc::{AllocError, Global};
use std::test::Fail;

// ---- the text of an error

/// An error as a line: its text, its instance path and its schema path.
fn line(alloc: Global, error: &ValidationError<'_>) -> Result<String, AllocError> {
    let mut text = error.message(alloc)?;
    text.write(format_args!(" @ \"{}\", {}", error.instance_path(), error.schema_path()))?;
    Ok(text)
}

/// The lines of errors in the order of their texts.
fn sorted(alloc: Global, errors: &[ValidationError<'_>]) -> Result<Vec<String>, AllocError> {
    let mut lines = Vec::new(alloc);
    for error in errors {
        lines.push(line(alloc, error)?)?;
    }
    lines.sort_unstable();
    Ok(lines)
}

fn push_lines(text: &mut String, lines: &[String]) -> Result<(), AllocError> {
    for line in lines {
        text.write(format_args!("{line};"))?;
    }
    Ok(())
}

fn push_in_brackets(text: &mut String, lines: &[String]) -> Result<(), AllocError> {
    text.push_str(" {")?;
    push_lines(text, lines)?;
    text.push_str("}")
}

/// The lines of errors in their own order.
fn in_order(alloc: Global, errors: &[ValidationError<'_>]) -> Result<Vec<String>, AllocError> {
    let mut lines = Vec::new(alloc);
    for error in errors {
        lines.push(line(alloc, error)?)?;
    }
    Ok(lines)
}

fn push_branch(
    alloc: Global,
    text: &mut String,
    branch: &[ValidationError<'_>],
) -> Result<(), AllocError> {
    let lines = sorted(alloc, branch)?;
    let pushed = push_in_brackets(text, &lines);
    drop(lines);
    pushed
}

/// What each branch finds, in brackets.
fn push_branches(
    alloc: Global,
    text: &mut String,
    context: &[Vec<ValidationError<'_>>],
) -> Result<(), AllocError> {
    for branch in context {
        push_branch(alloc, text, branch)?;
    }
    Ok(())
}

/// The branches in the context of an error, if it has one.
fn branches_of<'e, 'a>(error: &'e ValidationError<'a>) -> &'e [Vec<ValidationError<'a>>] {
    match error.kind() {
        ValidationErrorKind::AnyOf { context } => context,
        ValidationErrorKind::OneOfNotValid { context } => context,
        ValidationErrorKind::OneOfMultipleValid { context } => context,
        _ => &[],
    }
}

/// The line of an error, and what each branch finds.
fn with_branches(alloc: Global, error: &ValidationError<'_>) -> Result<String, AllocError> {
    let mut text = line(alloc, error)?;
    push_branches(alloc, &mut text, branches_of(error))?;
    Ok(text)
}

/// What an error speaks of.
fn push_instance(text: &mut String, error: &ValidationError<'_>) -> Result<(), AllocError> {
    match error.instance() {
        Node::Value(value) => text.write(format_args!(" of {value}")),
        Node::Name(name) => text.write(format_args!(" of the name {}", name)),
    }
}

/// The line of an error in brackets, and what it speaks of.
fn push_inner_line(
    text: &mut String,
    line: &str,
    error: &ValidationError<'_>,
) -> Result<(), AllocError> {
    text.write(format_args!(" [{line}"))?;
    push_instance(text, error)?;
    text.push_str("]")
}

fn push_inside(
    alloc: Global,
    text: &mut String,
    inside: &ValidationError<'_>,
) -> Result<(), AllocError> {
    let line = with_branches(alloc, inside)?;
    let pushed = push_inner_line(text, line.as_str(), inside);
    drop(line);
    pushed
}

/// What an error speaks of where its text doesn't tell, and in brackets the error inside.
fn push_rest(
    alloc: Global,
    text: &mut String,
    error: &ValidationError<'_>,
) -> Result<(), AllocError> {
    match error.kind() {
        ValidationErrorKind::Required { property: _ } => push_instance(text, error),
        ValidationErrorKind::PropertyNames { error: inside } => {
            push_instance(text, error)?;
            push_inside(alloc, text, inside)
        }
        _ => Ok(()),
    }
}

/// The line of an error with what each branch finds, what it speaks of where its text doesn't tell,
/// and in brackets the error inside.
fn with_context(alloc: Global, error: &ValidationError<'_>) -> Result<String, AllocError> {
    let mut text = with_branches(alloc, error)?;
    push_rest(alloc, &mut text, error)?;
    Ok(text)
}

// ---- the text of a list of errors

/// Errors with their contexts, in the order of their texts.
fn sorted_with_contexts(
    alloc: Global,
    errors: &[ValidationError<'_>],
) -> Result<Vec<String>, AllocError> {
    let mut lines = Vec::new(alloc);
    for error in errors {
        lines.push(with_context(alloc, error)?)?;
    }
    lines.sort_unstable();
    Ok(lines)
}

fn push_joined(text: &mut String, lines: &[String]) -> Result<(), AllocError> {
    for line in lines {
        let before = if text.is_empty() { "" } else { " & " };
        text.write(format_args!("{before}{line}"))?;
    }
    Ok(())
}

fn join(alloc: Global, lines: &[String]) -> Result<String, AllocError> {
    let mut text = String::new(alloc);
    push_joined(&mut text, lines)?;
    Ok(text)
}

/// Errors with their contexts, in the order of their texts, as one line.
fn joined(alloc: Global, errors: &[ValidationError<'_>]) -> Result<String, AllocError> {
    let lines = sorted_with_contexts(alloc, errors)?;
    let text = join(alloc, &lines);
    drop(lines);
    text
}

fn push_joined_branch(
    alloc: Global,
    text: &mut String,
    branch: &[ValidationError<'_>],
) -> Result<(), AllocError> {
    let inner = joined(alloc, branch)?;
    let pushed = text.push_str(inner.as_str());
    drop(inner);
    pushed
}

fn push_joined_branches(
    alloc: Global,
    text: &mut String,
    branches: &[Vec<ValidationError<'_>>],
) -> Result<(), AllocError> {
    for branch in branches {
        push_joined_branch(alloc, text, branch)?;
    }
    Ok(())
}

/// The errors in the contexts of errors, with their contexts.
fn inner_lines(alloc: Global, errors: &[ValidationError<'_>]) -> Result<String, AllocError> {
    let mut text = String::new(alloc);
    for error in errors {
        push_joined_branches(alloc, &mut text, branches_of(error))?;
    }
    Ok(text)
}

fn push_list_in_order(
    alloc: Global,
    text: &mut String,
    errors: &[ValidationError<'_>],
) -> Result<(), AllocError> {
    let lines = in_order(alloc, errors)?;
    let pushed = push_in_brackets(text, &lines);
    drop(lines);
    pushed
}

fn push_branches_in_order(
    alloc: Global,
    text: &mut String,
    branches: &[Vec<ValidationError<'_>>],
) -> Result<(), AllocError> {
    for branch in branches {
        push_list_in_order(alloc, text, branch)?;
    }
    Ok(())
}

/// Errors, and those of each branch in their contexts, all in their own order.
fn lists_in_order(alloc: Global, errors: &[ValidationError<'_>]) -> Result<String, AllocError> {
    let mut text = String::new(alloc);
    push_list_in_order(alloc, &mut text, errors)?;
    for error in errors {
        push_branches_in_order(alloc, &mut text, branches_of(error))?;
    }
    Ok(text)
}

/// What each error speaks of.
fn instances(alloc: Global, errors: &[ValidationError<'_>]) -> Result<String, AllocError> {
    let mut text = String::new(alloc);
    for error in errors {
        push_instance(&mut text, error)?;
    }
    Ok(text)
}

// ---- what is found

fn collect<'a, V: Asked>(
    validator: &'a V,
    alloc: Global,
    instance: &'a Value,
    errors: &mut Vec<ValidationError<'a>>,
) -> Result<(), AllocError> {
    let mut ctx = ValidationContext::new(false);
    validator.collect_errors(alloc, instance, &mut ctx, errors)
}

fn collected<'a, V: Asked>(
    validator: &'a V,
    alloc: Global,
    instance: &'a Value,
) -> Result<Vec<ValidationError<'a>>, AllocError> {
    let mut errors = Vec::new(alloc);
    collect(validator, alloc, instance, &mut errors)?;
    Ok(errors)
}

/// All errors, and no text where the instance is accepted.
fn all_lines<V: Asked>(
    validator: &V,
    alloc: Global,
    instance: &Value,
) -> Result<String, AllocError> {
    let errors = collected(validator, alloc, instance)?;
    let text = joined(alloc, &errors);
    drop(errors);
    text
}

/// All errors and those in their contexts, as the walk comes to them.
fn told_in_order<V: Asked>(
    validator: &V,
    alloc: Global,
    instance: &Value,
) -> Result<String, AllocError> {
    let errors = collected(validator, alloc, instance)?;
    let text = lists_in_order(alloc, &errors);
    drop(errors);
    text
}

/// The first error with its context, and no text where the instance is accepted.
fn first_line<V: Asked>(
    validator: &V,
    alloc: Global,
    instance: &Value,
) -> Result<String, AllocError> {
    let mut ctx = ValidationContext::new(false);
    let found = validator.validate(alloc, instance, &mut ctx);
    let line = match &found {
        Ok(()) => Ok(String::new(alloc)),
        Err(ValidateError::Invalid(error)) => with_context(alloc, error),
        Err(ValidateError::Memory(_)) => Err(AllocError),
    };
    drop(found);
    line
}

/// All errors behind the first, where these are others.
fn push_others(text: &mut String, all: &str) -> Result<(), AllocError> {
    if all == text.as_str() {
        Ok(())
    } else {
        text.write(format_args!(" | {all}"))
    }
}

fn push_all<V: Asked>(
    text: &mut String,
    validator: &V,
    alloc: Global,
    instance: &Value,
) -> Result<(), AllocError> {
    let all = all_lines(validator, alloc, instance)?;
    let pushed = push_others(text, all.as_str());
    drop(all);
    pushed
}

fn is_valid<V: Asked>(validator: &V, instance: &Value) -> bool {
    validator.is_valid(instance, &mut ValidationContext::new(false))
}

fn shows_valid<V: Asked>(
    validator: &V,
    alloc: Global,
    instance: &Value,
) -> Result<bool, AllocError> {
    let mut ctx = ValidationContext::new(false);
    let evaluated = validator.evaluate(alloc, instance, &mut ctx);
    let told = match &evaluated {
        Ok(evaluation) => Ok(evaluation.flag().valid),
        Err(_) => Err(AllocError),
    };
    drop(evaluated);
    told
}

/// Behind the errors, whether the instance is accepted, and the verdicts of `is_valid` and
/// `evaluate` where these are others.
fn push_verdicts<V: Asked>(
    text: &mut String,
    validator: &V,
    alloc: Global,
    instance: &Value,
) -> Result<(), AllocError> {
    let accepted = text.is_empty();
    let shown = shows_valid(validator, alloc, instance)?;
    let valid = is_valid(validator, instance);
    if (valid, shown) != (accepted, accepted) {
        text.write(format_args!(" (is_valid: {valid}, evaluate: {shown})"))
    } else if accepted {
        text.push_str("accepted")
    } else {
        Ok(())
    }
}

/// The first error, and all errors where these are others; each way of asking gives the same
/// verdict.
fn told<V: Asked>(validator: &V, alloc: Global, instance: &Value) -> Result<String, AllocError> {
    let mut text = first_line(validator, alloc, instance)?;
    push_all(&mut text, validator, alloc, instance)?;
    push_verdicts(&mut text, validator, alloc, instance)?;
    Ok(text)
}

fn count_errors(alloc: Global, evaluation: &Evaluation<'_>) -> Result<usize, AllocError> {
    let entries = evaluation.iter_errors(alloc)?;
    let count = entries.len();
    drop(entries);
    Ok(count)
}

/// How many errors an evaluation lists.
fn shown_errors<V: Asked>(
    validator: &V,
    alloc: Global,
    instance: &Value,
) -> Result<usize, AllocError> {
    let mut ctx = ValidationContext::new(false);
    let evaluated = validator.evaluate(alloc, instance, &mut ctx);
    let told = match &evaluated {
        Ok(evaluation) => count_errors(alloc, evaluation),
        Err(_) => Err(AllocError),
    };
    drop(evaluated);
    told
}

/// What is found, and how many errors an evaluation lists where these are others than so many.
fn told_and_shown<V: Asked>(
    validator: &V,
    alloc: Global,
    instance: &Value,
    errors: Option<u64>,
) -> Result<String, AllocError> {
    let mut text = told(validator, alloc, instance)?;
    let shown = shown_errors(validator, alloc, instance)?;
    if errors != Some(shown as u64) {
        text.write(format_args!(" ({shown} errors are shown)"))?;
    }
    Ok(text)
}

/// The errors in the context of the one error, with their contexts.
fn told_inside<V: Asked>(
    validator: &V,
    alloc: Global,
    instance: &Value,
) -> Result<String, AllocError> {
    let errors = collected(validator, alloc, instance)?;
    let text = inner_lines(alloc, &errors);
    drop(errors);
    text
}

fn told_instances<V: Asked>(
    validator: &V,
    alloc: Global,
    instance: &Value,
) -> Result<String, AllocError> {
    let errors = collected(validator, alloc, instance)?;
    let text = instances(alloc, &errors);
    drop(errors);
    text
}

/// All errors behind those that were in the list.
fn told_twice<V: Asked>(
    validator: &V,
    alloc: Global,
    instance: &Value,
) -> Result<String, AllocError> {
    let mut errors = collected(validator, alloc, instance)?;
    let again = collect(validator, alloc, instance, &mut errors);
    let text = match again {
        Ok(()) => joined(alloc, &errors),
        Err(error) => Err(error),
    };
    drop(errors);
    text
}

// ---- what an evaluation shows

fn push_names(text: &mut String, names: &[&str]) -> Result<(), AllocError> {
    text.push_str(" [")?;
    for name in names {
        text.write(format_args!("{name},"))?;
    }
    text.push_str("]")
}

fn push_annotation(text: &mut String, names: Option<&[&str]>) -> Result<(), AllocError> {
    match names {
        Some(names) => push_names(text, names),
        None => Ok(()),
    }
}

fn push_descriptions(text: &mut String, errors: &[ErrorDescription<'_>]) -> Result<(), AllocError> {
    for error in errors {
        text.write(format_args!(" {}: {}", error.keyword(), error.message()))?;
    }
    Ok(())
}

/// A node: its two paths, a mark where it is invalid, its names in brackets, and its errors.
fn push_node(text: &mut String, node: &EvaluationNode<'_>) -> Result<(), AllocError> {
    let mark = if node.valid() { "" } else { "!" };
    text.write(format_args!("{}@{}{mark}", node.schema_path(), node.instance_path()))?;
    push_annotation(text, node.annotation())?;
    push_descriptions(text, node.errors())
}

/// A node in parentheses, and `..` for those below it.
fn push_inner(text: &mut String, node: &EvaluationNode<'_>) -> Result<(), AllocError> {
    text.push_str(" (")?;
    push_node(text, node)?;
    text.push_str(if node.children().is_empty() {
        ")"
    } else {
        " ..)"
    })
}

/// A node and those below it, in parentheses.
fn push_place(text: &mut String, place: &EvaluationNode<'_>) -> Result<(), AllocError> {
    text.push_str(" (")?;
    push_node(text, place)?;
    for inner in place.children() {
        push_inner(text, inner)?;
    }
    text.push_str(")")
}

/// A node and those below it, in parentheses, down to the keywords of the schemas that a keyword
/// asks, and `..` for what is deeper.
fn push_tree(text: &mut String, keyword: &EvaluationNode<'_>) -> Result<(), AllocError> {
    push_node(text, keyword)?;
    for place in keyword.children() {
        push_place(text, place)?;
    }
    text.push_str(";")
}

fn trees(alloc: Global, keywords: &[EvaluationNode<'_>]) -> Result<String, AllocError> {
    let mut text = String::new(alloc);
    for keyword in keywords {
        push_tree(&mut text, keyword)?;
    }
    Ok(text)
}

/// What an evaluation shows below its root.
fn shown_trees<V: Asked>(
    validator: &V,
    alloc: Global,
    instance: &Value,
) -> Result<String, AllocError> {
    let mut ctx = ValidationContext::new(false);
    let evaluated = validator.evaluate(alloc, instance, &mut ctx);
    let told = match &evaluated {
        Ok(evaluation) => trees(alloc, evaluation.root().children()),
        Err(_) => Err(AllocError),
    };
    drop(evaluated);
    told
}

// ---- with a growth refused

/// Whether all errors are put into the list, asked a second time where memory was wanting; a
/// refused call leaves the list as it was.
fn collects_at_last<'a, V: Asked>(
    validator: &'a V,
    alloc: Global,
    instance: &'a Value,
    errors: &mut Vec<ValidationError<'a>>,
) -> bool {
    let before = errors.len();
    collect(validator, alloc, instance, errors).is_ok()
        || (errors.len() == before && collect(validator, alloc, instance, errors).is_ok())
}

/// Whether two errors are of the same places.
fn are_alike(error: &ValidationError<'_>, other: &ValidationError<'_>) -> bool {
    error.schema_path() == other.schema_path() && error.instance_path() == other.instance_path()
}

/// Whether the errors of a list are of the same places as those that it had before, each in order.
fn is_twice_alike(errors: &[ValidationError<'_>]) -> bool {
    let (before, behind) = errors.split_at(errors.len() / 2);
    for (error, other) in before.iter().zip(behind) {
        if !are_alike(error, other) {
            return false;
        }
    }
    true
}

/// How many errors are in a list, and in one that they are put into twice, whose second half is as
/// its first.
fn two_counts_at_last<V: Asked>(
    validator: &V,
    alloc: Global,
    instance: &Value,
) -> Option<(usize, usize)> {
    let mut errors = Vec::new(alloc);
    let once = collects_at_last(validator, alloc, instance, &mut errors);
    let count = errors.len();
    let twice = collects_at_last(validator, alloc, instance, &mut errors);
    let counts = (count, errors.len());
    let is_alike = is_twice_alike(&errors);
    drop(errors);
    if once && twice && is_alike {
        Some(counts)
    } else {
        None
    }
}

/// How many errors an evaluation lists, asked a second time where memory was wanting.
fn count_at_last(alloc: Global, evaluation: &Evaluation<'_>) -> Option<usize> {
    match count_errors(alloc, evaluation) {
        Ok(count) => Some(count),
        Err(_) => count_errors(alloc, evaluation).ok(),
    }
}

fn evaluated_count<V: Asked>(
    validator: &V,
    alloc: Global,
    instance: &Value,
) -> Result<Option<usize>, AllocError> {
    let mut ctx = ValidationContext::new(false);
    let evaluated = validator.evaluate(alloc, instance, &mut ctx);
    let told = match &evaluated {
        Ok(evaluation) => Ok(count_at_last(alloc, evaluation)),
        Err(_) => Err(AllocError),
    };
    drop(evaluated);
    told
}

/// How many errors an evaluation lists that is asked for a second time where memory was wanting.
fn evaluated_count_at_last<V: Asked>(
    validator: &V,
    alloc: Global,
    instance: &Value,
) -> Option<usize> {
    match evaluated_count(validator, alloc, instance) {
        Ok(count) => count,
        Err(_) => evaluated_count(validator, alloc, instance).unwrap_or(None),
    }
}

/// The first error's line, asked a second time where memory was wanting.
fn first_line_at_last<V: Asked>(
    validator: &V,
    alloc: Global,
    instance: &Value,
) -> Result<String, AllocError> {
    match first_line(validator, alloc, instance) {
        Ok(line) => Ok(line),
        Err(_) => match first_line(validator, alloc, instance) {
            Ok(line) => Ok(line),
            Err(_) => String::from_str(alloc, "refused twice"),
        },
    }
}

/// The first error's line, where there are 25 errors, and an evaluation lists 26.
fn told_at_last<V: Asked>(
    validator: &V,
    alloc: Global,
    instance: &Value,
) -> Result<String, AllocError> {
    if two_counts_at_last(validator, alloc, instance) != Some((25, 50)) {
        String::from_str(alloc, "another count of errors")
    } else if evaluated_count_at_last(validator, alloc, instance) != Some(26) {
        String::from_str(alloc, "another count of shown errors")
    } else {
        first_line_at_last(validator, alloc, instance)
    }
}

// ---- forms of rows

/// What is asked of a validator of the bench's leaves and matchers.
#[derive(Clone, Copy, Drop)]
pub(crate) enum Found {
    /// The first error with its context, and all errors where these are others, or that the
    /// instance is accepted.
    Told,
    /// What `Told` says, and how many errors an evaluation lists where these are others than so
    /// many.
    AndShown(Option<u64>),
    /// The errors in the contexts of errors.
    Inside,
    /// All errors and those in their contexts, in their own order.
    InOrder,
    /// What the errors speak of.
    Instances,
    /// All errors, in a list that they are put into twice.
    Twice,
    /// What an evaluation shows below its root.
    Trees,
    /// The first error, each call being asked a second time where memory was wanting.
    AtLast,
}

impl Question for Found {
    fn told<V: Asked>(
        &self,
        validator: &V,
        alloc: Global,
        instance: &Value,
    ) -> Result<String, AllocError> {
        match self {
            Found::Told => told(validator, alloc, instance),
            Found::AndShown(errors) => told_and_shown(validator, alloc, instance, *errors),
            Found::Inside => told_inside(validator, alloc, instance),
            Found::InOrder => told_in_order(validator, alloc, instance),
            Found::Instances => told_instances(validator, alloc, instance),
            Found::Twice => told_twice(validator, alloc, instance),
            Found::Trees => shown_trees(validator, alloc, instance),
            Found::AtLast => told_at_last(validator, alloc, instance),
        }
    }
}

impl Form for Found {
    fn answer(
        &self,
        alloc: Global,
        schema: &Value,
        instance: &Value,
    ) -> Result<String, AllocError> {
        told_by(self, &BenchLeaves, &BenchRegexes, alloc, schema, instance)
    }
}

// A name, a schema, an instance, and the one error with its context, or that the instance is
// accepted. Where there is more than one error: the first, and all errors in the order of their
// texts.
const BRANCHES: &str =
    r##"no branch, an empty context | {"anyOf":[]} | 1 | 1 is not valid under any of the schemas listed in the 'anyOf' keyword @ "", /anyOf
each branch has all that it finds in the context, in the order of branches | {"anyOf":[{"type":"integer"},{"required":["a","b"]}]} | {} | {} is not valid under any of the schemas listed in the 'anyOf' keyword @ "", /anyOf {{} is not of type "integer" @ "", /anyOf/0/type;} {"a" is a required property @ "", /anyOf/1/required;"b" is a required property @ "", /anyOf/1/required;}
one branch | {"anyOf":[{"type":"string"}]} | 1 | 1 is not valid under any of the schemas listed in the 'anyOf' keyword @ "", /anyOf {1 is not of type "string" @ "", /anyOf/0/type;}
a branch that accepts | {"anyOf":[{"type":"integer"},false]} | 1 | accepted
nothing is wanted of all of none | {"allOf":[]} | 1 | accepted
each branch of all | {"allOf":[{"type":"string"},{"minimum":5}]} | 1 | 1 is not of type "string" @ "", /allOf/0/type | 1 is less than the minimum of 5 @ "", /allOf/1/minimum & 1 is not of type "string" @ "", /allOf/0/type
not | {"not":{"type":"string"}} | "foo" | {"type":"string"} is not allowed for "foo" @ "", /not
not of not | {"not":{"not":{"type":"string"}}} | 1 | {"not":{"type":"string"}} is not allowed for 1 @ "", /not
a false schema | false | 1 | False schema does not allow 1 @ "", "##;

#[test]
fn branches(rt: HostRuntime) -> Result<(), Fail> {
    expect(&Found::Told, rt.alloc(), Table::Named(BRANCHES))
}

const ONE_OF: &str =
    r##"no branch, an empty context | {"oneOf":[]} | 1 | 1 is not valid under any of the schemas listed in the 'oneOf' keyword @ "", /oneOf
two branches accept | {"oneOf":[{"type":"string"},{"maxLength":3}]} | "" | "" is valid under more than one of the schemas listed in the 'oneOf' keyword @ "", /oneOf {} {}
the first and the last branch accept | {"oneOf":[true,{"type":"string"},true]} | 1 | 1 is valid under more than one of the schemas listed in the 'oneOf' keyword @ "", /oneOf {} {1 is not of type "string" @ "", /oneOf/1/type;} {}
each branch has all that it finds in the context, in the order of branches | {"oneOf":[{"type":"integer"},{"required":["a","b"]}]} | {} | {} is not valid under any of the schemas listed in the 'oneOf' keyword @ "", /oneOf {{} is not of type "integer" @ "", /oneOf/0/type;} {"a" is a required property @ "", /oneOf/1/required;"b" is a required property @ "", /oneOf/1/required;}
one branch refuses | {"oneOf":[{"type":"string"}]} | 1 | 1 is not valid under any of the schemas listed in the 'oneOf' keyword @ "", /oneOf {1 is not of type "string" @ "", /oneOf/0/type;}
one branch accepts | {"oneOf":[{"type":"integer"}]} | 1 | accepted
the second branch alone accepts | {"oneOf":[{"type":"string"},{"maxLength":3}]} | 5 | accepted"##;

#[test]
fn exactly_one_branch(rt: HostRuntime) -> Result<(), Fail> {
    expect(&Found::Told, rt.alloc(), Table::Named(ONE_OF))
}

// Rows as in `BRANCHES`, for `if`, `then` and `else`.
const CONDITIONS: &str =
    r##"else refuses | {"else":{"multipleOf":2},"if":{"minimum":0},"then":{"multipleOf":2}} | -1 | -1 is not a multiple of 2 @ "", /else/multipleOf
then refuses | {"else":{"multipleOf":2},"if":{"minimum":0},"then":{"multipleOf":2}} | 3 | 3 is not a multiple of 2 @ "", /then/multipleOf
then alone, the condition refuses | {"if":{"type":"integer"},"then":false} | "x" | accepted
else alone, the condition accepts | {"else":false,"if":{"type":"integer"}} | 1 | accepted
a condition alone is not read | {"if":5} | 1 | accepted
then and else without a condition are not read | {"else":5,"then":5} | 1 | accepted
a condition in a condition | {"else":{"type":"null"},"if":{"if":{"type":"integer"},"then":{"minimum":5}},"then":{"maximum":9}} | 3 | 3 is not of type "null" @ "", /else/type
then has a context | {"if":{},"then":{"anyOf":[{"type":"null"}]}} | 1 | 1 is not valid under any of the schemas listed in the 'anyOf' keyword @ "", /then/anyOf {1 is not of type "null" @ "", /then/anyOf/0/type;}
a condition in a context | {"anyOf":[{"else":false,"if":{"type":"integer"},"then":{"minimum":5}},{"else":false,"if":{"type":"null"}}]} | 1 | 1 is not valid under any of the schemas listed in the 'anyOf' keyword @ "", /anyOf {1 is less than the minimum of 5 @ "", /anyOf/0/then/minimum;} {False schema does not allow 1 @ "", /anyOf/1/else;}"##;

#[test]
fn conditions(rt: HostRuntime) -> Result<(), Fail> {
    expect(&Found::Told, rt.alloc(), Table::Named(CONDITIONS))
}

// Rows as in `BRANCHES`, for the dependency keywords, and for names.
const DEPENDENCIES: &str =
    r##"a key wants a name of the object | {"dependentRequired":{"a":["b"]}} | {"a":1} | "b" is a required property @ "", /dependentRequired of {"a":1}
a key that is not there | {"dependentRequired":{"a":["b"]}} | {"c":1} | accepted
a list in a member | {"properties":{"o/p":{"dependencies":{"a":["b"]}}}} | {"o/p":{"a":1}} | "b" is a required property @ "/o~1p", /properties/o~1p/dependencies of {"a":1}
a schema of a key | {"dependentSchemas":{"a":{"required":["b"]}}} | {"a":1} | "b" is a required property @ "", /dependentSchemas/a/required of {"a":1}
branches of a key | {"dependentSchemas":{"a":{"anyOf":[{"type":"null"},{"dependencies":{"a":["b"]}}]}}} | {"a":1} | {"a":1} is not valid under any of the schemas listed in the 'anyOf' keyword @ "", /dependentSchemas/a/anyOf {{"a":1} is not of type "null" @ "", /dependentSchemas/a/anyOf/0/type;} {"b" is a required property @ "", /dependentSchemas/a/anyOf/1/dependencies;}
a schema that a text chooses | {"propertyDependencies":{"kind":{"a":{"required":["x"]},"b":false}}} | {"kind":"a"} | "x" is a required property @ "", /propertyDependencies/kind/a/required of {"kind":"a"}
a list that is told twice, and a schema that is chosen, in branches | {"oneOf":[{"dependencies":{"a":["b","b"]}},{"propertyDependencies":{"a":{"":false}}}]} | {"a":""} | {"a":""} is not valid under any of the schemas listed in the 'oneOf' keyword @ "", /oneOf {"b" is a required property @ "", /oneOf/0/dependencies;"b" is a required property @ "", /oneOf/0/dependencies;} {False schema does not allow {"a":""} @ "", /oneOf/1/propertyDependencies/a/;}
a name that is too short | {"propertyNames":{"minLength":2}} | {"f":1} | "f" is shorter than 2 characters @ "", /propertyNames/minLength of {"f":1} ["f" is shorter than 2 characters @ "", /propertyNames/minLength of the name f]
the empty name | {"propertyNames":{"minLength":1}} | {"":1} | "" is shorter than 1 characters @ "", /propertyNames/minLength of {"":1} ["" is shorter than 1 characters @ "", /propertyNames/minLength of the name ]
not of a name | {"propertyNames":{"not":true}} | {"a":1} | true is not allowed for "a" @ "", /propertyNames/not of {"a":1} [true is not allowed for "a" @ "", /propertyNames/not of the name a]
a name of a member | {"properties":{"o/p":{"propertyNames":{"allOf":[false]}}}} | {"o/p":{"a":1}} | False schema does not allow "a" @ "/o~1p", /properties/o~1p/propertyNames/allOf/0 of {"a":1} [False schema does not allow "a" @ "/o~1p", /properties/o~1p/propertyNames/allOf/0 of the name a]
branches of a name | {"propertyNames":{"oneOf":[{"const":"a"},true,{"maxLength":3}]}} | {"b":1} | "b" is valid under more than one of the schemas listed in the 'oneOf' keyword @ "", /propertyNames/oneOf of {"b":1} ["b" is valid under more than one of the schemas listed in the 'oneOf' keyword @ "", /propertyNames/oneOf {"a" was expected @ "", /propertyNames/oneOf/0/const;} {} {} of the name b]
names in branches | {"anyOf":[{"propertyNames":{"maxLength":1}},{"propertyNames":false}]} | {"ab":1,"c":2,"de":3} | {"ab":1,"c":2,"de":3} is not valid under any of the schemas listed in the 'anyOf' keyword @ "", /anyOf {"ab" is longer than 1 characters @ "", /anyOf/0/propertyNames/maxLength;"de" is longer than 1 characters @ "", /anyOf/0/propertyNames/maxLength;} {False schema does not allow {"ab":1,"c":2,"de":3} @ "", /anyOf/1/propertyNames;}
no name is allowed | {"propertyNames":false} | {"foo":1} | False schema does not allow {"foo":1} @ "", /propertyNames"##;

#[test]
fn dependencies_and_names(rt: HostRuntime) -> Result<(), Fail> {
    expect(&Found::Told, rt.alloc(), Table::Named(DEPENDENCIES))
}

// Rows as in `BRANCHES`, for patterns; the first ones after the examples of the standard's test
// suite, the last ones with several members and patterns, where the first error is that of the
// first member that is refused, and of the first pattern there.
const PATTERNS: &str =
    r##"a member that one pattern matches is accepted | {"patternProperties":{"a":{"type":"integer"},"aa":{"maximum":20}}} | {"a":21} | accepted
a member that both match is accepted | {"patternProperties":{"a":{"type":"integer"},"aa":{"maximum":20}}} | {"aaaa":18} | accepted
each is accepted by its own | {"patternProperties":{"a":{"type":"integer"},"aa":{"maximum":20}}} | {"a":21,"aaaa":18} | accepted
the first pattern refuses | {"patternProperties":{"a":{"type":"integer"},"aa":{"maximum":20}}} | {"a":"bar"} | "bar" is not of type "integer" @ "/a", /patternProperties/a/type
the second pattern refuses | {"patternProperties":{"a":{"type":"integer"},"aa":{"maximum":20}}} | {"aaaa":31} | 31 is greater than the maximum of 20 @ "/aaaa", /patternProperties/aa/maximum
a true schema | {"patternProperties":{"b":false,"f":true}} | {"foo":1} | accepted
a false schema | {"patternProperties":{"b":false,"f":true}} | {"bar":2} | False schema does not allow 2 @ "/bar", /patternProperties/b
a true and a false schema | {"patternProperties":{"b":false,"f":true}} | {"foobar":1} | False schema does not allow 1 @ "/foobar", /patternProperties/b
no member | {"patternProperties":{"b":false,"f":true}} | {} | accepted
a null | {"patternProperties":{"bar$":{"type":"null"}}} | {"foobar":null} | accepted
case matters | {"patternProperties":{"X_":{"type":"string"}}} | {"a_x_3":3} | accepted
a pattern is not anchored | {"patternProperties":{"X_":{"type":"string"}}} | {"a_X_3":3} | 3 is not of type "string" @ "/a_X_3", /patternProperties/X_/type
no object | {"patternProperties":{"f":{"type":"integer"}}} | ["foo"] | accepted
paths are escaped | {"patternProperties":{"^a/~":{"required":["b"]}}} | {"a/~c":{}} | "b" is a required property @ "/a~1~0c", /patternProperties/^a~1~0/required of {}
patterns in branches | {"anyOf":[{"patternProperties":{"a":false,"b":{"type":"null"}}},{"patternProperties":{"^a":{"minimum":2}}}]} | {"ab":1} | {"ab":1} is not valid under any of the schemas listed in the 'anyOf' keyword @ "", /anyOf {1 is not of type "null" @ "/ab", /anyOf/0/patternProperties/b/type;False schema does not allow 1 @ "/ab", /anyOf/0/patternProperties/a;} {1 is less than the minimum of 2 @ "/ab", /anyOf/1/patternProperties/^a/minimum;}
two patterns at one name | {"patternProperties":{"a":{"type":"integer"},"b$":{"minLength":3}}} | {"ab":"x","c":1} | "x" is not of type "integer" @ "/ab", /patternProperties/a/type | "x" is not of type "integer" @ "/ab", /patternProperties/a/type & "x" is shorter than 3 characters @ "/ab", /patternProperties/b$/minLength
two names, two patterns | {"patternProperties":{"a":{"type":"integer"},"aa":{"maximum":20}}} | {"aaa":"foo","aaaa":31} | "foo" is not of type "integer" @ "/aaa", /patternProperties/a/type | "foo" is not of type "integer" @ "/aaa", /patternProperties/a/type & 31 is greater than the maximum of 20 @ "/aaaa", /patternProperties/aa/maximum
the first name that is refused, and the first pattern there | {"patternProperties":{"^b":{"maximum":1},"x$":{"minimum":5}}} | {"ax":3,"b":2,"bx":4} | 3 is less than the minimum of 5 @ "/ax", /patternProperties/x$/minimum | 2 is greater than the maximum of 1 @ "/b", /patternProperties/^b/maximum & 3 is less than the minimum of 5 @ "/ax", /patternProperties/x$/minimum & 4 is greater than the maximum of 1 @ "/bx", /patternProperties/^b/maximum & 4 is less than the minimum of 5 @ "/bx", /patternProperties/x$/minimum
one pattern over two names | {"patternProperties":{"a":{"type":"integer"}}} | {"a":null,"ba":"t","c":"u"} | null is not of type "integer" @ "/a", /patternProperties/a/type | "t" is not of type "integer" @ "/ba", /patternProperties/a/type & null is not of type "integer" @ "/a", /patternProperties/a/type
beside declared and required names | {"patternProperties":{"^a":{"minimum":5}},"properties":{"a":{"type":"null"}},"required":["b","c"]} | {"a":1} | 1 is less than the minimum of 5 @ "/a", /patternProperties/^a/minimum | "b" is a required property @ "", /required of {"a":1} & "c" is a required property @ "", /required of {"a":1} & 1 is less than the minimum of 5 @ "/a", /patternProperties/^a/minimum & 1 is not of type "null" @ "/a", /properties/a/type"##;

#[test]
fn members_that_patterns_match(rt: HostRuntime) -> Result<(), Fail> {
    expect(&Found::Told, rt.alloc(), Table::Named(PATTERNS))
}

// Declared names that want long texts, two required ones, and a pattern that wants whole numbers.
const BESIDE_PATTERNS: &str =
    r##"14 declared names | {"patternProperties":{"^m":{"type":"integer"}},"required":["a","b"],"properties":{"m00":{"minLength":2},"m01":{"minLength":2},"m02":{"minLength":2},"m03":{"minLength":2},"m04":{"minLength":2},"m05":{"minLength":2},"m06":{"minLength":2},"m07":{"minLength":2},"m08":{"minLength":2},"m09":{"minLength":2},"m10":{"minLength":2},"m11":{"minLength":2},"m12":{"minLength":2},"m13":{"minLength":2}}} | {"m13":"x"} | "x" is not of type "integer" @ "/m13", /patternProperties/^m/type | "a" is a required property @ "", /required of {"m13":"x"} & "b" is a required property @ "", /required of {"m13":"x"} & "x" is not of type "integer" @ "/m13", /patternProperties/^m/type & "x" is shorter than 2 characters @ "/m13", /properties/m13/minLength
15 declared names | {"patternProperties":{"^m":{"type":"integer"}},"required":["a","b"],"properties":{"m00":{"minLength":2},"m01":{"minLength":2},"m02":{"minLength":2},"m03":{"minLength":2},"m04":{"minLength":2},"m05":{"minLength":2},"m06":{"minLength":2},"m07":{"minLength":2},"m08":{"minLength":2},"m09":{"minLength":2},"m10":{"minLength":2},"m11":{"minLength":2},"m12":{"minLength":2},"m13":{"minLength":2},"m14":{"minLength":2}}} | {"m13":"x"} | "x" is not of type "integer" @ "/m13", /patternProperties/^m/type | "a" is a required property @ "", /required of {"m13":"x"} & "b" is a required property @ "", /required of {"m13":"x"} & "x" is not of type "integer" @ "/m13", /patternProperties/^m/type & "x" is shorter than 2 characters @ "/m13", /properties/m13/minLength
16 declared names | {"patternProperties":{"^m":{"type":"integer"}},"required":["a","b"],"properties":{"m00":{"minLength":2},"m01":{"minLength":2},"m02":{"minLength":2},"m03":{"minLength":2},"m04":{"minLength":2},"m05":{"minLength":2},"m06":{"minLength":2},"m07":{"minLength":2},"m08":{"minLength":2},"m09":{"minLength":2},"m10":{"minLength":2},"m11":{"minLength":2},"m12":{"minLength":2},"m13":{"minLength":2},"m14":{"minLength":2},"m15":{"minLength":2}}} | {"m13":"x"} | "x" is not of type "integer" @ "/m13", /patternProperties/^m/type | "a" is a required property @ "", /required of {"m13":"x"} & "b" is a required property @ "", /required of {"m13":"x"} & "x" is not of type "integer" @ "/m13", /patternProperties/^m/type & "x" is shorter than 2 characters @ "/m13", /properties/m13/minLength"##;

#[test]
fn declared_names_beside_patterns(rt: HostRuntime) -> Result<(), Fail> {
    expect(&Found::Told, rt.alloc(), Table::Named(BESIDE_PATTERNS))
}

// A name, a schema, an instance, and the one error in the context of the one error of `anyOf`, with
// its context.
const IN_A_BRANCH: &str =
    r##"branches of a branch | {"anyOf":[{"anyOf":[{"type":"integer"},{"type":"array"}]}]} | "x" | "x" is not valid under any of the schemas listed in the 'anyOf' keyword @ "", /anyOf/0/anyOf {"x" is not of type "integer" @ "", /anyOf/0/anyOf/0/type;} {"x" is not of type "array" @ "", /anyOf/0/anyOf/1/type;}
no branch of oneOf accepts | {"anyOf":[{"oneOf":[{"type":"integer"},{"type":"array"}]}]} | "x" | "x" is not valid under any of the schemas listed in the 'oneOf' keyword @ "", /anyOf/0/oneOf {"x" is not of type "integer" @ "", /anyOf/0/oneOf/0/type;} {"x" is not of type "array" @ "", /anyOf/0/oneOf/1/type;}
two branches of oneOf accept | {"anyOf":[{"oneOf":[true,{"type":"array"},true]}]} | "x" | "x" is valid under more than one of the schemas listed in the 'oneOf' keyword @ "", /anyOf/0/oneOf {} {"x" is not of type "array" @ "", /anyOf/0/oneOf/1/type;} {}
a context in else | {"anyOf":[{"else":{"oneOf":[]},"if":false}]} | "x" | "x" is not valid under any of the schemas listed in the 'oneOf' keyword @ "", /anyOf/0/else/oneOf"##;

#[test]
fn contexts_in_a_context(rt: HostRuntime) -> Result<(), Fail> {
    expect(&Found::Inside, rt.alloc(), Table::Named(IN_A_BRANCH))
}

// A name, a schema, an instance, and its errors, and behind them those of each branch in their
// contexts: keyword by keyword in the order of the names, and so the members, the branches and the
// wanted names.
const IN_ORDER: &str =
    r##"keywords | {"type":"integer","required":["b","a"],"allOf":[{"type":"string"},false]} | {"c":1} |  {{"c":1} is not of type "string" @ "", /allOf/0/type;False schema does not allow {"c":1} @ "", /allOf/1;"b" is a required property @ "", /required;"a" is a required property @ "", /required;{"c":1} is not of type "integer" @ "", /type;}
members | {"properties":{"b":{"type":"string"},"a":{"type":"string","minimum":5}}} | {"b":1,"a":2} |  {2 is less than the minimum of 5 @ "/a", /properties/a/minimum;2 is not of type "string" @ "/a", /properties/a/type;1 is not of type "string" @ "/b", /properties/b/type;}
branches | {"anyOf":[{"required":["a","b"]},{"type":"string","minimum":5}]} | {} |  {{} is not valid under any of the schemas listed in the 'anyOf' keyword @ "", /anyOf;} {"a" is a required property @ "", /anyOf/0/required;"b" is a required property @ "", /anyOf/0/required;} {{} is not of type "string" @ "", /anyOf/1/type;}
one of the branches | {"oneOf":[{"type":"string","minimum":5},{"required":["a"],"type":"string"}]} | 1 |  {1 is not valid under any of the schemas listed in the 'oneOf' keyword @ "", /oneOf;} {1 is less than the minimum of 5 @ "", /oneOf/0/minimum;1 is not of type "string" @ "", /oneOf/0/type;} {1 is not of type "string" @ "", /oneOf/1/type;}"##;

#[test]
fn errors_in_the_order_of_the_walk(rt: HostRuntime) -> Result<(), Fail> {
    expect(&Found::InOrder, rt.alloc(), Table::Named(IN_ORDER))
}

// A schema, an instance, and what its errors are in a list that has them already: what was in the
// list stays in it.
const TWICE: &str = concat!(
    r#"{"allOf":[{"type":"string"},{"minimum":5}]} | 1 | "#,
    r#"1 is less than the minimum of 5 @ "", /allOf/1/minimum & 1 is less than the minimum of 5 @ "", /allOf/1/minimum"#,
    r#" & 1 is not of type "string" @ "", /allOf/0/type & 1 is not of type "string" @ "", /allOf/0/type"#
);

#[test]
fn errors_before_are_kept(rt: HostRuntime) -> Result<(), Fail> {
    expect(&Found::Twice, rt.alloc(), Table::Asked(TWICE))
}

// A name, a schema, an instance, and what an evaluation shows below its root.
const TREES: &str =
    r##"declared members | {"properties":{"a":{"type":"integer"},"b":{"type":"string"}},"required":["a","b"]} | {"a":1,"b":"x"} | /properties@ [a,b,] (/properties/a@/a (/properties/a/type@/a)) (/properties/b@/b (/properties/b/type@/b));
an empty list of a key stands at the keyword | {"dependentRequired":{"a":[]}} | {"a":1} | /dependentRequired@ (/dependentRequired@);
a list of a key, a name is missing | {"dependentRequired":{"a":["b"]}} | {"a":1} | /dependentRequired@! (/dependentRequired@! required: "b" is a required property);
a list of a key that is not there | {"dependentRequired":{"a":["b"]}} | {"c":1} | /dependentRequired@;
two lists in the order of keys, a third key is not there | {"dependentRequired":{"c":["a","y","x"],"b":["z"],"a":["c"]}} | {"a":1,"c":2} | /dependentRequired@! (/dependentRequired@) (/dependentRequired@! required: "y" is a required property required: "x" is a required property);
an empty list as a dependency | {"dependencies":{"a":[]}} | {"a":1} | /dependencies@ (/dependencies@);
a dependency that is false, its key is not there | {"dependencies":{"a":false}} | {} | /dependencies@;
a list between two schemas | {"dependencies":{"c":{"required":["z"]},"b":["y"],"a":{"required":["b"]}}} | {"c":1,"b":2,"a":3} | /dependencies@! (/dependencies/a@ (/dependencies/a/required@)) (/dependencies@! required: "y" is a required property) (/dependencies/c@! (/dependencies/c/required@! required: "z" is a required property));
a schema of a key, that of another key is not asked | {"dependentSchemas":{"a":{"properties":{"a":true}},"b":false}} | {"a":1} | /dependentSchemas@ (/dependentSchemas/a@ (/dependentSchemas/a/properties@ [a,] ..));
a name of an empty schema | {"propertyNames":{}} | {"a":1} | /propertyNames@ (/propertyNames@);
the empty name | {"propertyNames":{"minLength":1}} | {"":1} | /propertyNames@! (/propertyNames@! (/propertyNames/minLength@! minLength: "" is shorter than 1 characters));
not of a name | {"propertyNames":{"not":true}} | {"a":1} | /propertyNames@! (/propertyNames@! (/propertyNames/not@! not: true is not allowed for "a"));
each name in its order | {"propertyNames":{"maxLength":1}} | {"c":1,"ab":2} | /propertyNames@! (/propertyNames@! (/propertyNames/maxLength@! maxLength: "ab" is longer than 1 characters)) (/propertyNames@ (/propertyNames/maxLength@));
no name is allowed | {"propertyNames":false} | {"foo":1} | /propertyNames@! falseSchema: False schema does not allow {"foo":1};
no name is there | {"propertyNames":false} | {} | /propertyNames@;
each name is allowed | {"propertyNames":true,"required":["a"]} | {"a":1} | /required@;
two schemas that are chosen, in the order of names | {"propertyDependencies":{"l":{"b":{"required":["k"]}},"k":{"a":false,"b":true},"m":{"a":false}}} | {"k":"a","l":"b"} | /propertyDependencies@! (/propertyDependencies/k/a@! falseSchema: False schema does not allow {"k":"a","l":"b"}) (/propertyDependencies/l/b@ (/propertyDependencies/l/b/required@));
a text that chooses none | {"propertyDependencies":{"k":{"a":false}}} | {"k":"b"} | /propertyDependencies@;
no object | {"dependencies":{"a":["b"]},"dependentRequired":{"a":["b"]},"dependentSchemas":{"a":false},"propertyDependencies":{"a":{"a":false}},"propertyNames":{"type":"null"}} | "a" | /dependencies@;/dependentRequired@;/dependentSchemas@;/propertyDependencies@;/propertyNames@;
one pattern | {"patternProperties":{"a":{"type":"integer"}}} | {"ab":1,"c":"x"} | /patternProperties@ [ab,] (/patternProperties/a@/ab (/patternProperties/a/type@/ab));
two patterns, one name twice | {"patternProperties":{"a":{"type":"integer"},"b$":{"minimum":5}}} | {"ab":7,"b":6,"c":"x"} | /patternProperties@ [ab,ab,b,] (/patternProperties/a@/ab (/patternProperties/a/type@/ab)) (/patternProperties/b$@/ab (/patternProperties/b$/minimum@/ab)) (/patternProperties/b$@/b (/patternProperties/b$/minimum@/b));
two patterns, one refuses | {"patternProperties":{"a":{"type":"integer"},"b$":{"minimum":5}}} | {"ab":"x"} | /patternProperties@! (/patternProperties/a@/ab! (/patternProperties/a/type@/ab! type: "x" is not of type "integer")) (/patternProperties/b$@/ab (/patternProperties/b$/minimum@/ab));
one pattern over two names, one is refused | {"patternProperties":{"^a":{"type":"integer"}}} | {"a":1,"aa":null} | /patternProperties@! (/patternProperties/^a@/a (/patternProperties/^a/type@/a)) (/patternProperties/^a@/aa! (/patternProperties/^a/type@/aa! type: null is not of type "integer"));
a false schema at a pattern | {"patternProperties":{"^a/":false}} | {"a/~":1} | /patternProperties@! (/patternProperties/^a~1@/a~1~0! falseSchema: False schema does not allow 1);
no name is matched | {"patternProperties":{"a":false,"b":false}} | {"c":1} | /patternProperties@ [];
no name is matched by one pattern | {"patternProperties":{"a":false}} | {} | /patternProperties@ [];
no pattern | {"patternProperties":{}} | {"a":1} | /patternProperties@ [];
no object for patterns | {"allOf":[{"patternProperties":{"a":false}}],"patternProperties":{"a":false,"b":false}} | ["a"] | /allOf@ (/allOf/0@ (/allOf/0/patternProperties@));/patternProperties@;
declared and required names beside patterns | {"patternProperties":{"^a":true},"properties":{"a":true,"b":true},"required":["a","b"]} | {"a":1} | /patternProperties@ [a,] (/patternProperties/^a@/a);/properties@ [a,] (/properties/a@/a);/required@! required: "b" is a required property;"##;

#[test]
fn trees_of_evaluations(rt: HostRuntime) -> Result<(), Fail> {
    expect(&Found::Trees, rt.alloc(), Table::Named(TREES))
}

// A schema, an instance, and its first error. With a growth refused (`rt try --test --fail-alloc`),
// the second call gives the full answer, and a list is handed back whole; out of memory is told by
// the row's two values and the building alone, and by the text that is told at last.
const MANY_FAULTS: &str = concat!(
    r#"{"allOf":[{"required":["a","b"]},{"properties":{"c":{"type":"string"}}},"#,
    r#"{"patternProperties":{"c":{"minimum":7},"^c":false}},{"patternProperties":{"^d":{"type":"null"}}},"#,
    r#"{"additionalProperties":false,"patternProperties":{"c":{"minimum":7}},"properties":{"d":{"type":"string"}}},"#,
    r#"{"additionalProperties":false,"properties":{"c":{}},"required":["z"]},{"additionalProperties":{"type":"null"}}],"#,
    r#""anyOf":[{"required":["a"]},{"properties":{"c":false}}],"not":{"required":["c"]},"#,
    r#""dependencies":{"c":["e"],"d":{"required":["e"]}},"dependentRequired":{"c":["d","e"]},"#,
    r#""dependentSchemas":{"d":{"required":["e"]}},"propertyDependencies":{"k":{"t":{"required":["e"]}}},"#,
    r#""propertyNames":{"not":{"const":"k"}},"#,
    r#""properties":{"c":{"minimum":5},"d":{"type":"integer"}},"required":["a","b"]}"#,
    r#" | {"c":1,"d":2,"k":"t"} | "a" is a required property @ "", /allOf/0/required of {"c":1,"d":2,"k":"t"}"#
);

#[test]
fn full_answers_after_a_refused_growth(rt: HostRuntime) -> Result<(), Fail> {
    expect(&Found::AtLast, rt.alloc(), Table::Asked(MANY_FAULTS))
}
