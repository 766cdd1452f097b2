//! Paths, texts of errors, contexts and evaluation trees.
use crate::tables::{expect_rows, two};
use olk_base::{JsonType, Node};
use olk_reports::{
    AnnotationEntry, ErrorDescription, ErrorEntry, Evaluation, EvaluationNode, EvaluationResult,
    InstancePath, Location, PathText, Trail, ValidationError, ValidationErrorKind,
};
use serde_json::{Map, Value};
use std::alloc::{AllocError, Global};
use std::mem::replace;
use std::test::Fail;

// ---- paths

/// The path of a segment, which is left empty again.
fn pushed_path(alloc: Global, segment: &str) -> Result<String, Fail> {
    let mut path = InstancePath::new(alloc);
    let mark = path.push(segment)?;
    let pushed = String::from_str(alloc, path.as_str());
    path.pop(mark);
    let text = if path.as_str().is_empty() {
        pushed
    } else {
        String::from_str(alloc, "the path is not empty")
    };
    Ok(text?)
}

/// The location of a segment.
fn joined_path(alloc: Global, segment: &str) -> Result<String, Fail> {
    let joined = Location::new(alloc).join(alloc, segment)?;
    let copy = joined.try_clone(alloc)?;
    Ok(String::from_str(alloc, copy.as_str())?)
}

// A segment and its pointer, as in RFC 6901, section 5.
const SEGMENTS: &str = " | /
a/b | /a~1b
c%d | /c%d
e^f | /e^f
g|h | /g|h
k\"l | /k\"l
\u{20} | /\u{20}
m~n | /m~0n
~1/é | /~01~1é";

#[test]
fn paths_are_pointers(rt: HostRuntime) -> Result<(), Fail> {
    expect_rows(rt.alloc(), SEGMENTS, pushed_path)?;
    expect_rows(rt.alloc(), SEGMENTS, joined_path)
}

/// The path of a trail of one name.
fn trailed_path(alloc: Global, segment: &str) -> Result<String, Fail> {
    let root = Trail::At("");
    let text = Trail::Below(&root, segment).text(alloc)?;
    Ok(String::from_str(alloc, text.as_str())?)
}

// The longest text that is kept in place has 40 bytes.
const LONG_SEGMENTS: &str = "\
nnnnnnnnnnnnnnnnnnnnnnnnnnnnnnnnnnnnnnn | /nnnnnnnnnnnnnnnnnnnnnnnnnnnnnnnnnnnnnnn
nnnnnnnnnnnnnnnnnnnnnnnnnnnnnnnnnnnnnnnn | /nnnnnnnnnnnnnnnnnnnnnnnnnnnnnnnnnnnnnnnn
nnnnnnnnnnnnnnnnnnnnnnnnnnnnnnnnnnnnnnn~ | /nnnnnnnnnnnnnnnnnnnnnnnnnnnnnnnnnnnnnnn~0";

#[test]
fn trails_are_pointers(rt: HostRuntime) -> Result<(), Fail> {
    expect_rows(rt.alloc(), SEGMENTS, trailed_path)?;
    expect_rows(rt.alloc(), LONG_SEGMENTS, trailed_path)
}

/// The path of two segments.
fn path_of_two(alloc: Global, cells: &str) -> Result<String, Fail> {
    let (outer, inner) = two(cells);
    let mut path = InstancePath::new(alloc);
    let _outer = path.push(outer)?;
    let _inner = path.push(inner)?;
    Ok(String::from_str(alloc, path.as_str())?)
}

#[test]
fn paths_go_down(rt: HostRuntime) -> Result<(), Fail> {
    expect_rows(rt.alloc(), "a/b | 0 | /a~1b/0", path_of_two)
}

// ---- texts of errors

fn text_of<'a>(
    alloc: Global,
    kind: ValidationErrorKind<'a>,
    instance: Node<'a>,
) -> Result<String, AllocError> {
    let error = ValidationError::new(kind, instance, String::new(alloc), "");
    let text = error.message(alloc);
    drop(error);
    text
}

fn push<T: Drop>(items: &mut Vec<T>, item: T) -> Result<(), AllocError> {
    Ok(items.push(item)?)
}

fn names_in<'a>(alloc: Global, cells: &'a str) -> Result<Vec<&'a str>, AllocError> {
    let mut names = Vec::new(alloc);
    for name in cells.split(" ") {
        push(&mut names, name)?;
    }
    Ok(names)
}

/// The text of names that no schema allows.
fn unexpected(alloc: Global, cells: &str) -> Result<String, Fail> {
    let unexpected = names_in(alloc, cells)?;
    let kind = ValidationErrorKind::AdditionalProperties { unexpected };
    Ok(text_of(alloc, kind, Node::Value(&Value::Null))?)
}

#[test]
fn texts_of_unexpected_names(rt: HostRuntime) -> Result<(), Fail> {
    let rows = r#"z | Additional properties are not allowed ('z' was unexpected)
faz h"z | Additional properties are not allowed ('faz', 'h"z' were unexpected)
x y z | Additional properties are not allowed ('x', 'y', 'z' were unexpected)"#;
    expect_rows(rt.alloc(), rows, unexpected)
}

fn kind_of_building(word: &str) -> ValidationErrorKind<'_> {
    match word {
        "object" => ValidationErrorKind::SingleType {
            expected: JsonType::Object,
        },
        "array" => ValidationErrorKind::SingleType {
            expected: JsonType::Array,
        },
        "string" => ValidationErrorKind::SingleType {
            expected: JsonType::String,
        },
        "types" => ValidationErrorKind::MultipleTypes,
        "unique items" => ValidationErrorKind::UniqueItems,
        "unsupported" => ValidationErrorKind::Unsupported { keyword: "k" },
        "leaf refused" => ValidationErrorKind::LeafRefused { keyword: "k" },
        "required" => ValidationErrorKind::Required { property: "a\"b" },
        _ => ValidationErrorKind::FalseSchema,
    }
}

fn kind_of_validating<'a>(
    alloc: Global,
    word: &'a str,
    schema: &'a Value,
) -> ValidationErrorKind<'a> {
    match word {
        "anyOf" => ValidationErrorKind::AnyOf {
            context: Vec::new(alloc),
        },
        "oneOf, none" => ValidationErrorKind::OneOfNotValid {
            context: Vec::new(alloc),
        },
        "oneOf, several" => ValidationErrorKind::OneOfMultipleValid {
            context: Vec::new(alloc),
        },
        "not" => ValidationErrorKind::Not { schema },
        _ => kind_of_building(word),
    }
}

fn text_of_leaf(alloc: Global, instance: Node<'_>) -> Result<String, AllocError> {
    let text = String::from_str(alloc, "4 is less than the minimum of 5")?;
    let keyword = "minimum";
    text_of(alloc, ValidationErrorKind::Leaf { keyword, text }, instance)
}

/// The keyword and the text of an error, as an evaluation shows it, and the keyword of its kind.
fn described(alloc: Global, instance: Node<'_>) -> Result<String, AllocError> {
    let kind = ValidationErrorKind::Required { property: "a" };
    let error = ValidationError::new(kind, instance, String::new(alloc), "");
    let keyword = error.kind().keyword();
    let description = ErrorDescription::from_validation_error(alloc, &error)?;
    drop(error);
    format!(in alloc;
        "{} {} {keyword}",
        description.keyword(),
        description.message()
    )
}

/// The same, of the error that a result was marked with.
fn marked(alloc: Global, instance: Node<'_>) -> Result<String, AllocError> {
    let mut outcome = EvaluationResult::valid_empty(alloc);
    outcome.mark_errored_by(ValidationErrorKind::Required { property: "a" }, instance)?;
    let node = EvaluationNode::new("", String::new(alloc), outcome);
    match node.errors().first() {
        Some(error) => format!(in alloc; "{} {}", error.keyword(), error.message()),
        None => String::from_str(alloc, "no error"),
    }
}

fn text_of_kind(alloc: Global, word: &str, instance: Node<'_>) -> Result<String, AllocError> {
    match word {
        "leaf" => text_of_leaf(alloc, instance),
        "described" => described(alloc, instance),
        "marked" => marked(alloc, instance),
        _ => {
            let kind = kind_of_validating(alloc, word, &Value::Bool(true));
            text_of(alloc, kind, instance)
        }
    }
}

/// The text of an error, of its kind and the name that it is of.
fn kind(alloc: Global, cells: &str) -> Result<String, Fail> {
    let (word, name) = two(cells);
    let name = String::from_str(alloc, name)?;
    let text = text_of_kind(alloc, word, Node::Name(name.as_str()));
    drop(name);
    Ok(text?)
}

// The kind of an error, the name that it is of, and its text; once with keywords.
const KINDS: &str =
    r#"anyOf | k"l | "k\"l" is not valid under any of the schemas listed in the 'anyOf' keyword
oneOf, none | k"l | "k\"l" is not valid under any of the schemas listed in the 'oneOf' keyword
oneOf, several | k"l | "k\"l" is valid under more than one of the schemas listed in the 'oneOf' keyword
not | k"l | true is not allowed for "k\"l"
required | k"l | "a\"b" is a required property
false | k"l | False schema does not allow "k\"l"
leaf | k"l | 4 is less than the minimum of 5
described | k | required "a" is a required property required
marked | k | required "a" is a required property
object | k | "k" is not of type "object"
array | k | "k" is not of type "array"
string | k | "k" is not of type "string"
types | k | "k" is not of types "boolean", "object"
unique items | k | "k" has non-unique elements
unsupported | k | "k" is not supported here
leaf refused | k | "k" is not a value for "k""#;

#[test]
fn texts_of_kinds(rt: HostRuntime) -> Result<(), Fail> {
    expect_rows(rt.alloc(), KINDS, kind)
}

/// The text of an error, its places, and whether it is of an object.
fn shown(alloc: Global, error: &ValidationError<'_>) -> Result<String, AllocError> {
    let text = error.message(alloc)?;
    let is_object = error.instance().as_object().is_some();
    let places = (error.schema_path(), error.instance_path(), is_object);
    format!(in alloc; "{text} {places:?}")
}

/// The text, and so on, of an error that is let go.
fn shown_once(alloc: Global, error: ValidationError<'_>) -> Result<String, AllocError> {
    let text = shown(alloc, &error);
    drop(error);
    text
}

fn place_of_pattern(alloc: Global, pattern: &str) -> Result<Location, AllocError> {
    let place = Location::new(alloc).join(alloc, "patternProperties")?;
    place.join(alloc, pattern)
}

fn refused_pattern(alloc: Global, pattern: &String) -> Result<String, AllocError> {
    let place = place_of_pattern(alloc, pattern.as_str())?;
    let (kind, node) = (ValidationErrorKind::Regex, Node::Name(pattern.as_str()));
    shown_once(
        alloc,
        ValidationError::refusing(kind, node, String::new(alloc), place),
    )
}

fn boxed<T: Drop>(alloc: Global, value: T) -> Result<Box<T>, AllocError> {
    Ok(Box::new(alloc, value)?)
}

fn error_of_name<'a>(
    alloc: Global,
    name: &'a String,
) -> Result<Box<ValidationError<'a>>, AllocError> {
    let text = String::from_str(alloc, "\"f\" is shorter than 2 characters")?;
    let path = String::from_str(alloc, "/a")?;
    let keyword = "minLength";
    let kind = ValidationErrorKind::Leaf { keyword, text };
    let schema_path = "/anyOf/0/propertyNames/minLength";
    boxed(
        alloc,
        ValidationError::new(kind, Node::Name(name.as_str()), path, schema_path),
    )
}

fn vec_of_one<T: Drop>(alloc: Global, item: T) -> Result<Vec<T>, AllocError> {
    let mut items = Vec::new(alloc);
    push(&mut items, item)?;
    Ok(items)
}

/// A context of one branch, which finds this.
fn context_of_one<T: Drop>(alloc: Global, found: T) -> Result<Vec<Vec<T>>, AllocError> {
    let branch = vec_of_one(alloc, found)?;
    vec_of_one(alloc, branch)
}

/// An error with a context of one branch.
fn shown_of_branches<'a>(
    alloc: Global,
    found: ValidationError<'a>,
    object: Node<'a>,
) -> Result<String, AllocError> {
    let context = context_of_one(alloc, found)?;
    let path = String::from_str(alloc, "/a")?;
    let kind = ValidationErrorKind::AnyOf { context };
    let error = ValidationError::new(kind, object, path, "/anyOf");
    let is_expected =
        matches!(error.kind(), ValidationErrorKind::AnyOf { context } if context.len() == 1);
    let text = if is_expected {
        shown(alloc, &error)
    } else {
        String::from_str(alloc, "another context")
    };
    drop(error);
    text
}

/// The error of a name, told of the object, by itself or in a context.
fn shown_of_name(
    alloc: Global,
    word: &str,
    name: &String,
    object: Node<'_>,
) -> Result<String, AllocError> {
    let path = PathText::from_str(alloc, "/a")?;
    let error = ValidationError::wrapping_at(error_of_name(alloc, name)?, object, path);
    if word == "name" {
        shown_once(alloc, error)
    } else {
        shown_of_branches(alloc, error, object)
    }
}

/// An error, by what it is of and a name.
fn error(alloc: Global, cells: &str) -> Result<String, Fail> {
    let (word, name) = two(cells);
    let name = String::from_str(alloc, name)?;
    let object = Value::Object(Map::new(alloc));
    let text = if word == "pattern" {
        refused_pattern(alloc, &name)
    } else {
        shown_of_name(alloc, word, &name, Node::Value(&object))
    };
    drop(object);
    drop(name);
    Ok(text?)
}

// What an error is of, a name, the text, its place in the schema and in the instance, and whether
// it is told of an object.
const ERRORS: &str =
    r#"pattern | a/b~( | "a/b~(" is not a "regex" ("/patternProperties/a~1b~0(", "", false)
name | f | "f" is shorter than 2 characters ("/anyOf/0/propertyNames/minLength", "/a", true)
branches | f | {} is not valid under any of the schemas listed in the 'anyOf' keyword ("/anyOf", "/a", true)"#;

#[test]
fn errors_inside_errors(rt: HostRuntime) -> Result<(), Fail> {
    expect_rows(rt.alloc(), ERRORS, error)
}

// ---- evaluation trees

/// Whether the tree of this name has an error at the place.
fn has_error(tree: &str, place: &str) -> bool {
    match tree {
        "four errors" => true,
        "inner error" => place == "/allOf/0/x",
        "outer error" => place == "/allOf/0",
        _ => false,
    }
}

fn mark(alloc: Global, outcome: &mut EvaluationResult<'_>) -> Result<(), AllocError> {
    let message = String::from_str(alloc, "m")?;
    outcome.mark_errored(ErrorDescription::new("required", message))
}

/// Annotates the place, has the error of the tree there, and gives the path.
fn fill<'a>(
    alloc: Global,
    outcome: &mut EvaluationResult<'a>,
    tree: &str,
    place: &'a str,
) -> Result<String, AllocError> {
    outcome.annotate(Vec::new(alloc));
    outcome.annotate_also(place)?;
    if has_error(tree, place) {
        mark(alloc, outcome)?;
    }
    String::from_str(alloc, "/i")
}

/// Adds a node that annotates its place, with the error of the tree there.
fn push_node<'a>(
    alloc: Global,
    nodes: &mut Vec<EvaluationNode<'a>>,
    tree: &str,
    place: &'a str,
    children: Vec<EvaluationNode<'a>>,
) -> Result<(), AllocError> {
    let mut outcome = EvaluationResult::from_children(alloc, children);
    let path = fill(alloc, &mut outcome, tree, place)?;
    push(nodes, EvaluationNode::new(place, path, outcome))
}

/// Adds a node that annotates its place, with the error of the tree there, above the nodes and in
/// their place.
fn push_above<'a>(
    alloc: Global,
    nodes: &mut Vec<EvaluationNode<'a>>,
    tree: &str,
    place: &'a str,
) -> Result<(), AllocError> {
    let children = replace(nodes, Vec::new(alloc));
    push_node(alloc, nodes, tree, place, children)
}

/// A root of three levels, with the errors of the tree.
fn push_tree(
    alloc: Global,
    nodes: &mut Vec<EvaluationNode<'_>>,
    tree: &str,
) -> Result<(), AllocError> {
    push_above(alloc, nodes, tree, "/allOf/0/x")?;
    push_above(alloc, nodes, tree, "/allOf/0")?;
    push_node(alloc, nodes, tree, "/allOf/1", Vec::new(alloc))?;
    push_above(alloc, nodes, tree, "/allOf")
}

fn erring_place<'a>(entry: &ErrorEntry<'a>) -> &'a str {
    let error = entry.error;
    let is_as_made = error.keyword() == "required" && error.message() == "m";
    if entry.instance_location == "/i" && is_as_made {
        entry.schema_location
    } else {
        "another error"
    }
}

fn annotating_place<'a>(entry: &AnnotationEntry<'a>) -> &'a str {
    if entry.instance_location == "/i" && entry.annotations.len() == 1 {
        entry.schema_location
    } else {
        "another"
    }
}

fn push_place(places: &mut String, place: &str) -> Result<(), AllocError> {
    places.push_str(place)?;
    places.push_str(" ")
}

/// The places of the errors, in their order.
fn erring(alloc: Global, evaluation: &Evaluation<'_>) -> Result<String, AllocError> {
    let mut places = String::new(alloc);
    for entry in &evaluation.iter_errors(alloc)? {
        push_place(&mut places, erring_place(entry))?;
    }
    Ok(places)
}

/// The places of the annotations, in their order.
fn annotating(alloc: Global, evaluation: &Evaluation<'_>) -> Result<String, AllocError> {
    let mut places = String::new(alloc);
    for entry in &evaluation.iter_annotations(alloc)? {
        push_place(&mut places, annotating_place(entry))?;
    }
    Ok(places)
}

fn entries_of(alloc: Global, evaluation: &Evaluation<'_>) -> Result<String, AllocError> {
    let errors = erring(alloc, evaluation)?;
    let annotations = annotating(alloc, evaluation)?;
    format!(in alloc; "{}: {errors}: {annotations}.", evaluation.flag().valid)
}

fn entries_of_root(alloc: Global, root: EvaluationNode<'_>) -> Result<String, AllocError> {
    let evaluation = Evaluation::new(root);
    let text = entries_of(alloc, &evaluation);
    drop(evaluation);
    text
}

fn entries(alloc: Global, tree: &str) -> Result<String, AllocError> {
    let mut nodes = Vec::new(alloc);
    push_tree(alloc, &mut nodes, tree)?;
    match nodes.pop() {
        Some(root) => entries_of_root(alloc, root),
        None => String::from_str(alloc, "no root"),
    }
}

/// The parts of a tree's root, and how many errors the tree has.
fn parts_of(alloc: Global, evaluation: &Evaluation<'_>) -> Result<String, AllocError> {
    let errors = evaluation.iter_errors(alloc)?.len();
    let root = evaluation.root();
    let places = (root.valid(), root.schema_path(), root.instance_path());
    let parts = (
        root.annotation().is_some(),
        root.errors().len(),
        root.children().len(),
    );
    format!(in alloc; "{places:?} {parts:?} {errors}")
}

fn parts<'a>(
    alloc: Global,
    place: &'a str,
    outcome: EvaluationResult<'a>,
) -> Result<String, AllocError> {
    let root = EvaluationNode::new(place, String::new(alloc), outcome);
    let evaluation = Evaluation::new(root);
    let text = parts_of(alloc, &evaluation);
    drop(evaluation);
    text
}

fn above_one(alloc: Global) -> Result<String, AllocError> {
    let mut nodes = Vec::new(alloc);
    push_node(alloc, &mut nodes, "node", "/oneOf/0", Vec::new(alloc))?;
    parts(
        alloc,
        "/oneOf",
        EvaluationResult::from_children(alloc, nodes),
    )
}

/// A result below which an invalid node is put, and a valid one behind it.
fn above_two(alloc: Global) -> Result<String, AllocError> {
    let mut refused = EvaluationResult::valid_empty(alloc);
    refused.mark_invalid();
    let accepted = EvaluationResult::valid_empty(alloc);
    let mut outcome = EvaluationResult::valid_empty(alloc);
    outcome.reserve_children(2)?;
    outcome.add_child(EvaluationNode::new("/allOf/0", String::new(alloc), refused))?;
    outcome.add_child(EvaluationNode::new("/allOf/1", String::new(alloc), accepted))?;
    parts(alloc, "/allOf", outcome)
}

fn invalid(alloc: Global) -> Result<String, AllocError> {
    let mut outcome = EvaluationResult::valid_empty(alloc);
    outcome.mark_invalid();
    parts(alloc, "/oneOf", outcome)
}

/// An evaluation, by what it is of.
fn evaluation(alloc: Global, word: &str) -> Result<String, Fail> {
    let text = match word {
        "node" => above_one(alloc),
        "two nodes" => above_two(alloc),
        "invalid" => invalid(alloc),
        "empty" => parts(alloc, "", EvaluationResult::valid_empty(alloc)),
        _ => entries(alloc, word),
    };
    Ok(text?)
}

// Four trees of three levels: whether the root is valid, and the places that err and that annotate,
// parent first. Then four roots: whether it is valid, its places, whether it annotates, how many
// errors and children it has, and how many errors the tree has.
const EVALUATIONS: &str = r#"no error | true: : /allOf /allOf/0 /allOf/0/x /allOf/1 .
four errors | false: /allOf /allOf/0 /allOf/0/x /allOf/1 : .
inner error | false: /allOf/0/x : /allOf/1 .
outer error | false: /allOf/0 : /allOf/0/x /allOf/1 .
node | (true, "/oneOf", "") (false, 0, 1) 0
two nodes | (false, "/allOf", "") (false, 0, 2) 0
invalid | (false, "/oneOf", "") (false, 0, 0) 0
empty | (true, "", "") (false, 0, 0) 0"#;

#[test]
fn evaluations_show_their_parts(rt: HostRuntime) -> Result<(), Fail> {
    expect_rows(rt.alloc(), EVALUATIONS, evaluation)
}

// ---- out of memory

const LONG: &str =
    "a segment that is longer than any text that a first growth makes room for, ~ and / with it";

/// Whether the path is as it was, where there was no memory.
fn push_at_last(path: &mut InstancePath, segment: &str) -> Result<bool, AllocError> {
    if let Ok(mark) = path.push(segment) {
        path.pop(mark);
        return Ok(true);
    }
    if !path.as_str().is_empty() {
        return Ok(false);
    }
    let mark = path.push(segment)?;
    path.pop(mark);
    Ok(true)
}

fn pushed_at_last(alloc: Global) -> Result<String, AllocError> {
    let mut path = InstancePath::new(alloc);
    let is_as_it_was = push_at_last(&mut path, "a/b")? && push_at_last(&mut path, LONG)?;
    drop(path);
    let text = if is_as_it_was {
        "as it was"
    } else {
        "not as it was"
    };
    String::from_str(alloc, text)
}

fn join_at_last(alloc: Global) -> Result<String, AllocError> {
    let place = Location::new(alloc);
    let joined = place
        .join(alloc, "m~n")
        .or_else(|_| place.join(alloc, "m~n"));
    drop(place);
    String::from_str(alloc, joined?.as_str())
}

fn text_at_last(alloc: Global) -> Result<String, AllocError> {
    let kind = ValidationErrorKind::LeafRefused { keyword: "minimum" };
    let name = String::from_str(alloc, "x")?;
    let error = ValidationError::new(kind, Node::Name(name.as_str()), String::new(alloc), "");
    error.message(alloc).or_else(|_| error.message(alloc))
}

fn errored_at_last<'a>(alloc: Global) -> Result<EvaluationResult<'a>, AllocError> {
    let mut outcome = EvaluationResult::valid_empty(alloc);
    let description = ErrorDescription::new("required", String::new(alloc));
    if outcome.mark_errored(description).is_err() {
        let again = ErrorDescription::new("required", String::new(alloc));
        outcome.mark_errored(again)?;
    }
    Ok(outcome)
}

fn entries_at_last(alloc: Global, evaluation: &Evaluation<'_>) -> Result<usize, AllocError> {
    let errors = evaluation
        .iter_errors(alloc)
        .or_else(|_| evaluation.iter_errors(alloc))?;
    Ok(errors.len())
}

fn count_at_last(alloc: Global) -> Result<String, AllocError> {
    let outcome = errored_at_last(alloc)?;
    let root = EvaluationNode::new("", String::new(alloc), outcome);
    let evaluation = Evaluation::new(root);
    let count = entries_at_last(alloc, &evaluation);
    drop(evaluation);
    format!(in alloc; "{}", count?)
}

fn at_last(alloc: Global, word: &str) -> Result<String, Fail> {
    let text = match word {
        "path" => pushed_at_last(alloc),
        "location" => join_at_last(alloc),
        "text" => text_at_last(alloc),
        _ => count_at_last(alloc),
    };
    Ok(text?)
}

// A path, a location, the text of an error, and how many errors an evaluation has.
const AT_LAST: &str = r#"path | as it was
location | /m~0n
text | "x" is not a value for "minimum"
errors | 1"#;

/// With one growth refused, whichever it is, each value is as before, and the same call then gives
/// its full answer.
#[test]
fn a_refused_growth_changes_nothing(rt: HostRuntime) -> Result<(), Fail> {
    expect_rows(rt.alloc(), AT_LAST, at_last)
}
