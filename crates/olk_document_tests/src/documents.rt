//! Places with one keyword, over places that accept everything or nothing.
use olk_base::{Leaf, Node, RegexEngine, ValidationContext};
use olk_base_tests::doubles::{EqualTo, NoText};
use olk_base_tests::tables::{expect_rows, three};
use olk_check::IsValid;
use olk_documents::{
    Bounds, Contains, DocumentKeyword, DocumentNode, Items, PrefixItems, Reference,
};
use olk_errors::Errors;
use olk_evaluate::Evaluate;
use olk_reports::{EvaluationNode, InstancePath, Location, ValidateError};
use olk_tree::node::Body;
use serde_json::Value;
use std::alloc::{AllocError, Global};
use std::rc::Rc;
use std::test::Fail;

type Place = DocumentNode<NoText, EqualTo>;

/// Accepts everything where the word is `true`, and nothing else.
fn truth(alloc: Global, location: Location, word: &str) -> Place {
    let body = if word == "true" {
        Body::True
    } else {
        Body::False
    };
    DocumentNode {
        location,
        body,
        more: Vec::new(alloc),
    }
}

/// A whole schema that has the keyword alone.
fn place(alloc: Global, keyword: DocumentKeyword<Place>) -> Result<Place, AllocError> {
    let mut more = Vec::new(alloc);
    more.push(keyword)?;
    Ok(DocumentNode {
        location: Location::new(alloc),
        body: Body::True,
        more,
    })
}

fn at_keyword(alloc: Global, keyword: &str) -> Result<Location, AllocError> {
    Location::new(alloc).join(alloc, keyword)
}

fn push_truth(nodes: &mut Vec<Place>, alloc: Global, word: &str) -> Result<(), AllocError> {
    let position = nodes.len();
    let segment = format!(in alloc; "{position}")?;
    let location = at_keyword(alloc, "prefixItems")?.join(alloc, segment.as_str())?;
    Ok(nodes.push(truth(alloc, location, word))?)
}

fn prefix_items(alloc: Global, words: &str) -> Result<Place, AllocError> {
    let mut schemas = Vec::new(alloc);
    for word in words.split_terminator(" ") {
        push_truth(&mut schemas, alloc, word)?;
    }
    let location = at_keyword(alloc, "prefixItems")?;
    place(
        alloc,
        DocumentKeyword::PrefixItems(PrefixItems { schemas, location }),
    )
}

fn items(alloc: Global, word: &str, skip: usize) -> Result<Place, AllocError> {
    let items = Items {
        node: truth(alloc, at_keyword(alloc, "items")?, word),
        skip,
        location: at_keyword(alloc, "items")?,
    };
    place(alloc, DocumentKeyword::Items(items))
}

fn contains(alloc: Global, word: &str, bounds: Bounds) -> Result<Place, AllocError> {
    let contains = Contains {
        node: truth(alloc, at_keyword(alloc, "contains")?, word),
        bounds,
        location: at_keyword(alloc, "contains")?,
    };
    place(alloc, DocumentKeyword::Contains(contains))
}

/// Refers to the place `/$defs/a`.
fn reference(alloc: Global, word: &str) -> Result<Place, AllocError> {
    let named = at_keyword(alloc, "$defs")?.join(alloc, "a")?;
    let target = Rc::new(alloc, truth(alloc, named, word))?;
    let location = at_keyword(alloc, "$ref")?;
    place(
        alloc,
        DocumentKeyword::Reference(Reference { target, location }),
    )
}

const ONE_OR_MORE: Bounds = Bounds {
    least: 1,
    most: None,
};

const TWO_OR_THREE: Bounds = Bounds {
    least: 2,
    most: Some(3),
};

/// The place with the keyword of this form, of these words.
fn made(alloc: Global, form: &str, words: &str) -> Result<Place, AllocError> {
    match form {
        "prefixItems" => prefix_items(alloc, words),
        "items" => items(alloc, words, 0),
        "items behind three" => items(alloc, words, 3),
        "contains" => contains(alloc, words, ONE_OR_MORE),
        "contains two or three" => contains(alloc, words, TWO_OR_THREE),
        "$ref" => reference(alloc, words),
        _ => Ok(truth(alloc, Location::new(alloc), words)),
    }
}

// ---- the verdict, and what is wrong

fn word(verdict: bool) -> &'static str {
    if verdict { "true" } else { "false" }
}

/// Whether `validate` finds nothing.
fn passes<K: Leaf, R: RegexEngine>(
    alloc: Global,
    place: &DocumentNode<K, R>,
    node: Node<'_>,
) -> Result<bool, AllocError> {
    let mut ctx = ValidationContext::new(false);
    let mut path = InstancePath::new(alloc);
    match place.validate(alloc, node, &mut path, &mut ctx) {
        Ok(()) => Ok(true),
        Err(ValidateError::Invalid(_error)) => Ok(false),
        Err(ValidateError::Memory(error)) => Err(error),
    }
}

/// The verdict, where `validate` has another one both, and of each error where the value and the
/// schema stand.
pub(crate) fn told<K: Leaf, R: RegexEngine>(
    alloc: Global,
    place: &DocumentNode<K, R>,
    node: Node<'_>,
) -> Result<String, AllocError> {
    let mut ctx = ValidationContext::new(false);
    let accepted = place.is_valid(node, &mut ctx);
    let mut text = String::from_str(alloc, word(accepted))?;
    if passes(alloc, place, node)? != accepted {
        text.push_str(", or not")?;
    }
    let mut path = InstancePath::new(alloc);
    let mut errors = Vec::new(alloc);
    place.collect_errors(alloc, node, &mut path, &mut ctx, &mut errors)?;
    for error in &errors {
        text.push_str(" #")?;
        text.push_str(error.instance_path())?;
        text.push_str(" by #")?;
        text.push_str(error.schema_path())?;
    }
    Ok(text)
}

// ---- what is shown

fn push_shown(text: &mut String, shown: &EvaluationNode<'_>) -> Result<(), AllocError> {
    text.push_str(" #")?;
    text.push_str(shown.instance_path())?;
    text.push_str(" by #")?;
    text.push_str(shown.schema_path())?;
    text.push_str(if shown.valid() { "" } else { " invalid" })?;
    for error in shown.errors() {
        text.push_str(": ")?;
        text.push_str(error.message())?;
    }
    Ok(())
}

fn push_children(text: &mut String, shown: &EvaluationNode<'_>) -> Result<(), AllocError> {
    for child in shown.children() {
        push_shown(text, child)?;
    }
    Ok(())
}

/// Whether what is shown is valid, and then the keyword and each node below it.
fn text_of_shown(alloc: Global, shown: &EvaluationNode<'_>) -> Result<String, AllocError> {
    let mut text = String::from_str(alloc, word(shown.valid()))?;
    for keyword in shown.children() {
        push_shown(&mut text, keyword)?;
        push_children(&mut text, keyword)?;
    }
    Ok(text)
}

fn shown(alloc: Global, place: &Place, node: Node<'_>) -> Result<String, AllocError> {
    let mut ctx = ValidationContext::new(false);
    let mut path = InstancePath::new(alloc);
    let result = place.evaluate(alloc, node, &mut path, &mut ctx)?;
    text_of_shown(alloc, &EvaluationNode::new("", String::new(alloc), result))
}

// ---- rows

#[derive(Clone, Copy)]
enum Way {
    Told,
    Shown,
}

fn answered(
    alloc: Global,
    way: Way,
    form: &str,
    words: &str,
    value: &Value,
) -> Result<String, AllocError> {
    let place = made(alloc, form, words)?;
    let node = Node::Value(value);
    let line = match way {
        Way::Told => told(alloc, &place, node),
        Way::Shown => shown(alloc, &place, node),
    };
    drop(place);
    line
}

fn answered_of_json(
    alloc: Global,
    way: Way,
    form: &str,
    words: &str,
    json: &str,
) -> Result<String, Fail> {
    let value = Value::from_str(alloc, json)?;
    let line = answered(alloc, way, form, words, &value);
    drop(value);
    Ok(line?)
}

fn answer_told(alloc: Global, row: &str) -> Result<String, Fail> {
    match three(row) {
        Some((form, words, json)) => answered_of_json(alloc, Way::Told, form, words, json),
        None => Err(Fail::new(row)),
    }
}

fn answer_shown(alloc: Global, row: &str) -> Result<String, Fail> {
    match three(row) {
        Some((form, words, json)) => answered_of_json(alloc, Way::Shown, form, words, json),
        None => Err(Fail::new(row)),
    }
}

// Values and verdicts as JSON Schema's own test suite has them for draft 7, where a list of schemas
// is `items`; and places as Python's `jsonschema` tells them, with `{"not":{}}` for false.
const ITEMS: &str = r#"items | true | [1,"foo",true] | true
items | true | [] | true
items | false | [1,"foo",true] | false #/0 by #/items #/1 by #/items #/2 by #/items
items | false | [] | true
items | false | {"foo":"bar"} | true
items | false | {"0":"invalid","length":1} | true
items | false | [0,1,2,3,4,5,6,7,8,9,10] | false #/0 by #/items #/1 by #/items #/2 by #/items #/3 by #/items #/4 by #/items #/5 by #/items #/6 by #/items #/7 by #/items #/8 by #/items #/9 by #/items #/10 by #/items
prefixItems | true false | [1] | true
prefixItems | true false | [1,"foo"] | false #/1 by #/prefixItems/1
prefixItems | true false | [1,"foo",true] | false #/1 by #/prefixItems/1
prefixItems | true false | [] | true
prefixItems | false false | {"0":"invalid","1":"valid","length":2} | true
items behind three | false | [1,2] | true
items behind three | false | [1,2,3] | true
items behind three | false | [1,2,3,4] | false #/3 by #/items"#;

#[test]
fn items_and_prefixes(rt: HostRuntime) -> Result<(), Fail> {
    expect_rows(rt.alloc(), ITEMS, answer_told)
}

// What refuses stands at `contains` for either bound.
const CONTAINED: &str = r#"contains | true | ["foo"] | true
contains | true | [] | false # by #/contains
contains | false | ["foo"] | false # by #/contains
contains | true | {} | true
contains | false | {} | true
contains | false | "contains does not apply to strings" | true
contains two or three | true | [1] | false # by #/contains
contains two or three | true | [1,1] | true
contains two or three | true | [1,1,1] | true
contains two or three | true | [1,1,1,1] | false # by #/contains"#;

#[test]
fn contained(rt: HostRuntime) -> Result<(), Fail> {
    expect_rows(rt.alloc(), CONTAINED, answer_told)
}

// What is wrong stands at the place that is referred to.
const REFERENCES: &str = r#"$ref | true | "foo" | true
$ref | false | "foo" | false # by #/$defs/a
$ref | false | {"foo":"bar"} | false # by #/$defs/a"#;

#[test]
fn references(rt: HostRuntime) -> Result<(), Fail> {
    expect_rows(rt.alloc(), REFERENCES, answer_told)
}

// The keyword, and each item under it, with its validity (JSON Schema 2020-12 Core, 12.4).
const SHOWN: &str = r#"items | true | [1,2] | true # by #/items #/0 by #/items #/1 by #/items
items | false | [1] | false # by #/items invalid #/0 by #/items invalid: False schema does not allow 1
items | false | {"0":1} | true # by #/items
items behind three | false | [1,2,3] | true # by #/items
items behind three | true | [1,2,3,4] | true # by #/items #/3 by #/items
prefixItems | true false | [1] | true # by #/prefixItems #/0 by #/prefixItems/0
prefixItems | true false | [1,2,3] | false # by #/prefixItems invalid #/0 by #/prefixItems/0 #/1 by #/prefixItems/1 invalid: False schema does not allow 2
contains | true | [1] | true # by #/contains
contains | true | [] | false # by #/contains invalid: None of [] are valid under the given schema
contains two or three | true | [1] | false # by #/contains invalid: None of [1] are valid under the given schema
contains | false | 1 | true # by #/contains
$ref | true | 1 | true # by #/$ref # by #/$defs/a
$ref | false | 1 | false # by #/$ref invalid # by #/$defs/a invalid: False schema does not allow 1"#;

#[test]
fn shown_below(rt: HostRuntime) -> Result<(), Fail> {
    expect_rows(rt.alloc(), SHOWN, answer_shown)
}
