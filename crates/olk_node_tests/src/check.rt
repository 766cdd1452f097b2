//! Validators that are built by hand, over a leaf that refuses texts.
use crate::objects::{add_names, add_text, beside, both, sorted_names};
use object_logic::SchemaNode;
use olk_base::{
    CompiledPattern, MakeRegex, Meter, Node, RegexEngine, ValidationContext, compile_pattern,
};
use olk_base_tests::doubles::{EqualTo, Equality, NoText};
use olk_base_tests::tables::{expect_rows, three};
use olk_check::{IsValid, matches};
use olk_reports::Location;
use olk_tree::all_of::{AllOf, SingleValueAllOf};
use olk_tree::any_of::{AnyOf, SingleAnyOf};
use olk_tree::big_map::BigMap;
use olk_tree::built_node::BuiltNode;
use olk_tree::map::SmallMap;
use olk_tree::names::SortedNames;
use olk_tree::node::{Body, KeywordOver};
use olk_tree::not::Not;
use olk_tree::properties::{BigProperties, SmallProperties, SmallPropertiesWithRequired2};
use olk_tree::required::RequiredValidator;
use serde_json::{Map, Value};
use std::alloc::{AllocError, Global};
use std::test::Fail;

// ---- places

type PlainNode = SchemaNode<NoText, EqualTo>;

/// Whether a value is accepted.
trait Accepts {
    fn accepts(&self, value: &Value) -> bool;
}

impl Accepts for PlainNode {
    fn accepts(&self, value: &Value) -> bool {
        let mut ctx = ValidationContext::new(false);
        self.is_valid(Node::Value(value), &mut ctx)
    }
}

/// Accepts everything where the word is `true`, and nothing else.
fn truth<N: BuiltNode<NoText, EqualTo>>(alloc: Global, word: &str) -> N {
    let body = if word == "true" {
        Body::True
    } else {
        Body::False
    };
    N::new(alloc, Location::new(alloc), body)
}

fn keyword<N: BuiltNode<NoText, EqualTo>>(
    alloc: Global,
    keyword: KeywordOver<NoText, EqualTo, N>,
) -> Result<N, AllocError> {
    let mut keywords = Vec::new(alloc);
    keywords.push(keyword)?;
    Ok(N::new(alloc, Location::new(alloc), Body::Keywords(keywords)))
}

fn no_text<N: BuiltNode<NoText, EqualTo>>(alloc: Global) -> Result<N, AllocError> {
    keyword(alloc, KeywordOver::Leaf(Location::new(alloc), NoText))
}

fn push_truth<N: BuiltNode<NoText, EqualTo>>(
    nodes: &mut Vec<N>,
    alloc: Global,
    word: &str,
) -> Result<(), AllocError> {
    Ok(nodes.push(truth(alloc, word))?)
}

fn branches<N: BuiltNode<NoText, EqualTo>>(
    alloc: Global,
    words: &str,
) -> Result<Vec<N>, AllocError> {
    let mut nodes = Vec::new(alloc);
    for word in words.split_terminator(" ") {
        push_truth(&mut nodes, alloc, word)?;
    }
    Ok(nodes)
}

fn all_of<N: BuiltNode<NoText, EqualTo>>(alloc: Global, words: &str) -> Result<N, AllocError> {
    let schemas = branches(alloc, words)?;
    let location = Location::new(alloc);
    keyword(alloc, KeywordOver::AllOf(AllOf { schemas, location }))
}

fn any_of<N: BuiltNode<NoText, EqualTo>>(alloc: Global, words: &str) -> Result<N, AllocError> {
    let schemas = branches(alloc, words)?;
    let location = Location::new(alloc);
    keyword(alloc, KeywordOver::AnyOf(AnyOf { schemas, location }))
}

fn all_of_one<N: BuiltNode<NoText, EqualTo>>(alloc: Global, word: &str) -> Result<N, AllocError> {
    let node = truth(alloc, word);
    let location = Location::new(alloc);
    keyword(
        alloc,
        KeywordOver::SingleValueAllOf(SingleValueAllOf { node, location }),
    )
}

fn any_of_one<N: BuiltNode<NoText, EqualTo>>(alloc: Global, word: &str) -> Result<N, AllocError> {
    let node = truth(alloc, word);
    let location = Location::new(alloc);
    keyword(
        alloc,
        KeywordOver::SingleAnyOf(SingleAnyOf { node, location }),
    )
}

fn not<N: BuiltNode<NoText, EqualTo>>(alloc: Global, word: &str) -> Result<N, AllocError> {
    let node = truth(alloc, word);
    let location = Location::new(alloc);
    let original = Value::Bool(word == "true");
    keyword(
        alloc,
        KeywordOver::Not(Not {
            original,
            node,
            location,
        }),
    )
}

fn push_text(texts: &mut Vec<String>, alloc: Global, text: &str) -> Result<(), AllocError> {
    Ok(texts.push(String::from_str(alloc, text)?)?)
}

fn texts(alloc: Global, words: &str) -> Result<Vec<String>, AllocError> {
    let mut texts = Vec::new(alloc);
    for word in words.split_terminator(" ") {
        push_text(&mut texts, alloc, word)?;
    }
    Ok(texts)
}

fn required<N: BuiltNode<NoText, EqualTo>>(alloc: Global, words: &str) -> Result<N, AllocError> {
    let required = texts(alloc, words)?;
    let location = Location::new(alloc);
    keyword(
        alloc,
        KeywordOver::Required(RequiredValidator { required, location }),
    )
}

// ---- declared names

// A name with its number is declared where this is below how many are.
const NUMBERED: &str =
    "m00 m01 m02 m03 m04 m05 m06 m07 m08 m09 m10 m11 m12 m13 m14 m15 m16 m17 m18 m19";

fn push_leaf<N: BuiltNode<NoText, EqualTo>>(
    nodes: &mut Vec<N>,
    alloc: Global,
) -> Result<(), AllocError> {
    Ok(nodes.push(no_text(alloc)?)?)
}

fn leaf_nodes<N: BuiltNode<NoText, EqualTo>>(
    alloc: Global,
    count: usize,
) -> Result<Vec<N>, AllocError> {
    let mut nodes = Vec::new(alloc);
    for _ in 0..count {
        push_leaf(&mut nodes, alloc)?;
    }
    Ok(nodes)
}

/// So many names, each with the leaf.
fn leaf_names<N: BuiltNode<NoText, EqualTo>>(
    alloc: Global,
    names: &str,
    count: usize,
) -> Result<SmallMap<N>, AllocError> {
    beside(sorted_names(alloc, names, count), leaf_nodes(alloc, count))
}

/// `properties` with a map of few names, or with one of many that has the same.
fn properties_of<N: Drop>(
    properties: SmallMap<N>,
    location: Location,
    many: bool,
) -> KeywordOver<NoText, EqualTo, N> {
    if many {
        let SmallMap { names, nodes } = properties;
        let properties = BigMap { names, nodes };
        KeywordOver::BigProperties(BigProperties {
            properties,
            location,
        })
    } else {
        KeywordOver::SmallProperties(SmallProperties {
            properties,
            location,
        })
    }
}

/// `properties` of these names.
fn declared<N: BuiltNode<NoText, EqualTo>>(
    alloc: Global,
    count: usize,
    many: bool,
) -> Result<N, AllocError> {
    let properties = leaf_names(alloc, NUMBERED, count)?;
    let location = Location::new(alloc);
    keyword(alloc, properties_of(properties, location, many))
}

fn two_names(alloc: Global) -> Result<(String, String), AllocError> {
    both(String::from_str(alloc, "c"), String::from_str(alloc, "b"))
}

/// `properties` of the name `a`, and the required names `c` and `b`.
fn beside_required<N: BuiltNode<NoText, EqualTo>>(alloc: Global) -> Result<N, AllocError> {
    let ((first, second), properties) = both(two_names(alloc), leaf_names(alloc, "a", 1))?;
    let both = SmallPropertiesWithRequired2 {
        properties,
        first,
        second,
        location: Location::new(alloc),
        required_location: Location::new(alloc),
    };
    keyword(
        alloc,
        KeywordOver::PropertiesWithRequired2(Box::new(alloc, both)?),
    )
}

// ---- what a validator accepts

/// The validator of this form, of these words.
fn validator<N: BuiltNode<NoText, EqualTo>>(
    alloc: Global,
    form: &str,
    words: &str,
) -> Result<N, AllocError> {
    match form {
        "allOf" => all_of(alloc, words),
        "anyOf" => any_of(alloc, words),
        "single allOf" => all_of_one(alloc, words),
        "single anyOf" => any_of_one(alloc, words),
        "not" => not(alloc, words),
        "required" => required(alloc, words),
        "properties with required" => beside_required(alloc),
        "few properties" => declared(alloc, 2, false),
        "many properties" => declared(alloc, 2, true),
        _ => Ok(truth(alloc, words)),
    }
}

/// Whether a validator accepts a value. A node is dropped by name, so that none ends with its
/// scope.
fn accepts_line<N: BuiltNode<NoText, EqualTo> + Accepts>(
    alloc: Global,
    form: &str,
    words: &str,
    value: &Value,
) -> Result<String, AllocError> {
    let place: N = validator(alloc, form, words)?;
    let accepted = place.accepts(value);
    drop(place);
    String::from_str(alloc, if accepted { "true" } else { "false" })
}

fn accepts_json<N: BuiltNode<NoText, EqualTo> + Accepts>(
    alloc: Global,
    form: &str,
    words: &str,
    json: &str,
) -> Result<String, Fail> {
    let value = Value::from_str(alloc, json)?;
    let line = accepts_line::<N>(alloc, form, words, &value);
    drop(value);
    Ok(line?)
}

/// Whether the validator of a form, of some words, accepts a value.
fn accepted(alloc: Global, row: &str) -> Result<String, Fail> {
    match three(row) {
        Some((form, words, json)) => accepts_json::<PlainNode>(alloc, form, words, json),
        None => Err(Fail::new(row)),
    }
}

const BRANCHES: &str = "\
allOf |  | null | true
anyOf |  | null | false
allOf | true | null | true
anyOf | true | null | true
allOf | false | null | false
anyOf | false | null | false
allOf | true true | null | true
anyOf | true true | null | true
allOf | true false | null | false
anyOf | true false | null | true
allOf | false true | null | false
anyOf | false true | null | true
allOf | false false | null | false
anyOf | false false | null | false";

#[test]
fn branches_of_logic(rt: HostRuntime) -> Result<(), Fail> {
    expect_rows(rt.alloc(), BRANCHES, accepted)
}

const ONE_BRANCH: &str = "\
alone | true | null | true
single allOf | true | null | true
single anyOf | true | null | true
not | true | null | false
alone | false | null | false
single allOf | false | null | false
single anyOf | false | null | false
not | false | null | true";

#[test]
fn one_branch(rt: HostRuntime) -> Result<(), Fail> {
    expect_rows(rt.alloc(), ONE_BRANCH, accepted)
}

const REQUIRED: &str = r#"required |  | {} | true
required | a | {} | false
required | a | {"a":1} | true
required | a | {"b":1} | false
required | b a | {"a":1,"b":1,"c":1} | true
required | b a | {"a":1,"c":1} | false
required | b a | {"b":1,"c":1} | false
required | a | ["a"] | true"#;

#[test]
fn required_names(rt: HostRuntime) -> Result<(), Fail> {
    expect_rows(rt.alloc(), REQUIRED, accepted)
}

const BESIDE_REQUIRED: &str = r#"properties with required |  | {"b":"x","c":1} | true
properties with required |  | {"a":1,"b":"x","c":1} | true
properties with required |  | {"a":"x","b":"x","c":1} | false
properties with required |  | {"a":1,"b":"x"} | false
properties with required |  | {"a":1,"c":"x"} | false
properties with required |  | {} | false
properties with required |  | [] | true"#;

#[test]
fn required_names_beside_declared_ones(rt: HostRuntime) -> Result<(), Fail> {
    expect_rows(rt.alloc(), BESIDE_REQUIRED, accepted)
}

const NO_OBJECT: &str = "\
few properties |  | null | true
many properties |  | null | true";

#[test]
fn declared_names_beside_no_object(rt: HostRuntime) -> Result<(), Fail> {
    expect_rows(rt.alloc(), NO_OBJECT, accepted)
}

// ---- what is asked of a leaf, and of a pattern

/// Whether the text, a name and null are accepted, and how many engines are asked.
fn leaf_answers<N: IsValid>(node: &N, text: &Value, name: &String) -> (bool, bool, bool, u64) {
    let mut ctx = ValidationContext::new(true);
    let is_text = node.is_valid(Node::Value(text), &mut ctx);
    let is_name = node.is_valid(Node::Name(name.as_str()), &mut ctx);
    let is_null = node.is_valid(Node::Value(&Value::Null), &mut ctx);
    (is_text, is_name, is_null, ctx.meter().asked())
}

fn leaf_line<N: BuiltNode<NoText, EqualTo> + IsValid>(
    alloc: Global,
    text: &Value,
    name: &String,
) -> Result<String, AllocError> {
    let node: N = no_text(alloc)?;
    let (is_text, is_name, is_null, asked) = leaf_answers(&node, text, name);
    drop(node);
    format!(in alloc; "{is_text} {is_name} {is_null} {asked}")
}

/// Whether the leaf accepts a text, it as a name, and null, and how many engines are asked.
fn asked_of_leaf(alloc: Global, name: &str) -> Result<String, Fail> {
    let (text, name) = both(String::from_str(alloc, name), String::from_str(alloc, name))?;
    let text = Value::String(text);
    let line = leaf_line::<PlainNode>(alloc, &text, &name);
    drop(name);
    drop(text);
    Ok(line?)
}

#[test]
fn leaves(rt: HostRuntime) -> Result<(), Fail> {
    expect_rows(rt.alloc(), "a | false false true 0", asked_of_leaf)
}

fn pattern_line<R: RegexEngine>(
    alloc: Global,
    pattern: &CompiledPattern<R>,
    name: &str,
    answer: bool,
) -> Result<String, AllocError> {
    let mut ctx = ValidationContext::new(answer);
    let found = matches(pattern, name, &mut ctx);
    let (asked, unfinished) = (ctx.meter().asked(), ctx.meter().unfinished());
    format!(in alloc; "{found} {asked} {unfinished}")
}

fn match_line<M: MakeRegex>(
    alloc: Global,
    regexes: &M,
    pattern: &str,
    name: &str,
    answer: bool,
) -> Result<String, Fail> {
    let Ok(pattern) = compile_pattern(alloc, regexes, pattern, &mut Meter::new()) else {
        return Err(Fail::new("not built"));
    };
    let line = pattern_line(alloc, &pattern, name, answer);
    drop(pattern);
    Ok(line?)
}

/// Whether the pattern matches the name under the answer, with how many engines are asked and how
/// many matches are left unfinished.
fn matched(alloc: Global, row: &str) -> Result<String, Fail> {
    match three(row) {
        Some((pattern, name, answer)) => {
            match_line(alloc, &Equality, pattern, name, answer == "true")
        }
        None => Err(Fail::new(row)),
    }
}

const MATCHED: &str = "\
^a | ab | false | true 0 0
^a | ba | true | false 0 0
a | a | false | true 1 0
a | ab | true | false 1 0
? | a | false | false 1 1
? | a | true | true 1 1";

#[test]
fn names_that_patterns_match(rt: HostRuntime) -> Result<(), Fail> {
    expect_rows(rt.alloc(), MATCHED, matched)
}

// ---- what is declared, beside few and beside many members

// What may stand beside a name.
const BESIDES: &str =
    "x00 x01 x02 x03 x04 x05 x06 x07 x08 x09 x10 x11 x12 x13 x14 x15 x16 x17 x18 x19";

// Names that are never declared.
const OTHERS: &str = " l m m00a m005 m12z n";

/// A text at the name, and so many members besides.
fn add_members(
    members: &mut Map<String, Value>,
    alloc: Global,
    name: &str,
    besides: usize,
) -> Result<(), AllocError> {
    add_names(members, alloc, BESIDES, besides)?;
    add_text(members, alloc, name, "a")
}

/// Whether an object with a text at this name is accepted.
fn accepts_text_at<N: Accepts>(
    place: &N,
    alloc: Global,
    name: &str,
    besides: usize,
) -> Result<bool, AllocError> {
    let mut members = Map::new(alloc);
    let added = add_members(&mut members, alloc, name, besides);
    let object = Value::Object(members);
    let accepted = place.accepts(&object);
    drop(object);
    added?;
    Ok(accepted)
}

/// The first so many of these names are declared, and refuse a text.
fn expect_refused<N: Accepts>(
    place: &N,
    alloc: Global,
    names: &'static str,
    count: usize,
    besides: usize,
) -> Result<(), Fail> {
    for (number, name) in names.split(" ").enumerate() {
        if accepts_text_at(place, alloc, name, besides)? != (number >= count) {
            return Err(Fail::from((count, besides, name)));
        }
    }
    Ok(())
}

fn expect_names<N: Accepts>(
    place: &N,
    alloc: Global,
    count: usize,
    besides: usize,
) -> Result<(), Fail> {
    expect_refused(place, alloc, NUMBERED, count, besides)?;
    expect_refused(place, alloc, OTHERS, 0, besides)
}

fn expect_declared<N: BuiltNode<NoText, EqualTo> + Accepts>(
    alloc: Global,
    count: usize,
    many: bool,
    besides: usize,
) -> Result<(), Fail> {
    let place: N = declared(alloc, count, many)?;
    let told = expect_names(&place, alloc, count, besides);
    drop(place);
    told
}

/// With few members besides, these are looked up among the declared names, and with many the
/// declared names among them.
fn expect_beside(alloc: Global, count: usize, many: bool) -> Result<(), Fail> {
    for besides in [0, count, 20] {
        expect_declared::<PlainNode>(alloc, count, many, besides)?;
    }
    Ok(())
}

#[test]
fn declared_names(rt: HostRuntime) -> Result<(), Fail> {
    let alloc = rt.alloc();
    for count in [0, 1, 2, 13, 14, 15, 16] {
        expect_beside(alloc, count, false)?;
        expect_beside(alloc, count, true)?;
    }
    Ok(())
}
