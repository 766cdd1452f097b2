//! The tables of names and patterns, and a leaf set and a matcher called through their bounds.
ghost use Rattle.std.specs.Prelude.{◌≡◌, true, false, IfOk};
ghost use Rattle.serde_json.specs.View.{view};
ghost use Rattle.olk_spec.specs.Names.{is_empty};
ghost use Rattle.olk_base.specs.Nodes.{data_of};

use crate::counting::Counting;
use crate::doubles::{Equality, NoTexts};
use crate::tables::{expect_rows, two};
use olk_base::{
    CompiledPattern, KeyHead, Leaf, MakeError, MakeLeaf, MakeRegex, Meter, NoRegexes, Node,
    PatternOptimization, PropertyName, PropertyPattern, ValidationContext, analyze_pattern,
    compile_pattern, contains_ecma_whitespace, is_same_text,
};
use serde_json::{Map, Value};
use std::alloc::{AllocError, Global};
use std::cell::Cell;
use std::test::Fail;

// ---- names

/// The head of a name.
fn head(alloc: Global, name: &str) -> Result<String, Fail> {
    Ok(format!(in alloc; "{:?}", KeyHead::of(name))?)
}

// A name and its head.
const HEADS: &str = " | KeyHead { len: 0, first: 0, last: 0 }
a | KeyHead { len: 1, first: 97, last: 0 }
abc | KeyHead { len: 3, first: 6513249, last: 0 }
abcd | KeyHead { len: 4, first: 1684234849, last: 1684234849 }
abcde | KeyHead { len: 5, first: 1684234849, last: 1701077858 }
abcdefgh | KeyHead { len: 8, first: 7523094288207667809, last: 7523094288207667809 }";

#[test]
fn heads(rt: HostRuntime) -> Result<(), Fail> {
    expect_rows(rt.alloc(), HEADS, head)
}

/// Whether the names are the same, as each way of comparing says.
fn same_name(alloc: Global, cells: &str) -> Result<String, Fail> {
    let (name, key) = two(cells);
    let one = PropertyName::new(alloc, name)?;
    let ways = (
        one.matches(KeyHead::of(key), key),
        one.as_str() == key,
        is_same_text(name, key),
    );
    drop(one);
    let text = match ways {
        (true, true, true) => "same",
        (false, false, false) => "other",
        _ => "the ways differ",
    };
    Ok(String::from_str(alloc, text)?)
}

// Names with a difference at each place, and texts of each kind of length: none, up to three bytes,
// up to 7, 16 and 32, and more.
const NAMES: &str = "abcdefghijklX | abcdefghijklX | same
abcdefghijkl | abcdefghijkl | same
abcd | abcd | same
 |  | same
café-résumé-naïve | café-résumé-naïve | same
abcdefghijklX | abcdefghijklY | other
abcdefghijkl | abcdefghijkL | other
abcdEFGHijkl | abcdefghijkl | other
abcd | abce | other
abcd | abcde | other
 | a | other
café-résumé-naïve | café-rÉsumé-naïve | other
 |  | same
id | id | same
abc | abd | other
abc | abcd | other
naïve | naïve | same
title | titre | other
operationId | operationId | same
operationId | operationIs | other
additionalProperties | additionalProperties | same
additionalProperties | additionalproperties | other
a name of more than thirty-two bytes | a name of more than thirty-two bytes | same
a name of more than thirty-two bytes | a name of more than thirty-six bytes | other";

#[test]
fn same_and_other_names(rt: HostRuntime) -> Result<(), Fail> {
    expect_rows(rt.alloc(), NAMES, same_name)
}

// ---- patterns

/// The test that a pattern is read as.
fn read_pattern(alloc: Global, pattern: &str) -> Result<String, Fail> {
    let test = analyze_pattern(alloc, pattern)?;
    Ok(format!(in alloc; "{test:?}")?)
}

// A pattern, and the test that it is read as.
const LITERALS: &str = r#"^foo | Some(Prefix("foo"))
^x- | Some(Prefix("x-"))
^path/to | Some(Prefix("path/to"))
^\/ | Some(Prefix("/"))
^foo$ | Some(Exact("foo"))
^\$ref$ | Some(Exact("$ref"))
^foo\$ | Some(Prefix("foo$"))
^(a|b)$ | Some(Alternation(["a", "b"]))
^\S*$ | Some(NoWhitespace)
spam$ | Some(Suffix("spam"))
\$$ | Some(Suffix("$"))
foo | None
^ | None
^$ | None
^(a)$ | None
^foo.* | None
^foo+ | None
^foo? | None
^[a-z] | None
^foo|bar | None
^foo(bar) | None
^foo\d | None
foo\$ | None
$ | None
(a)$ | None
fo.o$ | None"#;

#[test]
fn literal_patterns(rt: HostRuntime) -> Result<(), Fail> {
    expect_rows(rt.alloc(), LITERALS, read_pattern)
}

fn test_of<R: Drop>(pattern: CompiledPattern<R>) -> Option<PatternOptimization> {
    match pattern {
        CompiledPattern::Prefix(text) => Some(PatternOptimization::Prefix(text)),
        CompiledPattern::Suffix(text) => Some(PatternOptimization::Suffix(text)),
        CompiledPattern::Exact(text) => Some(PatternOptimization::Exact(text)),
        CompiledPattern::Alternation(texts) => Some(PatternOptimization::Alternation(texts)),
        CompiledPattern::NoWhitespace => Some(PatternOptimization::NoWhitespace),
        CompiledPattern::Regex(_) => None,
    }
}

/// The test; an engine is made where there is none, and only there.
fn test_text(
    alloc: Global,
    test: &Option<PatternOptimization>,
    made: u64,
) -> Result<String, AllocError> {
    if made == u64::from(test.is_none()) {
        format!(in alloc; "{test:?}")
    } else {
        String::from_str(alloc, "another count")
    }
}

fn compiled<M: MakeRegex>(alloc: Global, regexes: &M, pattern: &str) -> Result<String, AllocError> {
    let mut meter = Meter::new();
    match compile_pattern(alloc, regexes, pattern, &mut meter) {
        Ok(compiled) => test_text(alloc, &test_of(compiled), meter.made()),
        Err(MakeError::Refused) => format!(in alloc; "refused, {} made", meter.made()),
        Err(MakeError::Memory(error)) => Err(error),
    }
}

/// What a pattern is compiled to.
fn compiled_pattern(alloc: Global, pattern: &str) -> Result<String, Fail> {
    Ok(compiled(alloc, &Equality, pattern)?)
}

/// What a pattern is compiled to by a maker that refuses all.
fn pattern_without_regexes(alloc: Global, pattern: &str) -> Result<String, Fail> {
    Ok(compiled(alloc, &NoRegexes, pattern)?)
}

#[test]
fn patterns_are_compiled_to_their_tests(rt: HostRuntime) -> Result<(), Fail> {
    expect_rows(rt.alloc(), LITERALS, compiled_pattern)?;
    expect_rows(rt.alloc(), "( | refused, 1 made", compiled_pattern)
}

#[test]
fn a_matcher_that_refuses_all(rt: HostRuntime) -> Result<(), Fail> {
    let rows = "a | refused, 1 made\n^a | Some(Prefix(\"a\"))";
    expect_rows(rt.alloc(), rows, pattern_without_regexes)
}

// Between these stands `|`.
const WHITE: &str =
    "\u{9}|\u{a}|\u{b}|\u{c}|\u{d}|\u{20}|\u{a0}|\u{1680}|\u{2000}|\u{2001}|\u{2002}|\u{2003}|\u{2004}|\u{2005}|\u{2006}|\u{2007}|\u{2008}|\u{2009}|\u{200a}|\u{2028}|\u{2029}|\u{202f}|\u{205f}|\u{3000}|\u{feff}|a b|é\u{3000}y";

const NOT_WHITE: &str = "|ab|\u{8}|\u{e}|\u{85}|\u{180e}|\u{200b}|\u{2060}|é";

#[test]
fn white_space(rt: HostRuntime) {
    for text in WHITE.split("|") {
        assert!(rt; contains_ecma_whitespace(text));
    }
    for text in NOT_WHITE.split("|") {
        assert!(rt; !contains_ecma_whitespace(text));
    }
}

/// How a pattern matches a name, in a context that gives this answer where a match is unfinished,
/// by a maker that counts in cells what it makes, and how often that is asked.
fn matched<M: MakeRegex>(
    alloc: Global,
    regexes: &M,
    [engines, asks]: [&Cell<u64>; 2],
    [pattern, name]: [&str; 2],
    answer: bool,
) -> Result<String, AllocError> {
    let mut meter = Meter::new();
    match compile_pattern(alloc, regexes, pattern, &mut meter) {
        Err(MakeError::Refused) => {
            format!(in alloc; "refused, {:?}", [meter.made(), engines.get()])
        }
        Err(MakeError::Memory(error)) => Err(error),
        Ok(compiled) => {
            let mut ctx = ValidationContext::new(answer);
            let found = compiled.is_match_in(name, &mut ctx);
            drop(compiled);
            let (made, asked) = (meter.made(), ctx.meter().asked());
            let counts = [
                made,
                engines.get(),
                asked,
                asks.get(),
                ctx.meter().unfinished(),
            ];
            format!(in alloc; "{found}, {}, {counts:?}", ctx.answer())
        }
    }
}

/// How a pattern matches a name, of the answer where a match is unfinished, the pattern and the
/// name.
fn matched_pattern(alloc: Global, cells: &str) -> Result<String, Fail> {
    let (answer, cells) = two(cells);
    let (pattern, name) = two(cells);
    let (engines, asks) = (Cell::new(0), Cell::new(0));
    let counting = Counting {
        maker: Equality,
        made: &engines,
        asked: &asks,
    };
    let answer = answer == "true";
    Ok(matched(alloc, &counting, [&engines, &asks], [pattern, name], answer)?)
}

// The answer where a match is unfinished, a pattern, a name, whether it matches, and that answer
// again; then how many engines are made, and how often they are asked, each as the meter and as the
// maker count; and how many matches are left unfinished.
const MATCHES: &str = r"true | ^foo | foobar | true, true, [0, 0, 0, 0, 0]
true | ^foo | barfoo | false, true, [0, 0, 0, 0, 0]
true | spam$ | xspam | true, true, [0, 0, 0, 0, 0]
true | spam$ | spamx | false, true, [0, 0, 0, 0, 0]
true | spam$ | am | false, true, [0, 0, 0, 0, 0]
true | ^foo$ | foo | true, true, [0, 0, 0, 0, 0]
true | ^foo$ | foobar | false, true, [0, 0, 0, 0, 0]
true | ^(a|b)$ | a | true, true, [0, 0, 0, 0, 0]
true | ^(a|b)$ | b | true, true, [0, 0, 0, 0, 0]
true | ^(a|b)$ | ab | false, true, [0, 0, 0, 0, 0]
true | ^\S*$ | ab | true, true, [0, 0, 0, 0, 0]
true | ^\S*$ | a b | false, true, [0, 0, 0, 0, 0]
true | ^\S*$ |  | true, true, [0, 0, 0, 0, 0]
true | foo | foo | true, true, [1, 1, 1, 1, 0]
true | foo | foobar | false, true, [1, 1, 1, 1, 0]
true | ? | foo | true, true, [1, 1, 1, 1, 1]
false | ? | foo | false, false, [1, 1, 1, 1, 1]
true | ( | foo | refused, [1, 1]";

#[test]
fn patterns(rt: HostRuntime) -> Result<(), Fail> {
    expect_rows(rt.alloc(), MATCHES, matched_pattern)
}

// ---- leaves

fn one_text(alloc: Global, text: &str) -> Result<Vec<String>, AllocError> {
    Ok(vec![in alloc; String::from_str(alloc, text)?]?)
}

/// What `collect_errors` adds to the keyword.
fn collected<L: Leaf>(alloc: Global, leaf: &L, node: Node<'_>) -> Result<Vec<String>, AllocError> {
    let mut texts = one_text(alloc, leaf.keyword())?;
    leaf.collect_errors(alloc, node, &mut texts)?;
    Ok(texts)
}

fn told<L: Leaf>(alloc: Global, leaf: &L, node: Node<'_>) -> Result<String, AllocError> {
    let first = leaf.validate(alloc, node)?;
    let all = collected(alloc, leaf, node)?;
    let shown = leaf.evaluate(alloc, node)?;
    format!(in alloc; "{first:?}, {all:?}, {shown:?}")
}

/// A leaf that is made, and asked by each of its calls.
fn asked_leaf<L: MakeLeaf>(
    leaves: &L,
    alloc: Global,
    keyword: &str,
    value: &Value,
    node: Node<'_>,
    meter: &mut Meter,
) -> Result<(bool, String), MakeError>
    ensures valid { IfOk result
        (λ r. r.0 ≡ is_empty (L.Leaf.faults keyword.now (view value.now) (data_of node.entry))) }
{
    let leaf = leaves.make(alloc, keyword, value, meter)?;
    let is_valid = leaf.is_valid(node);
    let told = told(alloc, &leaf, node);
    drop(leaf);
    Ok((is_valid, told?))
}

/// What each call of a leaf with this value answers of the node.
fn leaf_of(alloc: Global, value: &Value, node: Node<'_>) -> Result<String, AllocError> {
    let mut meter = Meter::new();
    match asked_leaf(&NoTexts, alloc, "text", value, node, &mut meter) {
        Ok((is_valid, told)) => {
            format!(in alloc; "({is_valid}, {told}), {} made", meter.leaves())
        }
        Err(MakeError::Refused) => format!(in alloc; "refused, {} made", meter.leaves()),
        Err(MakeError::Memory(error)) => Err(error),
    }
}

/// What a leaf answers, of its value, and a text or null.
fn leaf(alloc: Global, cells: &str) -> Result<String, Fail> {
    let (value, node) = two(cells);
    let value = if value == "false" {
        Value::Bool(false)
    } else {
        Value::Null
    };
    if node == "null" {
        return Ok(leaf_of(alloc, &value, Node::Value(&Value::Null))?);
    }
    let name = String::from_str(alloc, node)?;
    Ok(leaf_of(alloc, &value, Node::Name(name.as_str()))?)
}

// The value of a leaf, a name or null, and what `is_valid`, `validate`, `collect_errors` after a
// text, and `evaluate` answer.
const LEAVES: &str =
    r#"false | a | (false, Some("is a text"), ["text", "is a text"], ["is a text"]), 1 made
false | null | (true, None, ["text"], []), 1 made
null |  | refused, 1 made"#;

#[test]
fn leaves(rt: HostRuntime) -> Result<(), Fail> {
    expect_rows(rt.alloc(), LEAVES, leaf)
}

// ---- nodes and counts

fn node_text(alloc: Global, node: Node<'_>) -> Result<String, AllocError> {
    format!(in alloc; "{}, {:?}", node.as_object().is_some(), node.json_type())
}

/// Whether a node is an object, and its type.
fn node(alloc: Global, word: &str) -> Result<String, Fail> {
    let text = match word {
        "object" => node_text(alloc, Node::Value(&Value::Object(Map::new(alloc)))),
        "null" => node_text(alloc, Node::Value(&Value::Null)),
        _ => node_text(alloc, Node::Name("")),
    };
    Ok(text?)
}

#[test]
fn nodes(rt: HostRuntime) -> Result<(), Fail> {
    let rows = "object | true, Object\nnull | false, Null\nname | false, String";
    expect_rows(rt.alloc(), rows, node)
}

#[test]
fn counts(rt: HostRuntime) {
    let mut meter = Meter::new();
    meter.tick_compiled();
    meter.tick_unfinished();
    meter.tick_unfinished();
    let others = meter.leaves() + meter.made() + meter.asked();
    assert_eq!(rt; [meter.compiled(), meter.unfinished(), others], [1, 2, 0]);
}
