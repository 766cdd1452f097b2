//! What leaves of the bench accept and tell, and what its matcher answers.
use crate::doubles::NoTexts;
use crate::leaves::told_of_row;
use crate::tables::{expect_rows, two};
use olk_base::{Leaf, MakeError, MakeLeaf, MakeRegex, Meter, Node, RegexEngine};
use olk_bench::{BenchLeaves, BenchRegexes};
use std::alloc::Global;
use std::test::Fail;

/// What is told of a leaf's keyword, its value and an instance.
fn leaf(alloc: Global, cells: &str) -> Result<String, Fail> {
    told_of_row(alloc, &BenchLeaves, cells)
}

fn matched<M: MakeRegex>(alloc: Global, regexes: &M, pattern: &str, name: &str) -> &'static str {
    let mut meter = Meter::new();
    match regexes.make(alloc, pattern, &mut meter) {
        Ok(regex) => match regex.is_match(name, &mut meter) {
            Ok(true) => "yes",
            Ok(false) => "no",
            Err(_) => "unfinished",
        },
        Err(MakeError::Refused) => "refused",
        Err(MakeError::Memory(_)) => "no memory",
    }
}

/// Whether a pattern matches a name.
fn matched_pattern(alloc: Global, cells: &str) -> Result<String, Fail> {
    let (pattern, name) = two(cells);
    Ok(String::from_str(alloc, matched(alloc, &BenchRegexes, pattern, name))?)
}

// A leaf's keyword and value, an instance, and what is told of it, or `-`.
const LEAVES: &str = r#"type | "integer" | 18446744073709551615 | -
type | "integer" | 1.5 | value is not of type "integer"
type | "number" | 1.5 | -
type | "string" | {"a":[1,null]} | {"a":[1,null]} is not of type "string"
const | 5 | 5 | -
const | 5 | -5 | 5 was expected
const | "a" | ["a"] | "a" was expected
minimum | 5 | 4 | 4 is less than the minimum of 5
minimum | -5 | -5 | -
minimum | 5 | 4.5 | -
maximum | 10 | 11 | 11 is greater than the maximum of 10
maximum | 10 | 10 | -
multipleOf | 3 | -7 | -7 is not a multiple of 3
multipleOf | 3 | -6 | -
minLength | 2 | "é" | "é" is shorter than 2 characters
minLength | 2 | [] | -
maxLength | 3 | "cdef" | "cdef" is longer than 3 characters
maxLength | 3 | "ééé" | -
type | "text" | 0 | refused
type | 1 | 0 | refused
const | 1.5 | 0 | refused
const | true | 0 | refused
minimum | "1" | 0 | refused
maximum | 1.5 | 0 | refused
multipleOf | 0 | 0 | refused
minLength | -1 | 0 | refused
maxLength | null | 0 | refused
pattern | "a" | 0 | refused"#;

#[test]
fn leaves_accept_or_tell(rt: HostRuntime) -> Result<(), Fail> {
    expect_rows(rt.alloc(), LEAVES, leaf)
}

#[test]
fn keywords_are_read(rt: HostRuntime) {
    assert!(rt; BenchLeaves.reads("minimum") && !BenchLeaves.reads("pattern"));
    assert!(rt; NoTexts.reads("text") && !NoTexts.reads("texts"));
}

// A pattern, a name, and the answer.
const PATTERNS: &str = r"foo | afoob | yes
foo | fo | no
^foo | foob | yes
^foo | afoo | no
foo$ | afoo | yes
foo$ | foob | no
^foo$ | foo | yes
^foo$ | foofoo | no
\/é | a/é | yes
(slow)x | axb | unfinished
(slow)x | ab | no
(slow) |  | refused
(slow)^x | x | refused
 |  | refused
^$ |  | refused
a( | a | refused
(?<=a)b | ab | refused
foo.* | foo | refused
\d | d | refused
a$b | a | refused";

#[test]
fn patterns_are_plain_texts(rt: HostRuntime) -> Result<(), Fail> {
    expect_rows(rt.alloc(), PATTERNS, matched_pattern)
}
