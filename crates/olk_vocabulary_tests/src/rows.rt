//! Rows of the vocabulary: a keyword, its value, an instance, and what is told.
use olk_base::MakeLeaf;
use olk_base_tests::leaves::told_of_row;
use olk_base_tests::tables::expect_rows;
use olk_vocabulary::Vocabulary;
use std::alloc::Global;
use std::test::Fail;

/// What is told of a keyword, its value and an instance.
fn row(alloc: Global, cells: &str) -> Result<String, Fail> {
    told_of_row(alloc, &Vocabulary, cells)
}

// A keyword, its value, an instance, and what is told of it, or `-`.
const ROWS: &str = r#"type | "integer" | 3.5 | value is not of type "integer"
type | "integer" | 1.0 | -
type | "integer" | -1e300 | -
type | ["integer","null"] | 0.5 | value is not of types "integer", "null"
type | "integer" | -3 | -
type | "integer of draft 4" | 1 | -
type | "integer of draft 4" | -7 | -
type | "integer of draft 4" | 1.0 | value is not of type "integer"
type | "integer of draft 4" | 12345678910111213141516171819202122232425262728293031 | -
type | "integer of draft 4" | -9223372036854775809 | -
type | "integer of draft 4" | "a" | "a" is not of type "integer"
type | ["integer of draft 4","null"] | 2.0 | value is not of types "integer", "null"
type | ["null","integer of draft 4"] | 2 | -
type | "number" | 3.5 | -
type | "null" | null | -
type | "boolean" | false | -
type | "string" | "null" | -
type | "array" | {} | {} is not of type "array"
type | "object" | [] | [] is not of type "object"
type | "any" | 0 | refused
type | ["integer","null"] | null | -
type | ["integer","null"] | "a" | "a" is not of types "integer", "null"
type | ["string"] | 1 | 1 is not of types "string"
type | ["array","object","boolean"] | true | -
type | ["integer","text"] | 0 | refused
type | {} | 0 | refused
type | ["null","boolean","integer","number","string","array","object"] | {} | -
type | ["null","null","null","null","null","null","null","null"] | null | refused
const | "a" | "b" | "a" was expected
const | -7 | -7 | -
const | null | null | -
const | null | 0 | null was expected
const | false | 0 | false was expected
const | "1" | 1 | "1" was expected
const | {"a":[1,null]} | {"a":[1,null]} | -
const | {"a":[1,null]} | {"a":[1]} | {"a":[1,null]} was expected
const | {"a":1,"b":2} | {"b":2,"a":1} | -
const | {"a":1,"b":2} | {"a":1} | {"a":1,"b":2} was expected
const | {"a":1} | {"a":1,"b":2} | {"a":1} was expected
const | [1,2] | [2,1] | [1,2] was expected
const | [1] | [1,2] | [1] was expected
const | [] | {} | [] was expected
const | 2 | 2.5 | 2 was expected
const | 1.5 | 1.5 | -
const | 1 | 1.0 | -
const | 1.0 | 1 | -
const | {"a":[0.5]} | {"a":[0.5]} | -
const | 0.5 | 0.25 | value was expected
const | 9007199254740993 | 9007199254740992.0 | 9007199254740993 was expected
const | 0 | -0.0 | -
enum | [1] | 2 | 2 is not one of 1
enum | [1,2] | 3 | 3 is not one of 1 or 2
enum | ["a","b",1] | "c" | "c" is not one of "a", "b" or 1
enum | ["a","b","c","d"] | "e" | "e" is not one of "a", "b" or 2 other candidates
enum | ["a","b","c","d"] | "d" | -
enum | [[],{}] | {} | -
enum | [6,"foo",[],true,{"foo":12}] | {"foo":12} | -
enum | [null] | 0.5 | value is not one of null
enum | {} | 0 | refused
enum | [0.5,1] | 0.5 | -
enum | [0.5,1] | 2 | 2 is not one of value or 1
enum | [5,3,1,4,2] | 3 | -
enum | [5,3,1,4,2] | 6 | 6 is not one of 5, 3 or 3 other candidates
enum | [3,1e300,-7,0.5,2] | -7.0 | -
enum | [3,1e300,-7,0.5,2] | 1e300 | -
enum | [9007199254740993,9007199254740991] | 9007199254740992.0 | value is not one of 9007199254740993 or 9007199254740991
enum | [0] | -0.0 | -
enum | [2,1.0,1] | 1 | -
enum | ["b","","a"] | "a" | -
enum | ["1"] | 1 | 1 is not one of "1"
enum | [1] | "1" | "1" is not one of 1
minimum | 5 | 4 | 4 is less than the minimum of 5
minimum | 5 | 5 | -
minimum | 5 | "4" | -
minimum | 5 | 4.5 | value is less than the minimum of 5
minimum | 5 | 5.0 | -
minimum | -5 | -5.5 | value is less than the minimum of -5
minimum | 0.5 | 0 | 0 is less than the minimum of value
minimum | 0.1 | 0.1 | -
minimum | 9007199254740993 | 9007199254740992.0 | value is less than the minimum of 9007199254740993
minimum | -9223372036854775808 | -1e300 | value is less than the minimum of -9223372036854775808
minimum | 18446744073709551615 | 1e300 | -
maximum | 5 | 5 | -
maximum | 5 | 6 | 6 is greater than the maximum of 5
maximum | 5 | 5.25 | value is greater than the maximum of 5
maximum | 18446744073709551615 | 18446744073709551616 | value is greater than the maximum of 18446744073709551615
maximum | -1 | -0.5 | value is greater than the maximum of -1
maximum | [] | 0 | refused
exclusiveMinimum | 5 | 5 | 5 is less than or equal to the minimum of 5
exclusiveMinimum | 5 | 6 | -
exclusiveMinimum | -5 | 0 | -
exclusiveMinimum | -5 | -6 | -6 is less than or equal to the minimum of -5
exclusiveMinimum | 5 | [1] | -
exclusiveMinimum | 0 | 0.0 | value is less than or equal to the minimum of 0
exclusiveMinimum | 0 | 0.001 | -
exclusiveMaximum | 5 | 5 | 5 is greater than or equal to the maximum of 5
exclusiveMaximum | 5 | 4 | -
exclusiveMaximum | 18446744073709551615 | -1 | -
exclusiveMaximum | -1 | 18446744073709551615 | 18446744073709551615 is greater than or equal to the maximum of -1
exclusiveMaximum | 0.5 | 0 | -
exclusiveMaximum | 0.5 | 0.5 | value is greater than or equal to the maximum of value
exclusiveMaximum | 1 | 0.75 | -
exclusiveMaximum | "5" | 0 | refused
multipleOf | 3 | 7 | 7 is not a multiple of 3
multipleOf | 3 | -9 | -
multipleOf | 2 | 4.0 | -
multipleOf | 2 | 4.5 | value is not a multiple of 2
multipleOf | 2 | -3.0 | value is not a multiple of 2
multipleOf | 3 | 9007199254740993 | -
multipleOf | 4096 | 1e19 | -
multipleOf | 7 | 1e19 | value is not a multiple of 7
multipleOf | 2 | 18446744073709551616 | -
multipleOf | 18446744073709551615 | 18446744073709551615 | -
multipleOf | 18446744073709551615 | 1e308 | value is not a multiple of 18446744073709551615
multipleOf | 10 | 1e22 | -
multipleOf | 7 | 1e300 | value is not a multiple of 7
multipleOf | 8 | -1e300 | -
multipleOf | 2.0 | 4 | -
multipleOf | 2.0 | 5 | 5 is not a multiple of value
multipleOf | 2.0 | 2.5 | value is not a multiple of value
multipleOf | 1.5 | 4.5 | -
multipleOf | 1.5 | 35 | 35 is not a multiple of value
multipleOf | 0.5 | 1e308 | -
multipleOf | 0.1 | 0 | -
multipleOf | 0.1 | 0.3 | -
multipleOf | 0.1 | 0.35 | value is not a multiple of value
multipleOf | 0.1 | 0.30000000000000004 | value is not a multiple of value
multipleOf | 0.25 | -0.75 | -
multipleOf | 0.01 | 1 | -
multipleOf | 0.01 | 4.35 | -
multipleOf | 0.01 | 19.99 | -
multipleOf | 0.01 | 0.305 | value is not a multiple of value
multipleOf | 0.01 | "0.305" | -
multipleOf | 0.0001 | 0.0075 | -
multipleOf | 0.0001 | 0.00751 | value is not a multiple of value
multipleOf | 0.123456789 | 1e308 | value is not a multiple of value
multipleOf | 0.123456789 | 1.111111101 | -
multipleOf | 1e-8 | 12391239123 | -
multipleOf | 1e-22 | 3e-22 | -
multipleOf | 1e-23 | 1 | refused
multipleOf | 1e-300 | 1 | refused
multipleOf | 1e20 | 1e20 | refused
multipleOf | 0 | 1 | refused
multipleOf | 0.0 | 1 | refused
multipleOf | -0.5 | 1 | refused
multipleOf | -1 | 1 | refused
multipleOf | "2" | 1 | refused
minLength | 2 | "é" | "é" is shorter than 2 characters
minLength | 1 | "" | "" is shorter than 1 character
minLength | 0 | "" | -
minLength | 2.0 | "a" | "a" is shorter than 2 characters
maxLength | 2.0 | "ab" | -
minLength | 2.5 | "a" | refused
maxLength | -0.0 | "a" | "a" is longer than 0 characters
maxLength | -1.0 | "" | refused
maxLength | 18446744073709551616 | "" | refused
maxLength | 1 | "é" | -
maxLength | 1 | ["a","b"] | -
maxLength | 1 | "ab" | "ab" is longer than 1 character
minItems | 0 | [] | -
minItems | 1 | [] | [] has less than 1 item
minItems | 2 | [1] | [1] has less than 2 items
minItems | 2 | [1,2] | -
minItems | 2 | "a" | -
maxItems | 0 | [] | -
maxItems | 1 | [1,2] | [1,2] has more than 1 item
maxItems | 1 | {} | -
maxItems | 0 | [0.5] | value has more than 0 items
maxItems | 1.5 | [] | refused
minProperties | 0 | {} | -
minProperties | 1 | {} | {} has less than 1 property
minProperties | 2 | {"a":1} | {"a":1} has less than 2 properties
minProperties | 1 | [] | -
maxProperties | 1 | {"a":1} | -
maxProperties | 1 | {"a":1,"b":2} | {"a":1,"b":2} has more than 1 property
maxProperties | 0 | {"a":1} | {"a":1} has more than 0 properties
maxProperties | 0 | null | -
maxProperties | -1 | {} | refused
pattern | "^a*$" | "aaa" | -
pattern | "^a*$" | "abc" | "abc" does not match "^a*$"
pattern | "^a*$" | "" | -
pattern | "^a*$" | true | -
pattern | "^a*$" | 123 | -
pattern | "^a*$" | ["abc"] | -
pattern | "^a*$" | null | -
pattern | "a+" | "xxaayy" | -
pattern | "a+" | "xxyy" | "xxyy" does not match "a+"
pattern | "abc" | "xabcx" | -
pattern | "^(\\([0-9]{3}\\))?[0-9]{3}-[0-9]{4}$" | "555-1212" | -
pattern | "^(\\([0-9]{3}\\))?[0-9]{3}-[0-9]{4}$" | "(888)555-1212" | -
pattern | "^(\\([0-9]{3}\\))?[0-9]{3}-[0-9]{4}$" | "(800)FLOWERS" | "(800)FLOWERS" does not match "^(\\([0-9]{3}\\))?[0-9]{3}-[0-9]{4}$"
pattern | "^\\d$" | "0" | -
pattern | "^\\d$" | "߀" | "߀" does not match "^\\d$"
pattern | "^\\w$" | "é" | "é" does not match "^\\w$"
pattern | "^\\s$" | " " | -
pattern | "^🐲*$" | "🐲🐲" | -
pattern | "^🐲*$" | "🐉" | "🐉" does not match "^🐲*$"
pattern | "^.$" | "𝄞" | -
pattern | "[\"]" | "'" | "'" does not match "[\"]"
pattern | "^\\cC$" | "\u0003" | -
pattern | "^\\cC$" | "C" | "C" does not match "^\\cC$"
pattern | "^\\p{Letter}+$" | "été" | -
pattern | "^\\p{Letter}+$" | "e1" | "e1" does not match "^\\p{Letter}+$"
pattern | "\\p{Letter}cole" | "l'école" | -
pattern | "^\\p{digit}+$" | "৪২" | -
pattern | "^\\p{digit}+$" | "-" | "-" does not match "^\\p{digit}+$"
pattern | "\\P{L}" | "é1" | -
pattern | "\\P{L}" | "é" | "é" does not match "\\P{L}"
pattern | "[^\\p{L}]" | "é1" | -
pattern | "[^\\p{L}]" | "é" | "é" does not match "[^\\p{L}]"
pattern | "\\p{Script=Greek}" | "α" | refused
pattern | "" | "" | -
pattern | "^(?!a)" | "b" | -
pattern | "^(?!a)" | "ab" | "ab" does not match "^(?!a)"
pattern | "b(?!a)" | "b" | refused
pattern | "^a(" | "a" | refused
pattern | "\\a" | "a" | refused
pattern | 5 | "5" | refused
pattern | ["a"] | "a" | refused
prefixItems | [] | [] | refused
items | true | [] | refused
contains | true | [] | refused
minContains | 0 | [] | refused
maxContains | 1 | [] | refused
uniqueItems | true | [] | -
uniqueItems | true | [1,2] | -
uniqueItems | true | [1,1] | [1,1] has non-unique elements
uniqueItems | true | [1,2,1] | [1,2,1] has non-unique elements
uniqueItems | true | [1.0,1.0,1] | value has non-unique elements
uniqueItems | true | [1,1.0] | value has non-unique elements
uniqueItems | true | [0,-0.0] | value has non-unique elements
uniqueItems | true | [9007199254740993,9007199254740992.0] | -
uniqueItems | true | ["foo","bar","foo"] | ["foo","bar","foo"] has non-unique elements
uniqueItems | true | ["foo","bar","baz"] | -
uniqueItems | true | [{"foo":"bar"},{"foo":"baz"}] | -
uniqueItems | true | [{"foo":"bar"},{"foo":"bar"}] | [{"foo":"bar"},{"foo":"bar"}] has non-unique elements
uniqueItems | true | [{"a":1,"b":2},{"b":2,"a":1}] | [{"a":1,"b":2},{"a":1,"b":2}] has non-unique elements
uniqueItems | true | [{"a":1,"b":2},{"a":2,"b":1}] | -
uniqueItems | true | [{"foo":{"bar":{"baz":true}}},{"foo":{"bar":{"baz":false}}}] | -
uniqueItems | true | [[["foo"],1],[["foo"],1]] | [[["foo"],1],[["foo"],1]] has non-unique elements
uniqueItems | true | [["foo"],["bar"],["foo","bar"]] | -
uniqueItems | true | [1,true] | -
uniqueItems | true | [0,false] | -
uniqueItems | true | [[1],[true]] | -
uniqueItems | true | [{"a":0},{"a":false}] | -
uniqueItems | true | ["1",1] | -
uniqueItems | true | [[],{}] | -
uniqueItems | true | [{},[1],true,null,1,"{}"] | -
uniqueItems | true | [{},[1],true,null,{},1] | [{},[1],true,null,{},1] has non-unique elements
uniqueItems | true | [null,null] | [null,null] has non-unique elements
uniqueItems | true | [false,true,false] | [false,true,false] has non-unique elements
uniqueItems | true | {"a":1,"b":1} | -
uniqueItems | true | "aa" | -
uniqueItems | false | [1,1] | -
uniqueItems | 1 | [] | refused
uniqueItems | null | [] | refused
uniqueItems | [true] | [] | refused"#;

#[test]
fn keywords_accept_or_tell(rt: HostRuntime) -> Result<(), Fail> {
    expect_rows(rt.alloc(), ROWS, row)
}

#[test]
fn annotations_are_not_read(rt: HostRuntime) {
    assert!(rt; Vocabulary.reads("enum") && Vocabulary.reads("items"));
    assert!(rt; !Vocabulary.reads("title") && !Vocabulary.reads("format"));
    assert!(rt; !Vocabulary.reads("$defs") && !Vocabulary.reads("x-note"));
}
