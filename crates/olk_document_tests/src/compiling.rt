//! Whole documents: compiled with the places that their references name, and asked.
use crate::documents::told;
use olk_base::{Meter, Node};
use olk_base_tests::tables::expect_rows;
use olk_bench::{BenchLeaf, BenchLeaves, BenchRegex, BenchRegexes};
use olk_build::Context;
use olk_document_build::compile_document;
use olk_documents::DocumentNode;
use olk_reports::{BuildError, ValidationError};
use serde_json::Value;
use std::alloc::{AllocError, Global};
use std::test::Fail;

type Built<'a> = Result<DocumentNode<BenchLeaf, BenchRegex>, BuildError<'a>>;

fn compiled<'a>(alloc: Global, document: &'a Value) -> Built<'a> {
    let mut meter = Meter::new();
    let mut ctx = Context::new(alloc, &BenchLeaves, &BenchRegexes, &mut meter);
    compile_document(alloc, &mut ctx, document)
}

// ---- documents that are built

fn answered(alloc: Global, document: &Value, value: &Value) -> Result<String, Fail> {
    match compiled(alloc, document) {
        Ok(node) => Ok(told(alloc, &node, Node::Value(value))?),
        Err(_error) => Err(Fail::from("not built")),
    }
}

/// `DOCUMENT | VALUE`.
fn answer(alloc: Global, row: &str) -> Result<String, Fail> {
    let (document, value) = row.split_once(" | ").ok_or("two cells")?;
    let document = Value::from_str(alloc, document)?;
    let value = Value::from_str(alloc, value)?;
    answered(alloc, &document, &value)
}

// Documents and verdicts as JSON Schema's own test suite has them for 2020-12 (`ref`, `items`,
// `contains`), and others like them, with the verdicts of Python's `jsonschema`. Each error has the
// place of the value, and that of the keyword where it is written, by RFC 6901.
const BUILT: &str =
    r##"{"properties":{"foo":{"type":"integer"},"bar":{"$ref":"#/properties/foo"}}} | {"bar":3} | true
{"properties":{"foo":{"type":"integer"},"bar":{"$ref":"#/properties/foo"}}} | {"bar":true} | false #/bar by #/properties/foo/type
{"prefixItems":[{"type":"integer"},{"$ref":"#/prefixItems/0"}]} | [1,2] | true
{"prefixItems":[{"type":"integer"},{"$ref":"#/prefixItems/0"}]} | [1,"foo"] | false #/1 by #/prefixItems/0/type
{"properties":{"a":{"allOf":[{"maximum":3}]},"b":{"$ref":"#/properties/a/allOf/0"}}} | {"b":4} | false #/b by #/properties/a/allOf/0/maximum
{"$defs":{"tilde~field":{"type":"integer"}},"properties":{"tilde":{"$ref":"#/$defs/tilde~0field"}}} | {"tilde":"aoeu"} | false #/tilde by #/$defs/tilde~0field/type
{"$defs":{"slash/field":{"type":"integer"}},"properties":{"slash":{"$ref":"#/$defs/slash~1field"}}} | {"slash":"aoeu"} | false #/slash by #/$defs/slash~1field/type
{"$defs":{"~1":{"type":"integer"},"/":true},"properties":{"a":{"$ref":"#/$defs/~01"},"b":{"$ref":"#/$defs/~1"}}} | {"a":"x","b":"x"} | false #/a by #/$defs/~01/type
{"$defs":{"foo\"bar":{"type":"number"}},"properties":{"foo\"bar":{"$ref":"#/$defs/foo\"bar"}}} | {"foo\"bar":"1"} | false #/foo"bar by #/$defs/foo"bar/type
{"$defs":{"a":{"type":"integer"},"b":{"$ref":"#/$defs/a"},"c":{"$ref":"#/$defs/b"}},"$ref":"#/$defs/c"} | 5 | true
{"$defs":{"a":{"type":"integer"},"b":{"$ref":"#/$defs/a"},"c":{"$ref":"#/$defs/b"}},"$ref":"#/$defs/c"} | "a" | false # by #/$defs/a/type
{"$defs":{"reffed":{"type":"array"}},"properties":{"foo":{"$ref":"#/$defs/reffed","contains":true}}} | {"foo":[]} | false #/foo by #/properties/foo/contains
{"$defs":{"reffed":{"type":"array"}},"properties":{"foo":{"$ref":"#/$defs/reffed","contains":true}}} | {"foo":"string"} | false #/foo by #/$defs/reffed/type
{"$defs":{"a":{"type":"integer"},"b":{"$ref":"#/$defs/a"}},"properties":{"x":{"$ref":"#/$defs/b"},"y":{"$ref":"#/$defs/a"},"z":{"$ref":"#/$defs/a"}}} | {"x":"x","y":"y","z":3} | false #/x by #/$defs/a/type #/y by #/$defs/a/type
{"properties":{"$ref":{"$ref":"#/$defs/is-string"}},"$defs":{"is-string":{"type":"string"}}} | {"$ref":2} | false #/$ref by #/$defs/is-string/type
{"$ref":"#/$defs/bool","$defs":{"bool":true}} | "foo" | true
{"$ref":"#/$defs/bool","$defs":{"bool":false}} | "foo" | false # by #/$defs/bool
{"$defs":{"item":{"type":"array","items":false,"prefixItems":[{"$ref":"#/$defs/sub-item"},{"$ref":"#/$defs/sub-item"}]},"sub-item":{"type":"object","required":["foo"]}},"items":false,"prefixItems":[{"$ref":"#/$defs/item"},{"$ref":"#/$defs/item"},{"$ref":"#/$defs/item"}]} | [[{"foo":null},{"foo":null}],[{"foo":null},{"foo":null}],[{"foo":null},{"foo":null}]] | true
{"$defs":{"item":{"type":"array","items":false,"prefixItems":[{"$ref":"#/$defs/sub-item"},{"$ref":"#/$defs/sub-item"}]},"sub-item":{"type":"object","required":["foo"]}},"items":false,"prefixItems":[{"$ref":"#/$defs/item"},{"$ref":"#/$defs/item"},{"$ref":"#/$defs/item"}]} | [[{"foo":null},{"foo":null},{"foo":null}],[{"foo":null},{"foo":null}],[{"foo":null},{"foo":null}]] | false #/0/2 by #/$defs/item/items
{"$defs":{"item":{"type":"array","items":false,"prefixItems":[{"$ref":"#/$defs/sub-item"},{"$ref":"#/$defs/sub-item"}]},"sub-item":{"type":"object","required":["foo"]}},"items":false,"prefixItems":[{"$ref":"#/$defs/item"},{"$ref":"#/$defs/item"},{"$ref":"#/$defs/item"}]} | [[{},{"foo":null}],[{"foo":null},{"foo":null}],[{"foo":null},{"foo":null}]] | false #/0/0 by #/$defs/sub-item/required
{"contains":{"$ref":"#/$defs/big"},"$defs":{"big":{"minimum":5}}} | [3,4,5] | true
{"contains":{"$ref":"#/$defs/big"},"$defs":{"big":{"minimum":5}}} | [2,3,4] | false # by #/contains
{"items":{"$ref":"#/$defs/a"},"$defs":{"a":{"properties":{"b":{"maxLength":1}}}}} | [{"b":"x"},{"b":"xy"}] | false #/1/b by #/$defs/a/properties/b/maxLength
{"not":{"$ref":"#/$defs/a"},"$defs":{"a":{"type":"string"}}} | "x" | false # by #/not
{"type":"integer","$defs":{"a":{"$ref":"#/nowhere"}}} | 5 | true
{"const":"a","default":{"$ref":"#/nowhere"}} | "b" | false # by #/const
{"$ref":"#/a","a":{"$ref":"#/b"},"b":{"$ref":"#/c"},"c":{"$ref":"#/d"},"d":{"$ref":"#/e"},"e":{"$ref":"#/f"},"f":{"$ref":"#/g"},"g":{"$ref":"#/h"},"h":{"$ref":"#/i"},"i":{"$ref":"#/j"},"j":{"$ref":"#/k"},"k":{"$ref":"#/l"},"l":{"$ref":"#/m"},"m":{"$ref":"#/n"},"n":{"$ref":"#/o"},"o":{"$ref":"#/p"},"p":{"type":"integer"}} | 5 | true
{"$ref":"#/a","a":{"$ref":"#/b"},"b":{"$ref":"#/c"},"c":{"$ref":"#/d"},"d":{"$ref":"#/e"},"e":{"$ref":"#/f"},"f":{"$ref":"#/g"},"g":{"$ref":"#/h"},"h":{"$ref":"#/i"},"i":{"$ref":"#/j"},"j":{"$ref":"#/k"},"k":{"$ref":"#/l"},"l":{"$ref":"#/m"},"m":{"$ref":"#/n"},"n":{"$ref":"#/o"},"o":{"$ref":"#/p"},"p":{"type":"integer"}} | "x" | false # by #/p/type
{"$defs":{"a":{"$ref":"#/$defs/a"}},"type":"integer"} | 5 | true"##;

#[test]
fn documents_that_are_built(rt: HostRuntime) -> Result<(), Fail> {
    expect_rows(rt.alloc(), BUILT, answer)
}

// ---- documents that are refused

fn text_of(alloc: Global, error: &ValidationError<'_>) -> Result<String, AllocError> {
    let message = error.message(alloc)?;
    let text = format!(in alloc; "#{} {message}", error.schema_path());
    drop(message);
    text
}

fn refused(alloc: Global, document: &Value) -> Result<String, Fail> {
    match compiled(alloc, document) {
        Err(BuildError::Refused(error)) => Ok(text_of(alloc, &error)?),
        Err(BuildError::Memory(error)) => Err(Fail::from(error)),
        Ok(_node) => Err(Fail::from("not refused")),
    }
}

/// `DOCUMENT`.
fn refusal(alloc: Global, row: &str) -> Result<String, Fail> {
    let document = Value::from_str(alloc, row)?;
    refused(alloc, &document)
}

// A reference that names no place, by RFC 6901, and one that leads back to itself or stands behind
// sixteen others, is refused where it is written. So are a percent sign, a name behind `#` and
// another document.
const REFUSED: &str =
    r##"{"properties":{"foo":{"$ref":"#"}},"additionalProperties":false} | #/properties/foo/$ref "$ref" is not supported here
{"$ref":"#/$defs/a","$defs":{"a":{"items":{"$ref":"#/$defs/b"}},"b":{"not":{"$ref":"#/$defs/a"}}}} | #/$defs/b/not/$ref "$ref" is not supported here
{"$ref":"#/a","a":{"$ref":"#/b"},"b":{"$ref":"#/c"},"c":{"$ref":"#/d"},"d":{"$ref":"#/e"},"e":{"$ref":"#/f"},"f":{"$ref":"#/g"},"g":{"$ref":"#/h"},"h":{"$ref":"#/i"},"i":{"$ref":"#/j"},"j":{"$ref":"#/k"},"k":{"$ref":"#/l"},"l":{"$ref":"#/m"},"m":{"$ref":"#/n"},"n":{"$ref":"#/o"},"o":{"$ref":"#/p"},"p":{"$ref":"#/q"},"q":{"type":"integer"}} | #/p/$ref "$ref" is not supported here
{"$ref":"#/$defs/b","$defs":{"a":true}} | #/$ref "$ref" is not supported here
{"$ref":"#/$defs/a","$defs":{"a":{"items":{"$ref":"#/nowhere"}}}} | #/$defs/a/items/$ref "$ref" is not supported here
{"prefixItems":[true,{"$ref":"#/prefixItems/2"}]} | #/prefixItems/1/$ref "$ref" is not supported here
{"$ref":"#/$defs/percent%25field","$defs":{"percent%field":true}} | #/$ref "$ref" is not supported here
{"$ref":"#name","$defs":{"a":{"$anchor":"name"}},"name":true} | #/$ref "$ref" is not supported here
{"$ref":"$defs/a","$defs":{"a":true}} | #/$ref "$ref" is not supported here
{"$ref":"#/$defs","$defs":[true]} | #/$defs [true] is not of types "boolean", "object"
{"$ref":"#/$defs/a","$defs":{"a":{"items":{"required":5}}}} | #/$defs/a/items/required 5 is not of type "array"
{"$ref":5} | #/$ref 5 is not of type "string""##;

#[test]
fn documents_that_are_refused(rt: HostRuntime) -> Result<(), Fail> {
    expect_rows(rt.alloc(), REFUSED, refusal)
}
