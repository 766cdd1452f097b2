//! Requests, with the answers that docs/REQUESTS.md and docs/DEFINITIONS.md give them: each over
//! memory.
use crate::program::run;
use std::alloc::Global;
use std::test::Fail;

/// The input is answered by these bytes, with status 0.
fn expect_answers(alloc: Global, input: &[u8], wanted: &[u8]) -> Result<(), Fail> {
    let mut reader = input;
    let mut written = Vec::new(alloc);
    let status = run(alloc, &mut reader, &mut written);
    if status == 0 && written.as_slice() == wanted {
        Ok(())
    } else {
        let found = written.as_slice().escape_ascii();
        Err(Fail::new(format_args!("status {status}, found `{found}`")))
    }
}

/// The row's request is answered by its answer, in one line.
fn expect_row(alloc: Global, row: &str) -> Result<(), Fail> {
    let (request, answer) = row.split_once(" => ").unwrap_or((row, ""));
    let line = format!(in alloc; "{answer}\n")?;
    let expected = expect_answers(alloc, request.as_bytes(), line.as_bytes());
    drop(line);
    expected
}

fn expect_rows(alloc: Global, rows: &str) -> Result<(), Fail> {
    for row in rows.lines() {
        expect_row(alloc, row)?;
    }
    Ok(())
}

// Lines that ask nothing.
const REFUSED: &str = r##"{ => {"refused":"not JSON"}
{"ask":"valid","schema":{} => {"refused":"not JSON"}
{"ask":"valid","schema":true,"instance":[[[[[[[[[[[[[[[[[[[[[[[[[[[[[[[[[[[[[[[[[[[[[[[[[[[[[[[[[[[[[[[[[[[[[[[[[[[[[[[[[[[[[[[[[[[[[[[[[[[[[[[[[[[[[[[[[[[[[[[[[[[[[[[[[[[[[[[[[[[[[[[[[[[[[[[[[[[[[[[[[[[[[[[[[[[[[[[[[[[[[[[[[[[[[[[[[[[[[[[[]]]]]]]]]]]]]]]]]]]]]]]]]]]]]]]]]]]]]]]]]]]]]]]]]]]]]]]]]]]]]]]]]]]]]]]]]]]]]]]]]]]]]]]]]]]]]]]]]]]]]]]]]]]]]]]]]]]]]]]]]]]]]]]]]]]]]]]]]]]]]]]]]]]]]]]]]]]]]]]]]]]]]]]]]]]]]]]]]]]]]]]]]]]]]]]]]]]]]]]]} => {"refused":"not JSON"}
{"ask":"valid","schema":true,"instance":1e400} => {"refused":"not JSON"}
[] => {"refused":"not a request"}
{"ask":"valid","schema":true} => {"refused":"not a request"}
{"ask":"all","instance":1,"schema":true} => {"refused":"not a request"}
{"ask":"valid","instance":1,"schema":true,"unfinished":0} => {"refused":"not a request"}
{"ask":"valid","instance":1,"schema":true,"strict":true} => {"refused":"not a request"}
{"ask":"valid","instance":[1.5],"schema":true} => {"refused":"a number is not a whole number of 64 bits"}
{"ask":"valid","instance":1,"schema":{"other":-0}} => {"refused":"a number is not a whole number of 64 bits"}
{"ask":"valid","schema":true,"instance":18446744073709551616} => {"refused":"a number is not a whole number of 64 bits"}
{"ask":"valid","schema":18446744073709551616,"instance":null} => {"refused":"a number is not a whole number of 64 bits"}
{"ask":"valid","schema":true,"instance":1.0} => {"refused":"a number is not a whole number of 64 bits"}
{"ask":"valid","schema":1.0,"instance":null} => {"refused":"a number is not a whole number of 64 bits"}
{"ask":"valid","schema":true,"instance":1e2} => {"refused":"a number is not a whole number of 64 bits"}
{"ask":"valid","schema":1e2,"instance":null} => {"refused":"a number is not a whole number of 64 bits"}
{"ask":"valid","instance":1,"schema":{"properties":5}} => {"refused":"5 is not of type \"object\"","schemaPath":"/properties"}
{"ask":"valid","schema":{"allOf":[5]},"instance":1} => {"refused":"5 is not of types \"boolean\", \"object\"","schemaPath":"/allOf/0"}
{"ask":"valid","schema":{"type":"text"},"instance":1} => {"refused":"\"text\" is not a value for \"type\"","schemaPath":"/type"}
{"ask":"errors","instance":1,"schema":{"allOf":[{"$ref":"#"}]}} => {"refused":"\"$ref\" is not supported here","schemaPath":"/allOf/0/$ref"}"##;

#[test]
fn lines_that_ask_nothing(rt: HostRuntime) -> Result<(), Fail> {
    expect_rows(rt.alloc(), REFUSED)
}

// Each ask, of a value that is accepted and of one that is refused, and both answers for a match
// that is left unfinished.
const ASKED: &str =
    r#"{"ask":"valid","schema":{"allOf":[{}],"properties":{"a":{"type":"integer"}}},"instance":{"a":"x"}} => {"valid":false}
{"ask":"valid","schema":{"allOf":[{}],"properties":{"a":{"type":"integer"}}},"instance":{"a":1}} => {"valid":true}
{"ask":"first","schema":{"properties":{"a":false}},"instance":{"b":1}} => {"valid":true}
{"ask":"first","schema":{"not":{"type":"string"}},"instance":"foo"} => {"error":{"instancePath":"","message":"{\"type\":\"string\"} is not allowed for \"foo\"","schemaPath":"/not"},"valid":false}
{"ask":"errors","schema":{"required":["b"]},"instance":{"b":1}} => {"errors":[],"valid":true}
{"ask":"errors","schema":{"properties":{"a":{"type":"integer"}},"required":["b"]},"instance":{"a":"x"}} => {"errors":[{"instancePath":"","message":"\"b\" is a required property","schemaPath":"/required"},{"instancePath":"/a","message":"\"x\" is not of type \"integer\"","schemaPath":"/properties/a/type"}],"valid":false}
{"ask":"evaluate","schema":{"properties":{"a":{}}},"instance":{"a":1}} => {"annotations":[{"instancePath":"","names":["a"],"schemaPath":"/properties"}],"errors":[],"valid":true}
{"ask":"evaluate","schema":{"properties":{"a":false}},"instance":{"a":1}} => {"annotations":[],"errors":[{"instancePath":"/a","keyword":"falseSchema","message":"False schema does not allow 1","schemaPath":"/properties/a"}],"valid":false}
{"ask":"valid","schema":{"patternProperties":{"(slow)x":false}},"instance":{"x":1}} => {"valid":true}
{"ask":"valid","schema":{"patternProperties":{"(slow)x":false}},"instance":{"x":1},"unfinished":false} => {"valid":true}
{"ask":"valid","schema":{"patternProperties":{"(slow)x":false}},"instance":{"x":1},"unfinished":true} => {"valid":false}
{"ask":"valid","schema":true,"instance":18446744073709551615} => {"valid":true}
{"ask":"valid","schema":true,"instance":[[[[[[[[[[[[[[[[[[[[[[[[[[[[[[[[[[[[[[[[[[[[[[[[[[[[[[[[[[[[[[[[[[[[[[[[[[[[[[[[[[[[[[[[[[[[[[[[[[[[]]]]]]]]]]]]]]]]]]]]]]]]]]]]]]]]]]]]]]]]]]]]]]]]]]]]]]]]]]]]]]]]]]]]]]]]]]]]]]]]]]]]]]]]]]]]]]]]]]]]} => {"valid":true}
{"ask":"valid","ask":"errors","schema":false,"schema":true,"instance":1} => {"errors":[],"valid":true}"#;

#[test]
fn each_ask(rt: HostRuntime) -> Result<(), Fail> {
    expect_rows(rt.alloc(), ASKED)
}

// Names that begin alike, a required name that is first or that nothing else wants, and what branches
// and names show.
const OF_KEYWORDS: &str =
    r#"{"ask":"valid","schema":{"properties":{"prefix0003suffix00":false,"prefix0004suffix00":true}},"instance":{"prefix0004suffix00":0}} => {"valid":true}
{"ask":"valid","schema":{"properties":{"prefix0003suffix00":false,"prefix0004suffix00":true}},"instance":{"prefix0003suffix00":0}} => {"valid":false}
{"ask":"first","schema":{"properties":{"a":{"type":"integer"},"b":{"type":"string"}},"required":["a","b"]},"instance":{"a":"x"}} => {"error":{"instancePath":"","message":"\"b\" is a required property","schemaPath":"/required"},"valid":false}
{"ask":"evaluate","schema":{"properties":{"a":{"type":"integer"},"b":{"type":"string"}},"required":["a","b"]},"instance":{"a":1,"b":"x"}} => {"annotations":[{"instancePath":"","names":["a","b"],"schemaPath":"/properties"}],"errors":[],"valid":true}
{"ask":"evaluate","schema":{"properties":{"a":{}},"additionalProperties":false,"required":["z"]},"instance":{}} => {"annotations":[],"errors":[{"instancePath":"","keyword":"required","message":"\"z\" is a required property","schemaPath":"/required"}],"valid":false}
{"ask":"evaluate","schema":{"oneOf":[{"type":"string"},{"maxLength":3}]},"instance":""} => {"annotations":[],"errors":[{"instancePath":"","keyword":"oneOf","message":"more than one subschema succeeded","schemaPath":"/oneOf"}],"valid":false}
{"ask":"evaluate","schema":{"additionalProperties":{"type":"integer"},"patternProperties":{"^x":{}}},"instance":{"x1":"t","y":2}} => {"annotations":[{"instancePath":"","names":["y"],"schemaPath":"/additionalProperties"},{"instancePath":"","names":["x1"],"schemaPath":"/patternProperties"}],"errors":[],"valid":true}
{"ask":"evaluate","schema":{"anyOf":[]},"instance":1} => {"annotations":[],"errors":[],"valid":false}
{"ask":"evaluate","schema":{"oneOf":[]},"instance":1} => {"annotations":[],"errors":[],"valid":false}"#;

#[test]
fn asks_of_keywords(rt: HostRuntime) -> Result<(), Fail> {
    expect_rows(rt.alloc(), OF_KEYWORDS)
}

/// Lines are answered in their order, an empty one too, and one that is no text; the last one needs no
/// line feed.
#[test]
fn several_lines(rt: HostRuntime) -> Result<(), Fail> {
    let input = concat!(
        r#"{"ask":"valid","schema":{"const":1},"instance":1}"#,
        "\n\n",
        r#"{"ask":"valid","schema":{"const":1},"instance":2}"#
    );
    let answers = "{\"valid\":true}\n{\"refused\":\"not JSON\"}\n{\"valid\":false}\n";
    expect_answers(rt.alloc(), input.as_bytes(), answers.as_bytes())?;
    expect_answers(rt.alloc(), b"", b"")?;
    expect_answers(rt.alloc(), b"\xff", b"{\"refused\":\"not JSON\"}\n")
}
