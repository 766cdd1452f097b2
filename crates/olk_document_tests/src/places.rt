//! The places of a document that the texts of references name.
use olk_base_tests::tables::expect_rows;
use olk_document_meaning::pointers::place_named;
use serde_json::Value;
use std::alloc::Global;
use std::test::Fail;

const DOCUMENT: &str =
    r##"{"":"empty","a/b":"slash","m~n":"tilde","~1":"tilde one","~0":"tilde zero","/":"only a slash","~":"only a tilde","/0":"slash zero","~/":"tilde slash","//":"two slashes","~~":"two tildes","~01":"as it is written","a~1b":"as a segment writes it","é/ü":"beyond ASCII","plain":"plain","list":["first",{"a/b":"in a list","":"empty in a list"}],"in":{"a/b":{"m~n":{"0":"deep","":"deep empty"}}},"/list":["first behind a slash"],"text":"a text"}"##;

fn place(alloc: Global, text: &str) -> Result<String, Fail> {
    let document = Value::from_str(alloc, DOCUMENT)?;
    match place_named(alloc, &document, text)? {
        Some(place) => Ok(place.to_string(alloc)?),
        None => Ok(String::from_str(alloc, "none")?),
    }
}

/// Each row is a text and the value at the place that it names, by RFC 6901.
const ROWS: &str = r##"#/ | "empty"
#/a~1b | "slash"
#/m~0n | "tilde"
#/~01 | "tilde one"
#/~00 | "tilde zero"
#/~1 | "only a slash"
#/~0 | "only a tilde"
#/~10 | "slash zero"
#/~0~1 | "tilde slash"
#/~1~1 | "two slashes"
#/~0~0 | "two tildes"
#/~001 | "as it is written"
#/a~01b | "as a segment writes it"
#/é~1ü | "beyond ASCII"
#/plain | "plain"
#/a/b | none
#/list/1/a~1b | "in a list"
#/list/1/ | "empty in a list"
#/~1list/0 | "first behind a slash"
#/~1list/00 | none
#/~1list/+0 | none
#/~1list/- | none
#/~1list/1 | none
#/~1list/~0 | none
#/~1list/ | none
#/~1list/0/~1 | none
#/in/a~1b/m~0n/0 | "deep"
#/in/a~1b/m~0n/ | "deep empty"
#/in/a~1b/m~0n | {"":"deep empty","0":"deep"}
#/in/a~1b/m~0n/1 | none
#/text/~1 | none
#/~1/~0 | none
#/~1x | none
#/x~1 | none
#/~ | none
#/~2 | none
#/m~n | none
#/~~0 | none
#/~0~ | none
#/m~0n/~ | none
#/~1list/0~ | none
#~1 | none
#a~1b | none
#~0 | none
/~1 | none
~1 | none
#/%7E1 | none
#/~1% | none
#/~01%25 | none"##;

#[test]
fn places(rt: HostRuntime) -> Result<(), Fail> {
    expect_rows(rt.alloc(), ROWS, place)
}
