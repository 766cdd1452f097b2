//! Schemas of several files.
use olk_base_tests::tables::{expect_rows, two};
use olk_drafts::{Draft, Source, add_file, translate};
use serde_json::{Map, Value};
use std::alloc::{AllocError, Global};
use std::collections::BTreeSet;
use std::test::Fail;

fn three_files(alloc: Global) -> Result<BTreeSet<String>, AllocError> {
    let mut files = BTreeSet::new(alloc);
    files.insert(String::from_str(alloc, "a/b.json")?)?;
    files.insert(String::from_str(alloc, "a/c~d.json")?)?;
    files.insert(String::from_str(alloc, "not")?)?;
    Ok(files)
}

fn reference_read(alloc: Global, cells: &str) -> Result<String, Fail> {
    let (file, text) = two(cells);
    let files = three_files(alloc)?;
    let source = Source {
        draft: Draft::Draft7,
        file: if file == "main" { "" } else { file },
        main: "main.json",
        files: &files,
    };
    Ok(source.reference(alloc, text)?)
}

/// Each row is a file, a reference of it, and how the document has it (RFC 3986, 5.2; RFC 6901, 3).
const REFERENCES: &str = r##"main | # | #
main | #/$defs/a | #/$defs/a
main | #a | #a
main | a/b.json | #/a~1b.json
main | a/b.json# | #/a~1b.json
main | ./a/b.json#/$defs/a~1b | #/a~1b.json/$defs/a~1b
main | a/b.json#c | a/b.json#c
main | b.json | b.json
main | not | not
main | main.json#/$defs/a | #/$defs/a
main | http://a.example/a/b.json | http://a.example/a/b.json
a/b.json | # | #/a~1b.json
a/b.json | #/$defs/a | #/a~1b.json/$defs/a
a/b.json | #a | #a
a/b.json | c~d.json#/$defs/a | #/a~1c~0d.json/$defs/a
a/b.json | b.json | #/a~1b.json
a/b.json | a/b.json | a/b.json
a/b.json | ../main.json | ../main.json
main | ../a/b.json | ../a/b.json
main | /a/b.json | /a/b.json
main | a//b.json | a//b.json
main | a/b%2ejson | a/b%2ejson
main | a/b.json?c | a/b.json?c"##;

#[test]
fn references(rt: HostRuntime) -> Result<(), Fail> {
    expect_rows(rt.alloc(), REFERENCES, reference_read)
}

fn named(alloc: Global, schema: &str) -> Result<String, Fail> {
    let schema = Value::from_str(alloc, schema)?;
    let files = BTreeSet::new(alloc);
    let source = Source {
        draft: Draft::Draft7,
        file: "a/b.json",
        main: "main.json",
        files: &files,
    };
    let names = source.files_named(alloc, &schema)?;
    if names.is_empty() {
        return Ok(String::from_str(alloc, "none")?);
    }
    Ok(names.join(alloc, " ")?)
}

/// Each row is a schema of the file `a/b.json` and the files that it names.
const NAMED: &str = r##"{"$ref":"c.json"} | a/c.json
{"$ref":"#/definitions/a"} | a/b.json
{"$ref":5} | none
{"items":[{"$ref":"c.json#/definitions/x"},{"$ref":"d.json"}],"not":{"$ref":"c.json"}} | a/c.json a/d.json a/c.json
{"definitions":{"x":{"$ref":"d/e.json#"}}} | a/d/e.json
{"enum":[{"$ref":"c.json"}],"default":{"$ref":"c.json"}} | none
{"x":{"$ref":"c.json"}} | a/c.json
{"$ref":"../c.json"} | none
{"$ref":"./c"} | a/c
{"$ref":"c.json#a"} | none
{"$ref":"http://a.example/c.json"} | none"##;

#[test]
fn files_named(rt: HostRuntime) -> Result<(), Fail> {
    expect_rows(rt.alloc(), NAMED, named)
}

fn one_member(alloc: Global) -> Result<Map<String, Value>, AllocError> {
    let mut document = Map::new(alloc);
    document.insert(String::from_str(alloc, "$ref")?, Value::Null)?;
    Ok(document)
}

fn added(alloc: Global, cells: &str) -> Result<String, Fail> {
    let (file, schema) = two(cells);
    let schema = Value::from_str(alloc, schema)?;
    let mut document = one_member(alloc)?;
    let is_added = add_file(alloc, &mut document, file, schema)?;
    let text = Value::Object(document).to_string(alloc)?;
    Ok(format!(in alloc; "{is_added} {text}")?)
}

/// Each row is a file, its schema, whether it was put, and the document then.
const ADDED: &str = r##"a.json | {"type":"string"} | true {"$ref":null,"a.json":{"type":"string"}}
$ref | true | false {"$ref":null}"##;

#[test]
fn files_added(rt: HostRuntime) -> Result<(), Fail> {
    expect_rows(rt.alloc(), ADDED, added)
}
