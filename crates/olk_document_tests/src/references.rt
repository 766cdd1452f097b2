//! The references that are read in schemas.
use olk_base_tests::tables::expect_rows;
use olk_document_build::references_read;
use serde_json::Value;
use std::alloc::Global;
use std::test::Fail;

fn texts_of(alloc: Global, schema: &str) -> Result<String, Fail> {
    let schema = Value::from_str(alloc, schema)?;
    let mut texts = Vec::new(alloc);
    references_read(&schema, &mut texts)?;
    if texts.is_empty() {
        return Ok(String::from_str(alloc, "none")?);
    }
    Ok(texts.join(alloc, " ")?)
}

/// Each row is a schema and the texts that are read in it, in order.
const ROWS: &str = r##"true | none
"#/a" | none
[{"$ref":"#/a"}] | none
{"$ref":"#/a"} | #/a
{"$ref":5} | none
{"$ref":{"$ref":"#/a"}} | none
{"b":{"$ref":"#/a"},"$defs":{"c":{"$ref":"#/b"}}} | none
{"const":{"$ref":"#/a"},"enum":[{"$ref":"#/b"}],"default":{"$ref":"#/c"}} | none
{"$ref":"#/a","items":{"$ref":"#/b"},"contains":{"$ref":"#/a"}} | #/a #/a #/b
{"properties":{"y":{"$ref":"#/a"},"x":{"$ref":"#/b"}}} | #/b #/a
{"properties":{"$ref":{"$ref":"#/a"}}} | #/a
{"properties":[{"$ref":"#/a"}]} | none
{"patternProperties":{"^x":{"$ref":"#/a"}}} | #/a
{"additionalProperties":{"$ref":"#/a"}} | #/a
{"additionalProperties":[{"$ref":"#/a"}]} | none
{"propertyNames":{"$ref":"#/a"}} | #/a
{"propertyNames":false} | none
{"required":["$ref"],"dependentRequired":{"$ref":["#/a"]}} | none
{"dependentSchemas":{"a":{"$ref":"#/a"}}} | #/a
{"dependencies":{"a":{"$ref":"#/a"},"b":["$ref"],"c":{"$ref":"#/c"}}} | #/a #/c
{"propertyDependencies":{"a":{"x":{"$ref":"#/a"},"y":{"$ref":"#/b"}},"b":{"z":{"$ref":"#/c"}}}} | #/a #/b #/c
{"propertyDependencies":{"$ref":"#/a"}} | none
{"allOf":[{"$ref":"#/a"},true,{"$ref":"#/b"}],"anyOf":[{"$ref":"#/c"}],"oneOf":[{"$ref":"#/d"}]} | #/a #/b #/c #/d
{"allOf":{"a":{"$ref":"#/a"}}} | none
{"not":{"$ref":"#/a"}} | #/a
{"not":{"not":{"$ref":"#/a"}}} | #/a
{"if":{"$ref":"#/a"}} | none
{"if":{"$ref":"#/a"},"then":{"$ref":"#/b"}} | #/a #/b
{"if":{"$ref":"#/a"},"else":{"$ref":"#/b"}} | #/b #/a
{"then":{"$ref":"#/a"},"else":{"$ref":"#/b"}} | none
{"if":true,"then":{"$ref":"#/a"},"else":{"$ref":"#/b"}} | #/b #/a
{"prefixItems":[{"$ref":"#/a"},{"items":{"$ref":"#/b"}}]} | #/a #/b
{"items":[{"$ref":"#/a"}]} | none
{"minContains":{"$ref":"#/a"},"maxContains":{"$ref":"#/b"}} | none
{"unevaluatedItems":{"$ref":"#/a"},"unevaluatedProperties":{"$ref":"#/b"},"$dynamicRef":"#/c"} | none
{"properties":{"a":{"allOf":[{"not":{"contains":{"$ref":"#/a/b~1c"}}}]}}} | #/a/b~1c"##;

#[test]
fn references(rt: HostRuntime) -> Result<(), Fail> {
    expect_rows(rt.alloc(), ROWS, texts_of)
}
