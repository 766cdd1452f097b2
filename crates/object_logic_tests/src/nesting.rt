//! Branches in branches: what is asked before it is told costs no more than the square of the
//! depth.
use crate::found::Found;
use crate::rows::{Form, Table, constant, expect};
use serde_json::Value;
use std::alloc::{AllocError, Global};
use std::mem::replace;
use std::test::Fail;

/// The place of the first branch of `anyOf`.
fn first_branch(schema: &mut Value) -> Option<&mut Value> {
    schema.get_mut("anyOf")?.get_mut(0)
}

/// Puts a schema into the first branch of another.
fn wrap(schema: &mut Value, outer: Value) {
    let inner = replace(schema, outer);
    if let Some(place) = first_branch(schema) {
        *place = inner;
    }
}

/// A hundred times a schema, each in the first branch of the one before, around a leaf that refuses
/// numbers.
fn nested(alloc: Global, outer: &str) -> Result<Value, AllocError> {
    let mut schema = constant(alloc, r#"{"type":"string"}"#)?;
    for _ in 0..100 {
        wrap(&mut schema, constant(alloc, outer)?);
    }
    Ok(schema)
}

/// What is found with the schema of a hundred branches of one branch or of two, of which an
/// evaluation lists so many errors.
#[derive(Drop)]
struct HundredBranches;

impl Form for HundredBranches {
    fn answer(
        &self,
        alloc: Global,
        errors: &Value,
        instance: &Value,
    ) -> Result<String, AllocError> {
        let errors = errors.as_u64();
        let outer = if errors == Some(1) {
            ONE_BRANCH
        } else {
            TWO_BRANCHES
        };
        let schema = nested(alloc, outer)?;
        let found = Found::AndShown(errors).answer(alloc, &schema, instance);
        drop(schema);
        found
    }
}

const ONE_BRANCH: &str = r#"{"anyOf":[null]}"#;

// The second refuses numbers.
const TWO_BRANCHES: &str = r#"{"anyOf":[null,{"type":"null"}]}"#;

// How many errors an evaluation lists of a hundred branches of one branch or of two, an instance,
// and what is found.
const HUNDRED: &str =
    r#"1 | 1 | 1 is not valid under any of the schemas listed in the 'anyOf' keyword @ "", /anyOf {1 is not valid under any of the schemas listed in the 'anyOf' keyword @ "", /anyOf/0/anyOf;}
101 | 1 | 1 is not valid under any of the schemas listed in the 'anyOf' keyword @ "", /anyOf {1 is not valid under any of the schemas listed in the 'anyOf' keyword @ "", /anyOf/0/anyOf;} {1 is not of type "null" @ "", /anyOf/1/type;}
0 | "a" | accepted"#;

#[test]
fn a_hundred_branches(rt: HostRuntime) -> Result<(), Fail> {
    expect(&HundredBranches, rt.alloc(), Table::Asked(HUNDRED))
}
