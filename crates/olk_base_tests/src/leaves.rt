//! What leaves accept and tell, in every way of asking.
use crate::tables::two;
use olk_base::{Leaf, MakeError, MakeLeaf, Meter, Node};
use serde_json::Value;
use std::alloc::{AllocError, Global};
use std::test::Fail;

/// What `evaluate`, `collect_errors` and `validate` tell of the instance.
fn told_in_turn<L: Leaf>(
    alloc: Global,
    leaf: &L,
    node: Node<'_>,
) -> Result<Vec<String>, AllocError> {
    let mut told = leaf.evaluate(alloc, node)?;
    leaf.collect_errors(alloc, node, &mut told)?;
    if let Some(text) = leaf.validate(alloc, node)? {
        told.push(text)?;
    }
    Ok(told)
}

const DIFFER: &str = "the ways of asking differ";

fn are_same(one: &str, other: &str, third: &str) -> bool {
    one == other && other == third
}

/// The text that all of them tell, or `-` where none tells one.
fn one_text(told: &[String]) -> &str {
    match told {
        [] => "-",
        [one, other, third] if are_same(one, other, third) => one,
        _ => DIFFER,
    }
}

fn told<L: Leaf>(alloc: Global, leaf: &L, node: Node<'_>) -> Result<String, AllocError> {
    let told = told_in_turn(alloc, leaf, node)?;
    let is_agreed = leaf.is_valid(node) == told.is_empty();
    let text = if is_agreed { one_text(&told) } else { DIFFER };
    let text = String::from_str(alloc, text);
    drop(told);
    text
}

fn told_or_refused<M: MakeLeaf>(
    alloc: Global,
    leaves: &M,
    keyword: &str,
    value: &Value,
    instance: &Value,
) -> Result<String, AllocError> {
    match leaves.make(alloc, keyword, value, &mut Meter::new()) {
        Ok(leaf) if leaf.keyword() == keyword => told(alloc, &leaf, Node::Value(instance)),
        Ok(_) => String::from_str(alloc, "another keyword"),
        Err(MakeError::Refused) => String::from_str(alloc, "refused"),
        Err(MakeError::Memory(error)) => Err(error),
    }
}

/// A text that isn't JSON ends the test too.
fn read(alloc: Global, text: &str) -> Result<Value, AllocError> {
    match Value::from_str(alloc, text) {
        Ok(value) => Ok(value),
        Err(_) => Err(AllocError),
    }
}

fn told_of_values<M: MakeLeaf>(
    alloc: Global,
    leaves: &M,
    keyword: &str,
    value: &Value,
    instance: &str,
) -> Result<String, AllocError> {
    let instance = read(alloc, instance)?;
    let told = told_or_refused(alloc, leaves, keyword, value, &instance);
    drop(instance);
    told
}

/// What is told of a row's keyword, its value and an instance, or `-` where nothing is.
///
/// # Errors
///
/// Out of memory, or a cell isn't JSON.
pub fn told_of_row<M: MakeLeaf>(alloc: Global, leaves: &M, cells: &str) -> Result<String, Fail> {
    let (keyword, values) = two(cells);
    let (value, instance) = two(values);
    let value = read(alloc, value)?;
    let told = told_of_values(alloc, leaves, keyword, &value, instance);
    drop(value);
    Ok(told?)
}
