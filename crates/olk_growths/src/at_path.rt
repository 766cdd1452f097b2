//! The calls that are handed a path.
use crate::TRIES;
use object_logic::{
    Errors, Evaluate, InstancePath, Leaf, Node, RegexEngine, SchemaNode, ValidateError,
    ValidationContext,
};
use serde_json::Value;
use std::io;

/// Makes each of them at one path, and tells the path behind the last one.
pub(crate) fn ask_at_path<'a, K: Leaf, R: RegexEngine>(
    rt: &HostRuntime,
    node: &'a SchemaNode<K, R>,
    instance: &'a Value,
) -> io::Result<()> {
    let mut path = InstancePath::new(rt.alloc());
    validate(rt, node, instance, &mut path)?;
    collect_errors(rt, node, instance, &mut path)?;
    evaluate(rt, node, instance, &mut path)?;
    println!(rt; "at {:?}", path.as_str())
}

fn validate<'a, K: Leaf, R: RegexEngine>(
    rt: &HostRuntime,
    node: &'a SchemaNode<K, R>,
    instance: &'a Value,
    path: &mut InstancePath,
) -> io::Result<()> {
    let mut ctx = ValidationContext::new(true);
    for _ in 0..TRIES {
        println!(rt; "validate, at {:?}", path.as_str())?;
        match node.validate(rt.alloc(), Node::Value(instance), path, &mut ctx) {
            Err(ValidateError::Memory(_)) => println!(rt; "out of memory")?,
            _ => return Ok(()),
        }
    }
    Ok(())
}

fn collect_errors<'a, K: Leaf, R: RegexEngine>(
    rt: &HostRuntime,
    node: &'a SchemaNode<K, R>,
    instance: &'a Value,
    path: &mut InstancePath,
) -> io::Result<()> {
    let mut ctx = ValidationContext::new(true);
    let mut errors = Vec::new(rt.alloc());
    for _ in 0..TRIES {
        println!(rt; "collect_errors, at {:?}", path.as_str())?;
        let at = Node::Value(instance);
        match node.collect_errors(rt.alloc(), at, path, &mut ctx, &mut errors) {
            Err(_) => println!(rt; "out of memory")?,
            Ok(()) => return Ok(()),
        }
    }
    Ok(())
}

fn evaluate<'a, K: Leaf, R: RegexEngine>(
    rt: &HostRuntime,
    node: &'a SchemaNode<K, R>,
    instance: &'a Value,
    path: &mut InstancePath,
) -> io::Result<()> {
    let mut ctx = ValidationContext::new(true);
    for _ in 0..TRIES {
        println!(rt; "evaluate, at {:?}", path.as_str())?;
        match node.evaluate(rt.alloc(), Node::Value(instance), path, &mut ctx) {
            Err(_) => println!(rt; "out of memory")?,
            Ok(_) => return Ok(()),
        }
    }
    Ok(())
}
