//! Nodes and what holds them, as text.
use crate::shown::Shown;
use olk_base::CompiledPattern;
use olk_tree::{Entries, RequiredValidator};
use std::alloc::AllocError;

/// Adds these parts in turn.
pub(crate) fn push_all(text: &mut String, parts: &[&str]) -> Result<(), AllocError> {
    for part in parts {
        text.push_str(part)?;
    }
    Ok(())
}

fn push_list(text: &mut String, list: &RequiredValidator) -> Result<(), AllocError> {
    text.push_str(" [")?;
    for name in &list.required {
        push_all(text, &[name.as_str(), ","])?;
    }
    text.push_str("]")
}

/// Where a node stands, and its names where it is a list.
pub(crate) fn push_node<N: Shown>(text: &mut String, node: &N) -> Result<(), AllocError> {
    push_all(text, &[" ", node.place()])?;
    match node.names() {
        Some(list) => push_list(text, list),
        None => Ok(()),
    }
}

fn push_named<N: Shown>(text: &mut String, name: &str, node: &N) -> Result<(), AllocError> {
    push_all(text, &[" ", name, ":"])?;
    push_node(text, node)
}

/// Each name with its node.
pub(crate) fn push_nodes<N: Shown>(
    text: &mut String,
    entries: Entries<'_, N>,
) -> Result<(), AllocError> {
    for (name, node) in entries.iter() {
        push_named(text, name, node)?;
    }
    Ok(())
}

fn pattern_form<R>(pattern: &CompiledPattern<R>) -> &'static str {
    match pattern {
        CompiledPattern::Prefix(_) => "prefix",
        CompiledPattern::Suffix(_) => "suffix",
        CompiledPattern::Exact(_) => "exact",
        CompiledPattern::Alternation(_) => "alternation",
        CompiledPattern::NoWhitespace => "no white space",
        CompiledPattern::Regex(_) => "engine",
    }
}

/// A pattern with its node.
pub(crate) fn push_pattern<R, N: Shown>(
    text: &mut String,
    pattern: &CompiledPattern<R>,
    node: &N,
) -> Result<(), AllocError> {
    push_all(text, &[" ", pattern_form(pattern), ":"])?;
    push_node(text, node)
}

/// Each pattern with its node.
pub(crate) fn push_patterns<R, N: Shown>(
    text: &mut String,
    patterns: &[(CompiledPattern<R>, N)],
) -> Result<(), AllocError> {
    for (pattern, node) in patterns {
        push_pattern(text, pattern, node)?;
    }
    Ok(())
}
