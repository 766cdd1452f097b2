//! Evaluations, and their entries: the flag, the errors and the annotations.
ghost use Rattle.std.specs.Prelude.{◌≡◌, ◌++◌, IfOk, OnOk, map};
ghost use Rattle.olk_spec.specs.Tree.{errors, annotations, is_valid};
ghost use Rattle.olk_reports.specs.Evaluations.{tree_of};
ghost use Rattle.olk_reports.specs.Entries.{error_of, annotation_of, own_errors, own_annotations};

use crate::evaluation::{ErrorDescription, EvaluationNode};
use std::alloc::{AllocError, Global};

/// Whether a value is valid: the flag output (JSON Schema 2020-12 Core, 12.4.1).
#[derive(Drop)]
pub struct EvaluationFlag {
    pub valid: bool,
}

/// An error with its place in the schema and in the instance.
#[derive(Drop)]
pub struct ErrorEntry<'a> {
    pub schema_location: &'a str,
    pub instance_location: &'a str,
    pub error: &'a ErrorDescription<'a>,
}

/// An annotation with its place in the schema and in the instance.
#[derive(Drop)]
pub struct AnnotationEntry<'a> {
    pub schema_location: &'a str,
    pub instance_location: &'a str,
    pub annotations: &'a [&'a str],
}

/// What a schema shows of a value: a tree of nodes.
#[derive(Drop)]
pub struct Evaluation<'a> {
    root: EvaluationNode<'a>,
}

impl<'a> Evaluation<'a> {
    ghost use Rattle.olk_reports.specs.Entries.{evaluated};

    /// The tree with this root.
    pub fn new(root: EvaluationNode<'a>) -> Self
        ensures { evaluated result ≡ tree_of root.entry }
    {
        Evaluation { root }
    }

    /// The root of the tree.
    pub fn root(&self) -> &EvaluationNode<'a>
        ensures { tree_of result.now ≡ evaluated self.now }
    {
        &self.root
    }

    /// Whether the root is valid.
    pub fn flag(&self) -> EvaluationFlag
        ensures { result.valid ≡ is_valid (evaluated self.now) }
    {
        EvaluationFlag {
            valid: self.root.valid(),
        }
    }

    /// Every error in the tree, parents first and children in order.
    ///
    /// Without memory there is no list.
    pub fn iter_errors(&self, alloc: Global) -> Result<Vec<ErrorEntry<'_>>, AllocError>
        ensures { IfOk result (λ es. map error_of es.items ≡ errors (evaluated self.now)) }
    {
        let mut entries = Vec::new(alloc);
        push_errors(&self.root, &mut entries)?;
        Ok(entries)
    }

    /// Every annotation that the tree shows, parents first and children in order.
    ///
    /// Without memory there is no list.
    pub fn iter_annotations(&self, alloc: Global) -> Result<Vec<AnnotationEntry<'_>>, AllocError>
        ensures { IfOk result (λ es. map annotation_of es.items
            ≡ annotations (evaluated self.now)) }
    {
        let mut entries = Vec::new(alloc);
        push_annotations(&self.root, &mut entries)?;
        Ok(entries)
    }
}

fn push_own_errors<'b, 'a>(
    node: &'b EvaluationNode<'a>,
    entries: &mut Vec<ErrorEntry<'b>>,
) -> Result<(), AllocError>
    ensures { OnOk result (map error_of entries.new.items
        ≡ map error_of entries.old.items ++ own_errors (tree_of node.now)) }
{
    for error in node.errors() {
        entries.push(ErrorEntry {
            schema_location: node.schema_path(),
            instance_location: node.instance_path(),
            error,
        })?;
    }
    Ok(())
}

fn push_errors<'b, 'a>(
    node: &'b EvaluationNode<'a>,
    entries: &mut Vec<ErrorEntry<'b>>,
) -> Result<(), AllocError>
    ensures { OnOk result (map error_of entries.new.items
        ≡ map error_of entries.old.items ++ errors (tree_of node.now)) }
{
    push_own_errors(node, entries)?;
    for child in node.children() {
        push_errors(child, entries)?;
    }
    Ok(())
}

fn push_own_annotation<'b, 'a>(
    node: &'b EvaluationNode<'a>,
    entries: &mut Vec<AnnotationEntry<'b>>,
) -> Result<(), AllocError>
    ensures { OnOk result (map annotation_of entries.new.items
        ≡ map annotation_of entries.old.items ++ own_annotations (tree_of node.now)) }
{
    if let Some(annotations) = node.annotation() {
        entries.push(AnnotationEntry {
            schema_location: node.schema_path(),
            instance_location: node.instance_path(),
            annotations,
        })?;
    }
    Ok(())
}

fn push_annotations<'b, 'a>(
    node: &'b EvaluationNode<'a>,
    entries: &mut Vec<AnnotationEntry<'b>>,
) -> Result<(), AllocError>
    ensures { OnOk result (map annotation_of entries.new.items
        ≡ map annotation_of entries.old.items ++ annotations (tree_of node.now)) }
{
    push_own_annotation(node, entries)?;
    for child in node.children() {
        push_annotations(child, entries)?;
    }
    Ok(())
}
