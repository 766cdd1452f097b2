//! What a validator shows of a value: results, and nodes that have their places.
ghost use Rattle.std.specs.Prelude.{◌≡◌, ◌∷◌, [], IfOk, OnOk, OnErr, Some, None, true, false, string_bytes, map, option_map};
ghost use Rattle.std.specs.List.{list_all};
ghost use Rattle.olk_base.specs.Nodes.{data_of};
ghost use Rattle.olk_spec.specs.Faults.{fault};
ghost use Rattle.olk_spec.specs.Names.{Path};
ghost use Rattle.olk_spec.specs.Tree.{errors, is_valid};
ghost use Rattle.olk_reports.specs.Evaluations.{tree_of};

use crate::PathText;
use crate::error::{ValidationError, ValidationErrorKind};
use olk_base::Node;
use std::alloc::{AllocError, Global};
use std::marker::Model;

/// An error as an evaluation shows it: the keyword and the message.
#[derive(Drop)]
pub struct ErrorDescription<'a> {
    keyword: &'a str,
    message: String,
}

impl<'a> ErrorDescription<'a> {
    ghost use Rattle.olk_reports.specs.Errors.{fault_of};
    ghost use Rattle.olk_reports.specs.Evaluations.{IsDescribedBy, described_of};

    /// The error of this keyword with this message.
    pub fn new(keyword: &'a str, message: String) -> Self
        ensures { described_of result ≡ (keyword.now, string_bytes message, false) }
    {
        ErrorDescription { keyword, message }
    }

    /// The error as an evaluation shows it: the name of its keyword, and its text.
    ///
    /// Of a number that is not a whole number of 64 bits no text is promised.
    ///
    /// # Errors
    ///
    /// Out of memory.
    pub fn from_validation_error(
        alloc: Global,
        error: &ValidationError<'a>,
    ) -> Result<Self, AllocError>
        ensures { IfOk result (λ e. IsDescribedBy (fault_of error.now) (described_of e)) }
    {
        let message = error.message(alloc)?;
        Ok(ErrorDescription::new(error.kind().keyword(), message))
    }

    /// The name of the keyword.
    pub fn keyword(&self) -> &str
        ensures { result.now ≡ (described_of self.now).0 }
    {
        self.keyword
    }

    /// The error in words.
    pub fn message(&self) -> &str
        ensures { result.now ≡ (described_of self.now).1 }
    {
        self.message.as_str()
    }
}

/// What a validator shows of a value: whether it is valid, an annotation, errors of its own and the
/// nodes below. A valid one has only valid nodes below.
#[derive(Drop)]
#[cycle(evaluation)]
pub struct EvaluationResult<'a> {
    valid: bool,
    annotation: Option<Vec<&'a str>>,
    errors: Vec<ErrorDescription<'a>>,
    children: Vec<EvaluationNode<'a>>,
}

impl<'a> Model for EvaluationResult<'a> {
    ghost use Rattle.std.specs.Prelude.{ℕ, map, option_map};
    ghost use Rattle.olk_reports.specs.Shown.{Shown, shown, IsConsistent, described_of, shown_size};
    ghost use Rattle.olk_reports.specs.Codes.{shown_code};

    ghost Value = { Shown };

    ghost coded = { shown_code };

    ghost use Rattle.olk_reports.specs.Evaluations.{tree_of};

    ghost view = { λ r. shown r.valid (option_map (λ ns. map (λ n. n.now) ns.items) r.annotation)
        (map described_of r.errors.items) (map tree_of r.children.items) };

    ghost invariant = { λ r. IsConsistent
        (shown r.valid (option_map (λ ns. map (λ n. n.now) ns.items) r.annotation)
        (map described_of r.errors.items) (map tree_of r.children.items)) };

    ghost size = { shown_size };

    ghost use Rattle.olk_reports.specs.Sizes.{children_are_less};

    ghost size_decreases = { λ r h. children_are_less r.children.items };
}

/// A result with its place in the schema and in the instance.
#[cycle(evaluation)]
pub struct EvaluationNode<'a> {
    schema_path: &'a str,
    instance_path: PathText,
    result: EvaluationResult<'a>,
}

// By hand, so that the crates above drop a node by one call.
impl Drop for EvaluationNode<'_> {
    fn drop(self) {
        let EvaluationNode {
            schema_path: _schema_path,
            instance_path: _instance_path,
            result: _result,
        } = self;
    }
}

impl<'a> EvaluationResult<'a> {
    ghost use Rattle.olk_reports.specs.Errors.{kind_of};
    ghost use Rattle.olk_reports.specs.Evaluations.{AddsErrors, IsConsistent, shown, shown_of, shown_valid, shown_annotation, shown_errors, shown_children, tree_of, described_of, nothing_shown, annotated, errored, with_children, with_names, called_invalid};

    /// Valid, with nothing to show.
    pub fn valid_empty(alloc: Global) -> Self
        ensures { shown_of result ≡ nothing_shown }
    {
        EvaluationResult {
            valid: true,
            annotation: None,
            errors: Vec::new(alloc),
            children: Vec::new(alloc),
        }
    }

    /// Valid exactly if all nodes below are.
    pub fn from_children(alloc: Global, children: Vec<EvaluationNode<'a>>) -> Self
        ensures { shown_of result
            ≡ shown (list_all is_valid (map tree_of children.entry.items)) None []
            (map tree_of children.entry.items) }
    {
        let valid = all_valid(children.as_slice());
        EvaluationResult {
            valid,
            annotation: None,
            errors: Vec::new(alloc),
            children,
        }
    }

    /// Invalid whatever the nodes below are, with no error of its own.
    pub fn invalid_with(alloc: Global, children: Vec<EvaluationNode<'a>>) -> Self
        ensures { shown_of result ≡ shown false None [] (map tree_of children.entry.items) }
    {
        EvaluationResult {
            valid: false,
            annotation: None,
            errors: Vec::new(alloc),
            children,
        }
    }

    /// What `from_children` gives of one.
    ///
    /// # Errors
    ///
    /// Out of memory.
    pub fn from_node(alloc: Global, node: EvaluationNode<'a>) -> Result<Self, AllocError>
        ensures { IfOk result (λ r. shown_of r
            ≡ shown (is_valid (tree_of node.entry)) None [] (tree_of node.entry ∷ [])) }
    {
        let mut children = Vec::with_capacity(alloc, 1)?;
        children.push(node)?;
        Ok(EvaluationResult::from_children(alloc, children))
    }

    /// Where its memory comes from.
    #[inline(always)]
    pub fn allocator(&self) -> Global {
        *self.errors.allocator()
    }

    /// Is invalid, whatever the nodes below are.
    pub fn mark_invalid(&mut self)
        ensures { shown_of self.new ≡ called_invalid (shown_of self.old) }
    {
        self.valid = false;
    }

    #[inline(always)]
    fn valid(&self) -> bool
        ensures { result ≡ shown_valid (shown_of self.now) }
    {
        self.valid
    }

    /// The names that a valid node annotates.
    #[inline(always)]
    fn annotation(&self) -> Option<&[&'a str]>
        ensures { option_map (λ ns. map (λ n. n.now) ns.now) result
            ≡ shown_annotation (shown_of self.now) }
    {
        self.annotation.as_deref()
    }

    #[inline(always)]
    fn errors(&self) -> &[ErrorDescription<'a>]
        ensures { map described_of result.now ≡ shown_errors (shown_of self.now) }
    {
        self.errors.as_slice()
    }

    /// The nodes below, in order; all are valid where the result is.
    pub fn children(&self) -> &[EvaluationNode<'a>]
        ensures nodes { map tree_of result.now ≡ shown_children (shown_of self.now) }
        ensures validity { IsConsistent (shown_of self.now) }
    {
        self.children.as_slice()
    }

    /// Room for so many nodes more, and for no others.
    ///
    /// # Errors
    ///
    /// Out of memory.
    pub fn reserve_children(&mut self, additional: usize) -> Result<(), AllocError>
        ensures { shown_of self.new ≡ shown_of self.old }
    {
        self.children.reserve_exact(additional)
    }

    /// Puts the node behind the others; where it is invalid, the result is too.
    ///
    /// # Errors
    ///
    /// Out of memory. The result is then as it was.
    #[inline(always)]
    pub fn add_child(&mut self, child: EvaluationNode<'a>) -> Result<(), AllocError>
        ensures added { OnOk result (shown_of self.new
            ≡ with_children (tree_of child.entry ∷ []) (shown_of self.old)) }
        ensures refused { OnErr result (shown_of self.new ≡ shown_of self.old) }
    {
        if self.children.len() == self.children.capacity() {
            return self.add_child_growing(child);
        }
        self.valid &= child.valid();
        self.children.push_reserved(child);
        Ok(())
    }

    /// The same, where there is no room. Apart, so that a child is moved but once where there is.
    #[cold]
    #[inline(never)]
    fn add_child_growing(&mut self, child: EvaluationNode<'a>) -> Result<(), AllocError>
        ensures added { OnOk result (shown_of self.new
            ≡ with_children (tree_of child.entry ∷ []) (shown_of self.old)) }
        ensures refused { OnErr result (shown_of self.new ≡ shown_of self.old) }
    {
        let valid = child.valid();
        self.children.push(child)?;
        self.valid &= valid;
        Ok(())
    }

    /// Takes these names as the annotation, which only a valid node shows (JSON Schema 2020-12
    /// Core, 7.7).
    pub fn annotate(&mut self, names: Vec<&'a str>)
        ensures { shown_of self.new
            ≡ annotated (map (λ n. n.now) names.entry.items) (shown_of self.old) }
    {
        self.annotation = Some(names);
    }

    /// Takes the name behind those of the annotation, where there is one.
    ///
    /// # Errors
    ///
    /// Out of memory. The result is then as it was.
    #[inline(always)]
    pub fn annotate_also(&mut self, name: &'a str) -> Result<(), AllocError>
        ensures added { OnOk result (shown_of self.new
            ≡ with_names (name.entry.now ∷ []) (shown_of self.old)) }
        ensures refused { OnErr result (shown_of self.new ≡ shown_of self.old) }
    {
        if let Some(names) = &mut self.annotation {
            names.push(name)?;
        }
        Ok(())
    }

    /// Adds an error of its own, which makes the result invalid.
    ///
    /// # Errors
    ///
    /// Out of memory. The result is then as it was.
    pub fn mark_errored(&mut self, error: ErrorDescription<'a>) -> Result<(), AllocError>
        ensures ok { OnOk result (shown_of self.new
            ≡ errored (described_of error.entry) (shown_of self.old)) }
        ensures refused { OnErr result (shown_of self.new ≡ shown_of self.old) }
    {
        self.errors.push(error)?;
        self.mark_invalid();
        Ok(())
    }

    /// Adds the error of this kind about the node, which makes the result invalid: its keyword and
    /// its text, without its places.
    ///
    /// # Errors
    ///
    /// Out of memory. The result is then as it was.
    pub fn mark_errored_by(
        &mut self,
        kind: ValidationErrorKind<'a>,
        node: Node<'a>,
    ) -> Result<(), AllocError>
        ensures added { OnOk result ((P Q : Path) → AddsErrors
            (fault (kind_of kind.entry) (data_of node.entry) Q P ∷ [])
            (shown_of self.old) (shown_of self.new)) }
        ensures refused { OnErr result (shown_of self.new ≡ shown_of self.old) }
    {
        let alloc = self.allocator();
        let error = ValidationError::new(kind, node, String::new(alloc), "");
        let description = ErrorDescription::from_validation_error(alloc, &error)?;
        self.mark_errored(description)
    }
}

impl<'a> EvaluationNode<'a> {
    ghost use Rattle.olk_reports.specs.Evaluations.{shown_of, tree_of, described_of, node_at, tree_schema_path, tree_instance_path, tree_annotation, tree_errors, tree_children};

    /// The result at these places.
    pub fn new(schema_path: &'a str, instance_path: String, outcome: EvaluationResult<'a>) -> Self
        ensures { tree_of result ≡ node_at schema_path.now (string_bytes instance_path)
            (shown_of outcome.entry) }
    {
        EvaluationNode::at(schema_path, PathText::from(instance_path), outcome)
    }

    /// The result at these places.
    #[inline(always)]
    pub fn at(schema_path: &'a str, instance_path: PathText, outcome: EvaluationResult<'a>) -> Self
        ensures { tree_of result ≡ node_at schema_path.now instance_path
            (shown_of outcome.entry) }
    {
        EvaluationNode {
            schema_path,
            instance_path,
            result: outcome,
        }
    }

    /// Whether the value is valid here.
    pub fn valid(&self) -> bool
        ensures { result ≡ is_valid (tree_of self.now) }
    {
        self.result.valid()
    }

    /// The place in the schema, as a JSON pointer (RFC 6901).
    pub fn schema_path(&self) -> &str
        ensures { result.now ≡ tree_schema_path (tree_of self.now) }
    {
        self.schema_path
    }

    /// The place in the instance, as a JSON pointer (RFC 6901).
    pub fn instance_path(&self) -> &str
        ensures { result.now ≡ tree_instance_path (tree_of self.now) }
    {
        self.instance_path.as_str()
    }

    /// The names that it annotates; none where it is invalid.
    pub fn annotation(&self) -> Option<&[&'a str]>
        ensures { option_map (λ ns. map (λ n. n.now) ns.now) result
            ≡ tree_annotation (tree_of self.now) }
    {
        if self.valid() {
            self.result.annotation()
        } else {
            None
        }
    }

    /// Its own errors, without those of the nodes below.
    pub fn errors(&self) -> &[ErrorDescription<'a>]
        ensures { map described_of result.now ≡ tree_errors (tree_of self.now) }
    {
        self.result.errors()
    }

    /// The nodes below, in order; all are valid where it is.
    pub fn children(&self) -> &[EvaluationNode<'a>]
        ensures nodes { map tree_of result.now ≡ tree_children (tree_of self.now) }
        ensures validity { is_valid (tree_of self.now) ≡ true
            → list_all is_valid (tree_children (tree_of self.now)) ≡ true }
    {
        self.result.children()
    }
}

fn all_valid(children: &[EvaluationNode<'_>]) -> bool
    ensures { result ≡ list_all (λ n. is_valid (tree_of n)) children.now }
{
    children.iter().all(|child| child.valid())
}
