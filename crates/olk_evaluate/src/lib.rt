//! What a schema shows of a value: `show` of each validator, over its nodes.
//!
//! Stands on `olk_check`. Tested by `object_logic_tests`.
#![tactic(auto)]

ghost use Rattle.serde_json.specs.Data.{Data};

use olk_base::{Node, Subject, ValidationContext};
use olk_check::Check;
use olk_reports::{EvaluationResult, InstancePath};
use std::alloc::{AllocError, Global};
use std::mem;

/// What is handed down to all that shows.
#[derive(Drop)]
pub struct EvaluationContext {
    /// Where the value stands in the instance.
    pub path: InstancePath,
    /// What verdicts are asked with.
    pub validation: ValidationContext,
}

/// On the other side stands a validator, which writes what it shows into an empty result.
///
/// Who writes a validator implements it; callers ask by `Evaluate`.
pub trait Show<'a>: Check {
    ghost use Rattle.std.specs.Prelude.{◌≡◌, Bool};
    ghost use Rattle.olk_base.specs.Nodes.{subject_data};
    ghost use Rattle.olk_spec.specs.Names.{Path};
    ghost use Rattle.olk_spec.specs.Tree.{Tree};
    ghost use Rattle.olk_reports.specs.Evaluations.{node_at, nothing_shown, shown_of};
    ghost use Rattle.olk_evaluate.specs.Shows.{Shows};
    ghost use Rattle.olk_evaluate.specs.Wanted.{IsShown, wanted};

    // where it stands in its schema
    ghost place: { Self → Path };

    // the tree that it shows of a value, with either answer for unfinished matches
    ghost tree: { Self → Bool → Data → Path → Tree };

    /// Writes what it shows of the node into a result that shows nothing yet: the validity, an
    /// annotation, errors of its own and the nodes below, in order (JSON Schema 2020-12 Core, 7.7
    /// and 12).
    ///
    /// The context's path is left as it was, its answer is kept, and of the counts only those of
    /// asking rise.
    ///
    /// # Errors
    ///
    /// Out of memory. The result then shows no more than a part.
    fn show(
        &'a self,
        node: Subject<'_, 'a>,
        ctx: &mut EvaluationContext,
        outcome: &mut EvaluationResult<'a>,
    ) -> Result<(), AllocError>
        requires { shown_of outcome.old ≡ nothing_shown }
        ensures { Shows result ctx.old ctx.new (λ u _. IsShown
            (wanted tree Self.means u
            self.now (subject_data node.entry) ctx.old.path)
            (node_at (place self.now) ctx.old.path (shown_of outcome.new))) };
}

/// What stands at a place of a schema, and tells it: what a validator may hold as a node.
pub trait Located<'a>: Show<'a> {
    ghost use Rattle.std.specs.Prelude.{◌≡◌};

    /// The place, a JSON pointer (RFC 6901).
    fn location(&self) -> &str
        ensures { result.now ≡ Self.place self.now };
}

/// On the other side stands what shows a value: valid or not, annotations, errors, what is below.
///
/// No caller implements it: all that is `Show` has it by one implementation.
pub trait Evaluate<'a>: Show<'a> {
    ghost use Rattle.std.specs.Prelude.{◌≡◌, IfOk};
    ghost use Rattle.olk_base.specs.Nodes.{data_of};
    ghost use Rattle.olk_spec.specs.Tree.{IsLikeTree, is_valid};
    ghost use Rattle.olk_reports.specs.Evaluations.{node_at, shown_of};
    ghost use Rattle.olk_check.specs.Asks.{OnlyAsks, IsCertain};

    /// What it shows of the node: the validity, an annotation, errors of its own and the nodes
    /// below, in order (JSON Schema 2020-12 Core, 7.7 and 12).
    ///
    /// The path is left as it was, the context keeps its answer, and of the counts only those of
    /// asking rise.
    ///
    /// # Errors
    ///
    /// Out of memory.
    fn evaluate(
        &'a self,
        alloc: Global,
        node: Node<'a>,
        path: &mut InstancePath,
        ctx: &mut ValidationContext,
    ) -> Result<EvaluationResult<'a>, AllocError>
        ensures tree { IfOk result (λ r. IsLikeTree
            (Self.tree self.now ctx.old.answer (data_of node.entry) path.old)
            (node_at (Self.place self.now) path.old (shown_of r))) }
        ensures verdict { IfOk result (λ r.
            is_valid (node_at (Self.place self.now) path.old (shown_of r))
            ≡ (Self.means self.now (data_of node.entry)).accepts ctx.old.answer) }
        ensures path { path.new ≡ path.old }
        ensures context { OnlyAsks ctx.old ctx.new }
        ensures certain { IfOk result (λ _. IsCertain ctx.old ctx.new
            (Self.means self.now (data_of node.entry)).accepts) };
}

impl<'a, S: Show<'a>> Evaluate<'a> for S {
    fn evaluate(
        &'a self,
        alloc: Global,
        node: Node<'a>,
        path: &mut InstancePath,
        ctx: &mut ValidationContext,
    ) -> Result<EvaluationResult<'a>, AllocError> {
        let mut outcome: EvaluationResult<'a> = EvaluationResult::valid_empty(alloc);
        let empty = ValidationContext::new(ctx.answer());
        let mut inner = EvaluationContext {
            path: mem::replace(path, InstancePath::new(alloc)),
            validation: mem::replace(ctx, empty),
        };
        let shown = self.show(Subject::of(&node), &mut inner, &mut outcome);
        *path = inner.path;
        *ctx = inner.validation;
        shown?;
        Ok(outcome)
    }
}

mod additional_members;
mod additional_properties;
mod all_of;
mod any_of;
mod dependencies;
mod if_;
mod node;
mod not;
mod one_of;
mod pattern_properties;
mod properties;
mod property_dependencies;
mod property_names;
mod required;
mod sides;
mod walk;

pub use node::show_body;
pub use walk::{add_child, show_each};
