//! The four ways of asking together.
ghost use Rattle.std.specs.Prelude.{IfOk};
ghost use Rattle.olk_base.specs.Nodes.{data_of};
ghost use Rattle.olk_check.specs.Asks.{OnlyAsks};
ghost use Rattle.object_logic.specs.OneVerdict.{AllSay, TellsWhether};

use olk_base::{Node, ValidationContext};
use olk_errors::Errors;
use olk_evaluate::Evaluate;
use olk_reports::{EvaluationNode, InstancePath, ValidateError, ValidationError};
use std::alloc::{AllocError, Global};

/// On the other side stands what can be asked in all four ways, which give one verdict.
///
/// They go by one meaning, `Means`, with either answer for matches that are left unfinished (JSON
/// Schema 2020-12 Core, 10); `verdicts_of` asks for each. No caller implements it: all that is
/// `Errors` and `Evaluate` has it.
pub trait Validate<'a>: Errors<'a> + Evaluate<'a> {}

impl<'a, T: Errors<'a> + Evaluate<'a>> Validate<'a> for T {}

/// Whether a value is accepted, as each of the four ways of asking says it.
#[derive(Clone, Copy, Debug, PartialEq, Eq)]
pub struct Verdicts {
    /// What `is_valid` gives.
    pub is_valid: bool,
    /// Whether `validate` gives no error.
    pub validate: bool,
    /// Whether `collect_errors` appends none.
    pub collect_errors: bool,
    /// Whether what `evaluate` gives is valid.
    pub evaluate: bool,
}

/// Whether there is no error.
fn is_accepted(outcome: Result<(), ValidateError<'_>>) -> Result<bool, AllocError>
    ensures { IfOk result (TellsWhether outcome.entry) }
{
    match outcome {
        Ok(()) => Ok(true),
        Err(ValidateError::Invalid(_)) => Ok(false),
        Err(ValidateError::Memory(error)) => Err(error),
    }
}

/// The verdicts of all four ways of asking, with the context's answer for matches that are left
/// unfinished: they are one, whatever is asked (JSON Schema 2020-12 Core, 10).
///
/// The context keeps its answer; of the counts only those of matchers that were asked and of
/// matches that were left unfinished rise.
///
/// # Errors
///
/// Out of memory.
pub fn verdicts_of<'a, V: Validate<'a>>(
    alloc: Global,
    asked: &'a V,
    node: Node<'a>,
    ctx: &mut ValidationContext,
) -> Result<Verdicts, AllocError>
    ensures one { IfOk result (AllSay
        ((V.means asked.now (data_of node.entry)).accepts ctx.old.answer)) }
    ensures context { OnlyAsks ctx.old ctx.new }
{
    let mut path = InstancePath::new(alloc);
    let mut errors: Vec<ValidationError<'a>> = Vec::new(alloc);
    let is_valid = asked.is_valid(node, ctx);
    let validate = is_accepted(asked.validate(alloc, node, &mut path, ctx))?;
    asked.collect_errors(alloc, node, &mut path, ctx, &mut errors)?;
    let outcome = asked.evaluate(alloc, node, &mut path, ctx)?;
    let shown = EvaluationNode::new("", String::new(alloc), outcome);
    Ok(Verdicts {
        is_valid,
        validate,
        collect_errors: errors.is_empty(),
        evaluate: shown.valid(),
    })
}
