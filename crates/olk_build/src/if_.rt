//! `if`: how it is read, compiled and made.
ghost use Rattle.std.specs.Prelude.{◌≡◌, cond, not, is_none, is_some, codes, None, option_to_list, IfOk};
ghost use Rattle.olk_meaning.specs.Conditions.{known, is_condition};
ghost use Rattle.olk_build.specs.declared.shape.Shape.TheVariants.{Unpaired};
ghost use Rattle.std.specs.Option.{IfNone, IfSome};
ghost use Rattle.serde_json.specs.View.{members_view, view};
ghost use Rattle.olk_spec.specs.Names.{lookup_name};
ghost use Rattle.olk_spec.specs.Schemas.{listed};
ghost use Rattle.olk_reports.specs.Paths.{one_below};
ghost use Rattle.olk_base.specs.Kit.{kit};
ghost use Rattle.olk_tree.specs.Steps.{StepsOf, layer};
ghost use Rattle.olk_build.specs.Forms.{IsIf, IsFormOfIf};
ghost use Rattle.olk_build.specs.Building.{IsMember};
ghost use Rattle.olk_build.specs.Taking.{GivesMember, Gives};
ghost use Rattle.olk_build.specs.Making.{MakesCondition};

use crate::part::Cases;
use crate::shape::Shape;
use crate::{Context, compile_keyword};
use olk_base::{Leaf, MakeLeaf, MakeRegex, RegexEngine};
use olk_meaning::{Neighbours, is_condition};
use olk_reports::{BuildError, Location};
use olk_tree::built_node::BuiltNode;
use olk_tree::if_::{IfElse, IfThen, IfThenElse};
use olk_tree::node::KeywordOver;
use serde_json::{Map, Value};
use std::alloc::{AllocError, Global};

/// The shape of `if`, `then` or `else`, unpaired where `if` is not read.
pub(crate) fn shape_if_read<K: Drop, R: Drop>(
    neighbours: Neighbours<'_>,
    shape: Shape<K, R>,
) -> Shape<K, R>
    ensures { result ≡ cond (known neighbours.entry).condition shape Unpaired }
{
    if neighbours.is_condition() {
        shape
    } else {
        Shape::Unpaired
    }
}

/// The keyword of `if` in the object at the context's place, with those of `then` and `else` of the
/// parent that there are (JSON Schema 2020-12 Core, 10.2.2), and none where there is neither, or no
/// `if`.
///
/// The meter rises by the cost of the three, or by a part of it where nothing is built; the
/// context's place is left as it was.
///
/// # Errors
///
/// One of the malformations of the three; else out of memory.
pub fn compile<'a, L: MakeLeaf, M: MakeRegex, N: BuiltNode<L::Leaf, M::Engine>>(
    alloc: Global,
    ctx: &mut Context<'_, L, M>,
    parent: &'a Map<String, Value>,
    schema: &'a Value,
) -> Option<Result<KeywordOver<L::Leaf, M::Engine, N>, BuildError<'a>>>
    ensures gives { GivesMember (layer L.Leaf.Leaf M.Engine.RegexEngine)
        (members_view parent.now.entries) (codes "if", view schema.now)
        ctx.old.place ctx.old.meter.now ctx.new.meter.now N.answers result }
    ensures form { Gives (members_view parent.now.entries)
        (codes "if", view schema.now) result
        (IsIf (one_below ctx.old.place (codes "if"))
        (is_some (lookup_name (codes "then") (listed (members_view parent.now.entries))))
        (is_some (lookup_name (codes "else") (listed (members_view parent.now.entries))))) }
    ensures unread { IsMember (members_view parent.now.entries)
        (codes "if", view schema.now)
        → is_none result ≡ not (is_condition (members_view parent.now.entries)) }
    ensures unread_at_no_cost { IsMember (members_view parent.now.entries)
        (codes "if", view schema.now)
        → IfNone result (ctx.new.meter.now ≡ ctx.old.meter.now) }
    ensures place { ctx.new.place ≡ ctx.old.place }
    ensures same_meter { ctx.new.meter.ghost_name ≡ ctx.old.meter.ghost_name }
{
    if !is_condition(parent) {
        return None;
    }
    compile_keyword(alloc, ctx, parent, "if", schema)
}

/// The form for the nodes that there are.
fn form<K, R, N: Drop>(
    alloc: Global,
    location: Location,
    schema: N,
    cases: Cases<N>,
) -> Result<Option<KeywordOver<K, R, N>>, AllocError>
    ensures no_then { IfOk result (λ o. IfNone o (cases.then_schema ≡ None)) }
    ensures no_else { IfOk result (λ o. IfNone o (cases.else_schema ≡ None)) }
    ensures form { IfOk result (λ o. IfSome o (IsFormOfIf location schema
        cases.then_schema cases.else_schema)) }
{
    let Cases {
        then_schema,
        else_schema,
    } = cases;
    match (then_schema, else_schema) {
        (Some(then_schema), Some(else_schema)) => {
            let keyword = IfThenElse {
                schema,
                then_schema,
                else_schema,
                location,
            };
            Ok(Some(KeywordOver::IfThenElse(Box::new(alloc, keyword)?)))
        }
        (Some(then_schema), None) => {
            let keyword = IfThen {
                schema,
                then_schema,
                location,
            };
            Ok(Some(KeywordOver::IfThen(Box::new(alloc, keyword)?)))
        }
        (None, Some(else_schema)) => {
            let keyword = IfElse {
                schema,
                else_schema,
                location,
            };
            Ok(Some(KeywordOver::IfElse(Box::new(alloc, keyword)?)))
        }
        (None, None) => Ok(None),
    }
}

/// The validator of the node of `if` and of those of `then` and `else`, and none where there is
/// neither.
///
/// # Errors
///
/// Out of memory.
pub(crate) fn make<K: Leaf, R: RegexEngine, N: BuiltNode<K, R>>(
    alloc: Global,
    location: Location,
    schema: N,
    cases: Cases<N>,
) -> Result<Option<KeywordOver<K, R, N>>, AllocError>
    ensures no_then { IfOk result (λ o. IfNone o (cases.then_schema ≡ None)) }
    ensures no_else { IfOk result (λ o. IfNone o (cases.else_schema ≡ None)) }
    ensures form { IfOk result (λ o. IfSome o (IsIf location
        (is_some cases.then_schema) (is_some cases.else_schema))) }
    ensures makes { IfOk result (λ o. (I : StepsOf (kit K.Leaf R.RegexEngine))
        → MakesCondition I N.answers location
        schema cases (option_to_list o)) }
{
    let keyword = form(alloc, location, schema, cases)?;
    Ok(keyword)
}
