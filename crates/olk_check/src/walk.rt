//! Walks over nodes: whether each accepts a value, or one does.
ghost use Rattle.olk_tree.specs.Questions.{every, some};
ghost use Rattle.olk_check.specs.Asks.{Asks};

use crate::Check;
use olk_base::{Asked, ValidationContext};

/// Whether each of them accepts; the first that refuses is the last that is asked.
#[tactic(auto, using(crate::proofs::Walks::list_walks))]
pub(crate) fn all_accept<A: Asked, N: Check>(
    nodes: &Vec<N>,
    asked: A,
    ctx: &mut ValidationContext,
) -> bool
    ensures { Asks ctx.old ctx.new
        (every (λ n. N.means n (A.stands_for asked)) nodes.now.items) result }
{
    for n in nodes {
        if !n.check(asked, ctx) {
            return false;
        }
    }
    true
}

/// Whether one of them accepts; the first that accepts is the last that is asked.
#[tactic(auto, using(crate::proofs::Walks::list_walks))]
pub(crate) fn any_accepts<A: Asked, N: Check>(
    nodes: &Vec<N>,
    asked: A,
    ctx: &mut ValidationContext,
) -> bool
    ensures { Asks ctx.old ctx.new
        (some (λ n. N.means n (A.stands_for asked)) nodes.now.items) result }
{
    for n in nodes {
        if n.check(asked, ctx) {
            return true;
        }
    }
    false
}
