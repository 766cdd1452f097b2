//! Whether a keyword or a place of a document accepts a value.
ghost use Rattle.olk_tree.specs.Questions.{both, every};
ghost use Rattle.olk_check.specs.Asks.{Asks};

use crate::node::{DocumentKeyword, DocumentNode};
use olk_base::{Asked, Leaf, RegexEngine, ValidationContext};
use olk_check::Check;

impl<N: Check> Check for DocumentKeyword<N> {
    #[inline(never)]
    #[tactic(auto, unfolding(crate::specs::Nodes::more_of))]
    fn check<A: Asked>(&self, asked: A, ctx: &mut ValidationContext) -> bool {
        match self {
            DocumentKeyword::PrefixItems(keyword) => keyword.check(asked, ctx),
            DocumentKeyword::Items(keyword) => keyword.check(asked, ctx),
            DocumentKeyword::Contains(keyword) => keyword.check(asked, ctx),
            DocumentKeyword::Reference(keyword) => keyword.check(asked, ctx),
        }
    }
}

/// Whether each of them accepts; the first that refuses is the last that is asked.
#[tactic(auto, using(olk_check::proofs::Walks::list_walks))]
fn all_accept<A: Asked, N: Check>(keywords: &Vec<N>, asked: A, ctx: &mut ValidationContext) -> bool
    ensures { Asks ctx.old ctx.new
        (every (λ n. N.means n (A.stands_for asked)) keywords.now.items) result }
{
    for n in keywords {
        if !n.check(asked, ctx) {
            return false;
        }
    }
    true
}

/// Whether what the layer reads at a place accepts, and then each of the other keywords.
#[inline(never)]
fn both_accept<A: Asked, B: Check, M: Check>(
    body: &B,
    more: &Vec<M>,
    asked: A,
    ctx: &mut ValidationContext,
) -> bool
    ensures { Asks ctx.old ctx.new (both (B.means body.now (A.stands_for asked))
        (every (λ n. M.means n (A.stands_for asked)) more.now.items)) result }
{
    body.check(asked, ctx) && all_accept(more, asked, ctx)
}

/// The verdict of `both_accept`. Most places have no other keyword, so they are asked in line.
#[inline(always)]
fn place_accepts<A: Asked, B: Check, M: Check>(
    body: &B,
    more: &Vec<M>,
    asked: A,
    ctx: &mut ValidationContext,
) -> bool
    ensures { Asks ctx.old ctx.new (both (B.means body.now (A.stands_for asked))
        (every (λ n. M.means n (A.stands_for asked)) more.now.items)) result }
{
    match more.as_slice() {
        [] => body.check(asked, ctx),
        _ => both_accept(body, more, asked, ctx),
    }
}

impl<K: Leaf, R: RegexEngine> Check for DocumentNode<K, R> {
    #[inline(always)]
    #[tactic(auto, using(crate::proofs::Layers::layers))]
    fn check<A: Asked>(&self, asked: A, ctx: &mut ValidationContext) -> bool {
        place_accepts(&self.body, &self.more, asked, ctx)
    }
}
