//! `oneOf`: its verdict.
ghost use Rattle.std.specs.Prelude.{Bool};
ghost use Rattle.olk_tree.specs.Questions.{how_many, exactly_one};
ghost use Rattle.olk_check.specs.Asks.{Asks, IsAnswer};
ghost use Rattle.olk_check.specs.Accepting.{IsHowMany, is_one};

use crate::Check;
use olk_base::{Asked, ValidationContext};
use olk_tree::one_of::{OneOf, SingleOneOf};

/// How many of some subschemas accept a value.
pub enum Accepting {
    /// None.
    Zero,
    /// One.
    One,
    /// Two or more.
    Several,
}

/// How many of the subschemas accept the node (JSON Schema 2020-12 Core, 10.2.1.3); the second that
/// accepts is the last that is asked.
///
/// Takes no memory. The context keeps its answer; of the counts only those of matchers that were
/// asked and of matches that were left unfinished rise.
pub fn how_many_accept<A: Asked, N: Check>(
    schemas: &Vec<N>,
    asked: A,
    ctx: &mut ValidationContext,
) -> Accepting
    ensures asks { Asks ctx.old ctx.new
        (exactly_one (λ n. N.means n (A.stands_for asked)) schemas.now.items) (is_one result) }
    ensures count { (u : Bool) → IsAnswer ctx.old ctx.new u → IsHowMany result
        (how_many (λ n. N.means n (A.stands_for asked)) u schemas.now.items) }
{
    let mut found = false;
    for schema in schemas {
        if schema.check(asked, ctx) {
            if found {
                return Accepting::Several;
            }
            found = true;
        }
    }
    if found {
        Accepting::One
    } else {
        Accepting::Zero
    }
}

impl<N: Check> Check for OneOf<N> {
    #[inline(never)]
    fn check<A: Asked>(&self, asked: A, ctx: &mut ValidationContext) -> bool {
        match how_many_accept(&self.schemas, asked, ctx) {
            Accepting::Zero => false,
            Accepting::One => true,
            Accepting::Several => false,
        }
    }
}

impl<N: Check> Check for SingleOneOf<N> {
    #[inline(never)]
    fn check<A: Asked>(&self, asked: A, ctx: &mut ValidationContext) -> bool {
        self.node.check(asked, ctx)
    }
}
