//! `propertyNames`: its verdict.
ghost use Rattle.olk_tree.specs.PropertyNames.{names_mean};
ghost use Rattle.olk_tree.specs.Visited.{object_of};
ghost use Rattle.olk_check.specs.Asks.{Asks};

use crate::Check;
use olk_base::{Asked, ValidationContext};
use olk_tree::property_names::{PropertyNames, PropertyNamesFalse};
use serde_json::{Map, Value};

impl<N: Check> Check for PropertyNames<N> {
    #[inline(never)]
    fn check<A: Asked>(&self, asked: A, ctx: &mut ValidationContext) -> bool {
        match asked.as_object() {
            Some(members) => names_accepted(&self.node, members, ctx),
            None => true,
        }
    }
}

/// An object is to have no members.
impl Check for PropertyNamesFalse {
    #[inline(never)]
    fn check<A: Asked>(&self, asked: A, _ctx: &mut ValidationContext) -> bool {
        match asked.as_object() {
            Some(members) => members.is_empty(),
            None => true,
        }
    }
}

/// Whether each member's name is accepted.
fn names_accepted<N: Check>(
    subschema: &N,
    members: &Map<String, Value>,
    ctx: &mut ValidationContext,
) -> bool
    ensures { Asks ctx.old ctx.new
        (names_mean N.means subschema.now (object_of members.now.entries)) result }
{
    for (name, _) in members {
        if !subschema.check(name.as_str(), ctx) {
            return false;
        }
    }
    true
}
