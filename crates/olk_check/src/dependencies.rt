//! `dependentRequired`, `dependentSchemas` and `dependencies`: their verdicts.
ghost use Rattle.std.specs.Prelude.{◌≡◌};
ghost use Rattle.olk_tree.specs.Questions.{every};
ghost use Rattle.olk_tree.specs.Maps.{named};
ghost use Rattle.olk_tree.specs.Dependencies.{due_nodes};
ghost use Rattle.olk_tree.specs.Visited.{object_of};
ghost use Rattle.olk_check.specs.Asks.{Asks};

use crate::Check;
use olk_base::{Asked, ValidationContext};
use olk_tree::dependencies::{Dependencies, DependentRequired, DependentSchemas};
use olk_tree::map::SmallMap;
use serde_json::{Map, Value};

impl<N: Check> Check for Dependencies<N> {
    fn check<A: Asked>(&self, asked: A, ctx: &mut ValidationContext) -> bool {
        dependencies_accept(&self.dependencies, asked, ctx)
    }
}

impl<N: Check> Check for DependentRequired<N> {
    fn check<A: Asked>(&self, asked: A, ctx: &mut ValidationContext) -> bool {
        dependencies_accept(&self.dependencies, asked, ctx)
    }
}

impl<N: Check> Check for DependentSchemas<N> {
    fn check<A: Asked>(&self, asked: A, ctx: &mut ValidationContext) -> bool {
        dependencies_accept(&self.dependencies, asked, ctx)
    }
}

/// Whether the node of each key that is a member accepts the value, where that is an object.
#[inline(never)]
fn dependencies_accept<A: Asked, N: Check>(
    dependencies: &SmallMap<N>,
    asked: A,
    ctx: &mut ValidationContext,
) -> bool
    ensures { Asks ctx.old ctx.new (every (λ n. N.means n (A.stands_for asked))
        (due_nodes (named dependencies.now) (A.stands_for asked))) result }
{
    match asked.as_object() {
        Some(members) => due_accept(dependencies, members, asked, ctx),
        None => true,
    }
}

/// Whether the node of each key that is a member accepts the object.
fn due_accept<A: Asked, N: Check>(
    dependencies: &SmallMap<N>,
    members: &Map<String, Value>,
    asked: A,
    ctx: &mut ValidationContext,
) -> bool
    requires { A.stands_for asked ≡ object_of members.now.entries }
    ensures { Asks ctx.old ctx.new (every (λ n. N.means n (A.stands_for asked))
        (due_nodes (named dependencies.now) (A.stands_for asked))) result }
{
    for (_, dependency, _) in dependencies.declared_members(members) {
        if !dependency.check(asked, ctx) {
            return false;
        }
    }
    true
}
