//! `propertyDependencies`: its verdict.
ghost use Rattle.std.specs.Prelude.{◌≡◌};
ghost use Rattle.serde_json.specs.View.{view};
ghost use Rattle.olk_tree.specs.Questions.{every};
ghost use Rattle.olk_tree.specs.Maps.{named};
ghost use Rattle.olk_tree.specs.PropertyDependencies.{chosen_at, chosen_nodes};
ghost use Rattle.olk_tree.specs.Visited.{object_of};
ghost use Rattle.olk_check.specs.Asks.{Asks};

use crate::Check;
use olk_base::{Asked, ValidationContext};
use olk_tree::map::SmallMap;
use olk_tree::property_dependencies::PropertyDependencies;
use serde_json::{Map, Value};

impl<N: Check> Check for PropertyDependencies<N> {
    #[inline(never)]
    fn check<A: Asked>(&self, asked: A, ctx: &mut ValidationContext) -> bool {
        match asked.as_object() {
            Some(members) => chosen_accept(&self.dependencies, members, asked, ctx),
            None => true,
        }
    }
}

/// Whether each node at the text of a member accepts the object.
fn chosen_accept<A: Asked, N: Check>(
    dependencies: &SmallMap<SmallMap<N>>,
    members: &Map<String, Value>,
    asked: A,
    ctx: &mut ValidationContext,
) -> bool
    requires { A.stands_for asked ≡ object_of members.now.entries }
    ensures { Asks ctx.old ctx.new (every (λ n. N.means n (A.stands_for asked))
        (chosen_nodes (named dependencies.now) (A.stands_for asked))) result }
{
    for (_, choices, value) in dependencies.declared_members(members) {
        if !choice_accepts(choices, value, asked, ctx) {
            return false;
        }
    }
    true
}

/// Whether the node at the text that the value is accepts the object, if there is one.
fn choice_accepts<A: Asked, N: Check>(
    choices: &SmallMap<N>,
    value: &Value,
    asked: A,
    ctx: &mut ValidationContext,
) -> bool
    ensures { Asks ctx.old ctx.new (every (λ n. N.means n (A.stands_for asked))
        (chosen_at choices.now (view value.now))) result }
{
    match choices.chosen_by(value) {
        Some(dependency) => dependency.check(asked, ctx),
        None => true,
    }
}
