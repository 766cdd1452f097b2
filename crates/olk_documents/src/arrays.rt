//! `prefixItems` and `items`, over the nodes that they hold: their verdicts.
ghost use Rattle.std.specs.Prelude.{◌≡◌, drop, option_map};
ghost use Rattle.std.specs.List.{zip};
ghost use Rattle.serde_json.specs.Find.{as_array};
ghost use Rattle.serde_json.specs.View.{view, items_view};
ghost use Rattle.olk_base.specs.Nodes.{data_of};
ghost use Rattle.olk_tree.specs.Questions.{every};
ghost use Rattle.olk_check.specs.Asks.{Asks};

use olk_base::{Asked, Node, ValidationContext};
use olk_check::Check;
use olk_reports::Location;
use serde_json::Value;

/// `prefixItems`: each schema is to accept the item at its position, as far as there is one (JSON
/// Schema 2020-12 Core, 10.3.1.1).
#[derive(Drop)]
pub struct PrefixItems<N> {
    pub schemas: Vec<N>,
    pub location: Location,
}

/// `items`: the schema is to accept each item behind the first `skip` (JSON Schema 2020-12 Core,
/// 10.3.1.2).
#[derive(Drop)]
pub struct Items<N> {
    pub node: N,
    pub skip: usize,
    pub location: Location,
}

/// The items, where the node is an array.
pub(crate) fn items_of<'a>(node: Node<'a>) -> Option<&'a Vec<Value>>
    ensures { option_map (λ l. items_view l.now.items) result ≡ as_array (data_of node.entry) }
{
    match node {
        Node::Value(value) => value.as_array(),
        Node::Name(_) => None,
    }
}

/// Whether each schema accepts the item at its position; the first that refuses is the last that is
/// asked.
#[tactic(auto, using(olk_check::proofs::Walks::list_walks))]
fn pairs_accepted<N: Check>(
    schemas: &Vec<N>,
    items: &Vec<Value>,
    ctx: &mut ValidationContext,
) -> bool
    ensures { Asks ctx.old ctx.new (every (λ e. N.means e.0 (view e.1))
        (zip schemas.now.items items.now.items)) result }
{
    let mut i = 0;
    while i < schemas.len() {
        if i >= items.len() {
            return true;
        }
        if !schemas[i].check(&items[i], ctx) {
            return false;
        }
        i += 1;
    }
    true
}

/// Whether the node accepts each of the items from the position on; the first that it refuses is
/// the last that it is asked about.
#[tactic(auto, using(olk_check::proofs::Walks::list_walks))]
fn each_accepted<N: Check>(
    n: &N,
    items: &Vec<Value>,
    skip: usize,
    ctx: &mut ValidationContext,
) -> bool
    ensures { Asks ctx.old ctx.new
        (every (λ x. N.means n.now (view x)) (drop skip items.now.items)) result }
{
    let mut i = skip;
    while i < items.len() {
        if !n.check(&items[i], ctx) {
            return false;
        }
        i += 1;
    }
    true
}

impl<N: Check> Check for PrefixItems<N> {
    fn check<A: Asked>(&self, asked: A, ctx: &mut ValidationContext) -> bool {
        match items_of(asked.node()) {
            Some(items) => pairs_accepted(&self.schemas, items, ctx),
            None => true,
        }
    }
}

impl<N: Check> Check for Items<N> {
    fn check<A: Asked>(&self, asked: A, ctx: &mut ValidationContext) -> bool {
        match items_of(asked.node()) {
            Some(items) => each_accepted(&self.node, items, self.skip, ctx),
            None => true,
        }
    }
}
