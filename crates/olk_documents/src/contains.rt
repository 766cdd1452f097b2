//! `contains`, over the node that it holds: its verdict.
ghost use Rattle.std.specs.Prelude.{◌≡◌, ◌+◌, ℕ, IfSome};
ghost use Rattle.serde_json.specs.View.{view};
ghost use Rattle.olk_check.specs.Asks.{Asks};
ghost use Rattle.olk_documents.specs.Contains.{in_bounds, counted};

use crate::arrays::items_of;
use olk_base::{Asked, ValidationContext};
use olk_check::Check;
use olk_reports::Location;
use serde_json::Value;

/// How many items are to be accepted: at least so many, and at most so many.
#[derive(Clone, Copy)]
pub struct Bounds {
    /// `minContains`, or else 1 (JSON Schema 2020-12 Validation, 6.4.5).
    pub least: u64,
    /// `maxContains`, if it is there (JSON Schema 2020-12 Validation, 6.4.4).
    pub most: Option<u64>,
}

/// `contains`: so many items are to be accepted (JSON Schema 2020-12 Core, 10.3.1.3).
#[derive(Drop)]
pub struct Contains<N> {
    pub node: N,
    pub bounds: Bounds,
    pub location: Location,
}

impl Bounds {
    /// Whether so many are enough, and not too many.
    fn contain(self, count: u64) -> bool
        ensures { result ≡ in_bounds self count }
    {
        if count < self.least {
            return false;
        }
        match self.most {
            Some(most) => count <= most,
            None => true,
        }
    }

    /// The verdict, where it is the same however many more are accepted.
    fn verdict_from(self, count: u64) -> Option<bool>
        ensures { IfSome result (λ r. (more : ℕ) → r ≡ in_bounds self (count + more)) }
    {
        match self.most {
            Some(most) => { if count > most { Some(false) } else { None } }
            None => {
                if count >= self.least {
                    Some(true)
                } else {
                    None
                }
            }
        }
    }
}

/// Whether the node accepts so many of the items; the one that decides it is the last that it is
/// asked about.
fn so_many_accepted<N: Check>(
    n: &N,
    items: &Vec<Value>,
    bounds: Bounds,
    ctx: &mut ValidationContext,
) -> bool
    ensures { Asks ctx.old ctx.new
        (counted (λ x. N.means n.now (view x)) (in_bounds bounds) 0 items.now.items) result }
{
    let mut count: u64 = 0;
    let mut i = 0;
    while i < items.len() {
        if let Some(verdict) = bounds.verdict_from(count) {
            return verdict;
        }
        if n.check(&items[i], ctx) {
            count += 1;
        }
        i += 1;
    }
    bounds.contain(count)
}

impl<N: Check> Check for Contains<N> {
    fn check<A: Asked>(&self, asked: A, ctx: &mut ValidationContext) -> bool {
        match items_of(asked.node()) {
            Some(items) => so_many_accepted(&self.node, items, self.bounds, ctx),
            None => true,
        }
    }
}
