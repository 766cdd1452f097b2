//! Whether a value is accepted: `is_valid` of each validator, over its nodes.
//!
//! Stands on `olk_tree`. Tested by `olk_node_tests`.
#![tactic(auto)]

ghost use Rattle.olk_base.specs.Nodes.{subject_data};
ghost use Rattle.olk_check.specs.Asks.{Asks};

use olk_base::{Asked, Node, Subject, ValidationContext};
use olk_tree::Means;

/// On the other side stands what accepts or refuses a value: a validator, a keyword or a node.
///
/// No caller implements it: all that is `Check` has it by one implementation.
pub trait IsValid: Means {
    ghost use Rattle.olk_base.specs.Nodes.{data_of};
    ghost use Rattle.olk_check.specs.Asks.{Asks};

    /// Whether the node is accepted, with the context's answer for matches that are left
    /// unfinished.
    ///
    /// Takes no memory. The context keeps its answer; of the counts only those of matchers that
    /// were asked and of matches that were left unfinished rise.
    fn is_valid(&self, node: Node<'_>, ctx: &mut ValidationContext) -> bool
        ensures { Asks ctx.old ctx.new (Self.means self.now (data_of node.entry)) result };
}

/// On the other side stands a validator, whose verdict is compiled for values and for names.
///
/// Who writes a validator implements it, and keywords and nodes do; callers ask by `IsValid`.
pub trait Check: Means {
    ghost use Rattle.olk_check.specs.Asks.{Asks};

    /// Whether what is asked about is accepted.
    fn check<A: Asked>(&self, asked: A, ctx: &mut ValidationContext) -> bool
        ensures { Asks ctx.old ctx.new (Self.means self.now (A.stands_for asked)) result };
}

impl<C: Check> IsValid for C {
    #[inline(always)]
    fn is_valid(&self, node: Node<'_>, ctx: &mut ValidationContext) -> bool {
        match node {
            Node::Value(value) => self.check(value, ctx),
            Node::Name(name) => self.check(name, ctx),
        }
    }
}

/// Whether the subject is accepted; one choice is made, and none below it.
#[inline(always)]
pub fn accepts<N: Check>(schema: &N, subject: Subject<'_, '_>, ctx: &mut ValidationContext) -> bool
    ensures { Asks ctx.old ctx.new (N.means schema.now (subject_data subject.entry)) result }
{
    match subject {
        Subject::Value(value) => schema.check(value, ctx),
        Subject::Name(name) => schema.check(*name, ctx),
    }
}

mod accepted;
mod additional_properties;
mod all_of;
mod any_of;
mod dependencies;
mod if_;
mod node;
mod not;
mod one_of;
mod pattern_properties;
mod properties;
mod property_dependencies;
mod property_names;
mod required;
mod walk;

pub use additional_properties::{DEFERRED_MEMBERS, are_properties_valid, matches_unless_known};
pub use one_of::{Accepting, how_many_accept};
pub use pattern_properties::matches;
pub use required::is_present;
