//! Nodes as building makes them.
use crate::node::{Body, KeywordOver};
use olk_base::{Leaf, RegexEngine};
use olk_reports::Location;
use std::alloc::Global;

/// A type of nodes that building makes: each answers as what it is made with does. Building knows no
/// more of a node; `SchemaNode` implements it.
pub trait BuiltNode<K: Leaf, R: RegexEngine>: Drop {
    ghost use Rattle.olk_base.specs.Kit.{kit};
    ghost use Rattle.olk_tree.specs.Answers.{Answers};
    ghost use Rattle.olk_tree.specs.Places.{AnswersBy};

    // what it answers
    ghost answers: { Self → Answers };

    /// The node at the place, with what stands there. It takes no memory.
    fn new(alloc: Global, location: Location, body: Body<KeywordOver<K, R, Self>>) -> Self
        ensures { AnswersBy (kit K.Leaf R.RegexEngine) answers location body result };
}
