//! A pattern as it was read.
use crate::class::Class;
use crate::counts::Counts;

/// A pattern as it was read: with each part once, however often it is to match.
#[derive(Drop)]
pub enum Tree {
    Blank,
    One(Class),
    Then { first: Box<Tree>, second: Box<Tree> },
    Or { first: Box<Tree>, second: Box<Tree> },
    Repeat { part: Box<Tree>, counts: Counts },
}
