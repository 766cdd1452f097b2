//! The parts of a schema object.
ghost use Rattle.std.specs.Prelude.{◌≡◌, None};

use crate::shape::Shape;
use olk_base::CompiledPattern;
use olk_reports::Location;
use olk_tree::names::SortedNames;
use olk_tree::pattern_table::PatternTable;

/// A member of a schema object: its place, its shape, and the nodes of the places that it reads.
#[derive(Drop)]
pub struct Part<K, R, N> {
    pub location: Location,
    pub shape: Shape<K, R>,
    pub nodes: Vec<N>,
}

/// The nodes of `then` and `else`, where `if` is read.
#[derive(Drop)]
pub struct Cases<N> {
    pub then_schema: Option<N>,
    pub else_schema: Option<N>,
}

impl<N> Cases<N> {
    /// Neither.
    pub fn none() -> Cases<N>
        ensures then_schema { result.then_schema ≡ None }
        ensures else_schema { result.else_schema ≡ None }
    {
        Cases {
            then_schema: None,
            else_schema: None,
        }
    }

    /// Both, and none is left.
    pub fn take(&mut self) -> Cases<N>
        ensures taken { result ≡ self.old }
        ensures then_schema { self.new.then_schema ≡ None }
        ensures else_schema { self.new.else_schema ≡ None }
    {
        Cases {
            then_schema: self.then_schema.take(),
            else_schema: self.else_schema.take(),
        }
    }
}

/// What `properties` holds: the declared names, and the nodes of their schemas.
#[derive(Drop)]
pub struct DeclaredNodes<N> {
    pub names: SortedNames,
    pub nodes: Vec<N>,
}

/// What `patternProperties` holds: its place, its patterns with the nodes of their entries, and
/// what the patterns say of the names that are declared beside it.
#[derive(Drop)]
pub struct Patterns<R, N> {
    pub location: Location,
    pub patterns: Vec<(CompiledPattern<R>, N)>,
    pub table: PatternTable,
}

/// What stands beside `additionalProperties`: the declared names with their nodes, if `properties`
/// does, and what `patternProperties` holds, if that does.
#[derive(Drop)]
pub struct Beside<R, N> {
    pub properties: Option<DeclaredNodes<N>>,
    pub patterns: Option<Patterns<R, N>>,
}

impl<R, N> Beside<R, N> {
    /// Neither.
    pub fn none() -> Beside<R, N>
        ensures properties { result.properties ≡ None }
        ensures patterns { result.patterns ≡ None }
    {
        Beside {
            properties: None,
            patterns: None,
        }
    }

    /// Both, and none is left.
    pub fn take(&mut self) -> Beside<R, N>
        ensures taken { result ≡ self.old }
        ensures properties { self.new.properties ≡ None }
        ensures patterns { self.new.patterns ≡ None }
    {
        Beside {
            properties: self.properties.take(),
            patterns: self.patterns.take(),
        }
    }
}

/// What validators take from the parts of their neighbours: `if` from `then` and `else`, and
/// `additionalProperties`, where it restricts other members, from `properties` and
/// `patternProperties`.
#[derive(Drop)]
pub struct TakenNeighbours<R, N> {
    pub cases: Cases<N>,
    pub beside: Beside<R, N>,
}
