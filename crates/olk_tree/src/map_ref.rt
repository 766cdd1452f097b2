//! A map that is lent.
ghost use Rattle.std.specs.Prelude.{◌≡◌, ◌≤◌, length};
ghost use Rattle.std.specs.List.{zip};
ghost use Rattle.olk_tree.specs.Ascending.{Ascend};
ghost use Rattle.olk_tree.specs.Maps.{keys_in};

use crate::entries::Entries;
use crate::names::SortedNames;
use std::marker::Model;

/// A map that is lent: its names in order, and what stands at each.
///
/// It takes half the room of `Entries`, which a walk makes of it where it begins.
#[derive(Drop)]
pub struct MapRef<'a, N> {
    names: &'a SortedNames,
    nodes: &'a Vec<N>,
}

impl<'a, N> Model for MapRef<'a, N> {
    ghost use Rattle.std.specs.Prelude.{List};
    ghost use Rattle.std.specs.List.{zip};
    ghost use Rattle.olk_spec.specs.Names.{Name};

    ghost Value = { List (Name × N) };

    ghost view = { λ m. zip m.names.now m.nodes.now.items };
}

impl<'a, N> MapRef<'a, N> {
    /// The map of these names, each with the node beside it.
    #[inline(always)]
    pub fn of(names: &'a SortedNames, nodes: &'a Vec<N>) -> MapRef<'a, N>
        ensures { result ≡ zip names.now nodes.now.items }
    {
        MapRef { names, nodes }
    }

    /// How many names there are.
    #[inline(always)]
    pub fn len(&self) -> usize
        ensures at_least { length self.now ≤ result }
        ensures ordered { Ascend (keys_in self.now) }
    {
        self.entries().len()
    }

    /// The names, each with what stands at it.
    #[inline(always)]
    pub fn entries(&self) -> Entries<'a, N>
        ensures { result ≡ self.now }
    {
        Entries::of(self.names, self.nodes)
    }
}
