//! Names in order, and what stands at each, as maps lend them.
ghost use Rattle.std.specs.Prelude.{◌≡◌, ◌≤◌, IfSome, length, option_copied, option_map};
ghost use Rattle.std.specs.List.{zip};
ghost use Rattle.olk_spec.specs.Names.{lookup_name};
ghost use Rattle.olk_tree.specs.Entries.{each_left, NextEntry};
ghost use Rattle.olk_tree.specs.Ascending.{Ascend};
ghost use Rattle.olk_tree.specs.Maps.{keys_in, placed_entries};

use crate::names::{SortedNames, find_apart, stands_at};
use crate::sorted_name::SortedName;
use std::marker::Model;
use std::slice;

/// Names in strictly ascending order of their bytes, and what stands at each, borrowed.
#[derive(Drop)]
pub struct Entries<'a, N> {
    names: &'a [SortedName],
    nodes: &'a [N],
}

impl<'a, N> Model for Entries<'a, N> {
    ghost use Rattle.std.specs.Prelude.{List};
    ghost use Rattle.std.specs.List.{zip};
    ghost use Rattle.olk_spec.specs.Names.{Name};
    ghost use Rattle.olk_tree.specs.Ascending.{AscendWithin};
    ghost use Rattle.olk_tree.specs.Sorted.{names_of};

    ghost Value = { List (Name × N) };

    ghost view = { λ m. zip (names_of m.names.now) m.nodes.now };

    ghost invariant = { λ m. AscendWithin (names_of m.names.now) m.nodes.now };
}

impl<'a, N> Entries<'a, N> {
    /// The entries of these names, each with the node beside it.
    #[inline(always)]
    pub fn of(names: &'a SortedNames, nodes: &'a [N]) -> Entries<'a, N>
        ensures { result ≡ zip names.now nodes.now }
    {
        let count = names.len().min(nodes.len());
        Entries {
            names: &names.as_slice()[..count],
            nodes,
        }
    }

    /// How many names there are.
    #[inline(always)]
    pub fn len(&self) -> usize
        ensures at_least { length self.now ≤ result }
        ensures ordered { Ascend (keys_in self.now) }
    {
        self.names.len()
    }

    /// The entries one by one, in order.
    #[inline(always)]
    pub fn iter(&self) -> EachEntry<'a, N>
        ensures { each_left result ≡ self.now }
    {
        EachEntry {
            names: self.names.iter(),
            nodes: self.nodes.iter(),
        }
    }

    /// What stands at the name, looked for at `hint` first, and where to look first for a later
    /// name.
    ///
    /// Names that are asked for in ascending order are found in step. It is the same with every
    /// hint, so nothing is promised of the next one.
    #[inline(always)]
    pub fn node_from(&self, hint: usize, name: &str) -> (usize, Option<&'a N>)
        ensures { option_copied result.1 ≡ lookup_name name.now self.now }
    {
        if stands_at(self.names, hint, name) {
            return (hint.wrapping_add(1), Some(&self.nodes[hint]));
        }
        match find_apart(self.names, hint, name) {
            Ok(place) => (place.wrapping_add(1), Some(&self.nodes[place])),
            Err(next) => (next, None),
        }
    }

    /// The place of the name and what stands at it, looked for at `hint` first, and where to look
    /// first for a later name.
    ///
    /// Both are the same with every hint, so nothing is promised of the next one.
    #[inline(always)]
    pub fn placed_from(&self, hint: usize, name: &str) -> (usize, Option<(usize, &'a N)>)
        ensures { option_map (λ f. (f.0, f.1.now)) result.1
            ≡ lookup_name name.now (placed_entries self.now) }
    {
        if stands_at(self.names, hint, name) {
            return (hint.wrapping_add(1), Some((hint, &self.nodes[hint])));
        }
        match find_apart(self.names, hint, name) {
            Ok(place) => (place.wrapping_add(1), Some((place, &self.nodes[place]))),
            Err(next) => (next, None),
        }
    }

    /// The name as it is held, and what stands at it.
    pub fn get(&self, name: &str) -> Option<(&'a str, &'a N)>
        ensures key { IfSome result (λ found. found.0.now ≡ name.now) }
        ensures node { option_map (λ found. found.1.now) result
            ≡ lookup_name name.now self.now }
    {
        match find_apart(self.names, 0, name) {
            Ok(place) => Some((self.names[place].as_str(), &self.nodes[place])),
            Err(_) => None,
        }
    }
}

/// Names in order, and what stands at each, one by one.
#[derive(Drop)]
pub struct EachEntry<'a, N> {
    names: slice::Iter<'a, SortedName>,
    nodes: slice::Iter<'a, N>,
}

impl<'a, N> Iterator for EachEntry<'a, N> {
    ghost use Rattle.std.specs.Iterator.{item_count};
    ghost use Rattle.olk_tree.specs.Entries.{each_left, NextEntry};

    type Item = (&'a str, &'a N);

    ghost next_gives = { λ s r t. NextEntry r (each_left s) (each_left t) };

    ghost remaining = { item_count each_left };

    #[inline(always)]
    fn next(&mut self) -> Option<(&'a str, &'a N)> {
        let name = self.names.next()?;
        let node = self.nodes.next()?;
        Some((name.as_str(), node))
    }
}
