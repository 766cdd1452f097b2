//! Few names in order, and what stands at each.
ghost use Rattle.std.specs.Prelude.{◌≡◌};
ghost use Rattle.serde_json.specs.View.{members_view};
ghost use Rattle.olk_spec.specs.Schemas.{listed};
ghost use Rattle.olk_tree.specs.Maps.{named};
ghost use Rattle.olk_tree.specs.Visited.{left_of, members_declared, names_met};

use crate::declared::DeclaredMembers;
use crate::entries::Entries;
use crate::map_ref::MapRef;
use crate::names::SortedNames;
use crate::validators_map::PropertiesValidatorsMap;
use serde_json::{Map, Value};

/// Few names in order, and what stands at each.
#[derive(Drop)]
pub struct SmallMap<N> {
    pub names: SortedNames,
    /// As many as the names, in their order.
    pub nodes: Vec<N>,
}

impl<N> SmallMap<N> {
    /// The map, lent.
    #[inline(always)]
    pub fn as_map(&self) -> MapRef<'_, N>
        ensures { result ≡ named self.now }
    {
        MapRef::of(&self.names, &self.nodes)
    }

    /// The names, each with what stands at it.
    #[inline(always)]
    pub fn entries(&self) -> Entries<'_, N>
        ensures { result ≡ named self.now }
    {
        Entries::of(&self.names, &self.nodes)
    }

    /// The members whose names the map has, each with what stands at its name.
    pub fn declared_members<'a>(&'a self, members: &'a Map<String, Value>) -> DeclaredMembers<'a, N>
        ensures by_members { left_of result
            ≡ members_declared (named self.now) (listed (members_view members.now.entries)) }
        ensures by_names { left_of result
            ≡ names_met (named self.now) (listed (members_view members.now.entries)) }
    {
        DeclaredMembers::of(self.entries(), members)
    }
}

impl<N> PropertiesValidatorsMap<N> for SmallMap<N> {
    ghost use Rattle.olk_tree.specs.Maps.{named};

    ghost entries = { named };

    fn get_validator(&self, name: &str) -> Option<&N> {
        self.entries().node_from(0, name).1
    }

    fn get_key_validator(&self, name: &str) -> Option<(&str, &N)> {
        self.entries().get(name)
    }
}
