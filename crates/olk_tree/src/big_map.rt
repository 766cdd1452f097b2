//! Many names in order, and what stands at each.
ghost use Rattle.std.specs.Prelude.{◌≡◌};
ghost use Rattle.olk_tree.specs.Maps.{named_of_many};

use crate::entries::Entries;
use crate::map_ref::MapRef;
use crate::names::SortedNames;
use crate::validators_map::PropertiesValidatorsMap;

/// Many names in order, and what stands at each.
#[derive(Drop)]
pub struct BigMap<N> {
    pub names: SortedNames,
    /// As many as the names, in their order.
    pub nodes: Vec<N>,
}

impl<N> BigMap<N> {
    /// The map, lent.
    #[inline(always)]
    pub fn as_map(&self) -> MapRef<'_, N>
        ensures { result ≡ named_of_many self.now }
    {
        MapRef::of(&self.names, &self.nodes)
    }

    /// The names, each with what stands at it.
    #[inline(always)]
    pub fn entries(&self) -> Entries<'_, N>
        ensures { result ≡ named_of_many self.now }
    {
        Entries::of(&self.names, &self.nodes)
    }
}

impl<N> PropertiesValidatorsMap<N> for BigMap<N> {
    ghost use Rattle.olk_tree.specs.Maps.{named_of_many};

    ghost entries = { named_of_many };

    fn get_validator(&self, name: &str) -> Option<&N> {
        self.entries().node_from(0, name).1
    }

    fn get_key_validator(&self, name: &str) -> Option<(&str, &N)> {
        self.entries().get(name)
    }
}
