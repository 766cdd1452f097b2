//! A map of few names, or of many.
ghost use Rattle.std.specs.Prelude.{◌≡◌};
ghost use Rattle.olk_tree.specs.Maps.{mapped};

use crate::big_map::BigMap;
use crate::entries::Entries;
use crate::map::SmallMap;
use crate::map_ref::MapRef;
use crate::validators_map::PropertiesValidatorsMap;

/// A map of few names, or of many.
#[derive(Drop)]
pub enum PropertiesMap<N> {
    /// A map of few names.
    Small(SmallMap<N>),
    /// A map of many names.
    Big(BigMap<N>),
}

impl<N> PropertiesMap<N> {
    /// The map, lent.
    #[inline(always)]
    pub fn as_map(&self) -> MapRef<'_, N>
        ensures { result ≡ mapped self.now }
    {
        match self {
            PropertiesMap::Small(map) => map.as_map(),
            PropertiesMap::Big(map) => map.as_map(),
        }
    }

    /// The names, each with what stands at it.
    #[inline(always)]
    pub fn entries(&self) -> Entries<'_, N>
        ensures { result ≡ mapped self.now }
    {
        match self {
            PropertiesMap::Small(map) => map.entries(),
            PropertiesMap::Big(map) => map.entries(),
        }
    }
}

impl<N> PropertiesValidatorsMap<N> for PropertiesMap<N> {
    ghost use Rattle.olk_tree.specs.Maps.{mapped};

    ghost entries = { mapped };

    fn get_validator(&self, name: &str) -> Option<&N> {
        self.entries().node_from(0, name).1
    }

    fn get_key_validator(&self, name: &str) -> Option<(&str, &N)> {
        self.entries().get(name)
    }
}
