//! `propertyDependencies`: what its validator holds.
ghost use Rattle.std.specs.Prelude.{◌≡◌, option_copied, option_to_list};
ghost use Rattle.serde_json.specs.View.{view};
ghost use Rattle.olk_tree.specs.PropertyDependencies.{chosen_at};

use crate::map::SmallMap;
use crate::validators_map::PropertiesValidatorsMap;
use olk_reports::Location;
use serde_json::Value;

/// `propertyDependencies`: where the member at a key is a text that the key's entry holds, the
/// subschema at that text is to accept the object. It is in no published version of JSON Schema.
#[derive(Drop)]
pub struct PropertyDependencies<N> {
    pub dependencies: SmallMap<SmallMap<N>>,
    pub location: Location,
}

impl<N> SmallMap<N> {
    /// What stands at the text that the value is.
    pub fn chosen_by(&self, value: &Value) -> Option<&N>
        ensures { option_to_list (option_copied result) ≡ chosen_at self.now (view value.now) }
    {
        match value.as_str() {
            Some(text) => self.get_validator(text),
            None => None,
        }
    }
}
