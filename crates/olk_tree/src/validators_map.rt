//! What finds the subschemas that are declared for names.
ghost use Rattle.std.specs.Prelude.{◌≡◌, IfSome, option_copied, option_map};
ghost use Rattle.olk_spec.specs.Names.{lookup_name};

/// A finite map from names to what stands at them.
///
/// Two maps of the same entries answer alike. No look-up takes memory.
pub trait PropertiesValidatorsMap<N> {
    ghost use Rattle.std.specs.Prelude.{List};
    ghost use Rattle.olk_spec.specs.Names.{Name};

    // the names, with what stands at each
    ghost entries: { Self → List (Name × N) };

    /// What stands at the name.
    fn get_validator(&self, name: &str) -> Option<&N>
        ensures { option_copied result ≡ lookup_name name.now (entries self.now) };

    /// The name as it is declared, and what stands at it.
    fn get_key_validator(&self, name: &str) -> Option<(&str, &N)>
        ensures key { IfSome result (λ found. found.0.now ≡ name.now) }
        ensures validator { option_map (λ found. found.1.now) result
            ≡ lookup_name name.now (entries self.now) };
}
