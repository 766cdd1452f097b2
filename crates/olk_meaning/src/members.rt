//! Looking up members.
ghost use Rattle.std.specs.Prelude.{◌≡◌, false, map, option_map};
ghost use Rattle.serde_json.specs.Data.{object};
ghost use Rattle.serde_json.specs.View.{view, members_view};
ghost use Rattle.olk_spec.specs.Names.{lookup_name};
ghost use Rattle.olk_spec.specs.Malformed.{has_repeat};
ghost use Rattle.olk_spec.specs.Schemas.{listed, has};

use serde_json::{Map, Value};

/// The member at the name (RFC 8259, section 4).
pub fn member<'v>(members: &'v Map<String, Value>, name: &str) -> Option<&'v Value>
    ensures { option_map (λ v. view v.now) result ≡ lookup_name name.now
        (listed (members_view members.now.entries)) }
{
    members.get(name)
}

/// Whether there is a member at the name (RFC 8259, section 4).
pub fn has_member(members: &Map<String, Value>, name: &str) -> bool
    ensures { result ≡ has name.now (object (members_view members.now.entries)) }
{
    members.contains_key(name)
}

/// The names of an object's members are distinct.
#[inline(always)]
pub fn law_of_names(members: &Map<String, Value>)
    ensures { has_repeat (map (λ m. m.0) (listed (members_view members.now.entries))) ≡ false }
{
    let _members = members.iter();
}
