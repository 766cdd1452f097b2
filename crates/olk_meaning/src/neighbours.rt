//! What a keyword has to know of its neighbours.
ghost use Rattle.std.specs.Prelude.{◌≡◌, option_map};
ghost use Rattle.serde_json.specs.View.{members_view};
ghost use Rattle.olk_meaning.specs.AdditionalProperties.{declared_beside};
ghost use Rattle.olk_meaning.specs.Conditions.{declared_in, known, known_of};

use crate::members::member;
use crate::plan::{is_condition, is_restricted};
use serde_json::{Map, Value};

/// What a keyword of a schema object has to know of the other members when its value is read:
/// whether `if` is read there, and where `additionalProperties` restricts other members, the
/// entries of `properties`. They are looked up when they are asked for.
#[derive(Clone, Copy)]
pub struct Neighbours<'a> {
    members: &'a Map<String, Value>,
}

/// The entries of `properties`, where it is an object.
fn declared(members: &Map<String, Value>) -> Option<&Map<String, Value>>
    ensures { declared_in (option_map (λ m. m.now) result)
        ≡ declared_beside (members_view members.now.entries) }
{
    member(members, "properties")?.as_object()
}

impl<'a> Neighbours<'a> {
    /// What is to be known in an object with these members.
    pub fn of(members: &'a Map<String, Value>) -> Neighbours<'a>
        ensures { known result ≡ known_of (members_view members.now.entries) }
    {
        Neighbours { members }
    }

    /// Whether `if` is read: it is beside `then` or `else` alone (JSON Schema 2020-12 Core,
    /// 10.2.2).
    pub fn is_condition(self) -> bool
        ensures { result ≡ (known self.entry).condition }
    {
        is_condition(self.members)
    }

    /// The entries of `properties`, where other members are restricted (JSON Schema 2020-12 Core,
    /// 10.3.2.3) and it is an object.
    pub fn declared(self) -> Option<&'a Map<String, Value>>
        ensures { declared_in (option_map (λ m. m.now) result) ≡ (known self.entry).declared }
    {
        if is_restricted(self.members) {
            declared(self.members)
        } else {
            None
        }
    }
}
