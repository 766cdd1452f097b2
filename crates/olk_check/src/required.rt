//! `required`: its verdict.
ghost use Rattle.std.specs.Prelude.{◌≡◌, ◌&&◌, ◌||◌, [], ◌∷◌, bytes_eq};
ghost use Rattle.serde_json.specs.Data.{object};
ghost use Rattle.serde_json.specs.View.{members_view};
ghost use Rattle.olk_spec.specs.Names.{is_empty};
ghost use Rattle.olk_spec.specs.Accepts.{missing};
ghost use Rattle.olk_spec.specs.Schemas.{has};
ghost use Rattle.olk_tree.specs.Maps.{texts_of};

use crate::Check;
use olk_base::{Asked, ValidationContext, is_same_text};
use olk_meaning::has_member;
use olk_tree::required::RequiredValidator;
use serde_json::{Map, Value};

// So few members are walked: a look-up takes longer.
const FEW_MEMBERS: usize = 16;

/// Each listed name is to be a member, where the value is an object (JSON Schema 2020-12
/// Validation, 6.5.3).
impl Check for RequiredValidator {
    #[inline(never)]
    fn check<A: Asked>(&self, asked: A, _ctx: &mut ValidationContext) -> bool {
        match asked.as_object() {
            Some(members) => has_each(members, &self.required),
            None => true,
        }
    }
}

/// Whether there is a member at each name.
#[tactic(auto, using(crate::proofs::Missing::lacking))]
fn has_each(members: &Map<String, Value>, names: &Vec<String>) -> bool
    ensures { result ≡ is_empty
        (missing (texts_of names.now.items) (object (members_view members.now.entries))) }
{
    for name in names {
        if !is_present(members, name.as_str()) {
            return false;
        }
    }
    true
}

/// Whether there is a member at both names.
pub(crate) fn has_both(members: &Map<String, Value>, first: &str, second: &str) -> bool
    ensures { result ≡ is_empty
        (missing (first.now ∷ second.now ∷ []) (object (members_view members.now.entries))) }
{
    if members.len() > FEW_MEMBERS {
        has_member(members, first) && has_member(members, second)
    } else {
        has_both_of_few(members, first, second)
    }
}

/// Whether there is a member at the name (JSON Schema 2020-12 Validation, 6.5.3).
#[inline(always)]
pub fn is_present(members: &Map<String, Value>, name: &str) -> bool
    ensures { result ≡ has name.now (object (members_view members.now.entries)) }
{
    if members.len() > FEW_MEMBERS {
        return has_member(members, name);
    }
    for (key, _) in members {
        if is_same_text(key.as_str(), name) {
            return true;
        }
    }
    false
}

/// Whether there is a member at both names, found in one walk.
fn has_both_of_few(members: &Map<String, Value>, first: &str, second: &str) -> bool
    ensures { result ≡ (has first.now (object (members_view members.now.entries))
        && has second.now (object (members_view members.now.entries))) }
{
    let (mut has_first, mut has_second) = (false, false);
    for (key, _) in members {
        let key = key.as_str();
        has_first = is_met(has_first, key, first);
        has_second = is_met(has_second, key, second);
        if has_first && has_second {
            return true;
        }
    }
    false
}

/// Whether the name was met before, or is this key.
#[inline(always)]
pub(crate) fn is_met(met: bool, key: &str, name: &str) -> bool
    ensures { result ≡ (bytes_eq key.now name.now || met) }
{
    is_same_text(key, name) || met
}
