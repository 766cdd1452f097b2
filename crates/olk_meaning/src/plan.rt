//! Whose validator stands for each keyword of an object.
ghost use Rattle.std.specs.Prelude.{◌≡◌, ◌||◌, false, is_some, map, option_map};
ghost use Rattle.serde_json.specs.View.{view, members_view};
ghost use Rattle.olk_spec.specs.Schemas.{listed, is_object, is_truth};
ghost use Rattle.olk_spec.specs.Malformed.{has_repeat};
ghost use Rattle.olk_meaning.specs.Conditions.{is_condition, is_restricted};
ghost use Rattle.olk_meaning.specs.Fused.{declares_few, allows_others, two_names, fused_pair, refuses_others, one_name, fused_one};
ghost use Rattle.olk_meaning.specs.Plans.{plan_of, planned};

use crate::members::{has_member, member};
use olk_spec::HASHMAP_THRESHOLD;
use serde_json::{Map, Value};

/// What is decided of an object's keywords once, from its members: the two names that `properties`
/// fuses from `required`, whether `if` is read, whether `additionalProperties` restricts other
/// members, and the name that it fuses.
#[derive(Clone, Copy)]
pub struct Plan<'a> {
    fused_pair: Option<(&'a str, &'a str)>,
    condition: bool,
    restricted: bool,
    fused_one: Option<&'a str>,
}

/// Whether few names are declared.
fn declares_few(value: Option<&Value>) -> bool
    ensures { result ≡ declares_few (option_map (λ v. view v.now) value.entry) }
{
    if let Some(value) = value
        && let Some(declared) = value.as_object()
    {
        declared.len() < HASHMAP_THRESHOLD
    } else {
        false
    }
}

/// Whether `additionalProperties` allows every other member.
fn allows_others(value: Option<&Value>) -> bool
    ensures { result ≡ allows_others (option_map (λ v. view v.now) value.entry) }
{
    match value {
        Some(value) => value.as_bool() == Some(true),
        None => true,
    }
}

/// The two names that `required` lists, where it lists two that differ.
fn two_names(value: Option<&Value>) -> Option<(&str, &str)>
    ensures { option_map (λ t. (t.0.now, t.1.now)) result
        ≡ two_names (option_map (λ v. view v.now) value.entry) }
{
    let items = value?.as_array()?.as_slice();
    if items.len() != 2 {
        return None;
    }
    let first = items[0].as_str()?;
    let second = items[1].as_str()?;
    if first == second {
        return None;
    }
    Some((first, second))
}

/// The two names that `properties` fuses in an object with these members: it does where few names
/// are declared, no other keyword tells members by their names, and `required` lists two names that
/// differ.
fn fused_pair(members: &Map<String, Value>) -> Option<(&str, &str)>
    ensures { option_map (λ t. (t.0.now, t.1.now)) result
        ≡ fused_pair (members_view members.now.entries) }
{
    if declares_few(member(members, "properties"))
        && !has_member(members, "patternProperties")
        && allows_others(member(members, "additionalProperties"))
    {
        two_names(member(members, "required"))
    } else {
        None
    }
}

/// Whether `additionalProperties` refuses every other member.
fn refuses_others(value: Option<&Value>) -> bool
    ensures { result ≡ refuses_others (option_map (λ v. view v.now) value.entry) }
{
    match value {
        Some(value) => value.as_bool() == Some(false),
        None => false,
    }
}

/// The name that `required` lists, where it lists one.
fn one_name(value: Option<&Value>) -> Option<&str>
    ensures { option_map (λ t. t.now) result
        ≡ one_name (option_map (λ v. view v.now) value.entry) }
{
    let items = value?.as_array()?.as_slice();
    if items.len() != 1 {
        return None;
    }
    items[0].as_str()
}

/// The name that `additionalProperties` fuses in an object with these members: it does where it
/// refuses every other member, names are declared, no patterns tell members by their names, and
/// `required` lists one name.
fn fused_one(members: &Map<String, Value>) -> Option<&str>
    ensures { option_map (λ t. t.now) result ≡ fused_one (members_view members.now.entries) }
{
    if refuses_others(member(members, "additionalProperties"))
        && has_member(members, "properties")
        && !has_member(members, "patternProperties")
    {
        one_name(member(members, "required"))
    } else {
        None
    }
}

/// Whether `if` is read in an object with these members: it is beside `then` or `else` alone (JSON
/// Schema 2020-12 Core, 10.2.2).
pub fn is_condition(members: &Map<String, Value>) -> bool
    ensures { result ≡ is_condition (members_view members.now.entries) }
{
    has_member(members, "if") && (has_member(members, "then") || has_member(members, "else"))
}

/// Whether a value of `additionalProperties` holds other members to anything.
fn is_restriction(value: &Value) -> bool
    ensures { result ≡ (is_truth false (view value.now) || is_object (view value.now)) }
{
    value.as_bool() == Some(false) || value.is_object()
}

/// Whether the members of values that an object with these members neither declares nor matches are
/// held to anything: `additionalProperties` is `false` or an object (JSON Schema 2020-12 Core,
/// 10.3.2.3).
pub fn is_restricted(members: &Map<String, Value>) -> bool
    ensures { result ≡ is_restricted (members_view members.now.entries) }
{
    match member(members, "additionalProperties") {
        Some(value) => is_restriction(value),
        None => false,
    }
}

impl<'a> Plan<'a> {
    /// The plan of an object with these members, of which no two have one name.
    pub fn of(members: &'a Map<String, Value>) -> Plan<'a>
        ensures plan { planned result ≡ plan_of (members_view members.now.entries) }
        ensures distinct { has_repeat (map (λ m. m.0) (listed (members_view members.now.entries)))
            ≡ false }
    {
        // Here for what it says of the names' order too.
        let count = members.len();
        let restricted = is_restricted(members);
        if count < 2 {
            return Plan {
                fused_pair: None,
                condition: false,
                restricted,
                fused_one: None,
            };
        }
        Plan {
            fused_pair: fused_pair(members),
            condition: is_condition(members),
            restricted,
            fused_one: fused_one(members),
        }
    }

    /// The two names of `required` for which the validator of `properties` stands too, if any.
    pub fn fused_pair(self) -> Option<(&'a str, &'a str)>
        ensures { option_map (λ t. (t.0.now, t.1.now)) result ≡ (planned self.entry).fused_pair }
    {
        self.fused_pair
    }

    /// Whether the validator of `properties` stands for `required` too.
    pub fn fuses(self) -> bool
        ensures { result ≡ is_some (planned self.entry).fused_pair }
    {
        Option::is_some(&self.fused_pair)
    }

    /// Whether `if` is read, and its validator stands for `then` and `else` too.
    pub fn is_condition(self) -> bool
        ensures { result ≡ (planned self.entry).condition }
    {
        self.condition
    }

    /// Whether the validator of `additionalProperties` stands for `properties` and
    /// `patternProperties` too.
    pub fn is_restricted(self) -> bool
        ensures { result ≡ (planned self.entry).restricted }
    {
        self.restricted
    }

    /// The name of `required` for which the validator of `additionalProperties` stands too, if any.
    pub fn fused_one(self) -> Option<&'a str>
        ensures { option_map (λ t. t.now) result ≡ (planned self.entry).fused_one }
    {
        self.fused_one
    }
}
