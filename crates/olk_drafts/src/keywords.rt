//! As which keyword of 2020-12 a member of a schema object is read.
ghost use Rattle.std.specs.Prelude.{◌≡◌, option_map, is_some, cond};
ghost use Rattle.serde_json.specs.Find.{get_member};
ghost use Rattle.serde_json.specs.View.{view, members_view};
ghost use Rattle.olk_spec.specs.Names.{is_among};
ghost use Rattle.olk_drafts.specs.Drafts.{is_4};
ghost use Rattle.olk_drafts.specs.Keywords.{asserting, applying, since_6, since_7, since_2019, since_2020, is_later, is_ignored, is_exclusive, truth_at, has_text, has_array, refers, lists_items, excludes, has_id, is_idle, is_left_out, keyword_named, read_as};

use crate::drafts::Draft;
use serde_json::{Map, Value};

// ---- names

fn is_asserting(name: &str) -> bool
    ensures { result ≡ is_among name.now asserting }
{
    matches!(
        name,
        "type"
            | "enum"
            | "const"
            | "multipleOf"
            | "minimum"
            | "maximum"
            | "exclusiveMinimum"
            | "exclusiveMaximum"
            | "minLength"
            | "maxLength"
            | "pattern"
            | "format"
            | "minItems"
            | "maxItems"
            | "uniqueItems"
            | "minProperties"
            | "maxProperties"
            | "required"
    )
}

fn is_applying(name: &str) -> bool
    ensures { result ≡ is_among name.now applying }
{
    matches!(
        name,
        "properties"
            | "patternProperties"
            | "additionalProperties"
            | "propertyNames"
            | "dependencies"
            | "propertyDependencies"
            | "items"
            | "additionalItems"
            | "contains"
            | "allOf"
            | "anyOf"
            | "oneOf"
            | "not"
            | "if"
            | "then"
            | "else"
            | "id"
            | "$id"
    )
}

/// Whether a keyword says nothing beside a reference, to draft 7.
fn is_ignored(name: &str) -> bool
    ensures { result ≡ is_ignored name.now }
{
    is_asserting(name) || is_applying(name)
}

fn is_since_6(name: &str) -> bool
    ensures { result ≡ is_among name.now since_6 }
{
    matches!(name, "$id" | "const" | "contains" | "propertyNames")
}

fn is_since_7(name: &str) -> bool
    ensures { result ≡ is_among name.now since_7 }
{
    matches!(name, "if" | "then" | "else")
}

fn is_since_2019(name: &str) -> bool
    ensures { result ≡ is_among name.now since_2019 }
{
    matches!(
        name,
        "$recursiveRef"
            | "minContains"
            | "maxContains"
            | "dependentRequired"
            | "dependentSchemas"
            | "unevaluatedItems"
            | "unevaluatedProperties"
    )
}

fn is_since_2020(name: &str) -> bool
    ensures { result ≡ is_among name.now since_2020 }
{
    matches!(name, "$dynamicRef" | "prefixItems")
}

fn is_exclusive(name: &str) -> bool
    ensures { result ≡ is_exclusive name.now }
{
    matches!(name, "exclusiveMinimum" | "exclusiveMaximum")
}

// ---- members

fn member<'v>(members: &'v Map<String, Value>, name: &str) -> Option<&'v Value>
    ensures { option_map (λ v. view v.now) result
        ≡ get_member name.now (members_view members.now.entries) }
{
    members.get(name)
}

pub(crate) fn has_member(members: &Map<String, Value>, name: &str) -> bool
    ensures { result ≡ is_some (get_member name.now (members_view members.now.entries)) }
{
    match member(members, name) {
        Some(_) => true,
        None => false,
    }
}

fn has_text(members: &Map<String, Value>, name: &str) -> bool
    ensures { result ≡ has_text name.now (members_view members.now.entries) }
{
    match member(members, name) {
        Some(value) => value.is_string(),
        None => false,
    }
}

fn has_array(members: &Map<String, Value>, name: &str) -> bool
    ensures { result ≡ has_array name.now (members_view members.now.entries) }
{
    match member(members, name) {
        Some(value) => value.is_array(),
        None => false,
    }
}

fn truth_at(members: &Map<String, Value>, name: &str) -> Option<bool>
    ensures { result ≡ truth_at name.now (members_view members.now.entries) }
{
    match member(members, name) {
        Some(value) => value.as_bool(),
        None => None,
    }
}

// ---- members by a draft

impl Draft {
    /// The keyword of 2020-12 as which a member of a schema object is read, beside the others, or
    /// none where it is left out. In the order of the drafts:
    ///
    /// - A keyword of a later draft is left out.
    /// - To draft 7, a keyword beside a `$ref` that is a text is left out (draft 7 Core, 8.3).
    /// - To 2019-09, `items` that is a list is `prefixItems`, and `additionalItems` beside it is
    ///   `items`, and left out otherwise (2019-09 Core, 9.3.1).
    /// - In draft 4, a bound beside a true `exclusiveMinimum` or `exclusiveMaximum` has that name,
    ///   and a truth value there is left out (draft 4 Validation, 5.1.2 and 5.1.3). An `id` that
    ///   is a text is `$id`.
    pub fn keyword<'n>(self, members: &Map<String, Value>, name: &'n str) -> Option<&'n str>
        ensures { option_map (λ k. k.now) result
            ≡ read_as self (members_view members.now.entries) name.now }
    {
        if self.leaves_out(members, name) {
            None
        } else {
            Some(self.keyword_named(members, name))
        }
    }

    fn is_before(self, name: &str) -> bool
        ensures { result ≡ is_later self name.now }
    {
        match self {
            Draft::Draft4 => {
                is_since_6(name) || is_since_7(name) || is_since_2019(name) || is_since_2020(name)
            }
            Draft::Draft6 => is_since_7(name) || is_since_2019(name) || is_since_2020(name),
            Draft::Draft7 => is_since_2019(name) || is_since_2020(name),
            Draft::Draft201909 => is_since_2020(name),
            Draft::Draft202012 => false,
        }
    }

    pub(crate) fn is_4(self) -> bool
        ensures { result ≡ is_4 self }
    {
        match self {
            Draft::Draft4 => true,
            _ => false,
        }
    }

    fn refers(self, members: &Map<String, Value>) -> bool
        ensures { result ≡ refers self (members_view members.now.entries) }
    {
        self.is_up_to_7() && has_text(members, "$ref")
    }

    pub(crate) fn lists_items(self, members: &Map<String, Value>) -> bool
        ensures { result ≡ lists_items self (members_view members.now.entries) }
    {
        self.is_up_to_2019() && has_array(members, "items")
    }

    pub(crate) fn excludes(self, members: &Map<String, Value>, name: &str) -> bool
        ensures { result ≡ excludes self (members_view members.now.entries) name.now }
    {
        self.is_4() && truth_at(members, name).unwrap_or(false)
    }

    pub(crate) fn has_id(self, members: &Map<String, Value>) -> bool
        ensures { result ≡ has_id self (members_view members.now.entries) }
    {
        self.is_4() && has_text(members, "id")
    }

    /// Whether a member says nothing for itself.
    fn is_idle(self, members: &Map<String, Value>, name: &str) -> bool
        ensures { result ≡ is_idle self (members_view members.now.entries) name.now }
    {
        (name == "additionalItems" && self.is_up_to_2019() && !self.lists_items(members))
            || (is_exclusive(name) && self.is_4() && truth_at(members, name).is_some())
    }

    fn leaves_out(self, members: &Map<String, Value>, name: &str) -> bool
        ensures { result ≡ is_left_out self (members_view members.now.entries) name.now }
    {
        self.is_before(name)
            || (is_ignored(name) && self.refers(members))
            || self.is_idle(members, name)
    }

    fn keyword_named<'n>(self, members: &Map<String, Value>, name: &'n str) -> &'n str
        ensures { result.now ≡ keyword_named self (members_view members.now.entries) name.now }
    {
        match name {
            "items" => choose(self.lists_items(members), "prefixItems", name),
            "additionalItems" => choose(self.lists_items(members), "items", name),
            "minimum" => {
                let is_excluded = self.excludes(members, "exclusiveMinimum");
                choose(is_excluded, "exclusiveMinimum", name)
            }
            "maximum" => {
                let is_excluded = self.excludes(members, "exclusiveMaximum");
                choose(is_excluded, "exclusiveMaximum", name)
            }
            "id" => choose(self.has_id(members), "$id", name),
            _ => name,
        }
    }
}

pub(crate) fn choose<'n>(condition: bool, one: &'n str, other: &'n str) -> &'n str
    ensures { result.now ≡ cond condition one.now other.now }
{
    if condition { one } else { other }
}
