//! What the document's keywords in a schema object know of their neighbours, and which entries are
//! read.
ghost use Rattle.std.specs.Prelude.{◌≡◌, option_to_list, codes, length};
ghost use Rattle.olk_spec.specs.Malformed.{items_of_array};
ghost use Rattle.serde_json.specs.View.{view, members_view};
ghost use Rattle.olk_build.specs.Building.{is_read};
ghost use Rattle.olk_document_build.specs.Reading.{skipped, bound_of, least_of};

use olk_numbers::natural;
use serde_json::{Map, Value};

/// The whole number at a name.
fn bound(members: &Map<String, Value>, name: &str) -> Option<u64>
    ensures { option_to_list result ≡ bound_of (members_view members.now.entries) name.now }
{
    match members.get(name) {
        Some(value) => natural(value),
        None => None,
    }
}

/// How many items a value has.
fn count_of_items(value: &Value) -> usize
    ensures { result ≡ length (items_of_array (view value.now)) }
{
    match value.as_array() {
        Some(items) => items.len(),
        None => 0,
    }
}

/// How many schemas `prefixItems` has.
pub fn skipped(members: &Map<String, Value>) -> usize
    ensures { result ≡ skipped (members_view members.now.entries) }
{
    match members.get("prefixItems") {
        Some(value) => count_of_items(value),
        None => 0,
    }
}

/// How many items `contains` wants at least (JSON Schema 2020-12 Validation, 6.4.5).
pub fn least(members: &Map<String, Value>) -> u64
    ensures { result ≡ least_of (members_view members.now.entries) }
{
    match bound(members, "minContains") {
        Some(least) => least,
        None => 1,
    }
}

/// How many items `contains` wants at most (JSON Schema 2020-12 Validation, 6.4.4).
pub fn most(members: &Map<String, Value>) -> Option<u64>
    ensures { option_to_list result
        ≡ bound_of (members_view members.now.entries) (codes "maxContains") }
{
    bound(members, "maxContains")
}

/// Whether an entry of an object is read as a schema: each is, but for arrays where these are
/// passed over.
pub(crate) fn is_read(passes_arrays: bool, entry: &Value) -> bool
    ensures { result ≡ is_read passes_arrays (view entry.now) }
{
    !(passes_arrays && entry.is_array())
}
