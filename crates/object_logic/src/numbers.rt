//! Whether the numbers of a value are whole numbers of 64 bits.
ghost use Rattle.std.specs.Prelude.{◌≡◌, not};
ghost use Rattle.serde_json.specs.View.{view, items_view, members_view};
ghost use Rattle.serde_json.specs.Written.{has_float, items_have_float, members_have_float};

use serde_json::{Map, Value};

/// Whether each number in the value is a whole number of 64 bits, one that answers `as_i64` or
/// `as_u64`.
///
/// Takes no memory.
#[cycle(numbers)]
pub fn holds_whole_numbers(value: &Value) -> bool
    ensures { result ≡ not (has_float (view value.now)) }
{
    match value {
        Value::Null | Value::Bool(_) | Value::String(_) => true,
        Value::Number(number) => !number.is_f64(),
        Value::Array(items) => items_hold_whole_numbers(items),
        Value::Object(members) => members_hold_whole_numbers(members),
    }
}

#[cycle(numbers)]
fn items_hold_whole_numbers(items: &Vec<Value>) -> bool
    ensures { result ≡ not (items_have_float (items_view items.now.items)) }
{
    for item in items {
        if !holds_whole_numbers(item) {
            return false;
        }
    }
    true
}

#[cycle(numbers)]
fn members_hold_whole_numbers(members: &Map<String, Value>) -> bool
    ensures { result ≡ not (members_have_float (members_view members.now.entries)) }
{
    for (_, member) in members.iter() {
        if !holds_whole_numbers(member) {
            return false;
        }
    }
    true
}
