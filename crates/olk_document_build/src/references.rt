//! The references that are read in a schema.
ghost use Rattle.std.specs.Prelude.{◌≡◌, ◌++◌, OnOk};
ghost use Rattle.serde_json.specs.Data.{object};
ghost use Rattle.serde_json.specs.View.{view, members_view, items_view};
ghost use Rattle.olk_spec.specs.World.{World};
ghost use Rattle.olk_spec.specs.Schemas.{listed};
ghost use Rattle.olk_spec.specs.Malformed.{items_list};
ghost use Rattle.olk_build.specs.Building.{entries_read};
ghost use Rattle.olk_document_spec.specs.Keywords.{document_keyword};
ghost use Rattle.olk_document_spec.specs.Malformed.{references_read};
ghost use Rattle.olk_document_build.specs.References.{itself_where, member_reads, text_of_reference, schemas_of, inner_schemas, schemas_read, references_in, as_texts, AppendsTexts};

use crate::reading::is_read;
use olk_base::append;
use olk_build::shape::ReadPlaces;
use olk_meaning::{has_member, is_condition};
use serde_json::{Map, Value};
use std::alloc::AllocError;

/// The value itself, where it is read.
fn itself_where(read: bool) -> ReadPlaces
    ensures { result ≡ itself_where read }
{
    if read {
        ReadPlaces::Itself
    } else {
        ReadPlaces::Nothing
    }
}

/// Which places a member of a schema object reads in its value.
fn places_read(members: &Map<String, Value>, name: &str, value: &Value) -> ReadPlaces
    ensures { (W : World) → result
        ≡ member_reads (members_view members.now.entries) (view value.now) W name.now }
{
    match name {
        "properties" | "patternProperties" | "dependentSchemas" => ReadPlaces::Entries,
        "dependencies" => ReadPlaces::SchemaEntries,
        "propertyDependencies" => ReadPlaces::InnerEntries,
        "allOf" | "anyOf" | "oneOf" | "prefixItems" => ReadPlaces::Branches,
        "not" | "items" | "contains" => ReadPlaces::Itself,
        "additionalProperties" | "propertyNames" => itself_where(value.is_object()),
        "if" => itself_where(is_condition(members)),
        "then" | "else" => itself_where(has_member(members, "if")),
        _ => ReadPlaces::Nothing,
    }
}

/// Appends the text of a member, if it is a reference.
fn append_reference<'a>(
    name: &str,
    value: &'a Value,
    texts: &mut Vec<&'a str>,
) -> Result<(), AllocError>
    ensures { OnOk result (as_texts texts.new.items ≡ as_texts texts.old.items
        ++ text_of_reference (document_keyword name.now) (view value.now)) }
{
    if name == "$ref"
        && let Some(text) = value.as_str()
    {
        append(texts, text)
    } else {
        Ok(())
    }
}

/// Appends the texts of the references that are read in a schema, in the order of its members.
///
/// # Errors
///
/// Out of memory.
#[cycle(references)]
pub fn references_read<'a>(schema: &'a Value, texts: &mut Vec<&'a str>) -> Result<(), AllocError>
    ensures { OnOk result (AppendsTexts texts.old.items texts.new.items
        (λ W. references_read W (view schema.now))) }
{
    match schema {
        Value::Object(members) => references_of_members(members, texts),
        _ => Ok(()),
    }
}

/// Appends the texts of the references that are read in a schema object.
#[cycle(references)]
fn references_of_members<'a>(
    members: &'a Map<String, Value>,
    texts: &mut Vec<&'a str>,
) -> Result<(), AllocError>
    ensures { OnOk result (AppendsTexts texts.old.items texts.new.items
        (λ W. references_read W (object (members_view members.now.entries)))) }
{
    for (name, value) in members {
        let name = name.as_str();
        append_reference(name, value, texts)?;
        references_at(places_read(members, name, value), value, texts)?;
    }
    Ok(())
}

/// Appends the texts of the references at these places in a value.
#[cycle(references)]
fn references_at<'a>(
    places: ReadPlaces,
    value: &'a Value,
    texts: &mut Vec<&'a str>,
) -> Result<(), AllocError>
    ensures { OnOk result (AppendsTexts texts.old.items texts.new.items
        (λ W. references_in W (schemas_read places (view value.now)))) }
{
    match (places, value) {
        (ReadPlaces::Itself, value) => references_read(value, texts),
        (ReadPlaces::Entries, Value::Object(map)) => references_of_entries(false, map, texts),
        (ReadPlaces::SchemaEntries, Value::Object(map)) => references_of_entries(true, map, texts),
        (ReadPlaces::InnerEntries, Value::Object(map)) => references_of_inner_entries(map, texts),
        (ReadPlaces::Branches, Value::Array(items)) => references_of_items(items, texts),
        _ => Ok(()),
    }
}

/// Appends the texts of the references in the entries of an object that are read.
#[cycle(references)]
fn references_of_entries<'a>(
    passes_arrays: bool,
    map: &'a Map<String, Value>,
    texts: &mut Vec<&'a str>,
) -> Result<(), AllocError>
    ensures { OnOk result (AppendsTexts texts.old.items texts.new.items (λ W. references_in W
        (schemas_of (entries_read passes_arrays (listed (members_view map.now.entries)))))) }
{
    for (_, schema) in map {
        if is_read(passes_arrays, schema) {
            references_read(schema, texts)?;
        }
    }
    Ok(())
}

/// Appends the texts of the references in the entries of each entry of an object.
#[cycle(references)]
fn references_of_inner_entries<'a>(
    map: &'a Map<String, Value>,
    texts: &mut Vec<&'a str>,
) -> Result<(), AllocError>
    ensures { OnOk result (AppendsTexts texts.old.items texts.new.items (λ W. references_in W
        (inner_schemas (listed (members_view map.now.entries))))) }
{
    for (_, entry) in map {
        references_at(ReadPlaces::Entries, entry, texts)?;
    }
    Ok(())
}

/// Appends the texts of the references in the items of an array.
#[cycle(references)]
fn references_of_items<'a>(
    items: &'a Vec<Value>,
    texts: &mut Vec<&'a str>,
) -> Result<(), AllocError>
    ensures { OnOk result (AppendsTexts texts.old.items texts.new.items (λ W. references_in W
        (items_list (items_view items.now.items)))) }
{
    for schema in items {
        references_read(schema, texts)?;
    }
    Ok(())
}
