//! Schemas of older drafts as those of 2020-12.
ghost use Rattle.std.specs.Prelude.{◌≡◌, IfOk, OnOk, OnErr, option_map};
ghost use Rattle.serde_json.specs.Data.{no_members, put};
ghost use Rattle.serde_json.specs.View.{view, members_view, items_view};
ghost use Rattle.olk_drafts.specs.Sources.{reference_read};
ghost use Rattle.olk_drafts.specs.Translated.{held_by, names_integer, kind_of_draft_4, listed_kinds_of_draft_4, kinds_of_draft_4, kinds_read, as_reference, value_read, put_as, translated_at, translated_members, translated_entries, translated_items, translated_value, translated_inside, translated};

use crate::drafts::Draft;
use crate::sources::Source;
use olk_base::append;
use serde_json::{Map, Value};
use std::alloc::{AllocError, Global};

/// The name of the integers of draft 4, which are written without a fraction and an exponent.
const INTEGER_OF_DRAFT_4: &str = "integer of draft 4";

/// The schemas that a keyword of 2020-12 holds.
#[derive(Clone, Copy)]
pub enum Held {
    /// No schema.
    Nothing,
    /// Its value is one.
    Itself,
    /// Its members or items are.
    Entries,
    /// The members or items of each of these are.
    EntriesOfEntries,
}

pub(crate) fn held_by(keyword: &str) -> Held
    ensures { result ≡ held_by keyword.now }
{
    match keyword {
        "properties"
        | "patternProperties"
        | "dependentSchemas"
        | "dependencies"
        | "$defs"
        | "definitions"
        | "allOf"
        | "anyOf"
        | "oneOf"
        | "prefixItems" => Held::Entries,
        "propertyDependencies" => Held::EntriesOfEntries,
        "const" | "enum" | "default" | "examples" | "dependentRequired" => Held::Nothing,
        _ => Held::Itself,
    }
}

/// The schema of 2020-12 that means what a file's schema means by its draft, with the file's
/// references as they are read in the document (draft 4 Validation, 5.1.2 and 5.1.3; draft 7 Core,
/// 8.3; 2019-09 Core, 9.3.1). What a name holds that is no keyword's is translated as well, since a
/// reference may lead there.
///
/// In draft 4 an integer has no fraction and no exponent, so that `1.0` is none (draft 4 Core, 3.5,
/// and Validation, 5.5.2). Where `type` names or lists `"integer"` in draft 4, the translation has
/// `"integer of draft 4"` there, a name that 2020-12 itself doesn't have.
///
/// # Errors
///
/// Out of memory.
pub fn translate(alloc: Global, source: &Source<'_>, schema: &Value) -> Result<Value, AllocError>
    ensures { IfOk result (λ v. view v ≡ translated source.now.draft
        (reference_read source.now) (view schema.now)) }
{
    translate_at(alloc, source, Held::Itself, schema)
}

/// A value that holds schemas so far down, with these translated.
#[cycle(translate)]
fn translate_at(
    alloc: Global,
    source: &Source<'_>,
    held: Held,
    value: &Value,
) -> Result<Value, AllocError>
    ensures { IfOk result (λ v. view v ≡ translated_at source.now.draft
        (reference_read source.now) held (view value.now)) }
{
    match held {
        Held::Nothing => value.clone(),
        Held::Itself => translate_schema(alloc, source, value),
        Held::Entries => translate_inside(alloc, source, Held::Itself, value),
        Held::EntriesOfEntries => translate_inside(alloc, source, Held::Entries, value),
    }
}

#[cycle(translate)]
fn translate_schema(alloc: Global, source: &Source<'_>, schema: &Value) -> Result<Value, AllocError>
    ensures { IfOk result (λ v. view v ≡ translated source.now.draft
        (reference_read source.now) (view schema.now)) }
{
    match schema {
        Value::Object(members) => Ok(Value::Object(translate_members(alloc, source, members)?)),
        _ => schema.clone(),
    }
}

/// A value whose entries hold schemas so far down.
#[cycle(translate)]
fn translate_inside(
    alloc: Global,
    source: &Source<'_>,
    held: Held,
    value: &Value,
) -> Result<Value, AllocError>
    ensures { IfOk result (λ v. view v ≡ translated_inside source.now.draft
        (reference_read source.now) held (view value.now)) }
{
    match value {
        Value::Object(entries) => {
            Ok(Value::Object(translate_entries(alloc, source, held, entries)?))
        }
        Value::Array(items) => Ok(Value::Array(translate_items(alloc, source, held, items)?)),
        _ => value.clone(),
    }
}

/// The members of a schema object, each under the keyword as which it is read.
#[cycle(translate)]
fn translate_members(
    alloc: Global,
    source: &Source<'_>,
    members: &Map<String, Value>,
) -> Result<Map<String, Value>, AllocError>
    ensures { IfOk result (λ m. members_view m.entries ≡ translated_members source.now.draft
        (reference_read source.now) (members_view members.now.entries)
        (members_view members.now.entries) no_members) }
{
    let mut translation = Map::new(alloc);
    for (name, value) in members {
        let keyword = source.draft.keyword(members, name.as_str());
        put_translation(alloc, source, keyword, value, &mut translation)?;
    }
    Ok(translation)
}

/// Puts the translation of a value at the keyword as which it is read.
#[cycle(translate)]
fn put_translation(
    alloc: Global,
    source: &Source<'_>,
    keyword: Option<&str>,
    value: &Value,
    translation: &mut Map<String, Value>,
) -> Result<(), AllocError>
    ensures { OnOk result (members_view translation.new.entries
        ≡ put_as (option_map (λ k. k.now) keyword.entry) (translated_value source.now.draft
        (reference_read source.now) (view value.now))
        (members_view translation.old.entries)) }
{
    match keyword {
        Some(keyword) => {
            let value = translate_value(alloc, source, keyword, value)?;
            put(alloc, translation, keyword, value)
        }
        None => Ok(()),
    }
}

/// The value of a keyword.
#[cycle(translate)]
fn translate_value(
    alloc: Global,
    source: &Source<'_>,
    keyword: &str,
    value: &Value,
) -> Result<Value, AllocError>
    ensures { IfOk result (λ v. view v ≡ translated_value source.now.draft
        (reference_read source.now) (view value.now) keyword.now) }
{
    let translation = translate_at(alloc, source, held_by(keyword), value)?;
    read_value(alloc, source, keyword, translation)
}

/// The value of a keyword as it is read in the document.
fn read_value(
    alloc: Global,
    source: &Source<'_>,
    keyword: &str,
    value: Value,
) -> Result<Value, AllocError>
    ensures { IfOk result (λ v. view v ≡ value_read source.now.draft
        (reference_read source.now) keyword.now (view value)) }
{
    match keyword {
        "$ref" => read_reference(alloc, source, value),
        "type" => read_kinds(alloc, source.draft, value),
        _ => Ok(value),
    }
}

fn read_reference(alloc: Global, source: &Source<'_>, value: Value) -> Result<Value, AllocError>
    ensures { IfOk result (λ v. view v
        ≡ as_reference (reference_read source.now) (view value)) }
{
    match value.as_str() {
        Some(text) => Ok(Value::String(source.reference(alloc, text)?)),
        None => Ok(value),
    }
}

/// The kinds that `type` names, by the draft.
fn read_kinds(alloc: Global, draft: Draft, value: Value) -> Result<Value, AllocError>
    ensures { IfOk result (λ v. view v ≡ kinds_read draft (view value)) }
{
    if draft.is_4() {
        kinds_of_draft_4(alloc, &value)
    } else {
        Ok(value)
    }
}

fn kinds_of_draft_4(alloc: Global, value: &Value) -> Result<Value, AllocError>
    ensures { IfOk result (λ v. view v ≡ kinds_of_draft_4 (view value.now)) }
{
    match value {
        Value::Array(items) => Ok(Value::Array(listed_kinds_of_draft_4(alloc, items)?)),
        _ => kind_of_draft_4(alloc, value),
    }
}

fn listed_kinds_of_draft_4(alloc: Global, items: &Vec<Value>) -> Result<Vec<Value>, AllocError>
    ensures { IfOk result (λ v. items_view v.items
        ≡ listed_kinds_of_draft_4 (items_view items.now.items)) }
{
    let mut kinds = Vec::with_capacity(alloc, items.len())?;
    for value in items {
        append(&mut kinds, kind_of_draft_4(alloc, value)?)?;
    }
    Ok(kinds)
}

fn kind_of_draft_4(alloc: Global, value: &Value) -> Result<Value, AllocError>
    ensures { IfOk result (λ v. view v ≡ kind_of_draft_4 (view value.now)) }
{
    if names_integer(value) {
        Ok(Value::String(String::from_str(alloc, INTEGER_OF_DRAFT_4)?))
    } else {
        value.clone()
    }
}

fn names_integer(value: &Value) -> bool
    ensures { result ≡ names_integer (view value.now) }
{
    value.as_str() == Some("integer")
}

/// The entries of an object, which hold schemas so far down.
#[cycle(translate)]
fn translate_entries(
    alloc: Global,
    source: &Source<'_>,
    held: Held,
    entries: &Map<String, Value>,
) -> Result<Map<String, Value>, AllocError>
    ensures { IfOk result (λ m. members_view m.entries ≡ translated_entries source.now.draft
        (reference_read source.now) held (members_view entries.now.entries) no_members) }
{
    let mut translation = Map::new(alloc);
    for (name, value) in entries {
        let value = translate_at(alloc, source, held, value)?;
        put(alloc, &mut translation, name.as_str(), value)?;
    }
    Ok(translation)
}

/// The items of an array, which hold schemas so far down.
#[cycle(translate)]
fn translate_items(
    alloc: Global,
    source: &Source<'_>,
    held: Held,
    items: &Vec<Value>,
) -> Result<Vec<Value>, AllocError>
    ensures { IfOk result (λ v. items_view v.items ≡ translated_items source.now.draft
        (reference_read source.now) held (items_view items.now.items)) }
{
    let mut translation = Vec::with_capacity(alloc, items.len())?;
    for value in items {
        append(&mut translation, translate_at(alloc, source, held, value)?)?;
    }
    Ok(translation)
}

/// Puts a value at a name. Without memory the members stay.
pub(crate) fn put(
    alloc: Global,
    members: &mut Map<String, Value>,
    name: &str,
    value: Value,
) -> Result<(), AllocError>
    ensures put { OnOk result (members_view members.new.entries
        ≡ put name.now (view value) (members_view members.old.entries)) }
    ensures memory { OnErr result (members.new.entries ≡ members.old.entries) }
{
    members.insert(String::from_str(alloc, name)?, value)?;
    Ok(())
}
