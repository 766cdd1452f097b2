//! The references of a file's schema.
ghost use Rattle.std.specs.Prelude.{◌≡◌, ◌++◌, OnOk, option_map};
ghost use Rattle.serde_json.specs.View.{view, members_view, items_view};
ghost use Rattle.olk_drafts.specs.declared.translation.Held.TheVariants.{Itself};
ghost use Rattle.olk_drafts.specs.References.{as_texts, text_of, own_reference, references_by, references_at, references_of_members, references_of_entries, references_of_items, references_of_value, references_inside};

use crate::drafts::Draft;
use crate::translation::{Held, held_by};
use olk_base::append;
use serde_json::{Map, Value};
use std::alloc::AllocError;

/// Appends the references of a value that holds schemas so far down, in the order of its members.
#[cycle(references)]
pub(crate) fn append_references<'a>(
    draft: Draft,
    held: Held,
    value: &'a Value,
    texts: &mut Vec<&'a str>,
) -> Result<(), AllocError>
    ensures { OnOk result (as_texts texts.new.items
        ≡ as_texts texts.old.items ++ references_at draft held (view value.now)) }
{
    match held {
        Held::Nothing => Ok(()),
        Held::Itself => append_of_schema(draft, value, texts),
        Held::Entries => append_inside(draft, Held::Itself, value, texts),
        Held::EntriesOfEntries => append_inside(draft, Held::Entries, value, texts),
    }
}

#[cycle(references)]
fn append_of_schema<'a>(
    draft: Draft,
    schema: &'a Value,
    texts: &mut Vec<&'a str>,
) -> Result<(), AllocError>
    ensures { OnOk result (as_texts texts.new.items
        ≡ as_texts texts.old.items ++ references_at draft Itself (view schema.now)) }
{
    match schema {
        Value::Object(members) => append_of_members(draft, members, texts),
        _ => Ok(()),
    }
}

/// Appends the references of a value whose entries hold schemas so far down.
#[cycle(references)]
fn append_inside<'a>(
    draft: Draft,
    held: Held,
    value: &'a Value,
    texts: &mut Vec<&'a str>,
) -> Result<(), AllocError>
    ensures { OnOk result (as_texts texts.new.items
        ≡ as_texts texts.old.items ++ references_inside draft held (view value.now)) }
{
    match value {
        Value::Object(entries) => append_of_entries(draft, held, entries, texts),
        Value::Array(items) => append_of_items(draft, held, items, texts),
        _ => Ok(()),
    }
}

#[cycle(references)]
fn append_of_members<'a>(
    draft: Draft,
    members: &'a Map<String, Value>,
    texts: &mut Vec<&'a str>,
) -> Result<(), AllocError>
    ensures { OnOk result (as_texts texts.new.items
        ≡ as_texts texts.old.items ++ references_of_members draft
        (members_view members.now.entries) (members_view members.now.entries)) }
{
    for (name, value) in members {
        let keyword = draft.keyword(members, name.as_str());
        append_of_member(draft, keyword, value, texts)?;
    }
    Ok(())
}

/// Appends the references of a member, by the keyword as which it is read.
#[cycle(references)]
fn append_of_member<'a>(
    draft: Draft,
    keyword: Option<&str>,
    value: &'a Value,
    texts: &mut Vec<&'a str>,
) -> Result<(), AllocError>
    ensures { OnOk result (as_texts texts.new.items
        ≡ as_texts texts.old.items ++ references_by (option_map (λ k. k.now) keyword.entry)
        (references_of_value draft (view value.now))) }
{
    match keyword {
        Some(keyword) => {
            append_reference(keyword, value, texts)?;
            append_references(draft, held_by(keyword), value, texts)
        }
        None => Ok(()),
    }
}

/// Appends the text of a member, if it is a reference.
fn append_reference<'a>(
    keyword: &str,
    value: &'a Value,
    texts: &mut Vec<&'a str>,
) -> Result<(), AllocError>
    ensures { OnOk result (as_texts texts.new.items
        ≡ as_texts texts.old.items ++ own_reference keyword.now (view value.now)) }
{
    if keyword == "$ref" {
        append_text(value, texts)
    } else {
        Ok(())
    }
}

/// Appends the text that a value is, if it is one.
fn append_text<'a>(value: &'a Value, texts: &mut Vec<&'a str>) -> Result<(), AllocError>
    ensures { OnOk result (as_texts texts.new.items
        ≡ as_texts texts.old.items ++ text_of (view value.now)) }
{
    match value.as_str() {
        Some(text) => append(texts, text),
        None => Ok(()),
    }
}

#[cycle(references)]
fn append_of_entries<'a>(
    draft: Draft,
    held: Held,
    entries: &'a Map<String, Value>,
    texts: &mut Vec<&'a str>,
) -> Result<(), AllocError>
    ensures { OnOk result (as_texts texts.new.items ≡ as_texts texts.old.items
        ++ references_of_entries draft held (members_view entries.now.entries)) }
{
    for (_, value) in entries {
        append_references(draft, held, value, texts)?;
    }
    Ok(())
}

#[cycle(references)]
fn append_of_items<'a>(
    draft: Draft,
    held: Held,
    items: &'a Vec<Value>,
    texts: &mut Vec<&'a str>,
) -> Result<(), AllocError>
    ensures { OnOk result (as_texts texts.new.items ≡ as_texts texts.old.items
        ++ references_of_items draft held (items_view items.now.items)) }
{
    for value in items {
        append_references(draft, held, value, texts)?;
    }
    Ok(())
}
