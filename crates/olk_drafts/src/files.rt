//! The other files to which a file refers, and their schemas in the document.
ghost use Rattle.std.specs.Prelude.{◌≡◌, ◌++◌, map, option_map, option_to_list, is_some, not, string_bytes, IfOk, OnOk, OnErr};
ghost use Rattle.std.specs.Bool.{OnTrue, OnFalse};
ghost use Rattle.serde_json.specs.Data.{put};
ghost use Rattle.serde_json.specs.Find.{get_member};
ghost use Rattle.serde_json.specs.View.{view, members_view};

use crate::keywords::has_member;
use crate::references::append_references;
use crate::sources::{Source, cut, file_at, is_apart, leads_down};
use crate::translation::{Held, put};
use olk_base::append;
use serde_json::{Map, Value};
use std::alloc::{AllocError, Global};

impl Source<'_> {
    ghost use Rattle.olk_drafts.specs.References.{file_named, files_named, other_file};

    /// The names of the other files to which the references of the file's schema lead, in their
    /// order, as often as they are named. The references are those that `translate` reads.
    ///
    /// # Errors
    ///
    /// Out of memory.
    pub fn files_named(&self, alloc: Global, schema: &Value) -> Result<Vec<String>, AllocError>
        ensures { IfOk result (λ v. map string_bytes v.items
            ≡ files_named self.now (view schema.now)) }
    {
        let mut texts = Vec::new(alloc);
        append_references(self.draft, Held::Itself, schema, &mut texts)?;
        let mut files = Vec::new(alloc);
        for text in &texts {
            let file = self.file_named(alloc, text)?;
            append_found(&mut files, file)?;
        }
        Ok(files)
    }

    /// The file other than the main one to which a reference leads.
    fn file_named(&self, alloc: Global, text: &str) -> Result<Option<String>, AllocError>
        ensures { IfOk result (λ f. option_map string_bytes f ≡ file_named self.now text.now) }
    {
        let (path, place) = cut(text, '#');
        if !leads_down(place) {
            return Ok(None);
        }
        match file_at(alloc, self.file, path)? {
            Some(file) => Ok(self.other_file(file)),
            None => Ok(None),
        }
    }

    fn other_file(&self, file: String) -> Option<String>
        ensures { option_map string_bytes result ≡ other_file self.now (string_bytes file) }
    {
        if !self.is_main(file.as_str()) && is_apart(file.as_str()) {
            Some(file)
        } else {
            None
        }
    }
}

fn append_found(files: &mut Vec<String>, file: Option<String>) -> Result<(), AllocError>
    ensures { OnOk result (map string_bytes files.new.items ≡ map string_bytes files.old.items
        ++ option_to_list (option_map string_bytes file)) }
{
    match file {
        Some(file) => append(files, file),
        None => Ok(()),
    }
}

/// Puts the translated schema of a file under the file's name into the document, unless a member
/// of that name is there already: whether it was put.
///
/// # Errors
///
/// Out of memory; the document stays as it was.
pub fn add_file(
    alloc: Global,
    document: &mut Map<String, Value>,
    file: &str,
    schema: Value,
) -> Result<bool, AllocError>
    ensures free { IfOk result (λ added. added
        ≡ not (is_some (get_member file.now (members_view document.old.entries)))) }
    ensures put { IfOk result (λ added. OnTrue added (members_view document.new.entries
        ≡ put file.now (view schema) (members_view document.old.entries))) }
    ensures kept { IfOk result (λ added. OnFalse added
        (document.new.entries ≡ document.old.entries)) }
    ensures memory { OnErr result (document.new.entries ≡ document.old.entries) }
{
    if has_member(document, file) {
        return Ok(false);
    }
    put(alloc, document, file, schema)?;
    Ok(true)
}
