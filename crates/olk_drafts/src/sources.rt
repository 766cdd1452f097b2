//! The files of a document of several files, and how their references are read in it.
ghost use Rattle.std.specs.Prelude.{◌≡◌, ◌<◌, ◌==◌, ◌++◌, ◌∷◌, [], Some, None, map, option_map, cond, IfOk, OnOk, string_bytes};
ghost use Rattle.std.specs.List.{list_any, list_all, before_first, after_first};
ghost use Rattle.olk_spec.specs.Names.{pointer};
ghost use Rattle.olk_drafts.specs.Sources.{leads_down, segments, is_odd, is_name, without_dot, with_slashes, fronts, folder_of, file_below, file_at, is_apart};

use crate::drafts::Draft;
use olk_reports::Location;
use std::alloc::{AllocError, Global};
use std::collections::BTreeSet;

/// A file of a document of several files. In the document the schema of each file but the main one
/// stands under the file's name, which is a path below the folder of the main one.
#[derive(Clone, Copy)]
pub struct Source<'a> {
    /// The draft of its schema.
    pub draft: Draft,
    /// Its name, which is empty for the main file.
    pub file: &'a str,
    /// The name of the main file.
    pub main: &'a str,
    /// The names of the other files.
    pub files: &'a BTreeSet<String>,
}

impl Source<'_> {
    ghost use Rattle.olk_drafts.specs.Sources.{is_main, root_of, root_at, reference_read};

    /// A reference of the file as it is read in the document (RFC 3986, 5.2). A path leads from the
    /// folder of the file to another one, and without a path it leads to the file itself. Behind
    /// `#` a JSON pointer leads on. What leads to no file of the document stays as it is, and so
    /// does a path with a scheme, a query, a percent sign, a backslash, or a segment that is empty,
    /// `..`, or `.` behind the first. A name with neither a dot nor a slash is none of another file.
    ///
    /// A pointer is not translated: one through a keyword that is read under another name, such as
    /// `#/items/0` into a list, does not lead there in the document.
    ///
    /// # Errors
    ///
    /// Out of memory.
    pub fn reference(&self, alloc: Global, text: &str) -> Result<String, AllocError>
        ensures { IfOk result (λ t. string_bytes t ≡ reference_read self.now text.now) }
    {
        let (path, place) = cut(text, '#');
        if !leads_down(place) {
            return String::from_str(alloc, text);
        }
        match self.root_at(alloc, path)? {
            Some(root) => reference_to(alloc, &root, place),
            None => String::from_str(alloc, text),
        }
    }

    /// Where the schema of the file stands to which a path leads.
    fn root_at(&self, alloc: Global, path: &str) -> Result<Option<Location>, AllocError>
        ensures { IfOk result (λ o. o ≡ root_at self.now path.now) }
    {
        match file_at(alloc, self.file, path)? {
            Some(file) => self.root_of(alloc, file.as_str()),
            None => Ok(None),
        }
    }

    pub(crate) fn is_main(&self, file: &str) -> bool
        ensures { result ≡ is_main self.now file.now }
    {
        file.is_empty() || file == self.main
    }

    /// Where the schema of a file stands.
    fn root_of(&self, alloc: Global, file: &str) -> Result<Option<Location>, AllocError>
        ensures { IfOk result (λ o. o ≡ root_of self.now file.now) }
    {
        if self.is_main(file) {
            return Ok(Some(Location::new(alloc)));
        }
        if !is_apart(file) || !self.files.contains(file) {
            return Ok(None);
        }
        Ok(Some(Location::new(alloc).join(alloc, file)?))
    }
}

/// Whether a name can be no keyword's: none has a dot or a slash.
pub(crate) fn is_apart(file: &str) -> bool
    ensures { result ≡ is_apart file.now }
{
    file.as_bytes().iter().any(|b| matches!(*b, b'.' | b'/'))
}

/// A reference to a place below another.
fn reference_to(alloc: Global, root: &Location, place: &str) -> Result<String, AllocError>
    ensures { IfOk result (λ t. string_bytes t ≡ 35 ∷ (root.now ++ place.now)) }
{
    let mut reference = String::from_str(alloc, "#")?;
    reference.push_str(root.as_str())?;
    reference.push_str(place)?;
    Ok(reference)
}

/// The file to which a path leads from a file.
pub(crate) fn file_at(alloc: Global, file: &str, path: &str) -> Result<Option<String>, AllocError>
    ensures { IfOk result (λ f. option_map string_bytes f ≡ file_at file.now path.now) }
{
    if path.is_empty() {
        Ok(Some(String::from_str(alloc, file)?))
    } else {
        file_below(alloc, file, without_dot(path))
    }
}

fn file_below(alloc: Global, file: &str, path: &str) -> Result<Option<String>, AllocError>
    ensures { IfOk result (λ f. option_map string_bytes f ≡ file_below file.now path.now) }
{
    if !has_names(alloc, path)? {
        return Ok(None);
    }
    let mut found = folder_of(alloc, file)?;
    found.push_str(path)?;
    Ok(Some(found))
}

fn without_dot(path: &str) -> &str
    ensures { result.now ≡ without_dot path.now }
{
    let (first, others) = cut(path, '/');
    if first == "." { others } else { path }
}

fn folder_of(alloc: Global, file: &str) -> Result<String, AllocError>
    ensures { IfOk result (λ t. string_bytes t ≡ folder_of file.now) }
{
    let segments = segments(alloc, file)?;
    let mut folder = String::new(alloc);
    for i in 0..segments.len().saturating_sub(1) {
        push_segment(&mut folder, segments[i])?;
    }
    Ok(folder)
}

fn push_segment(folder: &mut String, segment: &str) -> Result<(), AllocError>
    ensures { OnOk result (string_bytes folder.new
        ≡ string_bytes folder.old ++ (segment.now ++ 47 ∷ [])) }
{
    folder.push_str(segment)?;
    folder.push_str("/")
}

fn has_names(alloc: Global, path: &str) -> Result<bool, AllocError>
    ensures { IfOk result (λ b. b ≡ list_all is_name (segments path.now)) }
{
    let segments = segments(alloc, path)?;
    Ok(are_names(&segments))
}

fn are_names(segments: &Vec<&str>) -> bool
    ensures { result ≡ list_all is_name (map (λ s. s.now) segments.now.items) }
{
    for segment in segments {
        if !is_name(segment) {
            return false;
        }
    }
    true
}

pub(crate) fn segments<'t>(alloc: Global, path: &'t str) -> Result<Vec<&'t str>, AllocError>
    ensures { IfOk result (λ v. map (λ s. s.now) v.items ≡ segments path.now) }
{
    path.split('/').collect(alloc)
}

/// Whether a segment of a path stands for a file or folder of that name.
fn is_name(segment: &str) -> bool
    ensures { result ≡ is_name segment.now }
{
    !matches!(segment, "" | "." | "..") && !has_odd(segment)
}

fn has_odd(segment: &str) -> bool
    ensures { result ≡ list_any is_odd segment.now }
{
    segment
        .as_bytes()
        .iter()
        .any(|b| matches!(*b, b':' | b'?' | b'%' | b'\\'))
}

/// Whether what stands behind `#` is a JSON pointer, of the whole file where it is empty.
pub(crate) fn leads_down(place: &str) -> bool
    ensures { result ≡ leads_down place.now }
{
    match place.as_bytes() {
        [] => true,
        [first, ..] => *first == b'/',
    }
}

/// What stands before the first of a character, and what stands behind it.
pub(crate) fn cut<'t>(text: &'t str, at: char) -> (&'t str, &'t str)
    requires { at < 128 }
    ensures before { result.0.now ≡ before_first (λ b. b == at) text.now }
    ensures behind { result.1.now ≡ after_first (λ b. b == at) text.now }
{
    match text.split_once(at) {
        Some(parts) => parts,
        None => (text, ""),
    }
}
