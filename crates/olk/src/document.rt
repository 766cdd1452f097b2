//! The schema as one document of JSON Schema 2020-12: read by its draft, and with the files to
//! which it refers.
ghost use Rattle.std.specs.Prelude.{◌≡◌, IfOk, MatchOption, if◌then◌else◌};
ghost use Rattle.olk.specs.Statuses.{worse};

use crate::console::{Console, Status};
use crate::options::{Options, STANDARD_INPUT};
use crate::reading::read_value;
use crate::schema::{Drafts, find_draft, read_schema};
use olk_document_build::REFERENCE_LIMIT;
use olk_drafts::{Draft, Source, add_file, translate};
use olk_places::{Place, Visible};
use serde_json::Value;
use std::alloc::{AllocError, Global};
use std::collections::BTreeSet;
use std::fs;
use std::io::{self, ErrorKind};
use std::rt::Files;

/// The schema's file.
#[derive(Clone, Copy)]
struct MainFile<'p> {
    /// The path of its folder, with a slash at the end, or nothing.
    folder: &'p str,
    /// Its name there; nothing for the standard input.
    name: &'p str,
    draft: Draft,
}

/// A file to which the schema refers, as it was read.
#[derive(Drop)]
struct OtherFile {
    /// Its path from the folder of the schema's file.
    name: String,
    draft: Draft,
    schema: Value,
}

/// The document that the schema is, with the files to which it refers. Where one of these holds no
/// value, or a schema is of no draft that is known, that is said.
///
/// A reference to a file that can't be read stays as it is.
///
/// # Errors
///
/// Out of memory, or standard error can't be written.
pub fn read_document<T: Files + Input + Print + Eprint + AllocGlobal>(
    rt: &T,
    console: &mut Console<'_, T>,
    options: &Options<'_>,
) -> io::Result<Option<Value>>
    ensures { IfOk result (λ found. MatchOption found
        (console.new.status ≡ worse console.old.status Status.Failed)
        (λ _. console.new.status ≡ console.old.status)) }
{
    let Some(schema) = read_schema(rt, console, options.schema)? else {
        return Ok(None);
    };
    let drafts = Drafts {
        asked: options.draft,
        default: Draft::Draft202012,
    };
    let Some(draft) = find_draft(console, options.schema, &schema, drafts)? else {
        return Ok(None);
    };
    let mut reader = Reader {
        main: MainFile::new(options.schema, draft),
        asked: options.draft,
        known: BTreeSet::new(rt.alloc()),
        files: Vec::new(rt.alloc()),
    };
    if reader.read_files(rt, console, &schema)? {
        compound_document(console, &reader, &schema)
    } else {
        Ok(None)
    }
}

/// The files of a document, as they are read.
#[derive(Drop)]
struct Reader<'p> {
    main: MainFile<'p>,
    /// The draft that was asked for.
    asked: Option<Draft>,
    /// The names of those that were looked for.
    known: BTreeSet<String>,
    files: Vec<OtherFile>,
}

impl Reader<'_> {
    /// Reads the files to which the schema refers, those to which they refer, and so on, as far as
    /// references are followed. Gives false where one holds no schema that can be read, which is
    /// said.
    fn read_files<T: Files + Input + Print + Eprint + AllocGlobal>(
        &mut self,
        rt: &T,
        console: &mut Console<'_, T>,
        schema: &Value,
    ) -> io::Result<bool>
        ensures { IfOk result (λ is_read. console.new.status
            ≡ (if is_read then console.old.status else worse console.old.status Status.Failed)) }
    {
        let none = BTreeSet::new(rt.alloc());
        let mut names = self.main.source(&none).files_named(rt.alloc(), schema)?;
        for _round in 0..REFERENCE_LIMIT {
            match self.read_round(rt, console, &names)? {
                Some(behind) => names = behind,
                None => return Ok(false),
            }
        }
        Ok(true)
    }

    /// Reads the files of these names, but for those that were looked for. Gives the names of the
    /// files to which they refer.
    fn read_round<T: Files + Input + Print + Eprint + AllocGlobal>(
        &mut self,
        rt: &T,
        console: &mut Console<'_, T>,
        names: &Vec<String>,
    ) -> io::Result<Option<Vec<String>>>
        ensures { IfOk result (λ found. MatchOption found
            (console.new.status ≡ worse console.old.status Status.Failed)
            (λ _. console.new.status ≡ console.old.status)) }
    {
        let mut behind = Vec::new(rt.alloc());
        for name in names {
            let name = name.as_str();
            if self.known.insert(String::from_str(rt.alloc(), name)?)?
                && !self.read_file(rt, console, name, &mut behind)?
            {
                return Ok(None);
            }
        }
        Ok(Some(behind))
    }

    /// Reads the file of this name, if it can be read, and appends the names of those to which it
    /// refers. Gives false where it holds no schema that can be read, which is said.
    fn read_file<T: Files + Input + Print + Eprint + AllocGlobal>(
        &mut self,
        rt: &T,
        console: &mut Console<'_, T>,
        name: &str,
        behind: &mut Vec<String>,
    ) -> io::Result<bool>
        ensures { IfOk result (λ is_read. console.new.status
            ≡ (if is_read then console.old.status else worse console.old.status Status.Failed)) }
    {
        let folder = self.main.folder;
        let path = format!(in rt.alloc(); "{folder}{name}")?;
        let Some(text) = read_if_there(rt, path.as_str())? else {
            return Ok(true);
        };
        let place = Place {
            name: path.as_str(),
            line: None,
        };
        let Some(schema) = read_value(console, place, &text)? else {
            return Ok(false);
        };
        let Some(draft) = find_draft(console, path.as_str(), &schema, self.drafts())? else {
            return Ok(false);
        };
        let file = OtherFile {
            name: String::from_str(rt.alloc(), name)?,
            draft,
            schema,
        };
        self.append(rt.alloc(), file, behind)?;
        Ok(true)
    }

    /// By which draft the other files' schemas are read.
    fn drafts(&self) -> Drafts {
        Drafts {
            asked: self.asked,
            default: self.main.draft,
        }
    }

    /// Appends a file, and the names of the files to which it refers.
    fn append(
        &mut self,
        alloc: Global,
        file: OtherFile,
        behind: &mut Vec<String>,
    ) -> Result<(), AllocError> {
        let none = BTreeSet::new(alloc);
        behind.append(
            &mut file
                .source(self.main, &none)
                .files_named(alloc, &file.schema)?,
        )?;
        self.files.push(file)?;
        Ok(())
    }
}

impl<'p> MainFile<'p> {
    fn new(path: &'p str, draft: Draft) -> MainFile<'p> {
        let path = if path == STANDARD_INPUT { "" } else { path };
        let name = last_segment(path);
        MainFile {
            folder: path.strip_suffix(name).unwrap_or(""),
            name,
            draft,
        }
    }

    /// The main file in a document with these files.
    fn source(&self, files: &'p BTreeSet<String>) -> Source<'p> {
        Source {
            draft: self.draft,
            file: "",
            main: self.name,
            files,
        }
    }
}

impl OtherFile {
    /// The file in a document with these files.
    fn source<'a>(&'a self, main: MainFile<'a>, files: &'a BTreeSet<String>) -> Source<'a> {
        Source {
            draft: self.draft,
            file: self.name.as_str(),
            main: main.name,
            files,
        }
    }
}

fn last_segment(path: &str) -> &str {
    match path.rsplit_once('/') {
        Some((_, name)) => name,
        None => path,
    }
}

/// The bytes of a file, if it can be read.
fn read_if_there<T: Files + AllocGlobal>(rt: &T, path: &str) -> io::Result<Option<Vec<u8>>> {
    match fs::read(rt, path) {
        Ok(text) => Ok(Some(text)),
        Err(error) if error.kind() == ErrorKind::OutOfMemory => Err(error),
        Err(_) => Ok(None),
    }
}

/// One document of 2020-12 (Core, 9.3): the schema, and each file under its name. Where it has a
/// member of such a name, that is said.
fn compound_document<T: Print + Eprint + AllocGlobal>(
    console: &mut Console<'_, T>,
    reader: &Reader<'_>,
    schema: &Value,
) -> io::Result<Option<Value>>
    ensures { IfOk result (λ found. MatchOption found
        (console.new.status ≡ worse console.old.status Status.Failed)
        (λ _. console.new.status ≡ console.old.status)) }
{
    let alloc = console.alloc();
    let names = names_of(alloc, &reader.files)?;
    let document = translate(alloc, &reader.main.source(&names), schema)?;
    let Value::Object(mut members) = document else {
        return Ok(Some(document));
    };
    for file in &reader.files {
        let name = file.name.as_str();
        let schema = embedded_schema(alloc, &file.source(reader.main, &names), &file.schema)?;
        if !add_file(alloc, &mut members, name, schema)? {
            let name = Visible(name);
            console.fail(format_args!("the schema has a member with the name of the file {name}"))?;
            return Ok(None);
        }
    }
    Ok(Some(Value::Object(members)))
}

fn names_of(alloc: Global, files: &Vec<OtherFile>) -> Result<BTreeSet<String>, AllocError> {
    let mut names = BTreeSet::new(alloc);
    for file in files {
        names.insert(String::from_str(alloc, file.name.as_str())?)?;
    }
    Ok(names)
}

/// The schema of a file as it stands in a document. A name that it gives itself is left out, since
/// references to it and in it go by the file's name.
fn embedded_schema(
    alloc: Global,
    source: &Source<'_>,
    schema: &Value,
) -> Result<Value, AllocError> {
    let mut schema = translate(alloc, source, schema)?;
    if let Value::Object(members) = &mut schema {
        members.remove("$id");
    }
    Ok(schema)
}
