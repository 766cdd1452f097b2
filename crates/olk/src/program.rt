//! The program: a schema is read and built, and instances are checked.
ghost use Rattle.std.specs.Prelude.{◌≡◌, length, IfOk, OnOk, MatchResult};
ghost use Rattle.serde_json.specs.Data.{Data};
ghost use Rattle.serde_json.specs.View.{view};
ghost use Rattle.olk.specs.Statuses.{IsRunBy, IsFailure};

use crate::console::{Console, Status};
use crate::document::read_document;
use crate::instances::{Checker, check_instances};
use crate::options::{Format, Options, read_options};
use crate::reading::shown_name;
use crate::schema::{refuse_malformed, refuse_unsupported};
use crate::words::first_no_text;
use clap::Error;
use clap::error::ErrorKind;
use olk_base::Meter;
use olk_document::DocumentValidator;
use olk_places::Visible;
use olk_regexes::Regexes;
use olk_reports::BuildError;
use olk_vocabulary::Vocabulary;
use serde_json::Value;
use std::alloc::AllocError;
use std::env::Env;
use std::rt::{Clock, Files};
use std::time::Instant;
use std::{env, io};

/// What the command line asks for, and how far that came. On a terminal it is told on the way.
pub fn run<T: Env + Files + Input + Print + Eprint + Clock + AllocGlobal>(
    rt: &T,
    has_terminal: bool,
) -> Status {
    let start = if has_terminal {
        Instant::now(rt).ok()
    } else {
        None
    };
    ended_status(rt, run_words(rt, start))
}

/// The status that a run came to, or that of the error that ended it.
fn ended_status<T: Eprint>(rt: &T, ended: io::Result<Status>) -> Status
    ensures { MatchResult ended (λ status. result ≡ status) (λ _. IsFailure result) }
{
    match ended {
        Ok(status) => status,
        Err(error) => failed_status(rt, &error),
    }
}

/// The status of an error that ends a run. It is said where it can be; but that nobody reads what is
/// written, as behind `| head -1`, needs no word.
fn failed_status<T: Eprint>(rt: &T, error: &io::Error) -> Status
    ensures { IsFailure result }
{
    if error.kind() != io::ErrorKind::BrokenPipe {
        let _ = eprintln!(rt; "olk: {error}");
    }
    if error.kind() == io::ErrorKind::OutOfMemory {
        Status::Memory
    } else {
        Status::Failed
    }
}

fn run_words<T: Env + Files + Input + Print + Eprint + Clock + AllocGlobal>(
    rt: &T,
    start: Option<Instant>,
) -> io::Result<Status> {
    let words: Vec<String> = match env::args(rt) {
        Ok(words) => words.collect(rt.alloc())?,
        Err(error) => return refuse_words(rt, error),
    };
    match read_options(rt.alloc(), &words) {
        Ok(options) => check_all(rt, &options, start),
        Err(error) => tell_usage(rt, &error),
    }
}

/// Says which argument is no text. Any other error is handed back.
fn refuse_words<T: Env + Eprint + AllocGlobal>(rt: &T, error: io::Error) -> io::Result<Status> {
    if error.kind() != io::ErrorKind::InvalidData {
        return Err(error);
    }
    match first_no_text(rt)? {
        Some(number) => eprintln!(rt; "olk: argument {number} is not UTF-8")?,
        None => eprintln!(rt; "olk: an argument is not UTF-8")?,
    }
    Ok(Status::Failed)
}

/// Tells the help, the version, or what is wrong with the command line.
fn tell_usage<T: Print + Eprint>(rt: &T, error: &Error) -> io::Result<Status> {
    if error.kind() == ErrorKind::OutOfMemory {
        return Err(AllocError.into());
    }
    error.print(rt)?;
    Ok(if error.use_stderr() {
        Status::Failed
    } else {
        Status::Valid
    })
}

/// Checks by the schema's file. What is told before an error that ends the run is written as well.
fn check_all<T: Files + Input + Print + Eprint + Clock + AllocGlobal>(
    rt: &T,
    options: &Options<'_>,
    start: Option<Instant>,
) -> io::Result<Status>
    ensures { IfOk result (λ status. (S : Data) × IsRunBy S options.now.has_lines
        (length options.now.instances.items) status) }
{
    let mut console = Console::new(rt, start)?;
    let done = check_by_file(rt, &mut console, options);
    let status = console.finish()?;
    done?;
    Ok(status)
}

fn check_by_file<T: Files + Input + Print + Eprint + Clock + AllocGlobal>(
    rt: &T,
    console: &mut Console<'_, T>,
    options: &Options<'_>,
) -> io::Result<()>
    requires { console.old.status ≡ Status.Valid }
    ensures { OnOk result ((S : Data) × IsRunBy S options.now.has_lines
        (length options.now.instances.items) console.new.status) }
{
    match read_document(rt, console, options)? {
        Some(document) => check_by(rt, console, options, &document),
        None => Ok(()),
    }
}

/// Builds the schema's validator, and checks each instance by it, or else the schema alone.
fn check_by<'c, T: Files + Input + Print + Eprint + Clock + AllocGlobal>(
    rt: &T,
    console: &mut Console<'_, T>,
    options: &'c Options<'_>,
    schema: &'c Value,
) -> io::Result<()>
    requires { console.old.status ≡ Status.Valid }
    ensures { OnOk result (IsRunBy (view schema.now) options.now.has_lines
        (length options.now.instances.items) console.new.status) }
{
    if refuse_unsupported(console, options.schema, schema)? {
        return Ok(());
    }
    let mut meter = Meter::new();
    match DocumentValidator::build(rt.alloc(), &Vocabulary, &Regexes, schema, &mut meter) {
        Ok(validator) => {
            let checker = Checker {
                options: &*options,
                schema: &*schema,
                validator: &validator,
            };
            if options.instances.is_empty() {
                accept_schema(console, options)
            } else {
                check_instances(rt, console, &checker)
            }
        }
        Err(BuildError::Refused(error)) => refuse_malformed(console, options.schema, &error),
        Err(BuildError::Memory(error)) => Err(error.into()),
    }
}

/// Says that the schema can be used, where there is no line for each value.
fn accept_schema<T: Print + Eprint + AllocGlobal>(
    console: &mut Console<'_, T>,
    options: &Options<'_>,
) -> io::Result<()>
    ensures { console.new.status ≡ console.old.status }
{
    if options.is_quiet || options.format == Format::Json {
        return Ok(());
    }
    let name = Visible(shown_name(options.schema));
    console.write(format_args!("{name}: the schema can be used\n"))
}
