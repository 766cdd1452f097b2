//! Instances, read and answered one after another.
ghost use Rattle.std.specs.Prelude.{◌≡◌, ◌∷◌, [], List, Option, length, false, OnOk};
ghost use Rattle.serde_json.specs.View.{view};
ghost use Rattle.olk_spec.specs.Names.{Text};
ghost use Rattle.olk_base.specs.Kit.{kit, world};
ghost use Rattle.olk_document.specs.Validators.{IsDocumentValidatorOf};
ghost use Rattle.olk.specs.Documents.{accepts};
ghost use Rattle.olk.specs.Statuses.{worse, status_of, IsChecked};

use crate::answer::{Question, accepts, asked_errors, tell_evaluation};
use crate::console::{Console, Status};
use crate::options::{Ask, Format, Options, STANDARD_INPUT};
use crate::reading::{INPUT_LEN, is_blank, read_file, read_value, shown_name};
use olk_answers::refusal_text;
use olk_base::{Leaf, RegexEngine};
use olk_document::DocumentValidator;
use olk_places::{Located, Place, error_lines, errors_text, first_text, placed};
use serde_json::Value;
use std::alloc::{AllocError, Global};
use std::io::{BufRead, BufReader};
use std::rt::{Clock, Files};
use std::{fs, io};

/// A schema, its validator, and how it is asked.
#[derive(Drop)]
pub struct Checker<'c, K, R> {
    /// How it is asked.
    pub options: &'c Options<'c>,
    /// The schema.
    pub schema: &'c Value,
    /// Its validator.
    pub validator: &'c DocumentValidator<K, R>,
}

/// Checks each instance. One that can't be read is passed over, and that is said; it counts as
/// failed.
///
/// # Errors
///
/// Out of memory, or what is told can't be written.
pub fn check_instances<
    T: Files + Input + Print + Eprint + Clock + AllocGlobal,
    K: Leaf,
    R: RegexEngine,
>(rt: &T, console: &mut Console<'_, T>, checker: &Checker<'_, K, R>) -> io::Result<()>
    requires stands { IsDocumentValidatorOf (kit K.Leaf R.RegexEngine) checker.now.validator.now
        (view checker.now.schema.now) }
    ensures { OnOk result ((them : List (Option Text))
        × IsChecked (world K.Leaf R.RegexEngine) (view checker.now.schema.now)
        console.old.status them console.new.status
        × (checker.now.options.now.has_lines ≡ false
        → length them ≡ length checker.now.options.now.instances.items)) }
{
    let files = checker.options.instances.len();
    let mut checked = 0usize;
    for path in &checker.options.instances {
        console.tell_progress(checked, files)?;
        check_path(rt, console, checker, path)?;
        checked = checked.saturating_add(1);
    }
    Ok(())
}

/// Checks what a path names: a value, or lines of values.
fn check_path<T: Files + Input + Print + Eprint + AllocGlobal, K: Leaf, R: RegexEngine>(
    rt: &T,
    console: &mut Console<'_, T>,
    checker: &Checker<'_, K, R>,
    path: &str,
) -> io::Result<()>
    requires stands { IsDocumentValidatorOf (kit K.Leaf R.RegexEngine) checker.now.validator.now
        (view checker.now.schema.now) }
    ensures { OnOk result ((them : List (Option Text))
        × IsChecked (world K.Leaf R.RegexEngine) (view checker.now.schema.now)
        console.old.status them console.new.status
        × (checker.now.options.now.has_lines ≡ false → length them ≡ 1)) }
{
    if checker.options.has_lines {
        check_lines(rt, console, checker, path)
    } else {
        check_file(rt, console, checker, path)
    }
}

/// Checks the value that a file holds.
fn check_file<T: Files + Input + Print + Eprint + AllocGlobal, K: Leaf, R: RegexEngine>(
    rt: &T,
    console: &mut Console<'_, T>,
    checker: &Checker<'_, K, R>,
    path: &str,
) -> io::Result<()>
    requires stands { IsDocumentValidatorOf (kit K.Leaf R.RegexEngine) checker.now.validator.now
        (view checker.now.schema.now) }
    ensures { OnOk result ((it : Option Text)
        × IsChecked (world K.Leaf R.RegexEngine) (view checker.now.schema.now)
        console.old.status (it ∷ []) console.new.status) }
{
    let name = shown_name(path);
    match read_file(rt, path) {
        Ok(text) => check_text(console, checker, Place { name, line: None }, &text),
        Err(error) => pass_over(console, checker.options, name, error),
    }
}

/// Checks the values that the lines of a file are.
fn check_lines<T: Files + Input + Print + Eprint + AllocGlobal, K: Leaf, R: RegexEngine>(
    rt: &T,
    console: &mut Console<'_, T>,
    checker: &Checker<'_, K, R>,
    path: &str,
) -> io::Result<()>
    requires stands { IsDocumentValidatorOf (kit K.Leaf R.RegexEngine) checker.now.validator.now
        (view checker.now.schema.now) }
    ensures { OnOk result ((them : List (Option Text))
        × IsChecked (world K.Leaf R.RegexEngine) (view checker.now.schema.now)
        console.old.status them console.new.status) }
{
    let name = shown_name(path);
    if path == STANDARD_INPUT {
        return check_each_line(console, checker, name, &mut rt.reader());
    }
    match fs::open(rt, path) {
        Ok(file) => {
            let mut reader = BufReader::with_capacity(rt.alloc(), INPUT_LEN, file)?;
            check_each_line(console, checker, name, &mut reader)
        }
        Err(error) => pass_over(console, checker.options, name, error),
    }
}

/// Checks each line of a reader that isn't blank.
fn check_each_line<T: Print + Eprint + AllocGlobal, K: Leaf, R: RegexEngine, I: BufRead>(
    console: &mut Console<'_, T>,
    checker: &Checker<'_, K, R>,
    name: &str,
    reader: &mut I,
) -> io::Result<()>
    requires stands { IsDocumentValidatorOf (kit K.Leaf R.RegexEngine) checker.now.validator.now
        (view checker.now.schema.now) }
    ensures { OnOk result ((them : List (Option Text))
        × IsChecked (world K.Leaf R.RegexEngine) (view checker.now.schema.now)
        console.old.status them console.new.status) }
{
    let mut text = Vec::new(console.alloc());
    for number in 1..u64::MAX {
        text.clear();
        match reader.read_until(b'\n', &mut text) {
            Ok(0) => return Ok(()),
            Ok(_) => {}
            Err(error) => return pass_over(console, checker.options, name, error),
        }
        let line = text.strip_suffix(b"\n").unwrap_or(&text);
        if !is_blank(line) {
            let place = Place {
                name,
                line: Some(number),
            };
            check_text(console, checker, place, line)?;
        }
    }
    Ok(())
}

/// Checks the value that a text is.
fn check_text<T: Print + Eprint + AllocGlobal, K: Leaf, R: RegexEngine>(
    console: &mut Console<'_, T>,
    checker: &Checker<'_, K, R>,
    place: Place<'_>,
    text: &[u8],
) -> io::Result<()>
    requires stands { IsDocumentValidatorOf (kit K.Leaf R.RegexEngine) checker.now.validator.now
        (view checker.now.schema.now) }
    ensures { OnOk result (IsChecked (world K.Leaf R.RegexEngine)
        (view checker.now.schema.now) console.old.status (Some text.now ∷ [])
        console.new.status) }
{
    match read_value(console, place, text)? {
        Some(instance) => check_value(console, checker, Given { place, text }, &instance),
        None => refuse(console, checker.options, place, "not JSON"),
    }
}

/// Counts whether the schema accepts a value, and tells what is asked of it.
fn check_value<T: Print + Eprint + AllocGlobal, K: Leaf, R: RegexEngine>(
    console: &mut Console<'_, T>,
    checker: &Checker<'_, K, R>,
    given: Given<'_>,
    instance: &Value,
) -> io::Result<()>
    requires stands { IsDocumentValidatorOf (kit K.Leaf R.RegexEngine) checker.now.validator.now
        (view checker.now.schema.now) }
    ensures { console.new.status ≡ worse console.old.status
        (status_of (accepts (world K.Leaf R.RegexEngine) false
        (view checker.now.schema.now) (view instance.now))) }
{
    let question = Question {
        schema: checker.schema,
        instance,
        unfinished: false,
    };
    let is_valid = accepts(&question, checker.validator);
    console.count(Status::of(is_valid));
    if checker.options.is_quiet {
        return Ok(());
    }
    let (alloc, place) = (console.alloc(), given.place);
    match checker.options.format {
        Format::Json => {
            let answer = answer_text(alloc, checker, given, &question)?;
            console.write_line(&placed(alloc, place, &answer)?)
        }
        Format::Text if is_valid => console.write(format_args!("{place}: valid\n")),
        Format::Text => {
            let errors = asked_errors(alloc, &question, checker.validator, checker.options.ask)?;
            let lines = error_lines(alloc, place, given.text, &errors)?;
            console.write(lines.as_str())
        }
    }
}

/// A text, and where it stands.
#[derive(Clone, Copy)]
struct Given<'g> {
    place: Place<'g>,
    text: &'g [u8],
}

/// The answer to what is asked of a value, as compact JSON.
fn answer_text<K: Leaf, R: RegexEngine>(
    alloc: Global,
    checker: &Checker<'_, K, R>,
    given: Given<'_>,
    question: &Question<'_>,
) -> Result<Vec<u8>, AllocError>
    requires stands { IsDocumentValidatorOf (kit K.Leaf R.RegexEngine) checker.now.validator.now
        (view question.now.schema.now) }
{
    if checker.options.ask == Ask::Evaluate {
        return tell_evaluation(alloc, question, checker.validator);
    }
    let errors = asked_errors(alloc, question, checker.validator, checker.options.ask)?;
    let located = Located::new(alloc, given.text, given.place.first_line(), &errors)?;
    if checker.options.ask == Ask::First {
        first_text(alloc, &located, &errors)
    } else {
        errors_text(alloc, &located, &errors)
    }
}

/// Passes over a file that can't be read, which is said.
fn pass_over<T: Print + Eprint + AllocGlobal>(
    console: &mut Console<'_, T>,
    options: &Options<'_>,
    name: &str,
    error: io::Error,
) -> io::Result<()>
    ensures { OnOk result (console.new.status ≡ worse console.old.status Status.Failed) }
{
    console.fail_to_read(name, error)?;
    refuse(
        console,
        options,
        Place { name, line: None },
        "cannot be read",
    )
}

/// Answers by a refusal, where there is a line of JSON for each value.
fn refuse<T: Print + Eprint + AllocGlobal>(
    console: &mut Console<'_, T>,
    options: &Options<'_>,
    place: Place<'_>,
    why: &str,
) -> io::Result<()>
    ensures { console.new.status ≡ console.old.status }
{
    if options.is_quiet || options.format == Format::Text {
        return Ok(());
    }
    let alloc = console.alloc();
    let answer = refusal_text(alloc, why)?;
    console.write_line(&placed(alloc, place, &answer)?)
}
