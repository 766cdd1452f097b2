//! What a command line asks for.
use clap::error::ErrorKind;
use clap::{Arg, ArgAction, ArgMatches, Command, Error};
use olk_drafts::Draft;
use std::alloc::{AllocError, Global};

/// How answers are written.
#[derive(Clone, Copy, PartialEq, Eq, Drop)]
pub enum Format {
    /// Lines for people.
    Text,
    /// A line of compact JSON for each value.
    Json,
}

/// What is asked of each instance.
#[derive(Clone, Copy, PartialEq, Eq, Drop)]
pub enum Ask {
    /// The first error.
    First,
    /// Every error.
    Errors,
    /// What the schema shows.
    Evaluate,
}

/// The name of the standard input on a command line.
pub const STANDARD_INPUT: &str = "-";

/// A schema, instances, and how they are asked.
#[derive(Drop)]
pub struct Options<'w> {
    /// The schema's path.
    pub schema: &'w str,
    /// The instances' paths. Where there is none, the schema alone is checked.
    pub instances: Vec<&'w str>,
    /// The draft by which schemas are read, and else it is that of their `$schema`.
    pub draft: Option<Draft>,
    /// Each line of an instance is a value, and else the whole.
    pub has_lines: bool,
    /// What is asked.
    pub ask: Ask,
    /// How it is answered.
    pub format: Format,
    /// Nothing is answered but the status.
    pub is_quiet: bool,
}

impl Options<'_> {
    /// Whether both the schema and an instance are to be read from the standard input.
    fn reads_input_twice(&self) -> bool {
        self.schema == STANDARD_INPUT && self.instances.iter().any(|path| *path == STANDARD_INPUT)
    }
}

const READ_TWICE: &str = "the standard input cannot be both the schema and an instance";

const VERSION: &str = "13.0.0";

const AFTER_HELP: &str = "\
A path may be - for the standard input.

Status:
  0  all instances are valid; without one, the schema can be used
  1  some are not
  2  wrong use, a file that can't be read, a schema that can't be used, or a text that isn't JSON
  3  out of memory
The status is that of the worst of all; what has status 2 or 3 is said on standard error, except
that standard output was closed before all was written (2).

An error is told as FILE:LINE:COLUMN: PATH: MESSAGE (SCHEMA PATH), where a column counts characters.

A text is no JSON here if a number in it is too large for a double, or it is nested over 127 deep.
A schema can't be used if it is malformed, or something in it is not supported: docs/VOCABULARY.md.";

/// What the words of a command line ask for, the program's name first.
///
/// # Errors
///
/// What is wrong with the words, the help or the version where that is asked for, or out of memory.
pub fn read_options<'w>(alloc: Global, words: &'w [String]) -> Result<Options<'w>, Error> {
    let mut command = command(alloc)?;
    let matches = command.try_get_matches_from_mut(words)?;
    let options = options_of(alloc, &matches)?;
    if options.reads_input_twice() {
        return Err(command.error(ErrorKind::ArgumentConflict, READ_TWICE)?);
    }
    Ok(options)
}

fn command<'w>(alloc: Global) -> Result<Command<'w>, AllocError> {
    Command::new(alloc, "olk")
        .bin_name("olk")?
        .version(VERSION)
        .about("Checks JSON values by a JSON Schema.")
        .after_help(AFTER_HELP)
        .arg(schema_argument(alloc))?
        .arg(instances_argument(alloc))?
        .arg(flag(alloc, "lines", "Take each line for a value"))?
        .arg(flag(alloc, "first", "Tell the first error alone").conflicts_with("evaluate")?)?
        .arg(flag(alloc, "evaluate", "Tell what the schema shows, as JSON"))?
        .arg(draft_argument(alloc))?
        .arg(format_argument(alloc))?
        .arg(flag(alloc, "quiet", "Tell nothing but the status").short('q'))
}

fn schema_argument<'w>(alloc: Global) -> Arg<'w> {
    Arg::new(alloc, "schema")
        .value_name("SCHEMA")
        .required(true)
        .help("The file that holds the schema")
}

fn instances_argument<'w>(alloc: Global) -> Arg<'w> {
    Arg::new(alloc, "instances")
        .value_name("INSTANCE")
        .num_args(0..)
        .help("The files that hold the values to check; if there is none, the schema is checked")
}

fn flag<'w>(alloc: Global, name: &'w str, help: &'w str) -> Arg<'w> {
    Arg::new(alloc, name)
        .long(name)
        .action(ArgAction::SetTrue)
        .help(help)
}

fn draft_argument<'w>(alloc: Global) -> Arg<'w> {
    Arg::new(alloc, "draft")
        .long("draft")
        .value_name("DRAFT")
        .value_parser(["4", "6", "7", "2019-09", "2020-12"].as_slice())
        .help("Read schemas by this draft, and not by their $schema")
}

fn format_argument<'w>(alloc: Global) -> Arg<'w> {
    Arg::new(alloc, "format")
        .long("format")
        .value_name("FORMAT")
        .value_parser(["text", "json"].as_slice())
        .default_value("text")
        .help("Write lines for people, or a line of JSON for each value")
}

fn options_of<'w>(alloc: Global, matches: &ArgMatches<'w>) -> Result<Options<'w>, AllocError> {
    let mut instances = Vec::new(alloc);
    for path in matches.get_strs("instances").unwrap_or(&[]) {
        instances.push(*path)?;
    }
    let ask = ask_of(matches);
    Ok(Options {
        schema: matches.get_str("schema").unwrap_or(STANDARD_INPUT),
        instances,
        draft: draft_of(matches),
        has_lines: matches.get_flag("lines"),
        ask,
        format: format_of(ask, matches),
        is_quiet: matches.get_flag("quiet"),
    })
}

fn draft_of(matches: &ArgMatches<'_>) -> Option<Draft> {
    match matches.get_str("draft")? {
        "4" => Some(Draft::Draft4),
        "6" => Some(Draft::Draft6),
        "7" => Some(Draft::Draft7),
        "2019-09" => Some(Draft::Draft201909),
        "2020-12" => Some(Draft::Draft202012),
        _ => None,
    }
}

fn ask_of(matches: &ArgMatches<'_>) -> Ask {
    if matches.get_flag("evaluate") {
        Ask::Evaluate
    } else if matches.get_flag("first") {
        Ask::First
    } else {
        Ask::Errors
    }
}

/// What the schema shows is told as JSON alone.
fn format_of(ask: Ask, matches: &ArgMatches<'_>) -> Format {
    if ask == Ask::Evaluate || matches.get_str("format") == Some("json") {
        Format::Json
    } else {
        Format::Text
    }
}
