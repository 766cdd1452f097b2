//! Checks files of JSON values by a schema.
//!
//! Stands on `olk_document`, `olk_vocabulary`, `olk_regexes`, `olk_answers` and `olk_places`.
//! Tested by its files `args`, `data` and `stdout`, and by `tools/checked_files` and
//! `tools/positions`.
#![tactic(auto)]

mod answer;
mod console;
mod document;
mod instances;
mod options;
mod program;
mod reading;
mod schema;
mod words;

use std::io::IsTerminal;
use std::process::ExitCode;

fn main(rt: HostRuntime) -> ExitCode {
    let has_terminal = rt.stderr().is_terminal();
    ExitCode::from(program::run(&rt, has_terminal).code())
}
