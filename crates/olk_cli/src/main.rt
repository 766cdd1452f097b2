//! Answers requests to validate, one a line.
//!
//! Stands on `object_logic`, `olk_bench`, `olk_answers` and `olk_replies`. Tested by
//! its files `stdin` and `stdout`, and by the module `rows`.
#![tactic(auto)]

mod answer;
mod program;
mod request;
#[cfg(test)]
mod rows;

use program::run;
use std::io::BufReader;
use std::process::ExitCode;

fn main(rt: HostRuntime) -> ExitCode {
    match BufReader::new(rt.alloc(), rt.reader()) {
        Ok(mut reader) => ExitCode::from(run(rt.alloc(), &mut reader, &mut rt.stdout())),
        Err(_) => ExitCode::from(olk_answers::lines::MEMORY),
    }
}
