//! Says of pairs of a pattern and a text whether the pattern is found in the text, one pair a line.
//!
//! Stands on `olk_regexes` and `olk_answers`. Tested by its files `stdin` and `stdout`.
#![tactic(auto)]

mod answer;

use answer::Matching;
use std::io::BufReader;
use std::process::ExitCode;

fn main(rt: HostRuntime) -> ExitCode {
    match BufReader::new(rt.alloc(), rt.reader()) {
        Ok(mut reader) => ExitCode::from(olk_answers::lines::run(
            rt.alloc(),
            &Matching,
            &mut reader,
            &mut rt.stdout(),
        )),
        Err(_) => ExitCode::from(olk_answers::lines::MEMORY),
    }
}
