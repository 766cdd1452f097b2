//! Asks one question many times, so that the instructions that one takes can be counted.
//!
//! Stands on `object_logic`, `olk_bench` and `olk_answers`. Tested by its files `stdin` and
//! `stdout`.
#![tactic(auto)]

mod asking;
mod request;

use asking::ask_often;
use olk_answers::verdict_text;
use request::read_request;
use serde_json::Value;
use std::alloc::Global;
use std::io::{Read, Write};
use std::process::ExitCode;

// The status where the verdict is written, and where it isn't.
const DONE: u8 = 0;

const FAILED: u8 = 2;

/// The verdict on the instance of the one request that the bytes are, as a line.
fn answer(alloc: Global, bytes: &[u8]) -> Option<Vec<u8>> {
    let value = Value::from_slice(alloc, bytes).ok()?;
    let request = read_request(&value)?;
    let valid = ask_often(alloc, &request)?;
    let mut text = verdict_text(alloc, valid).ok()?;
    text.push(b'\n').ok()?;
    Some(text)
}

fn run<I: Read, O: Write>(alloc: Global, reader: &mut I, writer: &mut O) -> Option<()> {
    let mut bytes = Vec::new(alloc);
    reader.read_to_end(&mut bytes).ok()?;
    let text = answer(alloc, &bytes)?;
    writer.write_all(&text).ok()
}

fn main(rt: HostRuntime) -> ExitCode {
    match run(rt.alloc(), &mut rt.reader(), &mut rt.stdout()) {
        Some(()) => ExitCode::from(DONE),
        None => ExitCode::from(FAILED),
    }
}
