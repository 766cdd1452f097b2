//! Lines of a double that answers each by a word and the line: all of them, and where a read, a
//! write or memory fails.
use crate::streams::{FailingReader, FailingWriter};
use crate::tables::{expect_rows, two};
use olk_answers::AnswerLine;
use olk_answers::lines::run;
use std::alloc::{AllocError, Global};
use std::fmt::Write;
use std::test::Fail;

/// Answers a line by `told ` and the line, and has no memory for one line.
#[derive(Clone, Copy, Drop)]
struct Echo<'a> {
    refused: &'a str,
}

impl AnswerLine for Echo<'_> {
    ghost use Rattle.std.specs.Prelude.{◌≡◌, ◌++◌, codes};

    ghost gives = { λ line answer. answer ≡ codes "told " ++ line };

    fn answer(&self, alloc: Global, line: &[u8]) -> Result<Vec<u8>, AllocError> {
        if line == self.refused.as_bytes() {
            return Err(AllocError);
        }
        let mut answer = Vec::new(alloc);
        answer.extend_from_slice(b"told ")?;
        answer.extend_from_slice(line)?;
        Ok(answer)
    }
}

/// The answers to lines, and the status. In the lines and in the answers a line feed is written
/// `\n`.
fn answered_lines(alloc: Global, lines: &str) -> Result<String, Fail> {
    let lines = lines.replace(alloc, r"\n", "\n")?;
    let mut writer = Vec::new(alloc);
    let echo = Echo { refused: "none" };
    let status = run(alloc, &echo, &mut lines.as_bytes(), &mut writer);
    drop(lines);
    Ok(format!(in alloc; "{}, {status}", writer.as_slice().escape_ascii())?)
}

// Lines, their answers and the status. An empty line is answered, and so is one that ends without a
// line feed, unless it is empty.
const LINES: &str = r" | , 0
\n | told \n, 0
a\n\nb\n | told a\ntold \ntold b\n, 0
a\nb | told a\ntold b\n, 0";

#[test]
fn answers_each_line(rt: HostRuntime) -> Result<(), Fail> {
    expect_rows(rt.alloc(), LINES, answered_lines)
}

// ---- a thousand lines, each of one length, and their answers, each of one length too

const ANSWER: usize = 17;

fn numbered(alloc: Global, words: &str) -> Result<String, AllocError> {
    let mut text = String::new(alloc);
    for number in 1000..2000u16 {
        writeln!(text, "{words} {number}")?;
    }
    Ok(text)
}

/// The length of a thousand lines that begin with these words.
fn numbered_len(alloc: Global, words: &str) -> Result<String, Fail> {
    let text = numbered(alloc, words)?;
    Ok(format!(in alloc; "{}", text.len())?)
}

#[test]
fn lines_and_answers_have_one_length(rt: HostRuntime) -> Result<(), Fail> {
    let rows = "number | 12000\ntold number | 17000";
    expect_rows(rt.alloc(), rows, numbered_len)
}

// ---- what fails

/// What fails: a read after so many turns of up to `step` bytes, a write after so many of up to 7
/// bytes, or memory at a line.
#[derive(Clone, Copy)]
struct Failing<'a> {
    step: usize,
    reads: usize,
    writes: usize,
    takes_none: bool,
    refused: &'a str,
}

/// Where no number stands, it never fails.
fn number(cell: &str) -> usize {
    cell.parse().unwrap_or(usize::MAX)
}

fn what_fails(cells: &str) -> Failing<'_> {
    let (step, cells) = two(cells);
    let (reads, cells) = two(cells);
    let (writes, cells) = two(cells);
    let (after, refused) = two(cells);
    Failing {
        step: number(step),
        reads: number(reads),
        writes: number(writes),
        takes_none: after == "none",
        refused,
    }
}

/// How many answers are written whole, how many bytes of the next one, and the status.
fn told_of(alloc: Global, written: &[u8], status: u8) -> Result<String, AllocError> {
    let answers = numbered(alloc, "told number")?;
    let is_beginning = answers.as_bytes().starts_with(written);
    drop(answers);
    if is_beginning {
        let len = written.len();
        format!(in alloc;
            "{} answers, {} bytes, {status}",
            len / ANSWER,
            len % ANSWER
        )
    } else {
        String::from_str(alloc, "other bytes")
    }
}

/// How far the thousand lines are answered, of what fails.
fn answered_so_far(alloc: Global, cells: &str) -> Result<String, Fail> {
    let failing = what_fails(cells);
    let lines = numbered(alloc, "number")?;
    let mut reader = FailingReader {
        bytes: lines.as_bytes(),
        step: failing.step,
        turns: failing.reads,
    };
    let mut writer = FailingWriter {
        bytes: Vec::new(alloc),
        step: 7,
        turns: failing.writes,
        takes_none: failing.takes_none,
    };
    let echo = Echo {
        refused: failing.refused,
    };
    let status = run(alloc, &echo, &mut reader, &mut writer);
    drop(lines);
    Ok(told_of(alloc, writer.bytes.as_slice(), status)?)
}

// In each table a row has how many bytes a read shows, after how many reads one fails, after how
// many writes of up to 7 bytes one fails, and whether it takes none or is an error, and the line
// that there is no memory for; then how many answers are written whole, how many bytes of the next
// one, and the status: 0 at the end of the input, 2 where a read or a write failed, 3 for want of
// memory. A line has 12 bytes.

// At once, between lines, within a line, at the end; and not at all. In steps of 5 bytes, a line
// takes three reads.
const READS: &str = "100 | 0 | - | - | - | 0 answers, 0 bytes, 2
100 | 1 | - | - | - | 1 answers, 0 bytes, 2
12 | 600 | - | - | - | 600 answers, 0 bytes, 2
5 | 1801 | - | - | - | 600 answers, 0 bytes, 2
100 | 1000 | - | - | - | 1000 answers, 0 bytes, 2
100 | 1001 | - | - | - | 1000 answers, 0 bytes, 0";

#[test]
fn stops_where_a_read_fails(rt: HostRuntime) -> Result<(), Fail> {
    expect_rows(rt.alloc(), READS, answered_so_far)
}

// At once, within the first answer, between answers, within one, not at all: an answer takes three
// writes.
const WRITES: &str = "100 | - | 0 | error | - | 0 answers, 0 bytes, 2
100 | - | 0 | none | - | 0 answers, 0 bytes, 2
100 | - | 1 | error | - | 0 answers, 7 bytes, 2
100 | - | 1 | none | - | 0 answers, 7 bytes, 2
100 | - | 2100 | error | - | 700 answers, 0 bytes, 2
100 | - | 2100 | none | - | 700 answers, 0 bytes, 2
100 | - | 2102 | error | - | 700 answers, 14 bytes, 2
100 | - | 2102 | none | - | 700 answers, 14 bytes, 2
100 | - | 3000 | error | - | 1000 answers, 0 bytes, 0
100 | - | 3000 | none | - | 1000 answers, 0 bytes, 0";

#[test]
fn stops_where_a_write_fails(rt: HostRuntime) -> Result<(), Fail> {
    expect_rows(rt.alloc(), WRITES, answered_so_far)
}

// At the first line, the 700th, the last, and at none: the answers before it are whole, and nothing
// more is written.
const REFUSED: &str = "100 | - | - | - | number 1000 | 0 answers, 0 bytes, 3
100 | - | - | - | number 1699 | 699 answers, 0 bytes, 3
100 | - | - | - | number 1999 | 999 answers, 0 bytes, 3
100 | - | - | - | number 2000 | 1000 answers, 0 bytes, 0";

#[test]
fn stops_where_there_is_no_memory(rt: HostRuntime) -> Result<(), Fail> {
    expect_rows(rt.alloc(), REFUSED, answered_so_far)
}
