//! The answers to a reader's lines, over a writer.
ghost use Rattle.std.specs.Prelude.{◌≡◌, ◌⊎◌, OnOk, IfErr};
ghost use Rattle.olk_answers.specs.Lines.{AnswersAll, AnswersSome, AnswersInPart};
ghost use Rattle.olk_answers.specs.Steps.{StopsBy};

use crate::reading::{Stop, read_line};
use crate::writing::write_whole;
use std::alloc::{AllocError, Global};
use std::io::{BufRead, Write};

/// Answers lines, each by itself.
pub trait AnswerLine {
    ghost use Rattle.std.specs.Prelude.{ℕ, List, IfOk};

    // whether a line, without its line feed, may have an answer, without its own
    ghost gives: { List ℕ → List ℕ → Type 0 };

    /// The answer to a line, both without their line feeds. The only error is out of memory.
    fn answer(&self, alloc: Global, line: &[u8]) -> Result<Vec<u8>, AllocError>
        ensures { IfOk result (λ answer. gives line.now answer.items) };
}

/// The status at the end of the input.
pub const DONE: u8 = 0;

/// The status where a read or a write failed, and after `u64::MAX` lines.
pub const FAILED: u8 = 2;

/// The status for out of memory.
pub const MEMORY: u8 = 3;

/// Answers each line of the input by one line, and gives the exit status.
///
/// - `DONE`: the input is read to its end, and each of its lines is answered, in order.
/// - `FAILED`: a read or a write failed, or `u64::MAX` lines were answered. The first lines are
///   answered, and after that at most a beginning of the next line's answer is written.
/// - `MEMORY`: there was no memory. The first lines are answered, and nothing more is written.
///
/// Lines end with a line feed; what stands after the last one is a line unless it is empty.
pub fn run<A: AnswerLine, I: BufRead, O: Write>(
    alloc: Global,
    answerer: &A,
    reader: &mut I,
    writer: &mut O,
) -> u8
    ensures status { (result ≡ 0) ⊎ (result ≡ 2) ⊎ (result ≡ 3) }
    ensures all { result ≡ 0
        → AnswersAll A.gives (I.remaining reader.old) (I.remaining reader.new)
        (O.contents writer.old) (O.contents writer.new) }
    ensures failed { result ≡ 2 → AnswersInPart A.gives (I.remaining reader.old)
        (O.contents writer.old) (O.contents writer.new) }
    ensures memory { result ≡ 3 → AnswersSome A.gives (I.remaining reader.old)
        (O.contents writer.old) (O.contents writer.new) }
{
    match answer_lines(alloc, answerer, reader, writer) {
        Ok(()) => DONE,
        Err(Stop::Failed) => FAILED,
        Err(Stop::Memory) => MEMORY,
    }
}

/// Answers each line, to the end of the input.
fn answer_lines<A: AnswerLine, I: BufRead, O: Write>(
    alloc: Global,
    answerer: &A,
    reader: &mut I,
    writer: &mut O,
) -> Result<(), Stop>
    ensures all { OnOk result (AnswersAll A.gives
        (I.remaining reader.old) (I.remaining reader.new)
        (O.contents writer.old) (O.contents writer.new)) }
    ensures stops { IfErr result (StopsBy A.gives (I.remaining reader.old)
        (O.contents writer.old) (O.contents writer.new)) }
{
    let mut line = Vec::new(alloc);
    for _ in 0..u64::MAX {
        if !read_line(reader, &mut line)? {
            return Ok(());
        }
        let mut text = answerer.answer(alloc, &line)?;
        text.push(b'\n')?;
        write_whole(writer, &text)?;
    }
    Err(Stop::Failed)
}
