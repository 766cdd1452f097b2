//! The program over a reader and a writer.
ghost use Rattle.std.specs.Prelude.{◌≡◌, ◌⊎◌};
ghost use Rattle.olk_cli.specs.Answers.{IsAnswer};
ghost use Rattle.olk_answers.specs.Lines.{AnswersAll, AnswersSome, AnswersInPart};

use crate::answer::answer_line;
use olk_answers::AnswerLine;
use std::alloc::{AllocError, Global};
use std::io::{BufRead, Write};

/// Answers requests to validate.
#[derive(Clone, Copy, Drop)]
struct Validation;

impl AnswerLine for Validation {
    ghost use Rattle.olk_cli.specs.Answers.{IsAnswer};

    ghost gives = { IsAnswer };

    fn answer(&self, alloc: Global, line: &[u8]) -> Result<Vec<u8>, AllocError> {
        answer_line(alloc, line)
    }
}

/// Answers each line of the input by one line, and gives the exit status, of `olk_answers`.
///
/// - `DONE`: the input is read to its end, and each of its lines is answered, in order.
/// - `FAILED`: a read or a write failed, or `u64::MAX` lines were answered. The first lines are
///   answered, and after that at most a beginning of the next line's answer is written.
/// - `MEMORY`: there was no memory. The first lines are answered, and nothing more is written.
///
/// Lines end with a line feed; what stands after the last one is a line unless it is empty.
pub fn run<I: BufRead, O: Write>(alloc: Global, reader: &mut I, writer: &mut O) -> u8
    ensures status { (result ≡ 0) ⊎ (result ≡ 2) ⊎ (result ≡ 3) }
    ensures all { result ≡ 0
        → AnswersAll IsAnswer (I.remaining reader.old) (I.remaining reader.new)
        (O.contents writer.old) (O.contents writer.new) }
    ensures failed { result ≡ 2 → AnswersInPart IsAnswer (I.remaining reader.old)
        (O.contents writer.old) (O.contents writer.new) }
    ensures memory { result ≡ 3 → AnswersSome IsAnswer (I.remaining reader.old)
        (O.contents writer.old) (O.contents writer.new) }
{
    olk_answers::lines::run(alloc, &Validation, reader, writer)
}
