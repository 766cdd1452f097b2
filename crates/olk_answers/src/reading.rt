//! Reads one line of a reader.
ghost use Rattle.std.specs.Prelude.{◌≡◌, ◌<◌, List, ℕ, Ok, IfOk, OnOk, IfSome, Some, vec_len};
ghost use Rattle.olk_answers.specs.Steps.{HasNoFeed, TakesPart, NextLine};

use std::alloc::{AllocError, AllocFailed};
use std::io::BufRead;

/// Why the program stops before the end of its input.
#[derive(Clone, Copy, Drop)]
pub enum Stop {
    /// A read or a write failed.
    Failed,
    /// There was no memory.
    Memory,
}

impl From<AllocError> for Stop {
    ghost use Rattle.olk_answers.specs.declared.reading.Stop.TheVariants.{Memory};
    ghost use Rattle.std.specs.Prelude.{◌≡◌};

    ghost from_gives = { λ _ e. e ≡ Memory };

    fn from(_refused: AllocError) -> Stop {
        Stop::Memory
    }
}

impl<T: Drop> From<AllocFailed<T>> for Stop {
    ghost use Rattle.olk_answers.specs.declared.reading.Stop.TheVariants.{Memory};
    ghost use Rattle.std.specs.Prelude.{◌≡◌};

    ghost from_gives = { λ _ e. e ≡ Memory };

    fn from(_refused: AllocFailed<T>) -> Stop {
        Stop::Memory
    }
}

/// What a step of reading a line came to.
#[derive(Clone, Copy, Drop)]
pub enum Part {
    /// The line goes on.
    More,
    /// The line feed.
    Feed,
    /// The end of the input.
    End,
}

/// Appends to the line what the reader shows of it, and takes that and its line feed from the
/// reader.
fn take_part<I: BufRead>(reader: &mut I, line: &mut Vec<u8>) -> Result<Part, Stop>
    ensures taken { IfOk result (λ part. IfSome (I.remaining reader.old) (λ xs. (ys : List ℕ)
        × (I.remaining reader.new ≡ Some ys)
        × TakesPart part line.old.items line.new.items xs ys)) }
    ensures plain { OnOk result (HasNoFeed line.old.items → HasNoFeed line.new.items) }
    ensures grows { result ≡ Ok Part.More → vec_len line.old < vec_len line.new }
{
    let Ok(shown) = reader.fill_buf() else {
        return Err(Stop::Failed);
    };
    if shown.is_empty() {
        return Ok(Part::End);
    }
    let found = shown.iter().position(|b| *b == b'\n');
    let len = found.unwrap_or(shown.len());
    if line.extend_from_slice(&shown[..len]).is_err() {
        return Err(Stop::Memory);
    }
    match found {
        Some(_) => {
            reader.consume(len + 1);
            Ok(Part::Feed)
        }
        None => {
            reader.consume(len);
            Ok(Part::More)
        }
    }
}

/// Reads the next line, without its line feed, in place of what `line` holds. The answer is false
/// at the end of the input.
pub fn read_line<I: BufRead>(reader: &mut I, line: &mut Vec<u8>) -> Result<bool, Stop>
    ensures { IfOk result (λ some. IfSome (I.remaining reader.old) (λ xs. (ys : List ℕ)
        × (I.remaining reader.new ≡ Some ys) × NextLine some xs line.new.items ys)) }
{
    line.clear();
    loop {
        match take_part(reader, line)? {
            Part::More => {}
            Part::Feed => return Ok(true),
            Part::End => return Ok(!line.is_empty()),
        }
    }
}
