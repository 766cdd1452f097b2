//! Where a run tells what it found, and how far it came.
ghost use Rattle.std.specs.Prelude.{◌≡◌, IfOk, OnOk};
ghost use Rattle.olk.specs.Statuses.{status_of, code_of, worse};

use olk_places::Visible;
use std::alloc::Global;
use std::fmt::Display;
use std::io::{self, BufWriter, ErrorKind, Printer, Write};
use std::rt::Clock;
use std::time::Instant;

/// How many bytes of output are written at once.
const OUTPUT_LEN: usize = 65536;

/// For how many seconds nothing is told of how far a run came.
const PAUSE: u64 = 1;

/// How far a run came, from the best to the worst.
#[derive(Clone, Copy, PartialEq, Eq, PartialOrd, Ord, Drop)]
pub enum Status {
    /// All instances are valid.
    Valid,
    /// Some are not.
    Invalid,
    /// Something could not be read, or was not asked rightly.
    Failed,
    /// There was no memory.
    Memory,
}

impl Status {
    /// Of an instance that is valid or not.
    pub fn of(is_valid: bool) -> Status
        ensures { result ≡ status_of is_valid }
    {
        if is_valid {
            Status::Valid
        } else {
            Status::Invalid
        }
    }

    /// The worse of two.
    pub fn worse(self, other: Status) -> Status
        ensures { result ≡ worse self other }
    {
        if self < other { other } else { self }
    }

    /// The exit status.
    pub fn code(self) -> u8
        ensures { result ≡ code_of self }
    {
        match self {
            Status::Valid => 0,
            Status::Invalid => 1,
            Status::Failed => 2,
            Status::Memory => 3,
        }
    }
}

/// Standard output and standard error, and the worst status so far.
#[derive(Drop)]
pub struct Console<'r, T: Print> {
    rt: &'r T,
    out: BufWriter<Printer<'r, T>>,
    status: Status,
    /// When it was last told how far the run came, where that is told.
    told: Option<Instant>,
}

impl<'r, T: Print + Eprint + AllocGlobal> Console<'r, T> {
    /// With nothing told; from `start` on, where there is one, it is told how far the run came.
    ///
    /// # Errors
    ///
    /// Out of memory.
    pub fn new(rt: &'r T, start: Option<Instant>) -> io::Result<Console<'r, T>>
        ensures { IfOk result (λ console. console.status ≡ Status.Valid) }
    {
        let out = BufWriter::with_capacity(rt.alloc(), OUTPUT_LEN, io::writer(rt))?;
        Ok(Console {
            rt,
            out,
            status: Status::Valid,
            told: start,
        })
    }

    /// Counts what an instance, or something else, came to.
    pub fn count(&mut self, status: Status)
        ensures { self.new.status ≡ worse self.old.status status }
    {
        self.status = self.status.worse(status);
    }

    /// The allocator.
    pub fn alloc(&self) -> Global {
        self.rt.alloc()
    }

    /// Writes to standard output.
    ///
    /// # Errors
    ///
    /// A write failed.
    pub fn write<D: Display + Drop>(&mut self, text: D) -> io::Result<()>
        ensures { self.new.status ≡ self.old.status }
    {
        write!(self.out, "{text}")
    }

    /// Writes a line to standard output, that is given without its line feed.
    ///
    /// # Errors
    ///
    /// A write failed.
    pub fn write_line(&mut self, line: &[u8]) -> io::Result<()>
        ensures { self.new.status ≡ self.old.status }
    {
        self.out.write_all(line)?;
        self.out.write_all(b"\n")
    }

    /// Says on standard error why something failed, behind what was written before.
    ///
    /// # Errors
    ///
    /// A write failed.
    pub fn fail<D: Display + Drop>(&mut self, why: D) -> io::Result<()>
        ensures { self.new.status ≡ worse self.old.status Status.Failed }
    {
        self.count(Status::Failed);
        self.note(why)
    }

    /// Says something on standard error, behind what was written before.
    ///
    /// # Errors
    ///
    /// A write failed.
    pub fn note<D: Display + Drop>(&mut self, what: D) -> io::Result<()>
        ensures { self.new.status ≡ self.old.status }
    {
        self.out.flush()?;
        eprintln!(self.rt; "olk: {what}")
    }

    /// Says that a file can't be read.
    ///
    /// # Errors
    ///
    /// A write failed, or the error is out of memory.
    pub fn fail_to_read(&mut self, name: &str, error: io::Error) -> io::Result<()>
        ensures { OnOk result (self.new.status ≡ worse self.old.status Status.Failed) }
    {
        if error.kind() == ErrorKind::OutOfMemory {
            return Err(error);
        }
        let name = Visible(name);
        self.fail(format_args!("{name}: {error}"))
    }

    /// The worst status, once all is written.
    ///
    /// # Errors
    ///
    /// A write failed.
    pub fn finish(mut self) -> io::Result<Status>
        ensures { IfOk result (λ status. status ≡ self.entry.status) }
    {
        self.out.flush()?;
        Ok(self.status)
    }
}

impl<'r, T: Print + Eprint + Clock> Console<'r, T> {
    /// Tells on standard error how many of the files are checked, once a second.
    ///
    /// # Errors
    ///
    /// A write failed.
    pub fn tell_progress(&mut self, checked: usize, files: usize) -> io::Result<()>
        ensures { self.new.status ≡ self.old.status }
    {
        let (Some(told), Ok(now)) = (self.told, Instant::now(self.rt)) else {
            return Ok(());
        };
        if now.saturating_duration_since(told).as_secs() < PAUSE {
            return Ok(());
        }
        self.told = Some(now);
        eprintln!(self.rt; "olk: {checked} of {files} files are checked")
    }
}
