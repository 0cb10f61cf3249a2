//! Faults that end a command before it is done.

ghost use Rattle.std.specs.Prelude.{◌≡◌};

use crate::cause::Cause;
use crate::options::OutputFormat;
use crate::outputs::{OutputFault, is_standard};
use crate::status::{ExitStatus, Status};
use cmd_quoting::OneLine;
use its_gnvalue::NoMemory;
use its_words::frames::Explanation;
use its_words::json_lines::JsonFault;
use std::alloc::AllocError;
use std::fmt::Display;
use std::io;
use std::io::Write;
use thiserror::Error;

/// Why a command ended before it was done: it has an exit status, and a line on standard error.
pub trait CommandFault {
    /// The type of the exit status: `ExitStatus` if arguments may be at fault, otherwise `Status`.
    type Ending: From<Status>;

    /// The exit status of a command that it ends.
    ghost status_of: { Self → Self.Ending };

    /// Returns the exit status of a command that it ends.
    fn status(&self) -> Self::Ending
        ensures { result ≡ status_of self.now };

    /// Writes its line on standard error, if it has one. With `explain` the line ends with the
    /// reason in parentheses, if there is one. A failed write changes nothing.
    fn report<E: Write>(&self, format: OutputFormat, err: &mut E);
}

/// Why any command may end before it is done. It prints as its line on standard error.
#[derive(Debug, Drop, Error)]
pub enum Fault<'a> {
    /// The file could not be opened, or a read of it failed.
    #[error("geostation: cannot read {}", OneLine(*.0))]
    CannotRead(&'a str),
    /// The file could not be created, or a write of it failed.
    #[error("geostation: cannot write {}", OneLine(*.0))]
    CannotWrite(&'a str),
    /// The file could not be opened, or a read of it failed, and why.
    #[error("geostation: cannot read {}", OneLine(*.0))]
    NotRead(&'a str, Cause),
    /// The file could not be created, or a write of it failed, and why.
    #[error("geostation: cannot write {}", OneLine(*.0))]
    NotWritten(&'a str, Cause),
    /// An allocation failed.
    #[error("geostation: out of memory")]
    OutOfMemory(#[from(alloc)] AllocError),
    /// Standard output could not be written. There is no line for it.
    #[error("")]
    NoOutput(#[from] io::Error),
}

impl Fault<'_> {
    /// Returns the fault of a failed call on the file that is read. Out of memory is a fault of its
    /// own.
    pub fn of_read<'a>(error: &io::Error, file: &'a str) -> Fault<'a> {
        match (error.kind(), Cause::of(error)) {
            (io::ErrorKind::OutOfMemory, _) => Fault::OutOfMemory(AllocError),
            (_, Some(cause)) => Fault::NotRead(file, cause),
            (_, None) => Fault::CannotRead(file),
        }
    }

    /// Returns the fault of a failed call on the file that is written. Out of memory is a fault of
    /// its own.
    pub fn of_write<'a>(error: &io::Error, file: &'a str) -> Fault<'a> {
        match (error.kind(), Cause::of(error)) {
            (io::ErrorKind::OutOfMemory, _) => Fault::OutOfMemory(AllocError),
            (_, Some(cause)) => Fault::NotWritten(file, cause),
            (_, None) => Fault::CannotWrite(file),
        }
    }

    /// Returns the fault of a failed write to the file with this name. For standard output, `-`,
    /// there is no line.
    pub fn of_target(file: &str) -> Fault<'_> {
        if is_standard(file) {
            Fault::no_output()
        } else {
            Fault::CannotWrite(file)
        }
    }

    /// Returns the fault of standard output, if the error isn't known.
    pub fn no_output<'a>() -> Fault<'a> {
        Fault::NoOutput(io::Error::from(io::ErrorKind::Other))
    }

    /// Returns the system's reason, if there is one.
    fn cause(&self) -> Option<Cause> {
        match self {
            Fault::NotRead(_, cause) | Fault::NotWritten(_, cause) => Some(*cause),
            _ => None,
        }
    }
}

impl CommandFault for Fault<'_> {
    type Ending = Status;

    ghost use Rattle.cmd_reporting.specs.declared.status.Status.TheVariants.{Failed};

    ghost status_of = { λ _. Failed };

    fn status(&self) -> Status {
        Status::Failed
    }

    /// Adds the system's reason to the line of a file.
    fn report<E: Write>(&self, format: OutputFormat, err: &mut E) {
        if !matches!(self, Fault::NoOutput(_)) {
            let cause = if format.explain { self.cause() } else { None };
            let _ = writeln!(err, "{self}{}", Explanation(cause));
        }
    }
}

impl From<NoMemory> for Fault<'_> {
    fn from(_: NoMemory) -> Self {
        Fault::OutOfMemory(AllocError)
    }
}

impl From<JsonFault> for Fault<'_> {
    fn from(fault: JsonFault) -> Self {
        match fault {
            JsonFault::OutOfMemory => Fault::OutOfMemory(AllocError),
            // No line of a command has such a value.
            JsonFault::Kind => Fault::NoOutput(io::Error::from(io::ErrorKind::InvalidData)),
        }
    }
}

/// Why a command that writes a file ended before it was done: by any other fault, or because of
/// that file.
#[derive(Debug, Drop, Error)]
pub enum WriterFault<'a, F: Display> {
    /// A fault that is not about the file that it writes.
    #[error("{0}")]
    Stopped(F),
    /// The file is not written.
    #[error("{0}")]
    Output(OutputFault<'a>),
}

impl<F: CommandFault<Ending = Status> + Display> CommandFault for WriterFault<'_, F> {
    type Ending = ExitStatus;

    ghost use Rattle.cmd_reporting.specs.Statuses.{writer_fault_status};

    ghost status_of = { writer_fault_status F.status_of };

    fn status(&self) -> ExitStatus {
        match self {
            WriterFault::Stopped(fault) => ExitStatus::Ended(fault.status()),
            WriterFault::Output(fault) => fault.status(),
        }
    }

    fn report<E: Write>(&self, format: OutputFormat, err: &mut E) {
        match self {
            WriterFault::Stopped(fault) => fault.report(format, err),
            WriterFault::Output(fault) => fault.report(format, err),
        }
    }
}

impl<'a, F: Display> From<OutputFault<'a>> for WriterFault<'a, F> {
    ghost use Rattle.cmd_reporting.specs.declared.fault.WriterFault.TheVariants as writer_faults;

    ghost from_gives = { λ fault e. e ≡ writer_faults.Output fault };

    fn from(fault: OutputFault<'a>) -> WriterFault<'a, F> {
        WriterFault::Output(fault)
    }
}

impl<'a, F: Display + From<Fault<'a>>> From<Fault<'a>> for WriterFault<'a, F> {
    ghost use Rattle.cmd_reporting.specs.declared.fault.WriterFault.TheVariants as writer_faults;

    ghost from_gives = { λ _ e. (fault : F) × (e ≡ writer_faults.Stopped fault) };

    fn from(fault: Fault<'a>) -> WriterFault<'a, F> {
        WriterFault::Stopped(F::from(fault))
    }
}
