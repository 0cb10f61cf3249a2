//! Faults that end a station on a pipe before its input ends.

use its_gnvalue::NoMemory;
use its_words::json_lines::JsonFault;
use std::alloc::AllocError;
use std::io;
use std::io::Write;
use thiserror::Error;

/// Why a station on a pipe ended before its input did. It prints as its line on standard error.
#[derive(Debug, Drop, Error)]
pub enum PipeFault {
    /// A read of the input failed.
    #[error("geostation: cannot read -")]
    CannotRead,
    /// An allocation failed.
    #[error("geostation: out of memory")]
    OutOfMemory(#[from(alloc)] AllocError),
    /// The output could not be written. There is no line for it.
    #[error("")]
    NoOutput(#[from] io::Error),
}

impl PipeFault {
    /// Returns the fault of a read that failed: `OutOfMemory` if memory ran out, otherwise
    /// `CannotRead`.
    pub(crate) fn of_read(error: &io::Error) -> PipeFault {
        match error.kind() {
            io::ErrorKind::OutOfMemory => PipeFault::OutOfMemory(AllocError),
            _ => PipeFault::CannotRead,
        }
    }

    /// Writes the line on standard error. A failure to write it is ignored.
    pub(crate) fn report<E: Write>(&self, err: &mut E) {
        if !matches!(self, PipeFault::NoOutput(_)) {
            let _ = writeln!(err, "{self}");
        }
    }
}

impl From<NoMemory> for PipeFault {
    fn from(_: NoMemory) -> PipeFault {
        PipeFault::OutOfMemory(AllocError)
    }
}

impl From<JsonFault> for PipeFault {
    fn from(fault: JsonFault) -> PipeFault {
        match fault {
            JsonFault::OutOfMemory => PipeFault::OutOfMemory(AllocError),
            // No answer has a part of such a kind.
            JsonFault::Kind => PipeFault::NoOutput(io::Error::from(io::ErrorKind::InvalidData)),
        }
    }
}
