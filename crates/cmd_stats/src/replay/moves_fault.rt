//! Why a file of moves is not read.

use cmd_quoting::OneLine;
use cmd_reporting::{CommandFault, Fault, OutputFormat, Status};
use its_words::frames::Explanation;
use sim_moves::{MovesFault, Word, WordReason};
use std::alloc::{AllocError, AllocFailed};
use std::fmt;
use std::io::Write;
use thiserror::Error;

/// What is wrong with a row.
#[derive(Clone, Copy, Debug, PartialEq, Eq)]
pub(crate) enum MoveWord {
    /// It is not a row of a file of moves.
    Row(Word),
    /// Its id is another one than that of the row before.
    OtherId,
}

impl fmt::Display for MoveWord {
    fn fmt<W: fmt::Write>(&self, f: &mut fmt::Formatter<W>) -> fmt::Result {
        match self {
            MoveWord::Row(word) => write!(f, "{word}"),
            MoveWord::OtherId => f.write_str("other id"),
        }
    }
}

/// What is wrong with a row of a file of this name, as a sentence.
#[derive(Clone, Copy)]
struct MoveReason<'a>(&'a str, MoveWord);

impl fmt::Display for MoveReason<'_> {
    fn fmt<W: fmt::Write>(&self, f: &mut fmt::Formatter<W>) -> fmt::Result {
        write!(f, "{}: ", OneLine(self.0))?;
        match self.1 {
            MoveWord::Row(word) => write!(f, "{}", WordReason(word)),
            MoveWord::OtherId => f.write_str(
                "another id than in the row before, but a replay has one station",
            ),
        }
    }
}

/// Why a file of moves is not read. It prints as its line on standard error.
#[derive(Debug, Drop, Error)]
pub(crate) enum MoveRowsFault<'a> {
    /// A line, counted from 1, is refused.
    #[error("geostation: moves: line {line}: {word}")]
    Row {
        /// The name of the file.
        file: &'a str,
        /// The number of the line.
        line: u64,
        /// What is wrong with it.
        word: MoveWord,
    },
    /// A fault that can end any command.
    #[error("{0}")]
    Stopped(Fault<'a>),
}

impl<'a> MoveRowsFault<'a> {
    /// Returns the fault of a file with this name.
    pub(crate) fn of(fault: MovesFault, file: &'a str) -> MoveRowsFault<'a> {
        match fault {
            MovesFault::Line(line, word) => MoveRowsFault::Row {
                file,
                line,
                word: MoveWord::Row(word),
            },
            MovesFault::Read(fault) => {
                MoveRowsFault::Stopped(Fault::of_read(&fault.error(), file))
            }
            MovesFault::NoMemory => MoveRowsFault::Stopped(Fault::OutOfMemory(AllocError)),
        }
    }
}

impl CommandFault for MoveRowsFault<'_> {
    type Ending = Status;

    ghost use Rattle.cmd_stats.specs.Listening.{rows_fault_status};

    ghost status_of = { rows_fault_status };

    /// `Refused` for a bad row, `Failed` otherwise.
    fn status(&self) -> Status {
        match self {
            MoveRowsFault::Row { .. } => Status::Refused,
            MoveRowsFault::Stopped(fault) => fault.status(),
        }
    }

    /// Adds the sentence of a bad row.
    fn report<E: Write>(&self, format: OutputFormat, err: &mut E) {
        match self {
            MoveRowsFault::Row { file, word, .. } => {
                let reason = format.explain.then_some(MoveReason(file, *word));
                let _ = writeln!(err, "{self}{}", Explanation(reason));
            }
            MoveRowsFault::Stopped(fault) => fault.report(format, err),
        }
    }
}

impl<'a> From<Fault<'a>> for MoveRowsFault<'a> {
    fn from(fault: Fault<'a>) -> MoveRowsFault<'a> {
        MoveRowsFault::Stopped(fault)
    }
}

impl<T: Drop> From<AllocFailed<T>> for MoveRowsFault<'_> {
    fn from(_: AllocFailed<T>) -> Self {
        MoveRowsFault::Stopped(Fault::OutOfMemory(AllocError))
    }
}
