//! A line of a file of moves that ends a run.

use crate::in_file::InFile;
use cmd_quoting::Quoted;
use cmd_reporting::{CommandFault, OutputFormat, Status};
use its_words::frames::Explanation;
use sim_moves::{Word, WordReason};
use std::fmt;
use std::io::Write;
use thiserror::Error;

/// A line of a file of moves that is refused. It prints as its line on standard error.
#[derive(Clone, Copy, Debug, PartialEq, Eq, Error)]
#[error("geostation: moves: line {line}: {word}")]
pub struct BadRow<'a> {
    /// The name of the file.
    pub file: &'a str,
    /// Its number, from 1.
    pub line: u64,
    /// What is wrong with it.
    pub word: Word,
    /// The field that is wrong, if one is and it is UTF-8.
    pub value: Option<&'a str>,
}

/// What is wrong with a line, as a sentence. It prints as `"48.1" is not a latitude: ..`.
#[derive(Clone, Copy)]
struct RowReason<'a>(Word, Option<&'a str>);

impl fmt::Display for RowReason<'_> {
    fn fmt<W: fmt::Write>(&self, f: &mut fmt::Formatter<W>) -> fmt::Result {
        if let Some(value) = self.1 {
            write!(f, "{} is ", Quoted(value))?;
        }
        WordReason(self.0).fmt(f)
    }
}

impl CommandFault for BadRow<'_> {
    type Ending = Status;

    ghost use Rattle.cmd_reporting.specs.declared.status.Status.TheVariants.{Refused};

    ghost status_of = { λ _. Refused };

    fn status(&self) -> Status {
        Status::Refused
    }

    /// Adds the name of its file and a sentence.
    fn report<E: Write>(&self, format: OutputFormat, err: &mut E) {
        let reason = format
            .explain
            .then_some(InFile(self.file, RowReason(self.word, self.value)));
        let _ = writeln!(err, "{self}{}", Explanation(reason));
    }
}
