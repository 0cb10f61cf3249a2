//! Why no more moves can be read.

use crate::columns::{Column, Notation};
use cmd_text::lines::GzipFile;
use std::alloc::{AllocError, AllocFailed};
use std::error::Error;
use std::{fmt, io};

/// Why a first line doesn't name the columns.
#[derive(Clone, Copy, Debug, PartialEq, Eq)]
pub enum HeaderFault {
    /// It begins a gzip file.
    Gzip,
    /// It names no column that has a meaning.
    NoColumn,
    /// It has names of both notations.
    BothNotations,
    /// It names this column of this notation twice.
    Twice(Notation, Column),
    /// It lacks this column of this notation.
    Missing(Notation, Column),
}

impl fmt::Display for HeaderFault {
    fn fmt<W: fmt::Write>(&self, f: &mut fmt::Formatter<W>) -> fmt::Result {
        match self {
            HeaderFault::Gzip => GzipFile("sim --moves -").fmt(f),
            HeaderFault::NoColumn => f.write_str(
                "it names no columns, which are at, id, lat and lon, \
                or SUMO's timestep_time, vehicle_id, vehicle_y and vehicle_x",
            ),
            HeaderFault::BothNotations => {
                f.write_str("it has names of SUMO's columns and of the own ones")
            }
            HeaderFault::Twice(notation, column) => {
                write!(f, "column {} stands twice", column.word(*notation))
            }
            HeaderFault::Missing(notation, column) => {
                write!(f, "column {} is missing", column.word(*notation))
            }
        }
    }
}

/// The first fault of a line, in the order of the checks. It prints as a keyword.
#[derive(Clone, Copy, Debug, PartialEq, Eq)]
pub enum Word {
    /// It has more octets than 4096 before its line feed.
    Length,
    /// It is the first line, and a column occurs twice or is missing, or there are names of both
    /// notations.
    Header(HeaderFault),
    /// It has more fields than the first line, or fewer.
    Fields,
    /// Its time is not a number in its range, or is below that of the row before.
    At,
    /// Its id is not a text of 1 to 64 octets without control characters.
    Id,
    /// Its latitude is not a number in its range.
    Lat,
    /// Its longitude is not a number in its range.
    Lon,
    /// Its speed is not a number in its range.
    Speed,
    /// Its heading is not a number in its range.
    Heading,
    /// Its id is new, and there can't be one more station. `Rows` doesn't return this: it is for
    /// callers that make stations from ids.
    TooManyStations,
}

impl fmt::Display for Word {
    fn fmt<W: fmt::Write>(&self, f: &mut fmt::Formatter<W>) -> fmt::Result {
        f.write_str(match self {
            Word::Length => "length",
            Word::Header(_) => "header",
            Word::Fields => "fields",
            Word::At => "at",
            Word::Id => "id",
            Word::Lat => "lat",
            Word::Lon => "lon",
            Word::Speed => "speed",
            Word::Heading => "heading",
            Word::TooManyStations => "too many stations",
        })
    }
}

/// What is wrong with a line, as a sentence for a person.
#[derive(Clone, Copy, Debug, PartialEq, Eq)]
pub struct WordReason(pub Word);

impl fmt::Display for WordReason {
    fn fmt<W: fmt::Write>(&self, f: &mut fmt::Formatter<W>) -> fmt::Result {
        f.write_str(match self.0 {
            Word::Length => "more than 4096 octets",
            Word::Header(fault) => return write!(f, "{fault}"),
            Word::Fields => "more or fewer fields than the first line has",
            Word::At => "not a time from the row before on: whole milliseconds, or SUMO's seconds, \
                up to 2^62 ms",
            Word::Id => "not 1 to 64 octets of UTF-8 without control characters",
            Word::Lat => "not a latitude: whole tenths of a microdegree, or SUMO's degrees, \
                up to 90 degrees",
            Word::Lon => "not a longitude: whole tenths of a microdegree, or SUMO's degrees, \
                up to 180 degrees",
            Word::Speed => "not a speed: whole 0.01 m/s, or SUMO's m/s, from -163.84 to 163.83 m/s",
            Word::Heading =>
                "not a heading: whole tenths of a degree, or SUMO's degrees, from 0 to 360 degrees",
            Word::TooManyStations => "no place or no address is left for the station of a new id",
        })
    }
}

/// Why a reader failed: the number of the system's error, if it has one. The error itself is large,
/// and each row returns a result that may hold one.
#[derive(Clone, Copy, Debug, PartialEq, Eq)]
pub struct MovesReadFault {
    number: Option<i32>,
}

impl MovesReadFault {
    /// Returns the fault of an error.
    pub(crate) fn of(error: &io::Error) -> MovesReadFault {
        MovesReadFault {
            number: error.raw_os_error(),
        }
    }

    /// Returns the error: the system's, or one of an unknown kind.
    pub fn error(self) -> io::Error {
        match self.number {
            Some(number) => io::Error::from_raw_os_error(number),
            None => io::Error::from(io::ErrorKind::Other),
        }
    }
}

/// Why no more moves can be read. After such a fault each call returns the same.
#[derive(Clone, Copy, Debug)]
pub enum MovesFault {
    /// The line with this number, from 1, has this fault. The first line of an empty file has one
    /// too.
    Line(u64, Word),
    /// The reader failed, by this error.
    Read(MovesReadFault),
    /// An allocation failed.
    NoMemory,
}

impl fmt::Display for MovesFault {
    fn fmt<W: fmt::Write>(&self, f: &mut fmt::Formatter<W>) -> fmt::Result {
        match self {
            MovesFault::Line(number, word) => write!(f, "line {number}: {word}"),
            MovesFault::Read(fault) => write!(f, "{}", fault.error()),
            MovesFault::NoMemory => write!(f, "out of memory"),
        }
    }
}

impl Error for MovesFault {}

/// Why a line has no row.
#[derive(Clone, Copy, Debug, PartialEq, Eq)]
pub(crate) enum MovesLineFault {
    /// It has this fault.
    Refused(Word),
    /// An allocation failed.
    NoMemory,
}

impl MovesLineFault {
    /// Returns the fault of the line with this number.
    pub(crate) fn at_line(self, number: u64) -> MovesFault {
        match self {
            MovesLineFault::Refused(word) => MovesFault::Line(number, word),
            MovesLineFault::NoMemory => MovesFault::NoMemory,
        }
    }
}

impl From<AllocError> for MovesLineFault {
    fn from(_: AllocError) -> MovesLineFault {
        MovesLineFault::NoMemory
    }
}

impl<T: Drop> From<AllocFailed<T>> for MovesLineFault {
    fn from(_: AllocFailed<T>) -> MovesLineFault {
        MovesLineFault::NoMemory
    }
}
