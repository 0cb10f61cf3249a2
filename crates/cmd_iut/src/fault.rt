//! What is wrong with a station file.

use crate::table_keys::TableName;
use cmd_quoting::OneLine;
use cmd_reporting::{CommandFault, Fault, OutputFormat, Status};
use its_words::frames::Explanation;
use std::alloc::AllocError;
use std::fmt;
use std::io::Write;

/// What the value of a key has to be.
#[derive(Clone, Copy)]
pub enum Wanted {
    /// An address of 16 hexadecimal digits that is not that of a group.
    Address,
    /// A link address of 12 hexadecimal digits that is not that of a group.
    LinkAddress,
    /// A whole number in this range.
    Whole(i64, i64),
    /// True or false.
    Truth,
    /// One of these keywords.
    Word(&'static str),
    /// The number 65535 or 65536.
    Modulus,
    /// The number of the command's capture. It has only one.
    Tap,
    /// A value, since the other key of the pair has one.
    Pair,
}

impl fmt::Display for Wanted {
    fn fmt<W: fmt::Write>(&self, f: &mut fmt::Formatter<W>) -> fmt::Result {
        match self {
            Wanted::Address => f.write_str("not 16 hexadecimal digits of a station's address"),
            Wanted::LinkAddress => f.write_str("not 12 hexadecimal digits of a station's address"),
            Wanted::Whole(least, most) => write!(f, "not a whole number in {least}..={most}"),
            Wanted::Truth => f.write_str("not true or false"),
            Wanted::Word(words) => write!(f, "not one of {words}"),
            Wanted::Modulus => f.write_str("not 65535 or 65536"),
            Wanted::Tap => f.write_str("not 0, as the command has one capture"),
            Wanted::Pair => f.write_str("missing: lat and lon go together"),
        }
    }
}

/// Why a station file isn't read. It prints as its line on standard error.
#[derive(Drop)]
pub enum StationFault<'a> {
    /// It isn't TOML, by a fault in this line.
    NotToml(usize),
    /// The key has an invalid value.
    Value(TableName, &'static str, Wanted),
    /// A key of a table is unknown.
    UnknownKey(TableName, String),
    /// This is not a table, or an unknown one.
    NotTable(String),
    /// A fault that can end any command.
    Stopped(Fault<'a>),
}

impl fmt::Display for StationFault<'_> {
    fn fmt<W: fmt::Write>(&self, f: &mut fmt::Formatter<W>) -> fmt::Result {
        match self {
            StationFault::NotToml(line) => write!(f, "geostation: iut: line {line}"),
            StationFault::Value(table, key, _) => write!(f, "geostation: iut: {table}: {key}"),
            StationFault::UnknownKey(table, name) => {
                write!(f, "geostation: iut: {table}: {}", OneLine(name.as_str()))
            }
            StationFault::NotTable(name) => {
                write!(f, "geostation: iut: {}", OneLine(name.as_str()))
            }
            StationFault::Stopped(fault) => write!(f, "{fault}"),
        }
    }
}

/// Why, as a sentence.
#[derive(Clone, Copy)]
enum Reason {
    NotToml,
    Value(Wanted),
    Unknown,
}

impl fmt::Display for Reason {
    fn fmt<W: fmt::Write>(&self, f: &mut fmt::Formatter<W>) -> fmt::Result {
        match self {
            Reason::NotToml => f.write_str("not TOML"),
            Reason::Value(wanted) => write!(f, "{wanted}"),
            Reason::Unknown => f.write_str("unknown, or not a table"),
        }
    }
}

impl CommandFault for StationFault<'_> {
    type Ending = Status;

    ghost use Rattle.cmd_iut.specs.Faults.{station_fault_status};

    ghost status_of = { station_fault_status };

    fn status(&self) -> Status {
        match self {
            StationFault::Stopped(fault) => fault.status(),
            StationFault::NotToml(_)
            | StationFault::Value(..)
            | StationFault::UnknownKey(..)
            | StationFault::NotTable(_) => Status::Refused,
        }
    }

    fn report<E: Write>(&self, format: OutputFormat, err: &mut E) {
        let reason = match self {
            StationFault::Stopped(fault) => return fault.report(format, err),
            StationFault::NotToml(_) => Reason::NotToml,
            StationFault::Value(_, _, wanted) => Reason::Value(*wanted),
            StationFault::UnknownKey(..) | StationFault::NotTable(_) => Reason::Unknown,
        };
        let _ = writeln!(
            err,
            "{self}{}",
            Explanation(format.explain.then_some(reason))
        );
    }
}

impl<'a> From<Fault<'a>> for StationFault<'a> {
    fn from(fault: Fault<'a>) -> StationFault<'a> {
        StationFault::Stopped(fault)
    }
}

impl From<AllocError> for StationFault<'_> {
    fn from(error: AllocError) -> Self {
        StationFault::Stopped(Fault::OutOfMemory(error))
    }
}
