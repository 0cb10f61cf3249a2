//! The times of records, as commands print them.

use crate::date::Date;
use serde::{Described, Serialize, Serializer};
use std::fmt;

/// How the times of records are printed.
#[derive(Clone, Copy, Debug, PartialEq, Eq)]
pub enum Time {
    /// In whole milliseconds.
    Raw,
    /// In milliseconds, with the decimals that the file has.
    Exact,
    /// As date and time in UTC.
    Utc,
    /// In seconds since the first record of the file.
    Relative,
    /// In seconds since the selected record before.
    Delta,
}

/// The time of a record.
#[derive(Clone, Copy)]
pub struct Instant {
    millis: u64,
    /// Nanoseconds below the millisecond.
    nanos: u32,
}

impl Instant {
    /// Returns the time with this many milliseconds, and nanoseconds below them.
    pub fn new(millis: u64, nanos: u32) -> Instant {
        Instant { millis, nanos }
    }

    /// Returns the time with this many nanoseconds.
    pub fn of_nanos(nanos: u64) -> Instant {
        Instant {
            millis: nanos / 1_000_000,
            nanos: (nanos % 1_000_000) as u32,
        }
    }

    /// Returns it in nanoseconds.
    fn in_nanos(self) -> u128 {
        u128::from(self.millis) * NANOS_OF_MILLI + u128::from(self.nanos)
    }
}

/// The nanoseconds of a millisecond.
const NANOS_OF_MILLI: u128 = 1_000_000;

/// The nanoseconds of a second.
const NANOS_OF_SECOND: u128 = 1_000_000_000;

/// A time as it is printed.
#[derive(Clone, Copy)]
pub enum Moment {
    /// Whole milliseconds.
    Raw(u64),
    /// Milliseconds and what is below them.
    Exact(Instant),
    /// The time since 1970, as date and time.
    Utc(Instant),
    /// Seconds from one time to another, which may be before it.
    Between(Instant, Instant),
}

impl Moment {
    /// Whether it is printed as a number that may have a fraction.
    pub fn is_fraction(&self) -> bool {
        matches!(self, Moment::Exact(_) | Moment::Between(_, _))
    }

    /// Whether it is a text in JSON: a date.
    pub fn is_text(&self) -> bool {
        matches!(self, Moment::Utc(_))
    }
}

impl fmt::Display for Moment {
    fn fmt<W: fmt::Write>(&self, f: &mut fmt::Formatter<W>) -> fmt::Result {
        match *self {
            Moment::Raw(moment) => write!(f, "{moment}"),
            Moment::Exact(time) => write_exact(time, f),
            Moment::Utc(time) => write_utc(time, f),
            Moment::Between(from, to) => write_between(from.in_nanos(), to.in_nanos(), f),
        }
    }
}

/// Milliseconds with no, three or six decimals: the fewest that lose nothing.
fn write_exact<W: fmt::Write>(time: Instant, f: &mut fmt::Formatter<W>) -> fmt::Result {
    let nanos = time.nanos % 1_000_000;
    write!(f, "{}", time.millis)?;
    if nanos == 0 {
        Ok(())
    } else if nanos % 1000 == 0 {
        write!(f, ".{:03}", nanos / 1000)
    } else {
        write!(f, ".{nanos:06}")
    }
}

/// Date and time, as in RFC 3339.
fn write_utc<W: fmt::Write>(time: Instant, f: &mut fmt::Formatter<W>) -> fmt::Result {
    let seconds = time.millis / 1000;
    let millis = (time.millis % 1000) as u32;
    let (minutes, second) = (seconds / 60, seconds % 60);
    let (hours, minute) = (minutes / 60, minutes % 60);
    let (date, hour) = (Date::of(hours / 24), hours % 24);
    write!(f, "{date}T{hour:02}:{minute:02}:{second:02}.")?;
    write_fraction(millis * 1_000_000 + time.nanos % 1_000_000, f)?;
    write!(f, "Z")
}

/// The seconds between two times in nanoseconds, with a sign if the second is before the first.
fn write_between<W: fmt::Write>(from: u128, to: u128, f: &mut fmt::Formatter<W>) -> fmt::Result {
    if to < from {
        write!(f, "-")?;
        return write_seconds(from - to, f);
    }
    write_seconds(to - from, f)
}

/// Nanoseconds, in seconds.
fn write_seconds<W: fmt::Write>(nanos: u128, f: &mut fmt::Formatter<W>) -> fmt::Result {
    write!(f, "{}.", nanos / NANOS_OF_SECOND)?;
    write_fraction((nanos % NANOS_OF_SECOND) as u32, f)
}

/// The nanoseconds below a second, in three, six or nine decimals: the fewest that lose nothing.
fn write_fraction<W: fmt::Write>(nanos: u32, f: &mut fmt::Formatter<W>) -> fmt::Result {
    if nanos % 1_000_000 == 0 {
        write!(f, "{:03}", nanos / 1_000_000)
    } else if nanos % 1000 == 0 {
        write!(f, "{:06}", nanos / 1000)
    } else {
        write!(f, "{nanos:09}")
    }
}

impl Described for Moment {}

impl Serialize for Moment {
    fn serialize<S: Serializer>(&self, out: &mut S) -> Result<(), S::Error> {
        match self {
            Moment::Raw(moment) => out.u64(*moment),
            _ => out.collect_str(self),
        }
    }
}

/// Returns the times of the records of a file as they are printed, one after the other.
#[derive(Clone, Copy)]
pub struct Clock {
    time: Time,
    /// The time of the record before.
    last: Option<Instant>,
}

impl Clock {
    /// Returns a clock before the first record.
    pub fn new(time: Time) -> Clock {
        Clock { time, last: None }
    }

    /// Returns how the time of the next record is printed. `first` is the time of the file's first
    /// record.
    pub fn at(&mut self, first: Instant, time: Instant) -> Moment {
        let last = self.last.unwrap_or(time);
        self.last = Some(time);
        match self.time {
            Time::Raw => Moment::Raw(time.millis),
            Time::Exact => Moment::Exact(time),
            Time::Utc => Moment::Utc(time),
            Time::Relative => Moment::Between(first, time),
            Time::Delta => Moment::Between(last, time),
        }
    }
}
