//! Why a line can't be read, as a sentence for a person.

use crate::request::{LineFault, QueryKey};
use crate::response::SealFault;
use its_words::keys::{Key, Wrong, WrongOf};
use std::fmt;

/// The sentence for a line that can't be read. Positions have their unit.
#[derive(Clone, Copy, Debug, PartialEq, Eq)]
pub(crate) struct LineReason(LineFault);

impl LineReason {
    /// Returns the sentence. `None` for a line that is not JSON: the word says all.
    pub(crate) fn of(fault: LineFault) -> Option<LineReason> {
        match fault {
            LineFault::NotJson => None,
            fault => Some(LineReason(fault)),
        }
    }
}

impl fmt::Display for LineReason {
    fn fmt<W: fmt::Write>(&self, f: &mut fmt::Formatter<W>) -> fmt::Result {
        match self.0 {
            LineFault::NotJson => f.write_str("not one JSON object of at most 65536 octets"),
            LineFault::Id => f.write_str(
                "not a text of at most 128 octets, nor a whole number between -2^53 and 2^53",
            ),
            LineFault::Key(Key::Frame, wrong) => explain_query(f, QueryKey::Frame, wrong),
            LineFault::Key(key, wrong) => explain_key(f, key, wrong),
            LineFault::Word(meant) => write!(f, "did you mean '{meant}'?"),
            LineFault::Query(key, wrong) => explain_query(f, key, wrong),
        }
    }
}

/// The sentence for a message with which there is no secured frame.
#[derive(Clone, Copy, Debug, PartialEq, Eq)]
pub(crate) struct SealReason(pub(crate) SealFault);

impl fmt::Display for SealReason {
    fn fmt<W: fmt::Write>(&self, f: &mut fmt::Formatter<W>) -> fmt::Result {
        f.write_str(match self.0 {
            SealFault::MessageEmpty => "a message has at least one octet",
            SealFault::TooLong => "a secured frame of more than 2310 octets",
        })
    }
}

fn explain_key<W: fmt::Write>(f: &mut fmt::Formatter<W>, key: Key, wrong: Wrong) -> fmt::Result {
    write!(f, "{}", WrongOf(key, wrong))?;
    match key {
        Key::Lat | Key::Lon | Key::Alat | Key::Alon => {
            f.write_str(" (tenths of a microdegree: 481000000)")
        }
        _ => Ok(()),
    }
}

fn explain_query<W: fmt::Write>(
    f: &mut fmt::Formatter<W>,
    key: QueryKey,
    wrong: Wrong,
) -> fmt::Result {
    match (key, wrong) {
        (_, Wrong::Missing) => f.write_str("missing"),
        (_, Wrong::Range(number)) => write!(f, "{number} is not in 0..=65535"),
        (QueryKey::Jitter, _) => f.write_str("not a whole number"),
        (QueryKey::Frame | QueryKey::Plain | QueryKey::Message, Wrong::Kind) => {
            f.write_str("not a text")
        }
        (QueryKey::Frame | QueryKey::Plain | QueryKey::Message, _) => {
            f.write_str("not an even number of hexadecimal digits")
        }
        (QueryKey::Media, Wrong::Kind) => f.write_str("not a text"),
        (QueryKey::Media, _) => f.write_str("not 8 hexadecimal digits"),
        (QueryKey::After | QueryKey::Address, _) => {
            f.write_str("not a GN address: 16 hexadecimal digits, not a group address")
        }
    }
}
