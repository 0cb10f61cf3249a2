//! A line of text, made in a buffer that is used again for the next line.

use cap_records::RecordPlace;
use cmd_times::{Clock, Instant, Moment};
use itoa::{Buffer, Integer};
use std::alloc::{AllocError, Global};
use std::fmt;
use std::fmt::Write;

/// The first size of the buffer. No line of a frame is longer: its payload has at most 1394 octets,
/// with two digits each.
const ROOM: usize = 4096;

/// A line that is being made. Its numbers are written by `itoa` and its octets by `hex`, in a third
/// of the time of `write!`.
#[derive(Drop)]
pub(crate) struct Text {
    octets: Vec<u8>,
}

impl Text {
    /// Returns an empty line, with a buffer for a whole one.
    pub(crate) fn new(alloc: Global) -> Result<Text, AllocError> {
        let octets = Vec::with_capacity(alloc, ROOM)?;
        Ok(Text { octets })
    }

    /// Begins the next line.
    pub(crate) fn clear(&mut self) {
        self.octets.clear();
    }

    /// Returns the line up to now.
    pub(crate) fn as_bytes(&self) -> &[u8] {
        self.octets.as_slice()
    }

    /// Adds a word.
    pub(crate) fn word(&mut self, word: &str) -> Result<(), AllocError> {
        self.octets.extend_from_slice(word.as_bytes())
    }

    /// Adds octets of a text.
    pub(crate) fn octets(&mut self, octets: &[u8]) -> Result<(), AllocError> {
        self.octets.extend_from_slice(octets)
    }

    /// Adds a number, after the word that names it.
    pub(crate) fn number<I: Integer>(&mut self, name: &str, number: I) -> Result<(), AllocError> {
        self.word(name)?;
        self.word(Buffer::new().format(number))
    }

    /// Adds octets as hexadecimal digits in lower case, after the word that names them.
    pub(crate) fn digits(&mut self, name: &str, octets: &[u8]) -> Result<(), AllocError> {
        self.word(name)?;
        let start = self.octets.len();
        self.octets
            .resize(start.saturating_add(2 * octets.len()), 0)?;
        hex::encode_to_slice(octets, &mut self.octets[start..]).map_err(|_| AllocError)
    }
}

impl Text {
    /// Adds a time.
    pub(crate) fn moment(&mut self, moment: Moment) -> Result<(), AllocError> {
        match moment {
            Moment::Raw(moment) => self.number("", moment),
            _ => write!(self, "{moment}").map_err(|_| AllocError),
        }
    }
}

/// Returns the time of the next record, as it is printed.
pub(crate) fn next_moment(clock: &mut Clock, place: &RecordPlace) -> Moment {
    let first = Instant::new(place.first, place.first_nanos);
    clock.at(first, Instant::new(place.moment, place.nanos))
}

impl fmt::Write for Text {
    fn write_str(&mut self, word: &str) -> fmt::Result {
        self.word(word).map_err(|_| fmt::Error)
    }
}
