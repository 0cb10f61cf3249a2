//! Finds the format of a file with records.

ghost use Rattle.std.specs.Prelude.{◌≡◌, ◌↔◌, IsTrue};
ghost use Rattle.cap_pcap.specs.Formats.{IsFormat, IsGzip};

use crate::blocks::SECTION;
use crate::pcap::magic_in;
use byteorder::{BigEndian, ByteOrder};

/// The first octets of a gzip file (RFC 1952): its mark, and deflate, the only method.
const GZIP: u32 = 0x001f_8b08;

/// The format of a file with records.
#[derive(Clone, Copy, Debug, PartialEq, Eq)]
pub enum Format {
    /// This project's own.
    Capture,
    /// Classic pcap.
    Pcap,
    /// pcapng.
    Pcapng,
}

/// Whether gzip compressed a file whose first four octets are these.
pub(crate) fn is_gzip(first: &[u8]) -> bool
    ensures { IsTrue result ↔ IsGzip first.now }
{
    first.len() >= 4 && BigEndian::read_u32(first) / 256 == GZIP
}

/// Returns the format of a file that begins with these octets, by the first four. A file that has
/// fewer, or that begins with no magic of another format, is a capture.
pub fn format_of(first: &[u8]) -> Format
    ensures { IsFormat first.now result }
{
    if first.len() < 4 {
        return Format::Capture;
    }
    let number = BigEndian::read_u32(first);
    if number == SECTION {
        return Format::Pcapng;
    }
    match magic_in(number) {
        Some(_) => Format::Pcap,
        None => Format::Capture,
    }
}
