//! Why a record cannot be written.

use std::error::Error;
use std::fmt;

/// Why a header or a record is not written.
#[derive(Clone, Copy, Debug, PartialEq, Eq)]
pub enum PutFault {
    /// The frame has more octets than 262144, or in a capture 0 or more than 1468. Nothing is
    /// written.
    Length,
    /// The second of the moment is 2^32 or more (classic pcap), or a packet without a time stamp is
    /// not one of the first interface (pcapng). Nothing is written.
    Moment,
    /// There is no such interface, or no room for a further one (pcapng). Nothing is written.
    Interface,
    /// The name of an interface has more octets than 65535 (pcapng). Nothing is written.
    Name,
    /// A call of the device failed; a prefix is written.
    Io,
    /// An earlier call of the device failed. Nothing is written.
    Failed,
}

impl fmt::Display for PutFault {
    fn fmt<W: fmt::Write>(&self, f: &mut fmt::Formatter<W>) -> fmt::Result {
        let sentence = match self {
            PutFault::Length => "a frame of a length that the format has no place for",
            PutFault::Moment => {
                "a moment whose second is 2^32 or more, or that its interface does not count"
            }
            PutFault::Interface => "no such interface, or no room for one",
            PutFault::Name => "a name of more than 65535 octets",
            PutFault::Io => "a call of the device failed",
            PutFault::Failed => "an earlier call failed",
        };
        write!(f, "{sentence}")
    }
}

impl Error for PutFault {}
