//! The answer to a line.

use crate::frame_octets::FrameOctets;
use crate::request::{Id, LineFault};
use its_contention::ContentionCounts;
use its_gnvalue::{GnAddress, LongPv};
use its_linkframe::FrameFault;
use its_station::{Counts, Refused, StationAnswer};
use std::fmt;

/// The answer to a line.
#[derive(Debug, Drop)]
pub enum Response {
    /// The line asked for a call, which was made.
    Reply {
        /// The `id` of the line.
        id: Option<Id>,
        /// The time of the call, in milliseconds.
        at: u64,
        /// What is said of a packet that was accepted.
        packet: Option<AcceptedPacket>,
        /// The time in milliseconds at which the frame is due in which the packet goes on, if it waits.
        due: Option<u64>,
        /// Whether a duplicate cancelled a frame that waited.
        cancelled: bool,
        /// The answer to the call.
        reply: StationAnswer,
    },
    /// The line asked for a frame that is due, and one was: it is to be sent.
    Released {
        /// The `id` of the line.
        id: Option<Id>,
        /// The time of the release, in milliseconds.
        at: u64,
        /// The octets of the frame.
        frame: Vec<u8>,
    },
    /// The line asked for a frame to be received, whose packet was delivered before and is
    /// remembered. It is neither delivered nor forwarded.
    Repeated {
        /// The `id` of the line.
        id: Option<Id>,
        /// The time of the call, in milliseconds.
        at: u64,
    },
    /// The line asked for an own packet, and own packets are over their rate. Only the count of
    /// these changed.
    OverRate {
        /// The `id` of the line.
        id: Option<Id>,
        /// The time of the line, in milliseconds.
        at: u64,
    },
    /// The line needs a right that it doesn't have. Nothing changed.
    NotAllowed {
        /// The `id` of the line.
        id: Option<Id>,
        /// The time of the line, in milliseconds.
        at: u64,
    },
    /// The line was a query.
    Known {
        /// The `id` of the line.
        id: Option<Id>,
        /// The time of the line, in milliseconds, if it has one.
        at: Option<u64>,
        /// The answer to the query.
        known: Known,
    },
    /// The line can't be read. Nothing changed.
    Fault {
        /// The `id` of the line.
        id: Option<Id>,
        /// The number of the line, from 1.
        line: u64,
        /// Why it can't be read.
        fault: LineFault,
    },
}

/// What the answer to a frame says of its packet, if that was accepted.
#[derive(Clone, Copy, Debug, PartialEq, Eq)]
pub struct AcceptedPacket {
    /// The address of the packet's source.
    pub source: GnAddress,
    /// The media-dependent data of a single-hop broadcast. Zeros for the other kinds.
    pub media: [u8; 4],
}

/// The answer to a query.
#[derive(Debug, Drop)]
pub enum Known {
    /// The time of the next beacon, in milliseconds.
    NextBeacon(u64),
    /// The first neighbours above an address, and whether there are more.
    Neighbours {
        /// Their position vectors, by ascending address: 32 at most.
        vectors: Vec<LongPv>,
        /// Whether there are more above them.
        more: bool,
    },
    /// The newest position vector of a live source.
    Found(LongPv),
    /// No live source has that address.
    Unknown,
    /// These octets are a frame.
    Frame(FrameOctets),
    /// The octets are not a frame.
    NoFrame(FrameFault),
    /// The secured frame that was asked for.
    Sealed(Vec<u8>),
    /// No secured frame can have this message.
    NotSealed(SealFault),
    /// What the station received, sent and refused so far, and how often each thing happened to
    /// frames that wait, if the station contends.
    Counts(Counts, Option<ContentionCounts>),
    /// The least time at which a frame that waits is due, in milliseconds. `None` if none waits.
    NextDue(Option<u64>),
    /// The query is refused.
    Refused(Refused),
}

/// Why there is no secured frame with a message. It prints as its code.
#[derive(Clone, Copy, Debug, PartialEq, Eq)]
pub enum SealFault {
    /// The message is empty.
    MessageEmpty,
    /// The frame would have more than 2310 octets.
    TooLong,
}

impl fmt::Display for SealFault {
    fn fmt<W: fmt::Write>(&self, f: &mut fmt::Formatter<W>) -> fmt::Result {
        f.write_str(match self {
            SealFault::MessageEmpty => "message empty",
            SealFault::TooLong => "too long",
        })
    }
}
