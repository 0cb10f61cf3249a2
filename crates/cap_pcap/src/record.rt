//! The header of a record, and the result of one call for the next record.

ghost use Rattle.std.specs.Prelude.{◌≡◌, IfErr, IfOk, None, Some};
ghost use Rattle.cap_pcap.specs.Records.{fault_of, record_code_of};

use cap_linklayers::LinkLayer;
use std::error::Error;
use std::fmt;

/// The time of a record below the millisecond, and in the ticks of its interface.
#[derive(Clone, Copy, Debug, PartialEq, Eq)]
pub struct FineTime {
    /// Nanoseconds since the last whole millisecond, 0 to 999999, rounded down.
    pub nanos: u32,
    /// Whether the file has a fraction of a nanosecond too.
    pub finer: bool,
    /// The time as the file has it: ticks of the record's interface. `None` for a Simple Packet
    /// Block whose interface has an `if_tsoffset`: its time is 0, for which that interface may have
    /// no ticks.
    pub ticks: Option<u64>,
}

/// What a file says about a record besides its octets.
#[derive(Clone, Copy, Debug, PartialEq, Eq)]
pub struct RecordHeader {
    /// The time in milliseconds since the epoch of its file, rounded down.
    pub moment: u64,
    /// The part of the time below a millisecond.
    pub fine: FineTime,
    /// The number of its interface in the file, from 0. A new section continues the count. 0 in a
    /// file without interfaces.
    pub interface: u32,
    /// How many of the record's octets the file has: at most 262144.
    pub captured: u32,
    /// How many octets the record had on the wire.
    pub wire: u32,
    /// Its link layer, if it is one that is read.
    pub layer: Option<LinkLayer>,
}

/// The result of one call for the next record.
#[derive(Clone, Copy, Debug, PartialEq, Eq)]
pub enum Step {
    /// A record; its octets are in the buffer.
    Record(RecordHeader),
    /// An interface begins: the header of a classic pcap file, or an interface block. Call again.
    Interface,
    /// A block without a record or an interface was skipped. Call again.
    Passed,
    /// The end of the file. Each further call returns it again.
    End,
}

/// Why the frame of a record is not checked.
#[derive(Clone, Copy, Debug, PartialEq, Eq)]
pub enum RecordFault {
    /// P3: its link layer is not read.
    LinkType,
    /// P4: fewer octets were captured than were on the wire.
    CutFrame,
}

impl RecordHeader {
    /// Returns the link layer of a record whose octets are all there.
    ///
    /// `LinkType` (P3) if the link layer is not read, before `CutFrame` (P4).
    pub fn whole_layer(&self) -> Result<LinkLayer, RecordFault>
        ensures layer { IfOk result (λ layer. self.now.layer ≡ Some layer) }
        ensures whole { IfOk result (λ _. fault_of self.now ≡ None) }
        ensures fault { IfErr result (λ fault. fault_of self.now ≡ Some fault) }
    {
        let Some(layer) = self.layer else {
            return Err(RecordFault::LinkType);
        };
        if self.captured < self.wire {
            return Err(RecordFault::CutFrame);
        }
        Ok(layer)
    }

    /// Returns the first fault of the record: P3 before P4.
    pub fn fault(&self) -> Option<RecordFault>
        ensures { result ≡ fault_of self.now }
    {
        self.whole_layer().err()
    }
}

impl RecordFault {
    /// What logs and the program's lines show: `P3` or `P4`.
    pub fn code(&self) -> &'static str
        ensures { result.now ≡ record_code_of self.now }
    {
        match self {
            RecordFault::LinkType => "P3",
            RecordFault::CutFrame => "P4",
        }
    }
}

impl fmt::Display for RecordFault {
    fn fmt<W: fmt::Write>(&self, f: &mut fmt::Formatter<W>) -> fmt::Result {
        let sentence = match self {
            RecordFault::LinkType => "a link layer that is not read",
            RecordFault::CutFrame => "fewer octets were captured than were on the wire",
        };
        write!(f, "{sentence}")
    }
}

impl Error for RecordFault {}
