//! Counts the records of each kind of packet, and the rejected records of each code.

ghost use Rattle.std.specs.Prelude.{◌<◌};

use cap_pcap::LinkFault;
use cap_records::messages::{MessageFault, SHORT_MESSAGE, UNREAD_MESSAGE};
use cap_records::{RecordFault, SIGNED_HINT};
use cmd_table::Table;
use its_faults::{FaultKind, FrameFault, SecuredFault};
use its_headers::{KINDS, Kind};
use its_outside::StandardKind;
use its_words::frames::Explanation;
use serde::{Case, Described, Serialize, Serializer};
use std::alloc::{AllocError, Global};
use std::fmt;

/// How many rows there are.
const ROWS: usize = 44;

/// The names of the rows of frames outside the profile, which follow the kinds of packet.
const OUTSIDE: [&str; 8] = [
    "outside beacon",
    "outside guc",
    "outside gac",
    "outside gbc",
    "outside shb",
    "outside tsb",
    "outside ls-request",
    "outside ls-reply",
];

/// The names of the further rows, in the order in which they are printed.
const CODES: [&str; 32] = [
    "P3", "P4", "L1", "L2", "L3", "L4", "L5 G1", "L5 G2", "L5 G3", "L5 G4", "L5 G5", "L5 G6",
    "L5 G7", "L5 G8", "L5 G9", "L5 G10", "L5 G11", "L5 G12", "L6 G1", "L6 G2", "L6 G3", "L6 G4",
    "L6 G5", "L6 G6", "L6 G7", "L6 G8", "L6 G9", "L6 G10", "L6 G11", "L6 G12", "E1", "E2",
];

/// The first row of each group.
const OUTSIDE_ROW: usize = 4;

const CODE_ROW: usize = 12;

/// The rows of the first codes of a packet, and of one in a plain part.
const PACKET_ROW: usize = 18;

const INNER_ROW: usize = 30;

/// Returns the name of a row.
fn name_of(row: usize) -> &'static str
    requires { row < 44 }
{
    if row < OUTSIDE_ROW {
        KINDS[row].word()
    } else if row < CODE_ROW {
        OUTSIDE[row - OUTSIDE_ROW]
    } else {
        CODES[row - CODE_ROW]
    }
}

/// How many records there are in each row.
#[derive(Clone, Copy)]
pub(crate) struct Kinds {
    counts: [u64; ROWS],
    /// The first fault of each row of rejected records.
    faults: [Option<RecordFault>; ROWS],
}

/// The name of a row, followed by the meaning of its code, if codes are explained.
#[derive(Clone, Copy)]
struct RowName {
    name: &'static str,
    reason: Option<Reason>,
}

impl fmt::Display for RowName {
    fn fmt<W: fmt::Write>(&self, f: &mut fmt::Formatter<W>) -> fmt::Result {
        write!(f, "{}{}", self.name, Explanation(self.reason))
    }
}

/// A fault. For a packet or a message it prints without the position.
#[derive(Clone, Copy)]
struct Reason(RecordFault);

impl fmt::Display for Reason {
    fn fmt<W: fmt::Write>(&self, f: &mut fmt::Formatter<W>) -> fmt::Result {
        match self.0 {
            RecordFault::Frame(FrameFault::Packet(fault))
            | RecordFault::Signed(SecuredFault::Packet(fault) | SecuredFault::Inner(fault)) => {
                write!(f, "{}", fault.kind)
            }
            RecordFault::Secured(FrameFault::Packet(fault)) => {
                write!(f, "{}{SIGNED_HINT}", fault.kind)
            }
            RecordFault::Message(MessageFault::Octet(_)) => write!(f, "{UNREAD_MESSAGE}"),
            RecordFault::Message(MessageFault::Short(_)) => write!(f, "{SHORT_MESSAGE}"),
            fault => write!(f, "{fault}"),
        }
    }
}

impl Kinds {
    /// Returns the counts before the first record.
    pub(crate) fn new() -> Kinds {
        Kinds {
            counts: [0; ROWS],
            faults: [None; ROWS],
        }
    }

    /// Counts a frame whose packet is of this kind.
    pub(crate) fn add_frame(&mut self, kind: Kind) {
        self.add(row_of_kind(kind));
    }

    /// Counts a frame outside the profile whose packet is of this kind.
    pub(crate) fn add_outside(&mut self, kind: StandardKind) {
        self.add(row_of_outside(kind));
    }

    /// Counts a record that is rejected.
    pub(crate) fn add_refused(&mut self, fault: RecordFault) {
        let row = row_of_fault(fault);
        self.faults[row] = self.faults[row].or(Some(fault));
        self.add(row);
    }

    /// Counts a record of a row. No file has 2^64 records.
    fn add(&mut self, row: usize)
        requires { row < 44 }
    {
        self.counts[row] = self.counts[row].saturating_add(1);
    }

    /// Returns the table of the rows that occur, with the meaning of each code if codes are
    /// explained.
    pub(crate) fn table(&self, alloc: Global, explain: bool) -> Result<Table, AllocError> {
        let mut table = Table::new(alloc, &["kind", "records"])?;
        for row in 0..ROWS {
            if self.counts[row] > 0 {
                let reason = if explain { self.faults[row] } else { None };
                table.add(&RowName {
                    name: name_of(row),
                    reason: reason.map(Reason),
                })?;
                table.add(&self.counts[row])?;
            }
        }
        Ok(table)
    }
}

impl Described for Kinds {}

impl Serialize for Kinds {
    fn serialize<S: Serializer>(&self, out: &mut S) -> Result<(), S::Error> {
        out.begin_map(None)?;
        for row in 0..ROWS {
            if self.counts[row] > 0 {
                out.key_cased(name_of(row), Case::AsIs)?;
                out.u64(self.counts[row])?;
            }
        }
        out.end_map()
    }
}

/// Returns the row of a kind of packet.
fn row_of_kind(kind: Kind) -> usize
    ensures { result < 44 }
{
    match kind {
        Kind::Beacon => 0,
        Kind::Shb => 1,
        Kind::Gbc => 2,
        Kind::Gac => 3,
    }
}

/// Returns the row of a kind of packet outside the profile.
fn row_of_outside(kind: StandardKind) -> usize
    ensures { result < 44 }
{
    match kind {
        StandardKind::Beacon => 4,
        StandardKind::Guc => 5,
        StandardKind::Gac => 6,
        StandardKind::Gbc => 7,
        StandardKind::Shb => 8,
        StandardKind::Tsb => 9,
        StandardKind::LsRequest => 10,
        StandardKind::LsReply => 11,
    }
}

/// Returns the row of a record's fault.
fn row_of_fault(fault: RecordFault) -> usize
    ensures { result < 44 }
{
    match fault {
        RecordFault::Record(cap_pcap::RecordFault::LinkType) => 12,
        RecordFault::Record(cap_pcap::RecordFault::CutFrame) => 13,
        RecordFault::Link(LinkFault::Short) => 14,
        RecordFault::Link(LinkFault::Kind) => 15,
        RecordFault::Frame(fault) | RecordFault::Secured(fault) => row_of_frame(fault),
        RecordFault::Signed(fault) => row_of_secured(fault),
        RecordFault::Message(MessageFault::Octet(_)) => 42,
        RecordFault::Message(MessageFault::Short(_)) => 43,
    }
}

/// Returns the row of a secured frame's fault.
fn row_of_secured(fault: SecuredFault) -> usize
    ensures { result < 44 }
{
    match fault {
        SecuredFault::Short => 14,
        SecuredFault::EtherType => 15,
        SecuredFault::TooLong => 16,
        SecuredFault::Trailing => 17,
        SecuredFault::Packet(fault) => PACKET_ROW + place_of_packet(fault.kind),
        SecuredFault::Inner(fault) => INNER_ROW + place_of_packet(fault.kind),
    }
}

/// Returns the row of a frame's fault.
fn row_of_frame(fault: FrameFault) -> usize
    ensures { result < 44 }
{
    match fault {
        FrameFault::Short => 14,
        FrameFault::EtherType => 15,
        FrameFault::TooLong => 16,
        FrameFault::Trailing => 17,
        FrameFault::Packet(fault) => PACKET_ROW + place_of_packet(fault.kind),
    }
}

/// Returns the number of a packet's fault among the codes of packets.
fn place_of_packet(kind: FaultKind) -> usize
    ensures { result < 12 }
{
    match kind {
        FaultKind::Truncated => 0,
        FaultKind::Version => 1,
        FaultKind::BasicNext => 2,
        FaultKind::Reserved => 3,
        FaultKind::HopZero => 4,
        FaultKind::CommonNext => 5,
        FaultKind::HeaderType => 6,
        FaultKind::SubType => 7,
        FaultKind::HopAboveMax => 8,
        FaultKind::PayloadLength => 9,
        FaultKind::Position => 10,
        FaultKind::Area => 11,
    }
}
