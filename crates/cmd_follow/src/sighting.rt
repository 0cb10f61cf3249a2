//! Reads the records of a capture as packets that are followed.

ghost use Rattle.std.specs.Prelude.{IfOk};
ghost use Rattle.cap_records.specs.FoundFrames.{IsThere};

use crate::key::{FollowBy, PacketFields, PacketKey};
use cap_pcap::RecordHeader;
use cap_records::{
    FoundRecord, FrameReader, OutsideFrame, RecordReader, SeenFrame, Selection, kind_of_standard,
};
use its_gnvalue::Mac;
use its_linkframe::FrameView;
use its_outside::ExtendedFields;
use std::alloc::AllocError;

/// The nanoseconds of a millisecond.
pub(crate) const NANOS: u64 = 1_000_000;

/// A frame of a packet in a capture.
#[derive(Clone, Copy, Debug, PartialEq, Eq)]
pub(crate) struct Sighting {
    /// The number of the tap.
    pub(crate) tap: usize,
    /// How many records of its capture come before it.
    pub(crate) record: u64,
    /// Its time, in nanoseconds.
    pub(crate) stamp: u64,
    /// The link address of its sender.
    pub(crate) from: Mac,
    /// The link address that it is sent to.
    pub(crate) to: Mac,
    /// The remaining hop limit (RHL).
    pub(crate) hops: u8,
    /// The maximum hop limit (MHL).
    pub(crate) max_hops: u8,
}

impl Sighting {
    /// Whether a station forwarded the packet before this tap saw it.
    pub(crate) fn is_forwarded(&self) -> bool {
        self.hops < self.max_hops
    }
}

/// A packet in a record.
#[derive(Clone, Copy, Debug, PartialEq, Eq)]
pub(crate) struct SeenPacket {
    pub(crate) key: PacketKey,
    pub(crate) fields: PacketFields,
    pub(crate) sighting: Sighting,
}

/// What is read from a record that is selected.
#[derive(Clone, Copy, Debug, PartialEq, Eq)]
pub(crate) enum ReadRecord {
    /// A packet that is followed.
    Seen(SeenPacket),
    /// A packet without a payload, if packets are followed by that.
    NoPayload,
    /// It is rejected, or its time is 2^64 ns or more.
    Rejected,
}

/// Reads the records of a tap.
#[derive(Drop)]
pub(crate) struct SightingReader {
    frames: FrameReader,
    by: FollowBy,
    tap: usize,
    /// How many records it has read.
    count: u64,
}

impl SightingReader {
    /// Returns the reader of the tap with this number, which has read no record.
    pub(crate) fn new(by: FollowBy, tap: usize) -> SightingReader {
        SightingReader {
            frames: FrameReader::new(),
            by,
            tap,
            count: 0,
        }
    }
}

impl RecordReader for SightingReader {
    ghost use Rattle.cmd_follow.specs.Sightings.{ReadsSelected};

    type Record = ReadRecord;

    ghost Reads = { ReadsSelected };

    fn read(
        &mut self,
        selection: &Selection,
        head: &RecordHeader,
        octets: &mut Vec<u8>,
    ) -> Result<Option<ReadRecord>, AllocError> {
        let record = self.count;
        self.count = record.saturating_add(1);
        let Some(found) = self.frames.read(selection, head, octets)? else {
            return Ok(None);
        };
        let place = SightingPlace {
            by: self.by,
            tap: self.tap,
            record,
        };
        Ok(Some(place.read(head, found, octets.as_slice())))
    }
}

/// Where a record is, and by what its packet is followed.
#[derive(Clone, Copy)]
struct SightingPlace {
    by: FollowBy,
    tap: usize,
    record: u64,
}

impl SightingPlace {
    /// Reads the packet of a record, whose frame was found among these octets.
    fn read(self, head: &RecordHeader, found: FoundRecord, octets: &[u8]) -> ReadRecord
        requires { IfOk found.frame (IsThere octets.now) }
    {
        let (Some(stamp), Ok(frame)) = (stamp_of(head), found.frame) else {
            return ReadRecord::Rejected;
        };
        let seen = match frame.view(octets) {
            SeenFrame::Profile(frame) => self.packet(stamp, &frame),
            SeenFrame::Outside(frame) => self.outside(stamp, &frame),
        };
        match seen {
            Some(seen) => ReadRecord::Seen(seen),
            None => ReadRecord::NoPayload,
        }
    }

    /// Returns the packet of a frame of the profile. `None` if it is not followed.
    fn packet(self, stamp: u64, frame: &FrameView<'_>) -> Option<SeenPacket> {
        let packet = &frame.packet;
        let vector = packet.vector();
        let fields = PacketFields {
            kind: kind_of_standard(packet.kind()),
            address: vector.address().as_u64(),
            number: packet.number(),
            tst: vector.tst(),
        };
        let hops = packet.hops();
        Some(SeenPacket {
            key: PacketKey::of(self.by, &fields, packet.payload())?,
            fields,
            sighting: Sighting {
                tap: self.tap,
                record: self.record,
                stamp,
                from: frame.from,
                to: frame.to,
                hops: hops.left(),
                max_hops: hops.max(),
            },
        })
    }

    /// Returns the packet of a frame outside the profile. `None` if it is not followed.
    fn outside(self, stamp: u64, frame: &OutsideFrame<'_>) -> Option<SeenPacket> {
        let headers = &frame.fields;
        let fields = PacketFields {
            kind: headers.extended.kind(),
            address: headers.source.address,
            number: number_of(&headers.extended),
            tst: headers.source.timestamp,
        };
        Some(SeenPacket {
            key: PacketKey::of(self.by, &fields, frame.payload)?,
            fields,
            sighting: Sighting {
                tap: self.tap,
                record: self.record,
                stamp,
                from: frame.from,
                to: frame.to,
                hops: headers.basic.left,
                max_hops: headers.common.max_hops,
            },
        })
    }
}

/// Returns the sequence number of a packet outside the profile, if it has one.
fn number_of(fields: &ExtendedFields) -> Option<u16> {
    match fields {
        ExtendedFields::Beacon | ExtendedFields::Shb(_) => None,
        ExtendedFields::Guc(sequence, _)
        | ExtendedFields::Gac(sequence, _)
        | ExtendedFields::Gbc(sequence, _)
        | ExtendedFields::Tsb(sequence)
        | ExtendedFields::LsRequest(sequence, _)
        | ExtendedFields::LsReply(sequence, _) => Some(sequence.number),
    }
}

/// Returns the time of a record in nanoseconds, if it is below 2^64.
fn stamp_of(head: &RecordHeader) -> Option<u64> {
    head.moment
        .checked_mul(NANOS)?
        .checked_add(u64::from(head.fine.nanos))
}
