//! Reads the records of a capture for the duties.

use cap_linklayers::{LinkFault, LinkLayer, frame_start};
use cap_pcap::RecordHeader;
use cap_records::{RecordReader, Selection, read_from};
use cap_tap::{LinkFrame, NANOS, SeenRecord};
use std::alloc::{AllocError, Global};

/// What is read from a record: the record, or that its time is out of range.
#[derive(Drop)]
pub(crate) enum ReadRecord {
    Seen(SeenRecord),
    /// Its time is 2^63 ns or more.
    TooLate,
}

/// Reads the records of a capture for the duties. All are selected.
#[derive(Drop)]
pub(crate) struct SeenReader {
    alloc: Global,
    /// How many records it has read.
    count: u64,
}

impl SeenReader {
    /// Returns a reader that has read no record.
    pub(crate) fn new(alloc: Global) -> SeenReader {
        SeenReader { alloc, count: 0 }
    }
}

impl RecordReader for SeenReader {
    ghost use Rattle.cmd_verdict.specs.Records.{ReadsSeen};

    type Record = ReadRecord;

    ghost Reads = { ReadsSeen };

    fn read(
        &mut self,
        _selection: &Selection,
        head: &RecordHeader,
        octets: &mut Vec<u8>,
    ) -> Result<Option<ReadRecord>, AllocError> {
        let number = self.count;
        self.count = number.saturating_add(1);
        let Some(stamp) = stamp_of(head) else {
            return Ok(Some(ReadRecord::TooLate));
        };
        let is_cut = head.captured < head.wire;
        let mut record = SeenRecord {
            number,
            stamp,
            interface: head.interface,
            octets: Vec::new(self.alloc),
            cut: is_cut,
            known_target: true,
            link: None,
            repeats: Vec::new(self.alloc),
        };
        match head.layer {
            Some(layer) => fill(&mut record, layer, octets)?,
            None => record.cut = true,
        }
        Ok(Some(ReadRecord::Seen(record)))
    }
}

/// Returns the time of a record in nanoseconds, if it is below 2^63.
fn stamp_of(head: &RecordHeader) -> Option<u64> {
    let stamp = head
        .moment
        .checked_mul(NANOS)?
        .checked_add(u64::from(head.fine.nanos))?;
    (stamp < 1 << 63).then_some(stamp)
}

/// Fills a record with its frame.
fn fill(record: &mut SeenRecord, layer: LinkLayer, octets: &mut Vec<u8>) -> Result<(), AllocError> {
    record.link = LinkFrame::of(layer, octets.as_slice());
    record.known_target = !matches!(layer, LinkLayer::Sll | LinkLayer::Sll2);
    match frame_start(layer, octets) {
        Ok(start) => {
            let found = octets.get(start..).unwrap_or(&[]);
            if record.cut {
                record.octets.extend_from_slice(found)
            } else {
                record
                    .octets
                    .extend_from_slice(read_from(layer, found).octets)
            }
        }
        // The octets end before addresses and type.
        Err(LinkFault::Short) => Ok(()),
        // A frame of another kind, whether it is cut or not.
        Err(LinkFault::Kind) => {
            record.cut = false;
            Ok(())
        }
    }
}
