//! Captures that are read in parallel, in the order of times.

use crate::key::FollowBy;
use crate::sighting::{ReadRecord, SeenPacket, SightingReader};
use cap_pcap::{AnySource, Format, LONGEST_RECORD, RecordSource};
use cap_records::{CaptureFile, FileFault, Pulled, Records, Selection, open_records};
use cmd_reporting::Fault;
use its_linkframe::Counted;
use std::alloc::{AllocError, Global};
use std::io::Read;

/// How many records of a tap were selected.
#[derive(Clone, Copy, Debug, Default, PartialEq, Eq)]
pub(crate) struct TapCounts {
    pub(crate) records: u64,
    /// How many of them are rejected.
    pub(crate) rejected: u64,
}

/// Why reading a capture stopped, and after how many records.
#[derive(Clone, Copy, Debug, PartialEq, Eq)]
pub(crate) struct EndedCapture {
    pub(crate) records: u64,
    pub(crate) fault: FileFault,
}

/// One of several captures, and what was last read from it.
#[derive(Drop)]
pub(crate) struct Tap<'a, S: RecordSource + Drop> {
    /// The name of its file.
    file: &'a str,
    /// The given format of its file.
    format: Option<Format>,
    /// Its records. `None` if no record follows.
    records: Option<Records<S, SightingReader>>,
    /// The next packet, if it was read.
    next: Option<SeenPacket>,
    pub(crate) counts: TapCounts,
    /// Why reading stopped, if its octets are at fault.
    pub(crate) ended: Option<EndedCapture>,
}

impl<'a, S: RecordSource + Drop> Tap<'a, S> {
    /// Returns the tap with this number and this capture file. `AllocError` if an allocation
    /// failed.
    fn new(
        alloc: Global,
        number: usize,
        file: &'a str,
        source: S,
        selection: &Selection,
        by: FollowBy,
    ) -> Result<Tap<'a, S>, AllocError> {
        let octets = Vec::with_capacity(alloc, LONGEST_RECORD)?;
        let reader = SightingReader::new(by, number);
        Ok(Tap {
            file,
            format: selection.format,
            records: Some(Records::new(source, reader, octets, *selection)),
            next: None,
            counts: TapCounts::default(),
            ended: None,
        })
    }

    /// Returns the tap of a file that gzip compressed. It has no records.
    fn gzip(file: &'a str) -> Tap<'a, S> {
        Tap {
            file,
            format: None,
            records: None,
            next: None,
            counts: TapCounts::default(),
            ended: Some(EndedCapture {
                records: 0,
                fault: FileFault::gzip(),
            }),
        }
    }

    /// Reads up to the next packet, if none is read. `CannotRead` if a read failed, `OutOfMemory`
    /// if an allocation did.
    fn fill(&mut self) -> Result<(), Fault<'a>> {
        // The range is there so that the walk ends by its form. No file reaches its end.
        for _ in 0..u64::MAX {
            if self.next.is_some() {
                return Ok(());
            }
            let Some(records) = &mut self.records else {
                return Ok(());
            };
            match records.next_chosen()? {
                Pulled::Chosen(_, read) => self.take(read),
                Pulled::Interface => {}
                Pulled::End(None) => self.records = None,
                Pulled::End(Some(fault)) => {
                    let records = records.counts.read;
                    let fault = FileFault::of(fault, self.file, records, self.format)?;
                    self.ended = Some(EndedCapture { records, fault });
                    self.records = None;
                }
            }
        }
        Ok(())
    }

    /// Takes what was read from a record.
    fn take(&mut self, read: ReadRecord) {
        self.counts.records = self.counts.records.saturating_add(1);
        match read {
            ReadRecord::Seen(seen) => self.next = Some(seen),
            ReadRecord::NoPayload => {}
            ReadRecord::Rejected => self.counts.rejected = self.counts.rejected.saturating_add(1),
        }
    }
}

/// Opens the tap with this number and this capture file. `CannotRead` if a read failed,
/// `OutOfMemory` if an allocation did.
pub(crate) fn open_tap<'a, R: Read + Drop>(
    alloc: Global,
    number: usize,
    file: &'a str,
    selection: &Selection,
    by: FollowBy,
    reader: R,
) -> Result<Tap<'a, AnySource<Counted<R>>>, Fault<'a>> {
    match open_records(alloc, file, selection.format, reader)? {
        CaptureFile::Source(source) => Ok(Tap::new(alloc, number, file, source, selection, by)?),
        CaptureFile::Gzip => Ok(Tap::gzip(file)),
    }
}

/// Returns the next packet of several captures: the one with the least time among the next packets
/// of the captures. If times are equal, it is that of the first capture. `None` if no capture has
/// another packet.
///
/// `CannotRead` if a read failed, `OutOfMemory` if an allocation did.
pub(crate) fn next_packet<'a, S: RecordSource + Drop>(
    taps: &mut Vec<Tap<'a, S>>,
) -> Result<Option<SeenPacket>, Fault<'a>> {
    let mut first: Option<(u64, usize)> = None;
    for (number, tap) in taps.iter_mut().enumerate() {
        tap.fill()?;
        if let Some(next) = &tap.next {
            let stamp = next.sighting.stamp;
            match first {
                Some((least, _)) if least <= stamp => {}
                _ => first = Some((stamp, number)),
            }
        }
    }
    let Some((_, number)) = first else {
        return Ok(None);
    };
    match taps.get_mut(number) {
        Some(tap) => Ok(tap.next.take()),
        None => Ok(None),
    }
}
