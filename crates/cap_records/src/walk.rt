//! The loop of `show`, `check` and `stats` over the records of a file.

ghost use Rattle.std.specs.Prelude.{◌≡◌, ◌≤◌, ◌<◌, ◌+◌, ◌-◌, ◌^◌, IfOk, IfErr, None, Some};
ghost use Rattle.cap_records.specs.FoundFrames.{IsThere};
ghost use Rattle.cap_records.specs.Walks.{walk_status, walked_after};
ghost use Rattle.cmd_reporting.specs.declared.fault.Fault.TheVariants.{CannotRead};

use crate::found::{Found, SeenFrame};
use crate::frames::{FrameReader, RecordPlace};
use crate::records::{Pulled, Records};
use crate::refusal::{FileFault, RecordFault};
use crate::selection::Selection;
use cap_pcap::{AnySource, Format, LONGEST_RECORD, OpenFault, RecordSource};
use cmd_reporting::{Fault, Status, is_standard};
use its_linkframe::{Counted, Source};
use std::alloc::Global;
use std::io::{Read, Write};

/// What a command does with the records of a capture.
pub trait RecordVisitor {
    /// Processes a selected record, which has this frame or was rejected. A frame is outside the
    /// profile only if all kinds are selected. Returns `NoOutput` if a write failed, and
    /// `OutOfMemory` if an allocation failed.
    fn visit<'f, W: Write>(
        &mut self,
        place: RecordPlace,
        frame: Result<SeenFrame<'_>, RecordFault>,
        out: &mut W,
    ) -> Result<(), Fault<'f>>;
}

/// The counts of a walk, and how it ended.
#[derive(Clone, Copy, Debug, PartialEq, Eq)]
pub struct Walked {
    /// How many records were selected.
    pub records: u64,
    /// How many of these were rejected.
    pub refused: u64,
    /// How many of them have a frame outside the profile.
    pub outside: u64,
    /// Why reading stopped before the end of the file, if the file's octets are at fault.
    pub fault: Option<FileFault>,
    /// How many records were read before the end or the fault.
    pub read: u64,
}

impl Walked {
    /// Returns the counts before the first record.
    fn begin() -> Walked
        ensures { (result.records ≡ 0) × (result.refused ≡ 0) × (result.outside ≡ 0)
            × (result.read ≡ 0) }
    {
        Walked {
            records: 0,
            refused: 0,
            outside: 0,
            fault: None,
            read: 0,
        }
    }

    /// Returns the counts after one more selected record, in which this was found.
    fn after(self, found: &Result<Found, RecordFault>) -> Walked
        requires { (self.records < 2 ^ 64 - 1) × (self.refused + self.outside ≤ self.records) }
        ensures counts { result ≡ walked_after self found.now }
        ensures bounds { result.refused + result.outside ≤ result.records }
    {
        let records = self.records + 1;
        match found {
            Ok(Found::Profile(_)) => Walked { records, ..self },
            Ok(Found::Outside(_)) => Walked {
                records,
                outside: self.outside + 1,
                ..self
            },
            Err(_) => Walked {
                records,
                refused: self.refused + 1,
                ..self
            },
        }
    }

    /// Returns the counts at the end of a file from which this many records were read.
    fn at_end(self, read: u64) -> Walked
        ensures { (result.records ≡ self.records) × (result.refused ≡ self.refused)
            × (result.outside ≡ self.outside) × (result.read ≡ read)
            × (result.fault ≡ self.fault) }
    {
        Walked { read, ..self }
    }

    /// Returns the counts with the fault that ended the walk.
    fn ended_by(self, fault: FileFault) -> Walked
        ensures counts { (result.records ≡ self.records) × (result.refused ≡ self.refused)
            × (result.outside ≡ self.outside) × (result.read ≡ self.read) }
        ensures fault { result.fault ≡ Some fault }
    {
        Walked {
            fault: Some(fault),
            ..self
        }
    }

    /// Returns the exit status of a command that only made this walk.
    pub fn status(self) -> Status
        ensures { result ≡ walk_status self }
    {
        if self.fault.is_some() || self.refused > 0 {
            Status::Refused
        } else {
            Status::Done
        }
    }
}

/// A file that is open.
#[derive(Drop)]
pub enum CaptureFile<S: Source> {
    /// A file whose records are read one after the other.
    Source(AnySource<S>),
    /// A file that gzip compressed. It has no records.
    Gzip,
}

impl<S: Source> CaptureFile<S> {
    /// Whether it is a capture of this project's own.
    pub fn is_capture(&self) -> bool {
        matches!(self, CaptureFile::Source(AnySource::Capture(_)))
    }
}

/// Opens the file with this name from the reader, in this format. Without a format, the first four
/// octets of the file say it. Returns `CannotRead` if a read failed.
pub fn open_records<'a, R: Read + Drop>(
    alloc: Global,
    file: &'a str,
    format: Option<Format>,
    reader: R,
) -> Result<CaptureFile<Counted<R>>, Fault<'a>>
    ensures fault { IfErr result (λ f. (f ≡ CannotRead file.entry) × (format ≡ None)) }
{
    match AnySource::open(alloc, Counted::new(reader), format, LONGEST_RECORD) {
        Ok(source) => Ok(CaptureFile::Source(source)),
        Err(OpenFault::Gzip) => Ok(CaptureFile::Gzip),
        Err(OpenFault::Io) => Err(Fault::CannotRead(file)),
    }
}

/// Visits each selected record of the file, in order. All records are read into one buffer, which
/// is large enough for all that is kept of one. If the file is standard input, the output is
/// flushed before the next record is read. No record of a gzip file is visited.
///
/// Returns `CannotRead` if a read failed, `OutOfMemory` if an allocation failed, and any fault of a
/// visit.
pub fn each_record<'a, S: Source + Drop, V: RecordVisitor, W: Write>(
    alloc: Global,
    file: &'a str,
    selection: &Selection,
    capture: CaptureFile<S>,
    visitor: &mut V,
    out: &mut W,
) -> Result<Walked, Fault<'a>>
    ensures { IfOk result (λ walked. walked.refused + walked.outside ≤ walked.records) }
{
    let CaptureFile::Source(source) = capture else {
        return Ok(Walked::begin().ended_by(FileFault::gzip()));
    };
    let octets = Vec::with_capacity(alloc, LONGEST_RECORD)?;
    let mut records = Records::new(source, FrameReader::new(), octets, *selection);
    let waits = is_standard(file);
    let mut walked = Walked::begin();
    loop {
        if waits {
            out.flush()?;
        }
        match records.next_chosen()? {
            Pulled::Chosen(head, found) => {
                walked = walked.after(&found.frame);
                let first = records.reader.first(&head);
                let place = RecordPlace::of(records.counts.last(), &head, first, &found);
                visit(visitor, place, found.frame, records.octets.as_slice(), out)?;
            }
            Pulled::Interface => {}
            Pulled::End(fault) => {
                let read = records.counts.read;
                let walked = walked.at_end(read);
                let Some(fault) = fault else {
                    return Ok(walked);
                };
                let fault = FileFault::of(fault, file, read, selection.format)?;
                return Ok(walked.ended_by(fault));
            }
        }
    }
}

/// Visits a record whose frame is among these octets, or which was rejected.
fn visit<'f, V: RecordVisitor, W: Write>(
    visitor: &mut V,
    place: RecordPlace,
    found: Result<Found, RecordFault>,
    octets: &[u8],
    out: &mut W,
) -> Result<(), Fault<'f>>
    requires { IfOk found (IsThere octets.now) }
{
    let frame = match found {
        Ok(found) => Ok(found.view(octets)),
        Err(fault) => Err(fault),
    };
    visitor.visit(place, frame, out)
}
