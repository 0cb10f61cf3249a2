//! Reads records for a command that looks at each frame.

ghost use Rattle.std.specs.Prelude.{◌≡◌, IfOk, IfSome, None, Err, Ok};
ghost use Rattle.cap_records.specs.FoundFrames.{IsThere, ReadsFrame};
ghost use Rattle.cap_records.specs.declared.found.Found.TheVariants as founds;

use crate::cut::{CUT, CutFrame, complete_frame, read_front};
use crate::found::{Found, FoundFrame};
use crate::records::RecordReader;
use crate::refusal::RecordFault;
use crate::selection::Selection;
use crate::signed::SecuredFacts;
use cap_linklayers::LinkFacts;
use cap_pcap::RecordHeader;
use its_linkframe::LONGEST_FRAME;
use std::alloc::AllocError;

/// The position of a record in its file, and what is known about it besides its frame.
#[derive(Clone, Copy, Debug, PartialEq, Eq)]
pub struct RecordPlace {
    /// How many records come before it.
    pub number: u64,
    /// Its time, in milliseconds.
    pub moment: u64,
    /// The nanoseconds of its time below a millisecond.
    pub nanos: u32,
    /// The time of the file's first record, in milliseconds.
    pub first: u64,
    /// The nanoseconds of that time below a millisecond.
    pub first_nanos: u32,
    /// The number of its interface, from 0.
    pub interface: u32,
    /// How many of its octets the file has.
    pub length: u32,
    /// What the headers of its link layer say.
    pub link: LinkFacts,
    /// How many octets of its frame there are, if the record was cut and is read up to the cut.
    pub known: Option<usize>,
    /// What is known about its secured frame, if that is read by its plain part.
    pub secured: Option<SecuredFacts>,
}

impl RecordPlace {
    /// Returns what is known about a record that was found, which this number of records precede.
    /// `first` is the time of the file's first record: milliseconds, and the nanoseconds below
    /// them.
    pub(crate) fn of(
        number: u64,
        head: &RecordHeader,
        first: (u64, u32),
        found: &FoundRecord,
    ) -> RecordPlace {
        RecordPlace {
            number,
            moment: head.moment,
            nanos: head.fine.nanos,
            first: first.0,
            first_nanos: first.1,
            interface: head.interface,
            length: head.captured,
            link: found.link,
            known: found.known,
            secured: found.secured(),
        }
    }
}

/// Returns what the headers of the link layer say, if that is one that is read.
fn link_facts(head: &RecordHeader, octets: &[u8]) -> LinkFacts {
    match head.layer {
        Some(layer) => LinkFacts::of(layer, octets),
        None => LinkFacts::none(),
    }
}

/// What was found in a selected record, besides its header.
#[derive(Clone, Copy, Debug, PartialEq, Eq)]
pub struct FoundRecord {
    /// What the headers of its link layer say.
    pub link: LinkFacts,
    /// How many octets of its frame there are, if the record was cut and is read up to the cut.
    pub known: Option<usize>,
    /// Where its frame is in the buffer, or why it has none.
    pub frame: Result<Found, RecordFault>,
}

impl FoundRecord {
    /// What is known about its secured frame, if that is read by its plain part.
    fn secured(&self) -> Option<SecuredFacts> {
        match &self.frame {
            Ok(found) => found.secured(),
            Err(_) => None,
        }
    }
}

/// Reads the frame of each record that is selected, in the buffer.
#[derive(Drop)]
pub struct FrameReader {
    /// The time of the first record: milliseconds, and the nanoseconds below them.
    first: Option<(u64, u32)>,
    /// Where a frame that was cut is completed.
    room: [u8; LONGEST_FRAME],
}

impl FrameReader {
    /// Returns a reader that has read no record.
    pub fn new() -> FrameReader {
        FrameReader {
            first: None,
            room: [0; LONGEST_FRAME],
        }
    }

    /// Returns the time of the first record: milliseconds, and the nanoseconds below them. Before
    /// any record was read, returns the time of this one.
    pub(crate) fn first(&self, head: &RecordHeader) -> (u64, u32) {
        self.first.unwrap_or((head.moment, head.fine.nanos))
    }

    /// Reads the frame of a record that was cut, up to the cut. If secured frames are read by their
    /// plain part, a cut secured frame isn't read.
    fn read_cut(
        &mut self,
        selection: &Selection,
        link: LinkFacts,
        head: &RecordHeader,
        octets: &mut Vec<u8>,
    ) -> Result<Option<FoundRecord>, AllocError>
        ensures { IfOk result (λ found. IfSome found (λ r. IfOk r.frame
            (IsThere octets.new.items))) }
    {
        let moment = head.moment;
        let completed = match complete_frame(head, octets, &mut self.room) {
            Ok(completed) => completed,
            Err(fault) => return Ok(refused(selection, moment, link, fault)),
        };
        octets.clear();
        octets.extend_from_slice(&self.room[..completed.length])?;
        match read_front(octets.as_slice(), completed.known) {
            Ok(cut) => Ok(known_part(selection, moment, link, completed.known, cut)),
            Err(RecordFault::Secured(_)) if selection.signed => {
                Ok(refused(selection, moment, link, CUT))
            }
            Err(fault) => Ok(refused(selection, moment, link, fault)),
        }
    }
}

/// Returns a cut record of this time with this frame, whose first `known` octets are there, if it
/// is selected.
fn known_part(
    selection: &Selection,
    moment: u64,
    link: LinkFacts,
    known: usize,
    cut: CutFrame,
) -> Option<FoundRecord>
    ensures { IfSome result (λ r. r.frame
        ≡ Ok (founds.Profile (record { place = cut.place; secured = None }))) }
{
    if !selection.choice.selects(moment, Some(cut.traits), false) {
        return None;
    }
    Some(FoundRecord {
        link,
        known: Some(known),
        frame: Ok(Found::Profile(FoundFrame {
            place: cut.place,
            secured: None,
        })),
    })
}

/// Returns a cut record of this time that is rejected, if it is selected.
fn refused(
    selection: &Selection,
    moment: u64,
    link: LinkFacts,
    fault: RecordFault,
) -> Option<FoundRecord>
    ensures { IfSome result (λ r. r.frame ≡ Err fault) }
{
    if !selection.choice.selects(moment, None, fault.is_other()) {
        return None;
    }
    Some(FoundRecord {
        link,
        known: None,
        frame: Err(fault),
    })
}

impl RecordReader for FrameReader {
    ghost use Rattle.cap_records.specs.FoundFrames.{ReadsFrame};

    type Record = FoundRecord;

    ghost Reads = { ReadsFrame };

    fn read(
        &mut self,
        selection: &Selection,
        head: &RecordHeader,
        octets: &mut Vec<u8>,
    ) -> Result<Option<FoundRecord>, AllocError> {
        self.first = Some(self.first(head));
        let link = link_facts(head, octets.as_slice());
        if selection.partial && is_cut(head) {
            return self.read_cut(selection, link, head, octets);
        }
        let frame = selection.find(head, octets);
        if selection.has(head.moment, &frame, octets.as_slice()) {
            Ok(Some(FoundRecord {
                link,
                known: None,
                frame,
            }))
        } else {
            Ok(None)
        }
    }
}

/// Whether the link layer of the record is one that is read, and the record was cut.
fn is_cut(head: &RecordHeader) -> bool {
    head.fault() == Some(cap_pcap::RecordFault::CutFrame)
}
