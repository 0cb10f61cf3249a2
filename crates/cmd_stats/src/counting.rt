//! The command `stats`.

use crate::kinds::Kinds;
use crate::ports::Ports;
use crate::printing::{Counted, print_object, print_tables};
use crate::psids::Psids;
use crate::seconds::Seconds;
use crate::sources::{SourceColumns, SourceFrame, Sources};
use cap_records::{
    OutsideFrame, RecordFault, RecordPlace, RecordVisitor, SeenFrame, Selection, each_record,
    open_records, traits_of,
};
use cmd_reporting::{Fault, Io, Status, open};
use its_linkframe::{FrameView, PACKET};
use std::alloc::{AllocError, Global};
use std::io::{Read, Write};
use std::rt::Files;

/// The counts of a capture's records.
#[derive(Drop)]
pub(crate) struct Counts {
    pub(crate) kinds: Kinds,
    pub(crate) sources: Sources,
    pub(crate) ports: Ports,
    pub(crate) psids: Psids,
    pub(crate) seconds: Seconds,
}

impl Counts {
    /// Returns the counts before the first record.
    fn new(alloc: Global) -> Counts {
        Counts {
            kinds: Kinds::new(),
            sources: Sources::new(alloc),
            ports: Ports::new(alloc),
            psids: Psids::new(alloc),
            seconds: Seconds::new(alloc),
        }
    }

    /// Counts the frame of a record.
    fn add(&mut self, place: &RecordPlace, frame: &FrameView<'_>) -> Result<(), AllocError> {
        let length = frame.packet.octets().len().saturating_add(PACKET);
        let octets = octets_of(place, length);
        self.kinds.add_frame(frame.packet.kind());
        self.sources.add(SourceFrame::of(place, octets, frame))?;
        self.add_traffic(place, octets, traits_of(frame).port)
    }

    /// Counts the frame of a record that is outside the profile.
    fn add_outside(
        &mut self,
        place: &RecordPlace,
        frame: &OutsideFrame<'_>,
    ) -> Result<(), AllocError> {
        let octets = octets_of(place, frame.length);
        self.kinds.add_outside(frame.fields.extended.kind());
        let source = SourceFrame::of_outside(place, octets, frame);
        self.sources.add(source)?;
        self.add_traffic(place, octets, frame.port())
    }

    /// Counts a frame of this many octets by its port, its PSID and its second.
    fn add_traffic(
        &mut self,
        place: &RecordPlace,
        octets: u32,
        port: Option<u16>,
    ) -> Result<(), AllocError> {
        if let Some(port) = port {
            self.ports.add(port, u64::from(octets))?;
        }
        if let Some(psid) = psid_of(place) {
            self.psids.add(psid, u64::from(octets))?;
        }
        self.seconds.add(place.moment, octets)
    }
}

/// Returns the length of a frame, or of the whole secured frame if it was inside one. No record has
/// 2^32 octets.
fn octets_of(place: &RecordPlace, length: usize) -> u32 {
    let length = match place.secured {
        Some(secured) => secured.length,
        None => length,
    };
    u32::try_from(length).unwrap_or(u32::MAX)
}

/// Returns the PSID of a record, if its frame is signed.
fn psid_of(place: &RecordPlace) -> Option<u64> {
    Some(place.secured?.info?.psid)
}

impl RecordVisitor for Counts {
    fn visit<'f, W: Write>(
        &mut self,
        place: RecordPlace,
        frame: Result<SeenFrame<'_>, RecordFault>,
        _out: &mut W,
    ) -> Result<(), Fault<'f>> {
        match frame {
            Ok(SeenFrame::Profile(frame)) => self.add(&place, &frame)?,
            Ok(SeenFrame::Outside(frame)) => self.add_outside(&place, &frame)?,
            Err(fault) => self.kinds.add_refused(fault),
        }
        Ok(())
    }
}

/// How `stats` prints sources.
#[derive(Clone, Copy, Debug, PartialEq, Eq)]
pub struct PrintedSources {
    /// How many sources are printed at most. Those with the most frames are printed.
    pub top: Option<u64>,
    /// Whether their own frames are counted separately from those that others forwarded.
    pub own: bool,
}

/// Prints the counts of the file's selected records by kind, and the traffic of their frames by
/// source, by port and by PSID, and the second with the most air time. `input` is standard input.
/// The output is one object, or tables.
///
/// `Refused` if the file was refused. `Failed` if it could not be read, standard output could not
/// be written, or memory ran out.
pub fn stats_file<R: Files + AllocGlobal, I: Read + Drop, W: Write, E: Write>(
    rt: &R,
    file: &str,
    input: I,
    selection: &Selection,
    printed: PrintedSources,
    io: &mut Io<W, E>,
) -> Status
where
    R::File: Read + Drop,
{
    let ended = count(rt, file, input, selection, printed, io);
    io.status_of(ended)
}

/// Counts the records of the file, and prints the counts. Returns the fault that ends the command
/// before it is done.
fn count<'a, R: Files + AllocGlobal, I: Read + Drop, W: Write, E>(
    rt: &R,
    file: &'a str,
    input: I,
    selection: &Selection,
    printed: PrintedSources,
    io: &mut Io<W, E>,
) -> Result<Status, Fault<'a>>
where
    R::File: Read + Drop,
{
    let alloc = rt.alloc();
    let reader = open(rt, file, input)?;
    let mut counts = Counts::new(alloc);
    let records = open_records(alloc, file, selection.format, reader)?;
    let walked = each_record(alloc, file, selection, records, &mut counts, &mut io.out)?;
    let counted = Counted {
        counts: &counts,
        walked: &walked,
        top: printed.top,
        signed: selection.signed,
        columns: SourceColumns {
            outside: selection.choice.all_kinds,
            own: printed.own,
        },
    };
    if io.format.json {
        print_object(alloc, counted, &mut io.out)?;
    } else {
        print_tables(alloc, counted, io.format.explain, &mut io.out)?;
    }
    match walked.fault {
        Some(_) => Ok(Status::Refused),
        None => Ok(Status::Done),
    }
}
