//! Reading a classic pcap file.

ghost use Rattle.std.specs.Prelude.{◌≡◌, ◌≢◌, ◌-◌, ◌+◌, ◌^◌, ◌<◌, ◌≤◌};
ghost use Rattle.std.specs.Prelude.{IfOk, IfErr, MatchOption, Err, if◌then◌else◌, vec_capacity};
ghost use Rattle.its_linkframe.specs.declared.record.CaptureFault.TheVariants as captures;
ghost use Rattle.cap_pcap.specs.Reading.{is_io};
ghost use Rattle.cap_pcap.specs.Pcap.{mark_number, ReadsHeader, IsHeaderFault, IsRecordStep};
ghost use Rattle.cap_pcap.specs.Pcap.{IsRecordFault, moment_of, fine_of, IsAnswer, layer_at};
ghost use Rattle.cap_pcap.specs.Pcap.{info_at};
ghost use Rattle.cap_pcap.specs.declared.fault.SourceFault.TheVariants as faults;
ghost use Rattle.cap_pcap.specs.declared.pcap.Stage.TheVariants as stages;

use crate::fault::SourceFault;
use crate::info::InterfaceInfo;
use crate::octets::{Endianness, u16_at, u32_at};
use crate::record::{FineTime, RecordHeader, Step};
use crate::transfer::{read_exact, read_record_octets};
use byteorder::{BigEndian, ByteOrder};
use cap_linklayers::{LinkLayer, link_layer};
use its_linkframe::{CaptureFault, Source, fill};
use std::marker::Model;

/// The octets of a file's magic.
const MARK: usize = 4;

/// The octets of its major version, after the magic.
const VERSION: usize = 2;

/// The octets of its header after those.
const OTHERS: usize = 18;

/// The type of the link layer: its first octet among those.
const LINK_TYPE: usize = 14;

/// Types of link layers have 16 bits of their field.
const LINK_TYPES: u32 = 65536;

/// The one major version.
const MAJOR_VERSION: u16 = 2;

/// The octets of a record before its wire length.
const HEAD: usize = 12;

/// Its seconds, in octets from its first; each number has four.
const SECONDS: usize = 0;

/// Its fraction.
const FRACTION: usize = 4;

/// Its captured length.
const CAPTURED: usize = 8;

/// The octets of its wire length.
const WIRE: usize = 4;

/// The most octets of a frame that a file may have.
pub const LONGEST_CAPTURED: u32 = 262_144;

/// What the fractions of a second count.
#[derive(Clone, Copy, Debug, PartialEq, Eq)]
pub enum Unit {
    /// Millionths.
    Micro,
    /// Thousand millionths.
    Nano,
}

/// What the magic at the head of a file says about the rest.
#[derive(Clone, Copy, Debug, PartialEq, Eq)]
pub struct Magic {
    /// The byte order of its numbers.
    pub order: Endianness,
    /// The unit of its fractions.
    pub unit: Unit,
}

/// What the header of a file says about its records.
#[derive(Clone, Copy, Debug, PartialEq, Eq)]
pub struct FileHeader {
    /// What its magic says.
    pub magic: Magic,
    /// The link layer of all its records.
    pub layer: LinkLayer,
}

/// The position of a reader in the file.
#[derive(Clone, Copy, Debug, PartialEq, Eq)]
enum Stage {
    /// At the header of the file.
    Start,
    /// At a record, or at the end.
    Records(FileHeader),
    /// The end was reached. It is returned again.
    Ended,
    /// A fault was returned. Each further call returns C5.
    Failed,
}

/// Reads the records of a classic pcap file, in order, from a source that returns its octets in
/// pieces of any size.
#[derive(Drop)]
pub struct PcapReader<R: Source> {
    source: R,
    keep: usize,
    stage: Stage,
}

impl<R: Source> Model for PcapReader<R> {
    ghost use Rattle.std.specs.Prelude.{◌≡◌, ◌-◌, ◌^◌, ◌<◌, false};
    ghost use Rattle.cap_pcap.specs.Pcap.{Reading, is_failed};

    ghost Value = { Reading };

    ghost view = { λ r. record {
      stage = r.stage;
      keep = r.keep;
      rest = R.remaining r.source;
      failures = R.failed r.source;
    } };

    ghost invariant = { λ r. is_failed r.stage ≡ false → R.failed r.source < 2 ^ 64 - 1 };
}

impl<R: Source> PcapReader<R> {
    /// Returns a reader at the start of a file. It keeps at most the first `keep` octets of a
    /// frame.
    pub fn new(source: R, keep: usize) -> PcapReader<R>
        requires { R.failed source < 2 ^ 64 - 1 }
        ensures start { result.stage ≡ stages.Start }
        ensures keep { result.keep ≡ keep }
        ensures rest { result.rest ≡ R.remaining source }
        ensures failures { result.failures ≡ R.failed source }
    {
        PcapReader {
            source,
            keep,
            stage: Stage::Start,
        }
    }

    /// Returns the next step. The first call reads the header of the file. Each further call
    /// returns a record, whose octets replace those in the buffer, or the end.
    ///
    /// A field is checked before any octet after it is read. After a fault each call returns C5.
    pub fn next_into(&mut self, frame: &mut Vec<u8>) -> Result<Step, SourceFault>
        ensures answer { IsAnswer self.old.stage self.new.stage self.old.keep frame.new.items
            self.old.rest self.new.rest result }
        ensures counts { self.new.failures ≡ self.old.failures + (if is_io result then 1 else 0) }
        ensures keep { self.new.keep ≡ self.old.keep }
        ensures memory { self.old.keep ≤ vec_capacity frame.old
            → result ≢ Err (faults.Capture captures.NoMemory) }
    {
        let answer = match self.stage {
            Stage::Start => match read_header(&mut self.source) {
                Ok(head) => {
                    self.stage = Stage::Records(head);
                    return Ok(Step::Interface);
                }
                Err(fault) => Err(fault),
            },
            Stage::Records(head) => read_record(&mut self.source, head, self.keep, frame),
            Stage::Ended => return Ok(Step::End),
            Stage::Failed => return Err(SourceFault::Capture(CaptureFault::Failed)),
        };
        match answer {
            Ok(Step::End) => self.stage = Stage::Ended,
            Ok(_) => {}
            Err(_) => self.stage = Stage::Failed,
        }
        answer
    }

    /// Returns the link layer of the records, between the header of the file and its end or a
    /// fault.
    pub fn layer(&self) -> Option<LinkLayer>
        ensures { result ≡ layer_at self.now.stage }
    {
        match self.stage {
            Stage::Records(head) => Some(head.layer),
            Stage::Start | Stage::Ended | Stage::Failed => None,
        }
    }

    /// Returns what the header of the file says of its one interface, between the header and the end
    /// or a fault.
    pub fn newest(&self) -> Option<InterfaceInfo>
        ensures { result ≡ info_at self.now.stage }
    {
        match self.stage {
            Stage::Records(head) => Some(InterfaceInfo::of_file(head)),
            _ => None,
        }
    }

    /// Returns the source, with the octets that were not read.
    pub fn into_inner(self) -> R
        ensures rest { R.remaining result ≡ self.rest }
        ensures failures { R.failed result ≡ self.failures }
    {
        self.source
    }
}

/// The magic whose octets, the highest first, are this number.
pub(crate) fn magic_in(number: u32) -> Option<Magic>
    ensures { MatchOption result ((m : Magic) → number ≢ mark_number m)
        (λ m. number ≡ mark_number m) }
{
    let (order, unit) = match number {
        0xa1b2_c3d4 => (Endianness::Big, Unit::Micro),
        0xd4c3_b2a1 => (Endianness::Little, Unit::Micro),
        0xa1b2_3c4d => (Endianness::Big, Unit::Nano),
        0x4d3c_b2a1 => (Endianness::Little, Unit::Nano),
        _ => return None,
    };
    Some(Magic { order, unit })
}

/// Reads the header of a file: what it says about the rest.
fn read_header<S: Source>(source: &mut S) -> Result<FileHeader, SourceFault>
    requires { S.failed source.old < 2 ^ 64 - 1 }
    ensures header { IfOk result
        (λ h. ReadsHeader h (S.remaining source.old) (S.remaining source.new)) }
    ensures fault { IfErr result (IsHeaderFault (S.remaining source.old) (S.remaining source.new)) }
    ensures counts { S.failed source.new ≡ S.failed source.old + (if is_io result then 1 else 0) }
{
    let mut first = [0; MARK];
    read_exact(source, &mut first)?;
    let Some(magic) = magic_in(BigEndian::read_u32(&first)) else {
        return Err(SourceFault::Malformed);
    };
    let mut version = [0; VERSION];
    read_exact(source, &mut version)?;
    if u16_at(magic.order, &version, 0) != MAJOR_VERSION {
        return Err(SourceFault::Malformed);
    }
    let mut others = [0; OTHERS];
    read_exact(source, &mut others)?;
    match link_layer(u32_at(magic.order, &others, LINK_TYPE) % LINK_TYPES) {
        Some(layer) => Ok(FileHeader { magic, layer }),
        None => Err(SourceFault::LinkType),
    }
}

/// Reads a record, or returns the end. The first octets of its frame are put into the buffer.
fn read_record<S: Source>(
    source: &mut S,
    file: FileHeader,
    keep: usize,
    frame: &mut Vec<u8>,
) -> Result<Step, SourceFault>
    requires { S.failed source.old < 2 ^ 64 - 1 }
    ensures step { IfOk result (IsRecordStep file keep frame.new.items (S.remaining source.old)
        (S.remaining source.new)) }
    ensures fault { IfErr result
        (IsRecordFault file.magic (S.remaining source.old) (S.remaining source.new)) }
    ensures counts { S.failed source.new ≡ S.failed source.old + (if is_io result then 1 else 0) }
    ensures memory { keep ≤ vec_capacity frame.old
        → result ≢ Err (faults.Capture captures.NoMemory) }
{
    let mut head = [0; HEAD];
    let Some(n) = fill(source, &mut head) else {
        return Err(SourceFault::Capture(CaptureFault::Io));
    };
    if n == 0 {
        return Ok(Step::End);
    }
    if n < HEAD {
        return Err(SourceFault::CutFile);
    }
    let magic = file.magic;
    let captured = u32_at(magic.order, &head, CAPTURED);
    if captured > LONGEST_CAPTURED {
        return Err(SourceFault::Malformed);
    }
    let mut wire = [0; WIRE];
    read_exact(source, &mut wire)?;
    read_record_octets(source, captured as usize, keep, frame)?;
    let seconds = u32_at(magic.order, &head, SECONDS);
    let fraction = u32_at(magic.order, &head, FRACTION);
    Ok(Step::Record(RecordHeader {
        moment: moment_at(magic.unit, seconds, fraction),
        fine: fine_time_at(magic.unit, seconds, fraction),
        interface: 0,
        captured,
        wire: u32_at(magic.order, &wire, 0),
        layer: Some(file.layer),
    }))
}

/// The time of a record in milliseconds.
fn moment_at(unit: Unit, seconds: u32, fraction: u32) -> u64
    ensures { result ≡ moment_of unit seconds fraction }
{
    let parts = match unit {
        Unit::Micro => 1000,
        Unit::Nano => 1_000_000,
    };
    1000 * u64::from(seconds) + u64::from(fraction / parts)
}

/// The part of the time below a millisecond.
fn fine_time_at(unit: Unit, seconds: u32, fraction: u32) -> FineTime
    ensures { result ≡ fine_of unit seconds fraction }
{
    let (nanos, second) = match unit {
        Unit::Micro => (fraction % 1000 * 1000, 1_000_000),
        Unit::Nano => (fraction % 1_000_000, 1_000_000_000),
    };
    FineTime {
        nanos,
        finer: false,
        ticks: Some(second * u64::from(seconds) + u64::from(fraction)),
    }
}
