//! Why a record or a capture is rejected: a code, and a sentence for a person.

ghost use Rattle.std.specs.Prelude.{◌≡◌, IfOk, IfErr, IsTrue, IsFalse, true};
ghost use Rattle.its_linkframe.specs.declared.record.CaptureFault.TheVariants as captures;
ghost use Rattle.cap_pcap.specs.Codes.{code_of};
ghost use Rattle.cap_pcap.specs.declared.fault.SourceFault.TheVariants as sources;
ghost use Rattle.cap_records.specs.FileFaults.{EndsCommand, IsToldInLine};
ghost use Rattle.cap_records.specs.RecordFrames.{IsSecured, IsTold, is_other};
ghost use Rattle.cap_records.specs.declared.refusal.RecordFault.TheVariants as faults;

use crate::messages::MessageFault;
use cap_pcap::{Format, LinkFault, SourceFault};
use cmd_reporting::Fault;
use cmd_text::lines::GzipFile;
use its_faults::FaultKind;
use its_linkframe::{CaptureFault, FrameFault, PACKET, SecuredFault};
use its_words::frames::{FrameReason, SecuredReason};
use std::alloc::AllocError;
use std::fmt;

/// Why a record is rejected. It prints as a sentence.
#[derive(Clone, Copy, Debug, PartialEq, Eq)]
pub enum RecordFault {
    /// Its link layer isn't read, or it was cut.
    Record(cap_pcap::RecordFault),
    /// No frame follows the header of its link layer.
    Link(LinkFault),
    /// Its octets are not a frame.
    Frame(FrameFault),
    /// Its octets are not an unsecured frame, but seem to be a secured one. The fault is in the
    /// length or in the next header.
    Secured(FrameFault),
    /// Its octets begin like a secured frame but are not one, or its plain part is not a packet.
    Signed(SecuredFault),
    /// The message of its secured frame can't be read.
    Message(MessageFault),
}

/// The next header of a secured packet's Basic Header, which is the lower half of an octet.
const SECURED: u8 = 2;

/// The first octet of a secured packet: version 1 and next header `SECURED`.
const SECURED_PACKET: u8 = 0x12;

/// How to read a secured packet. It follows the reason why the packet is rejected.
pub const SIGNED_HINT: &str = "; --signed reads its plain part and doesn't verify it";

/// What may have made a secured frame too long.
const LENGTH_HINT: &str = "; padding, and a check sequence without a flag, count as its message";

impl RecordFault {
    /// Returns why these octets are not a frame, if reading them returned this fault.
    pub fn of(fault: FrameFault, frame: &[u8]) -> RecordFault
        ensures { IsTold fault frame.now result }
    {
        if seems_secured(fault, frame) {
            return RecordFault::Secured(fault);
        }
        RecordFault::Frame(fault)
    }

    /// Whether the record is of another protocol than GeoNetworking: its link layer is not read, or
    /// its frame is of another kind or of another type.
    pub fn is_other(&self) -> bool
        ensures { result ≡ is_other self.now }
    {
        match self {
            RecordFault::Record(cap_pcap::RecordFault::LinkType)
            | RecordFault::Link(LinkFault::Kind)
            | RecordFault::Frame(FrameFault::EtherType) => true,
            _ => false,
        }
    }

    /// Returns what lines show, for example `P4`, `L1` or `L5 G9 at 10`.
    pub fn code(self) -> RecordCode
        ensures { result ≡ record { 0 = self } }
    {
        RecordCode(self)
    }
}

/// Whether octets that are not an unsecured frame, by this fault, seem to be a secured one.
fn seems_secured(fault: FrameFault, frame: &[u8]) -> bool
    ensures yes { IsTrue result → IsSecured frame.now fault }
    ensures no { IsFalse result → ¬ IsSecured frame.now fault }
{
    match fault {
        FrameFault::TooLong => frame.get(PACKET) == Some(&SECURED_PACKET),
        FrameFault::Packet(packet) if packet.kind == FaultKind::BasicNext => {
            let next = frame.get(PACKET.saturating_add(packet.at));
            next.is_some_and(|octet| octet % 16 == SECURED)
        }
        _ => false,
    }
}

impl From<cap_pcap::RecordFault> for RecordFault {
    ghost from_gives = { λ fault r. r ≡ faults.Record fault };

    fn from(fault: cap_pcap::RecordFault) -> RecordFault {
        RecordFault::Record(fault)
    }
}

impl From<LinkFault> for RecordFault {
    ghost from_gives = { λ fault r. r ≡ faults.Link fault };

    fn from(fault: LinkFault) -> RecordFault {
        RecordFault::Link(fault)
    }
}

impl From<SecuredFault> for RecordFault {
    ghost from_gives = { λ fault r. r ≡ faults.Signed fault };

    fn from(fault: SecuredFault) -> RecordFault {
        RecordFault::Signed(fault)
    }
}

impl From<MessageFault> for RecordFault {
    ghost from_gives = { λ fault r. r ≡ faults.Message fault };

    fn from(fault: MessageFault) -> RecordFault {
        RecordFault::Message(fault)
    }
}

impl fmt::Display for RecordFault {
    fn fmt<W: fmt::Write>(&self, f: &mut fmt::Formatter<W>) -> fmt::Result {
        match self {
            RecordFault::Record(fault) => write!(f, "{fault}"),
            RecordFault::Link(fault) => write!(f, "{fault}"),
            RecordFault::Frame(fault) => write!(f, "{}", FrameReason(*fault)),
            RecordFault::Secured(fault) => {
                write!(f, "a secured packet: {}{SIGNED_HINT}", FrameReason(*fault))
            }
            RecordFault::Signed(SecuredFault::TooLong) => {
                write!(f, "{}{LENGTH_HINT}", SecuredFault::TooLong)
            }
            RecordFault::Signed(fault) => write!(f, "{}", SecuredReason(*fault)),
            RecordFault::Message(fault) => write!(f, "{fault}"),
        }
    }
}

/// Why a record is rejected, printed as a code.
#[derive(Clone, Copy, Debug, PartialEq, Eq)]
pub struct RecordCode(RecordFault);

impl fmt::Display for RecordCode {
    fn fmt<W: fmt::Write>(&self, f: &mut fmt::Formatter<W>) -> fmt::Result {
        match self.0 {
            RecordFault::Record(fault) => f.write_str(fault.code()),
            RecordFault::Link(fault) => f.write_str(fault.code()),
            RecordFault::Frame(fault) | RecordFault::Secured(fault) => {
                write!(f, "{}", fault.code())
            }
            RecordFault::Signed(fault) => write!(f, "{}", fault.code()),
            RecordFault::Message(fault) => write!(f, "{}", fault.code()),
        }
    }
}

/// Why no more records are read from a file, as a line reports it. It prints as a sentence.
#[derive(Clone, Copy, Debug, PartialEq, Eq)]
pub struct FileFault {
    fault: SourceFault,
    /// Whether the beginning of the file fits no format that is read. Without a format such a file
    /// is read as a capture, which has no magic.
    begins_as_none: bool,
    /// Whether gzip compressed the file.
    is_gzip: bool,
}

impl FileFault {
    /// Returns the fault of the file with this name after this number of records, if its octets are
    /// at fault. A failed read and a failed allocation end the command instead. `format` is the
    /// format that was given for the file. Without one, its first four octets say it.
    pub fn of<'a>(
        fault: SourceFault,
        file: &'a str,
        records: u64,
        format: Option<Format>,
    ) -> Result<FileFault, Fault<'a>>
        ensures line { IfOk result (IsToldInLine fault records format) }
        ensures command { IfErr result (EndsCommand fault file.entry) }
    {
        match fault {
            SourceFault::Capture(CaptureFault::Io) => Err(Fault::CannotRead(file)),
            SourceFault::Capture(CaptureFault::NoMemory) => Err(Fault::OutOfMemory(AllocError)),
            _ => {
                let no_length = fault == SourceFault::Capture(CaptureFault::Length);
                Ok(FileFault {
                    fault,
                    begins_as_none: no_length && records == 0 && format.is_none(),
                    is_gzip: false,
                })
            }
        }
    }

    /// Returns the fault of a file that gzip compressed. It has the code of a file whose format is
    /// not read.
    pub fn gzip() -> FileFault
        ensures { (result.fault ≡ sources.Capture captures.Length) × (result.is_gzip ≡ true) }
    {
        FileFault {
            fault: SourceFault::Capture(CaptureFault::Length),
            begins_as_none: true,
            is_gzip: true,
        }
    }

    /// Returns what lines show, for example `C1` or `P2`.
    pub fn code(self) -> &'static str
        ensures { result.now ≡ code_of self.fault }
    {
        self.fault.code()
    }
}

impl fmt::Display for FileFault {
    fn fmt<W: fmt::Write>(&self, f: &mut fmt::Formatter<W>) -> fmt::Result {
        if self.is_gzip {
            GzipFile("show -").fmt(f)
        } else if self.begins_as_none {
            f.write_str("not a capture, pcap or pcapng file")
        } else {
            write!(f, "{}", self.fault)
        }
    }
}
