//! Why no more records can be read from a file.

ghost use Rattle.std.specs.Prelude.{◌≡◌};
ghost use Rattle.cap_pcap.specs.Codes.{code_of};
ghost use Rattle.cap_pcap.specs.declared.fault.SourceFault.TheVariants as faults;

use its_linkframe::CaptureFault;
use std::error::Error;
use std::fmt;

/// Why no more records can be read from a file. After such a fault each call of a reader returns
/// C5.
#[derive(Clone, Copy, Debug, PartialEq, Eq)]
pub enum SourceFault {
    /// P1: the file ends inside a header, a block or a record.
    CutFile,
    /// P2: a field has a value that the format does not know, or a length is wrong.
    Malformed,
    /// P3: the link layer of the file is not read.
    LinkType,
    /// C1 or C2 for a capture. For any file C3 (a call of the device failed), C4 (an allocation
    /// failed) or C5 (an earlier call returned a fault).
    Capture(CaptureFault),
}

/// Why a file can't be opened.
#[derive(Clone, Copy, Debug, PartialEq, Eq)]
pub enum OpenFault {
    /// A call of the device failed.
    Io,
    /// By its first octets the file was compressed by gzip.
    Gzip,
}

impl SourceFault {
    /// Returns the code that logs and the program's lines show: `P1` to `P3`, `C1` to `C5`.
    pub fn code(&self) -> &'static str
        ensures { result.now ≡ code_of self.now }
    {
        match self {
            SourceFault::CutFile => "P1",
            SourceFault::Malformed => "P2",
            SourceFault::LinkType => "P3",
            SourceFault::Capture(fault) => fault.code(),
        }
    }
}

impl From<CaptureFault> for SourceFault {
    ghost from_gives = { λ f s. s ≡ faults.Capture f };

    fn from(fault: CaptureFault) -> SourceFault {
        SourceFault::Capture(fault)
    }
}

impl fmt::Display for SourceFault {
    fn fmt<W: fmt::Write>(&self, f: &mut fmt::Formatter<W>) -> fmt::Result {
        match self {
            SourceFault::CutFile => write!(f, "the file ends inside a header, a block or a record"),
            SourceFault::Malformed => write!(f, "a field or a length that the format forbids"),
            SourceFault::LinkType => {
                write!(
                    f,
                    "a link layer other than Ethernet, IEEE 802.11, radiotap and Linux cooked"
                )
            }
            SourceFault::Capture(fault) => write!(f, "{fault}"),
        }
    }
}

impl Error for SourceFault {}
