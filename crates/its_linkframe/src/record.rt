//! What a capture holds, and why one cannot be read or written on.

ghost use Rattle.std.specs.Prelude.{◌≡◌};
ghost use Rattle.its_linkframe.specs.Codes.{code_of};

use std::error::Error;
use std::fmt;

/// The longest frame, in octets (profile).
pub const LONGEST_FRAME: usize = 1468;

/// A frame, and the moment at which it was taken.
#[derive(Debug, Drop, PartialEq, Eq)]
pub struct Record {
    /// In milliseconds.
    pub moment: u64,
    /// The octets of the frame, 1 to 1468 of them where the record was read; they are not checked.
    pub frame: Vec<u8>,
}

/// Why a capture cannot be read or written on.
#[derive(Clone, Copy, Debug, PartialEq, Eq)]
pub enum CaptureFault {
    /// C1: the input ends inside a record.
    CutRecord,
    /// C2: the length of a frame is 0 or over 1468.
    Length,
    /// C3: a call of the device failed.
    Io,
    /// C4: the allocation of a frame failed. Only a reader answers it.
    NoMemory,
    /// C5: an earlier call answered C1, C3 or C4, or was a reader's that answered C2.
    Failed,
}

impl CaptureFault {
    /// What logs and the program's lines show: `C1` to `C5`.
    pub fn code(&self) -> &'static str
        ensures { result.now ≡ code_of self.now }
    {
        match self {
            CaptureFault::CutRecord => "C1",
            CaptureFault::Length => "C2",
            CaptureFault::Io => "C3",
            CaptureFault::NoMemory => "C4",
            CaptureFault::Failed => "C5",
        }
    }
}

impl fmt::Display for CaptureFault {
    fn fmt<W: fmt::Write>(&self, f: &mut fmt::Formatter<W>) -> fmt::Result {
        let sentence = match self {
            CaptureFault::CutRecord => "the input ends inside a record",
            CaptureFault::Length => "a frame of no octet or of more than 1468",
            CaptureFault::Io => "a call of the device failed",
            CaptureFault::NoMemory => "out of memory",
            CaptureFault::Failed => "an earlier call failed",
        };
        write!(f, "{sentence}")
    }
}

impl Error for CaptureFault {}
