//! Why octets are no frame (profile).

ghost use Rattle.std.specs.Prelude.{◌≡◌};
ghost use Rattle.its_faults.specs.declared.frame.FrameFault.TheVariants.{Packet};

use crate::packet::Fault;
use std::error::Error;
use std::fmt;

/// The first fault of octets that are no frame, in the order in which faults are checked.
#[derive(Clone, Copy, Debug, PartialEq, Eq)]
pub enum FrameFault {
    /// L1: under 14 octets.
    Short,
    /// L2: the type is not 0x8947.
    EtherType,
    /// L3: over 1468 octets.
    TooLong,
    /// L5: what follows the type is no packet; the place is counted in the packet.
    Packet(Fault),
    /// L4: octets follow the packet.
    Trailing,
}

impl FrameFault {
    /// What logs and the program's lines show, as `L1` or `L5 G9 at 10`.
    pub fn code(&self) -> FrameCode
        ensures { result ≡ record { 0 = self.now } }
    {
        FrameCode(*self)
    }
}

impl From<Fault> for FrameFault {
    ghost from_gives = { λ fault e. e ≡ Packet fault };

    fn from(fault: Fault) -> FrameFault {
        FrameFault::Packet(fault)
    }
}

impl fmt::Display for FrameFault {
    fn fmt<W: fmt::Write>(&self, f: &mut fmt::Formatter<W>) -> fmt::Result {
        match self {
            FrameFault::Short => write!(f, "a frame of fewer than 14 octets"),
            FrameFault::EtherType => write!(f, "a frame of another type than 0x8947"),
            FrameFault::TooLong => write!(f, "a frame of more than 1468 octets"),
            FrameFault::Packet(fault) => write!(f, "no packet in the frame: {fault}"),
            FrameFault::Trailing => write!(f, "octets after the packet"),
        }
    }
}

impl Error for FrameFault {}

/// A frame's fault that prints as its code, as `L1` or `L5 G9 at 10`.
#[derive(Clone, Copy, Debug, PartialEq, Eq)]
pub struct FrameCode(pub FrameFault);

impl fmt::Display for FrameCode {
    fn fmt<W: fmt::Write>(&self, f: &mut fmt::Formatter<W>) -> fmt::Result {
        match self.0 {
            FrameFault::Short => write!(f, "L1"),
            FrameFault::EtherType => write!(f, "L2"),
            FrameFault::TooLong => write!(f, "L3"),
            FrameFault::Packet(fault) => write!(f, "L5 {}", fault.code()),
            FrameFault::Trailing => write!(f, "L4"),
        }
    }
}
