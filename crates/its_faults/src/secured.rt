//! Why octets are no secured frame, or its plain part no packet (profile).

ghost use Rattle.std.specs.Prelude.{◌≡◌};

use crate::packet::Fault;
use std::error::Error;
use std::fmt;

/// The first fault of a secured frame, in the order in which faults are checked: those of the frame,
/// and then those of the packet that its Basic Header and its plain part make.
#[derive(Clone, Copy, Debug, PartialEq, Eq)]
pub enum SecuredFault {
    /// L1: under 14 octets.
    Short,
    /// L2: the type is not 0x8947.
    EtherType,
    /// L3: over 2310 octets.
    TooLong,
    /// L5: what follows the type is no secured packet; the place is counted in that packet.
    Packet(Fault),
    /// L6: the inner octets are not a packet; the place is counted in the inner packet.
    Inner(Fault),
    /// L4: octets follow the inner packet.
    Trailing,
}

impl SecuredFault {
    /// What logs and the program's lines show, as `L1`, `L5 G3 at 0` or `L6 G10 at 8`.
    pub fn code(&self) -> SecuredCode
        ensures { result ≡ record { 0 = self.now } }
    {
        SecuredCode(*self)
    }
}

impl fmt::Display for SecuredFault {
    fn fmt<W: fmt::Write>(&self, f: &mut fmt::Formatter<W>) -> fmt::Result {
        match self {
            SecuredFault::Short => write!(f, "a frame of fewer than 14 octets"),
            SecuredFault::EtherType => write!(f, "a frame of another type than 0x8947"),
            SecuredFault::TooLong => write!(f, "a secured frame of more than 2310 octets"),
            SecuredFault::Packet(fault) => write!(f, "no secured packet in the frame: {fault}"),
            SecuredFault::Inner(fault) => write!(f, "no packet in the plain part: {fault}"),
            SecuredFault::Trailing => write!(f, "octets after the packet in the plain part"),
        }
    }
}

impl Error for SecuredFault {}

/// A secured frame's fault that prints as its code, as `L1`, `L5 G3 at 0` or `L6 G10 at 8`.
#[derive(Clone, Copy, Debug, PartialEq, Eq)]
pub struct SecuredCode(pub SecuredFault);

impl fmt::Display for SecuredCode {
    fn fmt<W: fmt::Write>(&self, f: &mut fmt::Formatter<W>) -> fmt::Result {
        match self.0 {
            SecuredFault::Short => write!(f, "L1"),
            SecuredFault::EtherType => write!(f, "L2"),
            SecuredFault::TooLong => write!(f, "L3"),
            SecuredFault::Packet(fault) => write!(f, "L5 {}", fault.code()),
            SecuredFault::Inner(fault) => write!(f, "L6 {}", fault.code()),
            SecuredFault::Trailing => write!(f, "L4"),
        }
    }
}
