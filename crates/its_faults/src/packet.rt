//! Why octets are no packet (EN 302 636-4-1 clause 9).

ghost use Rattle.std.specs.Prelude.{◌≡◌};
ghost use Rattle.its_faults.specs.Codes.{code_of};

use std::error::Error;
use std::fmt;

/// What is wrong with a field of a packet (EN 302 636-4-1 clause 9).
#[derive(Clone, Copy, Debug, PartialEq, Eq)]
pub enum FaultKind {
    /// G1: the octets end before or in the field.
    Truncated,
    /// G2: the version is not 1.
    Version,
    /// G3: what follows the Basic Header is no Common Header.
    BasicNext,
    /// G4: a reserved bit is 1.
    Reserved,
    /// G5: no hop is left.
    HopZero,
    /// G6: what follows the Common Header is neither nothing nor BTP-B.
    CommonNext,
    /// G7: the header type is not one that is read after such a next header.
    HeaderType,
    /// G8: the header type doesn't have the sub-type.
    SubType,
    /// G9: more hops are left than there were at most.
    HopAboveMax,
    /// G10: the header type doesn't allow the payload's length.
    PayloadLength,
    /// G11: the vector's address has a group MID, or its place is out of range.
    Position,
    /// G12: the area's centre, a distance or the angle is out of range.
    Area,
}

impl FaultKind {
    /// What logs and the program's lines show: `G1` to `G12`.
    pub fn code(&self) -> &'static str
        ensures { result.now ≡ code_of self.now }
    {
        match self {
            FaultKind::Truncated => "G1",
            FaultKind::Version => "G2",
            FaultKind::BasicNext => "G3",
            FaultKind::Reserved => "G4",
            FaultKind::HopZero => "G5",
            FaultKind::CommonNext => "G6",
            FaultKind::HeaderType => "G7",
            FaultKind::SubType => "G8",
            FaultKind::HopAboveMax => "G9",
            FaultKind::PayloadLength => "G10",
            FaultKind::Position => "G11",
            FaultKind::Area => "G12",
        }
    }
}

impl fmt::Display for FaultKind {
    fn fmt<W: fmt::Write>(&self, f: &mut fmt::Formatter<W>) -> fmt::Result {
        let sentence = match self {
            FaultKind::Truncated => "a truncated packet",
            FaultKind::Version => "a version other than 1",
            FaultKind::BasicNext => "no Common Header after the Basic Header",
            FaultKind::Reserved => "a reserved bit that is set",
            FaultKind::HopZero => "no hop left",
            FaultKind::CommonNext => "a next header other than none and BTP-B",
            FaultKind::HeaderType => "an unsupported header type",
            FaultKind::SubType => "a sub-type that the header type does not have",
            FaultKind::HopAboveMax => "more hops left than the maximum",
            FaultKind::PayloadLength => "a payload length out of range",
            FaultKind::Position => "a group address, or a position out of range",
            FaultKind::Area => "an area out of range",
        };
        write!(f, "{sentence}")
    }
}

/// The first fault of octets that are no packet. It prints as `more hops left than the maximum, at
/// octet 10`.
#[derive(Clone, Copy, Debug, PartialEq, Eq)]
pub struct Fault {
    /// The octet at which the field begins, or the input's length at G1.
    pub at: usize,
    /// What is wrong with that field.
    pub kind: FaultKind,
}

impl Fault {
    /// What logs and the program's lines show, as `G9 at 10`.
    pub fn code(&self) -> FaultCode
        ensures { result ≡ record { 0 = self.now } }
    {
        FaultCode(*self)
    }
}

impl fmt::Display for Fault {
    fn fmt<W: fmt::Write>(&self, f: &mut fmt::Formatter<W>) -> fmt::Result {
        write!(f, "{}, at octet {}", self.kind, self.at)
    }
}

impl Error for Fault {}

/// A packet's fault that prints as its code and place, as `G9 at 10`.
#[derive(Clone, Copy, Debug, PartialEq, Eq)]
pub struct FaultCode(pub Fault);

impl fmt::Display for FaultCode {
    fn fmt<W: fmt::Write>(&self, f: &mut fmt::Formatter<W>) -> fmt::Result {
        write!(f, "{} at {}", self.0.kind.code(), self.0.at)
    }
}
