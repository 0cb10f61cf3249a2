//! Octets to packets that own what they say.

ghost use Rattle.std.specs.Prelude.{◌≡◌, ◌≤◌, ◌++◌, ℕ, List, length, take, IfOk, IfErr};
ghost use Rattle.std.specs.Prelude.{MatchResult};
ghost use Rattle.its_model.specs.Packet.{Pdu};
ghost use Rattle.its_headers.specs.declared.decoding.DecodeFault.TheVariants as reasons;
ghost use Rattle.its_headers.specs.Encoding.{Encodes};
ghost use Rattle.its_headers.specs.Packets.{pdu_of_packet, hops_left};
ghost use Rattle.its_headers.specs.Decoding.{HasPayload, IsReason};

use crate::packet::Packet;
use crate::view::PacketView;
use its_faults::Fault;
use its_gnvalue::NoMemory;
use std::alloc::Global;
use std::error::Error;
use std::fmt;

/// Why octets were not decoded. It prints as `more hops left than the maximum, at octet 10`.
#[derive(Clone, Copy, Debug, PartialEq, Eq)]
pub enum DecodeFault {
    /// No packet begins the octets: the first fault.
    Fault(Fault),
    /// H1: a packet with a payload begins the octets, and the allocation of the payload failed.
    NoMemory,
}

impl DecodeFault {
    /// What logs show, as `G9 at 10` or `H1`.
    pub fn code(&self) -> DecodeCode
        ensures { result ≡ record { 0 = self.now } }
    {
        DecodeCode(*self)
    }
}

impl From<Fault> for DecodeFault {
    ghost from_gives = { λ fault e. e ≡ reasons.Fault fault };

    fn from(fault: Fault) -> DecodeFault {
        DecodeFault::Fault(fault)
    }
}

impl From<NoMemory> for DecodeFault {
    ghost from_gives = { λ _ e. e ≡ reasons.NoMemory };

    fn from(_: NoMemory) -> DecodeFault {
        DecodeFault::NoMemory
    }
}

impl fmt::Display for DecodeFault {
    fn fmt<W: fmt::Write>(&self, f: &mut fmt::Formatter<W>) -> fmt::Result {
        match self {
            DecodeFault::Fault(fault) => write!(f, "{fault}"),
            DecodeFault::NoMemory => write!(f, "out of memory"),
        }
    }
}

impl Error for DecodeFault {}

/// A fault of decoding that prints as its code, as `G9 at 10` or `H1`.
#[derive(Clone, Copy, Debug, PartialEq, Eq)]
pub struct DecodeCode(pub DecodeFault);

impl fmt::Display for DecodeCode {
    fn fmt<W: fmt::Write>(&self, f: &mut fmt::Formatter<W>) -> fmt::Result {
        match self.0 {
            DecodeFault::Fault(fault) => write!(f, "{}", fault.code()),
            DecodeFault::NoMemory => write!(f, "H1"),
        }
    }
}

/// The packet that begins the octets, and its length. What follows it is not checked. A failed
/// allocation never hides a fault, and a beacon takes no memory.
pub fn decode(alloc: Global, octets: &[u8]) -> Result<(Packet, usize), DecodeFault>
    ensures found { IfOk result (λ x. (x.1 ≤ length octets.now)
        × Encodes (pdu_of_packet x.0) (hops_left x.0) (take x.1 octets.now)) }

    // Each packet is read, whatever follows it, unless the allocation of its payload fails.
    ensures only { (p : Pdu) (left : ℕ) (w rest : List ℕ) → Encodes p left w
        → octets.now ≡ w ++ rest
        → MatchResult result
        (λ x. (pdu_of_packet x.0 ≡ p) × (hops_left x.0 ≡ left) × (x.1 ≡ length w))
        (λ e. (e ≡ DecodeFault.NoMemory) × HasPayload p.body) }
    ensures fault { IfErr result (IsReason octets.now) }
{
    let (view, length) = PacketView::read(octets)?;
    let packet = view.to_packet(alloc)?;
    Ok((packet, length))
}
