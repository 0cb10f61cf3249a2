//! Packets that the standard lays out and the profile does not have.

ghost use Rattle.std.specs.Prelude.{◌≡◌, ◌≤◌, ◌++◌, ℕ, List, length, take, IfOk, IfErr, IfSome};
ghost use Rattle.std.specs.Prelude.{IfNone, None, MatchResult, IsErrOf};
ghost use Rattle.its_model.specs.Packet.{Pdu};
ghost use Rattle.its_headers.specs.Encoding.{Encodes as EncodesPdu};
ghost use Rattle.its_headers.specs.FirstFault.{FirstFault};
ghost use Rattle.its_outside.specs.Encoding.{Standard, Encodes};
ghost use Rattle.its_outside.specs.Outside.{BeginsInProfile, IsReason};

use crate::extended::read_standard;
use crate::fields::Fields;
use its_faults::Fault;
use its_headers::PacketView;
use std::error::Error;
use std::fmt;

/// A packet that the standard lays out and the profile does not have (EN 302 636-4-1 clause 9).
#[derive(Clone, Copy, Debug, Drop)]
pub struct OutsidePacket<'a> {
    /// All fields, except the payload.
    pub fields: Fields,
    /// What follows the extended header, as many octets as the header says (PL).
    pub payload: &'a [u8],
    /// The first fault by which the profile rejects the packet: what is unusual in it.
    pub refusal: Fault,
}

/// Why octets are no packet outside the profile.
#[derive(Clone, Copy, Debug, PartialEq, Eq)]
pub enum NotOutside {
    /// A packet of the profile begins the octets.
    InProfile,
    /// No packet of the standard begins the octets: the first fault.
    Refused(Fault),
}

impl fmt::Display for NotOutside {
    fn fmt<W: fmt::Write>(&self, f: &mut fmt::Formatter<W>) -> fmt::Result {
        match self {
            NotOutside::InProfile => write!(f, "a packet of the profile"),
            NotOutside::Refused(fault) => write!(f, "{fault}"),
        }
    }
}

impl Error for NotOutside {}

impl<'a> OutsidePacket<'a> {
    /// The packet outside the profile that begins the octets, and its length. Fields are checked in
    /// the order of the wire, each together with those before it. What follows the packet is not
    /// checked.
    ///
    /// - `found`: the prefix of the input of the length that is returned is the encoding of the
    ///   packet that is returned.
    /// - `unusual`: the profile rejects the octets, and `refusal` is its first fault.
    /// - `only`: each packet of the standard is read, whatever octets follow it, unless it is one
    ///   of the profile.
    /// - `profile`: no packet of the profile is outside.
    /// - `reason`: otherwise a packet of the profile begins the octets, or no packet of the
    ///   standard does. The latter is the first fault: its kind, and the octet at which its field
    ///   begins.
    pub fn read(octets: &'a [u8]) -> Result<(OutsidePacket<'a>, usize), NotOutside>
        ensures found { IfOk result (λ x. (x.1 ≤ length octets.now)
            × Encodes (record { fields = x.0.fields; payload = x.0.payload.now })
            (take x.1 octets.now)) }
        ensures unusual { IfOk result (λ x. FirstFault octets.now x.0.refusal) }
        ensures only { (p : Standard) (w rest : List ℕ) → Encodes p w → octets.now ≡ w ++ rest
            → MatchResult result
            (λ x. (record { fields = x.0.fields; payload = x.0.payload.now } ≡ p)
            × (x.1 ≡ length w))
            (λ e. e ≡ NotOutside.InProfile) }
        ensures profile { (p : Pdu) (left : ℕ) (w rest : List ℕ) → EncodesPdu p left w
            → octets.now ≡ w ++ rest → IsErrOf result NotOutside.InProfile }
        ensures reason { IfErr result (λ e. IsReason octets.now e) }
    {
        let Some(refusal) = refusal_of(octets) else {
            return Err(NotOutside::InProfile);
        };
        match read_standard(octets) {
            Ok((fields, payload, length)) => {
                let packet = OutsidePacket {
                    fields,
                    payload,
                    refusal,
                };
                Ok((packet, length))
            }
            Err(fault) => Err(NotOutside::Refused(fault)),
        }
    }
}

/// The first fault by which the profile rejects the octets, or `None` if one of its packets begins
/// them.
fn refusal_of(octets: &[u8]) -> Option<Fault>
    ensures some { IfSome result (λ f. FirstFault octets.now f) }
    ensures none { IfNone result (BeginsInProfile octets.now) }
    ensures only { (p : Pdu) (left : ℕ) (w rest : List ℕ) → EncodesPdu p left w
        → octets.now ≡ w ++ rest → result ≡ None }
{
    match PacketView::read(octets) {
        Ok(_) => None,
        Err(fault) => Some(fault),
    }
}
