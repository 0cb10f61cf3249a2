//! The form of an own packet (EN 302 636-4-1 clause 9, EN 302 636-5-1).

ghost use Rattle.std.specs.Prelude.{◌≡◌, ℕ, List, drop, slice_get, IsTrue};
ghost use Rattle.its_duties.specs.Seen.{Seen, AreRead, is_number, number_at, named_source};
ghost use Rattle.its_duties.specs.Verdicts.{is_fail, is_over_long, breaks_form, is_next_secured};
ghost use Rattle.its_duties.specs.Verdicts.{is_secured_fault, breaks_frame, form_verdict};
ghost use Rattle.its_duties.specs.Verdicts.{IsFormVerdict};
ghost use Rattle.its_duties.specs.Duties.{IsSentRecord, NoScenario};

use crate::claims::Claims;
use crate::octets::{named_source, octet_at, packet_of, u16_at};
use crate::verdict::{Breach, Doubt, Verdict};
use its_faults::{FaultKind, FrameFault};
use its_gnvalue::GnAddress;
use its_linkframe::read_frame;

/// The first octet of a secured packet: version 1, and the next header 2.
const SECURED: u8 = 0x12;

/// The longest payload of the profile, with its BTP-B header.
const LONGEST: u16 = 1398;

/// Returns the verdict on the octets of a record that the station sent: do they have the form of a
/// packet? They pass if they are a frame of the profile. They fail if they name the station as
/// their source and have a fault that no kind of packet excuses: G1, G2, G4, G5, or G9 to G12, but
/// for a payload that is longer than the profile's. Otherwise it isn't known. `cut`: the record
/// doesn't have all octets of the frame.
///
/// - `verdict`: the verdict is that of the first fault.
/// - `fail_is_proof`: if it is a fail, no scenario explains a capture with a record of these octets
///   that the station sent.
pub fn judge_form(claims: &Claims, cut: bool, octets: &[u8]) -> Verdict
    ensures verdict { IsFormVerdict claims.now.address cut octets.now result }
    ensures fail_is_proof { (tap : List Seen) (i : ℕ) (r : Seen) → AreRead tap
        → IsSentRecord claims.now tap i r → r.cut ≡ cut → r.octets ≡ octets.now
        → IsTrue (is_fail result) → NoScenario claims.now tap }
{
    form_of(claims.address, cut, octets)
}

/// The verdict on octets that may be a frame.
fn form_of(address: GnAddress, cut: bool, octets: &[u8]) -> Verdict
    ensures { IsFormVerdict address cut octets.now result }
{
    if cut {
        return Verdict::Inconclusive(Doubt::Cut);
    }
    match read_frame(octets) {
        Ok(_) => Verdict::Pass,
        Err(fault) => judge_fault(address, octets, fault),
    }
}

/// The verdict on octets with this first fault.
fn judge_fault(address: GnAddress, octets: &[u8], fault: FrameFault) -> Verdict
    ensures value { result ≡ form_verdict address octets.now fault }
    ensures no_pass { result ≡ Verdict.Pass → ⊥ }
    ensures no_cut { result ≡ Verdict.Inconclusive Doubt.Cut → ⊥ }
{
    if is_secured_fault(fault, octets) {
        return Verdict::Inconclusive(Doubt::OutsideProfile(fault));
    }
    if !is_named(address, octets) {
        return Verdict::Inconclusive(Doubt::NotRead(fault));
    }
    if breaks_frame(fault, octets) {
        return Verdict::Fail(Breach::Form(fault));
    }
    Verdict::Inconclusive(Doubt::OutsideProfile(fault))
}

/// Whether the octets name this source.
pub(crate) fn is_named(address: GnAddress, octets: &[u8]) -> bool
    ensures { result ≡ is_number address (named_source octets.now) }
{
    match named_source(octets) {
        Some(named) => named == address.as_u64(),
        None => false,
    }
}

/// Whether the fault is that the packet is secured.
#[tactic(auto, unfolding(crate::specs::Verdicts::is_secured_fault))]
fn is_secured_fault(fault: FrameFault, octets: &[u8]) -> bool
    ensures { result ≡ is_secured_fault fault octets.now }
{
    match fault {
        FrameFault::Packet(fault) => is_next_secured(fault.kind, packet_of(octets)),
        FrameFault::Short | FrameFault::EtherType | FrameFault::TooLong | FrameFault::Trailing =>
            false,
    }
}

/// Whether the fault is that the next header of the Basic Header is a secured packet.
fn is_next_secured(kind: FaultKind, packet: &[u8]) -> bool
    ensures { result ≡ is_next_secured kind packet.now }
{
    match kind {
        FaultKind::BasicNext => match octet_at(packet, 0) {
            Some(first) => first == SECURED,
            None => false,
        },
        FaultKind::Truncated
        | FaultKind::Version
        | FaultKind::Reserved
        | FaultKind::HopZero
        | FaultKind::CommonNext
        | FaultKind::HeaderType
        | FaultKind::SubType
        | FaultKind::HopAboveMax
        | FaultKind::PayloadLength
        | FaultKind::Position
        | FaultKind::Area => false,
    }
}

/// Whether the fault is one of a packet that no station sends.
#[tactic(auto, unfolding(crate::specs::Verdicts::breaks_frame))]
fn breaks_frame(fault: FrameFault, octets: &[u8]) -> bool
    ensures { result ≡ breaks_frame fault octets.now }
{
    match fault {
        FrameFault::Packet(fault) => breaks_form(fault.kind, packet_of(octets)),
        FrameFault::Short | FrameFault::EtherType | FrameFault::TooLong | FrameFault::Trailing =>
            false,
    }
}

/// Whether the fault is one of a packet that no station sends, by its kind.
fn breaks_form(kind: FaultKind, packet: &[u8]) -> bool
    ensures { result ≡ breaks_form kind packet.now }
{
    match kind {
        FaultKind::Truncated
        | FaultKind::Version
        | FaultKind::Reserved
        | FaultKind::HopZero
        | FaultKind::HopAboveMax
        | FaultKind::Position
        | FaultKind::Area => true,
        FaultKind::PayloadLength => !is_over_long(packet),
        FaultKind::BasicNext | FaultKind::CommonNext | FaultKind::HeaderType | FaultKind::SubType =>
            false,
    }
}

/// Whether the payload is longer than those of the profile.
fn is_over_long(packet: &[u8]) -> bool
    ensures { result ≡ is_over_long (number_at 8 2 packet.now) }
{
    match u16_at(packet, 8) {
        Some(length) => LONGEST < length,
        None => false,
    }
}
