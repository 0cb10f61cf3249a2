//! Frames that the standard defines (EN 302 636-4-1 clause 9) and the profile does not support.

ghost use Rattle.std.specs.Prelude.{◌≡◌, ◌≤◌, ◌+◌, ◌↔◌, All, false, IfNone, IfSome, IsFalse, IsTrue, length, take, drop};
ghost use Rattle.byteorder.specs.Endian.{big_number};
ghost use Rattle.cap_records.specs.OutsideFrames.{EndsAt, IsNotOutside, IsOutsideAt};
ghost use Rattle.cap_records.specs.OutsideFrames.{IsOutsideFrame};
ghost use Rattle.cap_records.specs.OutsideFrames.{StandardFrame, is_padded, outside_traits};
ghost use Rattle.cap_records.specs.OutsideFrames.{area_of, area_said, circle_said, is_circle};
ghost use Rattle.cap_records.specs.OutsideFrames.{place_said, turned_said};
ghost use Rattle.cap_records.specs.OutsideFrames.{number_of, port_of_btp, standard_of};
ghost use Rattle.its_outside.specs.Outside.{btp_of};

use crate::choosing::Traits;
use crate::refusal::RecordFault;
use cap_pcap::LinkLayer;
use its_geometry::{Area, Shape};
use its_gnvalue::{Mac, Place};
use its_linkframe::PACKET;
use its_outside::{AreaFields, BtpHeader, ExtendedFields, Fields, OutsidePacket, btp_header};

/// Positions in a frame: its target, its source and its type.
const TARGET: usize = 0;

const SOURCE: usize = 6;

const TYPE: usize = 12;

/// The type of GeoNetworking.
const TYPE_HIGH: u8 = 0x89;

const TYPE_LOW: u8 = 0x47;

/// The length to which Ethernet pads short frames.
const SHORTEST: usize = 60;

/// A frame that the standard defines and the profile does not support.
#[derive(Clone, Copy, Debug)]
pub struct OutsideFrame<'a> {
    /// The link address that it is sent to.
    pub to: Mac,
    /// The link address of its sender.
    pub from: Mac,
    /// All fields of its packet, except the payload.
    pub fields: Fields,
    /// What follows the extended header.
    pub payload: &'a [u8],
    /// How many octets it has.
    pub length: usize,
    /// All its octets.
    pub octets: &'a [u8],
    /// Why a station rejects it. Lines show the code.
    pub fault: RecordFault,
}

/// Whether Ethernet pads the frames of this link layer.
pub(crate) fn is_filled(layer: LinkLayer) -> bool
    ensures { result ≡ is_padded layer }
{
    match layer {
        LinkLayer::Ethernet | LinkLayer::Sll | LinkLayer::Sll2 => true,
        LinkLayer::Bare | LinkLayer::Ieee80211 | LinkLayer::Radiotap => false,
    }
}

/// Returns how many of these octets a frame outside the profile has. Padding may follow it.
pub(crate) fn outside_length(octets: &[u8], padded: bool) -> Option<usize>
    ensures found { IfSome result (λ n. (s : StandardFrame)
        × IsOutsideAt padded octets.now n s) }
    ensures none { IfNone result (IsNotOutside padded octets.now) }
{
    if octets.len() < PACKET {
        return None;
    }
    if octets[TYPE] != TYPE_HIGH || octets[TYPE + 1] != TYPE_LOW {
        return None;
    }
    let end = match OutsidePacket::read(&octets[PACKET..]) {
        Ok((_, length)) => PACKET + length,
        Err(_) => return None,
    };
    if ends_at(octets, end, padded) {
        Some(end)
    } else {
        None
    }
}

/// Whether a frame that ends at `end` fills these octets, alone or with padding.
fn ends_at(octets: &[u8], end: usize, padded: bool) -> bool
    requires { end ≤ length octets.now }
    ensures yes { IsTrue result → EndsAt padded octets.now end }
    ensures no { IsFalse result → ¬ EndsAt padded octets.now end }
{
    if end == octets.len() {
        return true;
    }
    padded && octets.len() <= SHORTEST && are_zero(&octets[end..])
}

/// Whether the octets are all 0.
fn are_zero(octets: &[u8]) -> bool
    ensures { IsTrue result ↔ All (λ b. b ≡ 0) octets.now }
{
    octets.iter().all(|octet| *octet == 0)
}

impl<'a> OutsideFrame<'a> {
    /// Returns the frame in these octets, which a station rejects with this fault. It was found
    /// before.
    pub(crate) fn of_frame(octets: &'a [u8], fault: RecordFault) -> OutsideFrame<'a>
        requires { (s : StandardFrame) × IsOutsideFrame octets.now s }
        ensures frame { IsOutsideFrame octets.now (standard_of result) }
        ensures length { result.length ≡ length octets.now }
        ensures octets { result.octets.now ≡ octets.now }
        ensures fault { result.fault ≡ fault }
    {
        let Ok((packet, _)) = OutsidePacket::read(&octets[PACKET..]) else {
            unreachable!()
        };
        OutsideFrame {
            to: mac_at(octets, TARGET),
            from: mac_at(octets, SOURCE),
            fields: packet.fields,
            payload: packet.payload,
            length: octets.len(),
            octets,
            fault,
        }
    }

    /// Returns what the frame is selected by.
    pub fn traits(&self) -> Traits
        ensures { result ≡ outside_traits (standard_of self.now) }
    {
        Traits {
            kind: self.fields.extended.kind(),
            source: self.fields.source.address,
            from: self.from,
            to: self.to,
            port: self.port(),
            left: self.fields.basic.left,
            class: self.fields.common.class.octet(),
            number: number_of(&self.fields.extended),
            area: area_of(&self.fields.extended),
        }
    }

    /// Returns the BTP header at the beginning of the payload, if there is one.
    pub fn btp(&self) -> Option<BtpHeader>
        ensures { result ≡ btp_of self.now.fields.common.next self.now.payload.now }
    {
        btp_header(self.fields.common.next, self.payload)
    }

    /// Returns the destination port, if the payload begins with a BTP header.
    pub fn port(&self) -> Option<u16>
        ensures { result ≡ port_of_btp
            (btp_of self.now.fields.common.next self.now.payload.now) }
    {
        match self.btp() {
            Some(BtpHeader::A(destination, _) | BtpHeader::B(destination, _)) => Some(destination),
            None => None,
        }
    }
}

/// Returns what the frame outside the profile in these octets is selected by. A station rejects it
/// with this fault.
pub(crate) fn traits_of_outside(octets: &[u8], fault: RecordFault) -> Traits
    requires { (s : StandardFrame) × IsOutsideFrame octets.now s }
    ensures { (s : StandardFrame) → IsOutsideFrame octets.now s → result ≡ outside_traits s }
{
    let frame = OutsideFrame::of_frame(octets, fault);
    frame.traits()
}

/// Returns the sequence number, if the packet has one.
fn number_of(extended: &ExtendedFields) -> Option<u16>
    ensures { result ≡ number_of extended.now }
{
    match extended {
        ExtendedFields::Guc(sequence, _)
        | ExtendedFields::Gac(sequence, _)
        | ExtendedFields::Gbc(sequence, _)
        | ExtendedFields::Tsb(sequence)
        | ExtendedFields::LsRequest(sequence, _)
        | ExtendedFields::LsReply(sequence, _) => Some(sequence.number),
        ExtendedFields::Beacon | ExtendedFields::Shb(_) => None,
    }
}

/// Returns the destination area, if the packet has one whose values are in range.
fn area_of(extended: &ExtendedFields) -> Option<Area>
    ensures { result ≡ area_of extended.now }
{
    match extended {
        ExtendedFields::Gac(_, area) | ExtendedFields::Gbc(_, area) => area_said(area),
        _ => None,
    }
}

/// Returns the area of these fields, if all are in range. A circle has only a radius.
fn area_said(fields: &AreaFields) -> Option<Area>
    ensures { result ≡ area_said fields.now }
{
    let centre = place_said(fields.latitude, fields.longitude)?;
    match fields.shape {
        Shape::Circle => circle_said(centre, fields.a),
        Shape::Rectangle | Shape::Ellipse => turned_said(centre, fields),
    }
}

/// Returns the position with this latitude and longitude, if they are in range.
fn place_said(latitude: i32, longitude: i32) -> Option<Place>
    ensures { result ≡ place_said latitude longitude }
{
    if latitude < -900_000_000 || latitude > 900_000_000 {
        return None;
    }
    if longitude < -1_800_000_000 || longitude > 1_800_000_000 {
        return None;
    }
    Some(Place::within(latitude, longitude))
}

/// Returns the circle with this radius, if the radius is not 0.
fn circle_said(centre: Place, radius: u16) -> Option<Area>
    ensures { result ≡ circle_said centre radius }
{
    if radius == 0 {
        return None;
    }
    Some(Area::within(Shape::Circle, centre, radius, 0, 0))
}

/// Returns the rectangle or ellipse of these fields around this centre, if they are in range.
fn turned_said(centre: Place, fields: &AreaFields) -> Option<Area>
    requires { is_circle fields.now.shape ≡ false }
    ensures { result ≡ turned_said centre fields.now }
{
    if fields.a == 0 || fields.b == 0 || fields.angle > 359 {
        return None;
    }
    Some(Area::within(fields.shape, centre, fields.a, fields.b, fields.angle))
}

/// Returns the link address that begins at this octet.
fn mac_at(octets: &[u8], at: usize) -> Mac
    requires { at + 6 ≤ length octets.now }
    ensures { result ≡ big_number 6 (take 6 (drop at octets.now)) }
{
    let mut address = [0; 6];
    address.copy_from_slice(&octets[at..at + 6]);
    Mac::from_octets(address)
}
