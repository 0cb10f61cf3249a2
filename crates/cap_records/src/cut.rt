//! The frame of a record that was cut, read up to the cut.

ghost use Rattle.std.specs.Prelude.{◌≤◌, ◌<◌, IfOk};
ghost use Rattle.its_model.specs.Packet.{Transmission};
ghost use Rattle.cap_records.specs.FoundFrames.{IsPlaced};

use crate::choosing::Traits;
use crate::found::FramePlace;
use crate::frame::traits_of;
use crate::refusal::RecordFault;
use cap_pcap::{RecordHeader, frame_start};
use its_headers::Kind;
use its_linkframe::{FrameFault, FrameView, LONGEST_FRAME, PACKET, read_frame};

/// Fields of a packet, from its own first octet (EN 302 636-4-1 clause 9): header type and sub-type,
/// the payload's length, and the lower octets of an area's distances.
const TYPE: usize = 5;

const LENGTH: usize = 8;

const DISTANCE_A: usize = 49;

const DISTANCE_B: usize = 51;

/// Where a beacon, the payload of a single-hop broadcast and that of a packet for an area begin.
const BEACON_END: usize = 36;

const SHB_PAYLOAD: usize = 40;

const AREA_PAYLOAD: usize = 56;

/// Where an area ends, without the reserved octets after it.
const AREA_END: usize = 54;

/// Where the source's address ends in a packet for an area, and in another.
const AREA_ADDRESS_END: usize = 24;

const ADDRESS_END: usize = 20;

/// Where the fields of a packet for an area begin, from the payload length to the last reserved
/// octets. Each field before these has one octet, or half of one.
const AREA_FIELDS: [usize; 17] = [
    LENGTH, 10, 11, 12, 14, 16, 24, 28, 32, 36, 38, 40, 44, 48, 50, 52, 54,
];

/// Where the same fields of other packets begin.
const OTHER_FIELDS: [usize; 10] = [LENGTH, 10, 11, 12, 20, 24, 28, 32, 34, 36];

/// The size of a port, in octets.
const PORT: usize = 2;

/// The fault of a record that was cut before the end of its source's address.
pub(crate) const CUT: RecordFault = RecordFault::Record(cap_pcap::RecordFault::CutFrame);

/// A completed frame, whose last octets were missing. The missing octets, and those of a field that
/// is only partly there, are replaced by those of a packet whose positions, payload and time stamp
/// are 0. So they say nothing.
#[derive(Clone, Copy)]
pub(crate) struct Completed {
    /// How many octets it has.
    pub(crate) length: usize,
    /// How many of these octets come from the record, without those of a field that is only partly
    /// there.
    pub(crate) known: usize,
}

/// Completes the frame of a record that was cut, in this buffer. The record's octets begin with the
/// header of their link layer.
///
/// The fault is that of the link layer's header, or P4 if the record ends before the packet begins.
pub(crate) fn complete_frame(
    head: &RecordHeader,
    octets: &mut Vec<u8>,
    room: &mut [u8; LONGEST_FRAME],
) -> Result<Completed, RecordFault>
    ensures { IfOk result (λ completed. completed.length ≤ 1468) }
{
    let Some(layer) = head.layer else {
        return Err(CUT);
    };
    let start = frame_start(layer, octets)?;
    let known = put_front(&octets.as_slice()[start..], room);
    if known < PACKET {
        return Err(CUT);
    }
    let known = clear_cut_field(room, known);
    let length = complete(room, known);
    Ok(Completed { length, known })
}

/// Copies the octets to the front of the buffer, and fills the rest with 0. Returns how many octets
/// were copied.
fn put_front(octets: &[u8], room: &mut [u8; LONGEST_FRAME]) -> usize
    ensures { result ≤ 1468 }
{
    let known = octets.len().min(room.len());
    room.fill(0);
    room[..known].copy_from_slice(&octets[..known]);
    known
}

/// Replaces the octets of a field that is only partly there by 0, in a frame with `known` octets.
/// Returns how many octets come before that field.
fn clear_cut_field(room: &mut [u8; LONGEST_FRAME], known: usize) -> usize
    requires { (14 ≤ known) × (known ≤ 1468) }
    ensures { result ≤ known }
{
    let start = PACKET + field_start(room[PACKET + TYPE], known - PACKET);
    room[start..known].fill(0);
    start
}

/// Returns where the field with this octet of a packet begins. Each octet of a payload is a field
/// by itself.
fn field_start(kind: u8, octet: usize) -> usize
    ensures { result ≤ octet }
{
    let (fields, end) = match kind / 16 {
        3 | 4 => (AREA_FIELDS.as_slice(), AREA_PAYLOAD),
        _ => (OTHER_FIELDS.as_slice(), SHB_PAYLOAD),
    };
    if octet >= end {
        return octet;
    }
    let start = fields.iter().rev().copied().find(|field| *field <= octet);
    start.unwrap_or(octet).min(octet)
}

/// Completes a frame of which the first `known` octets are there, and returns its length.
fn complete(room: &mut [u8; LONGEST_FRAME], known: usize) -> usize
    ensures { result ≤ 1468 }
{
    let kind = room[PACKET + TYPE];
    let end = match kind / 16 {
        3 | 4 => AREA_PAYLOAD,
        5 => SHB_PAYLOAD,
        _ => BEACON_END,
    };
    if end == AREA_PAYLOAD {
        complete_distance(room, known, PACKET + DISTANCE_A);
        // A circle has no second distance.
        if kind % 16 != 0 {
            complete_distance(room, known, PACKET + DISTANCE_B);
        }
    }
    let payload = u16::from_be_bytes([room[PACKET + LENGTH], room[PACKET + LENGTH + 1]]);
    (PACKET + end + usize::from(payload)).min(LONGEST_FRAME)
}

/// Makes a distance valid, if its lower octet is missing.
fn complete_distance(room: &mut [u8; LONGEST_FRAME], known: usize, place: usize)
    requires { place < 1468 }
{
    if known <= place {
        room[place] = 1;
    }
}

/// A completed frame in a buffer, whose last octets were missing.
#[derive(Clone, Copy)]
pub(crate) struct CutFrame {
    pub(crate) place: FramePlace,
    /// The traits by which it is selected. A port or an area that lacks an octet is left out.
    pub(crate) traits: Traits,
}

/// Reads a completed frame, whose first `known` octets were in the record.
///
/// Returns the first fault of the frame, if the octets at fault were in the record. Returns P4 if
/// the record ends before the end of the source's address.
pub(crate) fn read_front(octets: &[u8], known: usize) -> Result<CutFrame, RecordFault>
    ensures { IfOk result (λ cut. (t : Transmission) × IsPlaced octets.now t cut.place) }
{
    let frame = match read_frame(octets) {
        Ok(frame) => frame,
        Err(fault) => return Err(fault_in_front(fault, octets, known)),
    };
    if known < PACKET + address_end(frame.packet.kind()) {
        return Err(CUT);
    }
    Ok(CutFrame {
        place: FramePlace {
            start: 0,
            end: octets.len(),
        },
        traits: known_traits(&frame, known),
    })
}

/// Returns where the source's address ends in a packet of this kind.
fn address_end(kind: Kind) -> usize
    ensures { result ≤ 24 }
{
    match kind {
        Kind::Beacon | Kind::Shb => ADDRESS_END,
        Kind::Gbc | Kind::Gac => AREA_ADDRESS_END,
    }
}

/// Returns the traits of a frame whose first `known` octets were in the record.
fn known_traits(frame: &FrameView<'_>, known: usize) -> Traits {
    let traits = traits_of(frame);
    let packet = &frame.packet;
    let before = packet.octets().len().saturating_sub(packet.payload().len());
    let end = PACKET.saturating_add(before).saturating_add(PORT);
    Traits {
        port: traits.port.filter(|_| end <= known),
        area: traits.area.filter(|_| PACKET + AREA_END <= known),
        ..traits
    }
}

/// Returns why a frame is rejected whose first `known` octets were in the record.
fn fault_in_front(fault: FrameFault, octets: &[u8], known: usize) -> RecordFault {
    let is_there = match fault {
        FrameFault::EtherType => true,
        FrameFault::Packet(packet) => PACKET.saturating_add(packet.at) < known,
        _ => false,
    };
    if is_there {
        RecordFault::of(fault, octets)
    } else {
        CUT
    }
}
