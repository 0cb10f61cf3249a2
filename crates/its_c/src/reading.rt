//! The call that reads a frame, for whoever has no station.

ghost use Rattle.std.specs.Prelude.{◌≡◌, ◌≢◌, pos};
ghost use Rattle.its_faults.specs.declared.frame.FrameFault.{FrameFault};
ghost use Rattle.its_model.specs.Packet.{Transmission};
ghost use Rattle.its_linkframe.specs.FrameFaults.{IsFrameFault};
ghost use Rattle.its_linkframe.specs.Frames.{EncodesFrame, IsFrame, transmission_of};
ghost use Rattle.its_c.specs.Arguments.{number_of_shape};
ghost use Rattle.its_c.specs.Frames.{TellsFrame, ShowsMessage, faulty_packet, shown_area};
ghost use Rattle.its_c.specs.Told.{kind_number};

use crate::fault::FaultNumbers;
use crate::layout::{Packet, PacketArea, PacketMessage};
use crate::queries::shown_vector;
use crate::status::{BAD_FRAME, OK};
use its_btp::split;
use its_faults::FrameFault;
use its_geometry::{Area, Shape};
use its_headers::Kind;
use its_linkframe::{FrameView, read_frame};

/// Reads the octets of a frame, and writes all its fields. Refused by S3 for octets that are no
/// frame: their fault is written then, and all else is 0.
#[unsafe(no_mangle)]
pub extern "C" fn geostation_read_frame(frame: &[u8], packet: &mut Packet) -> i32
    ensures fields { (t : Transmission) → EncodesFrame t frame.now →
        (result ≡ pos 0) × TellsFrame frame.now t packet.new }
    ensures frame { result ≡ pos 0 → IsFrame frame.now }
    ensures fault { result ≢ pos 0 → (result ≡ pos 3) × ((fault : FrameFault) ×
        IsFrameFault frame.now fault × (packet.new ≡ faulty_packet fault)) }
{
    match read_frame(frame) {
        Ok(view) => {
            *packet = shown(&view, frame);
            OK
        }
        Err(fault) => {
            *packet = faulty(fault);
            BAD_FRAME
        }
    }
}

/// All fields of a frame.
fn shown(view: &FrameView<'_>, frame: &[u8]) -> Packet
    requires { EncodesFrame (transmission_of view.now) frame.now }
    ensures { TellsFrame frame.now (transmission_of view.now) result }
{
    let packet = &view.packet;
    let hops = packet.hops();
    Packet {
        target: view.to.octets(),
        source: view.from.octets(),
        kind: kind_number(packet.kind()),
        vector: shown_vector(packet.vector()),
        hops_left: hops.left(),
        max_hops: hops.max(),
        lifetime: packet.lifetime().octet(),
        traffic_class: packet.class().octet(),
        mobile: u8::from(packet.mobile()),
        media: packet.media().unwrap_or([0; 4]),
        number: packet.number().unwrap_or(0),
        area: shown_area(packet.area()),
        message: shown_message(view, frame),
        ..Packet::NOTHING
    }
}

/// What the packet brings to a port, and where in the frame that lies.
fn shown_message(view: &FrameView<'_>, frame: &[u8]) -> PacketMessage
    requires { EncodesFrame (transmission_of view.now) frame.now }
    ensures { ShowsMessage frame.now view.now.packet.pdu.body result }
{
    let Ok((port, info, payload)) = split(view.packet.payload()) else {
        return PacketMessage::NOTHING;
    };
    PacketMessage {
        payload_start: frame.len() - payload.len(),
        payload_length: payload.len(),
        port,
        info,
    }
}

/// The area, or zeros.
fn shown_area(area: Option<Area>) -> PacketArea
    ensures { result ≡ shown_area area }
{
    let Some(area) = area else {
        return PacketArea::NOTHING;
    };
    PacketArea {
        latitude: area.centre().lat(),
        longitude: area.centre().lon(),
        a: area.a(),
        b: area.b(),
        angle: area.angle(),
        shape: number_of_shape(area.shape()),
    }
}

/// What is written of octets that are no frame.
fn faulty(fault: FrameFault) -> Packet
    ensures { result ≡ faulty_packet fault }
{
    let numbers = FaultNumbers::of(fault);
    Packet {
        fault: numbers.layer,
        fault_kind: numbers.kind,
        fault_at: numbers.at,
        ..Packet::NOTHING
    }
}

pub(crate) fn kind_number(kind: Kind) -> u32
    ensures { result ≡ kind_number kind }
{
    match kind {
        Kind::Beacon => 1,
        Kind::Shb => 2,
        Kind::Gbc => 3,
        Kind::Gac => 4,
    }
}

fn number_of_shape(shape: Shape) -> u8
    ensures { result ≡ number_of_shape shape }
{
    match shape {
        Shape::Circle => 0,
        Shape::Rectangle => 1,
        Shape::Ellipse => 2,
    }
}
