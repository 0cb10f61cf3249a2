//! Packets to octets.

ghost use Rattle.std.specs.Prelude.{◌≡◌, ◌≤◌, ◌<◌, ◌+◌, length, IfOk, IsOk, OnErr};
ghost use Rattle.its_model.specs.Packet.{beacon, shb, geobroadcast, geoanycast};
ghost use Rattle.its_headers.specs.Encoding.{encoding};
ghost use Rattle.its_headers.specs.Fields.{message_of};
ghost use Rattle.its_headers.specs.Packets.{with_body, pdu_of_packet, pdu_for_area, hops_left};
ghost use Rattle.its_headers.specs.Written.{WritesEncoding};

use crate::kind::Kind;
use crate::packet::{AreaPacket, Header, Packet, SingleHopBroadcast};
use crate::wire::area::write_area;
use crate::wire::basic::write_basic;
use crate::wire::common::write_common;
use crate::wire::fields::{
    AREA_PAYLOAD, AREA_RESERVED, AREA_VECTOR, BEACON_END, NUMBER, NUMBER_RESERVED, SHB_PAYLOAD,
    VECTOR, write_u16,
};
use crate::wire::media::write_media;
use crate::wire::payload::write_payload;
use crate::wire::position::write_vector;
use its_geometry::Shape;
use its_gnvalue::NoRoom;

/// Writes the encoding of the packet at the beginning of the slice, and returns its length. The
/// rest of the slice stays; on `NoRoom`, exactly where the slice is too short, all of it does.
pub fn encode_into(packet: &Packet, out: &mut [u8]) -> Result<usize, NoRoom>
    ensures written { IfOk result (λ n. WritesEncoding
        (pdu_of_packet packet.now) (hops_left packet.now) out.old out.new n) }
    ensures room { length (encoding (pdu_of_packet packet.now) (hops_left packet.now))
        ≤ length out.old → IsOk result }
    ensures no_room { OnErr result ((out.new ≡ out.old)
        × (length out.old < length (encoding (pdu_of_packet packet.now) (hops_left packet.now)))) }
{
    if out.len() < packet.length() {
        return Err(NoRoom);
    }
    Ok(match packet {
        Packet::Beacon(header) => write_beacon(header, out),
        Packet::Shb(packet) => write_shb(packet, out),
        Packet::Gbc(packet) => write_area_packet(Kind::Gbc, packet, out),
        Packet::Gac(packet) => write_area_packet(Kind::Gac, packet, out),
    })
}

/// Writes a beacon into a slice with room for it, and returns its length.
fn write_beacon(header: &Header, out: &mut [u8]) -> usize
    requires { 36 ≤ length out.old }
    ensures { WritesEncoding
        (with_body header.now beacon) header.now.hops.left out.old out.new result }
{
    write_basic(out, header);
    write_common(out, header, Kind::Beacon, Shape::Circle, 0);
    write_vector(out, VECTOR, header.vector);
    BEACON_END
}

/// Writes a single-hop broadcast into a slice with room for it, and returns its length.
fn write_shb(packet: &SingleHopBroadcast, out: &mut [u8]) -> usize
    requires { length
        (encoding (with_body packet.now.header
        (shb packet.now.media (message_of packet.now.payload)))
        packet.now.header.hops.left) ≤ length out.old }
    ensures { WritesEncoding
        (with_body packet.now.header (shb packet.now.media (message_of packet.now.payload)))
        packet.now.header.hops.left out.old out.new result }
{
    let size = packet.payload.octets().len() as u16;
    write_basic(out, &packet.header);
    write_common(out, &packet.header, Kind::Shb, Shape::Circle, size);
    write_vector(out, VECTOR, packet.header.vector);
    write_media(out, packet.media);
    write_payload(out, SHB_PAYLOAD, &packet.payload)
}

/// Writes a packet for an area, of this kind, into a slice with room for it, and returns its
/// length.
fn write_area_packet(kind: Kind, packet: &AreaPacket, out: &mut [u8]) -> usize
    requires { 56 + length packet.now.payload ≤ length out.old }
    ensures gbc { kind ≡ Kind.Gbc → WritesEncoding (pdu_for_area geobroadcast packet.now)
        packet.now.header.hops.left out.old out.new result }
    ensures gac { kind ≡ Kind.Gac → WritesEncoding (pdu_for_area geoanycast packet.now)
        packet.now.header.hops.left out.old out.new result }
{
    let size = packet.payload.octets().len() as u16;
    write_basic(out, &packet.header);
    write_common(out, &packet.header, kind, packet.area.shape(), size);
    write_u16(out, NUMBER, packet.number);
    write_u16(out, NUMBER_RESERVED, 0);
    write_vector(out, AREA_VECTOR, packet.header.vector);
    write_area(out, packet.area);
    write_u16(out, AREA_RESERVED, 0);
    write_payload(out, AREA_PAYLOAD, &packet.payload)
}
