//! Frames of one's own, and frames sent on.

ghost use Rattle.std.specs.Prelude.{◌≡◌, ◌≤◌, ◌<◌, ◌+◌, ◌^◌, [], length, drop, IfOk, vec_capacity};
ghost use Rattle.its_model.specs.Packet.{Transmission, relay};
ghost use Rattle.its_headers.specs.Encoding.{encoding};
ghost use Rattle.its_headers.specs.Packets.{pdu_of_packet, hops_left};
ghost use Rattle.its_linkframe.specs.Frames.{EncodesFrame, IsFrame, link_header};
ghost use Rattle.its_linkframe.specs.Frames.{transmission_of, sent_packet, sent_from_to};

use crate::fields::{ETHER_TYPE, HOPS_LEFT, PACKET, SOURCE};
use crate::frame::{FrameView, TYPE_HIGH, TYPE_LOW};
use its_gnvalue::{Mac, NoMemory};
use its_headers::{Packet, PacketView, encode_into};
use std::alloc::Global;

/// The frame of a packet. `NoMemory` says that the one allocation, of the frame, failed.
pub fn write_frame(alloc: Global, to: Mac, from: Mac, packet: &Packet) -> Result<Vec<u8>, NoMemory>
    ensures { IfOk result (λ frame. EncodesFrame (sent_packet from to packet.now) frame.items) }
{
    let mut frame = Vec::from_elem(alloc, 0, PACKET + packet.length())?;
    write_parts(frame.as_mut_slice(), to, from, packet);
    Ok(frame)
}

/// The frame in which a packet goes on, with one hop fewer left and other link addresses. The
/// packet has to have at least two hops left. `NoMemory` says that the one allocation, of the
/// frame, failed.
pub fn relay_frame(
    alloc: Global,
    to: Mac,
    from: Mac,
    frame: &FrameView<'_>,
) -> Result<Vec<u8>, NoMemory>
    requires { 2 ≤ frame.now.packet.left }
    ensures { IfOk result
        (λ relayed. EncodesFrame (relay (transmission_of frame.now) from to) relayed.items) }
{
    let packet = &frame.packet;
    let mut relayed = Vec::with_capacity(alloc, PACKET + packet.octets().len())?;
    write_relayed(&mut relayed, to, from, packet);
    Ok(relayed)
}

/// Writes the frame in which a packet goes on into an empty vector that has the room: it takes no
/// memory, and nothing of it can fail.
fn write_relayed(relayed: &mut Vec<u8>, to: Mac, from: Mac, packet: &PacketView<'_>)
    requires left { 2 ≤ packet.now.left }
    requires empty { relayed.old.items ≡ [] }
    requires room { 14 + length (encoding packet.now.pdu packet.now.left)
        ≤ vec_capacity relayed.old }
    ensures { EncodesFrame (relay (sent_from_to 0 0 packet.now) from to) relayed.new.items }
{
    let octets = packet.octets();
    let Ok(()) = relayed.extend_from_slice(&link_header(to, from)) else {
        unreachable!()
    };
    let Ok(()) = relayed.extend_from_slice(octets) else {
        unreachable!()
    };
    relayed[HOPS_LEFT] = packet.hops().left() - 1;
}

/// Gives a frame another target, and changes nothing else. The octets have to be a frame.
///
/// - `target`, `rest`: the frame of the same packet on the air with the new target; the octets from
///   the seventh on are as they were. Its one condition: the octets are a frame.
pub fn retarget(frame: &mut [u8], to: Mac)
    requires { IsFrame frame.old }
    ensures target { (t : Transmission) → EncodesFrame t frame.old
        → EncodesFrame (record t { link_target = to }) frame.new }
    ensures rest { drop 6 frame.new ≡ drop 6 frame.old }
{
    let target = to.octets();
    frame[..SOURCE].copy_from_slice(&target);
}

/// Writes the frame of a packet, which has just the room that it needs.
fn write_parts(frame: &mut [u8], to: Mac, from: Mac, packet: &Packet)
    requires { length frame.old
        ≡ 14 + length (encoding (pdu_of_packet packet.now) (hops_left packet.now)) }
    ensures { EncodesFrame (sent_packet from to packet.now) frame.new }
{
    let header = link_header(to, from);
    frame[..PACKET].copy_from_slice(&header);
    let Ok(_) = encode_into(packet, &mut frame[PACKET..]) else {
        unreachable!()
    };
}

/// Addresses and type, which stand in front of a packet.
pub(crate) fn link_header(to: Mac, from: Mac) -> [u8; PACKET]
    ensures octets { result ≡ link_header to from }
    ensures fits { (to < 2 ^ 48) × (from < 2 ^ 48) }
{
    let mut octets = [0; PACKET];
    octets[..SOURCE].copy_from_slice(&to.octets());
    octets[SOURCE..ETHER_TYPE].copy_from_slice(&from.octets());
    octets[ETHER_TYPE] = TYPE_HIGH;
    octets[ETHER_TYPE + 1] = TYPE_LOW;
    octets
}
