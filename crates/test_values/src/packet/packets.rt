//! Packets of typed values are written, octet for octet, and compared; payloads; what goes on.

use crate::packet::vectors::{BEACON, ENDS, GAC, GBC, SHB};
use its_geometry::Area;
use its_gnvalue::{GnAddress, Hops, Lifetime, LongPv, NoRoom, Place, TrafficClass};
use its_headers::{
    AreaPacket, Header, LONGEST_PAYLOAD, Packet, PacketView, Payload, SHORTEST_PAYLOAD,
    SingleHopBroadcast, decode, encode_into, relay_into,
};
use std::alloc::Global;
use test_support::put;

/// Port 2002, info 0 and `hi`.
static HI: [u8; 6] = [7, 0xd2, 0, 0, 0x68, 0x69];

/// The vector of a station at (0, 0).
fn vector() -> Option<LongPv> {
    let address = GnAddress::from_u64(0x1400_0200_0000_0001).ok()?;
    LongPv::new(address, 0, Place::new(0, 0).ok()?, false, 0, 0).ok()
}

/// The header of a packet with so many hops, all of them left.
fn header(hops: u8) -> Option<Header> {
    Some(Header {
        hops: Hops::new(hops, hops)?,
        lifetime: Lifetime::from_octet(0x1a),
        class: TrafficClass::from_octet(0),
        mobile: true,
        vector: vector()?,
    })
}

/// The payload of these packets.
fn hi(alloc: Global) -> Option<Payload> {
    let octets = Vec::from_slice(alloc, &HI).ok()?;
    Payload::new(octets).ok()
}

/// A single-hop broadcast.
fn single_hop(alloc: Global) -> Option<Packet> {
    Some(Packet::Shb(SingleHopBroadcast {
        header: header(1)?,
        media: [1, 2, 0xfe, 0xff],
        payload: hi(alloc)?,
    }))
}

/// What a geobroadcast and a geoanycast have for the circle of 100 m at (0, 0).
fn for_area(alloc: Global) -> Option<AreaPacket> {
    Some(AreaPacket {
        header: header(10)?,
        number: 0,
        area: Area::circle(Place::new(0, 0).ok()?, 100).ok()?,
        payload: hi(alloc)?,
    })
}

/// What the writing of a packet answers that has so much room, 80 octets at most, and what stands
/// in those 80 then, which were sevens.
fn written(packet: &Packet, room: usize) -> (Result<usize, NoRoom>, [u8; 80]) {
    let mut all = [7; 80];
    let answer = match all.get_mut(..room) {
        Some(place) => encode_into(packet, place),
        None => Err(NoRoom),
    };
    (answer, all)
}

/// The octets, and sevens behind them.
fn before_sevens(octets: &[u8]) -> [u8; 80] {
    let mut all = [7; 80];
    put(&mut all, 0, octets);
    all
}

/// Whether the packet is written as these octets and no further, and into no shorter slice.
fn is_written(packet: &Packet, octets: &[u8]) -> bool {
    let size = octets.len();
    packet.length() == size
        && written(packet, 80) == (Ok(size), before_sevens(octets))
        && written(packet, size.saturating_sub(1)) == (Err(NoRoom), [7; 80])
}

/// Whether there is a packet, and it is written so.
fn is_made(packet: Option<Packet>, octets: &[u8]) -> bool {
    match packet {
        Some(packet) => is_written(&packet, octets),
        None => false,
    }
}

/// A geobroadcast and a geoanycast differ in the header type alone.
#[test]
fn typed_packets_are_written(rt: HostRuntime) {
    let alloc = rt.alloc();
    assert!(rt; is_made(header(1).map(Packet::Beacon), &BEACON));
    assert!(rt; is_made(single_hop(alloc), &SHB));
    assert!(rt; is_made(for_area(alloc).map(Packet::Gbc), &GBC));
    assert!(rt; is_made(for_area(alloc).map(Packet::Gac), &GAC));
}

/// The packet that begins the octets.
fn decoded(alloc: Global, octets: &[u8]) -> Option<Packet> {
    let (packet, _) = decode(alloc, octets).ok()?;
    Some(packet)
}

/// What was decoded is written as it was.
#[test]
fn decoded_packets_are_written(rt: HostRuntime) {
    for octets in [BEACON.as_slice(), &SHB, &GBC, &GAC, &ENDS] {
        assert!(rt; is_made(decoded(rt.alloc(), octets), octets));
    }
}

/// Media octets, which no line tells.
#[test]
fn media_are_read(rt: HostRuntime) {
    let media = match PacketView::read(&SHB) {
        Ok((view, _)) => view.media(),
        Err(_) => None,
    };
    assert!(rt; media == Some([1, 2, 0xfe, 0xff]));
}

/// Whether these octets are another packet than the geobroadcast.
fn is_other(alloc: Global, octets: &[u8]) -> bool {
    decoded(alloc, octets) != decoded(alloc, &GBC)
}

/// The geobroadcast with one bit turned, and an octet behind it.
fn with_other(at: usize) -> [u8; 63] {
    let mut octets = [0; 63];
    put(&mut octets, 0, &GBC);
    if at < octets.len() {
        octets[at] ^= 1;
    }
    octets
}

/// Packets are equal where all that they say is.
#[test]
fn equal_packets(rt: HostRuntime) {
    assert!(rt; !is_other(rt.alloc(), &GBC));
    assert!(rt; is_other(rt.alloc(), &GAC));
    for at in [2, 9, 13, 49, 61] {
        assert!(rt; is_other(rt.alloc(), &with_other(at)), "octet {at}");
    }
}

/// Whether so many octets are a payload, and how many it has and gives back, or are given back in
/// its place.
fn made_of(alloc: Global, size: usize) -> Option<(bool, usize, usize)> {
    Some(match Payload::new(Vec::from_elem(alloc, 0, size).ok()?) {
        Ok(payload) => (true, payload.octets().len(), payload.into_octets().len()),
        Err(octets) => (false, octets.len(), octets.len()),
    })
}

#[test]
fn payloads(rt: HostRuntime) {
    assert!(rt; (SHORTEST_PAYLOAD, LONGEST_PAYLOAD) == (4, 1398));
    for (size, fits) in [
        (0, false),
        (3, false),
        (4, true),
        (1398, true),
        (1399, false),
    ] {
        assert!(rt;
            made_of(rt.alloc(), size) == Some((fits, size, size)),
            "{size}"
        );
    }
}

/// What the relaying of a packet answers that has so much room, 80 octets at most, and what stands
/// in those 80 then, which were sevens.
fn relayed(packet: &[u8], room: usize) -> Option<(Result<usize, NoRoom>, [u8; 80])> {
    let (view, _) = PacketView::read(packet).ok()?;
    let mut all = [7; 80];
    if view.hops().left() < 2 {
        return None;
    }
    let answer = relay_into(&view, all.get_mut(..room)?);
    Some((answer, all))
}

/// The geoanycast with one hop fewer, and sevens behind it.
fn gac_on_its_way() -> [u8; 80] {
    let mut all = before_sevens(&GAC);
    put(&mut all, 3, &[9]);
    all
}

/// A packet goes on in as many octets as it has, and in no fewer.
#[test]
fn one_octet_changes(rt: HostRuntime) {
    assert!(rt; relayed(&GAC, 64) == Some((Ok(62), gac_on_its_way())));
    assert!(rt; relayed(&GAC, 61) == Some((Err(NoRoom), [7; 80])));
}
