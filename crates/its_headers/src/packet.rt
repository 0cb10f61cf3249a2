//! Packets that own what they say.

ghost use Rattle.std.specs.Prelude.{◌≡◌, ◌≤◌, length};
ghost use Rattle.its_headers.specs.Encoding.{encoding};
ghost use Rattle.its_headers.specs.Packets.{pdu_of_packet, hops_left};

use crate::payload::Payload;
use crate::wire::fields::{AREA_PAYLOAD, BEACON_END, MEDIA};
use its_geometry::Area;
use its_gnvalue::{Hops, Lifetime, LongPv, TrafficClass};

/// What each packet has (EN 302 636-4-1 clause 9).
#[derive(Clone, Copy, Debug, PartialEq, Eq)]
pub struct Header {
    /// The hops that are left (RHL), and how many there were at most (MHL).
    pub hops: Hops,
    /// How long the packet lives (LT).
    pub lifetime: Lifetime,
    /// Its traffic class (TC).
    pub class: TrafficClass,
    /// Whether the source is mobile.
    pub mobile: bool,
    /// The source's address, place and movement.
    pub vector: LongPv,
}

/// A packet to all neighbours (SHB, EN 302 636-4-1 clause 9).
#[derive(Debug, Drop, PartialEq, Eq)]
pub struct SingleHopBroadcast {
    /// What each packet has.
    pub header: Header,
    /// Media-dependent data, carried as it is; whoever originates the packet writes zeros
    /// (profile).
    pub media: [u8; 4],
    /// What is sent: a BTP-B header and its payload.
    pub payload: Payload,
}

/// What a geobroadcast and a geoanycast have: a packet to stations in an area (EN 302 636-4-1
/// clause 9).
#[derive(Debug, Drop, PartialEq, Eq)]
pub struct AreaPacket {
    /// What each packet has.
    pub header: Header,
    /// The sequence number that its source gave it.
    pub number: u16,
    /// Where it is to go.
    pub area: Area,
    /// What is sent: a BTP-B header and its payload.
    pub payload: Payload,
}

/// A packet that owns its payload (EN 302 636-4-1 clause 9).
#[derive(Debug, Drop, PartialEq, Eq)]
pub enum Packet {
    /// Tells the neighbours of a station, and nothing more.
    Beacon(Header),
    /// A single-hop broadcast.
    Shb(SingleHopBroadcast),
    /// A geobroadcast (GBC), to all stations in an area.
    Gbc(AreaPacket),
    /// A geoanycast (GAC), to one station in an area.
    Gac(AreaPacket),
}

impl Packet {
    /// How many octets its encoding has: 36 for a beacon, 40 and those of the payload for a
    /// single-hop broadcast, and 56 and those of the payload for a geobroadcast or geoanycast.
    pub fn length(&self) -> usize
        ensures value { result ≡ length (encoding (pdu_of_packet self.now) (hops_left self.now)) }
        ensures bound { result ≤ 1454 }
    {
        match self {
            Packet::Beacon(_) => BEACON_END,
            Packet::Shb(packet) => {
                MEDIA + media_length(&packet.media) + packet.payload.octets().len()
            }
            Packet::Gbc(packet) | Packet::Gac(packet) => {
                AREA_PAYLOAD + packet.payload.octets().len()
            }
        }
    }
}

/// Always 4, and so the list of the media-dependent data has 4 too.
fn media_length(media: &[u8; 4]) -> usize
    ensures value { result ≡ length media.now }
    ensures four { result ≡ 4 }
{
    media.len()
}
