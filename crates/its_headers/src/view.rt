//! A packet read in place.

ghost use Rattle.std.specs.Prelude.{◌≡◌, ◌≤◌, ◌<◌, ◌+◌, ◌++◌, ℕ, List, length, take, IfOk, IfErr};
ghost use Rattle.std.specs.Prelude.{IsOkAnd, OnErr};
ghost use Rattle.its_model.specs.Packet.{Pdu, number_in};
ghost use Rattle.its_headers.specs.Encoding.{Encodes, payload_of};
ghost use Rattle.its_headers.specs.Fields.{kind_of_body, shape_of_body, vector_place, IsLength};
ghost use Rattle.its_headers.specs.Fields.{media_in, area_in, SaysMessage, IsForArea};
ghost use Rattle.its_headers.specs.Packets.{pdu_of_packet, hops_left, IsHeaderOf, IsAreaPacketOf};
ghost use Rattle.its_headers.specs.Decoding.{HasPayload};
ghost use Rattle.its_headers.specs.FirstFault.{FirstFault};
ghost use Rattle.its_headers.specs.Inner.{inner_octets};
ghost use Rattle.its_headers.specs.Seen.{IsEncoding, basic_of};

use crate::kind::Kind;
use crate::packet::{AreaPacket, Header, Packet, SingleHopBroadcast};
use crate::payload::Payload;
use crate::wire::area::area_in;
use crate::wire::basic::BasicHeader;
use crate::wire::common::{is_mobile, kind_of, shape_of};
use crate::wire::fields::{
    AREA_PAYLOAD, AREA_VECTOR, BASIC_END, CLASS, FLAGS, MAX_HOPS, NUMBER, SHB_PAYLOAD, TYPE,
    VECTOR, octet_in, u16_in,
};
use crate::wire::media::media_in;
use crate::wire::octets::{Head, InOnePiece, Octets};
use crate::wire::position::vector_in;
use crate::wire::{packet_end, plain_end};
use its_faults::Fault;
use its_geometry::{Area, Shape};
use its_gnvalue::{Hops, Lifetime, LongPv, NoMemory, TrafficClass};
use std::alloc::Global;
use std::marker::Model;

/// A packet in the octets that it was read from, in one piece or behind a Basic Header that is
/// elsewhere (`InnerPacketView`). By its type they are an encoding. Contracts see the packet and the
/// hops that it has left.
#[derive(Debug, Drop)]
pub struct PacketView<'a, H: Head = InOnePiece> {
    octets: Octets<'a, H>,
}

/// The inner packet of a secured packet (profile): its Basic Header is that of the secured packet
/// with another next header, and its plain part comes from a security entity.
pub type InnerPacketView<'a> = PacketView<'a, BasicHeader>;

impl<'a, H: Head> Model for PacketView<'a, H> {
    ghost use Rattle.its_headers.specs.Seen.{Seen, seen_of, IsEncoding};

    ghost Value = { Seen };

    ghost view = { λ v. seen_of v.octets };

    ghost invariant = { λ v. IsEncoding v.octets };
}

impl<'a> PacketView<'a> {
    /// The packet that begins the octets, and its length, or the first fault: fields are checked in
    /// the order of the wire, each together with those before it. What follows the packet is not
    /// checked.
    ///
    /// - `found`: what is read is a packet (BEACON, SHB, GBC or GAC) whose encoding is the prefix
    ///   of the input of the length that is returned, and the view says that packet and its hops
    ///   left.
    /// - `only`: each encoding is read, whatever octets follow it, as its own packet and with its
    ///   own length.
    /// - `fault`: otherwise the answer is the first fault: its kind, and the octet at which its
    ///   field begins.
    #[inline(always)]
    pub fn read(octets: &'a [u8]) -> Result<(PacketView<'a>, usize), Fault>
        ensures found { IfOk result
            (λ x. (x.1 ≤ length octets.now) × Encodes x.0.pdu x.0.left (take x.1 octets.now)) }

        // Each packet is read, whatever follows it.
        ensures only { (p : Pdu) (left : ℕ) (w rest : List ℕ) → Encodes p left w
            → octets.now ≡ w ++ rest
            → IsOkAnd result (λ x. (x.0 ≡ record { pdu = p; left = left }) × (x.1 ≡ length w)) }
        ensures fault { IfErr result (λ f. FirstFault octets.now f) }
    {
        let length = packet_end(octets)?;
        let view = PacketView {
            octets: Octets {
                head: InOnePiece,
                rest: &octets[..length],
            },
        };
        Ok((view, length))
    }

    /// The packet of octets that were read before: nothing is checked again. For a frame that many
    /// stations receive.
    #[inline(always)]
    pub fn of_encoding(octets: &'a [u8]) -> PacketView<'a>
        requires { IsEncoding octets.now }
        ensures { Encodes result.pdu result.left octets.now }
    {
        PacketView {
            octets: Octets {
                head: InOnePiece,
                rest: octets,
            },
        }
    }

    /// The octets of the packet, and nothing else.
    pub fn octets(&self) -> &'a [u8]
        ensures { Encodes self.now.pdu self.now.left result.now }
    {
        self.octets.whole()
    }
}

impl<'a> PacketView<'a, BasicHeader> {
    /// The packet that the header and the plain part's first octets are, and its length, or the
    /// first fault, as `PacketView::read` answers of the two put together: faults and length are
    /// counted in the inner packet, from its Basic Header on. What follows the packet is not
    /// checked.
    #[inline(always)]
    pub fn read_behind(
        basic: BasicHeader,
        plain: &'a [u8],
    ) -> Result<(InnerPacketView<'a>, usize), Fault>
        ensures found { IfOk result (λ x. (x.1 ≤ 4 + length plain.now)
            × Encodes x.0.pdu x.0.left (take x.1 (inner_octets basic plain.now))) }

        // Each packet is read, whatever follows it.
        ensures only { (p : Pdu) (left : ℕ) (w rest : List ℕ) → Encodes p left w
            → inner_octets basic plain.now ≡ w ++ rest
            → IsOkAnd result (λ x. (x.0 ≡ record { pdu = p; left = left }) × (x.1 ≡ length w)) }
        ensures fault { IfErr result (λ f. FirstFault (inner_octets basic plain.now) f) }
    {
        let octets = Octets {
            head: basic,
            rest: plain,
        };
        let end = plain_end(&octets, basic.left())?;
        let view = PacketView {
            octets: Octets {
                head: basic,
                rest: &plain[..end - BASIC_END],
            },
        };
        Ok((view, end))
    }
}

impl<'a, H: Head> PacketView<'a, H> {
    /// What its Basic Header says.
    #[inline(always)]
    pub fn basic(&self) -> BasicHeader
        ensures { result ≡ basic_of self.now }
    {
        self.octets.basic()
    }

    /// The plain part of the packet: what follows its Basic Header, for a security entity to sign.
    pub fn plain(&self) -> &'a [u8]
        ensures { Encodes self.now.pdu self.now.left (inner_octets (basic_of self.now) result.now) }
    {
        self.octets.behind(BASIC_END)
    }

    /// The kind of the packet.
    #[inline(always)]
    pub fn kind(&self) -> Kind
        ensures { result ≡ kind_of_body self.now.pdu.body }
    {
        kind_of(octet_in(&self.octets, TYPE) / 16)
    }

    /// The hops that are left (RHL), from 1.
    #[inline(always)]
    pub fn left(&self) -> u8
        ensures { result ≡ self.now.left }
    {
        self.basic().left()
    }

    /// The hops that are left (RHL, from 1), and how many there were at most (MHL).
    #[inline(always)]
    pub fn hops(&self) -> Hops
        ensures { result ≡ record { left = self.now.left; max = self.now.pdu.max_hops } }
    {
        Hops::within(self.left(), octet_in(&self.octets, MAX_HOPS))
    }

    /// How long the packet lives (LT).
    pub fn lifetime(&self) -> Lifetime
        ensures { result ≡ self.now.pdu.lifetime }
    {
        self.basic().lifetime()
    }

    /// The traffic class (TC).
    pub fn class(&self) -> TrafficClass
        ensures { result ≡ self.now.pdu.class }
    {
        TrafficClass::from_octet(octet_in(&self.octets, CLASS))
    }

    /// Whether the source is mobile.
    pub fn mobile(&self) -> bool
        ensures { result ≡ self.now.pdu.mobile }
    {
        is_mobile(octet_in(&self.octets, FLAGS))
    }

    /// The source's address, place and movement: the long position vector.
    #[inline(always)]
    pub fn vector(&self) -> LongPv
        ensures { result ≡ self.now.pdu.vector }
    {
        vector_in(&self.octets, self.vector_at())
    }

    // Where the vector begins.
    #[inline(always)]
    fn vector_at(&self) -> usize
        ensures value { result ≡ vector_place self.now.pdu.body }
        ensures range { (4 ≤ result) × (result ≤ 16) }
    {
        match self.kind() {
            Kind::Beacon | Kind::Shb => VECTOR,
            Kind::Gbc | Kind::Gac => AREA_VECTOR,
        }
    }

    /// The media-dependent data of a single-hop broadcast; the other kinds have none.
    pub fn media(&self) -> Option<[u8; 4]>
        ensures { result ≡ media_in self.now.pdu.body }
    {
        match self.kind() {
            Kind::Shb => Some(media_in(&self.octets)),
            Kind::Beacon | Kind::Gbc | Kind::Gac => None,
        }
    }

    /// The sequence number of a geobroadcast or geoanycast; the other kinds have none.
    #[inline(always)]
    pub fn number(&self) -> Option<u16>
        ensures { result ≡ number_in self.now.pdu.body }
    {
        match self.kind() {
            Kind::Gbc | Kind::Gac => Some(u16_in(&self.octets, NUMBER)),
            Kind::Beacon | Kind::Shb => None,
        }
    }

    /// The area of a geobroadcast or geoanycast; the other kinds have none.
    #[inline(always)]
    pub fn area(&self) -> Option<Area>
        ensures { result ≡ area_in self.now.pdu.body }
    {
        match self.kind() {
            Kind::Gbc | Kind::Gac => Some(area_in(&self.octets, self.shape())),
            Kind::Beacon | Kind::Shb => None,
        }
    }

    // The shape that the sub-type names.
    fn shape(&self) -> Shape
        ensures { result ≡ shape_of_body self.now.pdu.body }
    {
        shape_of(octet_in(&self.octets, TYPE) % 16)
    }

    /// The payload, which lies in the octets that were read: a BTP-B header and what is sent to the
    /// port. A beacon has none.
    #[inline(always)]
    pub fn payload(&self) -> &'a [u8]
        ensures octets { result.now ≡ payload_of self.now.pdu.body }
        ensures message { SaysMessage self.now.pdu.body result.now }
        ensures size { IsLength (kind_of_body self.now.pdu.body) (length result.now) }
    {
        match self.kind() {
            Kind::Beacon => &[],
            Kind::Shb => self.octets.behind(SHB_PAYLOAD),
            Kind::Gbc | Kind::Gac => self.octets.behind(AREA_PAYLOAD),
        }
    }

    // What each packet has.
    fn header(&self) -> Header
        ensures { IsHeaderOf result self.now }
    {
        Header {
            hops: self.hops(),
            lifetime: self.lifetime(),
            class: self.class(),
            mobile: self.mobile(),
            vector: self.vector(),
        }
    }

    // A payload of its own.
    fn to_payload(&self, alloc: Global) -> Result<Payload, NoMemory>
        requires { HasPayload self.now.pdu.body }
        ensures { IfOk result (SaysMessage self.now.pdu.body) }
    {
        let octets = Vec::from_slice(alloc, self.payload())?;
        Ok(Payload::of(octets))
    }

    // What a geobroadcast or a geoanycast has.
    fn to_area_packet(&self, alloc: Global) -> Result<AreaPacket, NoMemory>
        requires { IsForArea self.now.pdu.body }
        ensures { IfOk result (λ g. IsAreaPacketOf g self.now) }
    {
        let (Some(number), Some(area)) = (self.number(), self.area()) else {
            unreachable!()
        };
        let payload = self.to_payload(alloc)?;
        Ok(AreaPacket {
            header: self.header(),
            number,
            area,
            payload,
        })
    }

    /// The packet, with a payload of its own. A beacon takes no memory; else `NoMemory` says that
    /// the one allocation, of the payload, failed.
    pub fn to_packet(&self, alloc: Global) -> Result<Packet, NoMemory>
        ensures packet { IfOk result
            (λ p. (pdu_of_packet p ≡ self.now.pdu) × (hops_left p ≡ self.now.left)) }
        ensures memory { OnErr result (HasPayload self.now.pdu.body) }
    {
        let header = self.header();
        match self.kind() {
            Kind::Beacon => Ok(Packet::Beacon(header)),
            Kind::Shb => {
                let Some(media) = self.media() else {
                    unreachable!()
                };
                let payload = self.to_payload(alloc)?;
                Ok(Packet::Shb(SingleHopBroadcast {
                    header,
                    media,
                    payload,
                }))
            }
            Kind::Gbc => Ok(Packet::Gbc(self.to_area_packet(alloc)?)),
            Kind::Gac => Ok(Packet::Gac(self.to_area_packet(alloc)?)),
        }
    }
}
