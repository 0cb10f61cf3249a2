//! A frame as keys of JSON, or as words of a line.

use crate::json_lines::{Digits, Octets};
use its_btp::split;
use its_geometry::{Area, Shape};
use its_headers::PacketView;
use its_linkframe::FrameView;
use serde::Serialize;

/// The fields of a frame in the order in which they are printed, as keys in JSON and as words in
/// text.
#[derive(Clone, Copy, Serialize)]
pub struct FrameKeys<'a> {
    /// The link address of the sender.
    pub from: Digits<6>,
    /// The link address of the receiver.
    pub to: Digits<6>,
    /// The kind of its packet: `beacon`, `shb`, `gbc` or `gac`.
    pub kind: &'static str,
    /// The GN address of the packet's source.
    pub address: Digits<8>,
    /// The time stamp of the source's vector, in milliseconds modulo 2^32.
    pub tst: u32,
    /// The position of the source, in tenths of a microdegree.
    pub lat: i32,
    /// The position of the source, in tenths of a microdegree.
    pub lon: i32,
    /// Whether that position is accurate.
    pub pai: bool,
    /// The speed of the source, in 0.01 m/s.
    pub speed: i16,
    /// The heading of the source, in 0.1 degree clockwise from north.
    pub heading: u16,
    /// The octet of the lifetime: a multiplier, then a base.
    pub lt: u8,
    /// The octet of the traffic class.
    pub tc: u8,
    /// Whether the source is mobile.
    pub mobile: bool,
    /// The remaining hop limit (RHL).
    pub hops: u8,
    /// The maximum hop limit (MHL).
    pub max_hops: u8,
    /// The sequence number and the area, if the packet is for an area.
    #[serde(flatten)]
    pub target: Option<TargetKeys>,
    /// The port and the payload, if the packet has a payload.
    #[serde(flatten)]
    pub message: Option<MessageKeys<'a>>,
}

/// The sequence number and the area of a packet for an area.
#[derive(Clone, Copy, Serialize)]
pub struct TargetKeys {
    /// The sequence number.
    pub number: u16,
    /// `circle`, `rectangle` or `ellipse`.
    pub shape: &'static str,
    /// The centre, in tenths of a microdegree.
    pub alat: i32,
    /// The centre, in tenths of a microdegree.
    pub alon: i32,
    /// The radius, or the half length along the angle, in metres.
    pub a: u16,
    /// The half length across the angle, in metres. A circle has 0.
    pub b: u16,
    /// The angle, in degrees clockwise from north.
    pub angle: u16,
}

/// What is sent to a port.
#[derive(Clone, Copy, Serialize)]
pub struct MessageKeys<'a> {
    /// The destination port (BTP-B).
    pub port: u16,
    /// The destination port info.
    pub info: u16,
    /// What follows the header.
    pub payload: Octets<'a>,
}

impl<'a> FrameKeys<'a> {
    /// Returns the fields of this frame.
    pub fn of(frame: &FrameView<'a>) -> FrameKeys<'a> {
        let packet = &frame.packet;
        let vector = packet.vector();
        let place = vector.place();
        FrameKeys {
            from: Digits(frame.from.octets()),
            to: Digits(frame.to.octets()),
            kind: packet.kind().word(),
            address: Digits(vector.address().as_u64().to_be_bytes()),
            tst: vector.tst(),
            lat: place.lat(),
            lon: place.lon(),
            pai: vector.pai(),
            speed: vector.speed(),
            heading: vector.heading(),
            lt: packet.lifetime().octet(),
            tc: packet.class().octet(),
            mobile: packet.mobile(),
            hops: packet.hops().left(),
            max_hops: packet.hops().max(),
            target: TargetKeys::of(packet),
            message: MessageKeys::of(packet.payload()),
        }
    }
}

fn shape_word(shape: Shape) -> &'static str {
    match shape {
        Shape::Circle => "circle",
        Shape::Rectangle => "rectangle",
        Shape::Ellipse => "ellipse",
    }
}

impl TargetKeys {
    /// Returns the sequence number and the area of a packet, if it is for an area.
    fn of(packet: &PacketView<'_>) -> Option<TargetKeys> {
        let (number, area) = (packet.number()?, packet.area()?);
        Some(TargetKeys::in_area(number, area))
    }

    fn in_area(number: u16, area: Area) -> TargetKeys {
        let centre = area.centre();
        TargetKeys {
            number,
            shape: shape_word(area.shape()),
            alat: centre.lat(),
            alon: centre.lon(),
            a: area.a(),
            b: area.b(),
            angle: area.angle(),
        }
    }
}

impl<'a> MessageKeys<'a> {
    /// Returns port, info and what follows the BTP-B header, if there is one.
    fn of(payload: &'a [u8]) -> Option<MessageKeys<'a>> {
        let (port, info, rest) = split(payload).ok()?;
        Some(MessageKeys {
            port,
            info,
            payload: Octets(rest),
        })
    }
}
