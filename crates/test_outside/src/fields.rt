//! Each field of the packets of the rows.

use crate::rows::ROWS;
use its_geometry::Shape;
use its_outside::{
    AreaFields, BtpHeader, ExtendedFields, LongVector, NextHeader, NotOutside, OutsidePacket,
    Sequence, ShortVector, btp_header,
};
use std::alloc::{AllocError, Global};

/// The number of a next header.
fn next_number(next: NextHeader) -> u8 {
    match next {
        NextHeader::Unspecified => 0,
        NextHeader::BtpA => 1,
        NextHeader::BtpB => 2,
        NextHeader::Ipv6 => 3,
    }
}

/// The word of a shape.
fn shape_word(shape: Shape) -> &'static str {
    match shape {
        Shape::Circle => "circle",
        Shape::Rectangle => "rectangle",
        Shape::Ellipse => "ellipse",
    }
}

/// Adds the Basic Header and the Common Header.
fn add_headers(line: &mut String, packet: &OutsidePacket<'_>) -> Result<(), AllocError> {
    let (basic, common) = (packet.fields.basic, packet.fields.common);
    let kind = packet.fields.extended.kind();
    let basic_next = match basic.next {
        its_outside::BasicNext::Unspecified => 0,
        its_outside::BasicNext::CommonHeader => 1,
    };
    let lifetime = basic.lifetime.octet();
    write!(line, "{kind} {basic_next} {} {lifetime}", basic.reserved)?;
    let next = next_number(common.next);
    write!(line, " {} {next} {}", basic.left, common.next_reserved)?;
    let mobile = u8::from(common.mobile);
    write!(line, " {} {mobile}", common.class.octet())?;
    write!(line, " {} {}", common.flags_reserved, common.max_hops)?;
    write!(line, " {}", common.reserved)
}

/// Adds a long position vector.
fn add_long(line: &mut String, vector: &LongVector) -> Result<(), AllocError> {
    write!(line, " {} {}", vector.address, vector.timestamp)?;
    write!(line, " {} {}", vector.latitude, vector.longitude)?;
    let accurate = u8::from(vector.accurate);
    write!(line, " {accurate} {} {}", vector.speed, vector.heading)
}

/// Adds a short position vector.
fn add_short(line: &mut String, vector: &ShortVector) -> Result<(), AllocError> {
    write!(line, " {} {}", vector.address, vector.timestamp)?;
    write!(line, " {} {}", vector.latitude, vector.longitude)
}

/// Adds a sequence number and the reserved octets after it.
fn add_sequence(line: &mut String, sequence: &Sequence) -> Result<(), AllocError> {
    write!(line, " {} {}", sequence.number, sequence.reserved)
}

/// Adds an area and the reserved octets after it.
fn add_area(line: &mut String, area: &AreaFields) -> Result<(), AllocError> {
    let shape = shape_word(area.shape);
    write!(line, " {shape} {} {}", area.latitude, area.longitude)?;
    write!(line, " {} {} {}", area.a, area.b, area.angle)?;
    write!(line, " {}", area.reserved)
}

/// Adds what the extended header has besides the source's vector.
fn add_rest(line: &mut String, extended: &ExtendedFields) -> Result<(), AllocError> {
    match extended {
        ExtendedFields::Beacon => Ok(()),
        ExtendedFields::Shb(media) => write!(line, " {media}"),
        ExtendedFields::Tsb(sequence) => add_sequence(line, sequence),
        ExtendedFields::Guc(sequence, to) | ExtendedFields::LsReply(sequence, to) => {
            add_sequence(line, sequence)?;
            add_short(line, to)
        }
        ExtendedFields::Gac(sequence, area) | ExtendedFields::Gbc(sequence, area) => {
            add_sequence(line, sequence)?;
            add_area(line, area)
        }
        ExtendedFields::LsRequest(sequence, sought) => {
            add_sequence(line, sequence)?;
            write!(line, " {sought}")
        }
    }
}

/// Adds the header of BTP and the payload.
fn add_payload(
    alloc: Global,
    line: &mut String,
    packet: &OutsidePacket<'_>,
) -> Result<(), AllocError> {
    match btp_header(packet.fields.common.next, packet.payload) {
        Some(BtpHeader::A(port, source)) => write!(line, " a {port} {source}")?,
        Some(BtpHeader::B(port, info)) => write!(line, " b {port} {info}")?,
        None => {}
    }
    if packet.payload.is_empty() {
        return write!(line, " -");
    }
    let digits = hex::encode(alloc, packet.payload)?;
    write!(line, " {digits}")
}

/// The line of all fields of a packet.
fn line_of(alloc: Global, packet: &OutsidePacket<'_>) -> Result<String, AllocError> {
    let mut line = String::new(alloc);
    add_headers(&mut line, packet)?;
    add_long(&mut line, &packet.fields.source)?;
    add_rest(&mut line, &packet.fields.extended)?;
    add_payload(alloc, &mut line, packet)?;
    Ok(line)
}

/// Whether these octets and one more are read as this line.
fn is_read(alloc: Global, digits: &str, wanted: &str) -> bool {
    let Ok(mut octets) = hex::decode(alloc, digits) else {
        return false;
    };
    let length = octets.len();
    if octets.push(0).is_err() {
        return false;
    }
    match OutsidePacket::read(&octets) {
        Ok((packet, end)) => match line_of(alloc, &packet) {
            Ok(line) => end == length && line.as_str() == wanted,
            Err(_) => false,
        },
        Err(reason) => reason == NotOutside::InProfile && wanted == "profile",
    }
}

#[test]
fn each_field_of_each_kind(rt: HostRuntime) {
    for (octets, line) in ROWS {
        assert!(rt; is_read(rt.alloc(), octets, line));
    }
}
