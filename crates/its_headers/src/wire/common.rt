//! The Common Header (EN 302 636-4-1 clause 9): next header, header type, traffic class, flags,
//! payload length, greatest number of hops.

ghost use Rattle.std.specs.Prelude.{◌≡◌, ◌≤◌, ◌<◌, ◌+◌, ◌*◌, ◌∷◌, ◌++◌, [], length, drop, nat_le};
ghost use Rattle.std.specs.Prelude.{IfOk, if◌then◌else◌};
ghost use Rattle.byteorder.specs.Endian.{big_bytes, big_number};
ghost use Rattle.its_headers.specs.Encoding.{shape_code};
ghost use Rattle.its_formats.specs.Format.{Gives};
ghost use Rattle.its_headers.specs.Format.{walk};
ghost use Rattle.its_headers.specs.Layout.{common_format, type_format, is_length};
ghost use Rattle.its_headers.specs.Layout.{is_next, is_type, is_subtype, kind_of, shape_of};
ghost use Rattle.its_headers.specs.Layout.{next_of, type_of};
ghost use Rattle.its_headers.specs.Fields.{IsLength};
ghost use Rattle.its_headers.specs.Puts.{Puts};

use crate::kind::Kind;
use crate::packet::Header;
use crate::payload::{LONGEST_PAYLOAD, SHORTEST_PAYLOAD};
use crate::wire::fields::{
    CLASS, COMMON_RESERVED, FLAGS, LENGTH, MAX_HOPS, NEXT, TYPE, fault, octet_at, pass_number,
    u16_at, write_octets,
};
use crate::wire::octets::{Head, Octets};
use its_faults::{Fault, FaultKind};
use its_geometry::Shape;

/// Next header: nothing follows.
const NEXT_NONE: u8 = 0;

/// Next header: BTP-B.
const NEXT_BTP_B: u8 = 2;

/// Header type: a beacon.
const TYPE_BEACON: u8 = 1;

/// Header type: a geoanycast.
const TYPE_GAC: u8 = 3;

/// Header type: a geobroadcast.
const TYPE_GBC: u8 = 4;

/// Header type: a single-hop broadcast.
const TYPE_SHB: u8 = 5;

/// The flag of a mobile source.
const MOBILE: u8 = 0x80;

/// What the Common Header says of the octets after it; only packets for an area have a shape other
/// than the circle's.
#[derive(Clone, Copy)]
pub(crate) struct CommonHeader {
    pub kind: Kind,
    pub shape: Shape,
    pub length: u16,
}

/// Checks the Common Header of a packet that has so many hops left.
#[tactic(auto, using(its_formats::proofs::Walks::walk_after), unfolding(crate::specs::Layout::common_format))]
#[inline(always)]
pub(crate) fn check_common<H: Head>(octets: &Octets<'_, H>, left: u8) -> Result<CommonHeader, Fault>
    ensures size { IfOk result (λ c. IsLength c.kind c.length) }
    ensures reading { Gives
        (λ x. (
          record {
            kind = x.kind;
            shape = x.shape;
            class = big_number 1 (drop 6 octets.now);
            mobile = nat_le 128 (big_number 1 (drop 7 octets.now));
            length = x.length;
            max_hops = big_number 1 (drop 10 octets.now);
          },
          12,
        ))
        result (walk (common_format left) 4 octets.now) }
{
    let (header_type, sub_type) = type_and_sub_type(octets)?;
    pass_number(octets, CLASS, 1)?;
    if octet_at(octets, FLAGS)? % MOBILE != 0 {
        return Err(fault(FLAGS, FaultKind::Reserved));
    }
    let length = u16_at(octets, LENGTH)?;
    if !is_length(header_type, length) {
        return Err(fault(LENGTH, FaultKind::PayloadLength));
    }
    if octet_at(octets, MAX_HOPS)? < left {
        return Err(fault(MAX_HOPS, FaultKind::HopAboveMax));
    }
    if octet_at(octets, COMMON_RESERVED)? != 0 {
        return Err(fault(COMMON_RESERVED, FaultKind::Reserved));
    }
    Ok(CommonHeader {
        kind: kind_of(header_type),
        shape: shape_of(sub_type),
        length,
    })
}

/// Header type and sub-type, which the next header in front of them allows.
#[tactic(auto, unfolding(crate::specs::Layout::type_format))]
#[inline(always)]
fn type_and_sub_type<H: Head>(octets: &Octets<'_, H>) -> Result<(u8, u8), Fault>
    ensures { Gives (λ x. ((x.0, x.1), 6)) result (walk type_format 4 octets.now) }
{
    let first = octet_at(octets, NEXT)?;
    let next = first / 16;
    if !is_next(next) {
        return Err(fault(NEXT, FaultKind::CommonNext));
    }
    if first % 16 != 0 {
        return Err(fault(NEXT, FaultKind::Reserved));
    }
    let second = octet_at(octets, TYPE)?;
    let (header_type, sub_type) = (second / 16, second % 16);
    if !is_type(next, header_type) {
        return Err(fault(TYPE, FaultKind::HeaderType));
    }
    if !is_sub_type(header_type, sub_type) {
        return Err(fault(TYPE, FaultKind::SubType));
    }
    Ok((header_type, sub_type))
}

/// Whether this next header may stand in a Common Header.
fn is_next(next: u8) -> bool
    ensures { result ≡ is_next next }
{
    next == NEXT_NONE || next == NEXT_BTP_B
}

/// Whether a header type may stand after this next header.
fn is_type(next: u8, header_type: u8) -> bool
    ensures { result ≡ is_type next header_type }
{
    match next {
        NEXT_NONE => header_type == TYPE_BEACON,
        _ => matches!(header_type, TYPE_GAC | TYPE_GBC | TYPE_SHB),
    }
}

/// Whether this header type may have this sub-type.
fn is_sub_type(header_type: u8, sub_type: u8) -> bool
    ensures { result ≡ is_subtype header_type sub_type }
{
    match header_type {
        TYPE_GAC | TYPE_GBC => sub_type <= 2,
        _ => sub_type == 0,
    }
}

/// Whether a packet of this header type may have a payload of this length.
fn is_length(header_type: u8, length: u16) -> bool
    ensures { result ≡ is_length header_type length }
{
    match header_type {
        TYPE_BEACON => length == 0,
        _ => (SHORTEST_PAYLOAD..=LONGEST_PAYLOAD).contains(&(length as usize)),
    }
}

/// The kind that a header type names.
pub(crate) fn kind_of(header_type: u8) -> Kind
    ensures { result ≡ kind_of header_type }
{
    match header_type {
        TYPE_BEACON => Kind::Beacon,
        TYPE_SHB => Kind::Shb,
        TYPE_GAC => Kind::Gac,
        _ => Kind::Gbc,
    }
}

/// The shape that a sub-type names.
pub(crate) fn shape_of(sub_type: u8) -> Shape
    ensures { result ≡ shape_of sub_type }
{
    match sub_type {
        0 => Shape::Circle,
        1 => Shape::Rectangle,
        _ => Shape::Ellipse,
    }
}

/// Whether these flags are of a mobile source.
pub(crate) fn is_mobile(flags: u8) -> bool
    ensures { result ≡ nat_le 128 flags }
{
    flags >= MOBILE
}

/// Writes the Common Header, eight octets, of a packet of a kind for a shape, with a payload of
/// this length.
pub(crate) fn write_common(out: &mut [u8], header: &Header, kind: Kind, shape: Shape, size: u16)
    requires { 12 ≤ length out.old }
    ensures puts { Puts out.old out.new 4
        ((16 * next_of kind) ∷ (16 * type_of kind + shape_code shape)
        ∷ header.now.class ∷ (if header.now.mobile then 128 else 0)
        ∷ (big_bytes 2 size ++ header.now.hops.max ∷ 0 ∷ [])) }
    ensures class { header.now.class < 256 }
    ensures hops { (header.now.hops.left ≤ header.now.hops.max) × (header.now.hops.max < 256) }
{
    let flags = if header.mobile { MOBILE } else { 0 };
    let [high, low] = size.to_be_bytes();
    let octets = [
        16 * next(kind),
        16 * header_type(kind) + sub_type(shape),
        header.class.octet(),
        flags,
        high,
        low,
        header.hops.max(),
        0,
    ];
    write_octets(out, NEXT, &octets);
}

/// The next header of a kind.
fn next(kind: Kind) -> u8
    ensures value { result ≡ next_of kind }
    ensures small { result ≤ 2 }
{
    match kind {
        Kind::Beacon => NEXT_NONE,
        Kind::Shb | Kind::Gbc | Kind::Gac => NEXT_BTP_B,
    }
}

/// The header type of a kind.
fn header_type(kind: Kind) -> u8
    ensures value { result ≡ type_of kind }
    ensures small { result ≤ 5 }
{
    match kind {
        Kind::Beacon => TYPE_BEACON,
        Kind::Shb => TYPE_SHB,
        Kind::Gbc => TYPE_GBC,
        Kind::Gac => TYPE_GAC,
    }
}

/// The sub-type of a shape.
fn sub_type(shape: Shape) -> u8
    ensures value { result ≡ shape_code shape }
    ensures small { result < 3 }
{
    match shape {
        Shape::Circle => 0,
        Shape::Rectangle => 1,
        Shape::Ellipse => 2,
    }
}
