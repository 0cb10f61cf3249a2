//! The Basic Header and the Common Header (EN 302 636-4-1 clause 9).

ghost use Rattle.std.specs.Prelude.{◌≡◌, ◌<◌, ◌^◌, nat_le};
ghost use Rattle.its_formats.specs.Format.{Gives};
ghost use Rattle.its_headers.specs.Format.{walk};
ghost use Rattle.its_headers.specs.Layout.{shape_of};
ghost use Rattle.its_outside.specs.Layout.{basic_format, common_format, types_format};
ghost use Rattle.its_outside.specs.Layout.{basic_next_of, next_of, is_type, is_subtype};
ghost use Rattle.its_outside.specs.Layout.{is_length, kind_of};

use crate::fields::{BasicFields, BasicNext, CommonFields, NextHeader};
use crate::kind::StandardKind;
use crate::octets::{fault, octet_at, u16_at};
use its_faults::{Fault, FaultKind};
use its_geometry::Shape;
use its_gnvalue::{Lifetime, TrafficClass};

/// Version, and next header of the Basic Header: half an octet each.
const VERSION: usize = 0;

/// Reserved.
const BASIC_RESERVED: usize = 1;

/// The lifetime (LT).
const LIFETIME: usize = 2;

/// The hops that are left (RHL).
const HOPS_LEFT: usize = 3;

/// Next header of the Common Header, and a reserved half octet.
const NEXT: usize = 4;

/// Header type and sub-type (HT, HST): half an octet each.
const TYPE: usize = 5;

/// The traffic class (TC).
const CLASS: usize = 6;

/// The flags: mobile, and seven reserved bits.
const FLAGS: usize = 7;

/// The payload's length (PL), two octets.
const LENGTH: usize = 8;

/// The greatest number of hops (MHL).
const MAX_HOPS: usize = 10;

/// Reserved.
const COMMON_RESERVED: usize = 11;

/// What the Common Header says. Only packets for an area have a shape.
#[derive(Clone, Copy)]
pub(crate) struct CommonRead {
    pub fields: CommonFields,
    pub kind: StandardKind,
    pub shape: Shape,
    pub length: u16,
}

/// Next header, reserved half octet, header type and sub-type.
#[derive(Clone, Copy)]
struct Types {
    next: u8,
    reserved: u8,
    header_type: u8,
    sub_type: u8,
}

/// Reads the Basic Header.
#[tactic(auto, unfolding(crate::specs::Layout::basic_format))]
pub(crate) fn read_basic(octets: &[u8]) -> Result<BasicFields, Fault>
    ensures { Gives (λ b. (b, 4)) result (walk basic_format 0 octets.now) }
{
    let first = octet_at(octets, VERSION)?;
    if first / 16 != 1 {
        return Err(fault(VERSION, FaultKind::Version));
    }
    if first % 16 > 1 {
        return Err(fault(VERSION, FaultKind::BasicNext));
    }
    Ok(BasicFields {
        next: basic_next_of(first % 16),
        reserved: octet_at(octets, BASIC_RESERVED)?,
        lifetime: Lifetime::from_octet(octet_at(octets, LIFETIME)?),
        left: octet_at(octets, HOPS_LEFT)?,
    })
}

/// What follows the Basic Header.
fn basic_next_of(next: u8) -> BasicNext
    ensures { result ≡ basic_next_of next }
{
    match next {
        0 => BasicNext::Unspecified,
        _ => BasicNext::CommonHeader,
    }
}

/// Reads the Common Header of a packet that has so many hops left.
#[tactic(auto, using(its_formats::proofs::Walks::walk_after))]
pub(crate) fn read_common(octets: &[u8], left: u8) -> Result<CommonRead, Fault>
    ensures { Gives
        (λ c. (record { fields = c.fields; kind = c.kind; shape = c.shape; length = c.length }, 12))
        result (walk (common_format left) 4 octets.now) }
{
    let types = read_types(octets)?;
    let class = TrafficClass::from_octet(octet_at(octets, CLASS)?);
    let flags = octet_at(octets, FLAGS)?;
    let length = u16_at(octets, LENGTH)?;
    if !is_length(types.header_type, length) {
        return Err(fault(LENGTH, FaultKind::PayloadLength));
    }
    let max_hops = octet_at(octets, MAX_HOPS)?;
    if max_hops < left {
        return Err(fault(MAX_HOPS, FaultKind::HopAboveMax));
    }
    let reserved = octet_at(octets, COMMON_RESERVED)?;
    Ok(CommonRead {
        fields: CommonFields {
            next: next_of(types.next),
            next_reserved: types.reserved,
            class,
            mobile: flags >= 128,
            flags_reserved: flags % 128,
            max_hops,
            reserved,
        },
        kind: kind_of(types.header_type, types.sub_type),
        shape: shape_of(types.sub_type),
        length,
    })
}

/// Reads next header, header type and sub-type.
#[tactic(auto, unfolding(crate::specs::Layout::types_format))]
fn read_types(octets: &[u8]) -> Result<Types, Fault>
    ensures { Gives (λ t. (
      record {
        next = t.next;
        reserved = t.reserved;
        type = t.header_type;
        subtype = t.sub_type;
      },
      6,
    )) result (walk types_format 4 octets.now) }
{
    let first = octet_at(octets, NEXT)?;
    if first / 16 > 3 {
        return Err(fault(NEXT, FaultKind::CommonNext));
    }
    let second = octet_at(octets, TYPE)?;
    if !is_type(second / 16) {
        return Err(fault(TYPE, FaultKind::HeaderType));
    }
    if !is_sub_type(second / 16, second % 16) {
        return Err(fault(TYPE, FaultKind::SubType));
    }
    Ok(Types {
        next: first / 16,
        reserved: first % 16,
        header_type: second / 16,
        sub_type: second % 16,
    })
}

/// What follows the extended header.
fn next_of(next: u8) -> NextHeader
    ensures { result ≡ next_of next }
{
    match next {
        0 => NextHeader::Unspecified,
        1 => NextHeader::BtpA,
        2 => NextHeader::BtpB,
        _ => NextHeader::Ipv6,
    }
}

/// Whether it is a header type of the standard.
fn is_type(header_type: u8) -> bool
    ensures { result ≡ is_type header_type }
{
    1 <= header_type && header_type <= 6
}

/// Whether this header type has this sub-type.
fn is_sub_type(header_type: u8, sub_type: u8) -> bool
    ensures { result ≡ is_subtype header_type sub_type }
{
    match header_type {
        0 | 1 | 2 => sub_type == 0,
        3 | 4 => sub_type <= 2,
        _ => sub_type <= 1,
    }
}

/// Whether a packet of this header type may have a payload of this length.
fn is_length(header_type: u8, length: u16) -> bool
    ensures { result ≡ is_length header_type length }
{
    match header_type {
        1 | 6 => length == 0,
        _ => true,
    }
}

/// The kind that header type and sub-type name.
fn kind_of(header_type: u8, sub_type: u8) -> StandardKind
    ensures { result ≡ kind_of header_type sub_type }
{
    match (header_type, sub_type) {
        (1, _) => StandardKind::Beacon,
        (2, _) => StandardKind::Guc,
        (3, _) => StandardKind::Gac,
        (4, _) => StandardKind::Gbc,
        (5, 0) => StandardKind::Shb,
        (5, _) => StandardKind::Tsb,
        (_, 0) => StandardKind::LsRequest,
        _ => StandardKind::LsReply,
    }
}

/// The shape that a sub-type names.
fn shape_of(sub_type: u8) -> Shape
    ensures { result ≡ shape_of sub_type }
{
    match sub_type {
        0 => Shape::Circle,
        1 => Shape::Rectangle,
        _ => Shape::Ellipse,
    }
}
