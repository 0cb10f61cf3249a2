//! The octets of a packet (EN 302 636-4-1 clause 9): each header has a module, in which it is read
//! and written; `fields` is the table of their fields. What checks is always inlined, so that no
//! answer goes through memory from one check to the next.

ghost use Rattle.std.specs.Prelude.{◌≡◌, ◌≤◌, ℕ};
ghost use Rattle.its_model.specs.Packet.{geobroadcast, geoanycast};
ghost use Rattle.its_formats.specs.Format.{end_of};
ghost use Rattle.its_headers.specs.Format.{walk};
ghost use Rattle.its_headers.specs.Layout.{beacon_format, shb_format, area_packet_format};
ghost use Rattle.its_headers.specs.Layout.{packet_format, plain_format};

pub(crate) mod area;
pub(crate) mod basic;
pub(crate) mod common;
pub(crate) mod fields;
pub(crate) mod media;
pub(crate) mod octets;
pub(crate) mod payload;
pub(crate) mod position;

use crate::kind::Kind;
use area::check_area;
use basic::{NEXT_COMMON, check_basic};
use common::check_common;
use fields::{
    AREA_PAYLOAD, AREA_RESERVED, AREA_VECTOR, BEACON_END, MEDIA, NUMBER, NUMBER_RESERVED,
    SHB_PAYLOAD, VECTOR, check_octets, fault, pass_number, u16_at,
};
use its_faults::{Fault, FaultKind};
use its_geometry::Shape;
use octets::{Head, InOnePiece, Octets};
use payload::check_payload;
use position::check_vector;

/// Where the packet that begins the octets ends, or the first fault. Each field is checked once,
/// in the order of the wire, and no value is made of it.
#[tactic(auto, using(its_formats::proofs::Walks::walk_after))]
#[inline(always)]
pub(crate) fn packet_end(octets: &[u8]) -> Result<usize, Fault>
    ensures { result ≡ end_of (walk packet_format 0 octets.now) }
{
    let octets = Octets {
        head: InOnePiece,
        rest: octets,
    };
    let basic = check_basic(&octets, NEXT_COMMON)?;
    plain_end(&octets, basic.left())
}

/// Where the packet ends whose Basic Header was checked, which says so many hops, or the first
/// fault behind it.
#[tactic(auto, using(its_formats::proofs::Walks::walk_after))]
#[inline(always)]
pub(crate) fn plain_end<H: Head>(octets: &Octets<'_, H>, left: u8) -> Result<usize, Fault>
    ensures { (lifetime : ℕ) → result
        ≡ end_of (walk (plain_format (lifetime, left)) 4 octets.now) }
{
    let common = check_common(octets, left)?;
    match common.kind {
        Kind::Beacon => beacon_end(octets),
        Kind::Shb => shb_end(octets, common.length),
        Kind::Gbc | Kind::Gac => area_packet_end(octets, common.shape, common.length),
    }
}

/// Where the beacon ends whose headers were checked.
#[tactic(auto, using(its_formats::proofs::Walks::walk_after))]
#[inline(always)]
fn beacon_end<H: Head>(octets: &Octets<'_, H>) -> Result<usize, Fault>
    ensures { result ≡ end_of (walk beacon_format 12 octets.now) }
{
    check_vector(octets, VECTOR)?;
    Ok(BEACON_END)
}

/// Where the single-hop broadcast with a payload of this length ends.
#[tactic(auto, using(its_formats::proofs::Walks::walk_after))]
#[inline(always)]
fn shb_end<H: Head>(octets: &Octets<'_, H>, size: u16) -> Result<usize, Fault>
    ensures { result ≡ end_of (walk (shb_format size) 12 octets.now) }
{
    check_vector(octets, VECTOR)?;
    check_octets(octets, MEDIA, 4)?;
    check_payload(octets, SHB_PAYLOAD, size)?;
    Ok(SHB_PAYLOAD + size as usize)
}

/// Where the packet for an area of this shape, with a payload of this length, ends.
#[tactic(auto, using(its_formats::proofs::Walks::walk_after))]
#[inline(always)]
fn area_packet_end<H: Head>(octets: &Octets<'_, H>, shape: Shape, size: u16) -> Result<usize, Fault>
    ensures gbc { result
        ≡ end_of (walk (area_packet_format geobroadcast shape size) 12 octets.now) }
    ensures gac { result
        ≡ end_of (walk (area_packet_format geoanycast shape size) 12 octets.now) }
{
    pass_number(octets, NUMBER, 2)?;
    if u16_at(octets, NUMBER_RESERVED)? != 0 {
        return Err(fault(NUMBER_RESERVED, FaultKind::Reserved));
    }
    check_vector(octets, AREA_VECTOR)?;
    check_area(octets, shape)?;
    if u16_at(octets, AREA_RESERVED)? != 0 {
        return Err(fault(AREA_RESERVED, FaultKind::Reserved));
    }
    check_payload(octets, AREA_PAYLOAD, size)?;
    Ok(AREA_PAYLOAD + size as usize)
}
