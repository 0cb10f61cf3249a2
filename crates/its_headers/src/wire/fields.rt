//! The table of a packet's fields, from octet 0 to the last (EN 302 636-4-1 clause 9), and reading
//! and writing one. Numbers of several octets go highest octet first.

ghost use Rattle.std.specs.Prelude.{◌≡◌, ◌≤◌, ◌<◌, ◌+◌, ◌^◌, length, take, drop, get_or, IfOk};
ghost use Rattle.byteorder.specs.Endian.{big_bytes, big_number};
ghost use Rattle.its_headers.specs.Encoding.{IsBytes};
ghost use Rattle.its_formats.specs.Format.{Gives};
ghost use Rattle.its_headers.specs.Format.{number_at, octets_at};
ghost use Rattle.its_headers.specs.Puts.{Puts};

use crate::wire::octets::{Head, Octets};
use byteorder::{BigEndian, ByteOrder};
use its_faults::{Fault, FaultKind};

// The Basic Header.

/// Version, and next header of the Basic Header: half an octet each.
pub(crate) const VERSION: usize = 0;

/// Reserved.
pub(crate) const BASIC_RESERVED: usize = 1;

/// The lifetime (LT).
pub(crate) const LIFETIME: usize = 2;

/// The hops that are left (RHL): the one octet that a relay changes.
pub const HOPS_LEFT: usize = 3;

/// Where the Basic Header ends.
pub(crate) const BASIC_END: usize = 4;

// The Common Header.

/// Next header of the Common Header, and a reserved half octet.
pub(crate) const NEXT: usize = 4;

/// Header type and sub-type (HT, HST): half an octet each.
pub(crate) const TYPE: usize = 5;

/// The traffic class (TC).
pub(crate) const CLASS: usize = 6;

/// The flags: mobile, and seven reserved bits.
pub(crate) const FLAGS: usize = 7;

/// The payload's length (PL), two octets.
pub(crate) const LENGTH: usize = 8;

/// The greatest number of hops (MHL).
pub(crate) const MAX_HOPS: usize = 10;

/// Reserved.
pub(crate) const COMMON_RESERVED: usize = 11;

// What follows in a BEACON and in an SHB.

/// The source's position vector, 24 octets.
pub(crate) const VECTOR: usize = 12;

/// Where a beacon ends.
pub(crate) const BEACON_END: usize = 36;

/// The media-dependent data of an SHB, four octets.
pub(crate) const MEDIA: usize = 36;

/// The payload of an SHB.
pub(crate) const SHB_PAYLOAD: usize = 40;

// What follows in a GBC and in a GAC.

/// The sequence number, two octets.
pub(crate) const NUMBER: usize = 12;

/// Two reserved octets.
pub(crate) const NUMBER_RESERVED: usize = 14;

/// The source's position vector, 24 octets.
pub(crate) const AREA_VECTOR: usize = 16;

/// The latitude of the area's centre, four octets.
pub(crate) const AREA_LATITUDE: usize = 40;

/// The longitude of the area's centre, four octets.
pub(crate) const AREA_LONGITUDE: usize = 44;

/// Distance a of the area, two octets.
pub(crate) const DISTANCE_A: usize = 48;

/// Distance b of the area, two octets.
pub(crate) const DISTANCE_B: usize = 50;

/// The angle of the area, two octets.
pub(crate) const ANGLE: usize = 52;

/// Two reserved octets.
pub(crate) const AREA_RESERVED: usize = 54;

/// The payload of a GBC and of a GAC.
pub(crate) const AREA_PAYLOAD: usize = 56;

// A position vector, from its own first octet.

/// The GN address, eight octets.
pub(crate) const ADDRESS: usize = 0;

/// The timestamp (TST), four octets.
pub(crate) const TIMESTAMP: usize = 8;

/// The latitude, four octets.
pub(crate) const LATITUDE: usize = 12;

/// The longitude, four octets.
pub(crate) const LONGITUDE: usize = 16;

/// Position accuracy (PAI) in a bit, and the speed in 15.
pub(crate) const MOTION: usize = 20;

/// The heading, two octets.
pub(crate) const HEADING: usize = 22;

// Reading.

/// A fault of the field that begins at this octet.
pub(crate) fn fault(at: usize, kind: FaultKind) -> Fault
    ensures { result ≡ record { at = at; kind = kind } }
{
    Fault { at, kind }
}

/// G1: the octets end before or in a field.
fn truncated<H: Head>(octets: &Octets<'_, H>) -> Fault
    ensures { result ≡ record { at = length octets.now; kind = FaultKind.Truncated } }
{
    fault(octets.count(), FaultKind::Truncated)
}

/// The octet at a place, which is there.
#[inline(always)]
pub(crate) fn octet_in<H: Head>(octets: &Octets<'_, H>, at: usize) -> u8
    requires start { H.SIZE ≤ at }
    requires here { at < length octets.now }
    ensures { result ≡ get_or octets.now at 0 }
{
    octets.behind(at)[0]
}

/// The number of two octets at a place, which is there.
#[inline(always)]
pub(crate) fn u16_in<H: Head>(octets: &Octets<'_, H>, at: usize) -> u16
    requires start { H.SIZE ≤ at }
    requires here { at + 2 ≤ length octets.now }
    ensures { result ≡ big_number 2 (drop at octets.now) }
{
    BigEndian::read_u16(octets.behind(at))
}

/// The number of four octets at a place, which is there.
#[inline(always)]
pub(crate) fn u32_in<H: Head>(octets: &Octets<'_, H>, at: usize) -> u32
    requires start { H.SIZE ≤ at }
    requires here { at + 4 ≤ length octets.now }
    ensures { result ≡ big_number 4 (drop at octets.now) }
{
    BigEndian::read_u32(octets.behind(at))
}

/// The number of eight octets at a place, which is there.
#[inline(always)]
pub(crate) fn u64_in<H: Head>(octets: &Octets<'_, H>, at: usize) -> u64
    requires start { H.SIZE ≤ at }
    requires here { at + 8 ≤ length octets.now }
    ensures { result ≡ big_number 8 (drop at octets.now) }
{
    BigEndian::read_u64(octets.behind(at))
}

/// The octet at a place, or G1.
#[tactic(auto, unfolding(its_formats::specs::Format::number_at))]
pub(crate) fn octet_at<H: Head>(octets: &Octets<'_, H>, at: usize) -> Result<u8, Fault>
    requires small { at < 2 ^ 32 }
    requires start { H.SIZE ≤ at }
    ensures reading { Gives (λ x. x) result (number_at 1 at octets.now) }
    ensures value { IfOk result (λ x. x ≡ big_number 1 (drop at octets.now)) }
{
    if octets.count() < at + 1 {
        return Err(truncated(octets));
    }
    Ok(octets.behind(at)[0])
}

/// The number of two octets at a place, or G1.
#[tactic(auto, unfolding(its_formats::specs::Format::number_at))]
pub(crate) fn u16_at<H: Head>(octets: &Octets<'_, H>, at: usize) -> Result<u16, Fault>
    requires small { at < 2 ^ 32 }
    requires start { H.SIZE ≤ at }
    ensures reading { Gives (λ x. x) result (number_at 2 at octets.now) }
    ensures value { IfOk result (λ x. x ≡ big_number 2 (drop at octets.now)) }
{
    if octets.count() < at + 2 {
        return Err(truncated(octets));
    }
    Ok(u16_in(octets, at))
}

/// The number of four octets at a place, or G1.
#[tactic(auto, unfolding(its_formats::specs::Format::number_at))]
pub(crate) fn u32_at<H: Head>(octets: &Octets<'_, H>, at: usize) -> Result<u32, Fault>
    requires small { at < 2 ^ 32 }
    requires start { H.SIZE ≤ at }
    ensures reading { Gives (λ x. x) result (number_at 4 at octets.now) }
    ensures value { IfOk result (λ x. x ≡ big_number 4 (drop at octets.now)) }
{
    if octets.count() < at + 4 {
        return Err(truncated(octets));
    }
    Ok(u32_in(octets, at))
}

/// The number of eight octets at a place, or G1.
#[tactic(auto, unfolding(its_formats::specs::Format::number_at))]
pub(crate) fn u64_at<H: Head>(octets: &Octets<'_, H>, at: usize) -> Result<u64, Fault>
    requires small { at < 2 ^ 32 }
    requires start { H.SIZE ≤ at }
    ensures reading { Gives (λ x. x) result (number_at 8 at octets.now) }
    ensures value { IfOk result (λ x. x ≡ big_number 8 (drop at octets.now)) }
{
    if octets.count() < at + 8 {
        return Err(truncated(octets));
    }
    Ok(u64_in(octets, at))
}

/// Passes over a number of so many octets, each of whose values is right, or answers G1.
#[tactic(auto, unfolding(its_formats::specs::Format::number_at))]
pub(crate) fn pass_number<H: Head>(
    octets: &Octets<'_, H>,
    at: usize,
    count: usize,
) -> Result<(), Fault>
    requires { at + count < 2 ^ 32 }
    ensures { Gives (λ _. big_number count (drop at octets.now)) result
        (number_at count at octets.now) }
{
    if octets.count() < at + count {
        return Err(truncated(octets));
    }
    Ok(())
}

/// Passes over so many octets, or answers G1.
#[tactic(auto, unfolding(its_formats::specs::Format::octets_at))]
pub(crate) fn check_octets<H: Head>(
    octets: &Octets<'_, H>,
    at: usize,
    count: usize,
) -> Result<(), Fault>
    requires { at + count < 2 ^ 32 }
    ensures { Gives (λ _. take count (drop at octets.now)) result
        (octets_at count at octets.now) }
{
    if octets.count() < at + count {
        return Err(truncated(octets));
    }
    Ok(())
}

// Writing.

/// Writes these octets.
pub(crate) fn write_octets(out: &mut [u8], at: usize, from: &[u8])
    requires { at + length from.now ≤ length out.old }
    ensures puts { Puts out.old out.new at from.now }
    ensures bytes { IsBytes from.now }
{
    out[at..at + from.len()].copy_from_slice(from);
}

/// Writes a number of two octets.
pub(crate) fn write_u16(out: &mut [u8], at: usize, v: u16)
    requires { at + 2 ≤ length out.old }
    ensures { Puts out.old out.new at (big_bytes 2 v) }
{
    let mut octets = [0; 2];
    BigEndian::write_u16(&mut octets, v);
    write_octets(out, at, &octets);
}

/// Writes a number of four octets.
pub(crate) fn write_u32(out: &mut [u8], at: usize, v: u32)
    requires { at + 4 ≤ length out.old }
    ensures { Puts out.old out.new at (big_bytes 4 v) }
{
    let mut octets = [0; 4];
    BigEndian::write_u32(&mut octets, v);
    write_octets(out, at, &octets);
}

/// Writes a number of eight octets.
pub(crate) fn write_u64(out: &mut [u8], at: usize, v: u64)
    requires { at + 8 ≤ length out.old }
    ensures { Puts out.old out.new at (big_bytes 8 v) }
{
    let mut octets = [0; 8];
    BigEndian::write_u64(&mut octets, v);
    write_octets(out, at, &octets);
}
