//! Long position vectors (EN 302 636-4-1 clause 9): address, timestamp, place, accuracy, speed,
//! heading.

ghost use Rattle.std.specs.Prelude.{◌≡◌, ◌≤◌, ◌<◌, ◌+◌, ◌%◌, ◌^◌, length, nat_le};
ghost use Rattle.its_gnvalue.specs.Values.{IsSpeed};
ghost use Rattle.its_headers.specs.Encoding.{vector_octets, motion, IsVector};
ghost use Rattle.its_formats.specs.Format.{Gives};
ghost use Rattle.its_headers.specs.Format.{walk};
ghost use Rattle.its_headers.specs.Layout.{vector_format, vector_at};
ghost use Rattle.its_headers.specs.Layout.{latitude_test, longitude_test, is_individual, speed_of};
ghost use Rattle.its_headers.specs.Puts.{Puts};

use crate::wire::fields::{
    ADDRESS, HEADING, LATITUDE, LONGITUDE, MOTION, TIMESTAMP, fault, pass_number, u16_in, u32_at,
    u32_in, u64_at, u64_in, write_u16, write_u32, write_u64,
};
use crate::wire::octets::{Head, Octets};
use its_faults::{Fault, FaultKind};
use its_gnvalue::{GnAddress, LongPv, Place};

/// The bit of position accuracy, above those of the speed.
const ACCURATE: u16 = 0x8000;

/// Checks the vector that begins at this octet.
#[tactic(auto, unfolding(crate::specs::Layout::vector_format))]
#[inline(always)]
pub(crate) fn check_vector<H: Head>(octets: &Octets<'_, H>, at: usize) -> Result<(), Fault>
    requires small { at ≤ 16 }
    requires start { H.SIZE ≤ at }
    ensures { Gives (λ _. (vector_at at octets.now, at + 24)) result
        (walk vector_format at octets.now) }
{
    if !is_individual(u64_at(octets, at + ADDRESS)?) {
        return Err(fault(at + ADDRESS, FaultKind::Position));
    }
    pass_number(octets, at + TIMESTAMP, 4)?;
    if !is_latitude(u32_at(octets, at + LATITUDE)?.cast_signed()) {
        return Err(fault(at + LATITUDE, FaultKind::Position));
    }
    if !is_longitude(u32_at(octets, at + LONGITUDE)?.cast_signed()) {
        return Err(fault(at + LONGITUDE, FaultKind::Position));
    }
    pass_number(octets, at + MOTION, 2)?;
    pass_number(octets, at + HEADING, 2)?;
    Ok(())
}

/// Whether an address has a MID of its own, and not that of a group.
fn is_individual(address: u64) -> bool
    ensures { result ≡ is_individual address }
{
    address >> 40 & 1 == 0
}

/// Whether a latitude is in range.
pub(crate) fn is_latitude(z: i32) -> bool
    ensures { result ≡ latitude_test z }
{
    -900_000_000 <= z && z <= 900_000_000
}

/// Whether a longitude is in range.
pub(crate) fn is_longitude(z: i32) -> bool
    ensures { result ≡ longitude_test z }
{
    -1_800_000_000 <= z && z <= 1_800_000_000
}

/// The vector that begins at this octet, which was checked.
#[inline(always)]
pub(crate) fn vector_in<H: Head>(octets: &Octets<'_, H>, at: usize) -> LongPv
    requires small { at ≤ 16 }
    requires start { H.SIZE ≤ at }
    requires here { at + 24 ≤ length octets.now }
    requires fits { IsVector (vector_at at octets.now) }
    ensures { result ≡ vector_at at octets.now }
{
    let address = GnAddress::within(u64_in(octets, at + ADDRESS));
    let tst = u32_in(octets, at + TIMESTAMP);
    let lat = u32_in(octets, at + LATITUDE).cast_signed();
    let lon = u32_in(octets, at + LONGITUDE).cast_signed();
    let motion = u16_in(octets, at + MOTION);
    let heading = u16_in(octets, at + HEADING);
    vector_of(address, tst, Place::within(lat, lon), motion, heading)
}

/// The vector of these fields, of which `motion` is accuracy and speed.
#[inline(always)]
fn vector_of(address: GnAddress, tst: u32, place: Place, motion: u16, heading: u16) -> LongPv
    ensures { result ≡ record {
      address = address;
      timestamp = tst;
      place = place;
      accurate = nat_le (2 ^ 15) motion;
      speed = speed_of (motion % 2 ^ 15);
      heading = heading;
    } }
{
    let (accurate, speed) = (motion >= ACCURATE, speed_of(motion % ACCURATE));
    LongPv::within(address, tst, place, accurate, speed, heading)
}

/// The speed of which 15 bits are the two's complement.
fn speed_of(bits: u16) -> i16
    requires { bits < 2 ^ 15 }
    ensures value { result ≡ speed_of bits }
    ensures range { IsSpeed result }
{
    if bits < 0x4000 {
        bits as i16
    } else {
        -((ACCURATE - bits) as i16)
    }
}

/// Writes a vector, 24 octets.
pub(crate) fn write_vector(out: &mut [u8], at: usize, v: LongPv)
    requires { at + 24 ≤ length out.old }
    ensures puts { Puts out.old out.new at (vector_octets v) }
    ensures fits { IsVector v }
{
    write_u64(out, at + ADDRESS, v.address().as_u64());
    write_u32(out, at + TIMESTAMP, v.tst());
    write_u32(out, at + LATITUDE, v.place().lat().cast_unsigned());
    write_u32(out, at + LONGITUDE, v.place().lon().cast_unsigned());
    write_u16(out, at + MOTION, motion_of(v.pai(), v.speed()));
    write_u16(out, at + HEADING, v.heading());
}

/// The accuracy bit (PAI), then the speed in 15 bits as two's complement.
fn motion_of(accurate: bool, speed: i16) -> u16
    requires { IsSpeed speed }
    ensures { result ≡ motion accurate speed }
{
    let bits = if speed < 0 {
        (0x4000 + (speed + 0x4000)) as u16
    } else {
        speed as u16
    };
    if accurate { ACCURATE + bits } else { bits }
}
